//! What a load says, and its text.
ghost use Rattle.std.specs.Prelude.{◌≡◌, ◌++◌, IfOk, OnOk, string_bytes};
ghost use Rattle.std.specs.Fmt.{decimal};
ghost use Rattle.ig_load.specs.Line.{answer_text, summary_text};

use itoa::Buffer;
use std::alloc::{AllocError, Global};

/// What a load says of its run and its forest.
#[derive(Clone, Copy, PartialEq, Eq, Debug)]
pub struct Summary {
    /// How many items are reachable.
    pub items: u32,
    /// How many nodes the reduced forest has.
    pub nodes: u32,
    /// Whether some node is ambiguous, so that two trees are permitted.
    pub ambiguous: bool,
    /// Whether there are trees above each height.
    pub cyclic: bool,
}

/// The line of a summary, as UTF-8: `items`, `nodes`, `ambiguous` and `cyclic`, each with its
/// number or with `yes` or `no`. Refuses only for want of memory.
pub fn show_summary(alloc: Global, summary: &Summary) -> Result<Vec<u8>, AllocError>
    ensures { IfOk result (λ bytes. bytes.items ≡ summary_text summary.now) }
{
    let mut out = String::new(alloc);
    push_number(&mut out, "items ", summary.items)?;
    push_number(&mut out, " nodes ", summary.nodes)?;
    push_answer(&mut out, " ambiguous ", summary.ambiguous)?;
    push_answer(&mut out, " cyclic ", summary.cyclic)?;
    out.push_str("\n")?;
    Ok(out.into_bytes())
}

/// Adds a word and a number.
fn push_number(out: &mut String, word: &str, number: u32) -> Result<(), AllocError>
    ensures { OnOk result (string_bytes out.new ≡ string_bytes out.old ++
        (word.now ++ decimal number)) }
{
    let mut digits = Buffer::new();
    out.push_str(word)?;
    out.push_str(digits.format(number))
}

/// Adds a word and `yes` or `no`.
fn push_answer(out: &mut String, word: &str, answer: bool) -> Result<(), AllocError>
    ensures { OnOk result (string_bytes out.new ≡ string_bytes out.old ++
        (word.now ++ answer_text answer)) }
{
    out.push_str(word)?;
    if answer {
        out.push_str("yes")
    } else {
        out.push_str("no")
    }
}
