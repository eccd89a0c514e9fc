//! How tags print.

ghost use Rattle.std.specs.Prelude.{◌≡◌, ◌++◌, OnOk, [], codes, string_bytes};
ghost use Rattle.std.specs.Fmt.{decimal};
ghost use Rattle.ig_show_texts.specs.TagText.{tag_text};

use crate::values::{push_number, push_word};
use ig_text::{Tag, Word};
use std::alloc::AllocError;

/// Adds the number of an alternative of a declaration, behind a point.
fn push_alternative(out: &mut String, alternative: u32) -> Result<(), AllocError>
    ensures { OnOk result (string_bytes out.new ≡ string_bytes out.old ++
        (codes "." ++ decimal alternative)) }
{
    out.push_str(".")?;
    push_number(out, alternative)
}

/// Adds a tag without the name of its nonterminal, as UTF-8: of alternative k of a declaration
/// `.k`, of the others one of the `$` names. Refuses only for want of memory.
pub fn push_nameless(out: &mut String, tag: Tag) -> Result<(), AllocError>
    ensures { OnOk result (string_bytes out.new ≡ string_bytes out.old ++ tag_text [] tag) }
{
    match tag {
        Tag::Rule { alternative, .. } => push_alternative(out, alternative),
        Tag::Nil => out.push_str("$nil"),
        Tag::Snoc => out.push_str("$snoc"),
        Tag::One => out.push_str("$one"),
        Tag::More => out.push_str("$more"),
        Tag::Absent => out.push_str("$none"),
        Tag::Present => out.push_str("$some"),
        Tag::GroupAlt { number } => {
            out.push_str("$group.")?;
            push_number(out, number)
        }
        Tag::Root => out.push_str("$root"),
    }
}

/// Adds a tag of a nonterminal of that name, as UTF-8: of alternative k of a declaration the name
/// and `.k`, of the others one of the `$` names, without the name. Refuses only for want of memory.
pub fn push_tag(out: &mut String, name: &Word, tag: Tag) -> Result<(), AllocError>
    ensures { OnOk result (string_bytes out.new ≡ string_bytes out.old ++ tag_text name.now tag) }
{
    if let Tag::Rule { .. } = tag {
        push_word(out, name)?;
    }
    push_nameless(out, tag)
}
