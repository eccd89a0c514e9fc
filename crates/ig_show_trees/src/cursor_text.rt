//! The text of a cursor, and cursors read from their texts.

ghost use Rattle.std.specs.Prelude.{◌≡◌, ◌++◌, ◌∷◌, ◌<◌, OnOk, IfOk, IfErr, List, ℕ, Some};
ghost use Rattle.std.specs.Prelude.{◌↔◌, IsTrue, string_bytes, option_map};
ghost use Rattle.std.specs.Fmt.{decimal};
ghost use Rattle.ig_text.specs.Limits.{numbers_end};
ghost use Rattle.ig_forest.specs.Cursors.{IsShortCursor};
ghost use Rattle.ig_show_trees.specs.TreeText.{cursor_text};
ghost use Rattle.ig_show_trees.specs.declared.cursor_text.CursorFault.TheVariants.{NotACursor};

use ig_forest::Cursor;
use ig_show_texts::push_number;
use ig_text::Sequence;
use std::alloc::{AllocError, Global};

/// Why a text isn't read as a cursor.
#[derive(Clone, Copy, PartialEq, Eq, Debug, Drop)]
pub enum CursorFault {
    /// It isn't the text of a cursor.
    NotACursor,
    /// Memory ran out.
    Memory,
}

impl From<AllocError> for CursorFault {
    ghost use Rattle.std.specs.Prelude.{◌≡◌};
    ghost use Rattle.ig_show_trees.specs.declared.cursor_text.CursorFault.TheVariants.{Memory};

    ghost from_gives = { λ _ fault. fault ≡ Memory };

    fn from(_error: AllocError) -> CursorFault {
        CursorFault::Memory
    }
}

/// Adds the text of a cursor, as UTF-8: its numbers with a point between two, `only` where it has
/// none. Refuses only for want of memory.
pub fn push_cursor(out: &mut String, cursor: &Cursor) -> Result<(), AllocError>
    ensures { OnOk result (string_bytes out.new ≡ string_bytes out.old ++
        cursor_text cursor.now) }
{
    let Some((first, others)) = cursor.as_slice().split_first() else {
        return out.push_str("only");
    };
    push_number(out, *first)?;
    for other in others {
        out.push_str(".")?;
        push_number(out, *other)?;
    }
    Ok(())
}

/// The text of a cursor, as UTF-8, as `push_cursor` adds it. Refuses only for want of memory.
pub fn show_cursor(alloc: Global, cursor: &Cursor) -> Result<Vec<u8>, AllocError>
    ensures { IfOk result (λ bytes. bytes.items ≡ cursor_text cursor.now) }
{
    let mut out = String::new(alloc);
    push_cursor(&mut out, cursor)?;
    Ok(out.into_bytes())
}

/// A number of 32 bits; it may have leading zeros or a plus sign.
fn read_number(piece: &str) -> Option<u32>
    ensures { (n : ℕ) → n < numbers_end → decimal n ≡ piece.now → result ≡ Some n }
{
    piece.parse::<u32>().ok()
}

/// The numbers of a text, with a point between two; `None` where one of them isn't a number. They
/// may have leading zeros or a plus sign.
fn read_numbers(alloc: Global, word: &str) -> Result<Option<Vec<u32>>, AllocError>
    ensures { (n : ℕ) (ns : List ℕ) → IsShortCursor (n ∷ ns) → cursor_text (n ∷ ns) ≡ word.now →
        IfOk result (λ found. option_map (λ numbers. numbers.items) found ≡ Some (n ∷ ns)) }
{
    let mut numbers = Vec::new(alloc);
    for piece in word.split('.') {
        let Some(number) = read_number(piece) else {
            return Ok(None);
        };
        numbers.push(number)?;
    }
    Ok(Some(numbers))
}

/// The numbers of the cursor with that text, where there is one.
fn read_loosely(alloc: Global, word: &str) -> Result<Option<Vec<u32>>, AllocError>
    ensures { (cs : List ℕ) → IsShortCursor cs → cursor_text cs ≡ word.now →
        IfOk result (λ found. option_map (λ numbers. numbers.items) found ≡ Some cs) }
{
    if word == "only" {
        return Ok(Some(Vec::new(alloc)));
    }
    read_numbers(alloc, word)
}

/// Whether the bytes are those of the word.
fn is_text(shown: &[u8], word: &str) -> bool
    ensures { IsTrue result ↔ (shown.now ≡ word.now) }
{
    let bytes = word.as_bytes();
    shown == bytes
}

/// The cursor with that text. `NotACursor` exactly where no cursor has it: a number has a leading
/// zero or more than 32 bits, say. What is read is written again, and has to be the same text.
pub fn read_cursor(alloc: Global, word: &str) -> Result<Cursor, CursorFault>
    ensures read { IfOk result (λ cursor. cursor_text cursor ≡ word.now) }
    ensures refused { IfErr result (λ fault. fault ≡ NotACursor →
        (cs : List ℕ) → IsShortCursor cs → cursor_text cs ≡ word.now → ⊥) }
{
    let Some(numbers) = read_loosely(alloc, word)? else {
        return Err(CursorFault::NotACursor);
    };
    let cursor = Sequence::from_vec(numbers);
    let shown = show_cursor(alloc, &cursor)?;
    if !is_text(shown.as_slice(), word) {
        return Err(CursorFault::NotACursor);
    }
    Ok(cursor)
}
