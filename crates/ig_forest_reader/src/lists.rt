//! Reading lists of lines from the front of some bytes.
ghost use Rattle.std.specs.Prelude.{◌≡◌, ◌∷◌, ℕ, List, [], ◌++◌, IfOk, OnOk, MatchBool};
ghost use Rattle.std.specs.Prelude.{flat_map, codes};
ghost use Rattle.std.specs.List.{AllByRecursion};
ghost use Rattle.ig_show_texts.specs.ForestText.{entry_text};
ghost use Rattle.ig_forest_tables.specs.declared.entry.Entry.{Entry as entry_type};
ghost use Rattle.ig_expr.specs.declared.value.Value.{Value as value_type};
ghost use Rattle.ig_show_texts.specs.Listed.{comma_separated};
ghost use Rattle.ig_show_texts.specs.ValueText.{value_text};
ghost use Rattle.ig_forest_reader.specs.Runs.{Stops, NoItem, IsInner, IsComma};
ghost use Rattle.ig_forest_reader.specs.Shown.{Added, NoValues, Reads, ValuesRead};
ghost use Rattle.ig_forest_reader.specs.Written.{Closes, IsSmall, IsSmallEntry};

use crate::fault::ForestFault;
use crate::fronts::{read_behind, read_entry, read_value};
use ig_expr::Value;
use ig_forest_tables::Entry;
use std::alloc::AllocError;

/// Whether the bytes end, or go on with an item.
fn is_item(bytes: &[u8]) -> bool
    ensures { MatchBool result (Stops NoItem bytes.now) (Stops NoItem bytes.now → ⊥) }
{
    match bytes {
        [] => true,
        [c, ..] => *c == 105,
    }
}

/// Adds the entries whose lines stand at the front, up to the end or the next item, and answers
/// what stands after them.
pub(crate) fn push_entries<'a>(
    out: &mut Vec<Entry>,
    bytes: &'a [u8],
) -> Result<&'a [u8], AllocError>
    ensures added { IfOk result (λ rest. Added IsSmallEntry (flat_map entry_text)
        bytes.now rest.now out.old.items out.new.items) }
    ensures told { (xs : List entry_type) (us : List ℕ) → AllByRecursion IsSmallEntry xs →
        Stops NoItem us → bytes.now ≡ flat_map entry_text xs ++ us →
        IfOk result (λ rest. (rest.now ≡ us) × (out.new.items ≡ out.old.items ++ xs)) }
{
    let mut rest = bytes;
    for _ in 0..bytes.len() {
        if is_item(rest) {
            return Ok(rest);
        }
        let Some((entry, behind)) = read_entry(rest) else {
            return Ok(rest);
        };
        out.push(entry)?;
        rest = behind;
    }
    Ok(rest)
}

/// Adds the values that stand at the front, each after a comma, and answers what stands after
/// them.
fn push_others<'a>(out: &mut Vec<Value>, bytes: &'a [u8]) -> Result<&'a [u8], AllocError>
    ensures added { IfOk result (λ rest. Added IsSmall (flat_map (λ y. codes "," ++ value_text y))
        bytes.now rest.now out.old.items out.new.items) }
    ensures told { (xs : List value_type) (us : List ℕ) → AllByRecursion IsSmall xs →
        Stops IsInner us → Stops IsComma us →
        bytes.now ≡ flat_map (λ y. codes "," ++ value_text y) xs ++ us →
        IfOk result (λ rest. (rest.now ≡ us) × (out.new.items ≡ out.old.items ++ xs)) }
{
    let mut rest = bytes;
    for _ in 0..bytes.len() {
        let Some(behind) = read_behind(rest, b",") else {
            return Ok(rest);
        };
        let Some((value, after)) = read_value(behind) else {
            return Ok(rest);
        };
        out.push(value)?;
        rest = after;
    }
    Ok(rest)
}

/// Adds a value.
fn push_value(out: &mut Vec<Value>, value: Value) -> Result<(), AllocError>
    ensures { OnOk result (out.new.items ≡ out.old.items ++ value ∷ []) }
{
    out.push(value)?;
    Ok(())
}

/// Adds a first value and those after it, and answers what stands after them.
fn push_first<'a>(out: &mut Vec<Value>, bytes: &'a [u8]) -> Result<&'a [u8], ForestFault>
    ensures added { IfOk result (λ rest. Added IsSmall (comma_separated value_text)
        bytes.now rest.now out.old.items out.new.items) }
    ensures told { (x : value_type) (xs : List value_type) (us : List ℕ) → IsSmall x →
        AllByRecursion IsSmall xs → Stops IsInner us → Stops IsComma us →
        bytes.now ≡ comma_separated value_text (x ∷ xs) ++ us →
        Reads (λ rest. (rest.now ≡ us) × (out.new.items ≡ out.old.items ++ x ∷ xs)) ⊥ result }
{
    let Some((value, behind)) = read_value(bytes) else {
        return Err(ForestFault::NotAForest);
    };
    push_value(out, value)?;
    Ok(push_others(out, behind)?)
}

/// Adds the values that stand at the front, up to the closing bracket, and answers what stands
/// after that.
#[inline(always)]
pub(crate) fn push_values<'a>(
    out: &mut Vec<Value>,
    bytes: &'a [u8],
    close: u8,
) -> Result<&'a [u8], ForestFault>
    requires { Closes close }
    ensures { Reads (λ rest. ValuesRead close bytes.now rest.now out.old.items out.new.items)
        (NoValues close bytes.now) result }
{
    if let Some(rest) = read_behind(bytes, &[close]) {
        return Ok(rest);
    }
    let behind = push_first(out, bytes)?;
    let Some(rest) = read_behind(behind, &[close]) else {
        return Err(ForestFault::NotAForest);
    };
    Ok(rest)
}
