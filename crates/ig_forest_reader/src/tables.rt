//! Adding to the tables of a forest.
ghost use Rattle.std.specs.Prelude.{◌≡◌, ◌↔◌, ◌++◌, ◌∷◌, [], IfOk, IsTrue, OnOk, Some, slice_get};
ghost use Rattle.ig_forest_tables.specs.StoredNodes.{StoredNode};
ghost use Rattle.ig_forest_reader.specs.Shown.{Keeps};

use ig_expr::{Value, equal_values_are_one};
use ig_forest_live::ItemRow;
use ig_forest_tables::{Choice, Entry, ItemTable, NodeRow, NodeRows};
use ig_item::{EnvironmentTable, number};
use std::alloc::AllocError;

/// Whether both lists have the same values. Most have none.
#[inline(always)]
fn are_same(a: &[Value], b: &[Value]) -> bool
    ensures { IsTrue result ↔ (a.now ≡ b.now) }
{
    equal_values_are_one();
    if a.is_empty() {
        return b.is_empty();
    }
    a == b
}

/// Whether the list has that number.
#[inline(always)]
fn is_at(lists: &EnvironmentTable, k: u32, values: &[Value]) -> bool
    ensures { IsTrue result → slice_get lists.now k ≡ Some values.now }
{
    match lists.get(k) {
        Some(list) => are_same(list, values),
        None => false,
    }
}

/// The number of a list of values, which is added where it is neither the first one nor the last.
/// Refused for want of memory, and where the lists have 4,294,967,296 values or are as many.
#[inline(always)]
pub(crate) fn push_list(lists: &mut EnvironmentTable, values: &[Value]) -> Result<u32, AllocError>
    ensures there { IfOk result (λ k. slice_get lists.new k ≡ Some values.now) }
    ensures keeps { OnOk result (Keeps lists.old lists.new) }
{
    if is_at(lists, 0, values) {
        return Ok(0);
    }
    let next = number(lists.len())?;
    let last = next.saturating_sub(1);
    if is_at(lists, last, values) {
        return Ok(last);
    }
    lists.push(values)?;
    Ok(next)
}

/// Adds an item with these entries at the end. Most items have one.
pub(crate) fn push_item(
    items: &mut ItemTable,
    row: ItemRow,
    entries: &[Entry],
) -> Result<(), AllocError>
    ensures { OnOk result
        (items.new ≡ items.old ++ record { row = row; entries = entries.now } ∷ []) }
{
    match entries {
        [entry] => items.push_one(row, *entry),
        _ => items.push(row, entries),
    }
}

/// Adds a node with these alternatives at the end.
pub(crate) fn push_node(
    nodes: &mut NodeRows,
    row: NodeRow,
    choices: &[Choice],
) -> Result<(), AllocError>
    ensures { OnOk result
        (nodes.new ≡ nodes.old ++ record { row = row; alternatives = choices.now } ∷ []) }
{
    nodes.push(row)?;
    for choice in choices {
        nodes.push_choice(*choice)?;
    }
    Ok(())
}
