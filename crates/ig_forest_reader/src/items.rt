//! Reading items.
ghost use Rattle.std.specs.Prelude.{◌≡◌, ◌++◌, ◌∷◌, ◌<◌, ℕ, List, [], IfOk, MatchOption, OnOk};
ghost use Rattle.std.specs.Fmt.{decimal};
ghost use Rattle.ig_text.specs.Limits.{numbers_end};
ghost use Rattle.ig_item.specs.declared.core_grammar.Nonterminal.{Nonterminal as nonterminal_type};
ghost use Rattle.ig_forest_reader.specs.Shown.{IsIndex, ItemLineRead, ItemRead, ItemsRead, Keeps};
ghost use Rattle.ig_forest_reader.specs.Shown.{NoItemLine, NoItemRead, NoItems, NoPlace, PlaceRead};
ghost use Rattle.ig_forest_reader.specs.Shown.{Reads};
ghost use Rattle.ig_forest_reader.specs.Written.{TellsNames};

use crate::fault::ForestFault;
use crate::fronts::{read_behind, read_last_span, read_number};
use crate::lists::{push_entries, push_values};
use crate::names::NameTable;
use crate::nodes::read_start;
use crate::tables::{push_item, push_list};
use ig_expr::Value;
use ig_forest_live::ItemRow;
use ig_forest_tables::{Entry, ItemTable};
use ig_item::EnvironmentTable;
use std::alloc::Global;

/// An alternative, a dot, and what stands after the opening bracket.
fn read_dot(bytes: &[u8]) -> Option<(u32, u32, &[u8])>
    ensures small { MatchOption result (Unit {0})
        (λ r. (r.0 < numbers_end) × (r.1 < numbers_end)) }
    ensures exact { MatchOption result (Unit {0}) (λ r. bytes.now ≡
        decimal r.0 ++ (32 ∷ (decimal r.1 ++ (32 ∷ (91 ∷ r.2.now))))) }
    ensures told { (a d : ℕ) (us : List ℕ) → a < numbers_end → d < numbers_end →
        bytes.now ≡ decimal a ++ (32 ∷ (decimal d ++ (32 ∷ (91 ∷ us)))) →
        MatchOption result ⊥ (λ r. (r.0 ≡ a) × (r.1 ≡ d) × (r.2.now ≡ us)) }
{
    let Some((alternative, behind)) = read_number(bytes) else {
        return None;
    };
    let Some(second) = read_behind(behind, b" ") else {
        return None;
    };
    let Some((dot, third)) = read_number(second) else {
        return None;
    };
    let Some(rest) = read_behind(third, b" [") else {
        return None;
    };
    Some((alternative, dot, rest))
}

/// The line of an item after its values, which are in the lists. What is bound is added.
fn read_place<'a>(
    lists: &mut EnvironmentTable,
    env: &mut Vec<Value>,
    nonterminal: u32,
    values: u32,
    bytes: &'a [u8],
) -> Result<(ItemRow, &'a [u8]), ForestFault>
    ensures keeps { OnOk result (Keeps lists.old lists.new) }
    ensures given { IfOk result (λ r. (r.0.nonterminal ≡ nonterminal) × (r.0.values ≡ values)) }
    ensures read { Reads (λ r. PlaceRead lists.new bytes.now r.1.now env.old.items r.0)
        (NoPlace bytes.now) result }
{
    let Some((alternative, dot, begun)) = read_dot(bytes) else {
        return Err(ForestFault::NotAForest);
    };
    let behind = push_values(env, begun, b']')?;
    let Some(second) = read_behind(behind, b" ") else {
        return Err(ForestFault::NotAForest);
    };
    let Some((span, rest)) = read_last_span(second) else {
        return Err(ForestFault::NotAForest);
    };
    let env = push_list(lists, env.as_slice())?;
    let row = ItemRow {
        start: span.begin,
        position: span.end,
        nonterminal,
        values,
        alternative,
        dot,
        env,
    };
    Ok((row, rest))
}

/// The line of the item of that number, whose values and environment are added to the lists.
fn read_item_line<'a>(
    alloc: Global,
    lists: &mut EnvironmentTable,
    index: &NameTable<'_>,
    number: u32,
    bytes: &'a [u8],
) -> Result<(ItemRow, &'a [u8]), ForestFault>
    ensures keeps { OnOk result (Keeps lists.old lists.new) }
    ensures read { (core : List nonterminal_type) → TellsNames core → IsIndex core index.now →
        Reads (λ r. ItemLineRead core lists.new number bytes.now r.1.now r.0)
        (NoItemLine core number bytes.now) result }
{
    let mut env = Vec::new(alloc);
    let (nonterminal, behind) = read_start(&mut env, index, b"item ", number, bytes)?;
    let values = push_list(lists, env.as_slice())?;
    read_place(lists, &mut env, nonterminal, values, behind)
}

/// The item of that number with its entries, which pass through that list.
fn read_item<'a>(
    alloc: Global,
    lists: &mut EnvironmentTable,
    items: &mut ItemTable,
    entries: &mut Vec<Entry>,
    index: &NameTable<'_>,
    number: u32,
    bytes: &'a [u8],
) -> Result<&'a [u8], ForestFault>
    ensures keeps { OnOk result (Keeps lists.old lists.new) }
    ensures read { (core : List nonterminal_type) → TellsNames core → IsIndex core index.now →
        Reads (λ rest. ItemRead core lists.new number bytes.now rest.now items.old items.new)
        (NoItemRead core lists.new number bytes.now) result }
{
    let (row, behind) = read_item_line(alloc, lists, index, number, bytes)?;
    entries.clear();
    let rest = push_entries(entries, behind)?;
    push_item(items, row, entries.as_slice())?;
    Ok(rest)
}

/// So many items, which are numbered from 0.
pub(crate) fn push_items<'a>(
    alloc: Global,
    lists: &mut EnvironmentTable,
    items: &mut ItemTable,
    index: &NameTable<'_>,
    many: u32,
    bytes: &'a [u8],
) -> Result<&'a [u8], ForestFault>
    requires none { items.old ≡ [] }
    ensures keeps { OnOk result (Keeps lists.old lists.new) }
    ensures read { (core : List nonterminal_type) → TellsNames core → IsIndex core index.now →
        Reads (λ rest. ItemsRead core lists.new many bytes.now rest.now items.new)
        (NoItems core lists.new many bytes.now) result }
{
    let mut entries: Vec<Entry> = Vec::new(alloc);
    let mut rest = bytes;
    for number in 0..many {
        rest = read_item(alloc, lists, items, &mut entries, index, number, rest)?;
    }
    Ok(rest)
}
