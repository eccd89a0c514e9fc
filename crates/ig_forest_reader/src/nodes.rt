//! Reading nodes.
ghost use Rattle.std.specs.Prelude.{◌≡◌, ◌++◌, ◌∷◌, ◌<◌, ℕ, List, [], MatchOption, OnOk};
ghost use Rattle.std.specs.Prelude.{encode_utf8_all};
ghost use Rattle.std.specs.Fmt.{decimal};
ghost use Rattle.ig_text.specs.Limits.{numbers_end};
ghost use Rattle.ig_item.specs.declared.core_grammar.Nonterminal.{Nonterminal as nonterminal_type};
ghost use Rattle.ig_forest_reader.specs.Shown.{IsIndex, Keeps, NoNode, NoNodeLine, NoNodes};
ghost use Rattle.ig_forest_reader.specs.Shown.{NodeLineRead, NodeRead, NodesRead};
ghost use Rattle.ig_forest_reader.specs.Shown.{HeadRead, NoStart, Reads, StartRead};
ghost use Rattle.ig_forest_reader.specs.Written.{IsNamed, TellsNames};

use crate::fault::ForestFault;
use crate::fronts::{read_behind, read_behind_number, read_last_span, split_word};
use crate::lists::push_values;
use crate::names::{NameTable, nonterminal_of};
use crate::tables::{push_list, push_node};
use crate::tags::push_choices;
use ig_expr::Value;
use ig_forest_tables::{Choice, NodeRow, NodeRows};
use ig_item::{Core, EnvironmentTable};
use std::alloc::Global;

/// What stands at the front of the line of that number up to its values: what it is of, the
/// number, and the name of its nonterminal.
#[inline(always)]
pub(crate) fn read_head<'a>(
    index: &NameTable<'_>,
    what: &[u8],
    number: u32,
    bytes: &'a [u8],
) -> Option<(u32, &'a [u8])>
    ensures read { (core : List nonterminal_type) → IsIndex core index.now →
        MatchOption result (Unit {0})
        (λ r. HeadRead core what.now number bytes.now r.1.now r.0) }
    ensures told { (core : List nonterminal_type) (n : ℕ) (name us : List ℕ) → TellsNames core →
        IsIndex core index.now → number < numbers_end → IsNamed core n name →
        bytes.now ≡ what.now ++
        (decimal number ++ (32 ∷ (encode_utf8_all name ++ (32 ∷ (40 ∷ us))))) →
        MatchOption result ⊥ (λ r. (r.0 ≡ n) × (r.1.now ≡ us)) }
{
    let Some(begun) = read_behind(bytes, what) else {
        return None;
    };
    let Some(behind) = read_behind_number(begun, number) else {
        return None;
    };
    let Some(named) = read_behind(behind, b" ") else {
        return None;
    };
    let (name, second) = split_word(named);
    let Some(nonterminal) = nonterminal_of(index, name) else {
        return None;
    };
    let Some(values) = read_behind(second, b" (") else {
        return None;
    };
    Some((nonterminal, values))
}

/// What stands at the front of the line of that number with its values, which are added.
#[inline(always)]
pub(crate) fn read_start<'a>(
    out: &mut Vec<Value>,
    index: &NameTable<'_>,
    what: &[u8],
    number: u32,
    bytes: &'a [u8],
) -> Result<(u32, &'a [u8]), ForestFault>
    ensures { (core : List nonterminal_type) → TellsNames core → IsIndex core index.now → Reads
        (λ r. StartRead core what.now number bytes.now r.1.now out.old.items out.new.items r.0)
        (NoStart core what.now number bytes.now) result }
{
    let Some((nonterminal, begun)) = read_head(index, what, number, bytes) else {
        return Err(ForestFault::NotAForest);
    };
    let behind = push_values(out, begun, b')')?;
    let Some(rest) = read_behind(behind, b" ") else {
        return Err(ForestFault::NotAForest);
    };
    Ok((nonterminal, rest))
}

/// The line of the node of that number, whose values are added to the lists.
fn read_node_line<'a>(
    alloc: Global,
    lists: &mut EnvironmentTable,
    index: &NameTable<'_>,
    number: u32,
    bytes: &'a [u8],
) -> Result<(NodeRow, &'a [u8]), ForestFault>
    ensures keeps { OnOk result (Keeps lists.old lists.new) }
    ensures read { (core : List nonterminal_type) → TellsNames core → IsIndex core index.now →
        Reads (λ r. NodeLineRead core lists.new number bytes.now r.1.now r.0)
        (NoNodeLine core number bytes.now) result }
{
    let mut values = Vec::new(alloc);
    let (nonterminal, behind) = read_start(&mut values, index, b"node ", number, bytes)?;
    let Some((span, rest)) = read_last_span(behind) else {
        return Err(ForestFault::NotAForest);
    };
    let place = push_list(lists, values.as_slice())?;
    let row = NodeRow {
        start: span.begin,
        end: span.end,
        nonterminal,
        values: place,
    };
    Ok((row, rest))
}

/// The node of that number with its alternatives, which pass through that list.
fn read_node<'a>(
    alloc: Global,
    lists: &mut EnvironmentTable,
    nodes: &mut NodeRows,
    choices: &mut Vec<Choice>,
    index: &NameTable<'_>,
    core: &Core,
    number: u32,
    bytes: &'a [u8],
) -> Result<&'a [u8], ForestFault>
    requires tells { TellsNames core.now }
    requires index { IsIndex core.now index.now }
    ensures keeps { OnOk result (Keeps lists.old lists.new) }
    ensures read { Reads
        (λ rest. NodeRead core.now lists.new number bytes.now rest.now nodes.old nodes.new)
        (NoNode core.now lists.new number bytes.now) result }
{
    let (row, behind) = read_node_line(alloc, lists, index, number, bytes)?;
    choices.clear();
    let rest = push_choices(choices, core, row.nonterminal, behind)?;
    push_node(nodes, row, choices.as_slice())?;
    Ok(rest)
}

/// So many nodes, which are numbered from 0.
pub(crate) fn push_nodes<'a>(
    alloc: Global,
    lists: &mut EnvironmentTable,
    nodes: &mut NodeRows,
    index: &NameTable<'_>,
    core: &Core,
    many: u32,
    bytes: &'a [u8],
) -> Result<&'a [u8], ForestFault>
    requires tells { TellsNames core.now }
    requires index { IsIndex core.now index.now }
    requires none { nodes.old ≡ [] }
    ensures { Reads (λ rest. NodesRead core.now lists.new many bytes.now rest.now nodes.new)
        (NoNodes core.now lists.new many bytes.now) result }
{
    let mut choices: Vec<Choice> = Vec::new(alloc);
    let mut rest = bytes;
    for number in 0..many {
        rest = read_node(alloc, lists, nodes, &mut choices, index, core, number, rest)?;
    }
    Ok(rest)
}
