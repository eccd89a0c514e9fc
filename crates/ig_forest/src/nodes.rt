//! The nodes of a forest, read off its complete items in order.
ghost use Rattle.std.specs.Prelude.{◌≡◌, ◌<◌, ◌+◌, ◌-◌, false, IfOk, OnOk, IsTrue, length};
ghost use Rattle.ig_text.specs.Limits.{numbers_end};
ghost use Rattle.ig_forest_live.specs.declared.mark.Mark.TheVariants.{Complete};
ghost use Rattle.ig_forest.specs.CodeDone.{IsTagged, StandsLast};
ghost use Rattle.ig_forest_live.specs.LiveOrder.{AreLiveInOrder};
ghost use Rattle.ig_forest_live.specs.Founds.{AreThereIn, number_cmp_in};
ghost use Rattle.ig_forest.specs.CodeNodes.{AreNodesWith, EndsWith, MarkCompleteIn, NodesUpToIn};
ghost use Rattle.ig_forest.specs.CodeNodes.{Opens, rows_at};
ghost use Rattle.ig_forest.specs.CodeTables.{node_of};
ghost use Rattle.ig_forest_tables.specs.Orders.{choice_cmp};

use ig_forest_live::{Found, ItemRow, Mark};
use ig_forest_tables::{Choice, NodeRow, NodeRows};
use ig_item::{Core, alternatives_are_one};
use ig_text::Tag;
use std::alloc::{AllocError, Global};

/// Nodes, and of each item of the forest that is complete the number of its node.
#[derive(Drop)]
pub(crate) struct Nodes {
    pub table: NodeRows,
    pub numbers: Vec<u32>,
}

/// The nodes of the complete ones among the live items, which are in order. The alternatives of a
/// node are found in the order of their items, and put in their own.
pub(crate) fn nodes_of(
    alloc: Global,
    core: &Core,
    found: &Found,
    marks: &[Mark],
    order: &[u32],
) -> Result<Nodes, AllocError>
    requires few { length marks.now < numbers_end }
    requires there { AreThereIn found.now (length marks.now) }
    requires complete { MarkCompleteIn core.now found.now marks.now }
    requires order { AreLiveInOrder marks.now (number_cmp_in found.now) order.now }
    ensures { IfOk result (λ nodes. AreNodesWith choice_cmp core.now
        (rows_at found.now order.now)
        nodes.table nodes.numbers.items) }
{
    let numbers = Vec::with_capacity(alloc, order.len())?;
    let mut nodes = Nodes {
        table: NodeRows::new(alloc),
        numbers,
    };
    for place in 0..order.len() {
        add_item(core, found, marks, order, &mut nodes, place)?;
    }
    nodes.table.put_in_order();
    Ok(nodes)
}

/// Adds the item at that place, where it is complete.
fn add_item(
    core: &Core,
    found: &Found,
    marks: &[Mark],
    order: &[u32],
    nodes: &mut Nodes,
    place: usize,
) -> Result<(), AllocError>
    requires few { length marks.now < numbers_end }
    requires there { AreThereIn found.now (length marks.now) }
    requires complete { MarkCompleteIn core.now found.now marks.now }
    requires order { AreLiveInOrder marks.now (number_cmp_in found.now) order.now }
    requires place { place < length order.now }
    requires before { NodesUpToIn core.now found.now order.now place
        nodes.old.table nodes.old.numbers.items }
    ensures { OnOk result (NodesUpToIn core.now found.now order.now (place + 1)
        nodes.new.table nodes.new.numbers.items) }
{
    alternatives_are_one();
    let number = order[place];
    if !is_complete(marks[number as usize]) {
        nodes.numbers.push(0)?;
        return Ok(());
    }
    let row = found.row(number);
    let tag = tag_of(core, row);
    add_node(&mut nodes.table, node_of(row))?;
    nodes.table.push_choice(choice_at(tag, place))?;
    let last = last_number(&nodes.table);
    nodes.numbers.push(last)?;
    Ok(())
}

/// Whether the mark is that of a complete item.
fn is_complete(mark: Mark) -> bool
    ensures yes { IsTrue result → mark ≡ Complete }
    ensures no { result ≡ false → mark ≡ Complete → ⊥ }
{
    match mark {
        Mark::Dead => false,
        Mark::Open => false,
        Mark::Complete => true,
    }
}

/// The tag of a complete item's alternative.
fn tag_of(core: &Core, row: ItemRow) -> Tag
    requires { StandsLast core.now row }
    ensures { IsTagged core.now row result }
{
    let Some(tag) = core.tag(row.nonterminal, row.alternative) else {
        unreachable!()
    };
    tag
}

/// The alternative whose complete item stands at that place.
fn choice_at(tag: Tag, place: usize) -> Choice
    requires { place < numbers_end }
    ensures { result ≡ record { tag = tag; item = place } }
{
    Choice {
        tag,
        item: place as u32,
    }
}

/// Adds the node, where it isn't the last one already.
fn add_node(table: &mut NodeRows, node: NodeRow) -> Result<(), AllocError>
    ensures { OnOk result (Opens node table.old table.new) }
{
    if ends_with(table, node) {
        return Ok(());
    }
    table.push(node)?;
    Ok(())
}

/// Whether this is the last node.
fn ends_with(table: &NodeRows, node: NodeRow) -> bool
    ensures is { IsTrue result → EndsWith table.now node }
    ensures other { result ≡ false → EndsWith table.now node → ⊥ }
{
    match table.last_row() {
        Some(row) => row == node,
        None => false,
    }
}

/// The number of the last node.
fn last_number(table: &NodeRows) -> u32
    requires some { 0 < length table.now }
    requires few { length table.now < numbers_end }
    ensures { result ≡ length table.now - 1 }
{
    table.len() as u32 - 1
}

/// The node of a complete item.
fn node_of(row: ItemRow) -> NodeRow
    ensures { result ≡ node_of row }
{
    NodeRow {
        start: row.start,
        end: row.position,
        nonterminal: row.nonterminal,
        values: row.values,
    }
}
