//! Whether what was read is a forest.
ghost use Rattle.std.specs.Prelude.{◌↔◌, ◌<◌, All, IsTrue, length};
ghost use Rattle.ig_forest_tables.specs.Forest.{EntryFits, IsForest, IsPrevious};
ghost use Rattle.ig_forest_tables.specs.Views.{item_node_view};
ghost use Rattle.ig_forest_reader.specs.Checks.{BeginsAlone, ChoicesThere, ItemFits, ItemsFit};
ghost use Rattle.ig_forest_reader.specs.Checks.{NodesFit};

use ig_forest_tables::{Child, Choice, Entry, ForestTables, ItemNode};

/// Whether the alternative is of one of so many items.
fn is_there(choice: Choice, items: u32) -> bool
    ensures { IsTrue result ↔ (choice.item < items) }
{
    choice.item < items
}

/// Whether each alternative is of one of so many items.
fn choices_fit(choices: &[Choice], items: u32) -> bool
    ensures { IsTrue result ↔ ChoicesThere items choices.now }
{
    for choice in choices {
        if !is_there(*choice, items) {
            return false;
        }
    }
    true
}

/// Whether the item of that number is there, with its dot one step before this one.
fn is_previous(forest: &ForestTables, dot: u32, prev: u32) -> bool
    ensures { IsTrue result ↔ IsPrevious forest.now dot prev }
{
    let Some(item) = forest.item(prev) else {
        return false;
    };
    dot > 0 && dot - 1 == item.dot
}

/// Whether what the entry names is there.
fn entry_fits(forest: &ForestTables, dot: u32, entry: Entry) -> bool
    ensures { IsTrue result ↔ EntryFits forest.now dot entry }
{
    match entry {
        Entry::Begin => dot == 0,
        Entry::Pass { prev } => is_previous(forest, dot, prev),
        Entry::Take {
            prev,
            child: Child::Leaf(_),
        } => is_previous(forest, dot, prev),
        Entry::Take {
            prev,
            child: Child::Node(node),
        } => is_previous(forest, dot, prev) && node < forest.nodes(),
    }
}

/// Whether what each entry names is there.
fn entries_fit(forest: &ForestTables, dot: u32, entries: &[Entry]) -> bool
    ensures { IsTrue result ↔ All (EntryFits forest.now dot) entries.now }
{
    for entry in entries {
        if !entry_fits(forest, dot, *entry) {
            return false;
        }
    }
    true
}

/// Whether the entries at dot 0 are `begin` alone.
fn begins(dot: u32, entries: &[Entry]) -> bool
    ensures { IsTrue result ↔ BeginsAlone dot entries.now }
{
    if dot > 0 {
        return true;
    }
    match entries {
        [Entry::Begin] => true,
        _ => false,
    }
}

/// Whether the entries of the item fit its dot, and what they name is there.
fn item_fits(forest: &ForestTables, item: &ItemNode<'_>) -> bool
    ensures { IsTrue result ↔ ItemFits forest.now (item_node_view item.now) }
{
    if !begins(item.dot, item.entries) {
        return false;
    }
    entries_fit(forest, item.dot, item.entries)
}

/// Whether the alternatives of each node are there.
fn nodes_fit(forest: &ForestTables) -> bool
    ensures { IsTrue result ↔ NodesFit forest.now }
{
    let items = forest.items();
    for k in 0..forest.nodes() {
        let Some(node) = forest.node(k) else {
            unreachable!()
        };
        if !choices_fit(node.alternatives, items) {
            return false;
        }
    }
    true
}

/// Whether the entries of each item are there.
fn items_fit(forest: &ForestTables) -> bool
    ensures { IsTrue result ↔ ItemsFit forest.now }
{
    for k in 0..forest.items() {
        let Some(item) = forest.item(k) else {
            unreachable!()
        };
        if !item_fits(forest, &item) {
            return false;
        }
    }
    true
}

/// Whether the root is one of the nodes.
fn root_fits(forest: &ForestTables) -> bool
    ensures { IsTrue result ↔ (forest.now.root < length forest.now.nodes) }
{
    forest.root() < forest.nodes()
}

/// Whether it is a forest.
pub(crate) fn is_forest(forest: &ForestTables) -> bool
    ensures { IsTrue result ↔ IsForest forest.now }
{
    if !root_fits(forest) {
        return false;
    }
    if !nodes_fit(forest) {
        return false;
    }
    items_fit(forest)
}
