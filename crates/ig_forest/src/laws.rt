//! What the reduced forest keeps to. The functions do nothing: their contracts are the laws.
ghost use Rattle.ig_forest.specs.Laws.{CursorsAreOrderedAsTrees, HasOneCursor, LiveIsLeast};
ghost use Rattle.ig_forest.specs.Laws.{LiveIsReachable, OnlyOne};
ghost use Rattle.ig_forest.specs.Laws.{ReducedHasNoKeyTwice, ReducedIsTrim, RootIsThere};
ghost use Rattle.ig_forest.specs.Laws.{TrimHasTrees, UnfoldsToCoreTrees};

use ig_expr::last_child_starts_decide;
use ig_item::{
    alternatives_are_one, alternatives_begin_together, complete_items_are_trees, environments_fit,
    environments_grow, items_are_in_text, items_are_reached_by_trees, reachable_is_closed,
    stands_before_one, steps_leave_environments, steps_leave_in_turn,
};

/// A core grammar and a text have one reduced forest at most, so one text of it. This law
/// computes nothing.
pub fn reduced_forest_is_unique()
    ensures { OnlyOne }
{}

/// No two nodes of a reduced forest have one instance and one end, and no two item nodes have one
/// item. This law computes nothing.
pub fn no_key_stands_twice()
    ensures { ReducedHasNoKeyTwice }
{}

/// Where there is a reduced forest, a complete item of the root over the whole text is reachable.
/// This law computes nothing.
pub fn reduced_forest_has_root()
    ensures { RootIsThere }
{}

/// Live items are reachable. This law computes nothing.
pub fn live_items_are_reachable()
    ensures { LiveIsReachable }
{}

/// Each collection that has the complete root item over the whole text and, with each item, the
/// previous items and the complete items over which these have a tree, has all live items. This law
/// computes nothing.
pub fn live_items_are_least()
    ensures { LiveIsLeast }
{}

/// The reduced forest of a well-kinded core grammar and a text unfolds, to each depth, to exactly
/// the trees of the core grammar for the text that are no higher. This law computes nothing.
pub fn reduced_forest_unfolds_to_core_trees()
    ensures { UnfoldsToCoreTrees }
{
    reachable_is_closed();
    items_are_in_text();
    items_are_reached_by_trees();
    complete_items_are_trees();
    alternatives_begin_together();
    stands_before_one();
    alternatives_are_one();
}

/// A tree has one cursor in the reduced forest of a well-kinded core grammar and a text, whatever
/// the depth. This law computes nothing.
pub fn tree_has_one_cursor()
    ensures { HasOneCursor }
{
    reachable_is_closed();
    items_are_in_text();
    items_are_reached_by_trees();
    complete_items_are_trees();
    alternatives_begin_together();
    stands_before_one();
    alternatives_are_one();
}

/// In the reduced forest of a well-kinded core grammar and a text the cursors of trees are in the
/// order of the trees with their values, where of the alternatives of a nonterminal each later one
/// has a greater tag. This law computes nothing.
pub fn cursors_are_ordered_as_trees()
    ensures { CursorsAreOrderedAsTrees }
{
    reachable_is_closed();
    items_are_in_text();
    items_are_reached_by_trees();
    complete_items_are_trees();
    alternatives_begin_together();
    stands_before_one();
    alternatives_are_one();
    environments_fit();
    environments_grow();
    steps_leave_in_turn();
    steps_leave_environments();
    last_child_starts_decide();
}

/// The reduced forest of a well-kinded core grammar and a text is a forest, each node,
/// alternative and entry of which some tree uses, and whose items stand behind their previous
/// ones. This law computes nothing.
pub fn reduced_forest_is_trim()
    ensures { ReducedIsTrim }
{
    reachable_is_closed();
    items_are_in_text();
    items_are_reached_by_trees();
    complete_items_are_trees();
    alternatives_begin_together();
    stands_before_one();
    alternatives_are_one();
}

/// Each node and each item node of a forest without dead parts has trees, to some depth. This law
/// computes nothing.
pub fn trim_forest_has_trees()
    ensures { TrimHasTrees }
{}
