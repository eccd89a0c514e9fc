//! What the answers say of trees. The functions do nothing: their contracts are the laws.
ghost use Rattle.ig_query.specs.Laws.{AmbiguityIsTwoTrees, NodesAreThoseOfTrees};
ghost use Rattle.ig_query.specs.Laws.{SpansAreThoseOfTrees};

use ig_forest::{reduced_forest_is_trim, trim_forest_has_trees};
use ig_heights::depths_are_heights;

/// The trees of a trim forest have exactly its nodes, by tag and span. This law computes nothing.
pub fn nodes_are_those_of_trees()
    ensures { NodesAreThoseOfTrees }
{}

/// In the reduced forest of a well-kinded core grammar whose nonterminals are uniform, the spans
/// that [`spans`](crate::spans) gives are exactly those of nodes of the declaration in its trees.
/// This law computes nothing.
pub fn spans_are_those_of_trees()
    ensures { SpansAreThoseOfTrees }
{
    reduced_forest_is_trim();
    trim_forest_has_trees();
}

/// A trim forest whose trees have one cursor each has an ambiguous node exactly where its root has
/// two different trees. This law computes nothing.
pub fn ambiguity_is_two_trees()
    ensures { AmbiguityIsTwoTrees }
{
    trim_forest_has_trees();
    depths_are_heights();
}
