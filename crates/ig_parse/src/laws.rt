//! What queries of a forest say of the permitted trees. The functions do nothing: their contracts
//! are the laws.
ghost use Rattle.ig_parse.specs.Laws.{AlternativesRiseByTags, AmbiguityIsTwoPermitted};
ghost use Rattle.ig_parse.specs.Laws.{CyclicIsWithoutHighest, SpansAreOfDeclarations};
ghost use Rattle.ig_parse.specs.Laws.{SpansArePermitted};

use ig_core::{declarations_keep_numbers, tags_rise_in_cores};
use ig_forest::reduced_forest_is_trim;
use ig_query::{ambiguity_is_two_trees, nodes_are_those_of_trees, spans_are_those_of_trees};

/// The forest of a grammar and a text has an ambiguous node exactly where two different trees are
/// permitted. This law computes nothing.
pub fn ambiguity_is_two_permitted()
    ensures { AmbiguityIsTwoPermitted }
{
    ambiguity_is_two_trees();
}

/// The forest of a grammar and a text is cyclic exactly where for each number a higher tree is
/// permitted. This law computes nothing.
pub fn cyclic_is_without_highest()
    ensures { CyclicIsWithoutHighest }
{}

/// In the forest of a grammar that the passes take, and a text, the alternatives of each node rise
/// by tag number, and those of one number by the environments of their items. This law computes
/// nothing.
pub fn alternatives_rise_by_tags()
    ensures { AlternativesRiseByTags }
{
    tags_rise_in_cores();
}

/// The spans of a declaration's nodes in the forest of a grammar and a text are exactly those in
/// permitted trees, where the core grammar is well-kinded. This law computes nothing.
pub fn spans_are_permitted()
    ensures { SpansArePermitted }
{
    spans_are_those_of_trees();
}

/// The spans of the nodes of a name in the forest of a grammar as it is written and a text are
/// exactly those of the declaration of that name in permitted trees, where the core grammar is
/// well-kinded. This law computes nothing.
pub fn spans_are_of_declarations()
    ensures { SpansAreOfDeclarations }
{
    declarations_keep_numbers();
    nodes_are_those_of_trees();
    reduced_forest_is_trim();
    spans_are_permitted();
}
