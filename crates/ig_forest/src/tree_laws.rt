//! What the trees of a reduced forest keep to. The functions do nothing: their contracts are the
//! laws.
ghost use Rattle.ig_forest.specs.TreeLaws.{CursorsAreShort, TagsNameNonterminals};

use crate::forest::Forest;
use crate::laws::reduced_forest_unfolds_to_core_trees;
use ig_item::alternatives_are_one;

/// In each tree to which the reduced forest of a well-kinded core grammar unfolds, the tag of a
/// declaration's alternative has the number of a nonterminal of that grammar. This law computes
/// nothing.
pub fn tags_name_nonterminals()
    ensures { TagsNameNonterminals }
{
    reduced_forest_unfolds_to_core_trees();
}

/// Where the forest is a reduced one, the numbers of the cursor of each of its trees have 32 bits.
/// This law computes nothing.
pub fn cursors_are_short(forest: &Forest)
    ensures { CursorsAreShort forest.now }
{
    alternatives_are_one();
    let _ = forest.items();
}
