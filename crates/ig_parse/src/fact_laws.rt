//! Grammars whose forests are never cyclic.

ghost use Rattle.ig_parse.specs.FactLaws.{ForestsAreNotCyclic};

use crate::laws::cyclic_is_without_highest;
use ig_analyse::heights_are_bounded;
use ig_core::{core_trees_are_permitted_trees, cores_are_regular};

/// Where no nonterminal of its core grammar is at once circular, productive and reachable, no
/// forest of a grammar is cyclic. This law computes nothing.
pub fn forests_are_not_cyclic()
    ensures { ForestsAreNotCyclic }
{
    heights_are_bounded();
    core_trees_are_permitted_trees();
    cores_are_regular();
    cyclic_is_without_highest();
}
