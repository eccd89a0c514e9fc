//! What core grammars have to do with the grammars that they are of. The functions do nothing:
//! their contracts are the laws, each proved for all grammars, shapes, texts and trees that it
//! speaks of.
ghost use Rattle.ig_core.specs.Laws.{CoreTreesArePermitted, CoresAreNamed};
ghost use Rattle.ig_core.specs.Laws.{CoresAreRegular, CoresAreWellKinded};
ghost use Rattle.ig_core.specs.Laws.{DeclarationsKeepNumbers, NotationIsBuildable};
ghost use Rattle.ig_core.specs.Laws.{PassesAreRegular, PassesInTurn, PassesKeep};
ghost use Rattle.ig_core.specs.Laws.{TagsRiseInCores, ValuesAreThoseOfCore};

use ig_blocks_parts::{blocks_keep, blocks_multiply};
use ig_ebnf_variables::{lists_are_few, lists_keep, lists_multiply};
use ig_item::{names_differ, steps_fit};
use ig_levels::{levels_keep, levels_multiply};
use ig_lexical::{filters_keep, filters_multiply, layout_keeps, layout_multiplies};
use ig_meaning::trees_without_operators_are_clean;
use ig_pass::{added_names_are_new, rooted_is_the_same, same_trees_is_an_equivalence};

/// Each of the five passes leaves a grammar that is well scoped and regular in its form, and that
/// has no name that a later pass adds. This law computes nothing.
pub fn passes_in_turn()
    ensures { PassesInTurn }
{
    levels_keep();
    blocks_keep();
    layout_keeps();
    filters_keep();
    lists_keep();
    rooted_is_the_same();
}

/// Where a grammar has fewer than 1,048,576 declarations, levels, alternatives and symbols, each of
/// the five passes leaves a grammar that is regular, with its bounds on counts; and numbers tell
/// the names apart that the pass for lists adds. This law computes nothing.
pub fn passes_are_regular()
    ensures { PassesAreRegular }
{
    passes_in_turn();
    levels_multiply();
    blocks_multiply();
    layout_multiplies();
    filters_multiply();
    lists_multiply();
    lists_are_few();
}

/// What the passes leave of a grammar permits the same trees, binds the same values in them, has
/// only the forms that the last step takes, and in it a declaration stands for the root. This law
/// computes nothing.
pub fn passes_keep()
    ensures { PassesKeep }
{
    passes_in_turn();
    same_trees_is_an_equivalence();
}

/// A tree is one of a grammar's core grammar exactly where the grammar permits it. This law
/// computes nothing.
pub fn core_trees_are_permitted_trees()
    ensures { CoreTreesArePermitted }
{
    trees_without_operators_are_clean();
    passes_keep();
}

/// The alternatives of a grammar's core grammar bind in a permitted tree the values that those of
/// the grammar bind. This law computes nothing.
pub fn values_are_those_of_core()
    ensures { ValuesAreThoseOfCore }
{
    passes_keep();
}

/// The core grammar of a checked grammar of the forms that remain is well kinded. This law computes
/// nothing.
pub fn cores_are_well_kinded()
    ensures { CoresAreWellKinded }
{
    steps_fit();
    names_differ();
}

/// No literal of a grammar's core grammar is empty. This law computes nothing.
pub fn cores_are_regular()
    ensures { CoresAreRegular }
{
    passes_keep();
}

/// Nonterminal 0 of a core grammar is named `$root`, and no two nonterminals have one name. This
/// law computes nothing.
pub fn cores_are_named()
    ensures { CoresAreNamed }
{
    passes_keep();
}

/// Of two alternatives of a nonterminal of a core grammar the later one has the greater tag number.
/// This law computes nothing.
pub fn tags_rise_in_cores()
    ensures { TagsRiseInCores }
{
    passes_keep();
}

/// Of a grammar as it is written, each declaration is the nonterminal of its number, under its
/// name, and the tags of rules name no other nonterminal. This law computes nothing.
pub fn declarations_keep_numbers()
    ensures { DeclarationsKeepNumbers }
{}

/// A grammar that the notation can say is buildable, as it is written: the passes take it. This law
/// computes nothing.
pub fn notation_is_buildable()
    ensures { NotationIsBuildable }
{
    added_names_are_new();
}
