//! What core grammars and reachable items keep to. The functions do nothing: their contracts are
//! the laws, each proved for all core grammars, texts and items that it speaks of.
ghost use Rattle.ig_item.specs.Examples.{FourItemsAreReachable, FourItemsHaveWays};
ghost use Rattle.ig_item.specs.Examples.{CountdownIsWellKinded};
ghost use Rattle.ig_item.specs.Laws.{AlternativesAreOne, NamesGrow, NamesAreAtDots};
ghost use Rattle.ig_item.specs.Laws.{StepsFit, NamesDiffer, BehindIsLookedUp, StandsBeforeOne};
ghost use Rattle.ig_item.specs.Laws.{ReachableIsClosed, ReachableFollows, ReachableIsLeast};
ghost use Rattle.ig_item.specs.Laws.{MoreGivesNoLess, ItemsAreInText};
ghost use Rattle.ig_item.specs.Laws.{EnvironmentsGrow, EnvironmentsFit, TreesByItems};
ghost use Rattle.ig_item.specs.Laws.{ItemsByTrees, InstanceTrees, AlternativesBegin};
ghost use Rattle.ig_item.specs.Laws.{CompleteRootsAreOne};
ghost use Rattle.ig_item.specs.Laws.{StepsLeaveInTurn, StepsLeaveEnvironments};

use ig_expr::value_is_of_kind;

/// The numbers of a nonterminal and of an alternative tell which they are. This law computes
/// nothing.
pub fn alternatives_are_one()
    ensures { AlternativesAreOne }
{}

/// Behind a step the names that it binds are visible, too. This law computes nothing.
pub fn names_grow()
    ensures { NamesGrow }
{}

/// The list of the names at all dots has those that are visible at each dot. This law computes
/// nothing.
pub fn names_are_at_dots()
    ensures { NamesAreAtDots }
{}

/// Where each step fits what is visible before it, told from one step to the next, the step behind
/// each dot does. This law computes nothing.
pub fn steps_fit()
    ensures { StepsFit }
{}

/// Where the names behind the last step differ, those at each dot do. This law computes nothing.
pub fn names_differ()
    ensures { NamesDiffer }
{}

/// What is looked up behind an item's dot tells which step it stands before, or that it is
/// complete. This law computes nothing.
pub fn behind_is_looked_up()
    ensures { BehindIsLookedUp }
{}

/// An item stands before one step, where the same names are visible. This law computes nothing.
pub fn stands_before_one()
    ensures { StandsBeforeOne }
{}

/// What follows by a rule from reachable items is reachable. This law computes nothing.
pub fn reachable_is_closed()
    ensures { ReachableIsClosed }
{}

/// Each reachable item follows by a rule from reachable items. This law computes nothing.
pub fn reachable_follows()
    ensures { ReachableFollows }
{}

/// A collection of items that has all that follows by a rule from its items has all reachable ones.
/// This law computes nothing.
pub fn reachable_is_least()
    ensures { ReachableIsLeast }
{}

/// What follows from some known items follows from more. This law computes nothing.
pub fn more_known_gives_no_less()
    ensures { MoreGivesNoLess }
{}

/// A reachable item stands at or behind the start of its instance, and within the text. This law
/// computes nothing.
pub fn items_are_in_text()
    ensures { ItemsAreInText }
{}

/// The environment of a reachable item begins with the values of its instance, and has what steps
/// bound behind them. This law computes nothing.
pub fn environments_grow()
    ensures { EnvironmentsGrow }
{}

/// In a well-kinded core grammar the environment of a reachable item has a value, of its kind, for
/// each name that is visible at the dot. This law computes nothing.
pub fn environments_fit()
    ensures { EnvironmentsFit }
{
    value_is_of_kind();
}

/// In a well-kinded core grammar a complete item of the root over the whole text is reachable
/// exactly where there is a tree. This law computes nothing.
pub fn complete_root_items_are_trees()
    ensures { TreesByItems }
{}

/// An item is reachable exactly where the first item of its alternative and instance is, and the
/// steps before its dot lead from there to it. This law computes nothing.
pub fn items_are_reached_by_trees()
    ensures { ItemsByTrees }
{}

/// The trees of an instance are those through which the steps of an alternative lead, each of them
/// to a complete item. This law computes nothing.
pub fn complete_items_are_trees()
    ensures { InstanceTrees }
{}

/// In a well-kinded core grammar the first items of all alternatives of an instance are reachable
/// together. This law computes nothing.
pub fn alternatives_begin_together()
    ensures { AlternativesBegin }
{}

/// In a well-kinded core grammar at most one complete item of the root is reachable for each start
/// and position. This law computes nothing.
pub fn complete_root_items_are_one()
    ensures { CompleteRootsAreOne }
{
    environments_fit();
}

/// Steps leave what those before the last one leave, and then what the last one does from there.
/// This law computes nothing.
pub fn steps_leave_in_turn()
    ensures { StepsLeaveInTurn }
{}

/// Where the steps before an item's dot lead to it with some trees, the values that they leave with
/// these trees are the item's environment, at the item's position. This law computes nothing.
pub fn steps_leave_environments()
    ensures { StepsLeaveEnvironments }
{}

/// Of the core grammar of `start S; syntax S = "a";` and the text `a` four items are reachable:
/// those of the root and of `S`, each at both of its dots. This law computes nothing.
pub fn four_items_are_reachable()
    ensures { FourItemsAreReachable }
{}

/// Two of these items begin an alternative, that of `S` behind the letter comes by a leaf, and the
/// complete one of the root by the node of `S`; and there are no other ways. This law computes
/// nothing.
pub fn four_items_have_ways()
    ensures { FourItemsHaveWays }
{}

/// The core grammar of
/// `start S; syntax S = A(1); syntax A(n: int) = when (n == 0) | x: "a" A(n - 1);` is well kinded.
/// This law computes nothing.
pub fn countdown_is_well_kinded()
    ensures { CountdownIsWellKinded }
{}
