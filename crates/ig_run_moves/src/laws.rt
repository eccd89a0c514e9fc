//! What comes of items, and what stored ones stand for. The functions do nothing: their contracts
//! are the laws, each proved for all core grammars, texts, tables and items that it speaks of.
ghost use Rattle.ig_run_moves.specs.Laws.{BeforeBinds, BeforeCalls, BeforeTerminals, BeforeTests};
ghost use Rattle.ig_run_moves.specs.Laws.{CallsAreOne, CompleteItemsEnd, EndsAreComplete};
ghost use Rattle.ig_run_moves.specs.Laws.{FirstsAreNamed, InstancesAreKept, InstancesAreOne};
ghost use Rattle.ig_run_moves.specs.Laws.{ItemsAreOne, NamedItemsAreOfTables, NamesAreKept};
ghost use Rattle.ig_run_moves.specs.Laws.{StepsAreBehind};

use ig_item::{environments_fit, stands_before_one};

/// An item stands before the step that is looked up behind its dot, and before no other one. This
/// law computes nothing.
pub fn steps_are_behind()
    ensures { StepsAreBehind }
{}

/// A reachable item of a well-kinded core grammar is complete exactly where there is no step behind
/// its dot. This law computes nothing.
pub fn ends_are_complete()
    ensures { EndsAreComplete }
{
    environments_fit();
}

/// An item calls at most one instance, with one label and one list of excluded patterns. This law
/// computes nothing.
pub fn calls_are_one()
    ensures { CallsAreOne }
{
    stands_before_one();
}

/// Before a test an item passes to what is behind the test; it reads nothing, calls nothing and
/// isn't complete. This law computes nothing.
pub fn before_tests()
    ensures { BeforeTests }
{
    stands_before_one();
}

/// Before a bind an item passes to what is behind the bind; it reads nothing, calls nothing and
/// isn't complete. This law computes nothing.
pub fn before_binds()
    ensures { BeforeBinds }
{
    stands_before_one();
}

/// Before a terminal an item reads to what is behind the terminal; it passes to nothing, calls
/// nothing and isn't complete. This law computes nothing.
pub fn before_terminals()
    ensures { BeforeTerminals }
{
    stands_before_one();
}

/// Before a call an item calls the instance that the arguments make, where they have values; it
/// passes and reads to nothing, and isn't complete. This law computes nothing.
pub fn before_calls()
    ensures { BeforeCalls }
{
    stands_before_one();
}

/// A complete item passes and reads to nothing, and calls nothing. This law computes nothing.
pub fn complete_items_end()
    ensures { CompleteItemsEnd }
{}

/// A named item stays named as tables grow, and stands for the same item. This law computes
/// nothing.
pub fn names_are_kept()
    ensures { NamesAreKept }
{}

/// A key stands for the same instance as environments are added. This law computes nothing.
pub fn instances_are_kept()
    ensures { InstancesAreKept }
{}

/// Where no environment stands twice, keys that stand for one instance are one. This law computes
/// nothing.
pub fn instances_are_one()
    ensures { InstancesAreOne }
{}

/// Where no environment and no key stands twice, named items that stand for one item are one. This
/// law computes nothing.
pub fn items_are_one()
    ensures { ItemsAreOne }
{}

/// The first items of an instance of the table are named, and stand for its first items. This law
/// computes nothing.
pub fn firsts_are_named()
    ensures { FirstsAreNamed }
{}

/// A named item stands for what tables of these keys and environments tell of it. This law computes
/// nothing.
pub fn named_items_are_of_tables()
    ensures { NamedItemsAreOfTables }
{}
