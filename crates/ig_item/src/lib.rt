//! Core grammars and the items of a run: what the engines, the forest and the printers speak of.
//!
//! A [`Core`] is what a grammar becomes before it is run: nonterminals with parameters, whose
//! alternatives are lists of [`Step`]s. It is well kinded, as `specs/WellKinded.antt` says.
//! Contracts see it as the list of its nonterminals, and a step as that of `specs/Step.antt`, with
//! expressions as syntax trees. [`Items`] are what a run finds: three tables, of instances, of
//! environments and of items that name them by number. [`Ways`] say how each of them came about,
//! and a [`Recorded`] keeps the items and the ways of a core grammar and a text. [`number`] gives
//! the number of a table's member, or refuses it.
//!
//! `specs/Items.antt` defines which items of a core grammar and a text are reachable,
//! `specs/Gives.antt` which item gives which by a rule, `specs/Ways.antt` how items came about,
//! `specs/CoreTrees.antt` the trees of a core grammar without items, `specs/ItemTrees.antt` which
//! trees stand before the dot of an item, `specs/Annotated.antt` which values stand in the nodes of
//! trees, and `specs/Report.antt` the furthest position and what is expected there. Nonterminals,
//! dots and positions are numbered from 0, and the alternatives of a nonterminal from 1. The laws
//! between them are the functions of `src/laws.rt`; induction over reachable items is in
//! `specs/Induction.antt`.
#![tactic(auto)]

mod core_grammar;
mod dot;
mod environment_table;
mod items;
mod laws;
mod numbers;
mod recorded;
mod run_fault;
mod step;
mod visible;
mod ways;

pub use core_grammar::{Core, CoreAlt, CoreAlts, MOST_DOTS, Nonterminal, Nonterminals};
pub use dot::Behind;
pub use environment_table::EnvironmentTable;
pub use items::{Instance, InstanceKey, InstanceView, Item, Items};
pub use laws::{
    alternatives_are_one, alternatives_begin_together, behind_is_looked_up,
    complete_items_are_trees, complete_root_items_are_one, complete_root_items_are_trees,
    countdown_is_well_kinded, environments_fit, environments_grow, four_items_are_reachable,
    four_items_have_ways, items_are_in_text, items_are_reached_by_trees, more_known_gives_no_less,
    names_are_at_dots, names_differ, names_grow, reachable_follows, reachable_is_closed,
    reachable_is_least, stands_before_one, steps_fit, steps_leave_environments,
    steps_leave_in_turn,
};
pub use numbers::number;
pub use recorded::Recorded;
pub use run_fault::RunFault;
pub use step::{Step, Steps};
pub use visible::VisibleNames;
pub use ways::{FurtherEnd, FurtherWay, Way, Ways};
