//! The core grammar of a checked grammar, and what it has to do with that grammar.
//!
//! `specs/Lowered.antt` says what the five passes leave, one after the other: levels, blocks,
//! layout, filters and lists are taken away, in this order. What they leave has the last step of
//! `specs/CoreOf.antt`: the root as nonterminal 0, then a nonterminal for each declaration that
//! doesn't stand for the root, in order, with one step for each symbol.
//!
//! The law [`core_trees_are_permitted_trees`]: for every text and tree, the tree is one of a
//! grammar's core grammar exactly where the grammar permits it, for every grammar that the passes
//! take and whose lists are so few that numbers tell the added names apart. The law
//! [`notation_is_buildable`]: they take every well-scoped grammar of the notation.
//!
//! [`build`] runs all passes and then the last step, and gives exactly that core grammar. Where
//! there would be more than 65,536 dots the grammar is refused, before a nonterminal is made. The
//! last step goes by a table of the numbers of names (`specs/Tables.antt`), from [`number_names`];
//! [`build_root`] makes nonterminal 0, [`add_nonterminals`] the others.
#![tactic(auto)]

mod builder;
mod dots;
mod fault;
mod laws;
mod lowering;
mod naming;
mod nonterminals;
mod roots;
mod steps;

pub use builder::build;
pub use fault::CoreFault;
pub use laws::{
    core_trees_are_permitted_trees, cores_are_named, cores_are_regular, cores_are_well_kinded,
    declarations_keep_numbers, notation_is_buildable, passes_are_regular, passes_in_turn,
    passes_keep, tags_rise_in_cores, values_are_those_of_core,
};
pub use naming::{count, number_names};
pub use nonterminals::add_nonterminals;
pub use roots::{build_root, find_root, is_root};
