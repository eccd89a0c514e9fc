//! What the pass for lists, options and groups is and keeps, which variables a symbol wants there,
//! and how many declarations are added for it.
//!
//! `specs/Lists.antt` says which declarations are added, under which names, and what stands for
//! each symbol: a call for a list, an option, a group or an entry, and in place of a sequence its
//! symbols. The laws say that the pass changes no tree, and keeps a checked grammar checked; what
//! is left are literals, classes and calls, with exclusions and a label, guards and lets; and that
//! one bound n on all counts of a grammar becomes 3 (n + 2).
//!
//! [`params_for`] gives the variables that a symbol wants, which are the parameters of what stands
//! for it: those of the source first, then those that passes added. [`bind`] adds what a symbol
//! binds for those to its right. [`count`] and those beside it say how many declarations are added;
//! [`entering`] and [`call`] make calls of them. All is exactly as `specs/Lists.antt` says, and is
//! refused for want of memory alone; a number that 64 bits don't hold is such a want.
#![tactic(auto)]

mod entries;
mod laws;
mod numbering;
mod variables;
mod wanting;

pub use entries::{added_name, call, entering, entering_list};
pub use laws::{groups_are_gathered, lists_are_few, lists_keep, lists_multiply, lowering_keeps};
pub use numbering::{count, count_alternatives, count_symbols, successor, sum};
pub use variables::{bind, params_for};
