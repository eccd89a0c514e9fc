//! What a run knows before it begins, and its tables, in which each value stands once.
//!
//! [`dots_of_core`] finds before a run what is known at each dot: the names that expressions may
//! use there, and for the simple ones among them, an integer, a variable, or a comparison of two of
//! these, where their values are. [`is_true`], [`value`] and [`argument_values`] then give values
//! as `ig_expr`'s `specs/Evaluation.antt` says them, and mostly evaluate nothing. [`matches_none`]
//! and [`span_bound`] say what excluded patterns and a label do, [`extended`] adds what a step
//! bound to an environment.
//!
//! [`InstanceSet::enter`] and [`enter_values`] give the number of an instance or an environment,
//! and add it at the end where it isn't there. [`Returned`] finds the number of an item, and is
//! emptied without touching its buckets, as a run does that goes by positions. [`within_budget`]
//! refuses more items than a budget. Each other call is refused for want of memory alone, which a
//! table is that 32 bits don't number, and for [`Returned`] more items than they count over all
//! positions.
#![tactic(auto)]

mod buckets;
mod budget;
mod compiled;
mod environments;
mod instance_set;
mod names;
mod returned;
mod rows;
mod steps;

pub use budget::within_budget;
pub use compiled::{Atom, Form, only, value};
pub use environments::enter_values;
pub use instance_set::InstanceSet;
pub use names::{Dots, Known, dots_of_core, known_at};
pub use returned::Returned;
pub use steps::{
    Arguments, Qualifiers, argument_values, extended, is_true, matches_none, span_bound,
};
