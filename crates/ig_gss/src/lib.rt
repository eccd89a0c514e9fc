//! The shared stacks of a run: its nodes, who waits for each, and where each ended.
//!
//! [`Stacks::node`] gives the node of an instance. [`Stacks::add_edge`] and [`Stacks::add_pop`] add
//! who waits for a node and where it ended; [`Stacks::pops`] and [`Stacks::edges`] walk what came
//! before, so that a late edge meets earlier pops, and a late pop earlier edges. Contracts see a
//! list of nodes. The law [`each_pair_once`] says that no pair of an edge and a pop is missed, and
//! none is met twice.
#![tactic(auto)]

mod chains;
mod laws;
mod marks;
mod places;
mod stacks;
#[cfg(test)]
mod tests;
mod tops;

pub use chains::Walk;
pub use laws::each_pair_once;
pub use marks::{Edge, Pop};
pub use stacks::Stacks;
