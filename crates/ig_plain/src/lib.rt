//! Saturation: all reachable items of a core grammar and a text, each once, and all ways to them.
//!
//! [`saturate_with_ways`] goes through the text in rising positions. It gives exactly the reachable
//! items of `ig_item`'s `specs/Items.antt`, with exactly the ways of `specs/Ways.antt` to each of
//! them. It refuses `Budget` exactly where there are more items than the budget, if memory doesn't
//! run out before. [`saturate`] gives the items alone.
#![tactic(auto)]

mod adds;
mod found;
mod laws;
mod moves;
mod run;
mod saturation;
mod trail;

pub use laws::{budgets_suffice, doubled_budgets, plain_budgets_suffice};
pub use saturation::{saturate, saturate_with_ways};
