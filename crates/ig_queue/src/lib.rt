//! Work lists: tickets wait, each once, and one after another is taken.
//!
//! A [`Schedule`] is a collection of [`Ticket`]s; which of them it gives next is its own affair.
//! [`Fifo`] gives the one that has waited longest, [`Lifo`] the one that came last, and [`Lowest`]
//! the least by position and then by number; contracts say so of these three. [`Order`] names them,
//! and the order of a run that has no work list.
#![tactic(auto)]

mod fifo;
mod lifo;
mod lowest;
mod order;
mod schedule;
#[cfg(test)]
mod tests;
mod ticket;

pub use fifo::Fifo;
pub use lifo::Lifo;
pub use lowest::Lowest;
pub use order::Order;
pub use schedule::Schedule;
pub use ticket::Ticket;
