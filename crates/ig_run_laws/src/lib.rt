//! Laws of a run over a work list, and how its end becomes its answer.
//!
//! The laws say what is found and in which ways, what waits, and the stacks in which callers and
//! callees meet, whichever came first. Each event, in which one ticket is taken, keeps that exactly
//! those items are found which follow from the ones taken, with exactly their ways
//! ([`events_keep`], [`ends_keep`]); once no ticket waits, these are exactly the reachable items
//! ([`ended_runs_are_complete`]), and exactly all ways to them ([`ended_runs_have_ways`]).
//!
//! A run names each node by that of its complete items which was taken first; an answer names it by
//! the least one, whatever the order in which items were taken. [`rename`] changes the names where
//! the two differ, and gives the ways back untouched where they don't. [`items_of`] puts the
//! environments, instances and items into tables, and [`finish`] gives the answer itself.
#![tactic(auto)]

mod finishing;
mod laws;
mod renaming;
mod tables;

pub use finishing::finish;
pub use laws::{
    all_follows_in_some_way, begins_are_one, budgets_suffice, ended_runs_are_complete,
    ended_runs_have_ways, ends_keep, events_keep, events_take_one, first_returns_are_new,
    firsts_are_new, firsts_are_recorded, refused_budgets_are_exceeded, returns_are_past_calls,
    returns_come_by_nodes, runs_begin, steps_are_followed, steps_come_once,
};
pub use renaming::rename;
pub use tables::items_of;
