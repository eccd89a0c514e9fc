//! A run that takes its items from a work list, one after another, in any order.
//!
//! [`Run::start`] finds the first root item. Each [`Run::step`] takes the ticket that the schedule
//! gives and finds all that follows from its item, alone or with those taken before: an item before
//! a call waits in the node of its callee and meets the ends that came before it, a complete item
//! meets those that wait. When none waits any more, [`Run::finish`] gives what was found. [`run`]
//! does all this, and gives the reachable items and exactly their ways.
//!
//! Contracts see a run as a `Running` (`specs/Running.antt`). `specs/Reached.antt` says what it has
//! come to between two steps: exactly those items are found that follow from the ones taken, in
//! exactly the ways that the rules give, and its nodes are those of the items taken.
//! `specs/Stepping.antt` says what a step does.
#![tactic(auto)]

mod ending;
mod events;
mod first_calls;
mod laws;
mod progress;
mod returns;
mod running;
mod state;
mod stepping;

pub use progress::Progress;
pub use running::run;
pub use stepping::Run;
