//! Jobs that take turns, and the list that names them.
//!
//! A [`Job`] goes on by single events, and its contract names from the beginning the answer that it
//! will give. Jobs of a list of [`Turns`] play in whatever order the turns say, and each gives the
//! answer that it would give alone. [`play_out`] goes round them until all are finished.
//!
//! [`read_list`] reads the text of a list of jobs: a line for each, with the names of its grammar
//! and its input (`specs/Lists.antt`).
#![tactic(auto)]

mod job;
mod job_line;
mod job_list;
mod laws;
mod list;
mod rounds;
mod turns;

pub use job::Job;
pub use job_list::{ListFault, Names, read_list};
pub use laws::written_lists_are_read;
pub use list::{Answers, Jobs};
pub use rounds::play_out;
pub use turns::{Turn, TurnFault, Turns};
