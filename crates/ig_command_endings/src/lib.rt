//! How a command ends: its status, and what is written.
//!
//! A command has a text for out, or it stops with another status and a line for notes ([`Stop`]).
//! The stops are made here, each with the line that `specs/Notes.antt` says, or for want of memory.
//! Then [`end`] puts the text on out, or the line on notes, and answers with the [`Status`].
//! `specs/Change.antt` says what was done outside by the states before and after.
#![tactic(auto)]

mod notes;
mod status;
mod stop;
mod writing;

pub use notes::{
    bad_list, cannot_read, depth_needed, long_forest, long_list, no_cursor, no_forest, no_parse,
    not_sound, not_utf8, over_budget, refuse, too_long, usage,
};
pub use status::Status;
pub use stop::Stop;
pub use writing::end;
