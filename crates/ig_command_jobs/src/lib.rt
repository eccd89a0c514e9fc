//! What comes of a grammar, or of a grammar and an input: a text for out, or where the command
//! stops.
//!
//! [`work_of`] says what a command asks for: a task with a grammar, a job by the forest of a
//! grammar and an input, a check of a forest, a load, or a list of jobs. Of a grammar it can be
//! said that it is accepted, its canonical text shown, that of its core grammar, or that of its
//! facts ([`do_task`]). [`parser_of`] makes its parser, unless it has too many dots. [`parse`] runs
//! the parser on an input within the budget, [`parse_recorded`] takes what such a run recorded; the
//! forest is printed, or its trees are listed by `ig_command_answers`, or a question on it is
//! answered by `ig_command_answers` (`finish`). What that has to do with permitted trees,
//! `specs/Outcome.antt` says. The forest that somebody wrote down is checked ([`verify_text`]). A
//! load has its line (`summary`).
//!
//! A [`ParseJob`] is a parse that takes turns with others, a job of `ig_turns`: it takes the items
//! of a run one by one, each by an event, and answers with the text of the forest, or with another
//! status and its line. `specs/Question.antt` says what comes of it, by the grammar, the input and
//! the budget alone; so what other jobs do in between, and in which order items are taken, changes
//! nothing. A job whose files were refused is finished from the beginning.
#![tactic(auto)]

mod ended;
mod finish;
mod job;
mod parse_job;
mod parse_run;
mod parsing;
mod stage;
mod summary;
mod tasks;
mod tickets;
mod verifying;

pub use ended::{Ended, Ending};
pub use job::{Files, Job, Task, Work, work_of};
pub use parse_job::ParseJob;
pub use parsing::{parse, parse_recorded, parser_of};
pub use summary::summary_line;
pub use tasks::do_task;
pub use verifying::verify_text;
