//! The words of a command: which words are one, and what it asks for.
//!
//! [`command_of`] reads the words that stand behind the program's name. `specs/Commands.antt` has
//! the table of commands, `specs/Words.antt` what may stand among the words.
//!
//! Inside, the words are tested (`words`), given to a command of `clap`, one for each row of the
//! table (`rows`), and what it finds becomes what is asked for (`command`).
#![tactic(auto)]

mod command;
mod laws;
mod rows;
mod words;

pub use command::{Command, Listing, MOST_SIZE, Notation, Question, Source, WorkList, command_of};
pub use laws::{batch_numbers_are_some, load_sizes_are_few, orders_ask_the_same};
