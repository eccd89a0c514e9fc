//! The outside as a system has it: a shelf over files and a sink over a stream, each proved against
//! its trait; the words that a program is run with, and its exit code.
//!
//! What files are opened from is a [`Folder`], so that a shelf is proved over any; of the files of
//! the system, a [`SystemFolder`], nothing is known beforehand. What was read of them, the shelf
//! records.
#![tactic(auto)]

mod arguments;
mod ending;
mod file_shelf;
mod folder;
mod stream_sink;

pub use arguments::words;
pub use ending::exit_code;
pub use file_shelf::FileShelf;
pub use folder::{Folder, SystemFolder};
pub use stream_sink::StreamSink;
