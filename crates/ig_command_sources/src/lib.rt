//! What comes of the files that a command names: a grammar, a text, or where the command stops.
//!
//! [`load_grammar`] fetches a file from a shelf and gives the well-scoped grammar that it is the
//! text of, in one of the two notations; [`load_input`] gives the text of an input, and
//! [`load_forest`] the bytes of what is to be the text of a forest. Where there is none, the
//! command stops with the line of the first test that fails (`specs/Refusals.antt`). Each grammar
//! that is read can be built, which [`read_grammars_are_buildable`] says; `specs/Accepted.antt`
//! says which are accepted.
//!
//! [`push_cause`] adds the text that says why a grammar isn't well scoped, and where: the text of a
//! cause and of its place, which `specs/Texts.antt` has. It is refused for want of memory alone.
#![tactic(auto)]

mod cause;
mod grammar_text;
mod laws;
mod load;

pub use cause::{push_cause, push_numbered};
pub use grammar_text::{long_grammar, read_grammar};
pub use laws::{
    one_reading, read_grammars_are_buildable, read_grammars_are_regular, read_grammars_are_written,
    read_grammars_have_readings, read_grammars_stay_regular, read_names_are_names,
    texts_are_read_or_refused,
};
pub use load::{
    MOST_FOREST_BYTES, MOST_LIST_BYTES, fetch_grammar, load_forest, load_grammar, load_input,
    load_list,
};
