//! Reading the text of a forest that somebody wrote down.
//!
//! [`read_forest`] gives the draft of which bytes are the text, with the names and the tags of a
//! core grammar, and refuses bytes that are the text of none (`specs/Written.antt`). It needs a
//! core grammar whose texts tell its parts; then a text is of one draft at most
//! ([`texts_tell_drafts`]).
//!
//! Each reader of a part says what it answers where such a part stands at the front of the bytes,
//! and gives only what is spelled there as it prints, so nothing is written down again. Nothing
//! rests on the depth of a forest, and no memory is taken by numbers that the text says: lines that
//! it lacks are found lacking first.
#![tactic(auto)]

mod checks;
mod fault;
mod fronts;
mod items;
mod laws;
mod lists;
mod names;
mod nodes;
mod reader;
mod tables;
mod tags;

pub use fault::ForestFault;
pub use laws::{lists_of_values_are_told, texts_tell_drafts};
pub use reader::read_forest;
