//! A large job of known shape: a grammar of operators, and an input of letters and operators that a
//! number decides.
//!
//! [`load`] parses the input and says how many items are reachable, how many nodes the reduced
//! forest has, and whether it is ambiguous or cyclic. Grammar and input are made, so nothing is
//! read from outside: [`load_grammar`] reads and checks a text that stands here, and a law says
//! that it reads as the grammar of `specs/Grammar.antt`, which is well scoped and has few dots;
//! [`load_input`] is a chain of letters with operators between them, each of which is drawn
//! (`specs/Input.antt`), as [`inputs_are_chains`] says. The grammar permits a tree for each such
//! input, as a law says, so the only faults are a budget that doesn't suffice and want of memory.
//! [`show_summary`] writes the line of a [`Summary`] (`specs/Line.antt`).
#![tactic(auto)]

mod grammar;
mod input;
mod input_laws;
mod job;
mod laws;
mod summary;

pub use grammar::{load_grammar, load_parser};
pub use input::{MOST_OPERANDS, load_input};
pub use input_laws::inputs_are_chains;
pub use job::load;
pub use laws::{chains_are_permitted, load_inputs_are_permitted, load_text_reads};
pub use summary::{Summary, show_summary};
