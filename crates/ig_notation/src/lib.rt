//! The reader of grammar texts.
//!
//! [`read`] gives the grammar that a text reads as, or why it doesn't read as one. It tests the
//! number of bytes, the tokens, the numbers, the nesting of brackets, and last the rules, by
//! recursive descent over the tokens. `specs/Outcome.antt` says which texts are read and what each
//! fault means. What reads symbols inside symbols is one cycle of calls, in `symbols.rt`; what
//! stands inside symbols and around them `ig_notation_terms` reads, and each function that reads a
//! part promises here what it does there: that the tokens which it takes read as what it returns by
//! the rules, and that the machine of `ig_notation_syntax` does the same on every stack, or where
//! it stops. On the stack of a whole grammar that is where the tokens stop following the rules, as
//! [`run_stops`](ig_notation_syntax::run_stops) says.
#![tactic(auto)]

mod declarations;
mod fault;
mod laws;
mod source;
mod symbols;

pub use declarations::read_grammar;
pub use fault::{Large, ReadFault};
pub use ig_notation_syntax::MOST_BYTES;
pub use laws::{
    one_reading, read_grammars_are_regular, read_grammars_are_written, read_names_are_names,
    rules_have_forms_of_text, texts_are_read_or_refused,
};
pub use source::{read, read_short};
pub use symbols::read_alternatives;
