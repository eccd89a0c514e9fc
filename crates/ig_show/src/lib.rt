//! The canonical text of a grammar, of its expressions and of its patterns. That of a grammar reads
//! back, where any text reads as it.
//!
//! Each token has one spelling there, which by the table of tokens is a spelling of that token,
//! where it has any: `specs/Spelling.antt`. `specs/Pieces.antt` says what a text of pieces is, and
//! `specs/Signs.antt` which tokens stand for numbers, patterns, operators, functions, truth values
//! and associativities. [`push_name`] and its like add a token to a text. All refuse only for want
//! of memory.
#![tactic(auto)]

mod expressions;
mod grammar;
mod laws;
mod levels;
mod signs;
mod spelling;
mod spelling_laws;
mod symbols;

pub use grammar::{
    push_expression_text, push_pattern_text, show_expression, show_grammar, show_pattern,
};
pub use laws::{canonical_text_reads_back, canonical_tokens_follow};
pub use levels::{push_associativity, push_greater};
pub use signs::{has_operator, push_function, push_operator, push_truth};
pub use spelling::{
    push_character, push_class, push_head, push_integer, push_literal, push_name, push_pattern,
    push_text,
};
pub use spelling_laws::{fixed_tokens_are_spelled, tokens_are_spelled};
