//! The notation of the XML recommendation: its tokens and its rules, and the tokens of a text.
//!
//! [`tokenize`] gives the tokens of a text, each with the byte at which it begins, or the byte at
//! which the text breaks. `specs/Spelling.antt` says how each token is spelled, and which
//! separators stand between them; what the tokens of a text are is said once for each notation, in
//! `specs/Texts.antt` of `ig_notation_syntax`. A text has one list of tokens at most, or breaks at
//! one byte.
//!
//! `specs/Rules.antt` has the rules; `specs/Reading.antt` says that tokens read as the tokens of
//! the own notation do into which they are put. `specs/Machine.antt` is a machine that stops where
//! the tokens stop following the rules, and [`stop`] runs it. Each law is the contract of a
//! function that computes nothing.
#![tactic(auto)]

mod characters;
mod machine;
mod rule_laws;
mod separators;
mod sets;
mod step;
mod token;
mod token_laws;
mod tokenizer;

pub use machine::stop;
pub use rule_laws::{
    declarations_read, kept_rules_read, one_reading, reads_have_forms, run_keeps, run_stops,
};
pub use token::{Placed, Token};
pub use token_laws::{
    break_is_single, fronts_are_runs, standing_tokens_are_longest, texts_never_do_both,
    tokens_are_few, tokens_are_single, tokens_have_forms,
};
pub use tokenizer::tokenize;
