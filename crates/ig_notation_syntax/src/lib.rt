//! The notation: its tokens and its rules, as definitions and laws, and the tokens of a text.
//!
//! `specs/Token.antt` says what tokens are, `specs/Spelling.antt` how each is spelled,
//! `specs/Lexing.antt` which tokens a text has, and where one that has none breaks;
//! `specs/Rules.antt` which tokens read as which part of a grammar, `specs/Notation.antt` which
//! grammar a text reads as, and `specs/Stops.antt` where tokens stop following the rules.
//! `specs/Machine.antt` is a machine that stops there, as [`run_stops`] says. Each law is the
//! contract of a function that computes nothing.
//!
//! [`tokenize`] finds the tokens of a text in one pass, each with the byte at which it begins, as
//! the scanner of `specs/Scanner.antt`. A token's text is a slice of the source; [`literal_text`],
//! [`class_of`] and [`number_of`] give what it means.
#![tactic(auto)]

mod characters;
mod classes;
mod letters;
mod literals;
mod numbers;
mod rule_laws;
mod signs;
mod step;
mod token;
mod token_laws;
mod tokenizer;
mod words;

pub use classes::class_of;
pub use literals::{character_text, literal_text};
pub use numbers::number_of;
pub use rule_laws::{
    one_reading, read_runs, reads_are_counted, reads_are_named, reads_are_regular,
    reads_are_written, reads_stand_well, run_stops, stops_once,
};
pub use token::{Placed, Token, TokenFault};
pub use token_laws::{
    break_is_single, ended_tokens_are_longest, longest_token_is_next, texts_lex_or_break,
    texts_never_do_both, tokens_are_few, tokens_are_single,
};
pub use tokenizer::{MOST_BYTES, tokenize};
