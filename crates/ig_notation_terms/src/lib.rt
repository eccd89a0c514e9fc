//! Readers of the parts of a grammar text that hold no symbols of their own, and the limits of a
//! text.
//!
//! A text has at most 262,144 bytes ([`is_too_long`]), no number greater than
//! 9,223,372,036,854,775,807 ([`numbers_fit`]), and nowhere more than 64 brackets open
//! ([`is_shallow`]). [`byte_of`] gives the byte at which a token begins. `specs/Limits.antt` says
//! what tokens keep.
//!
//! Inside symbols stand single tokens, names, expressions with their arguments, patterns, filters,
//! and the signs after options and lists with what these make of symbols. Around them stand their
//! labels and marks, guards, lets, calls and patterns, and what follows an atom, a group and the
//! separator of a list; symbols inside symbols are handed over by the caller, who has read them.
//! `specs/Parts.antt` says how symbols begin, and what is made of one by what stands after it.
//!
//! All readers go over the tokens by recursive descent. Each function that reads a part promises
//! that the tokens which it takes read as what it returns by the rules, and that the machine of
//! `ig_notation_syntax` does the same on every stack (`Goes`), or stops on every stack (`StopsAt`);
//! of whole grammars that is where the tokens stop following the rules, as
//! [`run_stops`](ig_notation_syntax::run_stops) says. `specs/Readers.antt` says what is promised of
//! tokens and stops; `specs/Steps.antt` and `specs/Lists.antt` put such promises together, with
//! proofs, for the readers above.
#![tactic(auto)]

mod bytes;
mod expressions;
mod fault;
mod filters;
mod limits;
mod parts;
mod repetitions;
mod signs;
mod tokens;

pub use bytes::{byte_of, is_too_long};
pub use expressions::{read_arguments, read_closed};
pub use fault::{RuleFault, add};
pub use filters::{pattern_of, read_filters};
pub use limits::{is_shallow, numbers_fit};
pub use parts::{
    Beginning, BlockMark, Opening, beginning_at, begins_symbol, labelled, mark_at, marked,
    opening_at, read_group_end, read_guard, read_let, read_list_end, read_plain,
};
pub use repetitions::{ListSign, Repetition, read_list_sign, repeated, repetition_at, separated};
pub use signs::{Sign, read_name, read_number, read_sign, stands_at};
pub use tokens::Tokens;
