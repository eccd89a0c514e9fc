//! The reader and the printer of grammar texts in the notation of the XML recommendation.
//!
//! [`read_w3c`] gives the grammar that a text reads as, or why it doesn't read as one. It tests the
//! number of bytes, the tokens, the nesting of brackets, and last the rules; the limits are those
//! of `ig_notation_terms`. The tokens are put into those of the own notation, which `ig_notation`
//! reads: as which grammar tokens read is said so (`specs/Reading.antt` of `ig_w3c_syntax`), and
//! there is one reading. `specs/Outcome.antt` says which texts are read and what each fault means.
//!
//! [`show_w3c`] prints a grammar that some text of the notation reads as; `specs/Text.antt` says
//! how, and the law [`printed_text_reads_back`] that the printed text reads as that grammar again.
#![tactic(auto)]

mod grammar;
mod laws;
mod source;
mod spelling;
mod symbols;
mod text_laws;
mod translation;

pub use grammar::show_w3c;
pub use laws::{
    one_reading, read_grammars_are_regular, read_grammars_are_written, read_grammars_have_readings,
    read_names_are_names, texts_are_read_or_refused,
};
pub use source::{read_short_w3c, read_w3c};
pub use text_laws::printed_text_reads_back;
