//! Texts and what matches in them: what all other crates speak of.
//!
//! A [`Word`] is a list of characters, and a [`Text`] is one with a width of tabs. Positions count
//! characters, from 0. [`Text::decode`] gives the characters of UTF-8 bytes or names what is wrong
//! with them. A text tells the line and the column of a position, which count from 1, and compares
//! spans. A
//! [`Pattern`] is a word or a [`Class`] of characters, and `ends_at` says where its match ends. A
//! [`Sequence`] is a list at whose end `push` adds, and [`Copied`] makes an equal value of one that
//! owns memory. `specs/Tree.antt` defines derivation trees and their height.
//!
//! `proofs/` has a shelf of general lemmas on lists, options, numbers, characters, orders and
//! trees, which the proofs of all crates cite. The first line of each file says what it is about.
#![tactic(auto)]

mod class;
mod columns;
mod copied;
mod lines;
mod pattern;
mod ranges;
mod sequence;
mod stops;
mod tag;
mod text;
mod word;

pub use class::{Class, normal_form_is_normal, normal_form_is_single, normal_ranges_stay};
pub use columns::columns_are_worked;
pub use copied::Copied;
pub use pattern::{Pattern, Patterns};
pub use ranges::Ranges;
pub use sequence::Sequence;
pub use tag::Tag;
pub use text::{MOST_BYTES, Span, Text, TextFault};
pub use word::{Word, Words};
