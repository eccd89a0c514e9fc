//! The texts of a core grammar, of a forest and of a grammar's facts, and the pieces of all printed
//! lines.
//!
//! [`show_core`] writes a line for each nonterminal and for each of its alternatives
//! (`specs/CoreText.antt`), with expressions and patterns as `ig_show` writes them. [`show_forest`]
//! writes the numbers of nodes and items, then a line for each node, each alternative, each item
//! and each entry (`specs/ForestText.antt`); the forest may be in any order. [`push_heading`],
//! [`push_node`] and [`push_item`] add its parts. [`show_facts`] writes a line for each
//! declaration: its name, and the words of what holds of its nonterminal (`specs/FactsText.antt`).
//!
//! [`push_number`], [`push_word`] and [`push_tag`] add to a text. [`push_name`], [`push_places`],
//! [`push_values`] and [`push_environment`] add to bytes. A [`Piece`] has at most 96 bytes, which
//! are written from the last to the first and then added at once. `specs/ValueText.antt` has the
//! bytes of spans and values, `specs/TagText.antt` of tags, `specs/Listed.antt` of lists. A call is
//! refused for want of memory alone.
#![tactic(auto)]

mod core_text;
mod facts_text;
mod forest_text;
mod piece;
mod tags;
mod value_lists;
mod values;

pub use core_text::show_core;
pub use facts_text::show_facts;
pub use forest_text::{push_heading, push_item, push_node, show_forest};
pub use piece::Piece;
pub use tags::{push_nameless, push_tag};
pub use value_lists::{push_environment, push_name, push_places, push_values};
pub use values::{push_number, push_word};
