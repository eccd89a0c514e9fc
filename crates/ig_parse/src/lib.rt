//! Parsing: from a checked grammar and a text to the reduced forest of exactly the trees that the
//! grammar permits.
//!
//! [`parse`] does all of it, without files, and its contract is the main theorem:
//! `specs/Parses.antt` says what is answered, and when. Where no tree is permitted, the fault has
//! the report of how far the items came. A [`Parser`] keeps the core grammar of a grammar, so that
//! many texts can be parsed with it; it gives the items, the forest and the report one by one, too.
//! [`forest_of_items`] makes the forest of items that come from elsewhere. The items are taken in
//! any [`Order`](ig_queue::Order), and are the same in each. Which facts of a grammar keep its
//! forests from being cyclic, [`forests_are_not_cyclic`] says.
#![tactic(auto)]

mod fact_laws;
mod fault;
mod items;
mod laws;
mod parser;
mod run;

pub use fact_laws::forests_are_not_cyclic;
pub use fault::ParseFault;
pub use items::forest_of_items;
pub use laws::{
    alternatives_rise_by_tags, ambiguity_is_two_permitted, cyclic_is_without_highest,
    spans_are_of_declarations, spans_are_permitted,
};
pub use parser::{Parser, parse};
