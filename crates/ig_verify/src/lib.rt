//! Whether a forest that somebody wrote down is sound: five rules, each of a node or of an item.
//!
//! `specs/Sound.antt` says the rules, over forests in any order, with dead parts allowed;
//! `specs/Flaws.antt` which one is the first broken one. [`verify`] tells that, or that the forest
//! is sound, and then each tree to which it unfolds is a tree of the core grammar for the text.
//! That no tree is missing isn't said. It stands on no parser: what steps of the core grammar ask
//! of the text is asked again of each entry.
//!
//! The rules of nodes come first, then rule 3 of all items, then the others of each item, so an
//! expression is evaluated only where all values have the kinds that are asked. The depth of a
//! forest takes no memory, and each node, alternative, item and entry is looked at once.
#![tactic(auto)]

mod draft;
mod entries;
mod flaw;
mod items;
mod kind_table;
mod kinds;
mod laws;
mod nodes;
mod steps;
mod verification;

pub use draft::Draft;
pub use flaw::Flaw;
pub use laws::{sound_forests_unfold_to_core_trees, sound_nodes_unfold};
pub use verification::verify;
