//! The reduced forest of a core grammar and a text: all trees of the text, shared, and no more.
//!
//! `ig_forest_tables` says what a forest is, which trees it has, and keeps it. `specs/Live.antt` of
//! `ig_forest_live` says which items some tree of the whole text uses, and `specs/Reduced.antt`
//! which forest is the reduced one: it has the live items and no others, in order. The laws say
//! that a core grammar and a text have one such forest at most, that it unfolds to exactly their
//! trees, each with one cursor, that cursors are in the order of the trees with their values where
//! tags rise with the alternatives, and that no part of it is dead.
//!
//! [`Forest::of_recorded`] gives exactly that forest of what a run recorded, `None` exactly where
//! the root isn't complete; every `Forest` is trim. It reads the ways by which items came about,
//! and evaluates nothing. `ig_forest_live` marks the live items from the root backward and puts
//! them into order, as rows of numbers. One pass over them gives the nodes with their alternatives,
//! which are then put in order where they aren't, and another one the entries of all items, which
//! stand side by side. The readers hand out borrowing views.
#![tactic(auto)]

mod builder;
mod forest;
mod item_nodes;
mod laws;
mod nodes;
mod tree;
mod tree_laws;

pub use forest::Forest;
pub use ig_forest_tables::{Child, Choice, Choices, Entries, Entry, ForestTables, ItemNode, Node};
pub use laws::{
    cursors_are_ordered_as_trees, live_items_are_least, live_items_are_reachable,
    no_key_stands_twice, reduced_forest_has_root, reduced_forest_is_trim, reduced_forest_is_unique,
    reduced_forest_unfolds_to_core_trees, tree_has_one_cursor, trim_forest_has_trees,
};
pub use tree::{Cursor, Part, Tree};
pub use tree_laws::{cursors_are_short, tags_name_nonterminals};
