//! Forests: what they consist of, which trees they have, and how they are kept.
//!
//! A forest has nodes with alternatives and item nodes with entries, both numbered from 0.
//! `specs/Forest.antt` says what it is, `specs/Unfold.antt` which trees it has to a depth, each
//! with its cursor, and `specs/Orders.antt` in which orders a reduced one has its parts.
//!
//! [`ForestTables`] keeps a forest in any order, dead parts allowed: nodes as rows of numbers with
//! their alternatives side by side ([`NodeRows`]), item nodes as rows with their entries side by
//! side ([`ItemTable`]), over one table of lists of values and one of names. Its readers hand out
//! borrowing views. What is promised of a forest beyond that, as that it is trim, a type above says
//! that holds such tables.
#![tactic(auto)]

mod choice_order;
mod entry;
mod item_table;
mod node_rows;
mod stored;
mod tables;
mod views;

pub use entry::{Child, Choice, Entry};
pub use item_table::ItemTable;
pub use node_rows::{NodeRow, NodeRows};
pub use stored::{Choices, Entries};
pub use tables::ForestTables;
pub use views::{ItemNode, Node};
