//! Which items of a recording some tree of the whole text uses, and in which order.
//!
//! `specs/Live.antt` says which items of a core grammar and a text are live: the complete ones of
//! the root over the whole text, and all that lead to a live one. A run recorded the reachable
//! items with all ways to them; items have numbers from 0.
//!
//! [`first_root`] finds the first complete item of the root over the whole text, and says where
//! there is none. [`marks_of`] gives exactly the live items a mark, and says which of them are
//! complete (`specs/Marks.antt`). It goes by the ways backward from the root, by a work list over
//! [`Links`], which have the same ways grouped by item (`specs/Links.antt`). It evaluates nothing.
//!
//! [`lists_of`] and [`places_of`] number the lists of values in order (`specs/Lists.antt`). So an
//! item is a row of numbers, [`ItemRow`], whose order is that of the items; [`Found`] reads it off
//! the tables of a run (`specs/Rows.antt`). [`order_of`] gives the numbers of the live items, each
//! once, in the order of their rows (`specs/LiveOrder.antt`): by a counting sort by starts and a
//! sort of each small group, with a sort of all behind them where that isn't the order.
#![tactic(auto)]

mod environments;
mod found;
mod grouped;
mod live_order;
mod mark;
mod marks;
mod placing;
mod root;
mod rows;
mod ways;

pub use environments::{lists_of, places_of};
pub use found::Found;
pub use live_order::order_of;
pub use mark::Mark;
pub use marks::marks_of;
pub use root::first_root;
pub use rows::ItemRow;
pub use ways::Links;
