//! The trees of a forest to a depth, one by one, in the order of their cursors.
//!
//! `specs/Listing.antt` says what a [`Walker`] gives: each call of `next` the tree of the least
//! cursor behind that of the last one, `None` exactly where there is no such tree. A walker that
//! [`Walker::after`] makes of the cursor of a tree goes on behind that tree. Refused for want of
//! memory, a walker is as before.
//!
//! A tree is found by a walk: `specs/Walks.antt` has the goals that are to be visited and their
//! options, and a walk is a list of visits, which is the walker's own stack. The depth that is left
//! is the same for all that one option leads to, so no choice limits a later one: an option leads
//! on exactly where the least height of each of its parts is no greater than the depth that is
//! left, and no other option is ever entered. The next walk goes back to the last visit with a
//! later option that leads on, and from there takes the first one at each visit.
#![tactic(auto)]

mod follow;
mod goal;
mod laws;
mod measured;
mod options;
mod parts;
mod stack;
mod walk;
mod walker;

pub use laws::{
    cursor_has_one_tree, cursors_are_in_order, listing_is_one, listings_grow, parts_have_one_tree,
};
pub use walker::{WalkFault, Walker};
