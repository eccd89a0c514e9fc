//! Layout called in the open, and follow and precede filters as guards: two passes from grammars to
//! grammars with the same trees.
//!
//! `specs/Layout.antt` says how layout is called in the open: each declaration becomes plain, and
//! in what were syntax declarations a call of the layout nonterminal stands after each token.
//! `specs/Filters.antt` says what becomes of filters: precede and follow filters are guards before
//! and after their symbol, and exclusions stay on the symbol itself. The laws say that either pass
//! changes no tree, keeps a sound grammar sound, and how much it adds at most.
//!
//! [`add_layout`] and [`attach_filters`] are exactly these passes, and are refused for want of
//! memory alone.
#![tactic(auto)]

mod filters;
mod guide;
mod laws;
mod layout;

pub use filters::attach_filters;
pub use laws::{filters_keep, filters_multiply, layout_keeps, layout_multiplies};
pub use layout::add_layout;
