//! Exactly the well-scoped grammars, or the first reason why a grammar is none.
//!
//! [`check`] looks at the start line, then at each declaration: at its head, and at its
//! alternatives. `specs/Condition.antt` of `ig_grammar` defines where each condition holds, and
//! `specs/WellScoped.antt` there which one is the first. [`start_cause`], [`head_cause`] and
//! [`symbol_cause`] tell of the conditions that hold at a place the one of the least number, as a
//! [`ScopeCause`], or that none holds. A declaration is looked up by its name, and of two with one
//! name the first is meant. [`check_alternatives`] looks at each alternative of a declaration,
//! first as a whole, whose labels and lets are counted ([`room_of`] tells how many it may have),
//! and then symbol by symbol in preorder; `specs/AlternativesTold.antt` says what is told of it.
#![tactic(auto)]

mod alternatives;
mod binders;
mod cause;
mod checking;
mod expressions;
mod fault;
mod head;
mod heads;
mod names;
mod numbered;
mod places;
mod room;
mod starts;
mod symbols;
mod walk;

pub use alternatives::check_alternatives;
pub use cause::{Many, ScopeCause};
pub use checking::check;
pub use fault::ScopeFault;
pub use head::Head;
pub use heads::head_cause;
pub use names::count_named;
pub use numbered::Numbered;
pub use room::room_of;
pub use starts::start_cause;
pub use symbols::symbol_cause;
