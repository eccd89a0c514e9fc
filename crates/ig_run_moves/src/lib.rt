//! What an engine does with one item: what its next step asks of the text, which item comes after
//! it, which instance it calls, and who waits for that; and what a run over a work list has found.
//!
//! An engine keeps items whose instance and environment are numbers in tables that grow at their
//! end ([`ig_item::Item`]). [`step_behind`] finds the step before which such an item stands, and
//! [`known_before`] what is known there. [`behind_test`], [`behind_bind`], [`behind_terminal`],
//! [`behind_call`] and [`behind_return`] then give exactly the item that the rules of `ig_item`'s
//! `specs/Items.antt` allow after it, and `None` exactly where they allow none; [`callee_of`] gives
//! exactly the instance that is called. So nothing is promised of the order in which items are
//! taken. The laws say what comes of an item by the form of its next step, and that an item means
//! the same after the tables grew.
//!
//! [`enter_arguments`] gives the number of the environment that a call makes. [`Waiting`] holds for
//! each instance the chain of its callers, in the order in which they came, and the position at
//! which it ended last; `specs/Waiting.antt` says what each call makes of it. A call is refused for
//! want of memory alone, which a table is that 32 bits don't number; then environments may have
//! been added, and none is lost.
//!
//! [`Found`] keeps the items of a run over a work list in the order of finding, each once, the ways
//! in which they came about, and the tickets of those that wait to be taken. It adds an item with
//! its ticket, adds a further way to an item that was found after a call before, and gives the next
//! item from its schedule. Contracts see it as a `Finding` (`specs/Finding.antt`). What an item
//! means is no affair of it: it goes by the numbers of stored items alone.
#![tactic(auto)]

mod calling;
mod context;
mod found;
mod interning;
mod laws;
mod moves;
mod passing;
mod stepping;
mod waiting;
mod ways;

pub use calling::{callee_of, first_item, is_bare};
pub use context::Context;
pub use found::Found;
pub use interning::enter_arguments;
pub use laws::{
    before_binds, before_calls, before_terminals, before_tests, calls_are_one, complete_items_end,
    ends_are_complete, firsts_are_named, instances_are_kept, instances_are_one, items_are_one,
    named_items_are_of_tables, names_are_kept, steps_are_behind,
};
pub use moves::{behind_bind, behind_call, behind_return, behind_terminal, behind_test, values_at};
pub use passing::past_bare;
pub use stepping::{known_before, step_behind};
pub use waiting::{
    Called, Caller, Taken, Waiting, add_called, add_caller, add_end, end_at, first_caller,
};
pub use ways::{add_further_end, add_further_way};
