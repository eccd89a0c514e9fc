//! How the items that a run has found came about.
ghost use Rattle.std.specs.Prelude.{◌≡◌, [], IfOk};

use ig_item::Ways;
use ig_run_tables::Returned;
use std::alloc::{AllocError, Global};

/// How the items of a run came about.
#[derive(Drop)]
pub(crate) struct Trail {
    /// The ways to the items up to the position, which are numbered in the order of their taking.
    pub(crate) ways: Ways,
    /// Of each item at a later position, in order, the number of the item from which it came. It
    /// stands behind a terminal, so its way is a `Leaf`.
    pub(crate) later: Vec<u32>,
    /// The items at the position that came about by calls, with their numbers. No other one can
    /// come about once more.
    pub(crate) returned: Returned,
}

impl Trail {
    /// Of no items.
    pub(crate) fn new(alloc: Global) -> Result<Trail, AllocError>
        ensures ways { IfOk result (λ t. t.ways ≡ record { firsts = []; further = []; ends = [] }) }
        ensures later { IfOk result (λ t. t.later.items ≡ []) }
        ensures returned { IfOk result (λ t. t.returned ≡ []) }
    {
        let returned = Returned::new(alloc)?;
        Ok(Trail {
            ways: Ways::new(alloc),
            later: Vec::new(alloc),
            returned,
        })
    }
}
