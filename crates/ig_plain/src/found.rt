//! The items that a run has found.
ghost use Rattle.std.specs.Prelude.{◌≡◌, ◌≤◌, ◌+◌, [], IfOk, OnErr, length};
ghost use Rattle.ig_text.specs.Limits.{numbers_end};
ghost use Rattle.ig_plain.specs.Tables.{AreNamed};

use ig_expr::Values;
use ig_item::{Item, number};
use ig_run_tables::InstanceSet;
use indexmap::IndexSet;
use std::alloc::{AllocError, Global};

/// The items, with the instances and environments that they name by number.
#[derive(Drop)]
pub(crate) struct Found {
    /// Those before the position, which are taken.
    pub(crate) done: Vec<Item>,
    /// Those at the position, in the order in which they are taken.
    pub(crate) here: Vec<Item>,
    /// Those at later positions. Each stands behind a terminal, and so comes from one item alone.
    pub(crate) later: Vec<Item>,
    pub(crate) envs: IndexSet<Values>,
    pub(crate) keys: InstanceSet,
    ghost named: { AreNamed envs.keys keys done.items here.items later.items },
}

impl Found {
    /// No items. Takes no memory.
    pub(crate) fn new(alloc: Global) -> Found
        ensures done { result.done.items ≡ [] }
        ensures here { result.here.items ≡ [] }
        ensures later { result.later.items ≡ [] }
        ensures envs { result.envs.keys ≡ [] }
        ensures keys { result.keys ≡ [] }
    {
        Found {
            done: Vec::new(alloc),
            here: Vec::new(alloc),
            later: Vec::new(alloc),
            envs: IndexSet::new(alloc),
            keys: InstanceSet::new(alloc),
        }
    }
}

/// The number of the item at that place among those at the position.
pub(crate) fn number_of(found: &Found, place: usize) -> Result<u32, AllocError>
    ensures number { IfOk result (λ n. n ≡ length found.now.done.items + place) }
    ensures refused { OnErr result (numbers_end ≤ length found.now.done.items + place) }
{
    number(found.done.len().saturating_add(place))
}
