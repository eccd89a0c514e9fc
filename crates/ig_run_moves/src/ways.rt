//! That an item or an end came about once more.
ghost use Rattle.std.specs.Prelude.{◌≡◌, [], ◌∷◌, ◌++◌, OnOk};

use ig_item::{FurtherEnd, FurtherWay, Ways};
use std::alloc::AllocError;

/// Adds that the item of that number came about from the one of number `prev` by a call, too.
#[inline(always)]
pub fn add_further_way(ways: &mut Ways, item: u32, prev: u32, done: u32) -> Result<(), AllocError>
    ensures { OnOk result (ways.new ≡ record ways.old {
      further = ways.old.further ++
          record { item = item; prev = prev; done = done } ∷ [];
    }) }
{
    ways.push_further(FurtherWay { item, prev, done })
}

/// Adds that the item of that number is complete, too, behind the first one that is.
pub fn add_further_end(ways: &mut Ways, first: u32, item: u32) -> Result<(), AllocError>
    ensures { OnOk result (ways.new ≡ record ways.old {
      ends = ways.old.ends ++
          record { first = first; item = item } ∷ [];
    }) }
{
    ways.push_end(FurtherEnd { first, item })
}
