//! The pops of nodes by where they ended.
ghost use Rattle.std.specs.Prelude.{◌≡◌, ◌<◌, IfNone, IfSome, OnOk, Contains, map, true};
ghost use Rattle.indexmap.specs.IndexMap.{spare};
ghost use Rattle.ig_gss.specs.Places.{GrowsBy, HasAll, place};

use crate::chains::Walk;
use crate::marks::Pop;
use indexmap::IndexMap;
use std::alloc::AllocError;

/// A node, by its number, and a position at which it ended.
#[derive(Clone, Copy, PartialEq, Eq, Hash, Debug)]
pub struct Place {
    pub node: u32,
    pub end: u32,
}

/// Enters pops of a node where they aren't in the table yet, and makes room for one more. Refused
/// for want of memory alone, some of them may be entered.
pub fn make_ready(
    ends: &mut IndexMap<Place, u32>,
    node: u32,
    pops: Walk<'_, Pop>,
    is_indexed: bool,
) -> Result<(), AllocError>
    requires { is_indexed ≡ true → HasAll node pops ends.old.entries }
    ensures grows { GrowsBy node pops.entry ends.old.entries ends.new.entries }
    ensures all { OnOk result (HasAll node pops.entry ends.new.entries) }
    ensures room { OnOk result (0 < spare ends.new) }
{
    if is_indexed {
        return ends.reserve(1);
    }
    enter_pops(ends, node, pops)?;
    ends.reserve(1)
}

/// Enters pops of a node. Refused for want of memory alone, some of them may be entered.
fn enter_pops(
    ends: &mut IndexMap<Place, u32>,
    node: u32,
    pops: Walk<'_, Pop>,
) -> Result<(), AllocError>
    ensures grows { GrowsBy node pops.entry ends.old.entries ends.new.entries }
    ensures all { OnOk result (HasAll node pops.entry ends.new.entries) }
{
    for pop in pops {
        let place = Place { node, end: pop.end };
        ends.insert(place, pop.done)?;
    }
    Ok(())
}

/// The number that is entered at a place; `None` exactly where there is none.
pub fn done_at(ends: &IndexMap<Place, u32>, node: u32, end: u32) -> Option<u32>
    ensures some { IfSome result (λ done. Contains ends.now.entries (place node end, done)) }
    ensures none { IfNone result
        (Contains (map (λ e. e.0) ends.now.entries) (place node end) → ⊥) }
{
    ends.get(&Place { node, end }).copied()
}
