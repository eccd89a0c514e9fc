//! The names of nodes: of each its least complete item, in place of the one that was taken first.
ghost use Rattle.std.specs.Prelude.{◌≡◌, ◌≢◌, ◌<◌, ◌≤◌, ◌++◌, ℕ, Contains, IfOk, OnOk};
ghost use Rattle.std.specs.Prelude.{length, map, min};
ghost use Rattle.std.specs.Bool.{OnFalse};
ghost use Rattle.ig_item.specs.declared.ways.FurtherEnd.{FurtherEnd as end_of};
ghost use Rattle.ig_run_laws.specs.Renamed.{AreAbove, IsRenamed, at_or_same};
ghost use Rattle.ig_run_laws.specs.Renaming.{GivesLeast, renamed, renamed_end, renamed_further};
ghost use Rattle.ig_run_laws.specs.Renaming.{renamed_way};

use ig_item::{FurtherEnd, FurtherWay, Way, Ways};
use std::alloc::{AllocError, Global};

/// The ways in which each node is named by its least complete item, where the run named it by the
/// one that was taken first. They are given back as they are, and nothing is allocated, where no
/// further complete item has a lower number than the first. Refused for want of memory alone.
pub fn rename(alloc: Global, ways: Ways) -> Result<Ways, AllocError>
    ensures { IfOk result (IsRenamed ways) }
{
    if !has_lower(ways.ends()) {
        return Ok(ways);
    }
    let least = least_of(alloc, ways.ends())?;
    renamed(alloc, &ways, least.as_slice())
}

/// Whether a further complete item has a lower number than the one that was taken first.
fn has_lower(ends: &[FurtherEnd]) -> bool
    ensures { OnFalse result (AreAbove ends.now) }
{
    for end in ends {
        if end.item < end.first {
            return true;
        }
    }
    false
}

/// Of each number the least one: of its own and those of the ends whose first item it is. The
/// numbers behind the table are their own least ones.
fn least_of(alloc: Global, ends: &[FurtherEnd]) -> Result<Vec<u32>, AllocError>
    ensures { IfOk result (λ table. GivesLeast ends.now (at_or_same table.items)) }
{
    let mut table = numbers_to(alloc, highest(ends))?;
    for end in ends {
        lower(&mut table, *end);
    }
    Ok(table)
}

/// The highest number by which a node is named, or 0.
fn highest(ends: &[FurtherEnd]) -> u32
    ensures { (end : end_of) → Contains ends.now end → end.first ≤ result }
{
    let mut highest = 0;
    for end in ends {
        highest = highest.max(end.first);
    }
    highest
}

/// The numbers from 0 to `last`, in order.
fn numbers_to(alloc: Global, last: u32) -> Result<Vec<u32>, AllocError>
    ensures numbers { IfOk result (λ table. (d : ℕ) → at_or_same table.items d ≡ d) }
    ensures all { IfOk result (λ table. last < length table.items) }
{
    let mut table = Vec::new(alloc);
    for number in 0..=last {
        table.push(number)?;
    }
    Ok(table)
}

/// Lowers the least number of the end's node to that of the end.
fn lower(table: &mut Vec<u32>, end: FurtherEnd)
    requires { end.first < length table.old.items }
    ensures long { length table.new.items ≡ length table.old.items }
    ensures here { at_or_same table.new.items end.first ≡
        min (at_or_same table.old.items end.first) end.item }
    ensures others { (d : ℕ) → d ≢ end.first →
        at_or_same table.new.items d ≡ at_or_same table.old.items d }
{
    let place = end.first as usize;
    table[place] = table[place].min(end.item);
}

/// The least number of the node that has this name.
fn least_at(table: &[u32], name: u32) -> u32
    ensures { result ≡ at_or_same table.now name }
{
    match table.get(name as usize) {
        Some(least) => *least,
        None => name,
    }
}

/// The ways with the least numbers for the names.
fn renamed(alloc: Global, ways: &Ways, least: &[u32]) -> Result<Ways, AllocError>
    ensures { IfOk result (λ w. w ≡ renamed (at_or_same least.now) ways.now) }
{
    let mut new = Ways::new(alloc);
    add_firsts(&mut new, ways.firsts(), least)?;
    add_further(&mut new, ways.further(), least)?;
    add_ends(&mut new, ways.ends(), least)?;
    Ok(new)
}

/// Adds the ways in which items were found, renamed.
fn add_firsts(ways: &mut Ways, firsts: &[Way], least: &[u32]) -> Result<(), AllocError>
    ensures { OnOk result (ways.new ≡ record ways.old {
      firsts = ways.old.firsts ++ map (renamed_way (at_or_same least.now)) firsts.now;
    }) }
{
    for way in firsts {
        ways.push(renamed_way(*way, least))?;
    }
    Ok(())
}

/// The way with the least number for the name of its node.
fn renamed_way(way: Way, least: &[u32]) -> Way
    ensures { result ≡ renamed_way (at_or_same least.now) way }
{
    match way {
        Way::Node { prev, done } => Way::Node {
            prev,
            done: least_at(least, done),
        },
        Way::Begin => Way::Begin,
        Way::Pass { prev } => Way::Pass { prev },
        Way::Leaf { prev } => Way::Leaf { prev },
    }
}

/// Adds the further ways, renamed.
fn add_further(ways: &mut Ways, further: &[FurtherWay], least: &[u32]) -> Result<(), AllocError>
    ensures { OnOk result (ways.new ≡ record ways.old {
      further = ways.old.further ++ map (renamed_further (at_or_same least.now)) further.now;
    }) }
{
    for way in further {
        let done = least_at(least, way.done);
        ways.push_further(FurtherWay { done, ..*way })?;
    }
    Ok(())
}

/// Adds the further ends, renamed.
fn add_ends(ways: &mut Ways, ends: &[FurtherEnd], least: &[u32]) -> Result<(), AllocError>
    ensures { OnOk result (ways.new ≡ record ways.old {
      ends = ways.old.ends ++ map (renamed_end (at_or_same least.now)) ends.now;
    }) }
{
    for end in ends {
        ways.push_end(renamed_end(*end, least))?;
    }
    Ok(())
}

/// The end with the least number for the name of its node, and with the name where it has that
/// number itself.
fn renamed_end(end: FurtherEnd, least: &[u32]) -> FurtherEnd
    ensures { result ≡ renamed_end (at_or_same least.now) end }
{
    let first = least_at(least, end.first);
    let item = if end.item == first {
        end.first
    } else {
        end.item
    };
    FurtherEnd { first, item }
}
