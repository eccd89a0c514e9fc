//! The lists of values of a run, each once and in order.
ghost use Rattle.std.specs.Prelude.{◌≡◌, ◌<◌, IfOk, MatchOption, map, slice_get, Contains, length};
ghost use Rattle.std.specs.List.Sorted.{IsStrictlySortedBy};
ghost use Rattle.ig_text.specs.Limits.{numbers_end};
ghost use Rattle.ig_forest_live.specs.Lists.{AreLists, ArePlaces};
ghost use Rattle.ig_expr.specs.ValueOrder.{values_cmp};

use ig_expr::Value;
use ig_item::Items;
use std::alloc::{AllocError, Global};

/// The lists of values of the items, each once, in the order of lists. There are less than
/// 4,294,967,296. Refused for want of memory.
pub fn lists_of<'a>(alloc: Global, items: &'a Items) -> Result<Vec<&'a [Value]>, AllocError>
    ensures lists { IfOk result (λ lists.
        AreLists items.now.environments (map (λ l. l.now) lists.items)) }
    ensures few { IfOk result (λ lists. length lists.items < numbers_end) }
{
    let mut lists = all_lists(alloc, items)?;
    lists.sort_unstable();
    lists.dedup();
    Ok(lists)
}

/// The lists of values, in the order of their numbers.
fn all_lists<'a>(alloc: Global, items: &'a Items) -> Result<Vec<&'a [Value]>, AllocError>
    ensures lists { IfOk result (λ lists.
        map (λ l. l.now) lists.items ≡ items.now.environments) }
    ensures few { IfOk result (λ lists. length lists.items < numbers_end) }
{
    let mut lists = Vec::new(alloc);
    for k in 0..items.environments() {
        let Some(list) = items.env(k) else {
            unreachable!()
        };
        lists.push(list)?;
    }
    Ok(lists)
}

/// The place of a list among them; `None` exactly where it isn't there.
fn place_of(lists: &[&[Value]], list: &[Value]) -> Option<u32>
    requires order { IsStrictlySortedBy values_cmp (map (λ l. l.now) lists.now) }
    requires few { length lists.now < numbers_end }
    ensures { MatchOption result (Contains (map (λ l. l.now) lists.now) list.now → ⊥)
        (λ k. slice_get (map (λ l. l.now) lists.now) k ≡ Some list.now) }
{
    match lists.binary_search(&list) {
        Ok(place) => Some(place as u32),
        Err(_) => None,
    }
}

/// Where each environment of the items stands among the lists, from 0, by the numbers of the
/// environments. Refused for want of memory.
pub fn places_of(alloc: Global, items: &Items, lists: &[&[Value]]) -> Result<Vec<u32>, AllocError>
    requires lists { AreLists items.now.environments (map (λ l. l.now) lists.now) }
    requires few { length lists.now < numbers_end }
    ensures { IfOk result (λ places.
        ArePlaces items.now.environments (map (λ l. l.now) lists.now) places.items) }
{
    let mut places = Vec::new(alloc);
    for k in 0..items.environments() {
        let Some(list) = items.env(k) else {
            unreachable!()
        };
        let Some(place) = place_of(lists, list) else {
            unreachable!()
        };
        places.push(place)?;
    }
    Ok(places)
}
