//! How far the items came.
ghost use Rattle.std.specs.Prelude.{◌≡◌, ◌↔◌, Contains, IsTrue, max};
ghost use Rattle.ig_item.specs.Items.{IsCompleteRoot};
ghost use Rattle.ig_item.specs.Tables.{item_of, items_of};
ghost use Rattle.ig_query.specs.CodeReport.{EndsAt, IsFurthestAmong};

use crate::item::{is_complete_root, reports};
use ig_item::{Core, Item, Items};

/// The greatest position of the items that report, and 0 where none does.
pub(crate) fn furthest(core: &Core, items: &Items) -> u32
    ensures { IsFurthestAmong core.now (items_of items.now) result }
{
    let all = items.items();
    let mut most = 0;
    for item in all {
        if reports(core, items, item) {
            most = greater(most, item.position);
        }
    }
    most
}

/// The greater of two numbers.
fn greater(a: u32, b: u32) -> u32
    ensures { result ≡ max a b }
{
    if a < b { b } else { a }
}

/// Whether a complete item of the root stands at the position.
pub(crate) fn ends_at(core: &Core, items: &Items, position: u32) -> bool
    ensures { IsTrue result ↔ EndsAt core.now (items_of items.now) position }
{
    let all = items.items();
    for item in all {
        if is_end_at(core, items, item, position) {
            return true;
        }
    }
    false
}

/// Whether the item is a complete one of the root, and stands at the position.
fn is_end_at(core: &Core, items: &Items, item: &Item, position: u32) -> bool
    requires { Contains items.now.items item.now }
    ensures { IsTrue result ↔
        (IsCompleteRoot core.now (item_of items.now item.now) × (item.now.position ≡ position)) }
{
    if !is_complete_root(core, items, item) {
        return false;
    }
    item.position == position
}
