//! The root over the whole text.
ghost use Rattle.std.specs.Prelude.{◌≡◌, ◌↔◌, ◌<◌, IsTrue, MatchOption, length, slice_index_or};
ghost use Rattle.ig_item.specs.Gives.{Completes};
ghost use Rattle.ig_item.specs.Items.{RootIsComplete, root_instance};
ghost use Rattle.ig_item.specs.Tables.{instance_of, item_of};
ghost use Rattle.ig_forest_live.specs.FirstRoot.{IsFirstRoot, IsLastDot};

use ig_item::{Core, InstanceView, Item, Items, Recorded};

/// The number, from 0, of the first complete item of the root over the whole text; `None` exactly
/// where there is none. Takes no memory.
pub fn first_root(recorded: &Recorded) -> Option<u32>
    ensures { MatchOption result (RootIsComplete recorded.now.core recorded.now.text → ⊥)
        (IsFirstRoot recorded.now) }
{
    let items = recorded.items();
    let core = recorded.core();
    let end = recorded.text().len();
    let found = items.items();
    for number in 0..found.len() {
        if is_root(items, core, found[number], end) {
            return Some(number as u32);
        }
    }
    None
}

/// Whether the item is a complete one of the root, and came to that position.
fn is_root(items: &Items, core: &Core, item: Item, end: u32) -> bool
    requires { item.instance < length items.now.instances }
    ensures { IsTrue result ↔ Completes core.now (item_of items.now item)
        (record { instance = root_instance; end = end }) }
{
    item.position == end
        && is_of_root(items, item.instance)
        && is_last_dot(core, 0, item.alternative, item.dot)
}

/// Whether the instance of that number is the root, called at 0.
fn is_of_root(items: &Items, instance: u32) -> bool
    requires { instance < length items.now.instances }
    ensures { IsTrue result ↔
        (slice_index_or items.now.instances instance root_instance ≡ root_instance) }
{
    let Some(view) = items.instance(instance) else {
        unreachable!()
    };
    is_root_view(view)
}

/// Whether this is the root, called at 0.
fn is_root_view(view: InstanceView) -> bool
    ensures { IsTrue result ↔ (instance_of view.entry ≡ root_instance) }
{
    if view.nonterminal > 0 {
        return false;
    }
    if view.start > 0 {
        return false;
    }
    view.values.is_empty()
}

/// Whether the dot stands behind the last step of that alternative.
fn is_last_dot(core: &Core, nonterminal: u32, alternative: u32, dot: u32) -> bool
    ensures { IsTrue result ↔ IsLastDot core.now nonterminal alternative dot }
{
    match core.steps(nonterminal, alternative) {
        Some(steps) => dot as usize == steps.as_slice().len(),
        None => false,
    }
}
