//! Where an item stands.
ghost use Rattle.std.specs.Prelude.{◌≡◌, ◌↔◌, ◌<◌, Contains, IsTrue};
ghost use Rattle.ig_item.specs.Items.{IsCompleteRoot, root_instance};
ghost use Rattle.ig_item.specs.Tables.{instance_of, item_of};
ghost use Rattle.ig_query.specs.CodeReport.{Reports, dot_of, pattern_at};

use crate::dots::{Dot, is_last, pattern_at};
use ig_item::{Core, InstanceView, Item, Items, behind_is_looked_up};

/// The dot at which the item stands.
pub(crate) fn dot_of(items: &Items, item: &Item) -> Dot
    requires { Contains items.now.items item.now }
    ensures { result ≡ dot_of (item_of items.now item.now) }
{
    Dot {
        nonterminal: instance_of_item(items, item).nonterminal,
        alternative: item.alternative,
        dot: item.dot,
    }
}

/// The instance of the item.
fn instance_of_item<'a>(items: &'a Items, item: &Item) -> InstanceView<'a>
    requires { Contains items.now.items item.now }
    ensures { instance_of result ≡ (item_of items.now item.now).instance }
{
    let _number = items.len();
    match items.instance(item.instance) {
        Some(instance) => instance,
        None => unreachable!(),
    }
}

/// Whether the item stands before a terminal or is a complete one of the root.
pub(crate) fn reports(core: &Core, items: &Items, item: &Item) -> bool
    requires { Contains items.now.items item.now }
    ensures { IsTrue result ↔ Reports core.now (item_of items.now item.now) }
{
    behind_is_looked_up();
    if pattern_at(core, dot_of(items, item)).is_some() {
        return true;
    }
    is_complete_root(core, items, item)
}

/// Whether the item is a complete one of the root.
pub(crate) fn is_complete_root(core: &Core, items: &Items, item: &Item) -> bool
    requires { Contains items.now.items item.now }
    ensures { IsTrue result ↔ IsCompleteRoot core.now (item_of items.now item.now) }
{
    behind_is_looked_up();
    if !is_root(&instance_of_item(items, item)) {
        return false;
    }
    is_last(core, dot_of(items, item))
}

/// Whether the instance is the root, called at 0.
fn is_root(instance: &InstanceView<'_>) -> bool
    ensures { IsTrue result ↔ (instance_of instance.now ≡ root_instance) }
{
    instance.nonterminal == 0 && instance.values.is_empty() && instance.start == 0
}
