//! The forest of items that come from elsewhere, whose ways aren't known.
ghost use Rattle.std.specs.Prelude.{◌↔◌, Contains, IfOk, MatchOption};
ghost use Rattle.ig_item.specs.Items.{Item, Reachable, RootIsComplete};
ghost use Rattle.ig_item.specs.Tables.{items_of};
ghost use Rattle.ig_forest.specs.Reduced.{IsReduced};

use ig_forest::Forest;
use ig_item::{Core, Items, RunFault};
use ig_plain::{budgets_suffice, saturate_with_ways};
use ig_text::Text;
use std::alloc::{AllocError, Global};

/// The reduced forest of the core grammar and the text, whose reachable items are these; their ways
/// are recorded first. `None` exactly where no complete item of the root over the whole text is
/// reachable. Refuses only for want of memory.
pub fn forest_of_items(
    alloc: Global,
    items: &Items,
    core: &Core,
    text: &Text,
) -> Result<Option<Forest>, AllocError>
    requires { (x : Item) → Contains (items_of items.now) x ↔ Reachable core.now text.now x }
    ensures { IfOk result (λ forest. MatchOption forest
        (RootIsComplete core.now text.now → ⊥) (IsReduced core.now text.now)) }
{
    budgets_suffice();
    match saturate_with_ways(alloc, core, text, items.len()) {
        Ok(recorded) => Forest::of_recorded(alloc, &recorded),
        Err(RunFault::Budget) => unreachable!(),
        Err(RunFault::Memory) => Err(AllocError),
    }
}
