//! Runs in each order.
ghost use Rattle.std.specs.Prelude.{◌≡◌, IfErr, IfOk};
ghost use Rattle.ig_item.specs.Items.{MoreThan};
ghost use Rattle.ig_item.specs.Recorded.{IsRecorded};
ghost use Rattle.ig_plain.specs.Run.{Refuses};

use ig_engine::run;
use ig_item::{Core, Recorded, RunFault};
use ig_plain::saturate_with_ways;
use ig_queue::{Fifo, Lifo, Lowest, Order};
use ig_text::Text;
use std::alloc::Global;

/// The items that are reachable, each once, and exactly the ways in which they come about; they are
/// taken in that order, and are the same in each. `Budget` exactly where there are more items than
/// `budget`, if memory doesn't run out before.
pub(crate) fn run_in<'a>(
    alloc: Global,
    order: Order,
    core: &'a Core,
    text: &'a Text,
    budget: u32,
) -> Result<Recorded<'a>, RunFault>
    ensures core { IfOk result (λ r. r.core ≡ core.now) }
    ensures text { IfOk result (λ r. r.text ≡ text.now) }
    ensures recorded { IfOk result IsRecorded }
    ensures exact { IfOk result (λ _. MoreThan core.now text.now budget → ⊥) }
    ensures fault { IfErr result (Refuses core.now text.now budget) }
{
    match order {
        Order::Fifo => run(alloc, core, text, budget, Fifo::new(alloc)),
        Order::Lifo => run(alloc, core, text, budget, Lifo::new(alloc)),
        Order::Lowest => run(alloc, core, text, budget, Lowest::new(alloc)),
        Order::Plain => saturate_with_ways(alloc, core, text, budget),
    }
}
