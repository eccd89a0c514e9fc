//! The command `load`.
ghost use Rattle.std.specs.Prelude.{◌≤◌};
ghost use Rattle.ig_command.specs.Commands.{most_size};
ghost use Rattle.ig_command_jobs.specs.Texts.{LoadsText};

use ig_command_endings::{Stop, over_budget};
use ig_item::RunFault;
use ig_load::{load, show_summary};
use ig_queue::Order;
use std::alloc::Global;

/// The line of what a load of this size and number says, whose items are taken in that order.
///
/// Stops with the status `Budget` exactly where more items are reachable than the budget, or for
/// want of memory.
pub fn summary_line(
    alloc: Global,
    size: u32,
    number: u64,
    budget: u32,
    order: Order,
) -> Result<Vec<u8>, Stop>
    requires { size ≤ most_size }
    ensures { LoadsText size number budget result }
{
    match load(alloc, size, number, budget, order) {
        Ok(summary) => {
            let line = show_summary(alloc, &summary)?;
            Ok(line)
        }
        Err(RunFault::Budget) => Err(over_budget(alloc, budget)),
        Err(RunFault::Memory) => Err(Stop::Memory),
    }
}
