//! The command, from the name of a list to the text of all its jobs.
ghost use Rattle.std.specs.Prelude.{◌<◌};
ghost use Rattle.ig_command_endings.specs.Change.{change, ByFetches, OnlyFetches};
ghost use Rattle.ig_tool.specs.Batch.{RunsBatch};

use crate::loading::load_jobs;
use crate::playing::play;
use ig_command::WorkList;
use ig_command_endings::Stop;
use ig_command_sources::load_list;
use ig_outside::Shelf;
use std::alloc::Global;

/// What comes of the jobs in the list of that name: of each its line, its text for out and its line
/// for notes. They take turns of so many events, and the items of each are taken in that order.
///
/// Fetches the list, and then of each job in order its grammar and, where that is accepted, its
/// input. Stops with the status `ReadFault` where the shelf holds nothing under one of these names
/// or fails; with `BadList` where the list is none; or for want of memory.
pub fn batch<F: Shelf>(
    alloc: Global,
    shelf: &mut F,
    list: &str,
    budget: u32,
    order: WorkList,
    turn: u32,
) -> Result<Vec<u8>, Stop>
    requires { 0 < turn }
    ensures answer { ByFetches (λ call. RunsBatch budget call list.now result)
        (change (F.state shelf.old) (F.state shelf.new)) }
    ensures fetches { OnlyFetches (change (F.state shelf.old) (F.state shelf.new)) }
{
    let names = load_list(alloc, shelf, list)?;
    let batch = load_jobs(alloc, shelf, names.as_slice())?;
    let text = play(alloc, batch, budget, order, turn)?;
    Ok(text)
}
