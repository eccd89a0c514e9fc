//! What a run gives at its end.
ghost use Rattle.std.specs.Prelude.{◌≡◌, [], IfOk};
ghost use Rattle.ig_engine.specs.Reached.{AreTables, nodes_in, reached, seen};
ghost use Rattle.ig_item.specs.Recorded.{IsRecorded};
ghost use Rattle.ig_run_laws.specs.Run.{IsWhole};

use crate::state::State;
use ig_item::{Core, Recorded};
use ig_queue::Schedule;
use ig_run_laws::{ended_runs_are_complete, ended_runs_have_ways, finish};
use ig_run_moves::named_items_are_of_tables;
use ig_text::Text;
use std::alloc::{AllocError, Global};

/// What was found, in which no ticket waits.
pub(crate) fn recorded<'a, S: Schedule + Drop>(
    alloc: Global,
    core: &'a Core,
    text: &'a Text,
    state: State<S>,
) -> Result<Recorded<'a>, AllocError>
    requires tables { AreTables (reached state.envs.keys state.stacks state.found) }
    requires whole { IsWhole core.now text.now
        (seen (reached state.envs.keys state.stacks state.found))
        (nodes_in (reached state.envs.keys state.stacks state.found)) }
    requires ended { state.found.waiting ≡ [] }
    ensures core { IfOk result (λ r. r.core ≡ core.now) }
    ensures text { IfOk result (λ r. r.text ≡ text.now) }
    ensures items { IfOk result (λ r. r.tables.items ≡ state.found.items) }
    ensures recorded { IfOk result IsRecorded }
{
    ended_runs_are_complete();
    ended_runs_have_ways();
    named_items_are_of_tables();
    let State {
        envs,
        found,
        stacks,
    } = state;
    let keys = stacks.into_keys()?;
    let (items, ways) = found.into_parts()?;
    finish(alloc, core, text, &envs, keys, items, ways)
}
