//! A whole run.
ghost use Rattle.std.specs.Prelude.{◌≡◌, ◌≤◌, [], IfErr, IfOk, None, OnOk, length};
ghost use Rattle.ig_engine.specs.Running.{IsRefused};
ghost use Rattle.ig_item.specs.Items.{MoreThan};
ghost use Rattle.ig_item.specs.Recorded.{IsRecorded};

use crate::progress::Progress;
use crate::stepping::Run;
use ig_item::{Core, Recorded, RunFault};
use ig_queue::Schedule;
use ig_run_laws::{budgets_suffice, ended_runs_are_complete};
use ig_text::Text;
use std::alloc::Global;

/// Steps until no ticket waits. `Budget` exactly where more items than the budget are reachable, if
/// memory doesn't run out before.
fn step_to_end<S: Schedule + Drop>(run: &mut Run<'_, S>) -> Result<(), RunFault>
    requires { run.old.refused ≡ None }
    ensures core { run.new.core ≡ run.old.core }
    ensures text { run.new.text ≡ run.old.text }
    ensures budget { run.new.budget ≡ run.old.budget }
    ensures going { OnOk result (run.new.refused ≡ None) }
    ensures ended { OnOk result (run.new.state.found.waiting ≡ []) }
    ensures exact { OnOk result (MoreThan run.old.core run.old.text run.old.budget → ⊥) }
    ensures fault { IfErr result (IsRefused run.old.core run.old.text run.old.budget) }
{
    ended_runs_are_complete();
    budgets_suffice();
    loop {
        match run.step()? {
            Progress::More => {}
            Progress::Done => return Ok(()),
        }
    }
}

/// The items that are reachable, each once, and exactly the ways in which they come about, whatever
/// the order in which the schedule gives its tickets. `Budget` exactly where there are more items
/// than `budget`, if memory doesn't run out before.
pub fn run<'a, S: Schedule + Drop>(
    alloc: Global,
    core: &'a Core,
    text: &'a Text,
    budget: u32,
    schedule: S,
) -> Result<Recorded<'a>, RunFault>
    requires { S.waiting schedule ≡ [] }
    ensures core { IfOk result (λ r. r.core ≡ core.now) }
    ensures text { IfOk result (λ r. r.text ≡ text.now) }
    ensures recorded { IfOk result IsRecorded }
    ensures within { IfOk result (λ r. length r.tables.items ≤ budget) }
    ensures exact { IfOk result (λ _. MoreThan core.now text.now budget → ⊥) }
    ensures fault { IfErr result (IsRefused core.now text.now budget) }
{
    let mut started = Run::start(alloc, core, text, budget, schedule)?;
    step_to_end(&mut started)?;
    Ok(started.finish()?)
}
