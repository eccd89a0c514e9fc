//! Whether a call is the first one of its alternative.
ghost use Rattle.std.specs.Prelude.{◌↔◌, ◌<◌, IsTrue, length, map, slice_index_or};
ghost use Rattle.ig_engine.specs.FirstCalls.{CallsNone, IsCall};
ghost use Rattle.ig_gss.specs.Nodes.{keys_of};
ghost use Rattle.ig_item.specs.View.{step_of};
ghost use Rattle.ig_run_moves.specs.Tables.{no_key};
ghost use Rattle.ig_run_laws.specs.FirstCalls.{CallsNothing, IsCallIn};

use crate::returns::nonterminal_of;
use ig_gss::Stacks;
use ig_item::{Core, Item, Step};

/// Whether a step is a call.
#[inline(always)]
fn is_call(step: &Step) -> bool
    ensures { IsTrue result ↔ IsCall (step_of step.now) }
{
    match step {
        Step::Call { .. } => true,
        _ => false,
    }
}

/// Whether the step of that number is there, and a call.
#[inline(always)]
fn is_call_in(steps: &[Step], number: u32) -> bool
    ensures { IsTrue result ↔ IsCallIn (map step_of steps.now) number }
{
    match steps.get(number as usize) {
        Some(step) => is_call(step),
        None => false,
    }
}

/// Whether none of the steps before that one is a call. It goes back from there: the steps without
/// a call that it passes had an item each, which was found for no other one.
fn calls_none(steps: &[Step], dot: u32) -> bool
    ensures { IsTrue result ↔ CallsNone (map step_of steps.now) dot }
{
    for number in (0..dot).rev() {
        if is_call_in(steps, number) {
            return false;
        }
    }
    true
}

/// Whether no step of the alternative of an item before its dot is a call.
#[inline(always)]
pub(crate) fn is_first_call(core: &Core, stacks: &Stacks, item: Item) -> bool
    requires { item.instance < length (keys_of stacks.now) }
    ensures { IsTrue result ↔ CallsNothing core.now
        (slice_index_or (keys_of stacks.now) item.instance no_key).nonterminal item.alternative
        item.dot }
{
    let nonterminal = nonterminal_of(stacks, item);
    match core.steps(nonterminal, item.alternative) {
        Some(steps) => calls_none(steps.as_slice(), item.dot),
        None => true,
    }
}
