//! An item is taken: all that follows from it and those before it is added.
ghost use Rattle.std.specs.Prelude.{◌≡◌, ◌<◌, ◌+◌, ◌++◌, IsTrue};
ghost use Rattle.std.specs.Prelude.{None, OnOk, Some, length, map};
ghost use Rattle.std.specs.Prelude.{slice_get};
ghost use Rattle.ig_item.specs.Items.{IsComplete};
ghost use Rattle.ig_item.specs.WellKinded.{NoneTwice};
ghost use Rattle.ig_item.specs.Tables.{instance_by};
ghost use Rattle.ig_item.specs.Items.{StandsBefore};
ghost use Rattle.ig_expr.specs.View.{expression_of};
ghost use Rattle.ig_item.specs.WellKinded.{IsWellKinded};
ghost use Rattle.ig_item.specs.Step.{Call};
ghost use Rattle.ig_item.specs.View.{step_of};
ghost use Rattle.ig_item.specs.declared.ways.Way.TheVariants.{Begin, Node};
ghost use Rattle.ig_plain.specs.Found.{Adds, Named, means};
ghost use Rattle.ig_run_moves.specs.Rules.{step_at};
ghost use Rattle.ig_run_laws.specs.Rules.{IsFirstOf};
ghost use Rattle.ig_plain.specs.Rules.{IsReturn, StandsAtBareCall};
ghost use Rattle.ig_plain.specs.Rules.{StandsAtCall};
ghost use Rattle.ig_run_tables.specs.Compiled.{form_of};
ghost use Rattle.ig_plain.specs.Contexts.{EntersIn, EntersOnIn, HasTrailIn, IsNextIn, IsRunIn};
ghost use Rattle.ig_plain.specs.Contexts.{RunsIn, TakesIn, TakesOnIn, TakingIn};
ghost use Rattle.ig_plain.specs.Run.{IsChainOf, IsReturnToOne};
ghost use Rattle.ig_plain.specs.Trail.{AreKnown, By, ComeByNodes, IsIndexed, IsReturnBy};
ghost use Rattle.ig_plain.specs.Trail.{Records, Unfound};

use crate::adds::add_new;
use crate::found::{Found, number_of};
use crate::moves::{go_behind, go_behind_bare, take_bind, take_terminal, take_test};
use crate::trail::Trail;
use ig_expr::Expr;
use ig_item::{
    Core, InstanceKey, Item, RunFault, Step, Way, items_are_in_text, reachable_is_closed,
};
use ig_run_moves::{
    Caller, Context, Taken, Waiting, add_called, add_caller, add_end, add_further_end,
    before_binds, before_calls, before_terminals, before_tests, callee_of, end_at,
    ends_are_complete, first_caller, first_item, is_bare, known_before, step_behind,
    steps_are_behind,
};
use ig_run_tables::{Known, Qualifiers};

/// What a run has come to.
#[derive(Drop)]
pub(crate) struct Run {
    pub(crate) found: Found,
    pub(crate) waiting: Waiting,
    pub(crate) trail: Trail,
}

/// Adds the first item of each alternative of an instance that starts at the position. None of them
/// is there.
pub(crate) fn add_firsts(
    context: &Context<'_>,
    found: &mut Found,
    trail: &mut Trail,
    instance: u32,
    key: InstanceKey,
) -> Result<(), RunFault>
    requires there { slice_get found.old.keys instance ≡ Some key }
    requires new { Unfound found.old
        (IsFirstOf context.now.core.now (instance_by found.old.envs.keys key)) }
    ensures adds { Adds key.start (IsFirstOf context.now.core.now
        (instance_by found.old.envs.keys key)) context.now.budget found.old found.new result }
    ensures ways { OnOk result (Records (By Begin (IsFirstOf context.now.core.now
        (instance_by found.old.envs.keys key))) found.old found.new trail.old trail.new) }
{
    let Some(count) = context.core.alternatives(key.nonterminal) else {
        return Ok(());
    };
    for alternative in 0..count {
        let first = first_item(instance, key, alternative + 1);
        add_new(context, found, trail, first, Way::Begin)?;
    }
    Ok(())
}

/// The nonterminal of an item.
fn nonterminal_of(found: &Found, item: Item) -> u32
    requires { Named found.now item }
    ensures { result ≡ (means found.now item).instance.nonterminal }
{
    found.keys.as_slice()[item.instance as usize].nonterminal
}

/// Adds the item behind the call before which the caller stands, for a callee that ended at `end`
/// and whose first complete item there is `done`.
fn return_to(
    context: &Context<'_>,
    found: &mut Found,
    trail: &mut Trail,
    caller: Caller,
    done: u32,
    end: u32,
) -> Result<(), RunFault>
    requires named { Named found.old caller.item }
    requires calls { StandsAtCall context.now.core.now (means found.old caller.item) }
    requires bare { IsTrue caller.is_bare →
        StandsAtBareCall context.now.core.now (means found.old caller.item) }
    requires indexed { IsIndexed found.old trail.old }
    requires by_nodes { ComeByNodes found.old trail.old (IsReturn context.now.core.now
        context.now.text.now (means found.old caller.item) end) }
    ensures adds { Adds end (IsReturn context.now.core.now context.now.text.now (means found.old
        caller.item) end) context.now.budget found.old found.new result }
    ensures ways { OnOk result (Records (By (Node caller.number done) (IsReturn
        context.now.core.now context.now.text.now (means found.old caller.item) end))
        found.old found.new trail.old trail.new) }
{
    let item = caller.item;
    let number = caller.number;
    if caller.is_bare {
        // By `?`, so that the walk over the callers goes on without a second test.
        go_behind_bare(context, found, trail, item, number, done, end)?;
        return Ok(());
    }
    let nonterminal = nonterminal_of(found, item);
    let Some(step) = step_behind(context.core, nonterminal, item) else {
        return Ok(());
    };
    let from = Taken { item, number };
    match step {
        Step::Call { label, not, .. } => {
            let not = not.as_slice();
            let qualifiers = Qualifiers { label, not };
            go_behind(context, found, trail, &qualifiers, from, done, end)
        }
        _ => Ok(()),
    }
}

/// Adds the item behind the call before which each caller of the chain stands.
fn return_to_all(
    context: &Context<'_>,
    found: &mut Found,
    trail: &mut Trail,
    callers: &[Caller],
    head: u32,
    done: u32,
    end: u32,
) -> Result<(), RunFault>
    requires chain { IsChainOf context.now.core.now callers.now head found.old }
    requires known { AreKnown context.now.core.now found.old callers.now }
    requires once { NoneTwice (found.old.done.items ++ found.old.here.items) }
    requires indexed { IsIndexed found.old trail.old }
    requires by_nodes { ComeByNodes found.old trail.old (IsReturnToOne context.now.core.now
        context.now.text.now callers.now head end found.old) }
    ensures adds { Adds end (IsReturnToOne context.now.core.now context.now.text.now callers.now
        head end found.old) context.now.budget found.old found.new result }
    ensures ways { OnOk result (Records (IsReturnBy context.now.core.now context.now.text.now
        callers.now head done end found.old) found.old found.new trail.old trail.new) }
{
    let mut at = head;
    while at > 0 {
        let caller = callers[at as usize - 1];
        return_to(context, found, trail, caller, done, end)?;
        at = caller.next;
    }
    Ok(())
}

/// The item of that number at the position.
fn item_at(found: &Found, number: usize) -> Item
    requires { number < length found.now.here.items }
    ensures { slice_get found.now.here.items number ≡ Some result }
{
    found.here[number]
}

/// Takes a complete item: each caller of its instance returns, unless another item that is complete
/// here came before.
fn take_complete(context: &Context<'_>, run: &mut Run, taken: Taken) -> Result<(), RunFault>
    requires taking { TakingIn context.now taken run.old }
    requires next { IsNextIn context.now taken run.old }
    requires complete { IsComplete context.now.core.now (means run.old.found taken.item) }
    ensures takes { TakesIn context.now taken run.old run.new result }
    ensures trail { TakesOnIn context.now taken run.old run.new result }
{
    reachable_is_closed();
    let instance = taken.item.instance;
    let end = taken.item.position;
    if let Some(first) = end_at(&run.waiting, instance, end) {
        add_further_end(&mut run.trail.ways, first, taken.number)?;
        return Ok(());
    }
    add_end(&mut run.waiting, instance, end, taken.number);
    let head = first_caller(&run.waiting, instance);
    let callers = run.waiting.callers.as_slice();
    let found = &mut run.found;
    let trail = &mut run.trail;
    return_to_all(context, found, trail, callers, head, taken.number, end)
}

/// Takes an item before a call: it waits for the callee, whose first items are added unless another
/// caller came before, and it returns where the callee ended here already.
fn take_call(
    context: &Context<'_>,
    run: &mut Run,
    known: &Known<'_>,
    nonterminal: u32,
    args: &[Expr],
    qualifiers: &Qualifiers<'_>,
    taken: Taken,
) -> Result<(), RunFault>
    requires taking { TakingIn context.now taken run.old }
    requires next { IsNextIn context.now taken run.old }
    requires before { StandsBefore context.now.core.now (means run.old.found taken.item)
        known.now.names.now (Call nonterminal (map expression_of args.now)
        qualifiers.now.label.now qualifiers.now.not.now) }
    requires compiled { known.now.forms.now ≡
        map (form_of known.now.names.now) (map expression_of args.now) }
    ensures takes { TakesIn context.now taken run.old run.new result }
    ensures trail { TakesOnIn context.now taken run.old run.new result }
{
    reachable_is_closed();
    items_are_in_text();
    before_calls();
    let start = taken.item.position;
    let envs = &mut run.found.envs;
    let Some(key) = callee_of(context, envs, known, nonterminal, args, taken.item)? else {
        return Ok(());
    };
    let callee = call_instance(context, run, key)?;
    add_caller(&mut run.waiting, callee, taken, is_bare(qualifiers))?;
    let Some(done) = end_at(&run.waiting, callee, start) else {
        return Ok(());
    };
    let found = &mut run.found;
    let trail = &mut run.trail;
    go_behind(context, found, trail, qualifiers, taken, done, start)
}

/// The number of the instance. Where it is new, its first items are added.
fn call_instance(context: &Context<'_>, run: &mut Run, key: InstanceKey) -> Result<u32, RunFault>
    requires env { key.env < length run.old.found.envs.keys }
    requires once { NoneTwice run.old.found.keys }
    requires envs_once { NoneTwice run.old.found.envs.keys }
    ensures enters { EntersIn context.now key run.old run.new result }
    ensures trail { EntersOnIn context.now key run.old run.new result }
{
    let (callee, is_new) = run.found.keys.enter(key)?;
    if is_new {
        add_called(&mut run.waiting)?;
        add_firsts(context, &mut run.found, &mut run.trail, callee, key)?;
    }
    Ok(callee)
}

/// Takes an item of that nonterminal before a step.
fn take_step(
    context: &Context<'_>,
    run: &mut Run,
    nonterminal: u32,
    step: &Step,
    taken: Taken,
) -> Result<(), RunFault>
    requires taking { TakingIn context.now taken run.old }
    requires next { IsNextIn context.now taken run.old }
    requires nonterminal { nonterminal ≡ (means run.old.found taken.item).instance.nonterminal }
    requires there { step_at context.now.core.now nonterminal taken.item.alternative taken.item.dot
        ≡ Some (step_of step.now) }
    ensures takes { TakesIn context.now taken run.old run.new result }
    ensures trail { TakesOnIn context.now taken run.old run.new result }
{
    reachable_is_closed();
    let found = &mut run.found;
    let trail = &mut run.trail;
    match step {
        Step::Term { what, label, not } => {
            steps_are_behind();
            before_terminals();
            let not = not.as_slice();
            let qualifiers = Qualifiers { label, not };
            take_terminal(context, found, trail, what, &qualifiers, taken)
        }
        Step::Test(condition) => {
            before_tests();
            let known = known_before(context, nonterminal, taken.item, step);
            take_test(context, found, trail, &known, condition, taken)
        }
        Step::Bind(_, expression) => {
            before_binds();
            let known = known_before(context, nonterminal, taken.item, step);
            take_bind(context, found, trail, &known, expression, taken)
        }
        Step::Call {
            nonterminal: callee,
            args,
            label,
            not,
        } => {
            let known = known_before(context, nonterminal, taken.item, step);
            let args = args.as_slice();
            let not = not.as_slice();
            let qualifiers = Qualifiers { label, not };
            take_call(context, run, &known, *callee, args, &qualifiers, taken)
        }
    }
}

/// A core grammar is well kinded.
pub(crate) fn keep_well_kinded(core: &Core)
    ensures { IsWellKinded core.now }
{
    let _count = core.nonterminals();
}

/// Takes the item at that place among those at the position.
pub(crate) fn take(
    context: &Context<'_>,
    run: &mut Run,
    place: usize,
    position: u32,
) -> Result<(), RunFault>
    requires run { IsRunIn context.now position place run.old }
    requires trail { HasTrailIn context.now position place run.old }
    requires there { place < length run.old.found.here.items }
    ensures run { RunsIn context.now position (place + 1) run.new result }
    ensures trail { OnOk result (HasTrailIn context.now position (place + 1) run.new) }
{
    ends_are_complete();
    keep_well_kinded(context.core);
    let item = item_at(&run.found, place);
    let number = number_of(&run.found, place)?;
    let taken = Taken { item, number };
    let nonterminal = nonterminal_of(&run.found, item);
    match step_behind(context.core, nonterminal, item) {
        Some(step) => take_step(context, run, nonterminal, step, taken),
        None => take_complete(context, run, taken),
    }
}
