//! An item is taken: all that follows from it and those before it is added.
ghost use Rattle.std.specs.Prelude.{◌≡◌, map, slice_get};
ghost use Rattle.std.specs.Prelude.{Contains, Some};
ghost use Rattle.ig_engine.specs.Adding.{Adds, AddsBehind, By, Events};
ghost use Rattle.ig_engine.specs.Reached.{AreTables, Taking, means, reached, seen};
ghost use Rattle.ig_expr.specs.View.{expression_of};
ghost use Rattle.ig_gss.specs.Nodes.{keys_of};
ghost use Rattle.ig_item.specs.Items.{IsComplete, StandsBefore};
ghost use Rattle.ig_item.specs.Items as tree;
ghost use Rattle.ig_item.specs.Step.{Call};
ghost use Rattle.ig_item.specs.Tables.{instance_by};
ghost use Rattle.ig_item.specs.View.{step_of};
ghost use Rattle.ig_item.specs.WellKinded.{IsWellKinded};
ghost use Rattle.ig_item.specs.declared.items.Item as stored;
ghost use Rattle.ig_item.specs.declared.ways.Way.TheVariants.{Begin};
ghost use Rattle.ig_run_moves.specs.Rules.{step_at};
ghost use Rattle.ig_run_laws.specs.Rules.{IsFirstOf};
ghost use Rattle.ig_run_tables.specs.Compiled.{form_of};

use crate::first_calls::is_first_call;
use crate::laws::laws;
use crate::returns::{meet_edges, meet_pops, nonterminal_of};
use crate::state::State;
use ig_expr::Expr;
use ig_gss::{Edge, Pop};
use ig_item::{Core, InstanceKey, Item, RunFault, Step, Way};
use ig_queue::Schedule;
use ig_run_moves::{
    Context, Found, behind_bind, behind_terminal, behind_test, callee_of, first_item, is_bare,
    known_before, step_behind,
};
use ig_run_tables::{Known, Qualifiers};

/// Adds the first item of each alternative of the instance of that number and key, none of which
/// is there.
fn add_firsts<S: Schedule + Drop>(
    context: &Context<'_>,
    state: &mut State<S>,
    node: u32,
    key: InstanceKey,
) -> Result<(), RunFault>
    requires tables { AreTables (reached state.old.envs.keys state.old.stacks state.old.found) }
    requires there { slice_get (keys_of state.old.stacks) node ≡ Some key }
    requires new { (x : tree.Item) → IsFirstOf context.now.core.now
        (instance_by state.old.envs.keys key) x → Contains
        (seen (reached state.old.envs.keys state.old.stacks state.old.found)).items x → ⊥ }
    ensures envs { state.new.envs ≡ state.old.envs }
    ensures stacks { state.new.stacks ≡ state.old.stacks }
    ensures indexed { state.new.found.indexed ≡ state.old.found.indexed }
    ensures adds { Adds (By Begin (IsFirstOf context.now.core.now
        (instance_by state.old.envs.keys key))) context.now.budget
        (reached state.old.envs.keys state.old.stacks state.old.found)
        (reached state.old.envs.keys state.old.stacks state.new.found) result }
{
    laws();
    let Some(count) = context.core.alternatives(key.nonterminal) else {
        return Ok(());
    };
    for alternative in 0..count {
        let first = first_item(node, key, alternative + 1);
        state.found.push(first, Way::Begin, context.budget)?;
    }
    Ok(())
}

/// Adds an item, if there is one, that comes about once.
#[inline(always)]
fn add_behind<S: Schedule + Drop>(
    found: &mut Found<S>,
    behind: Option<Item>,
    way: Way,
    budget: u32,
) -> Result<(), RunFault>
    requires { (y : stored.Item) → behind ≡ Some y → Contains found.old.items y → ⊥ }
    ensures indexed { found.new.indexed ≡ found.old.indexed }
    ensures adds { AddsBehind found.old found.new behind way budget result }
{
    match behind {
        Some(item) => found.push(item, way, budget),
        None => Ok(()),
    }
}

/// Takes a complete item of that number: it meets the edges of its instance, unless another item
/// that is complete there was taken before.
fn take_complete<S: Schedule + Drop>(
    context: &Context<'_>,
    state: &mut State<S>,
    item: Item,
    number: u32,
) -> Result<(), RunFault>
    requires taking { Taking context.now.core.now context.now.text.now context.now.budget item
        number (reached state.old.envs.keys state.old.stacks state.old.found) }
    requires complete { IsComplete context.now.core.now
        (means (reached state.old.envs.keys state.old.stacks state.old.found) item) }
    ensures { Events context.now.core.now context.now.text.now context.now.budget
        (reached state.old.envs.keys state.old.stacks state.old.found)
        (reached state.new.envs.keys state.new.stacks state.new.found) result }
{
    laws();
    let node = item.instance;
    let end = item.position;
    let before = state.stacks.pop_at(node, end)?;
    if let Some(done) = before {
        state.found.add_end(done, number)?;
        return Ok(());
    }
    let envs = &mut state.envs;
    let found = &mut state.found;
    meet_edges(context, envs, found, &state.stacks, node, number, end)?;
    state.stacks.add_pop(node, Pop { end, done: number })?;
    Ok(())
}

/// Takes an item of that number before a call: it waits for the callee, whose first items are added
/// where it is new, and it meets the pops of the callee.
fn take_call<S: Schedule + Drop>(
    context: &Context<'_>,
    state: &mut State<S>,
    known: &Known<'_>,
    nonterminal: u32,
    args: &[Expr],
    qualifiers: &Qualifiers<'_>,
    item: Item,
    number: u32,
) -> Result<(), RunFault>
    requires taking { Taking context.now.core.now context.now.text.now context.now.budget item
        number (reached state.old.envs.keys state.old.stacks state.old.found) }
    requires before { StandsBefore context.now.core.now
        (means (reached state.old.envs.keys state.old.stacks state.old.found) item)
        known.now.names.now (Call nonterminal (map expression_of args.now)
        qualifiers.now.label.now qualifiers.now.not.now) }
    requires compiled { known.now.forms.now ≡
        map (form_of known.now.names.now) (map expression_of args.now) }
    ensures { Events context.now.core.now context.now.text.now context.now.budget
        (reached state.old.envs.keys state.old.stacks state.old.found)
        (reached state.new.envs.keys state.new.stacks state.new.found) result }
{
    laws();
    keep_well_kinded(context.core);
    let envs = &mut state.envs;
    let callee = callee_of(context, envs, known, nonterminal, args, item)?;
    let Some(key) = callee else {
        return Ok(());
    };
    let edge = Edge {
        item: number,
        is_bare: is_bare(qualifiers),
        is_first: is_first_call(context.core, &state.stacks, item),
    };
    let (node, is_new) = state.stacks.node(key)?;
    if is_new {
        add_firsts(context, state, node, key)?;
        state.stacks.add_edge(node, edge)?;
        return Ok(());
    }
    let envs = &mut state.envs;
    let found = &mut state.found;
    meet_pops(context, envs, found, &state.stacks, node, edge)?;
    state.stacks.add_edge(node, edge)?;
    Ok(())
}

/// A core grammar is well kinded.
fn keep_well_kinded(core: &Core)
    ensures { IsWellKinded core.now }
{
    let _count = core.nonterminals();
}

/// Takes an item of that number and that nonterminal before a step.
fn take_step<S: Schedule + Drop>(
    context: &Context<'_>,
    state: &mut State<S>,
    nonterminal: u32,
    step: &Step,
    item: Item,
    number: u32,
) -> Result<(), RunFault>
    requires taking { Taking context.now.core.now context.now.text.now context.now.budget item
        number (reached state.old.envs.keys state.old.stacks state.old.found) }
    requires of { nonterminal ≡ (means
        (reached state.old.envs.keys state.old.stacks state.old.found) item).instance.nonterminal }
    requires stands { step_at context.now.core.now nonterminal item.alternative item.dot
        ≡ Some (step_of step.now) }
    ensures { Events context.now.core.now context.now.text.now context.now.budget
        (reached state.old.envs.keys state.old.stacks state.old.found)
        (reached state.new.envs.keys state.new.stacks state.new.found) result }
{
    laws();
    let budget = context.budget;
    let envs = &mut state.envs;
    match step {
        Step::Term { what, label, not } => {
            let not = not.as_slice();
            let qualifiers = Qualifiers { label, not };
            let behind = behind_terminal(context, envs, what, &qualifiers, item)?;
            add_behind(&mut state.found, behind, Way::Leaf { prev: number }, budget)
        }
        Step::Test(condition) => {
            let known = known_before(context, nonterminal, item, step);
            let behind = behind_test(context, envs, &known, condition, item)?;
            add_behind(&mut state.found, behind, Way::Pass { prev: number }, budget)
        }
        Step::Bind(_, expression) => {
            let known = known_before(context, nonterminal, item, step);
            let behind = behind_bind(context, envs, &known, expression, item)?;
            add_behind(&mut state.found, behind, Way::Pass { prev: number }, budget)
        }
        Step::Call {
            nonterminal: callee,
            args,
            label,
            not,
        } => {
            let known = known_before(context, nonterminal, item, step);
            let args = args.as_slice();
            let not = not.as_slice();
            let qualifiers = Qualifiers { label, not };
            take_call(
                context,
                state,
                &known,
                *callee,
                args,
                &qualifiers,
                item,
                number,
            )
        }
    }
}

/// Takes the item of that number.
pub(crate) fn take<S: Schedule + Drop>(
    context: &Context<'_>,
    state: &mut State<S>,
    item: Item,
    number: u32,
) -> Result<(), RunFault>
    requires { Taking context.now.core.now context.now.text.now context.now.budget item
        number (reached state.old.envs.keys state.old.stacks state.old.found) }
    ensures { Events context.now.core.now context.now.text.now context.now.budget
        (reached state.old.envs.keys state.old.stacks state.old.found)
        (reached state.new.envs.keys state.new.stacks state.new.found) result }
{
    laws();
    keep_well_kinded(context.core);
    let nonterminal = nonterminal_of(&state.stacks, item);
    match step_behind(context.core, nonterminal, item) {
        Some(step) => take_step(context, state, nonterminal, step, item, number),
        None => take_complete(context, state, item, number),
    }
}
