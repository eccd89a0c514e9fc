//! The step behind the dot of an item.
ghost use Rattle.std.specs.Prelude.{◌≡◌, List, Some, map, option_map, slice_index_or};
ghost use Rattle.ig_expr.specs.declared.value.Value.{Value};
ghost use Rattle.ig_item.specs.Items.{StandsBefore};
ghost use Rattle.ig_item.specs.View.{step_of};
ghost use Rattle.ig_item.specs.declared.items.InstanceKey.{InstanceKey};
ghost use Rattle.ig_run_moves.specs.Rules.{step_at};
ghost use Rattle.ig_run_moves.specs.Tables.{item_by, no_key};
ghost use Rattle.ig_run_tables.specs.Compiled.{expressions_of, form_of};

use crate::context::Context;
use ig_item::{Core, Item, Step};
use ig_run_tables::{Known, known_at};

/// The step behind the dot of an item of that nonterminal; `None` exactly where there is none.
/// Takes no memory.
#[inline(always)]
pub fn step_behind(core: &Core, nonterminal: u32, item: Item) -> Option<&Step>
    ensures { option_map (λ step. step_of step.now) result ≡ step_at core.now nonterminal
        item.alternative item.dot }
{
    let steps = core.steps(nonterminal, item.alternative)?;
    steps.as_slice().get(item.dot as usize)
}

/// What is known where an item of that nonterminal stands before that step: the names that are
/// visible there, and the forms of the step's expressions. Takes no memory.
#[inline(always)]
pub fn known_before<'a>(
    context: &Context<'a>,
    nonterminal: u32,
    item: Item,
    step: &Step,
) -> Known<'a>
    requires { step_at context.now.core.now nonterminal item.alternative item.dot
        ≡ Some (step_of step.now) }
    ensures stands { (envs : List (List Value)) (keys : List InstanceKey) →
        (slice_index_or keys item.instance no_key).nonterminal ≡ nonterminal →
        StandsBefore context.now.core.now (item_by envs keys item) result.names.now
        (step_of step.now) }
    ensures forms { result.forms.now ≡
        map (form_of result.names.now) (expressions_of (step_of step.now)) }
{
    let Some(known) = known_at(context.dots, nonterminal, item) else {
        unreachable!()
    };
    known
}
