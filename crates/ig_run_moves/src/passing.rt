//! The item after a step, by what the step bound.
ghost use Rattle.std.specs.Prelude.{◌≡◌, ◌<◌, ◌∷◌, ◌++◌, [], IfOk, List, None, Some, length};
ghost use Rattle.std.specs.Prelude.{slice_get, slice_index_or};
ghost use Rattle.ig_text.specs.Input.{Input};
ghost use Rattle.ig_expr.specs.declared.value.Value.{Value};
ghost use Rattle.ig_item.specs.WellKinded.{NoneTwice};
ghost use Rattle.ig_run_moves.specs.Rules.{IsPastCall};
ghost use Rattle.ig_run_moves.specs.Tables.{IsPast, Moves};
ghost use Rattle.ig_run_tables.specs.Extends.{Extends};

use ig_expr::{Value, Values};
use ig_item::Item;
use ig_run_tables::{enter_values, extended};
use indexmap::IndexSet;
use std::alloc::{AllocError, Global};

/// The item after a call that has neither a label nor an excluded pattern, whose callee ended at
/// `end`, a position in characters from 0. Most calls are such ones, so this needs no table and
/// takes no memory; it is refused where 32 bits don't hold the dot.
#[inline(always)]
pub fn past_bare(item: Item, end: u32) -> Result<Item, AllocError>
    ensures { IfOk result (λ y. (text : Input) (envs : List (List Value)) →
        Moves envs envs item (IsPastCall text None [] end) (Some y)) }
{
    let Some(dot) = item.dot.checked_add(1) else {
        return Err(AllocError);
    };
    Ok(Item {
        instance: item.instance,
        alternative: item.alternative,
        dot,
        env: item.env,
        position: end,
    })
}

/// The item after its next step, which bound this value and came to `end`. Its environment is added
/// to the table.
#[inline(always)]
pub(crate) fn past(
    alloc: Global,
    envs: &mut IndexSet<Values>,
    item: Item,
    bound: Option<Value>,
    end: u32,
) -> Result<Item, AllocError>
    requires there { item.env < length envs.old.keys }
    ensures extends { Extends envs.old.keys envs.new.keys }
    ensures once { NoneTwice envs.old.keys → NoneTwice envs.new.keys }
    ensures past { IfOk result (IsPast envs.old.keys envs.new.keys item bound end) }
{
    let Some(dot) = item.dot.checked_add(1) else {
        return Err(AllocError);
    };
    let env = match bound {
        Some(value) => with_value(alloc, envs, item.env, value)?,
        None => item.env,
    };
    Ok(Item {
        instance: item.instance,
        alternative: item.alternative,
        dot,
        env,
        position: end,
    })
}

/// The number of the environment with one more value.
fn with_value(
    alloc: Global,
    envs: &mut IndexSet<Values>,
    env: u32,
    value: Value,
) -> Result<u32, AllocError>
    requires there { env < length envs.old.keys }
    ensures extends { Extends envs.old.keys envs.new.keys }
    ensures once { NoneTwice envs.old.keys → NoneTwice envs.new.keys }
    ensures there { IfOk result (λ k. slice_get envs.new.keys k ≡ Some (slice_index_or
        envs.old.keys env [] ++ value ∷ [])) }
{
    let values = extended(alloc, &envs.as_slice()[env as usize], value)?;
    enter_values(envs, values)
}
