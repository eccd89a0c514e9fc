//! The instance that an item calls.
ghost use Rattle.std.specs.Prelude.{◌≡◌, ◌↔◌, ◌<◌, [], IfOk, IsTrue, None, length, map};
ghost use Rattle.ig_expr.specs.View.{expression_of};
ghost use Rattle.ig_item.specs.WellKinded.{NoneTwice};
ghost use Rattle.ig_run_moves.specs.Rules.{IsCallee};
ghost use Rattle.ig_run_moves.specs.Tables.{GivesCallee, first_stored};
ghost use Rattle.ig_run_tables.specs.Compiled.{form_of};
ghost use Rattle.ig_run_tables.specs.Extends.{Extends};

use crate::context::Context;
use crate::interning::enter_arguments;
use crate::moves::values_at;
use ig_expr::{Expr, Values};
use ig_item::{InstanceKey, Item};
use ig_run_tables::{Known, Qualifiers, argument_values};
use indexmap::IndexSet;
use std::alloc::AllocError;

/// Whether a call has neither a label nor an excluded pattern. Takes no memory.
#[inline(always)]
pub fn is_bare(qualifiers: &Qualifiers<'_>) -> bool
    ensures { IsTrue result ↔
        ((qualifiers.now.label.now ≡ None) × (qualifiers.now.not.now ≡ [])) }
{
    qualifiers.label.is_none() && qualifiers.not.is_empty()
}

/// The instance of that nonterminal that an item calls with these arguments, where it stands; its
/// values are added to the environments. `None` exactly where an argument has no value. Refused for
/// want of memory alone.
// Out of line, so that what a caller does with other items keeps these in registers.
#[inline(never)]
pub fn callee_of(
    context: &Context<'_>,
    envs: &mut IndexSet<Values>,
    known: &Known<'_>,
    nonterminal: u32,
    args: &[Expr],
    item: Item,
) -> Result<Option<InstanceKey>, AllocError>
    requires there { item.env < length envs.old.keys }
    requires compiled { known.now.forms.now ≡
        map (form_of known.now.names.now) (map expression_of args.now) }
    ensures extends { Extends envs.old.keys envs.new.keys }
    ensures once { NoneTwice envs.old.keys → NoneTwice envs.new.keys }
    ensures callee { IfOk result (GivesCallee envs.old.keys envs.new.keys item (IsCallee
        context.now.text.now known.now.names.now nonterminal (map expression_of args.now))) }
{
    let start = item.position;
    let values = values_at(envs, item.env);
    let Some(arguments) = argument_values(context.alloc, known, args, values, start, context.text)?
    else {
        return Ok(None);
    };
    let env = enter_arguments(envs, arguments, item.env)?;
    Ok(Some(InstanceKey {
        nonterminal,
        env,
        start,
    }))
}

/// The first item of that alternative, numbered from 1, of the instance of that number and key.
#[inline(always)]
pub fn first_item(instance: u32, key: InstanceKey, alternative: u32) -> Item
    ensures { result ≡ first_stored instance key alternative }
{
    Item {
        instance,
        alternative,
        dot: 0,
        env: key.env,
        position: key.start,
    }
}
