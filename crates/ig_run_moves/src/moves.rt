//! The item behind an item: what its next step asks of the text.
ghost use Rattle.std.specs.Prelude.{◌≡◌, ◌<◌, ◌∷◌, [], ℕ, IfOk, List, Option, length};
ghost use Rattle.std.specs.Prelude.{slice_index_or};
ghost use Rattle.ig_expr.specs.View.{expression_of};
ghost use Rattle.ig_item.specs.WellKinded.{NoneTwice};
ghost use Rattle.ig_run_moves.specs.Rules.{HasCall, IsBehind, IsBehindBind, IsBehindTest};
ghost use Rattle.ig_run_moves.specs.Rules.{IsCallAt, IsPastCall};
ghost use Rattle.ig_run_moves.specs.Tables.{Moves};
ghost use Rattle.ig_run_tables.specs.Compiled.{form_of};
ghost use Rattle.ig_run_tables.specs.Extends.{Extends};
ghost use Rattle.ig_text.specs.declared.pattern.Pattern.{Pattern};

use crate::context::Context;
use crate::passing::past;
use crate::stepping::step_behind;
use ig_expr::{Expr, Value, Values};
use ig_item::{Item, Step};
use ig_run_tables::{Known, Qualifiers, is_true, matches_none, only, span_bound, value};
use ig_text::Pattern;
use indexmap::IndexSet;
use std::alloc::AllocError;

/// The values of the environment of that number. Takes no memory.
#[inline(always)]
pub fn values_at(envs: &IndexSet<Values>, env: u32) -> &[Value]
    requires { env < length envs.now.keys }
    ensures { result.now ≡ slice_index_or envs.now.keys env [] }
{
    envs.as_slice()[env as usize].as_slice()
}

/// The item behind a test; `None` exactly where its condition isn't true. Refused where 32 bits
/// don't hold the dot, or for want of memory.
#[inline(always)]
pub fn behind_test(
    context: &Context<'_>,
    envs: &mut IndexSet<Values>,
    known: &Known<'_>,
    condition: &Expr,
    item: Item,
) -> Result<Option<Item>, AllocError>
    requires there { item.env < length envs.old.keys }
    requires compiled { known.now.forms.now ≡
        form_of known.now.names.now (expression_of condition.now) ∷ [] }
    ensures extends { Extends envs.old.keys envs.new.keys }
    ensures once { NoneTwice envs.old.keys → NoneTwice envs.new.keys }
    ensures moves { IfOk result (Moves envs.old.keys envs.new.keys item (IsBehindTest
        context.now.text.now known.now.names.now (expression_of condition.now))) }
{
    let here = item.position;
    let form = only(known.forms);
    let values = values_at(envs, item.env);
    if !is_true(condition, form, known.names, values, here, context.text) {
        return Ok(None);
    }
    let behind = past(context.alloc, envs, item, None, here)?;
    Ok(Some(behind))
}

/// The item behind a binding, whose value is added to the environment; `None` exactly where its
/// expression has no value. Refused for want of memory alone.
#[inline(always)]
pub fn behind_bind(
    context: &Context<'_>,
    envs: &mut IndexSet<Values>,
    known: &Known<'_>,
    expression: &Expr,
    item: Item,
) -> Result<Option<Item>, AllocError>
    requires there { item.env < length envs.old.keys }
    requires compiled { known.now.forms.now ≡
        form_of known.now.names.now (expression_of expression.now) ∷ [] }
    ensures extends { Extends envs.old.keys envs.new.keys }
    ensures once { NoneTwice envs.old.keys → NoneTwice envs.new.keys }
    ensures moves { IfOk result (Moves envs.old.keys envs.new.keys item (IsBehindBind
        context.now.text.now known.now.names.now (expression_of expression.now))) }
{
    let here = item.position;
    let form = only(known.forms);
    let values = values_at(envs, item.env);
    let Some(value) = value(form, expression, known.names, values, here, context.text) else {
        return Ok(None);
    };
    let behind = past(context.alloc, envs, item, Some(value), here)?;
    Ok(Some(behind))
}

/// The item behind a terminal, with the span added to the environment where it has a label; `None`
/// exactly where its pattern doesn't match, or the text that it matches is a match of an excluded
/// pattern. Refused for want of memory alone.
#[inline(always)]
pub fn behind_terminal(
    context: &Context<'_>,
    envs: &mut IndexSet<Values>,
    what: &Pattern,
    qualifiers: &Qualifiers<'_>,
    item: Item,
) -> Result<Option<Item>, AllocError>
    requires there { item.env < length envs.old.keys }
    ensures extends { Extends envs.old.keys envs.new.keys }
    ensures once { NoneTwice envs.old.keys → NoneTwice envs.new.keys }
    ensures moves { IfOk result (Moves envs.old.keys envs.new.keys item (IsBehind
        context.now.text.now what.now qualifiers.now.label.now qualifiers.now.not.now)) }
{
    let Some(end) = what.ends_at(context.text, item.position) else {
        return Ok(None);
    };
    behind_call(context, envs, qualifiers, item, end)
}

/// The item behind a call whose callee ended at `end`, with the span added to the environment where
/// it has a label; `None` exactly where the text that the call covers is a match of an excluded
/// pattern. Refused for want of memory alone.
#[inline(always)]
pub fn behind_call(
    context: &Context<'_>,
    envs: &mut IndexSet<Values>,
    qualifiers: &Qualifiers<'_>,
    item: Item,
    end: u32,
) -> Result<Option<Item>, AllocError>
    requires there { item.env < length envs.old.keys }
    ensures extends { Extends envs.old.keys envs.new.keys }
    ensures once { NoneTwice envs.old.keys → NoneTwice envs.new.keys }
    ensures moves { IfOk result (Moves envs.old.keys envs.new.keys item (IsPastCall
        context.now.text.now qualifiers.now.label.now qualifiers.now.not.now end)) }
{
    let start = item.position;
    if !matches_none(qualifiers.not, context.text, start, end) {
        return Ok(None);
    }
    let bound = span_bound(qualifiers.label, start, end);
    let behind = past(context.alloc, envs, item, bound, end)?;
    Ok(Some(behind))
}

/// The same for an item of that nonterminal, whose step is looked up: it is a call.
pub fn behind_return(
    context: &Context<'_>,
    envs: &mut IndexSet<Values>,
    nonterminal: u32,
    item: Item,
    end: u32,
) -> Result<Option<Item>, AllocError>
    requires there { item.env < length envs.old.keys }
    requires calls { HasCall context.now.core.now nonterminal item.alternative item.dot }
    ensures extends { Extends envs.old.keys envs.new.keys }
    ensures once { NoneTwice envs.old.keys → NoneTwice envs.new.keys }
    ensures moves { (label : Option (List ℕ)) (excluded : List Pattern) →
        IsCallAt context.now.core.now nonterminal item.alternative item.dot label excluded →
        IfOk result (Moves envs.old.keys envs.new.keys item (IsPastCall context.now.text.now label
        excluded end)) }
{
    let Some(step) = step_behind(context.core, nonterminal, item) else {
        unreachable!()
    };
    let Step::Call { label, not, .. } = step else {
        unreachable!()
    };
    let not = not.as_slice();
    let qualifiers = Qualifiers { label, not };
    behind_call(context, envs, &qualifiers, item, end)
}
