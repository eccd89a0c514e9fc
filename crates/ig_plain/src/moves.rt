//! What an item that is taken adds by itself: items behind tests, bindings and terminals.
ghost use Rattle.std.specs.Prelude.{◌≡◌, [], ◌∷◌, None, OnOk};
ghost use Rattle.ig_expr.specs.View.{expression_of};
ghost use Rattle.ig_item.specs.declared.ways.Way.TheVariants.{Node, Pass};
ghost use Rattle.ig_run_tables.specs.Compiled.{form_of};
ghost use Rattle.ig_run_moves.specs.Rules.{IsBehind, IsPastCall, IsBehindBind, IsBehindTest};
ghost use Rattle.ig_plain.specs.Found.{Adds, AddsTerminal, Named, means};
ghost use Rattle.ig_plain.specs.Trail.{By, ComeByNodes, IsIndexed};
ghost use Rattle.ig_plain.specs.Trail.{Records, RecordsTerminal, Unfound};

use crate::adds::{add_later, add_new, add_returned};
use crate::found::Found;
use crate::trail::Trail;
use ig_expr::Expr;
use ig_item::{Item, RunFault, Way};
use ig_run_moves::{
    Context, Taken, behind_bind, behind_call, behind_terminal, behind_test, past_bare,
};
use ig_run_tables::{Known, Qualifiers};
use ig_text::Pattern;

/// Adds the item behind a test, where its condition is true. It comes from `from`.
pub(crate) fn take_test(
    context: &Context<'_>,
    found: &mut Found,
    trail: &mut Trail,
    known: &Known<'_>,
    condition: &Expr,
    from: Taken,
) -> Result<(), RunFault>
    requires named { Named found.old from.item }
    requires compiled { known.now.forms.now ≡
        form_of known.now.names.now (expression_of condition.now) ∷ [] }
    requires new { Unfound found.old (IsBehindTest context.now.text.now known.now.names.now
        (expression_of condition.now) (means found.old from.item)) }
    ensures adds { Adds from.item.position (IsBehindTest context.now.text.now known.now.names.now
        (expression_of condition.now) (means found.old from.item)) context.now.budget found.old
        found.new result }
    ensures ways { OnOk result (Records (By (Pass from.number) (IsBehindTest context.now.text.now
        known.now.names.now (expression_of condition.now) (means found.old from.item)))
        found.old found.new trail.old trail.new) }
{
    let envs = &mut found.envs;
    let Some(behind) = behind_test(context, envs, known, condition, from.item)? else {
        return Ok(());
    };
    let way = Way::Pass { prev: from.number };
    add_new(context, found, trail, behind, way)
}

/// Adds the item behind a binding, where its expression has a value. It comes from `from`.
pub(crate) fn take_bind(
    context: &Context<'_>,
    found: &mut Found,
    trail: &mut Trail,
    known: &Known<'_>,
    expression: &Expr,
    from: Taken,
) -> Result<(), RunFault>
    requires named { Named found.old from.item }
    requires compiled { known.now.forms.now ≡
        form_of known.now.names.now (expression_of expression.now) ∷ [] }
    requires new { Unfound found.old (IsBehindBind context.now.text.now known.now.names.now
        (expression_of expression.now) (means found.old from.item)) }
    ensures adds { Adds from.item.position (IsBehindBind context.now.text.now known.now.names.now
        (expression_of expression.now) (means found.old from.item)) context.now.budget found.old
        found.new result }
    ensures ways { OnOk result (Records (By (Pass from.number) (IsBehindBind context.now.text.now
        known.now.names.now (expression_of expression.now) (means found.old from.item)))
        found.old found.new trail.old trail.new) }
{
    let envs = &mut found.envs;
    let Some(behind) = behind_bind(context, envs, known, expression, from.item)? else {
        return Ok(());
    };
    let way = Way::Pass { prev: from.number };
    add_new(context, found, trail, behind, way)
}

/// Adds the item behind a call whose callee ended at `end`, the position, unless the text that it
/// covers is a match of an excluded pattern. It comes from `from`, and `done` is the callee's first
/// complete item here.
#[inline(never)]
pub(crate) fn go_behind(
    context: &Context<'_>,
    found: &mut Found,
    trail: &mut Trail,
    qualifiers: &Qualifiers<'_>,
    from: Taken,
    done: u32,
    end: u32,
) -> Result<(), RunFault>
    requires named { Named found.old from.item }
    requires indexed { IsIndexed found.old trail.old }
    requires by_nodes { ComeByNodes found.old trail.old (IsPastCall context.now.text.now
        qualifiers.now.label.now qualifiers.now.not.now end (means found.old from.item)) }
    ensures adds { Adds end (IsPastCall context.now.text.now qualifiers.now.label.now
        qualifiers.now.not.now end (means found.old from.item)) context.now.budget found.old
        found.new result }
    ensures ways { OnOk result (Records (By (Node from.number done) (IsPastCall
        context.now.text.now qualifiers.now.label.now qualifiers.now.not.now end
        (means found.old from.item))) found.old found.new trail.old trail.new) }
{
    let envs = &mut found.envs;
    let Some(behind) = behind_call(context, envs, qualifiers, from.item, end)? else {
        return Ok(());
    };
    add_returned(context, found, trail, behind, from.number, done)
}

/// Adds the item behind a call that has neither a label nor an excluded pattern, whose callee ended
/// at `end`, the position. It came about from the item of number `prev`, and `done` is the callee's
/// first complete item here. Most returns are such ones.
#[inline(always)]
pub(crate) fn go_behind_bare(
    context: &Context<'_>,
    found: &mut Found,
    trail: &mut Trail,
    item: Item,
    prev: u32,
    done: u32,
    end: u32,
) -> Result<(), RunFault>
    requires named { Named found.old item }
    requires indexed { IsIndexed found.old trail.old }
    requires by_nodes { ComeByNodes found.old trail.old
        (IsPastCall context.now.text.now None [] end (means found.old item)) }
    ensures adds { Adds end (IsPastCall context.now.text.now None [] end (means found.old item))
        context.now.budget found.old found.new result }
    ensures ways { OnOk result (Records (By (Node prev done)
        (IsPastCall context.now.text.now None [] end (means found.old item)))
        found.old found.new trail.old trail.new) }
{
    let behind = past_bare(item, end)?;
    add_returned(context, found, trail, behind, prev, done)
}

/// Adds the item behind a terminal, where its pattern matches a text that is a match of no excluded
/// pattern. It comes from `from`.
pub(crate) fn take_terminal(
    context: &Context<'_>,
    found: &mut Found,
    trail: &mut Trail,
    what: &Pattern,
    qualifiers: &Qualifiers<'_>,
    from: Taken,
) -> Result<(), RunFault>
    requires named { Named found.old from.item }
    requires new { Unfound found.old (IsBehind context.now.text.now what.now
        qualifiers.now.label.now qualifiers.now.not.now (means found.old from.item)) }
    ensures adds { AddsTerminal context.now.text.now what.now qualifiers.now.label.now
        qualifiers.now.not.now context.now.budget from.item.position (means found.old from.item)
        found.old found.new result }
    ensures ways { OnOk result (RecordsTerminal context.now.text.now what.now
        qualifiers.now.label.now qualifiers.now.not.now from.number (means found.old from.item)
        found.old found.new trail.old trail.new) }
{
    let envs = &mut found.envs;
    let Some(behind) = behind_terminal(context, envs, what, qualifiers, from.item)? else {
        return Ok(());
    };
    if behind.position == from.item.position {
        let way = Way::Leaf { prev: from.number };
        return add_new(context, found, trail, behind, way);
    }
    add_later(context, found, trail, behind, from.number)
}
