//! Adding to the items that a run has found.
ghost use Rattle.std.specs.Prelude.{◌≡◌, ◌+◌, ◌<◌, ◌≤◌, IfErr, OnOk, Some};
ghost use Rattle.std.specs.Prelude.{ℕ, Contains, length};
ghost use Rattle.std.specs.Prelude.{slice_get};
ghost use Rattle.ig_item.specs.declared.run_fault.RunFault.TheVariants.{Budget};
ghost use Rattle.ig_item.specs.declared.ways.Way.TheVariants.{Node};
ghost use Rattle.ig_plain.specs.Found.{Adds, AddsLater, Named, count, means};
ghost use Rattle.ig_plain.specs.Trail.{By, ComesOnce, IsIndexed, IsNodeAt, Pushes};
ghost use Rattle.ig_plain.specs.Trail.{Records, RecordsLater};

use crate::found::{Found, number_of};
use crate::trail::Trail;
use ig_item::{Item, RunFault, Way};
use ig_run_moves::{Context, add_further_way};
use ig_run_tables::within_budget;

/// `Budget` exactly where there are more items than the budget.
pub(crate) fn keep_within(found: &Found, budget: u32) -> Result<(), RunFault>
    ensures within { OnOk result (count found.now ≤ budget) }
    ensures fault { IfErr result (λ f. f ≡ Budget → budget < count found.now) }
{
    let done = found.done.as_slice().len();
    let later = found.later.as_slice().len();
    let here = found.here.as_slice().len();
    within_budget(done.saturating_add(here).saturating_add(later), budget)
}

/// Adds an item at the position, which isn't there, and the way in which it came about.
fn push(
    context: &Context<'_>,
    found: &mut Found,
    trail: &mut Trail,
    item: Item,
    way: Way,
) -> Result<(), RunFault>
    requires named { Named found.old item }
    requires new { Contains found.old.here.items item → ⊥ }
    ensures adds { Adds item.position (λ x. x ≡ means found.old item) context.now.budget found.old
        found.new result }
    ensures pushes { OnOk result (Pushes item way found.old found.new trail.old trail.new) }
{
    let Ok(()) = found.here.push(item) else {
        return Err(RunFault::Memory);
    };
    trail.ways.push(way)?;
    keep_within(found, context.budget)
}

/// Adds an item at the position, which isn't there, and the way in which it came about: by no call,
/// so that it can't come about once more.
pub(crate) fn add_new(
    context: &Context<'_>,
    found: &mut Found,
    trail: &mut Trail,
    item: Item,
    way: Way,
) -> Result<(), RunFault>
    requires named { Named found.old item }
    requires new { Contains found.old.here.items item → ⊥ }
    requires once { ComesOnce way }
    ensures adds { Adds item.position (λ x. x ≡ means found.old item) context.now.budget found.old
        found.new result }
    ensures ways { OnOk result (Records (By way (λ x. x ≡ means found.old item)) found.old found.new
        trail.old trail.new) }
{
    push(context, found, trail, item, way)
}

/// Adds an item behind a call, if it isn't there, and that it came about from the item of number
/// `prev`, where `done` is the callee's first complete item here. Most returns add nothing, so the
/// item stays in registers.
#[inline(always)]
pub(crate) fn add_returned(
    context: &Context<'_>,
    found: &mut Found,
    trail: &mut Trail,
    item: Item,
    prev: u32,
    done: u32,
) -> Result<(), RunFault>
    requires named { Named found.old item }
    requires indexed { IsIndexed found.old trail.old }
    requires by_node { (k : ℕ) → slice_get found.old.here.items k ≡ Some item →
        IsNodeAt trail.old.ways.firsts (length found.old.done.items + k) }
    ensures adds { Adds item.position (λ x. x ≡ means found.old item) context.now.budget found.old
        found.new result }
    ensures ways { OnOk result (Records (By (Node prev done) (λ x. x ≡ means found.old item))
        found.old found.new trail.old trail.new) }
{
    let Some(item) = trail.returned.number_of(item) else {
        // A copy, so that the item that is looked up stays in registers.
        let new = item;
        return add_behind_call(context, found, trail, new, prev, done);
    };
    add_further_way(&mut trail.ways, item, prev, done)?;
    Ok(())
}

/// Adds an item behind a call, which isn't there, and that it came about from the item of number
/// `prev`, where `done` is the callee's first complete item here.
#[inline(never)]
fn add_behind_call(
    context: &Context<'_>,
    found: &mut Found,
    trail: &mut Trail,
    item: Item,
    prev: u32,
    done: u32,
) -> Result<(), RunFault>
    requires named { Named found.old item }
    requires new { Contains found.old.here.items item → ⊥ }
    ensures adds { Adds item.position (λ x. x ≡ means found.old item) context.now.budget found.old
        found.new result }
    ensures ways { OnOk result (Records (By (Node prev done) (λ x. x ≡ means found.old item))
        found.old found.new trail.old trail.new) }
{
    let number = number_of(found, found.here.len())?;
    trail.returned.add(item, number)?;
    push(context, found, trail, item, Way::Node { prev, done })
}

/// Adds an item at a later position, which came from the item of number `prev` over a terminal.
pub(crate) fn add_later(
    context: &Context<'_>,
    found: &mut Found,
    trail: &mut Trail,
    item: Item,
    prev: u32,
) -> Result<(), RunFault>
    requires named { Named found.old item }
    ensures adds { (p : ℕ) → p < item.position → AddsLater p (means found.old item)
        context.now.budget found.old found.new result }
    ensures ways { OnOk result (RecordsLater prev (means found.old item)
        found.old found.new trail.old trail.new) }
{
    let Ok(()) = found.later.push(item) else {
        return Err(RunFault::Memory);
    };
    let Ok(()) = trail.later.push(prev) else {
        return Err(RunFault::Memory);
    };
    keep_within(found, context.budget)
}
