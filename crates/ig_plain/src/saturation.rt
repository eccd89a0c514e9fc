//! Saturation in rising positions.
ghost use Rattle.std.specs.Prelude.{◌≡◌, ◌≤◌, ◌<◌, ◌++◌, [], IfErr, IfOk};
ghost use Rattle.std.specs.Prelude.{MatchResult, OnOk, length};
ghost use Rattle.ig_text.specs.Input.{Input};
ghost use Rattle.ig_item.specs.Items.{MoreThan};
ghost use Rattle.ig_item.specs.Recorded.{AreReachable, IsRecorded};
ghost use Rattle.ig_item.specs.Tables.{items_of, tables_by};
ghost use Rattle.ig_item.specs.WellKinded.{NoneTwice};
ghost use Rattle.ig_plain.specs.Contexts.{HasTrailIn, IsRunIn, RunsIn};
ghost use Rattle.ig_plain.specs.Run.{IsRun, Refuses};
ghost use Rattle.ig_plain.specs.Arrival.{ArrivesWith, IsNothing, IsParted, WereThere};
ghost use Rattle.ig_plain.specs.Trail.{ArrivesOn, HasTrail, IsUntrodden, PartsTrail};

use crate::found::Found;
use crate::run::{Run, add_firsts, keep_well_kinded, take};
use crate::trail::Trail;
use ig_expr::Values;
use ig_item::{
    Core, InstanceKey, Item, Items, Recorded, RunFault, Way, Ways, items_are_in_text,
    reachable_is_closed,
};
use ig_run_laws::items_of;
use ig_run_moves::{Context, Waiting, add_called};
use ig_run_tables::{dots_of_core, enter_values};
use ig_text::Text;
use std::alloc::{AllocError, Global};

/// Takes all items at the position.
fn take_all(context: &Context<'_>, run: &mut Run, position: u32) -> Result<(), RunFault>
    requires run { IsRunIn context.now position 0 run.old }
    requires trail { HasTrailIn context.now position 0 run.old }
    ensures run { RunsIn context.now position (length run.new.found.here.items) run.new result }
    ensures trail { OnOk result
        (HasTrailIn context.now position (length run.new.found.here.items) run.new) }
{
    let mut place = 0;
    while place < run.found.here.len() {
        take(context, run, place, position)?;
        place += 1;
    }
    Ok(())
}

/// Parts the later items: those at the position are added to `here`, with their ways, and the
/// others stay, in order. Each came from the item of its number in `prevs`. Whatever the answer,
/// no other items are there.
fn part(
    here: &mut Vec<Item>,
    ways: &mut Ways,
    later: &mut Vec<Item>,
    prevs: &mut Vec<u32>,
    position: u32,
) -> Result<(), AllocError>
    requires numbered { length prevs.old.items ≡ length later.old.items }
    ensures parted { OnOk result (IsParted position later.old.items here.old.items here.new.items
        later.new.items) }
    ensures there { WereThere later.old.items here.old.items here.new.items later.new.items }
    ensures ways { OnOk result (PartsTrail later.old.items prevs.old.items here.old.items
        here.new.items ways.old ways.new later.new.items prevs.new.items) }
{
    let mut kept = 0;
    for place in 0..later.len() {
        let item = later[place];
        let prev = prevs[place];
        if item.position == position {
            here.push(item)?;
            ways.push(Way::Leaf { prev })?;
        } else {
            later[kept] = item;
            prevs[kept] = prev;
            kept += 1;
        }
    }
    later.truncate(kept);
    prevs.truncate(kept);
    Ok(())
}

/// Moves to the next position, `position`.
fn arrive(found: &mut Found, trail: &mut Trail, position: u32) -> Result<(), AllocError>
    requires numbered { length trail.old.later.items ≡ length found.old.later.items }
    ensures arrives { OnOk result (ArrivesWith position found.old found.new) }
    ensures ways { OnOk result (ArrivesOn found.old found.new trail.old trail.new) }
    ensures returned { OnOk result (trail.new.returned ≡ []) }
{
    found.done.extend_from_slice(found.here.as_slice())?;
    found.here.clear();
    trail.returned.clear()?;
    part(
        &mut found.here,
        &mut trail.ways,
        &mut found.later,
        &mut trail.later,
        position,
    )
}

/// Begins a run: it is at position 0 and has found the first items of the root.
fn start(context: &Context<'_>, run: &mut Run) -> Result<(), RunFault>
    requires empty { IsNothing run.old.found run.old.waiting }
    requires untrodden { IsUntrodden run.old.waiting run.old.trail }
    ensures run { (text : Input) → MatchResult result (λ _. IsRun context.now.core.now text
        context.now.budget 0 0 run.new.found run.new.waiting)
        (Refuses context.now.core.now text context.now.budget) }
    ensures trail { (text : Input) → OnOk result (HasTrail context.now.core.now text 0 0
        run.new.found run.new.waiting run.new.trail) }
{
    reachable_is_closed();
    keep_well_kinded(context.core);
    let env = enter_values(&mut run.found.envs, Values::new(context.alloc))?;
    let key = InstanceKey {
        nonterminal: 0,
        env,
        start: 0,
    };
    let (root, _) = run.found.keys.enter(key)?;
    add_called(&mut run.waiting)?;
    add_firsts(context, &mut run.found, &mut run.trail, root, key)
}

/// The last position.
fn last_position(text: &Text) -> u32
    ensures { result ≡ length text.now.characters }
{
    text.len()
}

/// Takes all items at all positions.
fn run_to_end(context: &Context<'_>, run: &mut Run) -> Result<(), RunFault>
    requires nothing { IsNothing run.old.found run.old.waiting }
    requires untrodden { IsUntrodden run.old.waiting run.old.trail }
    ensures run { RunsIn context.now (length context.now.text.now.characters)
        (length run.new.found.here.items) run.new result }
    ensures trail { OnOk result (HasTrailIn context.now (length context.now.text.now.characters)
        (length run.new.found.here.items) run.new) }
{
    start(context, run)?;
    take_all(context, run, 0)?;
    for before in 0..last_position(context.text) {
        let position = before + 1;
        arrive(&mut run.found, &mut run.trail, position)?;
        take_all(context, run, position)?;
    }
    Ok(())
}

/// A run that has taken all items.
fn completed(alloc: Global, core: &Core, text: &Text, budget: u32) -> Result<Run, RunFault>
    ensures run { MatchResult result (λ r. IsRun core.now text.now budget
        (length text.now.characters) (length r.found.here.items) r.found r.waiting)
        (Refuses core.now text.now budget) }
    ensures trail { IfOk result (λ r. HasTrail core.now text.now (length text.now.characters)
        (length r.found.here.items) r.found r.waiting r.trail) }
{
    let dots = dots_of_core(alloc, core)?;
    let context = Context {
        alloc,
        core,
        text,
        dots: dots.as_slice(),
        budget,
    };
    let trail = Trail::new(alloc)?;
    let mut run = Run {
        found: Found::new(alloc),
        waiting: Waiting::new(alloc),
        trail,
    };
    run_to_end(&context, &mut run)?;
    Ok(run)
}

/// The items over their tables. Refused where a table has 4,294,967,296 members too, which no
/// memory holds.
fn finish(alloc: Global, mut found: Found) -> Result<Items, AllocError>
    ensures { IfOk result (λ t. t ≡ tables_by found.keys found.envs.keys (found.done.items ++
        found.here.items)) }
{
    close(&mut found)?;
    let Found {
        done,
        envs,
        keys,
        ..
    } = found;
    items_of(alloc, &envs, keys.into_vec(), done)
}

/// Puts the items at the position behind those before it.
fn close(found: &mut Found) -> Result<(), AllocError>
    ensures items { OnOk result
        (found.new.done.items ≡ found.old.done.items ++ found.old.here.items) }
    ensures keys { found.new.keys ≡ found.old.keys }
    ensures envs { found.new.envs.keys ≡ found.old.envs.keys }
{
    let here = found.here.as_slice();
    found.done.extend_from_slice(here)?;
    Ok(())
}

/// The items that are reachable, each once, and how they come about. `Budget` exactly where there
/// are more items than `budget`, if memory doesn't run out before.
pub fn saturate_with_ways<'a>(
    alloc: Global,
    core: &'a Core,
    text: &'a Text,
    budget: u32,
) -> Result<Recorded<'a>, RunFault>
    ensures core { IfOk result (λ r. r.core ≡ core.now) }
    ensures text { IfOk result (λ r. r.text ≡ text.now) }
    ensures recorded { IfOk result IsRecorded }
    ensures within { IfOk result (λ r. length r.tables.items ≤ budget) }
    ensures exact { IfOk result (λ _. MoreThan core.now text.now budget → ⊥) }
    ensures fault { IfErr result (Refuses core.now text.now budget) }
{
    items_are_in_text();
    let whole = completed(alloc, core, text, budget)?;
    let Run { found, trail, .. } = whole;
    let items = finish(alloc, found)?;
    Ok(Recorded::of(core, text, items, trail.ways))
}

/// The items that are reachable, each once. `Budget` exactly where there are more than `budget`, if
/// memory doesn't run out before. No instance and no environment stands twice in its table.
pub fn saturate(alloc: Global, core: &Core, text: &Text, budget: u32) -> Result<Items, RunFault>
    ensures items { IfOk result (AreReachable core.now text.now) }
    ensures once { IfOk result (λ t. NoneTwice (items_of t)) }
    ensures within { IfOk result (λ t. length t.items ≤ budget) }
    ensures exact { IfOk result (λ t. MoreThan core.now text.now budget → ⊥) }
    ensures instances { IfOk result (λ t. NoneTwice t.instances) }
    ensures environments { IfOk result (λ t. NoneTwice t.environments) }
    ensures fault { IfErr result (Refuses core.now text.now budget) }
{
    let recorded = saturate_with_ways(alloc, core, text, budget)?;
    Ok(recorded.into_items())
}
