//! The goals that are pending: a stack, whose top is at the end.
ghost use Rattle.std.specs.Prelude.{◌≡◌, List, [], ◌∷◌, ◌++◌, Some, OnOk, reverse};
ghost use Rattle.std.specs.Prelude.{slice_get, vec_items};
ghost use Rattle.ig_walker.specs.Behind.{listed};
ghost use Rattle.ig_walker.specs.Options.{options};
ghost use Rattle.ig_walker.specs.declared.goal.Goal.{Goal};

use crate::goal::{Behind, Goal, Visit};
use crate::measured::Measured;
use crate::options::option_at;
use std::alloc::AllocError;

/// Notes that the goal was visited by the option of that number. Refused also, as want of memory,
/// where 32 bits don't hold the number, as `number` of ig_item says.
pub fn note(visits: &mut Vec<Visit>, goal: Goal, number: usize) -> Result<(), AllocError>
    ensures { OnOk result (vec_items visits.new ≡
        vec_items visits.old ++ record { goal = goal; choice = number } ∷ []) }
{
    let choice = ig_item::number(number)?;
    visits.push(Visit { goal, choice })?;
    Ok(())
}

/// Puts the goals on the stack, the first one on top.
pub fn push_behind(pending: &mut Vec<Goal>, behind: Behind) -> Result<(), AllocError>
    ensures { OnOk result (reverse (vec_items pending.new) ≡
        listed behind ++ reverse (vec_items pending.old)) }
{
    match behind {
        Behind::Nothing => Ok(()),
        Behind::One(goal) => Ok(pending.push(goal)?),
        Behind::Two(first, second) => {
            pending.push(second)?;
            pending.push(first)?;
            Ok(())
        }
    }
}

/// Takes the goals from the stack again.
fn drop_behind(pending: &mut Vec<Goal>, behind: Behind)
    ensures { (rest : List Goal) → reverse (vec_items pending.old) ≡ listed behind ++ rest →
        reverse (vec_items pending.new) ≡ rest }
{
    match behind {
        Behind::Nothing => {}
        Behind::One(_) => {
            let _first = pending.pop();
        }
        Behind::Two(_, _) => {
            let _first = pending.pop();
            let _second = pending.pop();
        }
    }
}

/// Takes the goals behind a visit from the stack again, where its option is there.
pub fn undo(forest: &Measured, pending: &mut Vec<Goal>, visit: Visit)
    ensures { (part rest : List Goal) →
        slice_get (options forest.now visit.goal) visit.choice ≡ Some part →
        reverse (vec_items pending.old) ≡ part ++ rest → reverse (vec_items pending.new) ≡ rest }
{
    if let Some(behind) = option_at(forest, visit.goal, visit.choice as usize) {
        drop_behind(pending, behind);
    }
}
