//! Following a cursor from the root.
ghost use Rattle.std.specs.Prelude.{◌≡◌, [], ◌∷◌, ◌++◌, MatchOption, IfOk, OnOk, drop};
ghost use Rattle.std.specs.Prelude.{vec_items};
ghost use Rattle.ig_walker.specs.Options.{options, root_goal};
ghost use Rattle.ig_walker.specs.States.{EndsAtChoice, IsAlong, IsTold, IsWalkOf};

use crate::goal::{Goal, Visit};
use crate::measured::Measured;
use crate::options::{count_options, opening_option};
use crate::stack::push_behind;
use std::alloc::{AllocError, Global};

/// The number of the option that the cursor tells at that place, and the place behind it: where
/// there are two options or more its next number, else 0. `None` where it ends at a choice.
fn told(cursor: &[u32], place: usize, count: usize) -> Option<(u32, usize)>
    ensures { MatchOption result (EndsAtChoice count (drop place cursor.now))
        (λ told. IsTold count (drop place cursor.now) told.0 (drop told.1 cursor.now)) }
{
    if count < 2 {
        return Some((0, place));
    }
    match cursor.get(place) {
        Some(number) => Some((*number, place + 1)),
        None => None,
    }
}

/// Adds the visit of the goal by the option of that number.
fn add_visit(visits: &mut Vec<Visit>, goal: Goal, choice: u32) -> Result<(), AllocError>
    ensures { OnOk result (vec_items visits.new ≡
        vec_items visits.old ++ record { goal = goal; choice = choice } ∷ []) }
{
    visits.push(Visit { goal, choice })?;
    Ok(())
}

/// The walk of the tree with that cursor; `None` exactly where no tree to the depth has it.
pub fn follow(
    alloc: Global,
    forest: &Measured,
    depth: u32,
    cursor: &[u32],
) -> Result<Option<Vec<Visit>>, AllocError>
    ensures { IfOk result (λ found. MatchOption found
        (IsAlong (options forest.now) (root_goal forest.now depth ∷ []) cursor.now → ⊥)
        (λ visits. IsWalkOf (options forest.now) (root_goal forest.now depth ∷ []) cursor.now
        (vec_items visits))) }
{
    let node = forest.root();
    let mut visits = Vec::new(alloc);
    let mut pending = Vec::new(alloc);
    let mut place = 0;
    pending.push(Goal::Node { node, depth })?;
    while let Some(goal) = pending.pop() {
        let Some((choice, next)) = told(cursor, place, count_options(forest, goal)) else {
            return Ok(None);
        };
        let Some(behind) = opening_option(forest, goal, choice as usize) else {
            return Ok(None);
        };
        add_visit(&mut visits, goal, choice)?;
        push_behind(&mut pending, behind)?;
        place = next;
    }
    if place < cursor.len() {
        return Ok(None);
    }
    Ok(Some(visits))
}
