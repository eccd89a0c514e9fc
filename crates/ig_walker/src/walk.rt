//! Going on to the least walk, and back to the next option.
ghost use Rattle.std.specs.Prelude.{◌≡◌, [], ◌∷◌, MatchOption, IfOk, OnOk, reverse};
ghost use Rattle.std.specs.Prelude.{suc, vec_items};
ghost use Rattle.ig_walker.specs.Options.{options, root_goal};
ghost use Rattle.ig_walker.specs.States.{BackTo, Completed, HasNoNext, HasWalked, IsNextWalk};
ghost use Rattle.ig_walker.specs.Walks.{Last, Least, Next, Opens, Walk};

use crate::goal::{Goal, Visit};
use crate::measured::Measured;
use crate::options::first_option;
use crate::stack::{note, push_behind, undo};
use std::alloc::{AllocError, Global};

/// Goes on through the pending goals, each by its first option through which a walk leads.
fn complete(
    forest: &Measured,
    visits: &mut Vec<Visit>,
    pending: &mut Vec<Goal>,
) -> Result<(), AllocError>
    requires { Opens (options forest.now) (reverse (vec_items pending.old)) }
    ensures { OnOk result (Completed forest.now (reverse (vec_items pending.old))
        (vec_items visits.old) (vec_items visits.new)) }
{
    let _ = forest.root();
    while let Some(goal) = pending.pop() {
        if let Some((number, behind)) = first_option(forest, goal, 0) {
            note(visits, goal, number)?;
            push_behind(pending, behind)?;
        }
    }
    Ok(())
}

/// The number behind this one.
fn number_behind(choice: u32) -> usize
    ensures { result ≡ suc choice }
{
    choice as usize + 1
}

/// Goes back to the last visit with a later option through which a walk leads, and takes that.
/// `false` where there is none.
fn back(
    forest: &Measured,
    depth: u32,
    visits: &mut Vec<Visit>,
    pending: &mut Vec<Goal>,
) -> Result<bool, AllocError>
    requires walk { Walk (options forest.now) (root_goal forest.now depth ∷ [])
        (vec_items visits.old) }
    requires empty { vec_items pending.old ≡ [] }
    ensures { IfOk result (BackTo forest.now (root_goal forest.now depth ∷ [])
        (vec_items visits.old) (vec_items visits.new) (reverse (vec_items pending.new))) }
{
    while let Some(visit) = visits.pop() {
        undo(forest, pending, visit);
        let from = number_behind(visit.choice);
        if let Some((number, behind)) = first_option(forest, visit.goal, from) {
            note(visits, visit.goal, number)?;
            push_behind(pending, behind)?;
            return Ok(true);
        }
        pending.push(visit.goal)?;
    }
    Ok(false)
}

/// A copy of the visits.
fn copied(alloc: Global, visits: &[Visit]) -> Result<Vec<Visit>, AllocError>
    ensures { IfOk result (λ copy. vec_items copy ≡ visits.now) }
{
    let mut copy = Vec::new(alloc);
    for visit in visits {
        copy.push(*visit)?;
    }
    Ok(copy)
}

/// The least walk of all trees to the depth; `None` where there is no tree.
fn first_walk(
    alloc: Global,
    forest: &Measured,
    depth: u32,
) -> Result<Option<Vec<Visit>>, AllocError>
    ensures { IfOk result (λ found. MatchOption found
        (Opens (options forest.now) (root_goal forest.now depth ∷ []) → ⊥)
        (λ visits. Least (options forest.now) (root_goal forest.now depth ∷ [])
        (vec_items visits))) }
{
    let root = forest.root();
    if !forest.node_opens(root, depth) {
        return Ok(None);
    }
    let mut visits = Vec::new(alloc);
    let mut pending = Vec::new(alloc);
    pending.push(Goal::Node { node: root, depth })?;
    complete(forest, &mut visits, &mut pending)?;
    Ok(Some(visits))
}

/// The walk of the tree that comes next behind this walk; `None` where there is none.
fn later_walk(
    alloc: Global,
    forest: &Measured,
    depth: u32,
    visits: &[Visit],
) -> Result<Option<Vec<Visit>>, AllocError>
    requires { Walk (options forest.now) (root_goal forest.now depth ∷ []) visits.now }
    ensures { IfOk result (λ found. MatchOption found
        (Last (options forest.now) (root_goal forest.now depth ∷ []) visits.now)
        (λ next. Next (options forest.now) (root_goal forest.now depth ∷ []) visits.now
        (vec_items next))) }
{
    let mut copy = copied(alloc, visits)?;
    let mut pending = Vec::new(alloc);
    if !back(forest, depth, &mut copy, &mut pending)? {
        return Ok(None);
    }
    complete(forest, &mut copy, &mut pending)?;
    Ok(Some(copy))
}

/// The walk of the tree that comes next: behind this walk, or the least one where there are no
/// visits yet. `None` where there is none.
pub fn next_walk(
    alloc: Global,
    forest: &Measured,
    depth: u32,
    visits: &[Visit],
) -> Result<Option<Vec<Visit>>, AllocError>
    requires { HasWalked forest.now depth visits.now }
    ensures { IfOk result (λ found. MatchOption found
        (HasNoNext forest.now depth visits.now)
        (λ next. IsNextWalk forest.now depth visits.now (vec_items next))) }
{
    if visits.is_empty() {
        first_walk(alloc, forest, depth)
    } else {
        later_walk(alloc, forest, depth, visits)
    }
}
