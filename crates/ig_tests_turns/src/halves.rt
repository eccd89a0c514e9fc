//! Halves of numbers, found by jobs that take turns.
ghost use Rattle.std.specs.Prelude.{◌≡◌, ◌<◌, ◌^◌, ◌++◌, ◌∷◌, [], map, length, IfOk, OnOk};
ghost use Rattle.std.specs.List.{AllZip};
ghost use Rattle.ig_tests_turns.specs.Halves.{IsHalf};

use crate::halving::{Half, Halving};
use ig_turns::{Job, Jobs, Turns, play_out};
use std::alloc::{AllocError, Global};

/// The halves of the numbers, by jobs that take so many events a turn.
pub fn all_halves(alloc: Global, numbers: &[u32], events: u32) -> Result<Vec<u32>, AllocError>
    requires few { length numbers.now < 2 ^ 32 }
    requires some { 0 < events }
    ensures { IfOk result (λ halves. AllZip IsHalf numbers.now halves.items) }
{
    let mut turns = Turns::new(jobs_of(alloc, numbers)?);
    play_out(alloc, &mut turns, numbers.len() as u32, events)?;
    let answers = turns.finish(alloc)?;
    values_of(alloc, answers.as_slice())
}

/// A job for each number.
fn jobs_of(alloc: Global, numbers: &[u32]) -> Result<Jobs<Halving>, AllocError>
    ensures { IfOk result (λ jobs. map ⟦<Halving as Job>⟧.outcome jobs ≡ numbers.now) }
{
    let mut jobs = Jobs::new(alloc);
    for number in numbers {
        add(&mut jobs, Halving::new(*number))?;
    }
    Ok(jobs)
}

/// Adds the job at the end.
fn add(jobs: &mut Jobs<Halving>, job: Halving) -> Result<(), AllocError>
    ensures { OnOk result (jobs.new ≡ jobs.old ++ job ∷ []) }
{
    jobs.push(job).map_err(|refused| refused.1)
}

/// What stands in the answers.
fn values_of(alloc: Global, halves: &[Half]) -> Result<Vec<u32>, AllocError>
    ensures { IfOk result (λ values. AllZip IsHalf halves.now values.items) }
{
    let mut values = Vec::new(alloc);
    for half in halves {
        values.push(half.value())?;
    }
    Ok(values)
}
