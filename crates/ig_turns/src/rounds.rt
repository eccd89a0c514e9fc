//! Rounds of turns.
ghost use Rattle.std.specs.Prelude.{◌≡◌, ◌≢◌, ◌↔◌, ◌<◌, ◌≤◌, ◌^◌, ℕ, map, length, vec_len};
ghost use Rattle.std.specs.Prelude.{IsTrue, All, IfOk, OnOk};
ghost use Rattle.ig_turns.specs.Turns.{events_of};
ghost use Rattle.ig_turns.specs.Rounds.{total};

use crate::job::Job;
use crate::turns::{Turn, TurnFault, Turns};
use std::alloc::{AllocError, Global};

/// Plays rounds of turns, in each of which each job takes so many events, until all are finished.
///
/// Refused only for want of memory; then each job will still give the same answer.
pub fn play_out<J: Job>(
    alloc: Global,
    turns: &mut Turns<J>,
    count: u32,
    events: u32,
) -> Result<(), AllocError>
    requires count { length turns.old ≡ count }
    requires some { 0 < events }
    ensures outcomes { map J.outcome turns.new ≡ map J.outcome turns.old }
    ensures finished { OnOk result (All (λ job. J.left job ≡ 0) turns.new) }
{
    let round = round_of(alloc, count, events)?;
    while !are_finished(turns, count) {
        play_round(turns, round.as_slice())?;
    }
    Ok(())
}

/// Plays a round of turns, of which each job has an event.
fn play_round<J: Job>(turns: &mut Turns<J>, round: &[Turn]) -> Result<(), AllocError>
    requires few { length round.now < 2 ^ 32 }
    requires named { All (λ turn. turn.job < length turns.old) round.now }
    requires each { (job : ℕ) → job < length turns.old → 0 < events_of job round.now }
    ensures outcomes { map J.outcome turns.new ≡ map J.outcome turns.old }
    ensures falls { OnOk result (total J.left turns.old ≢ 0 →
        total J.left turns.new < total J.left turns.old) }
{
    match turns.play(round) {
        Ok(()) => Ok(()),
        Err(TurnFault::NoJob { .. }) => unreachable!(),
        Err(TurnFault::Memory) => Err(AllocError),
    }
}

/// Whether all jobs are finished. Takes no memory.
fn are_finished<J: Job>(turns: &Turns<J>, count: u32) -> bool
    requires { length turns.now ≡ count }
    ensures { IsTrue result ↔ (total J.left turns.now ≡ 0) }
{
    for job in 0..count {
        if !turns.finished(job) {
            return false;
        }
    }
    true
}

/// A turn of so many events for each of so many jobs.
fn round_of(alloc: Global, count: u32, events: u32) -> Result<Vec<Turn>, AllocError>
    ensures named { IfOk result (λ round. All (λ turn. turn.job < count) round.items) }
    ensures each { IfOk result (λ round. (job : ℕ) → job < count →
        events ≤ events_of job round.items) }
    ensures len { IfOk result (λ round. vec_len round ≡ count) }
{
    let mut round = Vec::new(alloc);
    for job in 0..count {
        round.push(Turn { job, events })?;
    }
    Ok(round)
}
