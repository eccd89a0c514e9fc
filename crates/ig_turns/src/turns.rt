//! Jobs, and the turns that they take.
ghost use Rattle.std.specs.Prelude.{◌≡◌, ◌≢◌, ◌↔◌, ℕ, ◌<◌, ◌≤◌, ◌^◌, map, length};
ghost use Rattle.std.specs.Prelude.{false, IsTrue, Some, All, Err, IfOk, OnOk};
ghost use Rattle.std.specs.List.{slice_get};
ghost use Rattle.std.specs.Option.{IfNone, IfSome, IsSomeAnd};
ghost use Rattle.ig_turns.specs.Played.{Played};

use crate::job::Job;
use crate::list::{Answers, Jobs, Row};
use std::alloc::{AllocError, Global};
use std::marker::Model;

/// So many events for the job of that number. Jobs count from 0.
#[derive(Debug, Clone, Copy, PartialEq, Eq)]
pub struct Turn {
    pub job: u32,
    pub events: u32,
}

impl Turn {
    /// The place of its job in a list.
    fn place(self) -> usize
        ensures { result ≡ self.job }
    {
        self.job as usize
    }
}

/// Why turns weren't played to their end.
#[derive(Debug, Clone, Copy, PartialEq, Eq, Drop)]
pub enum TurnFault {
    /// There was no memory for an event.
    Memory,
    /// The turn of that number, counted from 0, names no job.
    NoJob { at: u32 },
}

impl From<AllocError> for TurnFault {
    ghost use Rattle.ig_turns.specs.declared.turns.TurnFault.TheVariants.{Memory};

    ghost from_gives = { λ _ fault. fault ≡ Memory };

    fn from(_error: AllocError) -> TurnFault {
        TurnFault::Memory
    }
}

/// Jobs that take turns. Contracts see the list of them.
#[derive(Drop)]
pub struct Turns<J> {
    jobs: Vec<J>,
}

impl<J> Model for Turns<J> {
    ghost use Rattle.std.specs.Prelude.{List};

    ghost Value = { List J };

    ghost view = { λ t. t.jobs.items };
}

impl<J: Job> Turns<J> {
    ghost use Rattle.ig_turns.specs.Turns.{first_stray, is_named, EachPlayed};

    /// These jobs, before the first turn. Takes no memory.
    pub fn new(jobs: Jobs<J>) -> Turns<J>
        requires { length jobs < 2 ^ 32 }
        ensures { result ≡ jobs }
    {
        Turns {
            jobs: jobs.into_vec(),
        }
    }

    /// Whether there is a job of that number, and it is finished. Takes no memory.
    pub fn finished(&self, job: u32) -> bool
        ensures { IsTrue result ↔ IsSomeAnd (slice_get self.now job) (λ x. J.left x ≡ 0) }
    {
        match self.jobs.get(job as usize) {
            Some(found) => found.is_finished(),
            None => false,
        }
    }

    /// Plays the turns one after another. In each its job takes as many events as the turn says,
    /// or those that it takes until it is finished.
    ///
    /// Refused with
    /// - `NoJob` exactly where a turn names no job, with the number of the first such turn; then
    ///   nothing changed;
    /// - `Memory` for want of memory; then some of the events may have been taken.
    ///
    /// Whatever the answer, each job will still give the same answer.
    pub fn play(&mut self, turns: &[Turn]) -> Result<(), TurnFault>
        requires { length turns.now < 2 ^ 32 }
        ensures outcomes { map J.outcome self.new ≡ map J.outcome self.old }
        ensures no_job { (at : ℕ) → (result ≡ Err (TurnFault.NoJob at)) ↔
            (first_stray (length self.old) turns.now ≡ Some at) }
        ensures unchanged { (at : ℕ) → result ≡ Err (TurnFault.NoJob at) → self.new ≡ self.old }
        ensures others { OnOk result ((job : ℕ) → is_named job turns.now ≡ false →
            slice_get self.new job ≡ slice_get self.old job) }
        ensures played { OnOk result (EachPlayed J.taken J.left turns.now self.old self.new) }
    {
        if let Some(at) = stray(turns, self.jobs.len()) {
            return Err(TurnFault::NoJob { at });
        }
        play_all(&mut self.jobs, turns)?;
        Ok(())
    }

    /// The answers, in the order of the jobs.
    ///
    /// Refused only for want of memory; then the jobs are dropped.
    pub fn finish(self, alloc: Global) -> Result<Answers<J::Answer>, AllocError>
        requires { All (λ job. J.left job ≡ 0) self }
        ensures { IfOk result (λ answers. answers ≡ map J.outcome self) }
    {
        let mut answers = Vec::new(alloc);
        for job in self.jobs {
            answers.push(job.answer(alloc)?)?;
        }
        Ok(Row::from_vec(answers))
    }
}

ghost use Rattle.ig_turns.specs.Turns.{first_stray, is_named, EachPlayed};

/// The number of the first turn that names none of so many jobs.
fn stray(turns: &[Turn], count: usize) -> Option<u32>
    requires { length turns.now < 2 ^ 32 }
    ensures first { result ≡ first_stray count turns.now }
    ensures none { IfNone result (All (λ turn. turn.job < count) turns.now) }
{
    place_of_stray(turns, count).map(|at| at as u32)
}

/// The same, as a place in the list.
fn place_of_stray(turns: &[Turn], count: usize) -> Option<usize>
    ensures place { result ≡ first_stray count turns.now }
    ensures bound { IfSome result (λ at. at < length turns.now) }
    ensures none { IfNone result (All (λ turn. turn.job < count) turns.now) }
{
    turns.iter().position(|turn| turn.job as usize >= count)
}

/// Plays the turns, each of which names a job.
fn play_all<J: Job>(jobs: &mut Vec<J>, turns: &[Turn]) -> Result<(), AllocError>
    requires { All (λ turn. turn.job < length jobs.old.items) turns.now }
    ensures outcomes { map J.outcome jobs.new.items ≡ map J.outcome jobs.old.items }
    ensures others { OnOk result ((job : ℕ) → is_named job turns.now ≡ false →
        slice_get jobs.new.items job ≡ slice_get jobs.old.items job) }
    ensures played { OnOk result
        (EachPlayed J.taken J.left turns.now jobs.old.items jobs.new.items) }
{
    for turn in turns {
        play_turn(jobs, *turn)?;
    }
    Ok(())
}

/// Plays one turn, which names a job.
fn play_turn<J: Job>(jobs: &mut Vec<J>, turn: Turn) -> Result<(), AllocError>
    requires { turn.job < length jobs.old.items }
    ensures outcomes { map J.outcome jobs.new.items ≡ map J.outcome jobs.old.items }
    ensures others { (job : ℕ) → turn.job ≢ job →
        slice_get jobs.new.items job ≡ slice_get jobs.old.items job }
    ensures played { OnOk result ((x y : J) → slice_get jobs.old.items turn.job ≡ Some x →
        slice_get jobs.new.items turn.job ≡ Some y → Played J.taken J.left turn.events x y) }
{
    take_events(&mut jobs[turn.place()], turn.events)
}

/// Takes so many events, or those that the job takes until it is finished.
fn take_events<J: Job>(job: &mut J, events: u32) -> Result<(), AllocError>
    ensures outcome { J.outcome job.new ≡ J.outcome job.old }
    ensures played { OnOk result (Played J.taken J.left events job.old job.new) }
{
    for _ in 0..events {
        if job.step()? {
            return Ok(());
        }
    }
    Ok(())
}
