//! A sink in memory, with a fixed room, which fails at the puts that it was told to fail at.
ghost use Rattle.std.specs.Prelude.{◌≡◌, ℕ, ◌+◌, ◌≤◌, ◌↔◌, [], ◌++◌, length, take, vec_len};
ghost use Rattle.std.specs.Prelude.{vec_capacity, IsOk, is_ok, Some, None, IfOk, OnOk, OnErr};
ghost use Rattle.std.specs.Prelude.{if◌then◌else◌};
ghost use Rattle.ig_outside.specs.Counts.{last_count, risen};
ghost use Rattle.ig_outside.specs.Put.{AnswersPut, CausesPut};

use crate::sink::{Sink, SinkFault};
use std::alloc::{AllocError, Global};
use std::collections::BTreeMap;

/// A sink that takes its bytes into memory reserved beforehand, and tells what it got.
#[derive(Debug, Drop)]
pub struct MemorySink {
    taken: Vec<u8>,
    /// How many bytes the sink takes in all.
    room: usize,
    /// How many bytes each put that fails may append, by its number, counted from 1.
    failing: BTreeMap<u64, u64>,
    faults: u64,
    puts: u64,
    // A put within the room takes no memory.
    ghost reserved: { room ≤ vec_capacity taken },
    ghost within: { vec_len taken ≤ room },
}

impl MemorySink {
    ghost use Rattle.ig_outside.specs.MemorySink.{room_of, puts_of, kept_at, Fails, SameContent};
    ghost use Rattle.ig_outside.specs.MemorySink.{SameCounts, SameFailures};

    /// A sink with room for `room` bytes. It has none yet, fails at no put and has the counts 0.
    ///
    /// Refused only for want of memory for the room.
    pub fn new(alloc: Global, room: u64) -> Result<MemorySink, AllocError>
        ensures empty { IfOk result (λ s. (⟦<MemorySink as Sink>⟧.state s).got ≡ Some []) }
        ensures room { IfOk result (λ s. room_of s ≡ room) }
        ensures no_failures { IfOk result (λ s. (k : ℕ) → kept_at s k ≡ None) }
        ensures faults { IfOk result (λ s. (⟦<MemorySink as Sink>⟧.state s).faults ≡ 0) }
        ensures puts { IfOk result (λ s. puts_of s ≡ 0) }
    {
        let room = room as usize;
        let taken = Vec::with_capacity(alloc, room)?;
        Ok(MemorySink {
            taken,
            room,
            failing: BTreeMap::new(alloc),
            faults: 0,
            puts: 0,
        })
    }

    /// Makes the put of number `call` fail, counted from 1 over the life of the sink, after it
    /// appended at most `kept` bytes. A later call for the same number replaces the earlier.
    ///
    /// Refused only for want of memory; then the same puts fail as before.
    pub fn fail(&mut self, call: u32, kept: u64) -> Result<(), AllocError>
        ensures ok { OnOk result (Fails self.old self.new call kept) }
        ensures err { OnErr result (SameFailures self.old self.new) }
        ensures counts { SameCounts self.old self.new }
        ensures same { SameContent self.old self.new }
    {
        self.failing.insert(u64::from(call), kept)?;
        Ok(())
    }

    /// The bytes taken so far. Takes no memory.
    pub fn bytes(&self) -> &[u8]
        ensures { (⟦<MemorySink as Sink>⟧.state self.now).got ≡ Some result.now }
    {
        self.taken.as_slice()
    }

    /// How many puts failed, or the last count where there were more. Takes no memory.
    pub fn count(&self) -> u64
        ensures { result ≡ (⟦<MemorySink as Sink>⟧.state self.now).faults }
    {
        self.faults
    }
}

impl Sink for MemorySink {
    ghost use Rattle.ig_outside.specs.MemorySink.{taken_by, room_of, room_left, faults_of, puts_of};
    ghost use Rattle.ig_outside.specs.MemorySink.{kept_at, limit_of, state_of, SameFailures};

    ghost state = { state_of };

    /// Puts as every sink does. It appends what the room and, where this put was told to fail, the
    /// bytes that it is to keep allow. It fails exactly where it was told to fail or the room does
    /// not suffice, and each failure raises the count of faults by one.
    fn put(&mut self, piece: &[u8]) -> Result<(), SinkFault>
        ensures answer { AnswersPut (state_of self.old).got
            (state_of self.new).got piece.now result }
        ensures cause { CausesPut (faults_of self.old) (faults_of self.new) result }
        ensures before { faults_of self.old ≤ last_count }
        ensures after { faults_of self.new ≤ last_count }
        ensures counted { puts_of self.new ≡ risen (puts_of self.old) }
        ensures appended { taken_by self.new ≡
            taken_by self.old ++ take (limit_of self.old) piece.now }
        ensures ok { IsOk result ↔ ((kept_at self.old (puts_of self.new) ≡ None)
            × (length piece.now ≤ room_left self.old)) }
        ensures rise { faults_of self.new ≡
            (if is_ok result then faults_of self.old else risen (faults_of self.old)) }
        ensures room { room_of self.new ≡ room_of self.old }
        ensures failures { SameFailures self.old self.new }
    {
        let faults = self.faults;
        self.puts = self.puts.saturating_add(1);
        let left = self.room - self.taken.len();
        let kept = self.failing.get(&self.puts).copied();
        let limit = (kept.unwrap_or(left as u64) as usize).min(left);
        let count = piece.len().min(limit);
        append(&mut self.taken, &piece[..count]);
        if kept.is_none() && piece.len() <= left {
            return Ok(());
        }
        self.faults = faults.saturating_add(1);
        Err(SinkFault::Failed)
    }
}

// Appends `part`, for which there is room.
fn append(taken: &mut Vec<u8>, part: &[u8])
    requires { vec_len taken.old + length part.now ≤ vec_capacity taken.old }
    ensures items { taken.new.items ≡ taken.old.items ++ part.now }
    ensures capacity { vec_capacity taken.old ≤ vec_capacity taken.new }
{
    match taken.extend_from_slice(part) {
        Ok(()) => {}
        Err(_) => unreachable!(),
    }
}
