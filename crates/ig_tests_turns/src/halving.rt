//! A job whose answer is told by a relation: contracts see an answer as the question that it
//! answers, and its reader says what stands in it.
ghost use Rattle.std.specs.Prelude.{◌≡◌, ◌≢◌, ◌↔◌, ◌+◌, ◌-◌, ◌≤◌, ◌<◌, true, IsTrue, IfOk, OnOk};
ghost use Rattle.std.specs.Prelude.{if◌then◌else◌};

use ig_turns::Job;
use std::alloc::{AllocError, Global};
use std::marker::Model;

/// Half of a number. Contracts see the number.
#[derive(Drop)]
pub struct Half {
    number: u32,
    half: u32,
}

impl Model for Half {
    ghost use Rattle.std.specs.Prelude.{ℕ};
    ghost use Rattle.ig_tests_turns.specs.Halves.{IsHalf};

    ghost Value = { ℕ };

    ghost view = { λ h. h.number };

    ghost invariant = { λ h. IsHalf h.number h.half };
}

impl Half {
    ghost use Rattle.ig_tests_turns.specs.Halves.{IsHalf};

    /// The half. Takes no memory.
    pub fn value(&self) -> u32
        ensures { IsHalf self.now result }
    {
        self.half
    }
}

/// Tries one half after another.
#[derive(Drop)]
pub struct Halving {
    number: u32,
    half: u32,
    found: bool,
    ghost low: { half + half ≤ number },
    ghost high: { found ≡ true → number < half + half + 2 },
}

impl Halving {
    /// The search for half of the number.
    pub fn new(number: u32) -> Halving
        ensures { (⟦<Halving as Job>⟧.outcome result) ≡ number }
    {
        Halving {
            number,
            half: 0,
            found: false,
        }
    }
}

impl Job for Halving {
    type Answer = Half;

    ghost outcome = { λ h. h.number };

    ghost taken = { λ h. h.half + (if h.found then 1 else 0) };

    ghost left = { λ h. if h.found then 0 else h.number - h.half + 1 };

    fn step(&mut self) -> Result<bool, AllocError> {
        if self.found {
            return Ok(true);
        }
        if self.number - self.half < self.half + 2 {
            self.found = true;
            return Ok(true);
        }
        self.half += 1;
        Ok(false)
    }

    fn is_finished(&self) -> bool {
        self.found
    }

    fn answer(self, _alloc: Global) -> Result<Half, AllocError> {
        Ok(Half {
            number: self.number,
            half: self.half,
        })
    }
}
