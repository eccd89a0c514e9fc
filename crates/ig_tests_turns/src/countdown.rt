//! A job for tests.
ghost use Rattle.std.specs.Prelude.{◌≡◌, ◌≢◌, ◌↔◌, ◌+◌, ◌-◌, ◌<◌, ◌≤◌, IsTrue, IfOk, OnOk};

use ig_turns::Job;
use std::alloc::{AllocError, Global};

/// Counts down to 0, and answers its name. It may be told to refuse one of its steps.
#[derive(Debug, Drop)]
pub struct Countdown {
    name: u32,
    from: u32,
    left: u32,
    /// How many more steps go well before one is refused.
    well: Option<u32>,
    ghost falls: { left ≤ from },
}

impl Countdown {
    /// A countdown from `left`, which answers `name`, and refuses no step.
    pub fn new(name: u32, left: u32) -> Countdown
        ensures name { (⟦<Countdown as Job>⟧.outcome result) ≡ name }
        ensures left { (⟦<Countdown as Job>⟧.left result) ≡ left }
        ensures taken { (⟦<Countdown as Job>⟧.taken result) ≡ 0 }
    {
        Countdown {
            name,
            from: left,
            left,
            well: None,
        }
    }

    /// The same, which refuses the step after the first `well`.
    pub fn refusing(name: u32, left: u32, well: u32) -> Countdown
        ensures name { (⟦<Countdown as Job>⟧.outcome result) ≡ name }
        ensures left { (⟦<Countdown as Job>⟧.left result) ≡ left }
        ensures taken { (⟦<Countdown as Job>⟧.taken result) ≡ 0 }
    {
        Countdown {
            name,
            from: left,
            left,
            well: Some(well),
        }
    }
}

impl Job for Countdown {
    type Answer = u32;

    ghost outcome = { λ c. c.name };

    ghost taken = { λ c. c.from - c.left };

    ghost left = { λ c. c.left };

    fn step(&mut self) -> Result<bool, AllocError> {
        if self.left == 0 {
            return Ok(true);
        }
        if self.well == Some(0) {
            self.well = None;
            return Err(AllocError);
        }
        self.well = self.well.map(|well| well.saturating_sub(1));
        self.left -= 1;
        Ok(self.left == 0)
    }

    fn is_finished(&self) -> bool {
        self.left == 0
    }

    fn answer(self, _alloc: Global) -> Result<u32, AllocError> {
        Ok(self.name)
    }
}
