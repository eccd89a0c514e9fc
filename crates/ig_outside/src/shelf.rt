//! The trait of what named bytes are fetched from.
ghost use Rattle.std.specs.Prelude.{◌≡◌, ℕ, ◌≤◌, List, [], ◌∷◌, ◌++◌};
ghost use Rattle.ig_outside.specs.Counts.{last_count, risen};
ghost use Rattle.ig_outside.specs.States.{ShelfState};
ghost use Rattle.ig_outside.specs.Fetch.{AnswersFetch, CausesFetch};
ghost use Rattle.ig_outside.specs.declared.shelf.FetchFault.TheVariants.{Memory};

use std::alloc::{AllocError, Global};

/// Why a fetch gave no bytes.
#[derive(Debug, Clone, Copy, PartialEq, Eq, Drop)]
pub enum FetchFault {
    /// The shelf could not read. Its count of faults rose.
    Failed,
    /// There are more bytes than were asked for.
    Long,
    /// There was no memory for the bytes.
    Memory,
    /// The shelf holds nothing under the name.
    Missing,
}

impl From<AllocError> for FetchFault {
    ghost from_gives = { λ _ fault. fault ≡ Memory };

    fn from(_error: AllocError) -> FetchFault {
        FetchFault::Memory
    }
}

/// What named bytes are fetched from.
pub trait Shelf {
    /// What the shelf tells of each name, which is given by its bytes, how many faults and how many
    /// fetches there were, and what each fetch gave, in order. A count never falls, and stands
    /// still at its last value.
    ghost state: { Self → ShelfState };

    /// Fetches the bytes under `name`, of which there are to be at most `most`. A shelf that tells
    /// gives exactly what it holds; one that does not may give any bytes, but no more than `most`.
    ///
    /// Refused with
    /// - `Failed` only where the count of faults rose in this call, in place of any other answer;
    /// - `Long`, where the shelf tells, exactly where there are more than `most` bytes;
    /// - `Memory` for want of memory, at any call;
    /// - `Missing` exactly where the shelf tells that it holds nothing under the name.
    ///
    /// Every answer but `Failed` leaves the count of faults as it was. No answer changes what the
    /// shelf holds, and each call is counted and recorded with its answer.
    fn fetch(&mut self, alloc: Global, name: &str, most: u64) -> Result<Vec<u8>, FetchFault>
        ensures answer { AnswersFetch ((state self.old).holds name.now) most result }
        ensures cause { CausesFetch (state self.old).faults (state self.new).faults result }
        ensures before { (state self.old).faults ≤ last_count }
        ensures after { (state self.new).faults ≤ last_count }
        ensures counted { (state self.new).fetches ≡ risen (state self.old).fetches }
        ensures recorded { (state self.new).given ≡
            (state self.old).given ++ (name.now, (most, result)) ∷ [] }
        ensures same { (n : List ℕ) → (state self.new).holds n ≡ (state self.old).holds n };
}
