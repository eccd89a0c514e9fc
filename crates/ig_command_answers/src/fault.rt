//! Why there is no listing.

use ig_show_trees::CursorFault;
use ig_walker::WalkFault;
use std::alloc::AllocError;
use thiserror::Error;

/// Why there is no text of a listing.
#[derive(Debug, Drop, Error)]
pub enum ListFault {
    /// No depth is given, and the forest has no highest tree.
    #[error("depth needed")]
    DepthNeeded,
    /// The word is the text of no cursor of a tree that may be listed.
    #[error("no such cursor")]
    NoCursor,
    /// Memory ran out.
    #[error("out of memory")]
    Memory,
}

impl From<CursorFault> for ListFault {
    ghost use Rattle.std.specs.Prelude.{◌≡◌};
    ghost use Rattle.ig_command_answers.specs.Faults.{fault_of_cursor};

    ghost from_gives = { λ error fault. fault ≡ fault_of_cursor error };

    fn from(error: CursorFault) -> ListFault {
        match error {
            CursorFault::NotACursor => ListFault::NoCursor,
            CursorFault::Memory => ListFault::Memory,
        }
    }
}

impl From<WalkFault> for ListFault {
    ghost use Rattle.std.specs.Prelude.{◌≡◌};
    ghost use Rattle.ig_command_answers.specs.Faults.{fault_of_walk};

    ghost from_gives = { λ error fault. fault ≡ fault_of_walk error };

    fn from(error: WalkFault) -> ListFault {
        match error {
            WalkFault::BadCursor => ListFault::NoCursor,
            WalkFault::Memory => ListFault::Memory,
        }
    }
}

impl From<AllocError> for ListFault {
    ghost use Rattle.std.specs.Prelude.{◌≡◌};
    ghost use Rattle.ig_command_answers.specs.declared.fault.ListFault.TheVariants.{Memory};

    ghost from_gives = { λ _ fault. fault ≡ Memory };

    fn from(_error: AllocError) -> ListFault {
        ListFault::Memory
    }
}
