use ig_core::CoreFault;
use ig_item::RunFault;
use ig_show_trees::Report;
use std::alloc::AllocError;
use thiserror::Error;

/// Why there is no forest.
#[derive(Debug, Drop, Error)]
pub enum ParseFault {
    /// The core grammar has too many dots.
    #[error("too many dots")]
    TooManyDots,
    /// More items are reachable than the budget allows.
    #[error("more items than the budget")]
    Budget,
    /// No tree is permitted for the whole text. The report says how far the items came, and what
    /// they expected there.
    #[error("no parse")]
    NoParse(Report),
    /// Memory ran out.
    #[error("out of memory")]
    Memory,
}

impl From<RunFault> for ParseFault {
    ghost use Rattle.std.specs.Prelude.{◌≡◌};
    ghost use Rattle.ig_parse.specs.Faults.{fault_of};

    ghost from_gives = { λ error fault. fault ≡ fault_of error };

    fn from(error: RunFault) -> ParseFault {
        match error {
            RunFault::Budget => ParseFault::Budget,
            RunFault::Memory => ParseFault::Memory,
        }
    }
}

impl From<CoreFault> for ParseFault {
    ghost use Rattle.std.specs.Prelude.{◌≡◌};
    ghost use Rattle.ig_parse.specs.Faults.{fault_of_core};

    ghost from_gives = { λ error fault. fault ≡ fault_of_core error };

    fn from(error: CoreFault) -> ParseFault {
        match error {
            CoreFault::TooManyDots => ParseFault::TooManyDots,
            CoreFault::Memory => ParseFault::Memory,
        }
    }
}

impl From<AllocError> for ParseFault {
    ghost use Rattle.std.specs.Prelude.{◌≡◌};
    ghost use Rattle.ig_parse.specs.declared.fault.ParseFault.TheVariants.{Memory};

    ghost from_gives = { λ _ fault. fault ≡ Memory };

    fn from(_error: AllocError) -> ParseFault {
        ParseFault::Memory
    }
}
