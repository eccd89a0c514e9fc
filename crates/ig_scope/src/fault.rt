ghost use Rattle.std.specs.Prelude.{◌≡◌};
ghost use Rattle.ig_scope.specs.declared.fault.ScopeFault.TheVariants.{Memory};

use crate::cause::ScopeCause;
use ig_grammar::Place;
use std::alloc::{AllocError, AllocFailed};
use thiserror::Error;

/// Why a grammar wasn't checked, or isn't well scoped.
#[derive(Clone, Copy, PartialEq, Eq, Debug, Drop, Error)]
pub enum ScopeFault {
    /// A condition holds at a place, and none at an earlier one.
    #[error("{cause}")]
    Broken { cause: ScopeCause, place: Place },
    /// Memory was wanting.
    #[error("out of memory")]
    Memory,
}

impl From<AllocError> for ScopeFault {
    ghost from_gives = { λ _ fault. fault ≡ Memory };

    fn from(_error: AllocError) -> ScopeFault {
        ScopeFault::Memory
    }
}

impl<T: Drop> From<AllocFailed<T>> for ScopeFault {
    ghost from_gives = { λ _ fault. fault ≡ Memory };

    fn from(_failed: AllocFailed<T>) -> ScopeFault {
        ScopeFault::Memory
    }
}
