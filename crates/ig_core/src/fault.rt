use std::alloc::AllocError;
use thiserror::Error;

/// Why a grammar has no core grammar.
#[derive(Clone, Copy, PartialEq, Eq, Debug, Drop, Error)]
pub enum CoreFault {
    /// It would have more than `MOST_DOTS` dots.
    #[error("too many dots")]
    TooManyDots,
    /// Memory ran out.
    #[error("out of memory")]
    Memory,
}

impl From<AllocError> for CoreFault {
    ghost use Rattle.std.specs.Prelude.{◌≡◌};
    ghost use Rattle.ig_core.specs.declared.fault.CoreFault.TheVariants.{Memory};

    ghost from_gives = { λ _ fault. fault ≡ Memory };

    fn from(_error: AllocError) -> CoreFault {
        CoreFault::Memory
    }
}
