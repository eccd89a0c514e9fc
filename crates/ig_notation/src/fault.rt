//! Why a text gave no grammar.

ghost use Rattle.std.specs.Prelude.{◌≡◌};

use ig_notation_syntax::TokenFault;
use std::alloc::AllocError;
use thiserror::Error;

/// What a grammar text may be too large in.
#[derive(Clone, Copy, PartialEq, Eq, Debug)]
pub enum Large {
    /// It has more than 262,144 bytes.
    Bytes,
    /// A number in it is greater than 9,223,372,036,854,775,807.
    Number,
    /// More than 64 brackets are open at one place.
    Nesting,
}

/// Why a text gave no grammar.
#[derive(Debug, Drop, Error)]
pub enum ReadFault {
    /// At that byte no token begins, or a token stands that no rule lets follow those before it.
    #[error("syntax at byte {at}")]
    Syntax { at: u32 },
    /// The text passes a limit.
    #[error("too large")]
    TooLarge { which: Large },
    /// Memory ran out.
    #[error("out of memory")]
    Memory,
}

impl From<TokenFault> for ReadFault {
    ghost use Rattle.ig_notation.specs.Outcome.{fault_of};

    ghost from_gives = { λ fault result. result ≡ fault_of fault };

    fn from(fault: TokenFault) -> ReadFault {
        match fault {
            TokenFault::Broken { at } => ReadFault::Syntax { at },
            TokenFault::Memory => ReadFault::Memory,
        }
    }
}

impl From<AllocError> for ReadFault {
    ghost use Rattle.ig_notation.specs.declared.fault.ReadFault.TheVariants.{Memory};

    ghost from_gives = { λ _ fault. fault ≡ Memory };

    fn from(_error: AllocError) -> ReadFault {
        ReadFault::Memory
    }
}
