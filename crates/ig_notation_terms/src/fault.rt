//! Why tokens gave no part of a grammar.

ghost use Rattle.std.specs.Prelude.{◌≡◌, [], ◌∷◌, ◌++◌, OnOk, OnErr};

use std::alloc::AllocError;

/// Why tokens gave no part of a grammar.
#[derive(Clone, Copy)]
pub enum RuleFault {
    /// The token of this number, counted from 0, can't stand here; or the tokens end, and theirs is
    /// the number.
    Unexpected { token: usize },
    /// Memory ran out.
    Memory,
}

impl From<AllocError> for RuleFault {
    ghost use Rattle.ig_notation_terms.specs.declared.fault.RuleFault.TheVariants.{Memory};

    ghost from_gives = { λ _ fault. fault ≡ Memory };

    fn from(_error: AllocError) -> RuleFault {
        RuleFault::Memory
    }
}

impl<T: Drop> From<(T, AllocError)> for RuleFault {
    ghost use Rattle.ig_notation_terms.specs.declared.fault.RuleFault.TheVariants.{Memory};

    ghost from_gives = { λ _ fault. fault ≡ Memory };

    fn from(_refused: (T, AllocError)) -> RuleFault {
        RuleFault::Memory
    }
}

/// Adds the value at the end of the list. Refused for want of memory alone; the list is then as
/// before.
pub fn add<T: Drop>(list: &mut Vec<T>, value: T) -> Result<(), AllocError>
    ensures ok { OnOk result (list.new.items ≡ list.old.items ++ value ∷ []) }
    ensures err { OnErr result (list.new.items ≡ list.old.items) }
{
    match list.push(value) {
        Ok(()) => Ok(()),
        Err(_refused) => Err(AllocError),
    }
}
