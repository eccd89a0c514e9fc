use std::alloc::AllocError;

/// Why a run gives no items.
#[derive(Clone, Copy, PartialEq, Eq, Debug)]
pub enum RunFault {
    /// More items than the budget are reachable.
    Budget,
    /// Memory ran out.
    Memory,
}

impl From<AllocError> for RunFault {
    ghost use Rattle.std.specs.Prelude.{◌≡◌};
    ghost use Rattle.ig_item.specs.declared.run_fault.RunFault.TheVariants.{Memory};

    ghost from_gives = { λ _ fault. fault ≡ Memory };

    fn from(_error: AllocError) -> RunFault {
        RunFault::Memory
    }
}
