use std::alloc::AllocError;

/// Why no forest was read.
#[derive(Clone, Copy, PartialEq, Eq, Debug)]
pub enum ForestFault {
    /// The bytes aren't the text of a draft forest of the core grammar.
    NotAForest,
    /// Memory ran out.
    Memory,
}

impl From<AllocError> for ForestFault {
    ghost use Rattle.std.specs.Prelude.{◌≡◌};
    ghost use Rattle.ig_forest_reader.specs.declared.fault.ForestFault.TheVariants.{Memory};

    ghost from_gives = { λ _ fault. fault ≡ Memory };

    fn from(_error: AllocError) -> ForestFault {
        ForestFault::Memory
    }
}
