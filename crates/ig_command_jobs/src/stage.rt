//! How far a parse is.
ghost use Rattle.std.specs.Prelude.{◌≡◌};
ghost use Rattle.ig_command_jobs.specs.Stages.{Follows, is_last};

use ig_engine::Progress;
use ig_item::RunFault;
use std::alloc::AllocError;

/// How far a parse is.
#[derive(Clone, Copy, PartialEq, Eq, Debug)]
pub(crate) enum Stage {
    /// Items are taken.
    Going,
    /// All reachable items were taken.
    Whole,
    /// More items are reachable than the budget allows.
    Over,
}

impl Stage {
    /// Whether the last event was taken. Takes no memory.
    pub(crate) fn is_last(self) -> bool
        ensures { result ≡ is_last self }
    {
        match self {
            Stage::Going => false,
            Stage::Whole => true,
            Stage::Over => true,
        }
    }
}

/// The stage behind a step of a run. Refused where the step was for want of memory.
pub(crate) fn stage_behind(stepped: Result<Progress, RunFault>) -> Result<Stage, AllocError>
    ensures { Follows stepped result }
{
    match stepped {
        Ok(Progress::More) => Ok(Stage::Going),
        Ok(Progress::Done) => Ok(Stage::Whole),
        Err(RunFault::Budget) => Ok(Stage::Over),
        Err(RunFault::Memory) => Err(AllocError),
    }
}
