//! Why a command ends before it has a text for out.
ghost use Rattle.std.specs.Prelude.{IfOk};
ghost use Rattle.ig_command_endings.specs.Stops.{IsLine, IsStop};

use crate::status::Status;
use std::alloc::{AllocError, Global};

/// Why there is no text for out.
#[derive(Drop)]
pub enum Stop {
    /// Another status than `Done` is decided, with its line for notes.
    Note(Status, Vec<u8>),
    /// Memory ran out.
    Memory,
}

impl From<AllocError> for Stop {
    ghost use Rattle.std.specs.Prelude.{◌≡◌};
    ghost use Rattle.ig_command_endings.specs.declared.stop.Stop.TheVariants.{Memory};

    ghost from_gives = { λ _ stop. stop ≡ Memory };

    fn from(_error: AllocError) -> Stop {
        Stop::Memory
    }
}

/// The stop with that status, whose line is the two pieces and a line feed.
pub(crate) fn stop_with(alloc: Global, status: Status, front: &[u8], back: &[u8]) -> Stop
    ensures { IsStop status front.now back.now result }
{
    match line(alloc, front, back) {
        Ok(line) => Stop::Note(status, line),
        Err(error) => Stop::from(error),
    }
}

/// The two pieces and a line feed.
fn line(alloc: Global, front: &[u8], back: &[u8]) -> Result<Vec<u8>, AllocError>
    ensures { IfOk result (IsLine front.now back.now) }
{
    let mut line = Vec::from_slice(alloc, front)?;
    line.extend_from_slice(back)?;
    line.push(b'\n')?;
    Ok(line)
}
