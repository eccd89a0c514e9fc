//! How the program ends.
ghost use Rattle.std.specs.Prelude.{◌≡◌};
ghost use Rattle.std.specs.Process.{exit_status};
ghost use Rattle.ig_command_endings.specs.Numbers.{number_of};

use ig_command_endings::Status;
use std::process::ExitCode;

/// The exit code with the number of the status.
pub fn exit_code(status: Status) -> ExitCode
    ensures { exit_status result ≡ number_of status }
{
    ExitCode::from(status.number())
}
