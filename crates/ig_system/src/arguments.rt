//! The words that the program is run with.
ghost use Rattle.std.specs.Prelude.{◌≡◌, drop, IfOk, IfErr};
ghost use Rattle.std.specs.Vec.Iter.{into_iter_items};
ghost use Rattle.std.specs.IoError.{error_kind};
ghost use Rattle.ig_system.specs.Ending.{unread_status};

use ig_command_endings::Status;
use std::alloc::{AllocError, Global};
use std::env::Args;
use std::io::{self, ErrorKind};

/// The words that the program is run with, without its own name, by what the system answered to the
/// question for them.
///
/// Refused with the status to end with: `NoMemory` for want of memory, here or in the system, and
/// `Usage` exactly where the system doesn't give the words for another reason, as where one isn't
/// UTF-8.
pub fn words(alloc: Global, found: io::Result<Args>) -> Result<Vec<String>, Status>
    ensures words { IfOk found (λ args. IfOk result (λ words.
        words.items ≡ drop 1 (into_iter_items args))) }
    ensures memory { IfOk found (λ args. IfErr result (λ s. s ≡ Status.NoMemory)) }
    ensures refused { IfErr found (λ error. result ≡ Err (unread_status (error_kind error))) }
{
    match found {
        Ok(args) => without_name(alloc, args).map_err(|_| Status::NoMemory),
        Err(error) => Err(status_of(&error)),
    }
}

/// All but the first of the arguments, which is the program's name.
fn without_name(alloc: Global, args: Args) -> Result<Vec<String>, AllocError>
    ensures { IfOk result (λ words. words.items ≡ drop 1 (into_iter_items args)) }
{
    args.skip(1).collect(alloc)
}

/// The status to end with where the arguments can't be had.
fn status_of(error: &io::Error) -> Status
    ensures { result ≡ unread_status (error_kind error.now) }
{
    match error.kind() {
        ErrorKind::OutOfMemory => Status::NoMemory,
        _ => Status::Usage,
    }
}
