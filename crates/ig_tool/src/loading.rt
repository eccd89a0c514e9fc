//! Fetching and reading the files of jobs.
ghost use Rattle.std.specs.Prelude.{◌≡◌, ◌++◌, ◌∷◌, [], All, OnOk, map};
ghost use Rattle.ig_text.specs.Input.{IsTabWidth};
ghost use Rattle.ig_turns.specs.Reads.{stored_job};
ghost use Rattle.ig_command_endings.specs.Change.{change, ByFetches, Fetched, OnlyFetches};
ghost use Rattle.ig_tool.specs.Loading.{FindsInput, Grows, IsKept, LoadsJob, LoadsJobs};
ghost use Rattle.ig_tool.specs.Loading.{refused_input};

use crate::grammars::{Found, Kept, find_grammar, width_at};
use ig_command_endings::{Status, Stop};
use ig_command_sources::load_input;
use ig_outside::Shelf;
use ig_text::Text;
use ig_turns::Names;
use std::alloc::{AllocError, Global};

/// What was loaded of a job.
#[derive(Drop)]
pub(crate) enum Loaded {
    /// The place of its grammar, and its input.
    Accepted(usize, Text),
    /// One of them is refused, with this status and this line for notes.
    Refused(Status, Vec<u8>),
}

/// What was loaded of all jobs.
#[derive(Drop)]
pub(crate) struct Batch {
    pub(crate) kept: Vec<Kept>,
    pub(crate) jobs: Vec<Loaded>,
}

/// Loads the files of the jobs, in order. A job of which one is refused has that for an answer; one
/// that isn't there or can't be read stops the command.
pub(crate) fn load_jobs<F: Shelf>(
    alloc: Global,
    shelf: &mut F,
    list: &[Names],
) -> Result<Batch, Stop>
    ensures answer { ByFetches (λ call. LoadsJobs call (map stored_job list.now) result)
        (change (F.state shelf.old) (F.state shelf.new)) }
    ensures fetches { OnlyFetches (change (F.state shelf.old) (F.state shelf.new)) }
{
    let mut kept = Vec::new(alloc);
    let mut jobs = Vec::new(alloc);
    for names in list {
        let job = load_job(alloc, shelf, &mut kept, names)?;
        add(&mut jobs, job)?;
    }
    Ok(Batch { kept, jobs })
}

/// Adds the job at the end.
fn add(jobs: &mut Vec<Loaded>, job: Loaded) -> Result<(), AllocError>
    ensures { OnOk result (jobs.new.items ≡ jobs.old.items ++ job ∷ []) }
{
    jobs.push(job)?;
    Ok(())
}

/// Loads the files of a job: its grammar and, where that is accepted, its input.
fn load_job<F: Shelf>(
    alloc: Global,
    shelf: &mut F,
    kept: &mut Vec<Kept>,
    names: &Names,
) -> Result<Loaded, Stop>
    requires { All IsKept kept.old.items }
    ensures answer { ByFetches (λ call.
        LoadsJob call kept.new.items (stored_job names.now) result)
        (change (F.state shelf.old) (F.state shelf.new)) }
    ensures grown { Grows kept.old.items kept.new.items }
    ensures kept { All IsKept kept.new.items }
    ensures fetches { OnlyFetches (change (F.state shelf.old) (F.state shelf.new)) }
{
    match find_grammar(alloc, shelf, kept, names.grammar.as_str())? {
        Found::At(at) => {
            let tabs = width_at(kept.as_slice(), at);
            find_input(alloc, shelf, at, tabs, names.input.as_str())
        }
        Found::Refused(status, line) => Ok(Loaded::Refused(status, line)),
    }
}

/// Loads the input in the file of that name, with tabs of this width, for the grammar of that
/// place.
fn find_input<F: Shelf>(
    alloc: Global,
    shelf: &mut F,
    at: usize,
    tabs: u32,
    name: &str,
) -> Result<Loaded, Stop>
    requires { IsTabWidth tabs }
    ensures answer { ByFetches (λ call. FindsInput tabs at (call.before.holds name.now) name.now
        call.before.faults call.after.faults result)
        (change (F.state shelf.old) (F.state shelf.new)) }
    ensures counted { Fetched (change (F.state shelf.old) (F.state shelf.new)) 1 }
    ensures fetches { OnlyFetches (change (F.state shelf.old) (F.state shelf.new)) }
{
    match load_input(alloc, shelf, name, tabs) {
        Ok(input) => Ok(Loaded::Accepted(at, input)),
        Err(stop) => refused(stop),
    }
}

/// An input that is refused is its job's own answer; one that can't be read isn't, nor is want of
/// memory.
fn refused(stop: Stop) -> Result<Loaded, Stop>
    ensures { result ≡ refused_input stop }
{
    match stop {
        Stop::Note(Status::ReadFault, line) => Err(Stop::Note(Status::ReadFault, line)),
        Stop::Note(status, line) => Ok(Loaded::Refused(status, line)),
        Stop::Memory => Err(Stop::Memory),
    }
}
