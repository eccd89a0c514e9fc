//! Reading the text of a list of jobs.
ghost use Rattle.std.specs.Prelude.{◌≡◌, ◌≤◌, ◌<◌, ◌+◌, ◌++◌, ◌∷◌, [], option_map, vec_len};
ghost use Rattle.std.specs.Prelude.{IfOk, OnOk};
ghost use Rattle.ig_turns.specs.Lists.{is_end, job_at, job_of, most_jobs};
ghost use Rattle.ig_turns.specs.Reads.{Reads, stored_job};

use crate::job_line::{after, name_of, place_of};
use std::alloc::{AllocError, Global};

/// How many jobs a list may have.
const MOST_JOBS: usize = 64;

/// The names of the files of a job.
#[derive(Debug, Drop)]
pub struct Names {
    pub grammar: String,
    pub input: String,
}

/// Why bytes aren't read as a list.
#[derive(Debug, Clone, Copy, PartialEq, Eq, Drop)]
pub enum ListFault {
    /// There was no memory for the list.
    Memory,
    /// The line of that number, counted from 1, is the first wrong one.
    Wrong { line: u32 },
}

impl From<AllocError> for ListFault {
    ghost use Rattle.ig_turns.specs.declared.job_list.ListFault.TheVariants.{Memory};

    ghost from_gives = { λ _ fault. fault ≡ Memory };

    fn from(_error: AllocError) -> ListFault {
        ListFault::Memory
    }
}

/// The jobs of the list that the bytes are the text of.
///
/// Refused with
/// - `Wrong` exactly where they are no such text, with the number of the first wrong line;
/// - `Memory` for want of memory.
pub fn read_list(alloc: Global, bytes: &[u8]) -> Result<Vec<Names>, ListFault>
    ensures reads { Reads bytes.now result }
    ensures few { IfOk result (λ jobs. vec_len jobs ≤ most_jobs) }
{
    let mut jobs = Vec::new(alloc);
    let mut rest = bytes;
    while let Some(end) = place_of(rest, b'\n') {
        let Some(job) = read_line(alloc, &rest[..end], jobs.len())? else {
            return Err(wrong_after(jobs.len()));
        };
        add(&mut jobs, job)?;
        rest = after(rest, end);
    }
    if may_end(rest, jobs.len()) {
        return Ok(jobs);
    }
    Err(wrong_after(jobs.len()))
}

/// Whether this may follow the last of so many lines: nothing may, where there is a line.
fn may_end(rest: &[u8], lines: usize) -> bool
    requires { lines ≤ most_jobs }
    ensures { result ≡ is_end (lines + 1) rest.now }
{
    rest.is_empty() && lines > 0
}

/// Adds the job at the end.
fn add(jobs: &mut Vec<Names>, job: Names) -> Result<(), AllocError>
    ensures items { OnOk result (jobs.new.items ≡ jobs.old.items ++ job ∷ []) }
    ensures len { OnOk result (vec_len jobs.new ≡ vec_len jobs.old + 1) }
{
    jobs.push(job)?;
    Ok(())
}

/// The line after so many lines is wrong.
fn wrong_after(lines: usize) -> ListFault
    requires { lines ≤ most_jobs }
    ensures { result ≡ ListFault.Wrong (lines + 1) }
{
    ListFault::Wrong {
        line: lines as u32 + 1,
    }
}

/// The job of a line after so many lines; `None` exactly where the line is wrong.
fn read_line(alloc: Global, line: &[u8], before: usize) -> Result<Option<Names>, AllocError>
    requires { before ≤ most_jobs }
    ensures { IfOk result (λ job. option_map stored_job job ≡ job_at (before + 1) line.now) }
{
    if before == MOST_JOBS {
        return Ok(None);
    }
    read_names(alloc, line)
}

/// The job of a line; `None` exactly where it isn't two names with one space between them.
fn read_names(alloc: Global, line: &[u8]) -> Result<Option<Names>, AllocError>
    ensures { IfOk result (λ job. option_map stored_job job ≡ job_of line.now) }
{
    let Some(space) = place_of(line, b' ') else {
        return Ok(None);
    };
    let Some(grammar) = name_of(alloc, &line[..space])? else {
        return Ok(None);
    };
    let Some(input) = name_of(alloc, after(line, space))? else {
        return Ok(None);
    };
    Ok(Some(Names { grammar, input }))
}
