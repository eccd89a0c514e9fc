//! Jobs that take turns, from what was loaded of them to the text of their ends.
ghost use Rattle.std.specs.Prelude.{◌≡◌, ◌<◌, ◌^◌, ◌++◌, ◌∷◌, [], All, IfOk, OnOk, map, length};
ghost use Rattle.std.specs.List.{AllZip};
ghost use Rattle.ig_grammar.specs.Checked.{CheckedGrammar};
ghost use Rattle.ig_core.specs.Lowered.{CoreOf};
ghost use Rattle.ig_command_jobs.specs.Question.{Question};
ghost use Rattle.ig_tool.specs.Loading.{IsKept, grammars_of};
ghost use Rattle.ig_tool.specs.Playing.{Asks, IsParsable, IsPlaced, PlaysOut, TellsEnds};

use crate::grammars::Kept;
use crate::loading::{Batch, Loaded};
use crate::text::text_of;
use ig_command::WorkList;
use ig_command_jobs::ParseJob;
use ig_grammar::Checked;
use ig_item::Core;
use ig_parse::Parser;
use ig_turns::{Job, Jobs, Turns, play_out};
use std::alloc::{AllocError, Global};

/// The text of the ends of all jobs, which take turns of so many events until all are finished.
/// Refuses only for want of memory.
pub(crate) fn play(
    alloc: Global,
    batch: Batch,
    budget: u32,
    order: WorkList,
    turn: u32,
) -> Result<Vec<u8>, AllocError>
    requires some { 0 < turn }
    requires few { length batch.jobs.items < 2 ^ 32 }
    requires kept { All IsKept batch.kept.items }
    requires placed { All (IsPlaced (grammars_of batch.kept.items)) batch.jobs.items }
    ensures { IfOk result (λ text.
        PlaysOut (grammars_of batch.kept.items) budget batch.jobs.items text.items) }
{
    let Batch { kept, jobs } = batch;
    let (grammars, cores) = parted(alloc, kept)?;
    let parsers = parsers_of(alloc, grammars.as_slice(), cores)?;
    let queued = jobs_of(alloc, jobs.as_slice(), parsers.as_slice(), budget, order)?;
    play_jobs(alloc, queued, jobs.len() as u32, turn)
}

/// The text of the ends of so many jobs.
fn play_jobs<'a>(
    alloc: Global,
    jobs: Jobs<ParseJob<'a>>,
    count: u32,
    turn: u32,
) -> Result<Vec<u8>, AllocError>
    requires some { 0 < turn }
    requires count { length jobs ≡ count }
    ensures { IfOk result (λ text.
        TellsEnds (map ⟦<ParseJob<'a> as Job>⟧.outcome jobs.entry) text.items) }
{
    let mut turns = Turns::new(jobs);
    play_out(alloc, &mut turns, count, turn)?;
    let answers = turns.finish(alloc)?;
    text_of(alloc, answers.as_slice())
}

/// The grammars and their core grammars, each in a list of its own.
fn parted(alloc: Global, kept: Vec<Kept>) -> Result<(Vec<Checked>, Vec<Core>), AllocError>
    ensures grammars { IfOk result (λ parts. parts.0.items ≡ grammars_of kept.items) }
    ensures cores { IfOk result (λ parts. parts.1.items ≡ map (λ k. k.core) kept.items) }
{
    let mut grammars = Vec::new(alloc);
    let mut cores = Vec::new(alloc);
    for Kept { grammar, core, .. } in kept {
        grammars.push(grammar)?;
        cores.push(core)?;
    }
    Ok((grammars, cores))
}

/// A parser of each grammar, with its core grammar.
fn parsers_of<'g>(
    alloc: Global,
    grammars: &'g [Checked],
    cores: Vec<Core>,
) -> Result<Vec<Parser<'g>>, AllocError>
    requires parsable { All IsParsable grammars.now }
    requires cores { cores.items ≡ map CoreOf grammars.now }
    ensures { IfOk result (λ parsers. parsers.items ≡ grammars.now) }
{
    let mut parsers = Vec::new(alloc);
    for (grammar, core) in grammars.iter().zip(cores) {
        parsers.push(Parser::with_core(grammar, core))?;
    }
    Ok(parsers)
}

/// The jobs before their first event.
fn jobs_of<'a>(
    alloc: Global,
    loaded: &'a [Loaded],
    parsers: &'a [Parser<'a>],
    budget: u32,
    order: WorkList,
) -> Result<Jobs<ParseJob<'a>>, AllocError>
    requires placed { All (IsPlaced parsers.now) loaded.now }
    requires parsable { All IsParsable parsers.now }
    ensures { IfOk result (λ jobs.
        AllZip (Asks parsers.now budget) loaded.now (map ⟦<ParseJob<'a> as Job>⟧.outcome jobs)) }
{
    let mut jobs = Jobs::new(alloc);
    for one in loaded {
        let job = job_of(alloc, one, parsers, budget, order)?;
        add(&mut jobs, job)?;
    }
    Ok(jobs)
}

/// The job before its first event; where a file of it was refused, it is finished.
fn job_of<'a>(
    alloc: Global,
    loaded: &'a Loaded,
    parsers: &'a [Parser<'a>],
    budget: u32,
    order: WorkList,
) -> Result<ParseJob<'a>, AllocError>
    requires placed { IsPlaced parsers.now loaded.now }
    requires parsable { All IsParsable parsers.now }
    ensures { IfOk result (λ job.
        Asks parsers.now budget loaded.now (⟦<ParseJob<'a> as Job>⟧.outcome job)) }
{
    match loaded {
        Loaded::Accepted(at, input) => ParseJob::of(alloc, &parsers[*at], input, budget, order),
        Loaded::Refused(status, line) => {
            let line = Vec::from_slice(alloc, line.as_slice())?;
            Ok(ParseJob::refused(alloc, *status, line))
        }
    }
}

/// Adds the job at the end.
fn add<'a>(jobs: &mut Jobs<ParseJob<'a>>, job: ParseJob<'a>) -> Result<(), AllocError>
    ensures { OnOk result (jobs.new ≡ jobs.old ++ job.entry ∷ []) }
{
    match jobs.push(job) {
        Ok(()) => Ok(()),
        Err(refused) => Err(refused.1),
    }
}
