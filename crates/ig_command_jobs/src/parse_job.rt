//! Jobs of a batch.
ghost use Rattle.std.specs.Prelude.{◌≡◌, ◌≢◌, ◌↔◌, ◌+◌, ◌<◌, IsTrue, IfOk, OnOk};
ghost use Rattle.ig_core.specs.Notation.{unchanged};

use crate::ended::{Asked, Ended};
use crate::parse_run::Parsing;
use ig_command::WorkList;
use ig_command_endings::Status;
use ig_item::RunFault;
use ig_parse::Parser;
use ig_text::Text;
use ig_turns::Job;
use std::alloc::{AllocError, Global};

/// What is done for a job.
#[derive(Drop)]
pub(crate) enum Work<'a> {
    /// It ended before the first event.
    Ended(Ended<'a>),
    /// It parses.
    Parses(Parsing<'a>),
}

/// A job of a batch: a grammar parses an input within a budget, item by item.
#[derive(Drop)]
pub struct ParseJob<'a> {
    work: Work<'a>,
}

impl<'a> ParseJob<'a> {
    ghost use Rattle.ig_command_jobs.specs.Question.{refused, parses};

    /// A job of which a file was refused, with that status and that line. It is finished. Takes no
    /// memory.
    pub fn refused(alloc: Global, status: Status, note: Vec<u8>) -> ParseJob<'a>
        ensures question { ⟦<ParseJob<'a> as Job>⟧.outcome result ≡ refused status note.items }
        ensures finished { ⟦<ParseJob<'a> as Job>⟧.left result ≡ 0 }
    {
        ParseJob {
            work: Work::Ended(Ended::refused(alloc, status, note)),
        }
    }

    /// A job that parses the input with the parser's grammar, which no pass has changed, within the
    /// budget; the items are taken in that order, which changes nothing. Refused for want of memory
    /// alone.
    pub fn of(
        alloc: Global,
        parser: &'a Parser<'a>,
        input: &'a Text,
        budget: u32,
        order: WorkList,
    ) -> Result<ParseJob<'a>, AllocError>
        requires as_it_is { parser.now ≡ unchanged parser.now.grammar }
        ensures question { IfOk result (λ job. ⟦<ParseJob<'a> as Job>⟧.outcome job
            ≡ parses parser.now.grammar input.now budget) }
        ensures fresh { IfOk result (λ job. ⟦<ParseJob<'a> as Job>⟧.taken job ≡ 0) }
    {
        let asked = Asked {
            parser,
            input,
            budget,
        };
        match Parsing::start(alloc, asked, order) {
            Ok(parsing) => Ok(ParseJob {
                work: Work::Parses(parsing),
            }),
            Err(RunFault::Budget) => match Ended::over(alloc, asked) {
                Ok(ended) => Ok(ParseJob {
                    work: Work::Ended(ended),
                }),
                Err(error) => Err(error),
            },
            Err(RunFault::Memory) => Err(AllocError),
        }
    }
}

impl<'a> Job for ParseJob<'a> {
    ghost use Rattle.ig_command_jobs.specs.ParseJobs.{left_of, question_in, taken_by};

    type Answer = Ended<'a>;

    ghost outcome = { λ j. question_in j.work };

    ghost taken = { λ j. taken_by j.work };

    ghost left = { λ j. left_of j.work };

    fn step(&mut self) -> Result<bool, AllocError> {
        match &mut self.work {
            Work::Ended(_) => Ok(true),
            Work::Parses(parsing) => parsing.step(),
        }
    }

    fn is_finished(&self) -> bool {
        match &self.work {
            Work::Ended(_) => true,
            Work::Parses(parsing) => parsing.is_finished(),
        }
    }

    fn answer(self, alloc: Global) -> Result<Ended<'a>, AllocError> {
        match self.work {
            Work::Ended(ended) => Ok(ended),
            Work::Parses(parsing) => parsing.answer(alloc),
        }
    }
}
