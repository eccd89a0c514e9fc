//! What came of a job.
ghost use Rattle.std.specs.Prelude.{◌≡◌, IfOk};
ghost use Rattle.ig_core.specs.Notation.{unchanged};
ghost use Rattle.ig_command_jobs.specs.Jobs.{print};
ghost use Rattle.ig_command_jobs.specs.Outcome.{Outcome};
ghost use Rattle.ig_command_jobs.specs.Texts.{ParsesText};
ghost use Rattle.ig_parse.specs.Parses.{IsOver};

use ig_command_endings::{Status, Stop, over_budget};
use ig_parse::Parser;
use ig_text::Text;
use std::alloc::{AllocError, Global};
use std::marker::Model;

/// What is parsed, and within which budget.
#[derive(Clone, Copy)]
pub(crate) struct Asked<'a> {
    pub(crate) parser: &'a Parser<'a>,
    pub(crate) input: &'a Text,
    pub(crate) budget: u32,
}

/// How a job ended: its status, the text for out and the line for notes.
#[derive(Clone, Copy)]
pub struct Ending<'e> {
    pub status: Status,
    pub out: &'e [u8],
    pub note: &'e [u8],
}

/// What came of a job. Contracts see what the job was for; [`Ended::ending`] says what came of it.
#[derive(Drop)]
pub struct Ended<'a> {
    /// Nothing where a file of the job was refused.
    asked: Option<Asked<'a>>,
    status: Status,
    out: Vec<u8>,
    note: Vec<u8>,
}

impl<'a> Model for Ended<'a> {
    ghost use Rattle.ig_command_jobs.specs.Question.{Question, Ends};

    ghost Value = { Question };

    ghost use Rattle.ig_command_jobs.specs.Coding.{question_code};

    ghost coded = { question_code };

    ghost use Rattle.ig_command_jobs.specs.Asked.{question_of};

    ghost view = { λ e. question_of e.asked e.status e.note.items };

    ghost invariant = { λ e. Ends (question_of e.asked e.status e.note.items)
        e.status e.out.items e.note.items };
}

impl<'a> Ended<'a> {
    ghost use Rattle.ig_command_jobs.specs.Asked.{parse_asked};
    ghost use Rattle.ig_command_jobs.specs.Question.{Ends, refused};

    /// How the job ended. Takes no memory.
    pub fn ending(&self) -> Ending<'_>
        ensures { Ends self.now result.status result.out.now result.note.now }
    {
        Ending {
            status: self.status,
            out: self.out.as_slice(),
            note: self.note.as_slice(),
        }
    }

    /// What came of a job of which a file was refused. Takes no memory.
    pub(crate) fn refused(alloc: Global, status: Status, note: Vec<u8>) -> Ended<'a>
        ensures { result ≡ refused status note.items }
    {
        Ended {
            asked: None,
            status,
            out: Vec::new(alloc),
            note,
        }
    }

    /// What came of a parse. Takes no memory.
    fn of(asked: Asked<'a>, status: Status, out: Vec<u8>, note: Vec<u8>) -> Ended<'a>
        requires { Outcome asked.parser.now.grammar asked.input.now asked.budget print
            status out.items note.items }
        ensures { result ≡ parse_asked asked.entry }
    {
        Ended {
            asked: Some(asked),
            status,
            out,
            note,
        }
    }

    /// What came of a parse, by its text, or by where it stopped. Refused where it stopped for want
    /// of memory.
    pub(crate) fn told(
        alloc: Global,
        asked: Asked<'a>,
        told: Result<Vec<u8>, Stop>,
    ) -> Result<Ended<'a>, AllocError>
        requires as_it_is { asked.parser.now ≡ unchanged asked.parser.now.grammar }
        requires told { ParsesText asked.parser.now asked.input.now asked.budget print told }
        ensures { IfOk result (λ ended. ended ≡ parse_asked asked.entry) }
    {
        match told {
            Ok(text) => {
                let note = Vec::new(alloc);
                let ended = Ended::of(asked, Status::Done, text, note);
                Ok(ended)
            }
            Err(Stop::Note(status, line)) => {
                let out = Vec::new(alloc);
                let ended = Ended::of(asked, status, out, line);
                Ok(ended)
            }
            Err(Stop::Memory) => Err(AllocError),
        }
    }

    /// What came of a parse for which more items are reachable than its budget allows. Refused only
    /// for want of memory.
    pub(crate) fn over(alloc: Global, asked: Asked<'a>) -> Result<Ended<'a>, AllocError>
        requires as_it_is { asked.parser.now ≡ unchanged asked.parser.now.grammar }
        requires over { IsOver asked.parser.now asked.input.now asked.budget }
        ensures { IfOk result (λ ended. ended ≡ parse_asked asked.entry) }
    {
        let stop = over_budget(alloc, asked.budget);
        Ended::told(alloc, asked, Err(stop))
    }
}
