//! The text of a batch.
ghost use Rattle.std.specs.Prelude.{◌≡◌, ◌<◌, ◌≤◌, ◌^◌, ◌++◌, IfOk, OnOk, length};
ghost use Rattle.std.specs.Fmt.{decimal};
ghost use Rattle.ig_tool.specs.Playing.{TellsEnds};
ghost use Rattle.ig_tool.specs.Text.{end_line, end_of, end_text};

use ig_command_endings::Status;
use ig_command_jobs::{Ended, Ending};
use itoa::Buffer;
use std::alloc::{AllocError, Global};

/// What out gets of jobs that ended, which count from 1. Refuses only for want of memory.
pub(crate) fn text_of(alloc: Global, answers: &[Ended<'_>]) -> Result<Vec<u8>, AllocError>
    requires { length answers.now < 2 ^ 32 }
    ensures { IfOk result (λ text. TellsEnds answers.now text.items) }
{
    let mut text = Vec::new(alloc);
    let mut before: u32 = 0;
    for answer in answers {
        before += 1;
        push_end(&mut text, before, answer.ending())?;
    }
    Ok(text)
}

/// Adds what out gets of the job of that number.
fn push_end(text: &mut Vec<u8>, number: u32, end: Ending<'_>) -> Result<(), AllocError>
    ensures { OnOk result (text.new.items ≡ text.old.items ++
        end_text number (end_of end.entry.status end.entry.out.now end.entry.note.now)) }
{
    push_line(text, number, end)?;
    text.extend_from_slice(end.out)?;
    text.extend_from_slice(end.note)
}

/// Adds the line before it.
fn push_line(text: &mut Vec<u8>, number: u32, end: Ending<'_>) -> Result<(), AllocError>
    ensures { OnOk result (text.new.items ≡ text.old.items ++
        end_line number (end_of end.entry.status end.entry.out.now end.entry.note.now)) }
{
    push_number(text, b"job ", number as usize)?;
    push_number(text, b" status ", end.status.number() as usize)?;
    push_number(text, b" out ", end.out.len())?;
    push_number(text, b" notes ", end.note.len())?;
    text.extend_from_slice(b"\n")
}

/// Adds a word and a number.
fn push_number(text: &mut Vec<u8>, word: &[u8], number: usize) -> Result<(), AllocError>
    ensures { OnOk result (text.new.items ≡ text.old.items ++ (word.now ++ decimal number)) }
{
    let mut digits = Buffer::new();
    text.extend_from_slice(word)?;
    text.extend_from_slice(digits.format(number).as_bytes())
}
