//! What is put on out and notes at the end of a command.
ghost use Rattle.ig_command_endings.specs.Change.{change};
ghost use Rattle.ig_command_endings.specs.Stops.{Ends, GivesUp, WritesNote, WritesText};

use crate::status::Status;
use crate::stop::Stop;
use ig_outside::Sink;

/// Ends a command with what it has for out, or where it stopped.
///
/// A text is put on out, an empty one not at all; the answer is `Done`. The line of a stop is put
/// on notes; the answer is its status, or `NoMemory` with a line of its own where memory ran out.
/// Where out fails, or notes fail with a line, the answer is `WriteFault`. Takes no memory.
pub fn end<O: Sink, N: Sink>(decided: Result<Vec<u8>, Stop>, out: &mut O, notes: &mut N) -> Status
    ensures { Ends decided (change (O.state out.old) (O.state out.new))
        (change (N.state notes.old) (N.state notes.new)) result }
{
    match decided {
        Ok(text) => write_text(&text, out, notes),
        Err(Stop::Note(status, line)) => write_note(status, &line, notes),
        Err(Stop::Memory) => give_up(notes),
    }
}

/// Puts the text on out, an empty one not at all. Where out fails, notes get a line of their own.
fn write_text<O: Sink, N: Sink>(text: &[u8], out: &mut O, notes: &mut N) -> Status
    ensures { WritesText text.now (change (O.state out.old) (O.state out.new))
        (change (N.state notes.old) (N.state notes.new)) result }
{
    if text.is_empty() {
        return Status::Done;
    }
    match out.put(text) {
        Ok(()) => Status::Done,
        Err(_) => {
            let _ = notes.put(b"cannot write\n");
            Status::WriteFault
        }
    }
}

/// Puts the line on notes.
fn write_note<N: Sink>(status: Status, line: &[u8], notes: &mut N) -> Status
    ensures { WritesNote status line.now
        (change (N.state notes.old) (N.state notes.new)) result }
{
    match notes.put(line) {
        Ok(()) => status,
        Err(_) => Status::WriteFault,
    }
}

/// Notes that memory ran out.
fn give_up<N: Sink>(notes: &mut N) -> Status
    ensures { GivesUp (change (N.state notes.old) (N.state notes.new)) result }
{
    let _ = notes.put(b"out of memory\n");
    Status::NoMemory
}
