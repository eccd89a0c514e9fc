//! A sink over a stream.
ghost use Rattle.std.specs.Prelude.{◌≡◌, ◌≤◌};
ghost use Rattle.ig_outside.specs.Counts.{last_count};
ghost use Rattle.ig_outside.specs.Put.{AnswersPut, CausesPut};
ghost use Rattle.ig_system.specs.Writing.{sink_state};

#[cfg(test)]
mod tests;

use ig_outside::{Sink, SinkFault};
use std::io::Write;

/// A sink that writes to a stream, and tells what is known of the bytes that the stream holds.
#[derive(Drop)]
pub struct StreamSink<W> {
    stream: W,
    faults: u64,
}

impl<W: Write> StreamSink<W> {
    /// A sink with the count 0. Takes no memory.
    pub fn new(stream: W) -> StreamSink<W>
        ensures { ⟦<StreamSink<W> as Sink>⟧.state result ≡ sink_state (W.contents stream) 0 }
    {
        StreamSink { stream, faults: 0 }
    }
}

impl<W: Write> Sink for StreamSink<W> {
    ghost state = { λ s. sink_state (W.contents s.stream) s.faults };

    /// Puts as every sink does. It fails where a write fails, or takes nothing of bytes that are
    /// left; the contract of writes doesn't say when that may be.
    fn put(&mut self, piece: &[u8]) -> Result<(), SinkFault>
        ensures answer { AnswersPut (W.contents self.old.stream) (W.contents self.new.stream)
            piece.now result }
        ensures cause { CausesPut self.old.faults self.new.faults result }
        ensures before { self.old.faults ≤ last_count }
        ensures after { self.new.faults ≤ last_count }
    {
        let faults = self.faults;
        match write_all(&mut self.stream, piece) {
            Ok(()) => Ok(()),
            Err(SinkFault::Failed) => {
                self.faults = faults.saturating_add(1);
                Err(SinkFault::Failed)
            }
        }
    }
}

/// Writes the whole piece.
///
/// Refused with `Failed` where a write fails, or takes nothing of bytes that are left; then a
/// prefix of the piece was written.
fn write_all<W: Write>(stream: &mut W, piece: &[u8]) -> Result<(), SinkFault>
    ensures { AnswersPut (W.contents stream.old) (W.contents stream.new) piece.now result }
{
    let mut at = 0;
    while at < piece.len() {
        match stream.write(&piece[at..]) {
            Ok(0) => return Err(SinkFault::Failed),
            Ok(count) => at += count,
            Err(_) => return Err(SinkFault::Failed),
        }
    }
    Ok(())
}
