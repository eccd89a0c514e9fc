//! Puts to a writer that is slow, full and then broken.
use super::*;
use std::io;
use std::test::Fail;

/// Takes one byte at a time into its room, then nothing, and then fails.
#[derive(Drop)]
struct SlowWriter {
    room: [u8; 4],
    taken: usize,
    writes: u8,
}

impl Write for SlowWriter {
    fn write(&mut self, buf: &[u8]) -> io::Result<usize> {
        self.writes = self.writes.saturating_add(1);
        if self.writes > 5 {
            return Err(io::Error::from(io::ErrorKind::Other));
        }
        match (self.room.get_mut(self.taken), buf.first()) {
            (Some(place), Some(byte)) => {
                *place = *byte;
                self.taken += 1;
                Ok(1)
            }
            _ => Ok(0),
        }
    }

    fn flush(&mut self) -> io::Result<()> {
        Ok(())
    }
}

#[test]
fn puts_to_a_slow_writer(rt: HostRuntime) -> Result<(), Fail> {
    let mut sink = StreamSink::new(SlowWriter {
        room: [0; 4],
        taken: 0,
        writes: 0,
    });
    let table: [(&[u8], Result<(), SinkFault>, usize, u64); 5] = [
        (b"abc", Ok(()), 3, 0),
        (b"", Ok(()), 3, 0),
        (b"de", Err(SinkFault::Failed), 4, 1),
        (b"f", Err(SinkFault::Failed), 4, 2),
        (b"", Ok(()), 4, 2),
    ];
    for (piece, answer, taken, faults) in table {
        assert_eq!(rt; sink.put(piece), answer);
        assert_eq!(rt; sink.stream.taken, taken);
        assert_eq!(rt; sink.faults, faults);
    }
    assert_eq!(rt; sink.stream.room, *b"abcd");
    Ok(())
}
