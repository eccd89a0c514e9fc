//! The trait of what takes bytes.
ghost use Rattle.std.specs.Prelude.{◌≤◌};
ghost use Rattle.ig_outside.specs.Counts.{last_count};
ghost use Rattle.ig_outside.specs.States.{SinkState};
ghost use Rattle.ig_outside.specs.Put.{AnswersPut, CausesPut};

/// Why a sink did not take a whole piece.
#[derive(Debug, Clone, Copy, PartialEq, Eq, Drop)]
pub enum SinkFault {
    /// The sink could not write all of it. Its count of faults rose.
    Failed,
}

/// What takes bytes, piece by piece.
pub trait Sink {
    /// The bytes taken so far, where the sink tells them, and how many faults there were. The count
    /// never falls, and stands still at its last value.
    ghost state: { Self → SinkState };

    /// Appends `piece`, and leaves the count of faults as it was. Takes no memory from the caller.
    ///
    /// Refused with `Failed` only where the count of faults rose in this call; then a prefix of
    /// `piece` was appended.
    fn put(&mut self, piece: &[u8]) -> Result<(), SinkFault>
        ensures answer { AnswersPut (state self.old).got (state self.new).got piece.now result }
        ensures cause { CausesPut (state self.old).faults (state self.new).faults result }
        ensures before { (state self.old).faults ≤ last_count }
        ensures after { (state self.new).faults ≤ last_count };
}
