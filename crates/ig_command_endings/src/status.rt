//! How a command ends, as its status says.
ghost use Rattle.std.specs.Prelude.{◌≡◌};
ghost use Rattle.ig_command_endings.specs.Numbers.{number_of};

/// How a command ended.
#[derive(Clone, Copy, PartialEq, Eq, Debug)]
pub enum Status {
    /// The output was written.
    Done,
    /// No tree is permitted for the whole input.
    NoParse,
    /// The words are no command.
    Usage,
    /// The grammar isn't accepted.
    Grammar,
    /// The input isn't accepted.
    Input,
    /// More items are reachable than the budget allows.
    Budget,
    /// A file couldn't be read.
    ReadFault,
    /// Output or a note couldn't be written.
    WriteFault,
    /// Memory ran out.
    NoMemory,
    /// The cursor is that of no tree.
    BadCursor,
    /// A depth is wanted, since the forest is cyclic.
    DepthNeeded,
    /// The text isn't that of a list of jobs.
    BadList,
    /// The forest of a text breaks a rule.
    NotSound,
    /// The text isn't that of a forest.
    NotForest,
}

impl Status {
    /// The number of the status, with which the program ends. Takes no memory.
    pub fn number(&self) -> u8
        ensures { result ≡ number_of self.now }
    {
        match self {
            Status::Done => 0,
            Status::NoParse => 1,
            Status::Usage => 2,
            Status::Grammar => 3,
            Status::Input => 4,
            Status::Budget => 5,
            Status::ReadFault => 6,
            Status::WriteFault => 7,
            Status::NoMemory => 8,
            Status::BadCursor => 9,
            Status::DepthNeeded => 10,
            Status::BadList => 11,
            Status::NotSound => 12,
            Status::NotForest => 13,
        }
    }
}
