//! Orders of a run.

/// In which order a run takes its items. What it finds is the same in each.
#[derive(Clone, Copy, PartialEq, Eq, Debug)]
pub enum Order {
    /// The oldest first.
    Fifo,
    /// The newest first.
    Lifo,
    /// The one at the lowest position first.
    Lowest,
    /// Position by position, without a work list.
    Plain,
}
