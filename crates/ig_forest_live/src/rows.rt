//! Items as rows of numbers.

/// An item as numbers: positions, dot, nonterminal and places from 0, the alternative from 1. Its
/// lists of values are places in an ordered table of lists, so the order of rows is that of the
/// items.
#[derive(Clone, Copy, PartialEq, Eq, PartialOrd, Ord)]
pub struct ItemRow {
    pub start: u32,
    pub position: u32,
    pub nonterminal: u32,
    pub values: u32,
    pub alternative: u32,
    pub dot: u32,
    pub env: u32,
}
