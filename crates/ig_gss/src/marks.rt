//! What a node is marked with.

/// An item that waits for a node, by its number; whether its call has neither a label nor an
/// excluded pattern, and whether it is the first one of its alternative.
#[derive(Clone, Copy, PartialEq, Eq, Debug)]
pub struct Edge {
    pub item: u32,
    pub is_bare: bool,
    pub is_first: bool,
}

/// A position at which a node ended, and the number of the complete item that was taken first
/// there.
#[derive(Clone, Copy, PartialEq, Eq, Debug)]
pub struct Pop {
    pub end: u32,
    pub done: u32,
}
