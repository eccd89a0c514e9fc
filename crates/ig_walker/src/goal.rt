//! What a walk visits.
use ig_text::Span;

/// A part of the forest that is to be visited, with the depth that is left for its trees.
#[derive(Clone, Copy)]
pub enum Goal {
    Node { node: u32, depth: u32 },
    Item { item: u32, depth: u32 },
    Leaf(Span),
}

/// A visit of a goal, with the number of the option that it took.
#[derive(Clone, Copy)]
pub struct Visit {
    pub goal: Goal,
    pub choice: u32,
}

/// The goals behind an option, in the order of the walk.
#[derive(Clone, Copy)]
pub enum Behind {
    Nothing,
    One(Goal),
    Two(Goal, Goal),
}
