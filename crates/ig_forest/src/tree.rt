//! Trees and cursors as lists.
use ig_text::{Sequence, Span, Tag};

/// A part of a tree: a leaf, which has no tag, or a node with the number of its children.
#[derive(Clone, Copy, PartialEq, Eq, Debug)]
pub struct Part {
    pub tag: Option<Tag>,
    pub span: Span,
    pub children: u32,
}

/// A tree: its parts in preorder.
pub type Tree = Sequence<Part>;

/// A cursor: the numbers of the choices that lead to a tree.
pub type Cursor = Sequence<u32>;
