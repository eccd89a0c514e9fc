/// What a node of a tree stands for. Declarations and alternatives, those of a group too, are
/// numbered from 1.
#[derive(Clone, Copy, PartialEq, Eq, Debug)]
pub enum Tag {
    /// An alternative of a declaration.
    Rule { nonterminal: u32, alternative: u32 },
    /// The empty list of `X*`.
    Nil,
    /// A list and an item, of `X*`.
    Snoc,
    /// One item, of `X+` and of a separated list.
    One,
    /// A list and an item, of `X+` and of a separated list.
    More,
    /// Nothing, of `X?` and of a separated list that may be empty.
    Absent,
    /// Something, of `X?` and of a separated list that may be empty.
    Present,
    /// An alternative of a group.
    GroupAlt { number: u32 },
    /// The root of a whole tree.
    Root,
}
