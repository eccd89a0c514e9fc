use ig_text::Sequence;

/// A place in a grammar. Declarations are numbered from 1, so are the alternatives of a declaration
/// over all of its levels, and the symbols of an alternative in preorder. The start line is 0, 0,
/// 0; the head of a declaration has the alternative 0, an alternative as a whole the symbol 0.
#[derive(Clone, Copy, PartialEq, Eq, PartialOrd, Ord, Debug)]
pub struct Place {
    pub decl: u32,
    pub alt: u32,
    pub symbol: u32,
}

/// What a declaration stands for: the tags of its trees go by it.
#[derive(Clone, Copy, PartialEq, Eq, Debug)]
pub enum Shape {
    /// A declaration of the grammar as it was written.
    Rule,
    /// `X?`
    Opt,
    /// `X*`
    Star,
    /// `X+`
    Plus,
    /// `{X S}+`
    SepPlus,
    /// `{X S}*`
    SepStar,
    /// A group of alternatives.
    Group,
    /// The declaration whose trees are whole ones.
    Root,
}

/// A list of shapes.
pub type Shapes = Sequence<Shape>;
