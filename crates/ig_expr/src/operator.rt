/// An operator that stands between two operands.
#[derive(Clone, Copy, PartialEq, Eq, Debug)]
pub enum Op {
    /// `+`
    Add,
    /// `-`
    Sub,
    /// `*`
    Mul,
    /// `div`, which truncates toward zero.
    Div,
    /// `mod`, the remainder of `div`.
    Mod,
    /// `<`
    Less,
    /// `<=`
    LessEqual,
    /// `>`
    Greater,
    /// `>=`
    GreaterEqual,
    /// `==`
    Equal,
    /// `!=`
    NotEqual,
    /// `and`
    And,
    /// `or`
    Or,
}

/// A function of one argument.
#[derive(Clone, Copy, PartialEq, Eq, Debug)]
pub enum Function {
    /// The position at which a span begins.
    Begin,
    /// The position at which a span ends.
    End,
    /// The end of a span minus its begin.
    Size,
    /// The column of a position, or of -1.
    Column,
    /// The line of a position.
    Line,
    /// The decimal number that a span spells.
    Number,
}
