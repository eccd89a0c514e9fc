//! The tokens of the notation.

ghost use Rattle.std.specs.Prelude.{◌≡◌};

use std::alloc::AllocError;

/// A token of the notation. Its text is a slice of the source.
#[derive(Clone, Copy)]
pub enum Token<'a> {
    /// A name.
    Name(&'a str),
    /// A name with `(` directly behind it; the text is the name alone.
    Head(&'a str),
    /// A number, by its digits.
    Number(&'a str),
    /// A literal, by what stands between its quotes, with its escapes as written.
    Literal(&'a str),
    /// A class with ranges, by what stands between its brackets, as written, `^` included.
    Ranges(&'a str),
    /// `$any`
    Any,
    /// `$xid_start`
    XidStart,
    /// `$xid_continue`
    XidContinue,
    /// `;`
    Semicolon,
    /// `=`
    Equals,
    /// `|`
    Bar,
    /// `>`
    Greater,
    /// `:`
    Colon,
    /// `,`
    Comma,
    /// `(`
    Open,
    /// `)`
    Close,
    /// `{`
    OpenBrace,
    /// `}`
    CloseBrace,
    /// `?`
    Question,
    /// `*`
    Star,
    /// `+`
    Plus,
    /// `-`
    Minus,
    /// `\`
    Backslash,
    /// `!>>`
    NotFollowedBy,
    /// `!<<`
    NotPrecededBy,
    /// `==`
    EqualTo,
    /// `!=`
    NotEqualTo,
    /// `<`
    Less,
    /// `<=`
    AtMost,
    /// `>=`
    AtLeast,
    /// `start`
    Start,
    /// `syntax`
    Syntax,
    /// `lexical`
    Lexical,
    /// `layout`
    Layout,
    /// `left`
    Left,
    /// `right`
    Right,
    /// `nonassoc`
    Nonassoc,
    /// `offside`
    Offside,
    /// `ignore`
    Ignore,
    /// `align`
    Align,
    /// `when`
    When,
    /// `let`
    Let,
    /// `here`
    Here,
    /// `true`
    True,
    /// `false`
    False,
    /// `and`
    And,
    /// `or`
    Or,
    /// `not`
    Not,
    /// `div`
    Div,
    /// `mod`
    Mod,
    /// `int`
    Int,
    /// `bool`
    Bool,
    /// `span`
    Span,
    /// `tabs`
    Tabs,
    /// `return`
    Return,
    /// A literal, by the characters that it matches, without escapes.
    Exact(&'a str),
    /// A literal of one character.
    Character(char),
    /// A class, by its ranges in normal form.
    Made(bool, &'a [(char, char)]),
}

/// A token, and the byte of the source at which it begins, from 0.
#[derive(Clone, Copy)]
pub struct Placed<'a> {
    pub token: Token<'a>,
    pub at: u32,
}

/// Why a text has no tokens.
#[derive(Clone, Copy, PartialEq, Eq, Debug)]
pub enum TokenFault {
    /// At the byte `at`, behind the separators and tokens before it, neither begins.
    Broken { at: u32 },
    /// Memory ran out.
    Memory,
}

impl From<AllocError> for TokenFault {
    ghost use Rattle.ig_notation_syntax.specs.declared.token.TokenFault.TheVariants.{Memory};

    ghost from_gives = { λ _ fault. fault ≡ Memory };

    fn from(_error: AllocError) -> TokenFault {
        TokenFault::Memory
    }
}
