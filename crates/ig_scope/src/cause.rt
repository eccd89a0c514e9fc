//! Why a grammar isn't well scoped.

use thiserror::Error;

/// A limit of the notation.
#[derive(Clone, Copy, PartialEq, Eq, Debug, Error)]
pub enum Many {
    /// 4,096 declarations.
    #[error("nonterminals")]
    Nonterminals,
    /// 16 parameters of a declaration.
    #[error("parameters")]
    Parameters,
    /// 32 parameters, labels and lets of an alternative.
    #[error("variables")]
    Variables,
}

/// Why a grammar isn't well scoped.
#[derive(Clone, Copy, PartialEq, Eq, Debug, Error)]
pub enum ScopeCause {
    /// An earlier declaration has this name.
    #[error("duplicate name")]
    DuplicateName,
    /// The start line or a call names no declaration.
    #[error("unknown name")]
    UnknownName,
    /// A call has another number of arguments than the declaration has parameters.
    #[error("wrong arity")]
    WrongArity,
    /// An expression names a variable that isn't visible there.
    #[error("unknown variable")]
    UnknownVariable,
    /// A parameter, label or let has a name that is visible there already.
    #[error("duplicate variable")]
    DuplicateVariable,
    /// An expression has no kind, a guard isn't of kind bool, or an argument hasn't its
    /// parameter's kind.
    #[error("kind mismatch")]
    KindMismatch,
    /// There is no start line.
    #[error("no start")]
    NoStart,
    /// The start symbol's declaration has parameters.
    #[error("start has parameters")]
    StartHasParameters,
    /// A layout declaration has parameters, more than one level or an associativity, or isn't the
    /// first one.
    #[error("layout not plain")]
    LayoutNotPlain,
    /// `align` stands before a symbol that, filters aside, is no star, plus or separated list.
    #[error("align not list")]
    AlignNotList,
    /// A mark in a lexical or layout declaration.
    #[error("mark in lexical")]
    MarkInLexical,
    /// A lexical or layout declaration calls a syntax nonterminal.
    #[error("syntax in lexical")]
    SyntaxInLexical,
    /// A limit is passed.
    #[error("too many {which}")]
    TooMany { which: Many },
    /// The grammar says a width of tabs that isn't from 1 to 16.
    #[error("bad tabs")]
    BadTabs,
}
