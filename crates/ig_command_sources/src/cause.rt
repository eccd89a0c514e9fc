//! The texts of causes, and of texts with a number behind them.

ghost use Rattle.std.specs.Prelude.{◌≡◌, ◌++◌, OnOk};
ghost use Rattle.std.specs.Fmt.{decimal};
ghost use Rattle.ig_scope.specs.Causes.{condition_of};
ghost use Rattle.ig_command_sources.specs.Texts.{condition_text, place_text};

use ig_grammar::Place;
use ig_scope::{Many, ScopeCause};
use itoa::Buffer;
use std::alloc::AllocError;

/// Adds the texts of the cause and the place. Refuses only for want of memory.
pub fn push_cause(line: &mut Vec<u8>, cause: ScopeCause, place: Place) -> Result<(), AllocError>
    ensures { OnOk result (line.new.items
        ≡ line.old.items ++ (condition_text (condition_of cause) ++ place_text place)) }
{
    line.extend_from_slice(cause_text(cause).as_bytes())?;
    push_numbered(line, b" at declaration ", place.decl)?;
    push_numbered(line, b", alternative ", place.alt)?;
    push_numbered(line, b", symbol ", place.symbol)
}

/// Adds the text and the number. Refuses only for want of memory.
pub fn push_numbered(line: &mut Vec<u8>, text: &[u8], number: u32) -> Result<(), AllocError>
    ensures { OnOk result (line.new.items ≡ line.old.items ++ (text.now ++ decimal number)) }
{
    let mut digits = Buffer::new();
    line.extend_from_slice(text)?;
    line.extend_from_slice(digits.format(number).as_bytes())
}

/// The text of a cause.
fn cause_text(cause: ScopeCause) -> &'static str
    ensures { result.now ≡ condition_text (condition_of cause) }
{
    match cause {
        ScopeCause::DuplicateName => "duplicate name",
        ScopeCause::UnknownName => "unknown name",
        ScopeCause::WrongArity => "wrong arity",
        ScopeCause::UnknownVariable => "unknown variable",
        ScopeCause::DuplicateVariable => "duplicate variable",
        ScopeCause::KindMismatch => "kind mismatch",
        ScopeCause::NoStart => "no start",
        ScopeCause::StartHasParameters => "start has parameters",
        ScopeCause::LayoutNotPlain => "layout not plain",
        ScopeCause::AlignNotList => "align not list",
        ScopeCause::MarkInLexical => "mark in lexical",
        ScopeCause::SyntaxInLexical => "syntax in lexical",
        ScopeCause::TooMany { which } => many_text(which),
        ScopeCause::BadTabs => "bad tabs",
    }
}

/// The text of a limit of the notation.
fn many_text(which: Many) -> &'static str
    ensures { result.now ≡ condition_text (condition_of (ScopeCause.TooMany which)) }
{
    match which {
        Many::Nonterminals => "too many nonterminals",
        Many::Parameters => "too many parameters",
        Many::Variables => "too many variables",
    }
}
