//! The signs behind options and lists, and what they make of symbols.

ghost use Rattle.std.specs.Prelude.{◌≡◌, IfOk, IfErr, MatchOption};
ghost use Rattle.ig_grammar.specs.View.{symbol_of};
ghost use Rattle.ig_notation_syntax.specs.Machine as want;
ghost use Rattle.ig_notation_terms.specs.Readers.{Stands, Misses, MissesAt};
ghost use Rattle.ig_notation_terms.specs.Repetitions.{repetition_token, repeated_of};
ghost use Rattle.ig_notation_terms.specs.Repetitions.{list_token, separated_of};

use crate::fault::RuleFault;
use crate::tokens::Tokens;
use ig_grammar::{Inner, Symbol};
use ig_notation_syntax::Token;

/// The signs that stand behind an option or a list.
#[derive(Clone, Copy)]
pub enum Repetition {
    /// `?`
    Opt,
    /// `*`
    Star,
    /// `+`
    Plus,
}

/// The signs that stand behind a separated list.
#[derive(Clone, Copy)]
pub enum ListSign {
    /// `*`
    Star,
    /// `+`
    Plus,
}

/// The sign of an option or a list that stands there; `None` exactly where none does.
pub fn repetition_at(tokens: &Tokens, at: usize) -> Option<Repetition>
    ensures { MatchOption result (Misses want.sign tokens.now at) (λ s. Stands tokens.now at
        (repetition_token s)) }
{
    match tokens.get(at)? {
        Token::Question => Some(Repetition::Opt),
        Token::Star => Some(Repetition::Star),
        Token::Plus => Some(Repetition::Plus),
        _ => None,
    }
}

/// The option or the list that the sign makes of an atom.
pub fn repeated(repetition: Repetition, atom: Inner) -> Symbol
    ensures { symbol_of result ≡ repeated_of repetition atom }
{
    match repetition {
        Repetition::Opt => Symbol::Opt(atom),
        Repetition::Star => Symbol::Star(atom),
        Repetition::Plus => Symbol::Plus(atom),
    }
}

/// The sign of a separated list that stands there, in front of the token of the next number.
/// Refused as unexpected exactly where none stands there. Takes no memory.
pub fn read_list_sign(tokens: &Tokens, at: usize) -> Result<ListSign, RuleFault>
    ensures ok { IfOk result (λ s. Stands tokens.now at (list_token s)) }
    ensures err { IfErr result (MissesAt want.list_sign tokens.now at) }
{
    match tokens.ahead(at)? {
        Token::Star => Ok(ListSign::Star),
        Token::Plus => Ok(ListSign::Plus),
        _ => Err(RuleFault::Unexpected { token: at }),
    }
}

/// The list that the sign makes of an item and a separator.
pub fn separated(sign: ListSign, item: Inner, separator: Inner) -> Symbol
    ensures { symbol_of result ≡ separated_of sign item separator }
{
    match sign {
        ListSign::Star => Symbol::SepStar(item, separator),
        ListSign::Plus => Symbol::SepPlus(item, separator),
    }
}
