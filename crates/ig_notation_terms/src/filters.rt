//! Reading filters. Each function reads from the token of number `at`, and returns what it read
//! with the number of the first token behind it.

ghost use Rattle.std.specs.Prelude.{◌≡◌, ◌≤◌, [], ◌∷◌, List, length, None, IfOk, IfErr};
ghost use Rattle.std.specs.Prelude.{MatchOption};
ghost use Rattle.ig_text.specs.declared.class.Class.TheVariants as class;
ghost use Rattle.ig_notation_syntax.specs.View.{token_of};
ghost use Rattle.ig_notation_syntax.specs.Rules.{IsPattern, ReadsFilters};
ghost use Rattle.ig_grammar.specs.declared.filter.Filter.{Filter as SpecFilter};
ghost use Rattle.ig_notation_syntax.specs.Machine as want;
ghost use Rattle.ig_notation_syntax.specs.Machine.{after_pattern};
ghost use Rattle.ig_notation_syntax.specs.Reading.{Goes};
ghost use Rattle.ig_notation_terms.specs.Readers.{Stands, Misses, Finds, StopsAt, filter_token};
ghost use Rattle.ig_notation_terms.specs.Readers.{filter_of};

use crate::fault::{RuleFault, add};
use crate::tokens::Tokens;
use ig_grammar::{Filter, Filters};
use ig_notation_syntax::{Token, character_text, class_of, literal_text};
use ig_text::{Class, Pattern, Ranges, Word};
use std::alloc::{AllocError, Global};

/// The signs of filters.
#[derive(Clone, Copy)]
pub(crate) enum FilterSign {
    NotFollowed,
    NotPreceded,
    Not,
}

/// Reads filters, maybe none, and gives them with the number of the token behind.
/// Refused as unexpected only where the machine of the rules stops whatever is wanted behind them,
/// at the token where it stops; for want of memory at any.
pub fn read_filters(
    alloc: Global,
    tokens: &Tokens,
    at: usize,
) -> Result<(Filters, usize), RuleFault>
    requires { at ≤ length tokens.now }
    ensures ok { IfOk result (λ r. Goes (List SpecFilter) ReadsFilters (want.filters ∷ []) []
        tokens.now at r.1 r.0) }
    ensures err { IfErr result (StopsAt (want.filters ∷ []) tokens.now at) }
{
    let mut filters = Vec::new(alloc);
    let mut end = at;
    while let Some(sign) = filter_sign_at(tokens, end) {
        let pattern = read_pattern(alloc, tokens, end + 1)?;
        add(&mut filters, filter_of(sign, pattern))?;
        end += 2;
    }
    Ok((Filters::from_vec(filters), end))
}

/// The pattern of a filter that stands there, in front of the token of the next number.
fn read_pattern(alloc: Global, tokens: &Tokens, at: usize) -> Result<Pattern, RuleFault>
    ensures ok { IfOk result (λ p. Finds (λ t. IsPattern t p) tokens.now at) }
    ensures err { IfErr result (StopsAt (want.pattern ∷ []) tokens.now at) }
{
    match pattern_of(alloc, tokens.ahead(at)?)? {
        Some(pattern) => Ok(pattern),
        None => Err(RuleFault::Unexpected { token: at }),
    }
}

/// The pattern that a token is, a literal or a class; `None` exactly where it is neither.
pub fn pattern_of(alloc: Global, token: Token) -> Result<Option<Pattern>, AllocError>
    ensures { IfOk result (λ r. MatchOption r (after_pattern (token_of token.entry) ≡ None)
        (IsPattern (token_of token.entry))) }
{
    match token {
        Token::Literal(inside) => Ok(Some(Pattern::Literal(literal_text(alloc, inside)?))),
        Token::Exact(text) => Ok(Some(Pattern::Literal(Word::new(alloc, text)?))),
        Token::Character(c) => Ok(Some(Pattern::Literal(character_text(alloc, c)?))),
        Token::Made(negated, ranges) => Ok(Some(Pattern::OneOf(made(alloc, negated, ranges)?))),
        Token::Ranges(inside) => Ok(Some(Pattern::OneOf(class_of(alloc, inside)?))),
        Token::Any => Ok(Some(Pattern::OneOf(Class::Any))),
        Token::XidStart => Ok(Some(Pattern::OneOf(Class::XidStart))),
        Token::XidContinue => Ok(Some(Pattern::OneOf(Class::XidContinue))),
        _ => Ok(None),
    }
}

/// The class with these ranges.
fn made(alloc: Global, negated: bool, ranges: &[(char, char)]) -> Result<Class, AllocError>
    ensures { IfOk result (λ c. c ≡ class.Ranges negated ranges.now) }
{
    let ranges = Ranges::from_vec(alloc, Vec::from_slice(alloc, ranges)?)?;
    Ok(Class::Ranges { negated, ranges })
}

/// The sign of a filter that stands there; `None` exactly where none does.
fn filter_sign_at(tokens: &Tokens, at: usize) -> Option<FilterSign>
    ensures { MatchOption result (Misses want.filters tokens.now at) (λ s. Stands tokens.now at
        (filter_token s)) }
{
    match tokens.get(at)? {
        Token::NotFollowedBy => Some(FilterSign::NotFollowed),
        Token::NotPrecededBy => Some(FilterSign::NotPreceded),
        Token::Backslash => Some(FilterSign::Not),
        _ => None,
    }
}

fn filter_of(sign: FilterSign, pattern: Pattern) -> Filter
    ensures { result ≡ filter_of sign pattern }
{
    match sign {
        FilterSign::NotFollowed => Filter::NotFollowed(pattern),
        FilterSign::NotPreceded => Filter::NotPreceded(pattern),
        FilterSign::Not => Filter::Not(pattern),
    }
}
