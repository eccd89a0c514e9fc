//! What stands first in a text.

ghost use Rattle.std.specs.Prelude.{◌≡◌, ◌∷◌, IfOk, MatchOption, chars};
ghost use Rattle.std.specs.Prelude.{true, false, option_map, ◌==◌};
ghost use Rattle.std.specs.Map.{lookup};
ghost use Rattle.ig_notation_syntax.specs.Spelling.{is_one_of};
ghost use Rattle.ig_w3c_syntax.specs.Spelling.{signs, quotes};
ghost use Rattle.ig_w3c_syntax.specs.View.{token_of};
ghost use Rattle.ig_w3c_syntax.specs.Steps.{Begins, Begun, BeginsWord, BeginsHash, Gives};

use crate::characters::{self, Run};
use crate::token::Token;
use crate::{separators, sets};
use ig_grammar::is_keyword;
use std::alloc::{AllocError, Global};

/// What stands first in a text that isn't empty: a separator or a token and then the rest, or
/// neither.
#[derive(Drop)]
pub(crate) enum Step<'a> {
    Separator(&'a str),
    Takes(Token<'a>, &'a str),
    Broken,
}

/// What stands first in a text that begins with `c`, where `after` stands behind that.
pub(crate) fn first_step<'a>(
    alloc: Global,
    text: &'a str,
    c: char,
    after: &'a str,
) -> Result<Step<'a>, AllocError>
    requires { Begins text.now c after.now }
    ensures { IfOk result (Gives (chars text.now)) }
{
    if let Some(rest) = separators::separator(text) {
        return Ok(Step::Separator(rest));
    }
    if is_bracket(c) {
        return set(alloc, text, after);
    }
    Ok(token(text, c, after))
}

/// What a text is that begins with `[`.
fn set<'a>(alloc: Global, text: &'a str, after: &'a str) -> Result<Step<'a>, AllocError>
    requires { Begun (chars text.now) 91 after.now }
    ensures { IfOk result (Gives (chars text.now)) }
{
    match sets::set(alloc, after)? {
        Some((class, rest)) => Ok(Step::Takes(Token::Set(class), rest)),
        None => Ok(Step::Broken),
    }
}

/// What a text is that begins with `c`, no `[`, and not with a separator.
fn token<'a>(text: &'a str, c: char, after: &'a str) -> Step<'a>
    requires begun { Begun (chars text.now) c after.now }
    requires no_set { (c == 91) ≡ false }
    ensures { Gives (chars text.now) result }
{
    if characters::starts(c) {
        return word(text);
    }
    if is_quote(c) {
        return string(c, text, after);
    }
    if is_hash(c) {
        return code(text);
    }
    match sign(c) {
        Some(sign) => Step::Takes(sign, after),
        None => Step::Broken,
    }
}

/// What a text is that begins with a word.
fn word<'a>(text: &'a str) -> Step<'a>
    requires { BeginsWord (chars text.now) }
    ensures { Gives (chars text.now) result }
{
    let (front, rest) = characters::split(text, Run::OfWord);
    if is_keyword(front) {
        return Step::Broken;
    }
    match separators::head_end(rest) {
        Some(behind) => Step::Takes(Token::Head(front), behind),
        None => Step::Takes(Token::Name(front), rest),
    }
}

/// What a text is that begins with a quote.
fn string<'a>(quote: char, text: &'a str, after: &'a str) -> Step<'a>
    requires text { Begun (chars text.now) quote after.now }
    requires quote { is_one_of quotes quote ≡ true }
    ensures { Gives (chars text.now) result }
{
    let (inside, rest) = characters::split(after, Run::Inside(quote));
    if characters::is_empty(inside) {
        return Step::Broken;
    }
    match characters::behind(rest, quote) {
        Some(behind) => Step::Takes(Token::Text(inside), behind),
        None => Step::Broken,
    }
}

/// What a text is that begins with `#`.
fn code<'a>(text: &'a str) -> Step<'a>
    requires { BeginsHash (chars text.now) }
    ensures { Gives (chars text.now) result }
{
    match sets::code(text) {
        Some((c, rest)) => Step::Takes(Token::Code(c), rest),
        None => Step::Broken,
    }
}

fn is_quote(c: char) -> bool
    ensures { result ≡ is_one_of quotes c }
{
    match c {
        '"' => true,
        '\'' => true,
        _ => false,
    }
}

/// The sign that a character is; `None` exactly where it is none.
fn sign<'a>(c: char) -> Option<Token<'a>>
    ensures { option_map token_of result ≡ lookup (λ d. d == c) signs }
{
    match c {
        '|' => Some(Token::Bar),
        '(' => Some(Token::Open),
        ')' => Some(Token::Close),
        '?' => Some(Token::Question),
        '*' => Some(Token::Star),
        '+' => Some(Token::Plus),
        '-' => Some(Token::Minus),
        _ => None,
    }
}

fn is_hash(c: char) -> bool
    ensures { result ≡ (c == 35) }
{
    c == '#'
}

fn is_bracket(c: char) -> bool
    ensures { result ≡ (c == 91) }
{
    c == '['
}
