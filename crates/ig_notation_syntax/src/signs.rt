//! Signs.

ghost use Rattle.std.specs.Prelude.{◌≡◌, ◌∷◌, chars, option_map};
ghost use Rattle.ig_notation_syntax.specs.Scanner.{sign_token, token};
ghost use Rattle.ig_notation_syntax.specs.View.{token_of};
ghost use Rattle.ig_notation_syntax.specs.Steps.{Gives, single_sign, with_equals, exclamation};
ghost use Rattle.ig_notation_syntax.specs.Steps.{again};

use crate::characters;
use crate::step::Step;
use crate::token::Token;

/// What a sign is that begins with `c`, where `after` stands behind that.
#[tactic(auto, unfolding(crate::specs::Spelling::signs, crate::specs::Steps::single_signs))]
pub(crate) fn sign<'a>(c: char, after: &'a str) -> Step<'a>
    ensures { Gives (sign_token (c ∷ chars after.now)) result }
{
    if let Some(token) = single(c) {
        return Step::Takes(token, after);
    }
    match c {
        '=' => with_equals(Token::Equals, Token::EqualTo, after),
        '>' => with_equals(Token::Greater, Token::AtLeast, after),
        '<' => with_equals(Token::Less, Token::AtMost, after),
        '!' => exclamation(after),
        _ => Step::Broken,
    }
}

/// The sign that a character is with which no longer one begins; `None` exactly where it is none.
#[tactic(auto, unfolding(crate::specs::Steps::single_signs))]
fn single<'a>(c: char) -> Option<Token<'a>>
    ensures { option_map token_of result ≡ single_sign c }
{
    match c {
        ';' => Some(Token::Semicolon),
        '|' => Some(Token::Bar),
        ':' => Some(Token::Colon),
        ',' => Some(Token::Comma),
        '(' => Some(Token::Open),
        ')' => Some(Token::Close),
        '{' => Some(Token::OpenBrace),
        '}' => Some(Token::CloseBrace),
        '?' => Some(Token::Question),
        '*' => Some(Token::Star),
        '+' => Some(Token::Plus),
        '-' => Some(Token::Minus),
        '\\' => Some(Token::Backslash),
        _ => None,
    }
}

/// The sign `alone`, or `longer` where `=` stands directly behind it.
fn with_equals<'a>(alone: Token<'a>, longer: Token<'a>, after: &'a str) -> Step<'a>
    ensures { Gives (with_equals (token_of alone.entry) (token_of longer.entry) (chars after.now))
        result }
{
    match characters::first(after) {
        Some((c, rest)) => {
            if c == '=' {
                Step::Takes(longer, rest)
            } else {
                Step::Takes(alone, after)
            }
        }
        None => Step::Takes(alone, after),
    }
}

/// A sign that begins with `!`, where `after` stands behind that.
fn exclamation<'a>(after: &'a str) -> Step<'a>
    ensures { Gives (exclamation (chars after.now)) result }
{
    let Some((c, rest)) = characters::first(after) else {
        return Step::Broken;
    };
    match c {
        '=' => Step::Takes(Token::NotEqualTo, rest),
        '>' => again('>', Token::NotFollowedBy, rest),
        '<' => again('<', Token::NotPrecededBy, rest),
        _ => Step::Broken,
    }
}

/// The sign, where its last character stands first.
fn again<'a>(last: char, sign: Token<'a>, after: &'a str) -> Step<'a>
    ensures { Gives (again last (token_of sign.entry) (chars after.now)) result }
{
    match characters::first(after) {
        Some((c, rest)) => {
            if c == last {
                Step::Takes(sign, rest)
            } else {
                Step::Broken
            }
        }
        None => Step::Broken,
    }
}
