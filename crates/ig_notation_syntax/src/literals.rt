//! Literals.

ghost use Rattle.std.specs.Prelude.{◌≡◌, [], ◌∷◌, ◌++◌, IfOk, OnOk, chars, false, is_some};
ghost use Rattle.std.specs.Prelude.{option_map, string_bytes};
ghost use Rattle.ig_notation_syntax.specs.Scanner.{literal_token, literal_of, text_of};
ghost use Rattle.ig_notation_syntax.specs.View.{literal_text};
ghost use Rattle.ig_notation_syntax.specs.Steps.{Gives, is_backslash, stood_for};

use crate::characters;
use crate::letters::{self, Letter, Quoting};
use crate::step::Step;
use crate::token::Token;
use ig_text::Word;
use std::alloc::{AllocError, Global};

/// What a literal is, of which `after` stands behind the first quote.
pub(crate) fn literal<'a>(after: &'a str) -> Step<'a>
    ensures { Gives (literal_token (chars after.now)) result }
{
    let Some((inside, rest)) = letters::cut(after, '"') else {
        return Step::Broken;
    };
    if is_literal(inside) {
        Step::Takes(Token::Literal(inside), rest)
    } else {
        Step::Broken
    }
}

/// Whether this is what stands between the quotes of a literal.
fn is_literal(inside: &str) -> bool
    ensures { result ≡ is_some (literal_of (chars inside.now)) }
{
    let mut rest = inside;
    let mut is_escaped = false;
    while let Some((c, after)) = characters::first(rest) {
        is_escaped = match letters::read_letter(Quoting::OfLiteral, is_escaped, c) {
            Some(letter) => is_backslash(letter),
            None => return false,
        };
        rest = after;
    }
    let is_empty = inside.is_empty();
    !is_escaped && !is_empty
}

fn is_backslash(letter: Letter) -> bool
    ensures { result ≡ is_backslash letter }
{
    match letter {
        Letter::Backslash => true,
        Letter::StandsFor(_) => false,
    }
}

/// The characters for which those between the quotes of a literal stand; no character where they
/// aren't the inside of a literal.
pub fn literal_text(alloc: Global, inside: &str) -> Result<Word, AllocError>
    ensures { IfOk result (λ w. w ≡ literal_text (chars inside.now)) }
{
    match unescaped(alloc, inside)? {
        Some(text) => Word::new(alloc, text.as_str()),
        None => Word::new(alloc, ""),
    }
}

/// The text of one character.
pub fn character_text(alloc: Global, c: char) -> Result<Word, AllocError>
    ensures { IfOk result (λ w. w ≡ c ∷ []) }
{
    let mut text = String::new(alloc);
    text.push(c)?;
    Word::new(alloc, text.as_str())
}

/// The text for which the characters stand; `None` exactly where they stand for none.
fn unescaped(alloc: Global, inside: &str) -> Result<Option<String>, AllocError>
    ensures { IfOk result (λ r. option_map (λ s. chars (string_bytes s)) r ≡ text_of false
        (chars inside.now)) }
{
    let mut text = String::new(alloc);
    let mut rest = inside;
    let mut is_escaped = false;
    while let Some((c, after)) = characters::first(rest) {
        match letters::read_letter(Quoting::OfLiteral, is_escaped, c) {
            Some(letter) => is_escaped = add_letter(&mut text, letter)?,
            None => return Ok(None),
        }
        rest = after;
    }
    if is_escaped {
        return Ok(None);
    }
    Ok(Some(text))
}

/// Adds the character for which a letter stands, where it does; whether an escape begins.
fn add_letter(text: &mut String, letter: Letter) -> Result<bool, AllocError>
    ensures escapes { IfOk result (λ r. r ≡ is_backslash letter) }
    ensures added { OnOk result (chars (string_bytes text.new) ≡
        chars (string_bytes text.old) ++ stood_for letter) }
{
    match letter {
        Letter::Backslash => Ok(true),
        Letter::StandsFor(c) => {
            text.push(c)?;
            Ok(false)
        }
    }
}
