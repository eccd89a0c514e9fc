//! The characters of literals and classes, and their escapes.

ghost use Rattle.std.specs.Prelude.{◌≡◌, ◌&&◌, ◌==◌, not, false, chars, MatchOption, option_map};
ghost use Rattle.std.specs.Prelude.{None};
ghost use Rattle.ig_notation_syntax.specs.Spelling.{is_one_of, escape, class_signs};
ghost use Rattle.ig_notation_syntax.specs.Scanner.{body, letter};
ghost use Rattle.ig_notation_syntax.specs.Steps.{IsCut, special, letter_of};

use crate::characters;

/// In what a character stands.
#[derive(Clone, Copy)]
pub(crate) enum Quoting {
    OfLiteral,
    OfClass,
}

/// A character of a literal or a class: the first half of an escape, or one that stands for a
/// character.
#[derive(Clone, Copy)]
pub(crate) enum Letter {
    Backslash,
    StandsFor(char),
}

/// What stands before the first `stop` that isn't escaped, and what stands behind that; `None`
/// exactly where there is none.
pub(crate) fn cut(text: &str, stop: char) -> Option<(&str, &str)>
    ensures { MatchOption result (body stop false (chars text.now) ≡ None)
        (λ p. IsCut stop text.now p.0.now p.1.now) }
{
    let mut rest = text;
    let mut is_escaped = false;
    while let Some((c, after)) = characters::first(rest) {
        if closes(is_escaped, c, stop) {
            return Some((characters::front(text, rest), after));
        }
        is_escaped = opens_escape(is_escaped, c);
        rest = after;
    }
    None
}

fn closes(is_escaped: bool, c: char, stop: char) -> bool
    ensures { result ≡ (not is_escaped && (c == stop)) }
{
    !is_escaped && c == stop
}

fn opens_escape(is_escaped: bool, c: char) -> bool
    ensures { result ≡ (not is_escaped && (c == 92)) }
{
    !is_escaped && c == '\\'
}

/// What a character is, behind a backslash or not; `None` exactly where it can't stand there.
pub(crate) fn read_letter(quoting: Quoting, is_escaped: bool, c: char) -> Option<Letter>
    ensures { option_map letter_of result ≡ letter (special quoting) is_escaped c }
{
    if is_escaped {
        return Some(Letter::StandsFor(escape(quoting, c)?));
    }
    if c == '\\' {
        return Some(Letter::Backslash);
    }
    if c == '\n' || is_special(quoting, c) {
        return None;
    }
    Some(Letter::StandsFor(c))
}

/// The character for which another stands behind a backslash; `None` exactly where that is no
/// escape.
fn escape(quoting: Quoting, c: char) -> Option<char>
    ensures { result ≡ escape (special quoting) c }
{
    if is_special(quoting, c) {
        return Some(c);
    }
    match c {
        'n' => Some('\n'),
        'r' => Some('\r'),
        't' => Some('\t'),
        _ => None,
    }
}

fn is_special(quoting: Quoting, c: char) -> bool
    ensures { result ≡ is_one_of (special quoting) c }
{
    match quoting {
        Quoting::OfLiteral => c == '"' || c == '\\',
        Quoting::OfClass => is_special_in_class(c),
    }
}

fn is_special_in_class(c: char) -> bool
    ensures { result ≡ is_one_of class_signs c }
{
    match c {
        '[' => true,
        ']' => true,
        '^' => true,
        '-' => true,
        '\\' => true,
        _ => false,
    }
}
