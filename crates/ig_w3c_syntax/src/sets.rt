//! Codes and sets.

ghost use Rattle.std.specs.Prelude.{◌≡◌, ◌<◌, [], ◌∷◌, ◌++◌, MatchOption, OnOk, IfOk, chars, None};
ghost use Rattle.std.specs.Prelude.{true, false, ◌≢◌, ◌≤◌, ◌+◌, ◌*◌};
ghost use Rattle.ig_notation_syntax.specs.Spelling.{begins, is_one_of};
ghost use Rattle.ig_w3c_syntax.specs.Spelling.{code, bare, element, joins, begins_code};
ghost use Rattle.ig_w3c_syntax.specs.Spelling.{hexadecimal};
ghost use Rattle.ig_w3c_syntax.specs.Spelling.{digit_value, is_hexadecimal};
ghost use Rattle.ig_w3c_syntax.specs.Steps.{IsCharacter, HasPart, NoPart, HasParts, NoParts};
ghost use Rattle.ig_w3c_syntax.specs.Steps.{HasDigits};
ghost use Rattle.ig_w3c_syntax.specs.Steps.{IsJoined, HasSet, NoSet, HasClass, NoClass};

use crate::characters::{self, Run};
use ig_text::Class;
use std::alloc::{AllocError, Global};

/// The character that the code at the front names, and what stands behind it; `None` exactly where
/// no code stands there.
pub(crate) fn code(text: &str) -> Option<(char, &str)>
    ensures { MatchOption result (code (chars text.now) ≡ None) (λ p. IsCharacter (code
        (chars text.now)) p.0 p.1.now) }
{
    let behind = digits(text)?;
    let (front, rest) = characters::split(behind, Run::OfHexadecimal);
    let number = hexadecimal(front)?;
    let c = char::from_u32(number)?;
    Some((c, rest))
}

/// The digits of the code at the front, with all behind them; `None` exactly where no `#x` with a
/// digit behind it stands there.
fn digits(text: &str) -> Option<&str>
    ensures { MatchOption result (begins_code (chars text.now) ≡ false) (λ r. HasDigits
        (chars text.now) r.now) }
{
    let hash = characters::behind(text, '#')?;
    let digits = characters::behind(hash, 'x')?;
    if begins_hexadecimal(digits) {
        Some(digits)
    } else {
        None
    }
}

/// Whether the text begins with a hexadecimal digit.
fn begins_hexadecimal(text: &str) -> bool
    ensures { result ≡ begins is_hexadecimal (chars text.now) }
{
    match characters::first(text) {
        Some((c, _)) => characters::is_hexadecimal(c),
        None => false,
    }
}

/// The number that the digits spell; `None` exactly where it is greater than that of any character.
fn hexadecimal(digits: &str) -> Option<u32>
    ensures { MatchOption result (1114111 < hexadecimal 0 (chars digits.now)) (λ n. n ≡ hexadecimal
        0 (chars digits.now)) }
{
    let mut number = 0;
    let mut rest = digits;
    while let Some((c, after)) = characters::first(rest) {
        number = with_digit(number, c)?;
        rest = after;
    }
    Some(number)
}

/// The number with a digit more at its end; `None` exactly where it is greater than that of any
/// character.
fn with_digit(number: u32, digit: char) -> Option<u32>
    ensures { MatchOption result (1114111 < 16 * number + digit_value digit) (λ n. (n ≡
        16 * number + digit_value digit) × (n ≤ 1114111)) }
{
    let next = number.checked_mul(16)?.checked_add(digit_value(digit))?;
    if next > 0x10_FFFF {
        return None;
    }
    Some(next)
}

/// The value of a hexadecimal digit.
fn digit_value(digit: char) -> u32
    ensures { result ≡ digit_value digit }
{
    let code = digit as u32;
    if '0' <= digit && digit <= '9' {
        code.saturating_sub(48)
    } else if digit <= 'F' {
        code.saturating_sub(55)
    } else {
        code.saturating_sub(87)
    }
}

/// The character at the front that stands for itself, and what stands behind it; `None` exactly
/// where none stands there.
fn bare(text: &str) -> Option<(char, &str)>
    ensures { MatchOption result (bare (chars text.now) ≡ None) (λ p. IsCharacter (bare
        (chars text.now)) p.0 p.1.now) }
{
    let (c, rest) = characters::first(text)?;
    if closes(c) { None } else { Some((c, rest)) }
}

/// Whether the character can't stand for itself in a set.
fn closes(c: char) -> bool
    ensures { result ≡ is_one_of (93 ∷ 10 ∷ []) c }
{
    match c {
        ']' => true,
        '\n' => true,
        _ => false,
    }
}

/// The element of a set at the front, and what stands behind it; `None` exactly where none stands
/// there.
fn element(text: &str) -> Option<(char, &str)>
    ensures { MatchOption result (element (chars text.now) ≡ None) (λ p. IsCharacter (element
        (chars text.now)) p.0 p.1.now) }
{
    match digits(text) {
        Some(_) => code(text),
        None => bare(text),
    }
}

/// What stands behind the `-` at the front that joins two elements; `None` exactly where none
/// stands there.
fn joined(text: &str) -> Option<&str>
    ensures { MatchOption result (joins (chars text.now) ≡ false) (λ r. IsJoined (chars text.now)
        r.now) }
{
    let rest = characters::behind(text, '-')?;
    match characters::behind(rest, ']') {
        Some(_) => None,
        None => Some(rest),
    }
}

/// The part of a set at the front, and what stands behind it; `None` exactly where none stands
/// there.
fn part(text: &str) -> Option<((char, char), &str)>
    ensures { MatchOption result (NoPart (chars text.now)) (λ p. HasPart (chars text.now) p.0
        p.1.now) }
{
    let (a, more) = element(text)?;
    let Some(behind) = joined(more) else {
        return Some(((a, a), more));
    };
    let (b, rest) = element(behind)?;
    if a <= b { Some(((a, b), rest)) } else { None }
}

/// The parts of a set at the front, and what stands after the `]` that follows them; `None`
/// exactly where no such parts stand there.
fn parts(alloc: Global, text: &str) -> Result<Option<(Vec<(char, char)>, &str)>, AllocError>
    ensures { IfOk result (λ r. MatchOption r (NoParts (chars text.now)) (λ p. HasParts
        (chars text.now) p.0.items p.1.now)) }
{
    let mut parts = Vec::new(alloc);
    let mut rest = text;
    while let Some((part, more)) = part(rest) {
        add(&mut parts, part)?;
        rest = more;
    }
    match characters::behind(rest, ']') {
        Some(behind) => Ok(Some((parts, behind))),
        None => Ok(None),
    }
}

/// Adds a part at the end.
fn add(parts: &mut Vec<(char, char)>, part: (char, char)) -> Result<(), AllocError>
    ensures ok { OnOk result (parts.new.items ≡ parts.old.items ++ part ∷ []) }
{
    parts.push(part)?;
    Ok(())
}

/// The set of which `text` stands behind the `[`, and what stands behind it; `None` exactly where
/// it is none.
pub(crate) fn set(alloc: Global, text: &str) -> Result<Option<(Class, &str)>, AllocError>
    ensures { IfOk result (λ r. MatchOption r (NoSet (chars text.now)) (λ p. HasSet (chars text.now)
        p.0 p.1.now)) }
{
    match characters::behind(text, '^') {
        Some(inside) => class(alloc, true, inside),
        None => class(alloc, false, text),
    }
}

/// The class of the parts that stand first, `]` and what stands behind that; `None` exactly where
/// no such parts stand there, or no part.
fn class(alloc: Global, negated: bool, inside: &str) -> Result<Option<(Class, &str)>, AllocError>
    ensures { IfOk result (λ r. MatchOption r (NoClass (chars inside.now)) (λ p. HasClass negated
        (chars inside.now) p.0 p.1.now)) }
{
    let Some((pairs, rest)) = parts(alloc, inside)? else {
        return Ok(None);
    };
    if has_none(pairs.as_slice()) {
        return Ok(None);
    }
    let class = Class::ranges(alloc, negated, pairs.as_slice())?;
    Ok(Some((class, rest)))
}

/// Whether there is no part.
fn has_none(parts: &[(char, char)]) -> bool
    ensures yes { result ≡ true → parts.now ≡ [] }
    ensures no { result ≡ false → parts.now ≢ [] }
{
    match parts {
        [] => true,
        [_, ..] => false,
    }
}
