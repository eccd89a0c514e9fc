//! Codes, strings and sets.

ghost use Rattle.std.specs.Prelude.{◌≡◌, ◌<◌, ◌^◌, ◌∷◌, ◌++◌, [], ℕ, suc};
ghost use Rattle.std.specs.Prelude.{OnOk, string_bytes, flat_map};
ghost use Rattle.ig_show.specs.Appending.{Appends};
ghost use Rattle.ig_text.specs.declared.class.Class.TheVariants as class;
ghost use Rattle.ig_w3c.specs.Text.{digit, digits_within, code_text, has_quote, between};
ghost use Rattle.ig_w3c.specs.Text.{quoted, is_printed, character_text, literal_text};
ghost use Rattle.ig_w3c.specs.Writing.{IsAlone};
ghost use Rattle.ig_w3c.specs.Text.{range_text, negation, set_text, filter_text};

use ig_grammar::Filter;
use ig_show::{push_character, push_text};
use ig_text::{Class, Pattern, Word};
use std::alloc::AllocError;

/// The hexadecimal digit of a number.
fn digit(number: u32) -> char
    requires { number < 16 }
    ensures { result ≡ digit number }
{
    if number < 10 {
        (48 + number as u8) as char
    } else {
        (55 + number as u8) as char
    }
}

/// Adds the hexadecimal digits of a number, without leading zeros.
fn push_digits(out: &mut String, number: u32) -> Result<(), AllocError>
    ensures { OnOk result ((most : ℕ) → number < 16 ^ suc most → Appends (string_bytes out.old)
        (string_bytes out.new) (digits_within (suc most) number)) }
{
    if number < 16 {
        return push_character(out, digit(number));
    }
    push_digits(out, number / 16)?;
    push_character(out, digit(number % 16))
}

/// Adds the code of a character.
fn push_code(out: &mut String, character: char) -> Result<(), AllocError>
    ensures { OnOk result (Appends (string_bytes out.old) (string_bytes out.new) (code_text
        character)) }
{
    push_text(out, "#x")?;
    push_digits(out, character as u32)
}

/// Whether a `"` is among the characters.
fn has_quote(characters: &[char]) -> bool
    ensures { result ≡ has_quote characters.now }
{
    characters.iter().any(|c| *c == '"')
}

/// Adds the word between two of a quote.
fn push_between(out: &mut String, quote: char, word: &Word) -> Result<(), AllocError>
    ensures { OnOk result (Appends (string_bytes out.old) (string_bytes out.new) (between quote
        word.now)) }
{
    push_character(out, quote)?;
    push_text(out, word.as_str())?;
    push_character(out, quote)
}

/// Adds a string: between two `"`, or between two `'` where the word has a `"`.
pub(crate) fn push_quoted(out: &mut String, word: &Word) -> Result<(), AllocError>
    ensures { OnOk result (Appends (string_bytes out.old) (string_bytes out.new)
        (quoted word.now)) }
{
    if has_quote(word.as_chars()) {
        push_between(out, '\'', word)
    } else {
        push_between(out, '"', word)
    }
}

/// Adds a literal: a string, or the code of a character alone that isn't from U+0021 to U+007E.
pub(crate) fn push_literal(out: &mut String, word: &Word) -> Result<(), AllocError>
    ensures { OnOk result (Appends (string_bytes out.old) (string_bytes out.new) (literal_text
        word.now)) }
{
    match alone(word.as_chars()) {
        Some(character) => push_alone(out, character, word),
        None => push_quoted(out, word),
    }
}

/// The character of a word that has no other; `None` exactly where it has another number of them.
fn alone(characters: &[char]) -> Option<char>
    ensures { IsAlone characters.now result }
{
    match characters {
        [character] => Some(*character),
        _ => None,
    }
}

/// Adds a literal of one character.
fn push_alone(out: &mut String, character: char, word: &Word) -> Result<(), AllocError>
    requires { word.now ≡ character ∷ [] }
    ensures { OnOk result (Appends (string_bytes out.old) (string_bytes out.new) (character_text
        character)) }
{
    if is_printed(character) {
        push_quoted(out, word)
    } else {
        push_code(out, character)
    }
}

/// Whether the character is from U+0021 to U+007E.
fn is_printed(character: char) -> bool
    ensures { result ≡ is_printed character }
{
    '!' <= character && character <= '~'
}

/// Adds a range of characters: the code of one, or those of both ends with `-` between them.
fn push_range(out: &mut String, first: char, last: char) -> Result<(), AllocError>
    ensures { OnOk result (Appends (string_bytes out.old) (string_bytes out.new) (range_text
        (first, last))) }
{
    if first == last {
        push_code(out, first)
    } else {
        push_ends(out, first, last)
    }
}

fn push_ends(out: &mut String, first: char, last: char) -> Result<(), AllocError>
    ensures { OnOk result (Appends (string_bytes out.old) (string_bytes out.new) (code_text first ++
        45 ∷ code_text last)) }
{
    push_code(out, first)?;
    push_text(out, "-")?;
    push_code(out, last)
}

/// Adds the ranges of a set.
fn push_ranges(out: &mut String, ranges: &[(char, char)]) -> Result<(), AllocError>
    ensures { OnOk result (Appends (string_bytes out.old) (string_bytes out.new) (flat_map
        range_text ranges.now)) }
{
    for (first, last) in ranges {
        push_range(out, *first, *last)?;
    }
    Ok(())
}

/// Adds `^` where a set is negated.
fn push_negation(out: &mut String, negated: bool) -> Result<(), AllocError>
    ensures { OnOk result (Appends (string_bytes out.old) (string_bytes out.new) (negation
        negated)) }
{
    if negated { push_text(out, "^") } else { Ok(()) }
}

/// Adds ranges between `[` and `]`, behind `^` where they are negated.
fn push_bracketed(
    out: &mut String,
    negated: bool,
    ranges: &[(char, char)],
) -> Result<(), AllocError>
    ensures { OnOk result (Appends (string_bytes out.old) (string_bytes out.new) (set_text
        (class.Ranges negated ranges.now))) }
{
    push_text(out, "[")?;
    push_negation(out, negated)?;
    push_ranges(out, ranges)?;
    push_text(out, "]")
}

/// Adds a set; nothing for a class that is none.
pub(crate) fn push_set(out: &mut String, class: &Class) -> Result<(), AllocError>
    ensures { OnOk result (Appends (string_bytes out.old) (string_bytes out.new) (set_text
        class.now)) }
{
    match class {
        Class::Ranges { negated, ranges } => push_bracketed(out, *negated, ranges.as_slice()),
        _ => Ok(()),
    }
}

/// Adds a string behind ` - ` for a filter that asks for another text; nothing for other filters.
fn push_filter(out: &mut String, filter: &Filter) -> Result<(), AllocError>
    ensures { OnOk result (Appends (string_bytes out.old) (string_bytes out.new) (filter_text
        filter.now)) }
{
    match filter {
        Filter::Not(Pattern::Literal(word)) => push_excluded(out, word),
        _ => Ok(()),
    }
}

fn push_excluded(out: &mut String, word: &Word) -> Result<(), AllocError>
    ensures { OnOk result (Appends (string_bytes out.old) (string_bytes out.new) (32 ∷ 45 ∷ 32 ∷
        quoted word.now)) }
{
    push_text(out, " - ")?;
    push_quoted(out, word)
}

/// Adds filters.
pub(crate) fn push_filters(out: &mut String, filters: &[Filter]) -> Result<(), AllocError>
    ensures { OnOk result (Appends (string_bytes out.old) (string_bytes out.new) (flat_map
        filter_text filters.now)) }
{
    for filter in filters {
        push_filter(out, filter)?;
    }
    Ok(())
}
