//! How tokens that hold something are spelled: numbers, literals and classes.

ghost use Rattle.std.specs.Prelude.{◌∷◌, ◌++◌, [], OnOk, chars, codes, string_bytes, flat_map};
ghost use Rattle.ig_notation_syntax.specs.Token.{Name, Head, Literal, OneOf};
ghost use Rattle.ig_show.specs.Pieces.{token};
ghost use Rattle.ig_show.specs.Spelling.{literal_character, class_character, range_spelling};
ghost use Rattle.ig_show.specs.Spelling.{negation, class_spelling};
ghost use Rattle.ig_show.specs.Signs.{integer_pieces, pattern_token};
ghost use Rattle.ig_show.specs.Appending.{Adds, Appends};

use ig_text::{Class, Pattern, Word};
use itoa::Buffer;
use std::alloc::AllocError;

/// Adds a text.
pub fn push_text(out: &mut String, text: &str) -> Result<(), AllocError>
    ensures { OnOk result (Appends (string_bytes out.old) (string_bytes out.new) (chars text.now)) }
{
    out.push_str(text)
}

/// Adds one character.
pub fn push_character(out: &mut String, character: char) -> Result<(), AllocError>
    ensures { OnOk result (Appends (string_bytes out.old) (string_bytes out.new) (character ∷ [])) }
{
    out.push(character)
}

/// Adds a name.
pub fn push_name(out: &mut String, name: &Word) -> Result<(), AllocError>
    ensures { OnOk result (Adds (string_bytes out.old) (string_bytes out.new)
        (λ ps. token (Name name.now) ∷ ps)) }
{
    push_text(out, name.as_str())
}

/// Adds a name with `(` directly behind it.
pub fn push_head(out: &mut String, name: &Word) -> Result<(), AllocError>
    ensures { OnOk result (Adds (string_bytes out.old) (string_bytes out.new)
        (λ ps. token (Head name.now) ∷ ps)) }
{
    push_text(out, name.as_str())?;
    push_text(out, "(")
}

/// Adds an integer in decimal, with `-` where it is negative.
pub fn push_integer(out: &mut String, number: i64) -> Result<(), AllocError>
    ensures { OnOk result (Adds (string_bytes out.old) (string_bytes out.new)
        (integer_pieces number)) }
{
    let mut buffer = Buffer::new();
    push_text(out, buffer.format(number))
}

/// Adds a character of a literal: `"`, `\`, a line feed, a carriage return and a tab as escapes.
fn push_literal_character(out: &mut String, character: char) -> Result<(), AllocError>
    ensures { OnOk result (Appends (string_bytes out.old) (string_bytes out.new)
        (literal_character character)) }
{
    match character {
        '"' => push_text(out, "\\\""),
        '\\' => push_text(out, "\\\\"),
        '\n' => push_text(out, "\\n"),
        '\r' => push_text(out, "\\r"),
        '\t' => push_text(out, "\\t"),
        _ => push_character(out, character),
    }
}

/// Adds the characters of a literal.
fn push_literal_characters(out: &mut String, characters: &[char]) -> Result<(), AllocError>
    ensures { OnOk result (Appends (string_bytes out.old) (string_bytes out.new)
        (flat_map literal_character characters.now)) }
{
    for character in characters {
        push_literal_character(out, *character)?;
    }
    Ok(())
}

/// Adds a literal, in quotes.
pub fn push_literal(out: &mut String, word: &Word) -> Result<(), AllocError>
    ensures { OnOk result (Adds (string_bytes out.old) (string_bytes out.new)
        (λ ps. token (Literal word.now) ∷ ps)) }
{
    push_text(out, "\"")?;
    push_literal_characters(out, word.as_chars())?;
    push_text(out, "\"")
}

/// Adds a character of a class: `[`, `]`, `^`, `-`, `\`, a line feed, a carriage return and a tab
/// as escapes.
fn push_class_character(out: &mut String, character: char) -> Result<(), AllocError>
    ensures { OnOk result (Appends (string_bytes out.old) (string_bytes out.new)
        (class_character character)) }
{
    match character {
        '[' => push_text(out, "\\["),
        ']' => push_text(out, "\\]"),
        '^' => push_text(out, "\\^"),
        '-' => push_text(out, "\\-"),
        '\\' => push_text(out, "\\\\"),
        '\n' => push_text(out, "\\n"),
        '\r' => push_text(out, "\\r"),
        '\t' => push_text(out, "\\t"),
        _ => push_character(out, character),
    }
}

/// Adds a range of characters: one character alone, else the first, `-` and the last.
fn push_range(out: &mut String, first: char, last: char) -> Result<(), AllocError>
    ensures { OnOk result (Appends (string_bytes out.old) (string_bytes out.new)
        (range_spelling (first, last))) }
{
    if first == last {
        push_class_character(out, first)
    } else {
        push_ends(out, first, last)
    }
}

/// Adds the first character of a range, `-` and the last.
fn push_ends(out: &mut String, first: char, last: char) -> Result<(), AllocError>
    ensures { OnOk result (Appends (string_bytes out.old) (string_bytes out.new)
        (class_character first ++ (codes "-" ++ class_character last))) }
{
    push_class_character(out, first)?;
    push_text(out, "-")?;
    push_class_character(out, last)
}

/// Adds the ranges of a class.
fn push_ranges(out: &mut String, ranges: &[(char, char)]) -> Result<(), AllocError>
    ensures { OnOk result (Appends (string_bytes out.old) (string_bytes out.new)
        (flat_map range_spelling ranges.now)) }
{
    for (first, last) in ranges {
        push_range(out, *first, *last)?;
    }
    Ok(())
}

/// Adds `^` where a class is negated.
fn push_negation(out: &mut String, negated: bool) -> Result<(), AllocError>
    ensures { OnOk result (Appends (string_bytes out.old) (string_bytes out.new)
        (negation negated)) }
{
    if negated { push_text(out, "^") } else { Ok(()) }
}

/// Adds ranges between `[` and `]`, behind `^` where they are negated.
fn push_bracketed(
    out: &mut String,
    negated: bool,
    ranges: &[(char, char)],
) -> Result<(), AllocError>
    ensures { OnOk result (Appends (string_bytes out.old) (string_bytes out.new)
        (class_spelling (Class.Ranges negated ranges.now))) }
{
    push_text(out, "[")?;
    push_negation(out, negated)?;
    push_ranges(out, ranges)?;
    push_text(out, "]")
}

/// Adds a class.
pub fn push_class(out: &mut String, class: &Class) -> Result<(), AllocError>
    ensures { OnOk result (Adds (string_bytes out.old) (string_bytes out.new)
        (λ ps. token (OneOf class.now) ∷ ps)) }
{
    match class {
        Class::Ranges { negated, ranges } => push_bracketed(out, *negated, ranges.as_slice()),
        Class::XidStart => push_text(out, "$xid_start"),
        Class::XidContinue => push_text(out, "$xid_continue"),
        Class::Any => push_text(out, "$any"),
    }
}

/// Adds a pattern.
pub fn push_pattern(out: &mut String, pattern: &Pattern) -> Result<(), AllocError>
    ensures { OnOk result (Adds (string_bytes out.old) (string_bytes out.new)
        (λ ps. token (pattern_token pattern.now) ∷ ps)) }
{
    match pattern {
        Pattern::Literal(word) => push_literal(out, word),
        Pattern::OneOf(class) => push_class(out, class),
    }
}
