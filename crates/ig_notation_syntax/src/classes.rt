//! Classes with ranges.

ghost use Rattle.std.specs.Prelude.{◌≡◌, [], ◌++◌, chars, is_some, IfOk, OnOk, false, option_map};
ghost use Rattle.std.specs.Prelude.{option_to_list, ◌&&◌, ◌==◌, not};
ghost use Rattle.ig_notation_syntax.specs.Scanner.{class_token, class_of, class_step, ranges_of};
ghost use Rattle.ig_notation_syntax.specs.Scanner.{dash};
ghost use Rattle.ig_notation_syntax.specs.Scanner.{character, between};
ghost use Rattle.ig_notation_syntax.specs.View.{class_within};
ghost use Rattle.ig_notation_syntax.specs.Steps.{Gives, place_of, step_of, IsNegation, AddsRanges};

use crate::characters;
use crate::letters::{self, Letter, Quoting};
use crate::step::Step;
use crate::token::Token;
use ig_text::Class;
use std::alloc::{AllocError, Global};

/// A place in a class.
#[derive(Clone, Copy)]
pub(crate) enum Place {
    /// Between two ranges.
    Between,
    /// Behind a character that may begin a range.
    BehindCharacter(char),
    /// Behind a character and its `-`.
    BehindDash(char),
}

/// Where the reading of a class stands behind a character, and the range that ends with it.
#[derive(Clone, Copy)]
pub(crate) struct ClassStep {
    is_escaped: bool,
    place: Place,
    range: Option<(char, char)>,
}

/// What a class is, of which `after` stands behind the `[`.
pub(crate) fn class<'a>(after: &'a str) -> Step<'a>
    ensures { Gives (class_token (chars after.now)) result }
{
    let Some((inside, rest)) = letters::cut(after, ']') else {
        return Step::Broken;
    };
    if is_class(inside) {
        Step::Takes(Token::Ranges(inside), rest)
    } else {
        Step::Broken
    }
}

/// Whether this is what stands between the brackets of a class.
fn is_class(inside: &str) -> bool
    ensures { result ≡ is_some (class_of (chars inside.now)) }
{
    let (_, ranges) = split_negation(inside);
    !ranges.is_empty() && are_ranges(ranges)
}

/// Whether the inside of a class begins with `^`, and what stands behind that.
fn split_negation(inside: &str) -> (bool, &str)
    ensures { IsNegation inside.now result.0 result.1.now }
{
    match characters::first(inside) {
        Some((c, after)) => {
            if c == '^' {
                (true, after)
            } else {
                (false, inside)
            }
        }
        None => (false, inside),
    }
}

/// Whether these are the characters of ranges.
fn are_ranges(inside: &str) -> bool
    ensures { result ≡ is_some (ranges_of false between (chars inside.now)) }
{
    let mut rest = inside;
    let mut is_escaped = false;
    let mut place = Place::Between;
    while let Some((c, after)) = characters::first(rest) {
        let Some(step) = class_step(is_escaped, place, c) else {
            return false;
        };
        is_escaped = step.is_escaped;
        place = step.place;
        rest = after;
    }
    last_range(is_escaped, place).is_some()
}

/// Where the reading stands behind one character more; `None` exactly where it can't stand there.
fn class_step(is_escaped: bool, place: Place, c: char) -> Option<ClassStep>
    ensures { option_map step_of result ≡ class_step is_escaped (place_of place) c }
{
    if is_dash(is_escaped, c) {
        return behind_dash(place);
    }
    match letters::read_letter(Quoting::OfClass, is_escaped, c)? {
        Letter::Backslash => Some(ClassStep {
            is_escaped: true,
            place,
            range: None,
        }),
        Letter::StandsFor(d) => behind_character(place, d),
    }
}

fn is_dash(is_escaped: bool, c: char) -> bool
    ensures { result ≡ (not is_escaped && (c == 45)) }
{
    !is_escaped && c == '-'
}

/// Where the reading stands behind a `-`; `None` exactly where no range may go on.
fn behind_dash(place: Place) -> Option<ClassStep>
    ensures { option_map step_of result ≡ dash (place_of place) }
{
    match place {
        Place::BehindCharacter(first) => Some(ClassStep {
            is_escaped: false,
            place: Place::BehindDash(first),
            range: None,
        }),
        Place::Between => None,
        Place::BehindDash(_) => None,
    }
}

/// Where the reading stands behind a character; `None` exactly where it ends a range that falls.
fn behind_character(place: Place, c: char) -> Option<ClassStep>
    ensures { option_map step_of result ≡ character (place_of place) c }
{
    let (place, range) = match place {
        Place::Between => (Place::BehindCharacter(c), None),
        Place::BehindCharacter(first) => (Place::BehindCharacter(c), Some((first, first))),
        Place::BehindDash(first) => {
            if first > c {
                return None;
            }
            (Place::Between, Some((first, c)))
        }
    };
    Some(ClassStep {
        is_escaped: false,
        place,
        range,
    })
}

/// The range that ends where the class does, where there is one; `None` exactly where the class
/// can't end here.
fn last_range(is_escaped: bool, place: Place) -> Option<Option<(char, char)>>
    ensures { option_map option_to_list result ≡ ranges_of is_escaped (place_of place) [] }
{
    if is_escaped {
        return None;
    }
    match place {
        Place::Between => Some(None),
        Place::BehindCharacter(first) => Some(Some((first, first))),
        Place::BehindDash(_) => None,
    }
}

/// The class for which the characters between two brackets stand; a class of no character where
/// they aren't the inside of a class.
pub fn class_of(alloc: Global, inside: &str) -> Result<Class, AllocError>
    ensures { IfOk result (λ c. c ≡ class_within (chars inside.now)) }
{
    let (negated, characters) = split_negation(inside);
    let mut ranges = Vec::new(alloc);
    let are_ranges = add_ranges(&mut ranges, characters)?;
    if are_ranges && !ranges.is_empty() {
        Class::ranges(alloc, negated, ranges.as_slice())
    } else {
        Class::ranges(alloc, false, &[])
    }
}

/// Adds the ranges for which the characters stand; whether they are the characters of ranges.
fn add_ranges(ranges: &mut Vec<(char, char)>, inside: &str) -> Result<bool, AllocError>
    ensures { IfOk result (AddsRanges (ranges_of false between (chars inside.now)) ranges.old.items
        ranges.new.items) }
{
    let mut rest = inside;
    let mut is_escaped = false;
    let mut place = Place::Between;
    while let Some((c, after)) = characters::first(rest) {
        let Some(step) = class_step(is_escaped, place, c) else {
            return Ok(false);
        };
        add_range(ranges, step.range)?;
        is_escaped = step.is_escaped;
        place = step.place;
        rest = after;
    }
    match last_range(is_escaped, place) {
        Some(range) => {
            add_range(ranges, range)?;
            Ok(true)
        }
        None => Ok(false),
    }
}

fn add_range(ranges: &mut Vec<(char, char)>, range: Option<(char, char)>) -> Result<(), AllocError>
    ensures { OnOk result (ranges.new.items ≡ ranges.old.items ++ option_to_list range) }
{
    if let Some(range) = range {
        ranges.push(range)?;
    }
    Ok(())
}
