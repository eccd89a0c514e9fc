//! What functions read off a text.
ghost use Rattle.std.specs.Prelude.{◌≡◌, Some, pos};
ghost use Rattle.ig_expr.specs.Reading as spec;
ghost use Rattle.ig_expr.specs.Operations.{whole};
ghost use Rattle.ig_expr.specs.Digits.{digit_of, appended};

use crate::operation::integer;
use crate::operator::Function;
use crate::value::Value;
use ig_text::{Span, Text, Word};

/// What the function gives at a value; `None` where it has no value there.
pub(crate) fn applied(function: Function, a: Value, text: &Text) -> Option<Value>
    ensures { result ≡ spec.applied text.now function a }
{
    match a {
        Value::Int(p) => read_integer(function, p, text),
        Value::Bool(_) => None,
        Value::Span(s) => read_span(function, s, text),
    }
}

/// Whether two spans have equal text.
pub(crate) fn same(a: Value, b: Value, text: &Text) -> Option<Value>
    ensures { result ≡ spec.same text.now a b }
{
    match (a, b) {
        (Value::Span(s), Value::Span(t)) => Some(Value::Bool(are_equal(s, t, text))),
        _ => None,
    }
}

/// Whether the text of a span is the word.
pub(crate) fn spells(a: Value, word: &Word, text: &Text) -> Option<Value>
    ensures { result ≡ spec.spells text.now word.now a }
{
    match a {
        Value::Span(s) => Some(Value::Bool(is_spelled(s, word, text))),
        _ => None,
    }
}

fn read_integer(function: Function, p: i64, text: &Text) -> Option<Value>
    ensures { result ≡ spec.read_integer text.now function p }
{
    match function {
        Function::Column => integer(text.column(p)),
        Function::Line => integer(line_from(p, text)),
        _ => None,
    }
}

fn read_span(function: Function, s: Span, text: &Text) -> Option<Value>
    ensures { result ≡ spec.read_span text.now function s }
{
    match function {
        Function::Begin => Some(Value::Int(i64::from(s.begin))),
        Function::End => Some(Value::Int(i64::from(s.end))),
        Function::Size => Some(Value::Int(i64::from(s.end) - i64::from(s.begin))),
        Function::Number => integer(number_of(s, text)),
        _ => None,
    }
}

/// The line of a position; `None` where it is negative or greater than the length.
fn line_from(p: i64, text: &Text) -> Option<i64>
    ensures { result ≡ spec.line_from text.now p }
{
    if 0 <= p && p <= i64::from(text.len()) {
        let line = text.line(p as u32)?;
        Some(i64::from(line))
    } else {
        None
    }
}

/// Whether both spans are in the text, and have equal characters.
fn are_equal(s: Span, t: Span, text: &Text) -> bool
    ensures { result ≡ spec.are_equal (spec.letters_of text.now s) (spec.letters_of text.now t) }
{
    text.same(s, t)
}

/// Whether the span is in the text, and has the characters of the word.
fn is_spelled(s: Span, word: &Word, text: &Text) -> bool
    ensures { result ≡ spec.are_equal (spec.letters_of text.now s) (Some word.now) }
{
    text.spells(s, word.as_str())
}

/// The number that the text of a span spells; `None` where the span isn't in the text, is empty,
/// has a character that isn't a digit, or spells a number past 64 bits.
fn number_of(s: Span, text: &Text) -> Option<i64>
    ensures { result ≡ spec.number_of (spec.letters_of text.now s) }
{
    if s.begin >= s.end || s.end > text.len() {
        return None;
    }
    let mut number = 0;
    for position in s.begin..s.end {
        number = appended(number, text.char_at(position)?)?;
    }
    signed(number)
}

/// The number, where it fits 64 bits with a sign.
fn signed(number: u64) -> Option<i64>
    ensures { result ≡ whole (pos number) }
{
    i64::try_from(number).ok()
}

/// The number with the digit behind its own; `None` where the letter is no digit, or the number
/// passes 64 bits.
fn appended(number: u64, letter: char) -> Option<u64>
    ensures { result ≡ appended number letter }
{
    let digit = digit_of(letter)?;
    number.checked_mul(10)?.checked_add(digit)
}

/// The value of an ASCII digit; `None` where the letter is none.
fn digit_of(letter: char) -> Option<u64>
    ensures { result ≡ digit_of letter }
{
    match letter {
        '0'..='9' => Some(letter as u64 - '0' as u64),
        _ => None,
    }
}
