//! Reading the parts of a text of a draft, each where it stands at the front of some bytes. A
//! reader says what it answers where such a part stands there, and that the bytes begin with the
//! text of what it gives.
ghost use Rattle.std.specs.Prelude.{◌≡◌, ◌∷◌, ℕ, List, [], ◌++◌, ◌<◌, ◌≤◌, ◌+◌, ◌*◌, ◌-◌};
ghost use Rattle.std.specs.Prelude.{nat_lt, IsTrue, ◌↔◌, Contains, ℤ, MatchBool, MatchOption};
ghost use Rattle.std.specs.Prelude.{codes, length};
ghost use Rattle.std.specs.Int.Signed.{mag};
ghost use Rattle.std.specs.Fmt.{decimal, signed_decimal};
ghost use Rattle.std.specs.List.{prefix_len};
ghost use Rattle.ig_text.specs.Limits.{numbers_end, integers_end};
ghost use Rattle.ig_text.specs.declared.text.Span.{Span as a_span};
ghost use Rattle.ig_expr.specs.declared.value.Value.{Value as value_type};
ghost use Rattle.ig_expr.specs.declared.value.Value.TheVariants as a_value;
ghost use Rattle.ig_show_texts.specs.ForestText.{child_text, entry_text};
ghost use Rattle.ig_forest_tables.specs.declared.entry.Child.{Child as a_child};
ghost use Rattle.ig_forest_tables.specs.declared.entry.Entry.{Entry as entry_type};
ghost use Rattle.ig_forest_tables.specs.declared.entry.Entry.TheVariants as an_entry;
ghost use Rattle.ig_show_texts.specs.ValueText.{span_text, value_text};
ghost use Rattle.ig_forest_reader.specs.Runs.{Each, Stops, IsDigit, IsPlain, IsInner, is_inner};
ghost use Rattle.ig_forest_reader.specs.Runs.{IsBefore, LeadsWell};
ghost use Rattle.ig_forest_reader.specs.Written.{IsSmallSpan, IsSmall, IsSmallChild, IsSmallEntry};

use ig_expr::Value;
use ig_forest_tables::{Child, Entry};
use ig_text::Span;
use itoa::Buffer;

/// Whether there are digits, and the first is no zero before others.
fn leads_well(digits: &[u8]) -> bool
    ensures { IsTrue result ↔ LeadsWell digits.now }
{
    match digits {
        [] => false,
        [_] => true,
        [first, ..] => *first != b'0',
    }
}

/// Whether the byte is a digit.
#[inline(always)]
fn is_digit(byte: u8) -> bool
    ensures { MatchBool result (IsDigit byte) (IsDigit byte → ⊥) }
{
    byte.is_ascii_digit()
}

/// The number with a digit more at its end, where it has 32 bits.
#[inline(always)]
fn with_digit(number: u32, digit: u8) -> Option<u32>
    ensures { MatchOption result (IsDigit digit → numbers_end ≤ number * 10 + (digit - 48))
        (λ n. IsDigit digit × (n ≡ number * 10 + (digit - 48)) × (n < numbers_end)) }
{
    if !digit.is_ascii_digit() {
        return None;
    }
    number.checked_mul(10)?.checked_add(u32::from(digit - b'0'))
}

/// The number itself, which is in the range of its type.
pub(crate) fn in_range(number: u32) -> u32
    ensures same { result ≡ number }
    ensures small { number < numbers_end }
{
    number
}

/// The number whose digits stand before that place, and what stands from there on; `None` exactly
/// where there are none, or a zero before others.
#[inline(always)]
fn number_before(bytes: &[u8], place: usize, number: u32) -> Option<(u32, &[u8])>
    requires { place ≤ length bytes.now }
    ensures { IsBefore bytes.now place number result }
{
    let (digits, rest) = bytes.split_at(place);
    if !leads_well(digits) {
        return None;
    }
    Some((number, rest))
}

/// A number.
#[inline(always)]
pub(crate) fn read_number(bytes: &[u8]) -> Option<(u32, &[u8])>
    ensures small { MatchOption result (Unit {0}) (λ r. r.0 < numbers_end) }
    ensures exact { MatchOption result (Unit {0}) (λ r. bytes.now ≡ decimal r.0 ++ r.1.now) }
    ensures told { (n : ℕ) (us : List ℕ) → n < numbers_end → Stops IsDigit us →
        bytes.now ≡ decimal n ++ us → MatchOption result ⊥ (λ r. (r.0 ≡ n) × (r.1.now ≡ us)) }
{
    let mut number = 0;
    for (place, byte) in bytes.iter().enumerate() {
        if !is_digit(*byte) {
            return number_before(bytes, place, number);
        }
        number = with_digit(number, *byte)?;
    }
    number_before(bytes, bytes.len(), number)
}

/// What stands after that text.
#[inline(always)]
pub(crate) fn read_behind<'a>(bytes: &'a [u8], text: &[u8]) -> Option<&'a [u8]>
    ensures told { (us : List ℕ) → bytes.now ≡ text.now ++ us →
        MatchOption result ⊥ (λ r. r.now ≡ us) }
    ensures exact { MatchOption result (Unit {0}) (λ r. bytes.now ≡ text.now ++ r.now) }
{
    let Some((front, rest)) = bytes.split_at_checked(text.len()) else {
        return None;
    };
    if is_text(front, text) {
        return Some(rest);
    }
    None
}

/// What stands after that number.
#[inline(always)]
pub(crate) fn read_behind_number(bytes: &[u8], number: u32) -> Option<&[u8]>
    ensures exact { MatchOption result (Unit {0}) (λ r. bytes.now ≡ decimal number ++ r.now) }
    ensures told { (us : List ℕ) → number < numbers_end → Stops IsDigit us →
        bytes.now ≡ decimal number ++ us → MatchOption result ⊥ (λ r. r.now ≡ us) }
{
    let Some((found, rest)) = read_number(bytes) else {
        return None;
    };
    if is_same(found, number) {
        return Some(rest);
    }
    None
}

/// Whether both numbers are one.
fn is_same(number: u32, other: u32) -> bool
    ensures { IsTrue result ↔ (number ≡ other) }
{
    number == other
}

/// A span.
#[inline(always)]
pub(crate) fn read_span(bytes: &[u8]) -> Option<(Span, &[u8])>
    ensures small { MatchOption result (Unit {0}) (λ r. IsSmallSpan r.0) }
    ensures exact { MatchOption result (Unit {0}) (λ r. bytes.now ≡ span_text r.0 ++ r.1.now) }
    ensures told { (s : a_span) (us : List ℕ) → IsSmallSpan s → Stops IsDigit us →
        bytes.now ≡ span_text s ++ us → MatchOption result ⊥ (λ r. (r.0 ≡ s) × (r.1.now ≡ us)) }
{
    let Some((begin, behind)) = read_number(bytes) else {
        return None;
    };
    let Some(second) = read_behind(behind, b"..") else {
        return None;
    };
    let Some((end, rest)) = read_number(second) else {
        return None;
    };
    Some((Span { begin, end }, rest))
}

/// The number of bytes at the front that are no blanks and no control characters.
fn word_end(bytes: &[u8]) -> usize
    ensures { result ≡ prefix_len (λ c. nat_lt 32 c) bytes.now }
{
    bytes.iter().take_while(|c| **c > 32).count()
}

/// The word at the front, and what stands after it.
pub(crate) fn split_word(bytes: &[u8]) -> (&[u8], &[u8])
    ensures whole { bytes.now ≡ result.0.now ++ result.1.now }
    ensures told { (ws us : List ℕ) → Each IsPlain ws → Stops IsPlain us →
        bytes.now ≡ ws ++ us → (result.0.now ≡ ws) × (result.1.now ≡ us) }
{
    let end = word_end(bytes);
    bytes.split_at(end)
}

/// Whether the bytes are that text. Texts are short, so they are compared byte by byte.
#[inline(always)]
pub(crate) fn is_text(bytes: &[u8], text: &[u8]) -> bool
    ensures { IsTrue result ↔ (bytes.now ≡ text.now) }
{
    if bytes.len() != text.len() {
        return false;
    }
    for (place, byte) in bytes.iter().enumerate() {
        if *byte != text[place] {
            return false;
        }
    }
    true
}

/// Whether a point is among the bytes.
fn has_point(bytes: &[u8]) -> bool
    ensures { IsTrue result ↔ Contains bytes.now 46 }
{
    bytes.contains(&46)
}

/// The integer with that text, which may have zeros before it or a sign that isn't printed.
fn integer_of(word: &[u8]) -> Option<i64>
    ensures { (z : ℤ) → mag z < integers_end → word.now ≡ signed_decimal z → result ≡ Some z }
{
    let Ok(text) = std::str::from_utf8(word) else {
        return None;
    };
    text.parse::<i64>().ok()
}

/// The integer as a value, where it prints as that word.
fn integer_value(word: &[u8], number: i64) -> Option<Value>
    ensures small { MatchOption result (Unit {0}) IsSmall }
    ensures exact { MatchOption result (Unit {0}) (λ v. word.now ≡ value_text v) }
    ensures told { word.now ≡ signed_decimal number → result ≡ Some (a_value.Int number) }
{
    let mut buffer = Buffer::new();
    if is_text(word, buffer.format(number).as_bytes()) {
        return Some(Value::Int(number));
    }
    None
}

/// Whether there are no bytes.
pub(crate) fn is_end(bytes: &[u8]) -> bool
    ensures { IsTrue result ↔ (bytes.now ≡ []) }
{
    bytes.is_empty()
}

/// The span with that text, as a value.
fn span_of(word: &[u8]) -> Option<Value>
    ensures small { MatchOption result (Unit {0}) IsSmall }
    ensures exact { MatchOption result (Unit {0}) (λ v. word.now ≡ value_text v) }
    ensures told { (s : a_span) → IsSmallSpan s → word.now ≡ span_text s →
        result ≡ Some (a_value.Span s) }
{
    let Some((span, rest)) = read_span(word) else {
        return None;
    };
    if !is_end(rest) {
        return None;
    }
    Some(Value::Span(span))
}

/// The value with that text.
fn value_of(word: &[u8]) -> Option<Value>
    ensures small { MatchOption result (Unit {0}) IsSmall }
    ensures exact { MatchOption result (Unit {0}) (λ v. word.now ≡ value_text v) }
    ensures told { (v : value_type) → IsSmall v → word.now ≡ value_text v → result ≡ Some v }
{
    if has_point(word) {
        return span_of(word);
    }
    if is_text(word, b"true") {
        return Some(Value::Bool(true));
    }
    if is_text(word, b"false") {
        return Some(Value::Bool(false));
    }
    let Some(number) = integer_of(word) else {
        return None;
    };
    integer_value(word, number)
}

/// The number of bytes at the front that the text of a value may have.
fn inner_end(bytes: &[u8]) -> usize
    ensures { result ≡ prefix_len is_inner bytes.now }
{
    bytes.iter().take_while(|c| is_inner(**c)).count()
}

/// Whether the text of a value may have the byte.
fn is_inner(c: u8) -> bool
    ensures { result ≡ is_inner c }
{
    44 < c && c != 93
}

/// What may be the text of a value, at the front, and what stands after it.
fn split_inner(bytes: &[u8]) -> (&[u8], &[u8])
    ensures whole { bytes.now ≡ result.0.now ++ result.1.now }
    ensures told { (ws us : List ℕ) → Each IsInner ws → Stops IsInner us →
        bytes.now ≡ ws ++ us → (result.0.now ≡ ws) × (result.1.now ≡ us) }
{
    let end = inner_end(bytes);
    bytes.split_at(end)
}

/// A value.
pub(crate) fn read_value(bytes: &[u8]) -> Option<(Value, &[u8])>
    ensures small { MatchOption result (Unit {0}) (λ r. IsSmall r.0) }
    ensures exact { MatchOption result (Unit {0}) (λ r. bytes.now ≡ value_text r.0 ++ r.1.now) }
    ensures told { (v : value_type) (us : List ℕ) → IsSmall v → Stops IsInner us →
        bytes.now ≡ value_text v ++ us → MatchOption result ⊥ (λ r. (r.0 ≡ v) × (r.1.now ≡ us)) }
{
    let (word, rest) = split_inner(bytes);
    let Some(value) = value_of(word) else {
        return None;
    };
    Some((value, rest))
}

/// A number and the end of its line.
pub(crate) fn read_last_number(bytes: &[u8]) -> Option<(u32, &[u8])>
    ensures small { MatchOption result (Unit {0}) (λ r. r.0 < numbers_end) }
    ensures exact { MatchOption result (Unit {0})
        (λ r. bytes.now ≡ decimal r.0 ++ (10 ∷ r.1.now)) }
    ensures told { (n : ℕ) (us : List ℕ) → n < numbers_end → bytes.now ≡ decimal n ++ (10 ∷ us) →
        MatchOption result ⊥ (λ r. (r.0 ≡ n) × (r.1.now ≡ us)) }
{
    let Some((number, behind)) = read_number(bytes) else {
        return None;
    };
    let Some(rest) = read_behind(behind, b"\n") else {
        return None;
    };
    Some((number, rest))
}

/// A span and the end of its line.
pub(crate) fn read_last_span(bytes: &[u8]) -> Option<(Span, &[u8])>
    ensures small { MatchOption result (Unit {0}) (λ r. IsSmallSpan r.0) }
    ensures exact { MatchOption result (Unit {0})
        (λ r. bytes.now ≡ span_text r.0 ++ (10 ∷ r.1.now)) }
    ensures told { (s : a_span) (us : List ℕ) → IsSmallSpan s →
        bytes.now ≡ span_text s ++ (10 ∷ us) →
        MatchOption result ⊥ (λ r. (r.0 ≡ s) × (r.1.now ≡ us)) }
{
    let Some((span, behind)) = read_span(bytes) else {
        return None;
    };
    let Some(rest) = read_behind(behind, b"\n") else {
        return None;
    };
    Some((span, rest))
}

/// What a step took, and the end of its line.
fn read_child(bytes: &[u8]) -> Option<(Child, &[u8])>
    ensures small { MatchOption result (Unit {0}) (λ r. IsSmallChild r.0) }
    ensures exact { MatchOption result (Unit {0})
        (λ r. bytes.now ≡ child_text r.0 ++ (10 ∷ r.1.now)) }
    ensures told { (x : a_child) (us : List ℕ) → IsSmallChild x →
        bytes.now ≡ child_text x ++ (10 ∷ us) →
        MatchOption result ⊥ (λ r. (r.0 ≡ x) × (r.1.now ≡ us)) }
{
    if let Some(behind) = read_behind(bytes, b"node ") {
        let Some((node, rest)) = read_last_number(behind) else {
            return None;
        };
        return Some((Child::Node(node), rest));
    }
    let Some(behind) = read_behind(bytes, b"leaf ") else {
        return None;
    };
    let Some((span, rest)) = read_last_span(behind) else {
        return None;
    };
    Some((Child::Leaf(span), rest))
}

/// The number of the previous item, and the end of the line.
fn read_pass(bytes: &[u8]) -> Option<(Entry, &[u8])>
    ensures small { MatchOption result (Unit {0}) (λ r. IsSmallEntry r.0) }
    ensures exact { MatchOption result (Unit {0})
        (λ r. codes "pass " ++ bytes.now ≡ entry_text r.0 ++ r.1.now) }
    ensures told { (i : ℕ) (us : List ℕ) → i < numbers_end → bytes.now ≡ decimal i ++ (10 ∷ us) →
        MatchOption result ⊥ (λ r. (r.0 ≡ an_entry.Pass i) × (r.1.now ≡ us)) }
{
    let Some((prev, rest)) = read_last_number(bytes) else {
        return None;
    };
    Some((Entry::Pass { prev }, rest))
}

/// The number of the previous item, what the step took, and the end of the line.
fn read_take(bytes: &[u8]) -> Option<(Entry, &[u8])>
    ensures small { MatchOption result (Unit {0}) (λ r. IsSmallEntry r.0) }
    ensures exact { MatchOption result (Unit {0})
        (λ r. codes "take " ++ bytes.now ≡ entry_text r.0 ++ r.1.now) }
    ensures told { (i : ℕ) (x : a_child) (us : List ℕ) → i < numbers_end → IsSmallChild x →
        bytes.now ≡ decimal i ++ (32 ∷ (child_text x ++ (10 ∷ us))) →
        MatchOption result ⊥ (λ r. (r.0 ≡ an_entry.Take i x) × (r.1.now ≡ us)) }
{
    let Some((prev, behind)) = read_number(bytes) else {
        return None;
    };
    let Some(second) = read_behind(behind, b" ") else {
        return None;
    };
    let Some((child, rest)) = read_child(second) else {
        return None;
    };
    Some((Entry::Take { prev, child }, rest))
}

/// The line of an entry.
pub(crate) fn read_entry(bytes: &[u8]) -> Option<(Entry, &[u8])>
    ensures small { MatchOption result (Unit {0}) (λ r. IsSmallEntry r.0) }
    ensures exact { MatchOption result (Unit {0}) (λ r. bytes.now ≡ entry_text r.0 ++ r.1.now) }
    ensures told { (x : entry_type) (us : List ℕ) → IsSmallEntry x →
        bytes.now ≡ entry_text x ++ us → MatchOption result ⊥ (λ r. (r.0 ≡ x) × (r.1.now ≡ us)) }
{
    if let Some(rest) = read_behind(bytes, b"begin\n") {
        return Some((Entry::Begin, rest));
    }
    if let Some(behind) = read_behind(bytes, b"pass ") {
        return read_pass(behind);
    }
    let Some(behind) = read_behind(bytes, b"take ") else {
        return None;
    };
    read_take(behind)
}
