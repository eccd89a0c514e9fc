//! What may stand among the words behind the name of a command, and the numbers among them.
ghost use Rattle.std.specs.Prelude.{◌≡◌, ◌+◌, ◌-◌, ◌*◌, ◌&&◌, Some, None, if◌then◌else◌};
ghost use Rattle.std.specs.Prelude.{map, nat_le, string_bytes};
ghost use Rattle.std.specs.List.{list_all};
ghost use Rattle.ig_text.specs.Words.{is_digit};
ghost use Rattle.ig_command.specs.Commands.{number_of};
ghost use Rattle.ig_command.specs.Rows.{may_stand};
ghost use Rattle.ig_command.specs.Words.{is_value};

use ig_expr::digits_grow;

/// Whether all the words may stand.
pub(crate) fn all_may_stand(words: &[String]) -> bool
    ensures { result ≡ list_all may_stand (map string_bytes words.now) }
{
    for word in words {
        if !word_may_stand(word.as_str()) {
            return false;
        }
    }
    true
}

/// Whether the word may stand: it isn't empty and doesn't begin with `-`, or it begins with `--`,
/// goes on, and has such a value behind its first `=`, where it has one. `clap` lets more through.
fn word_may_stand(word: &str) -> bool
    ensures { result ≡ may_stand word.now }
{
    if may_be_value(word) {
        return true;
    }
    let Some(rest) = word.strip_prefix("--") else {
        return false;
    };
    match rest.split_once('=') {
        Some((_, value)) => may_be_value(value),
        None => !rest.is_empty(),
    }
}

/// Whether the word may be positional, or the value of an option.
fn may_be_value(word: &str) -> bool
    ensures { result ≡ is_value word.now }
{
    match word.as_bytes().first() {
        Some(first) => *first != b'-',
        None => false,
    }
}

/// The number that the digits spell, from the least to the most.
pub(crate) fn read_number(digits: &str, least: u64, most: u64) -> Option<u64>
    ensures { result ≡ number_of least most digits.now }
{
    digits_grow();
    let mut number = 0;
    for digit in digits.as_bytes() {
        match add_digit(number, *digit, most) {
            Some(more) => number = more,
            None => return None,
        }
    }
    if number < least { None } else { Some(number) }
}

/// The number with the digit behind it; `None` exactly where it is no digit, or the number is
/// greater than the most.
fn add_digit(number: u64, digit: u8, most: u64) -> Option<u64>
    ensures { result ≡ (if is_digit digit && nat_le (10 * number + (digit - 48)) most
        then Some (10 * number + (digit - 48)) else None) }
{
    if !digit.is_ascii_digit() {
        return None;
    }
    let tens = number.checked_mul(10)?;
    let more = tens.checked_add(u64::from(digit - b'0'))?;
    if more <= most { Some(more) } else { None }
}
