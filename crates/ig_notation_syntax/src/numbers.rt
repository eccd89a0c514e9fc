//! Numbers.

ghost use Rattle.std.specs.Prelude.{◌≡◌, ◌<◌, ◌≤◌, ◌+◌, ◌-◌, ◌*◌, true, chars, pos};
ghost use Rattle.std.specs.Prelude.{MatchOption, SomeIff};
ghost use Rattle.ig_text.specs.Words.{is_digit};
ghost use Rattle.ig_text.specs.Limits.{integers_end, unsigned_end};
ghost use Rattle.ig_expr.specs.Reading.{spelled};
ghost use Rattle.ig_notation_syntax.specs.Scanner.{numeral, number_token};
ghost use Rattle.ig_notation_syntax.specs.Steps.{Begins, Gives};

use crate::characters::{self, Run};
use crate::step::Step;
use crate::token::Token;
use ig_expr::digits_grow;

/// What a number is whose first digit is `c`, where `after` stands behind that.
pub(crate) fn numeral<'a>(text: &'a str, c: char, after: &'a str) -> Step<'a>
    requires begins { Begins text.now c after.now }
    requires digit { is_digit c ≡ true }
    ensures { Gives (numeral c (chars after.now)) result }
{
    if c == '0' {
        return number(characters::front(text, after), after);
    }
    let (digits, rest) = characters::split(text, Run::OfDigits);
    number(digits, rest)
}

/// A number, unless a character stands behind its digits with which a name may go on.
fn number<'a>(digits: &'a str, rest: &'a str) -> Step<'a>
    ensures { Gives (number_token (chars digits.now) (chars rest.now)) result }
{
    if characters::goes_on(rest) {
        Step::Broken
    } else {
        Step::Takes(Token::Number(digits), rest)
    }
}

/// The number that the digits spell; `None` exactly where it is greater than
/// 9,223,372,036,854,775,807. Takes no memory.
pub fn number_of(digits: &str) -> Option<i64>
    ensures { MatchOption result (integers_end ≤ spelled 0 (chars digits.now))
        (λ n. n ≡ pos (spelled 0 (chars digits.now))) }
{
    digits_grow();
    let mut number: u64 = 0;
    let mut rest = digits;
    while let Some((c, after)) = characters::first(rest) {
        number = with_digit(number, c)?;
        rest = after;
    }
    i64::try_from(number).ok()
}

/// The number with a digit more at its end; `None` exactly where it would be 2 to the 64th or more.
fn with_digit(number: u64, digit: char) -> Option<u64>
    ensures { SomeIff result (10 * number + (digit - 48) < unsigned_end)
        (10 * number + (digit - 48)) }
{
    let value = u64::from((digit as u32).saturating_sub(48));
    number.checked_mul(10)?.checked_add(value)
}
