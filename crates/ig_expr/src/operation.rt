//! What operators give at values: an integer operation its whole result, where that fits 64 bits.
ghost use Rattle.std.specs.Prelude.{◌≡◌, ◌+ℤ◌, ◌-ℤ◌, ◌*ℤ◌, neg_ℤ};
ghost use Rattle.ig_expr.specs.Operations as spec;

use crate::operator::Op;
use crate::value::Value;
use ig_text::Span;

/// What the operator gives at two values; `None` where it has no value there.
pub(crate) fn operation(op: Op, a: Value, b: Value) -> Option<Value>
    ensures { result ≡ spec.operation op a b }
{
    match (a, b) {
        (Value::Int(a), Value::Int(b)) => on_integers(op, a, b),
        (Value::Bool(a), Value::Bool(b)) => on_truths(op, a, b),
        (Value::Span(a), Value::Span(b)) => on_spans(op, a, b),
        _ => None,
    }
}

/// The negation of a truth value.
pub(crate) fn negation(a: Value) -> Option<Value>
    ensures { result ≡ spec.negation a }
{
    match a {
        Value::Bool(a) => Some(Value::Bool(!a)),
        _ => None,
    }
}

/// An integer with its sign turned, where that fits.
pub(crate) fn opposite(a: Value) -> Option<Value>
    ensures { result ≡ spec.opposite a }
{
    match a {
        Value::Int(a) => integer(negative(a)),
        _ => None,
    }
}

/// The integer as a value, where there is one.
pub(crate) fn integer(n: Option<i64>) -> Option<Value>
    ensures { result ≡ spec.integer n }
{
    Some(Value::Int(n?))
}

fn on_integers(op: Op, a: i64, b: i64) -> Option<Value>
    ensures { result ≡ spec.on_integers op a b }
{
    match op {
        Op::Add => integer(sum(a, b)),
        Op::Sub => integer(difference(a, b)),
        Op::Mul => integer(product(a, b)),
        Op::Div => integer(quotient(a, b)),
        Op::Mod => integer(remainder(a, b)),
        Op::Less => Some(Value::Bool(a < b)),
        Op::LessEqual => Some(Value::Bool(a <= b)),
        Op::Greater => Some(Value::Bool(a > b)),
        Op::GreaterEqual => Some(Value::Bool(a >= b)),
        Op::Equal => Some(Value::Bool(a == b)),
        Op::NotEqual => Some(Value::Bool(a != b)),
        Op::And | Op::Or => None,
    }
}

fn on_truths(op: Op, a: bool, b: bool) -> Option<Value>
    ensures { result ≡ spec.on_truths op a b }
{
    match op {
        Op::Equal => Some(Value::Bool(a == b)),
        Op::NotEqual => Some(Value::Bool(a != b)),
        Op::And => Some(Value::Bool(a && b)),
        Op::Or => Some(Value::Bool(a || b)),
        _ => None,
    }
}

fn on_spans(op: Op, a: Span, b: Span) -> Option<Value>
    ensures { result ≡ spec.on_spans op a b }
{
    match op {
        Op::Equal => Some(Value::Bool(a == b)),
        Op::NotEqual => Some(Value::Bool(a != b)),
        _ => None,
    }
}

fn negative(a: i64) -> Option<i64>
    ensures { result ≡ spec.whole (neg_ℤ a) }
{
    a.checked_neg()
}

fn sum(a: i64, b: i64) -> Option<i64>
    ensures { result ≡ spec.whole (a +ℤ b) }
{
    a.checked_add(b)
}

fn difference(a: i64, b: i64) -> Option<i64>
    ensures { result ≡ spec.whole (a -ℤ b) }
{
    a.checked_sub(b)
}

fn product(a: i64, b: i64) -> Option<i64>
    ensures { result ≡ spec.whole (a *ℤ b) }
{
    a.checked_mul(b)
}

/// The quotient, truncated toward zero.
fn quotient(a: i64, b: i64) -> Option<i64>
    ensures { result ≡ spec.quotient a b }
{
    a.checked_div(b)
}

/// What the quotient leaves, with the sign of `a`. The least integer leaves 0 by -1, though its
/// quotient doesn't fit.
fn remainder(a: i64, b: i64) -> Option<i64>
    ensures { result ≡ spec.remainder a b }
{
    if b == 0 {
        None
    } else if b == -1 {
        Some(0)
    } else {
        Some(a % b)
    }
}
