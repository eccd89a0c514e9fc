//! The pair of a column and a block's start, which is carried down to the tokens of a block.
ghost use Rattle.std.specs.Prelude.{◌≡◌, ◌&&◌, ◌||◌, pos, int_lt};
ghost use Rattle.std.specs.Ordering.{int_eq};
ghost use Rattle.ig_expr.specs.Blocks as spec;

use crate::value::Value;
use ig_text::Text;

/// `a` where `here` is `b`, else the greater of `a` and the column of `b`.
pub(crate) fn outer(a: Value, b: Value, here: u32, text: &Text) -> Option<Value>
    ensures { result ≡ spec.outer text.now here a b }
{
    match (a, b) {
        (Value::Int(a), Value::Int(b)) => outer_by(text.column(b), here, a, b),
        _ => None,
    }
}

/// Whether the column of `here` is greater than `a`, and `here` is `b` or in a column greater than
/// that of `b`.
pub(crate) fn inside(a: Value, b: Value, here: u32, text: &Text) -> Option<Value>
    ensures { result ≡ spec.inside text.now here a b }
{
    match (a, b) {
        (Value::Int(a), Value::Int(b)) => {
            let column = text.column(i64::from(here));
            inside_by(column, text.column(b), here, a, b)
        }
        _ => None,
    }
}

fn outer_by(column: Option<i64>, here: u32, a: i64, b: i64) -> Option<Value>
    ensures { result ≡ spec.outer_by column here a b }
{
    let column = column?;
    if i64::from(here) == b {
        Some(Value::Int(a))
    } else {
        Some(Value::Int(a.max(column)))
    }
}

fn inside_by(column: Option<i64>, start: Option<i64>, here: u32, a: i64, b: i64) -> Option<Value>
    ensures { result ≡ spec.inside_by column start here a b }
{
    Some(Value::Bool(is_inside(column?, start?, here, a, b)))
}

/// Whether `a` is less than the column, and `here` is `b` or `start` is less than the column.
fn is_inside(column: i64, start: i64, here: u32, a: i64, b: i64) -> bool
    ensures { result ≡ (int_lt a column && (int_eq (pos here) b || int_lt start column)) }
{
    let is_behind = i64::from(here) == b || start < column;
    a < column && is_behind
}
