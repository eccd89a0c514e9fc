//! The values of expressions.
ghost use Rattle.std.specs.Prelude.{◌≡◌, Some};
ghost use Rattle.ig_expr.specs.Evaluation.{value_of, with_two};
ghost use Rattle.ig_expr.specs.Examples.{WorkedValues};
ghost use Rattle.ig_expr.specs.Laws.{DigitsGrow, MatchesAreDecided, MatchesHaveTheirWidth};
ghost use Rattle.ig_expr.specs.Laws.{TestsLookFor, ValuesHaveKinds};
ghost use Rattle.ig_expr.specs.Operations as spec;
ghost use Rattle.ig_expr.specs.View.{expression_of};

use crate::expression::Expr;
use crate::operation::{negation, operation, opposite};
use crate::operator::Op;
use crate::value::Value;
use crate::{blocks, matching, names, reading};
use ig_text::{Text, Word};

/// The value of an expression at the position `here`, in characters from 0, where `values` has the
/// value of each name, in the same order. Of equal names the first counts. Takes no memory.
///
/// `None` exactly where there is no value: an integer passes 64 bits, a divisor is 0, a position
/// isn't in the text, a span spells no number, a variable isn't among the names, or a part has the
/// wrong kind or no value.
pub fn evaluate(e: &Expr, names: &[Word], values: &[Value], here: u32, text: &Text) -> Option<Value>
    ensures { result ≡ value_of text.now names.now values.now here (expression_of e.now) }
{
    match e {
        Expr::Int(n) => Some(Value::Int(*n)),
        Expr::Bool(b) => Some(Value::Bool(*b)),
        Expr::Here => Some(Value::Int(i64::from(here))),
        Expr::Var(name) => values.get(names::place_of(names, name)?).copied(),
        Expr::Not(a) => {
            let a = evaluate(a.as_expr(), names, values, here, text)?;
            negation(a)
        }
        Expr::Neg(a) => {
            let a = evaluate(a.as_expr(), names, values, here, text)?;
            opposite(a)
        }
        Expr::Binary(op, a, b) => {
            let a = evaluate(a.as_expr(), names, values, here, text)?;
            combined(*op, a, evaluate(b.as_expr(), names, values, here, text))
        }
        Expr::Of(function, a) => {
            let a = evaluate(a.as_expr(), names, values, here, text)?;
            reading::applied(*function, a, text)
        }
        Expr::Same(a, b) => {
            let a = evaluate(a.as_expr(), names, values, here, text)?;
            let b = evaluate(b.as_expr(), names, values, here, text)?;
            reading::same(a, b, text)
        }
        Expr::Spells(a, word) => {
            let a = evaluate(a.as_expr(), names, values, here, text)?;
            reading::spells(a, word, text)
        }
        Expr::Outer(a, b) => {
            let a = evaluate(a.as_expr(), names, values, here, text)?;
            let b = evaluate(b.as_expr(), names, values, here, text)?;
            blocks::outer(a, b, here, text)
        }
        Expr::Inside(a, b) => {
            let a = evaluate(a.as_expr(), names, values, here, text)?;
            let b = evaluate(b.as_expr(), names, values, here, text)?;
            blocks::inside(a, b, here, text)
        }
        Expr::FreeBefore(pattern) => {
            Some(Value::Bool(!matching::matches_before(pattern, text, here)))
        }
        Expr::FreeAfter(pattern) => Some(Value::Bool(!matching::matches_at(pattern, text, here))),
    }
}

/// What the operator gives at a value and what its second operand gives: none of them, `and` and
/// `or` included, has a value where the second one has none.
fn combined(op: Op, a: Value, b: Option<Value>) -> Option<Value>
    ensures { result ≡ with_two (spec.operation op) (Some a) b }
{
    match b {
        Some(b) => operation(op, a, b),
        None => None,
    }
}

/// `same` and `spells` are true exactly where the texts are equal, and a filter exactly where there
/// is no match: this law, proved for all texts, computes nothing.
pub fn tests_look_for_matches()
    ensures { TestsLookFor }
{}

/// The tests of a pattern decide whether a match begins, or ends, at a position. This law, proved
/// for all texts, computes nothing.
pub fn matches_are_decided()
    ensures { MatchesAreDecided }
{}

/// A match of a pattern is as long as the pattern says. This law, proved for all texts, computes
/// nothing.
pub fn matches_have_their_width()
    ensures { MatchesHaveTheirWidth }
{}

/// Digits behind those of a number make no lesser number. This law, proved for all digits, computes
/// nothing.
pub fn digits_grow()
    ensures { DigitsGrow }
{}

/// The worked values of expressions at the edges of numbers, texts and blocks. This law computes
/// nothing.
pub fn values_are_worked()
    ensures { WorkedValues }
{}

/// Where the variables have values of their kinds, an expression has no value of another kind than
/// its own. This law, proved for all expressions, computes nothing.
pub fn value_is_of_kind()
    ensures { ValuesHaveKinds }
{}
