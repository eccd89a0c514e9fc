//! How the signs of expressions are spelled, and which expressions have an operator.

ghost use Rattle.std.specs.Prelude.{◌≡◌, ◌∷◌, OnOk, string_bytes};
ghost use Rattle.ig_notation_syntax.specs.Token.{Head};
ghost use Rattle.ig_expr.specs.View.{expression_of};
ghost use Rattle.ig_show.specs.Pieces.{token, blank};
ghost use Rattle.ig_show.specs.Signs.{operator_token, function_name, truth_token, has_operator};
ghost use Rattle.ig_show.specs.Appending.{Adds};

use crate::spelling::push_text;
use ig_expr::{Expr, Function, Op};
use std::alloc::AllocError;

/// Adds an operator with a space on each side.
pub fn push_operator(out: &mut String, op: Op) -> Result<(), AllocError>
    ensures { OnOk result (Adds (string_bytes out.old) (string_bytes out.new)
        (λ ps. blank ∷ token (operator_token op) ∷ blank ∷ ps)) }
{
    match op {
        Op::Add => push_text(out, " + "),
        Op::Sub => push_text(out, " - "),
        Op::Mul => push_text(out, " * "),
        Op::Div => push_text(out, " div "),
        Op::Mod => push_text(out, " mod "),
        Op::Less => push_text(out, " < "),
        Op::LessEqual => push_text(out, " <= "),
        Op::Greater => push_text(out, " > "),
        Op::GreaterEqual => push_text(out, " >= "),
        Op::Equal => push_text(out, " == "),
        Op::NotEqual => push_text(out, " != "),
        Op::And => push_text(out, " and "),
        Op::Or => push_text(out, " or "),
    }
}

/// Adds the name of a function, with `(` directly behind it.
pub fn push_function(out: &mut String, function: Function) -> Result<(), AllocError>
    ensures { OnOk result (Adds (string_bytes out.old) (string_bytes out.new)
        (λ ps. token (Head (function_name function)) ∷ ps)) }
{
    match function {
        Function::Begin => push_text(out, "begin("),
        Function::End => push_text(out, "end("),
        Function::Size => push_text(out, "size("),
        Function::Column => push_text(out, "column("),
        Function::Line => push_text(out, "line("),
        Function::Number => push_text(out, "number("),
    }
}

/// Adds a truth value.
pub fn push_truth(out: &mut String, truth: bool) -> Result<(), AllocError>
    ensures { OnOk result (Adds (string_bytes out.old) (string_bytes out.new)
        (λ ps. token (truth_token truth) ∷ ps)) }
{
    if truth {
        push_text(out, "true")
    } else {
        push_text(out, "false")
    }
}

/// Whether the expression is two parts with an operator between them, or one behind `not` or `-`.
pub fn has_operator(expression: &Expr) -> bool
    ensures { result ≡ has_operator (expression_of expression.now) }
{
    match expression {
        Expr::Int(_) => false,
        Expr::Bool(_) => false,
        Expr::Here => false,
        Expr::Var(_) => false,
        Expr::Not(_) => true,
        Expr::Neg(_) => true,
        Expr::Binary(_, _, _) => true,
        Expr::Of(_, _) => false,
        Expr::Same(_, _) => false,
        Expr::Spells(_, _) => false,
        Expr::Outer(_, _) => false,
        Expr::Inside(_, _) => false,
        Expr::FreeBefore(_) => false,
        Expr::FreeAfter(_) => false,
    }
}
