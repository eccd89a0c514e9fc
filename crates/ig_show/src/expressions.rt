//! Expressions and their lists.

ghost use Rattle.std.specs.Prelude.{◌∷◌, OnOk, map, chars, string_bytes};
ghost use Rattle.ig_notation_syntax.specs.Token.{Literal, Close};
ghost use Rattle.ig_expr.specs.View.{expression_of};
ghost use Rattle.ig_show.specs.Pieces.{token};
ghost use Rattle.ig_show.specs.Signs.{pattern_token};
ghost use Rattle.ig_show.specs.Appending.{Adds};
ghost use Rattle.ig_show.specs.CanonicalText.{expression_pieces, part_pieces, joined, comma};
ghost use Rattle.ig_show.specs.CanonicalText.{call_pieces};
ghost use Rattle.ig_show.specs.Writing.{AddsBefore};

use crate::signs::{has_operator, push_function, push_operator, push_truth};
use crate::spelling::{push_head, push_integer, push_literal, push_name, push_pattern, push_text};
use ig_expr::{Expr, Operand};
use ig_text::{Pattern, Word};
use std::alloc::AllocError;

/// Adds an expression.
#[cycle(expressions)]
pub(crate) fn push_expression(out: &mut String, expression: &Expr) -> Result<(), AllocError>
    ensures { OnOk result (Adds (string_bytes out.old) (string_bytes out.new)
        (expression_pieces (expression_of expression.now))) }
{
    match expression {
        Expr::Int(number) => push_integer(out, *number),
        Expr::Bool(truth) => push_truth(out, *truth),
        Expr::Here => push_text(out, "here"),
        Expr::Var(name) => push_name(out, name),
        Expr::Not(a) => {
            push_text(out, "not ")?;
            push_part(out, a)
        }
        Expr::Neg(a) => {
            push_text(out, "- ")?;
            push_part(out, a)
        }
        Expr::Binary(op, a, b) => {
            push_part(out, a)?;
            push_operator(out, *op)?;
            push_part(out, b)
        }
        Expr::Of(function, a) => {
            push_function(out, *function)?;
            push_argument(out, a, ")")
        }
        Expr::Same(a, b) => {
            push_text(out, "same(")?;
            push_argument(out, a, ", ")?;
            push_argument(out, b, ")")
        }
        Expr::Spells(a, word) => {
            push_text(out, "spells(")?;
            push_argument(out, a, ", ")?;
            push_last_word(out, word)
        }
        Expr::Outer(a, b) => {
            push_text(out, "outer(")?;
            push_argument(out, a, ", ")?;
            push_argument(out, b, ")")
        }
        Expr::Inside(a, b) => {
            push_text(out, "inside(")?;
            push_argument(out, a, ", ")?;
            push_argument(out, b, ")")
        }
        Expr::FreeBefore(pattern) => {
            push_text(out, "free_before(")?;
            push_last_pattern(out, pattern)
        }
        Expr::FreeAfter(pattern) => {
            push_text(out, "free_after(")?;
            push_last_pattern(out, pattern)
        }
    }
}

/// Adds a part of an expression, in parentheses where it has an operator.
#[cycle(expressions)]
fn push_part(out: &mut String, part: &Operand) -> Result<(), AllocError>
    ensures { OnOk result (Adds (string_bytes out.old) (string_bytes out.new)
        (part_pieces part.now)) }
{
    let expression = part.as_expr();
    if has_operator(expression) {
        push_text(out, "(")?;
        push_expression(out, expression)?;
        push_text(out, ")")
    } else {
        push_expression(out, expression)
    }
}

/// Adds an argument and what ends it.
#[cycle(expressions)]
fn push_argument(out: &mut String, argument: &Operand, end: &str) -> Result<(), AllocError>
    ensures { OnOk result (AddsBefore (string_bytes out.old) (string_bytes out.new)
        (chars end.now) (expression_pieces argument.now)) }
{
    push_expression(out, argument.as_expr())?;
    push_text(out, end)
}

/// Adds a literal and `)`.
fn push_last_word(out: &mut String, word: &Word) -> Result<(), AllocError>
    ensures { OnOk result (Adds (string_bytes out.old) (string_bytes out.new)
        (λ ps. token (Literal word.now) ∷ token Close ∷ ps)) }
{
    push_literal(out, word)?;
    push_text(out, ")")
}

/// Adds a pattern and `)`.
fn push_last_pattern(out: &mut String, pattern: &Pattern) -> Result<(), AllocError>
    ensures { OnOk result (Adds (string_bytes out.old) (string_bytes out.new)
        (λ ps. token (pattern_token pattern.now) ∷ token Close ∷ ps)) }
{
    push_pattern(out, pattern)?;
    push_text(out, ")")
}

/// Adds expressions with `, ` between two.
fn push_expressions(out: &mut String, expressions: &[Expr]) -> Result<(), AllocError>
    ensures { OnOk result (Adds (string_bytes out.old) (string_bytes out.new)
        (joined comma expression_pieces (map expression_of expressions.now))) }
{
    let Some((first, others)) = expressions.split_first() else {
        return Ok(());
    };
    push_expression(out, first)?;
    for other in others {
        push_text(out, ", ")?;
        push_expression(out, other)?;
    }
    Ok(())
}

/// Adds a call: the name, and the arguments in parentheses where there are any.
pub(crate) fn push_call(out: &mut String, name: &Word, arguments: &[Expr]) -> Result<(), AllocError>
    ensures { OnOk result (Adds (string_bytes out.old) (string_bytes out.new)
        (call_pieces name.now (map expression_of arguments.now))) }
{
    if arguments.is_empty() {
        return push_name(out, name);
    }
    push_head(out, name)?;
    push_expressions(out, arguments)?;
    push_text(out, ")")
}
