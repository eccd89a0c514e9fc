ghost use Rattle.std.specs.Prelude.{◌≡◌, Some};
ghost use Rattle.ig_expr.specs.Kinds.{of_one, of_two, of_equals, kind_of_operation, argument_of};
ghost use Rattle.ig_expr.specs.Kinds.{kind_in};
ghost use Rattle.ig_expr.specs.View.{expression_of};

use crate::expression::Expr;
use crate::names;
use crate::operator::{Function, Op};
use ig_text::{Copied, Sequence, Word};
use std::alloc::{AllocError, Global};

/// What a value is: every expression has one kind, known before a run.
#[derive(Clone, Copy, PartialEq, Eq, Debug)]
pub enum Kind {
    /// A 64-bit signed integer.
    Int,
    /// A truth value.
    Bool,
    /// A part of the text.
    Span,
}

/// A list of kinds.
pub type Kinds = Sequence<Kind>;

impl Copied for Kind {
    fn copy(&self, _alloc: Global) -> Result<Kind, AllocError> {
        Ok(*self)
    }
}

/// The kind of an expression, where `kinds` has the kind of each name, in the same order. `None`
/// exactly where a variable isn't among the names or a part has the wrong kind. Of equal names the
/// first counts. Takes no memory.
pub fn kind_of(e: &Expr, names: &[Word], kinds: &[Kind]) -> Option<Kind>
    ensures { result ≡ kind_in names.now kinds.now (expression_of e.now) }
{
    match e {
        Expr::Int(_) => Some(Kind::Int),
        Expr::Bool(_) => Some(Kind::Bool),
        Expr::Here => Some(Kind::Int),
        Expr::Var(name) => kinds.get(names::place_of(names, name)?).copied(),
        Expr::Not(a) => of_one(Kind::Bool, Kind::Bool, kind_of(a.as_expr(), names, kinds)),
        Expr::Neg(a) => of_one(Kind::Int, Kind::Int, kind_of(a.as_expr(), names, kinds)),
        Expr::Binary(op, a, b) => {
            let a = kind_of(a.as_expr(), names, kinds);
            let b = kind_of(b.as_expr(), names, kinds);
            kind_of_operation(*op, a, b)
        }
        Expr::Of(function, a) => {
            let a = kind_of(a.as_expr(), names, kinds);
            of_one(argument_of(*function), Kind::Int, a)
        }
        Expr::Same(a, b) => {
            let a = kind_of(a.as_expr(), names, kinds);
            let b = kind_of(b.as_expr(), names, kinds);
            of_two(Kind::Span, Kind::Bool, a, b)
        }
        Expr::Spells(a, _) => of_one(Kind::Span, Kind::Bool, kind_of(a.as_expr(), names, kinds)),
        Expr::Outer(a, b) => {
            let a = kind_of(a.as_expr(), names, kinds);
            let b = kind_of(b.as_expr(), names, kinds);
            of_two(Kind::Int, Kind::Int, a, b)
        }
        Expr::Inside(a, b) => {
            let a = kind_of(a.as_expr(), names, kinds);
            let b = kind_of(b.as_expr(), names, kinds);
            of_two(Kind::Int, Kind::Bool, a, b)
        }
        Expr::FreeBefore(_) => Some(Kind::Bool),
        Expr::FreeAfter(_) => Some(Kind::Bool),
    }
}

/// The kind of what an operator gives at operands of these kinds.
fn kind_of_operation(op: Op, a: Option<Kind>, b: Option<Kind>) -> Option<Kind>
    ensures { result ≡ kind_of_operation op a b }
{
    match op {
        Op::Add | Op::Sub | Op::Mul | Op::Div | Op::Mod => of_two(Kind::Int, Kind::Int, a, b),
        Op::Less | Op::LessEqual | Op::Greater | Op::GreaterEqual => {
            of_two(Kind::Int, Kind::Bool, a, b)
        }
        Op::Equal | Op::NotEqual => of_equals(a, b),
        Op::And | Op::Or => of_two(Kind::Bool, Kind::Bool, a, b),
    }
}

/// The kind that a function takes.
fn argument_of(function: Function) -> Kind
    ensures { result ≡ argument_of function }
{
    match function {
        Function::Begin | Function::End | Function::Size | Function::Number => Kind::Span,
        Function::Column | Function::Line => Kind::Int,
    }
}

/// The kind `gives`, where an operand of the kind `takes` is there.
fn of_one(takes: Kind, gives: Kind, a: Option<Kind>) -> Option<Kind>
    ensures { result ≡ of_one takes gives a }
{
    if a? == takes { Some(gives) } else { None }
}

/// The kind `gives`, where two operands of the kind `takes` are there.
fn of_two(takes: Kind, gives: Kind, a: Option<Kind>, b: Option<Kind>) -> Option<Kind>
    ensures { result ≡ of_two takes gives a b }
{
    let (a, b) = (a?, b?);
    if a == takes && b == takes {
        Some(gives)
    } else {
        None
    }
}

/// A truth value, where two operands of one kind are there.
fn of_equals(a: Option<Kind>, b: Option<Kind>) -> Option<Kind>
    ensures { result ≡ of_equals a b }
{
    if a? == b? { Some(Kind::Bool) } else { None }
}
