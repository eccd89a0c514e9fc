ghost use Rattle.std.specs.Prelude.{◌≡◌, [], ◌∷◌, ◌++◌, map, OnOk, OnErr, IfErr, IfOk};
ghost use Rattle.ig_expr.specs.View.{expression_of};

use crate::operator::{Function, Op};
use ig_text::{Copied, Pattern, Word};
use std::alloc::{AllocError, Global};
use std::marker::Model;

/// An expression of a grammar. The last four forms stand in no grammar text: the passes over a
/// grammar write them, for blocks and filters.
#[derive(Drop)]
#[cycle(expression)]
pub enum Expr {
    /// An integer.
    Int(i64),
    /// A truth value.
    Bool(bool),
    /// The current position.
    Here,
    /// The value of a variable.
    Var(Word),
    /// `not a`
    Not(Operand),
    /// `-a`
    Neg(Operand),
    /// `a op b`
    Binary(Op, Operand, Operand),
    /// A function of one argument.
    Of(Function, Operand),
    /// Whether two spans have equal text.
    Same(Operand, Operand),
    /// Whether the text of a span is the word.
    Spells(Operand, Word),
    /// `outer(a, b)`: `a` where `here` is `b`, else the greater of `a` and the column of `b`.
    Outer(Operand, Operand),
    /// `inside(a, b)`: whether the column of `here` is greater than `a`, and `here` is `b` or in a
    /// column greater than that of `b`.
    Inside(Operand, Operand),
    /// Whether no match of the pattern ends at `here`.
    FreeBefore(Pattern),
    /// Whether the pattern doesn't match at `here`.
    FreeAfter(Pattern),
}

/// An expression inside another one: contracts see it as a syntax tree, and never as a box.
#[derive(Drop)]
#[cycle(expression)]
pub struct Operand {
    expression: Box<Expr>,
}

impl Model for Operand {
    ghost use Rattle.ig_expr.specs.Expression.{Expression};
    ghost use Rattle.ig_expr.specs.Nodes.{nodes};

    ghost Value = { Expression };

    ghost use Rattle.ig_expr.specs.Stored.{expression_code};

    ghost coded = { expression_code };

    ghost use Rattle.ig_expr.specs.View.{expression_of};

    ghost view = { λ o. expression_of o.expression.value };

    ghost size = { nodes };

    ghost use Rattle.ig_expr.specs.Falling.{depth_le-nodes};

    ghost size_decreases = { λ a h. depth_le-nodes a.expression.value };
}

impl Operand {
    /// The expression as an operand. Refused for want of memory, the expression is dropped.
    pub fn new(alloc: Global, expression: Expr) -> Result<Operand, AllocError>
        ensures { IfOk result (λ o. o ≡ expression_of expression) }
    {
        let expression = Box::new(alloc, expression)?;
        Ok(Operand { expression })
    }

    /// The expression. Takes no memory.
    pub fn as_expr(&self) -> &Expr
        ensures { expression_of result.now ≡ self.now }
    {
        &self.expression
    }
}

/// A list of expressions.
#[derive(Drop)]
pub struct Exprs {
    cells: Vec<Expr>,
}

impl Model for Exprs {
    ghost use Rattle.std.specs.Prelude.{List, map};
    ghost use Rattle.ig_expr.specs.Expression.{Expression};

    ghost Value = { List Expression };

    ghost use Rattle.std.specs.Coded.{coded_list};
    ghost use Rattle.ig_expr.specs.Stored.{expression_code};

    ghost coded = { coded_list expression_code };

    ghost use Rattle.ig_expr.specs.View.{expression_of};

    ghost view = { λ s. map expression_of s.cells.items };
}

impl Exprs {
    /// The empty list. Takes no memory.
    pub fn new(alloc: Global) -> Exprs
        ensures { result ≡ [] }
    {
        Exprs {
            cells: Vec::new(alloc),
        }
    }

    /// Adds the expression at the end. Refused for want of memory, it hands the expression back,
    /// and the list is as before.
    pub fn push(&mut self, expression: Expr) -> Result<(), (Expr, AllocError)>
        ensures ok { OnOk result (self.new ≡ self.old ++ expression_of expression ∷ []) }
        ensures err { OnErr result (self.new ≡ self.old) }
        ensures value_returned { IfErr result (λ e. e.0 ≡ expression) }
    {
        match self.cells.push(expression) {
            Ok(()) => Ok(()),
            Err(full) => Err((full.value, AllocError)),
        }
    }

    /// The expressions, in order. Takes no memory.
    pub fn as_slice(&self) -> &[Expr]
        ensures { map expression_of result.now ≡ self.now }
    {
        self.cells.as_slice()
    }
}

impl Copied for Expr {
    fn copy(&self, alloc: Global) -> Result<Expr, AllocError> {
        copy_of(self, alloc)
    }
}

impl Copied for Operand {
    fn copy(&self, alloc: Global) -> Result<Operand, AllocError> {
        copy_of_operand(self, alloc)
    }
}

impl Copied for Exprs {
    fn copy(&self, alloc: Global) -> Result<Exprs, AllocError> {
        let mut cells = Vec::with_capacity(alloc, self.cells.len())?;
        for cell in &self.cells {
            cells.push(copy_of(cell, alloc)?)?;
        }
        Ok(Exprs { cells })
    }
}

/// An equal expression.
#[cycle(copies)]
fn copy_of(expression: &Expr, alloc: Global) -> Result<Expr, AllocError>
    ensures { IfOk result (λ r. r ≡ expression.now) }
{
    match expression {
        Expr::Int(n) => Ok(Expr::Int(*n)),
        Expr::Bool(b) => Ok(Expr::Bool(*b)),
        Expr::Here => Ok(Expr::Here),
        Expr::Var(name) => Ok(Expr::Var(name.copy(alloc)?)),
        Expr::Not(a) => Ok(Expr::Not(copy_of_operand(a, alloc)?)),
        Expr::Neg(a) => Ok(Expr::Neg(copy_of_operand(a, alloc)?)),
        Expr::Binary(op, a, b) => {
            let a = copy_of_operand(a, alloc)?;
            Ok(binary(*op, a, copy_of_operand(b, alloc)?))
        }
        Expr::Of(function, a) => Ok(Expr::Of(*function, copy_of_operand(a, alloc)?)),
        Expr::Same(a, b) => {
            let a = copy_of_operand(a, alloc)?;
            Ok(Expr::Same(a, copy_of_operand(b, alloc)?))
        }
        Expr::Spells(a, word) => {
            let a = copy_of_operand(a, alloc)?;
            Ok(Expr::Spells(a, word.copy(alloc)?))
        }
        Expr::Outer(a, b) => {
            let a = copy_of_operand(a, alloc)?;
            Ok(Expr::Outer(a, copy_of_operand(b, alloc)?))
        }
        Expr::Inside(a, b) => {
            let a = copy_of_operand(a, alloc)?;
            Ok(Expr::Inside(a, copy_of_operand(b, alloc)?))
        }
        Expr::FreeBefore(pattern) => Ok(Expr::FreeBefore(pattern.copy(alloc)?)),
        Expr::FreeAfter(pattern) => Ok(Expr::FreeAfter(pattern.copy(alloc)?)),
    }
}

/// The expression of the operator at its operands.
fn binary(op: Op, first: Operand, second: Operand) -> Expr
    ensures { result ≡ Expr.Binary op first second }
{
    Expr::Binary(op, first, second)
}

/// An equal operand.
#[cycle(copies)]
fn copy_of_operand(operand: &Operand, alloc: Global) -> Result<Operand, AllocError>
    ensures { IfOk result (λ r. r ≡ operand.now) }
{
    Operand::new(alloc, copy_of(operand.as_expr(), alloc)?)
}
