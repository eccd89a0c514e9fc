//! The pair of a column and a start under which a symbol stands.
ghost use Rattle.std.specs.Prelude.{◌≡◌, [], ◌∷◌, ◌++◌, IfOk, OnOk};
ghost use Rattle.ig_expr.specs.Expression as expression;
ghost use Rattle.ig_expr.specs.View.{expression_of};
ghost use Rattle.ig_blocks_parts.specs.Setting.{m_of, f_of, opened, opened_by, cleared_by, inner};
ghost use Rattle.ig_blocks_parts.specs.Setting.{pair_bindings, column_bindings};
ghost use Rattle.ig_blocks_parts.specs.Setting.{two_bindings, column_here};
ghost use Rattle.ig_blocks_parts.specs.ColumnCode.{pair_of, setting_by, bound_to};

use crate::guide::Guide;
use ig_expr::{Expr, Function, Operand};
use ig_grammar::Lets;
use ig_text::{Copied, Word};
use std::alloc::{AllocError, Global};

/// The pair under which a symbol stands.
#[derive(Drop)]
pub enum Pair {
    /// There is none here.
    Lacking,
    /// That which is handed down.
    Carried,
    /// That of a block: its column, and its start.
    Opened(Expr, Expr),
    /// That of `ignore`.
    Cleared,
}

/// The column of a pair. Refused for want of memory alone.
pub fn column_of(alloc: Global, guide: &Guide<'_>, pair: &Pair) -> Result<Expr, AllocError>
    ensures { IfOk result (λ r.
        expression_of r ≡ m_of (setting_by guide.now) (pair_of pair.now)) }
{
    match pair {
        Pair::Lacking => Ok(Expr::Int(0)),
        Pair::Carried => Ok(Expr::Var(guide.margin.copy(alloc)?)),
        Pair::Opened(column, _) => Ok(column.copy(alloc)?),
        Pair::Cleared => Ok(Expr::Int(0)),
    }
}

/// The start of a pair. Refused for want of memory alone.
pub fn start_of(alloc: Global, guide: &Guide<'_>, pair: &Pair) -> Result<Expr, AllocError>
    ensures { IfOk result (λ r.
        expression_of r ≡ f_of (setting_by guide.now) (pair_of pair.now)) }
{
    match pair {
        Pair::Lacking => Ok(Expr::Int(-1)),
        Pair::Carried => Ok(Expr::Var(guide.first.copy(alloc)?)),
        Pair::Opened(_, start) => Ok(start.copy(alloc)?),
        Pair::Cleared => Ok(Expr::Int(-1)),
    }
}

/// The pair directly under `offside`. Refused for want of memory alone.
pub fn opened_by(alloc: Global, guide: &Guide<'_>, pair: &Pair) -> Result<Pair, AllocError>
    ensures { IfOk result (λ r.
        pair_of r ≡ opened_by (setting_by guide.now) (pair_of pair.now)) }
{
    let column = outer_column(alloc, guide, pair)?;
    match start_operand(alloc, guide, pair) {
        Ok(start) => Ok(opened(column, start)),
        Err(refused) => {
            drop(column);
            Err(refused)
        }
    }
}

/// The pair of a block, from the column and the start of that around it.
fn opened(column: Operand, start: Operand) -> Pair
    ensures { pair_of result ≡ opened (expression.Outer column start) expression.Here }
{
    Pair::Opened(Expr::Outer(column, start), Expr::Here)
}

/// The column of the pair around a block, as an operand.
fn outer_column(alloc: Global, guide: &Guide<'_>, pair: &Pair) -> Result<Operand, AllocError>
    ensures { IfOk result (λ r. r ≡ m_of (setting_by guide.now) (pair_of pair.now)) }
{
    let outer = column_of(alloc, guide, pair)?;
    Operand::new(alloc, outer)
}

/// The start of a pair, as an operand.
pub(crate) fn start_operand(
    alloc: Global,
    guide: &Guide<'_>,
    pair: &Pair,
) -> Result<Operand, AllocError>
    ensures { IfOk result (λ r. r ≡ f_of (setting_by guide.now) (pair_of pair.now)) }
{
    Operand::new(alloc, start_of(alloc, guide, pair)?)
}

/// The pair directly under `ignore`.
pub fn cleared_by(pair: &Pair) -> Pair
    ensures { pair_of result ≡ cleared_by (pair_of pair.now) }
{
    match pair {
        Pair::Lacking => Pair::Lacking,
        Pair::Carried => Pair::Cleared,
        Pair::Opened(_, _) => Pair::Cleared,
        Pair::Cleared => Pair::Cleared,
    }
}

/// The pair inside a list, an option or a group.
pub fn inner_of(pair: &Pair) -> Pair
    ensures { pair_of result ≡ inner (pair_of pair.now) }
{
    match pair {
        Pair::Lacking => Pair::Lacking,
        Pair::Carried => Pair::Carried,
        Pair::Opened(_, _) => Pair::Carried,
        Pair::Cleared => Pair::Carried,
    }
}

/// The bindings of a list, an option or a group. Refused for want of memory alone.
pub fn bindings_of(
    alloc: Global,
    guide: &Guide<'_>,
    pair: &Pair,
    aligned: bool,
) -> Result<Lets, AllocError>
    ensures { IfOk result (λ r. r ≡ pair_bindings (setting_by guide.now) (pair_of pair.now) ++
        column_bindings (setting_by guide.now) aligned) }
{
    let mut bindings = Lets::new(alloc);
    push_pair(alloc, guide, pair, &mut bindings)?;
    push_column(alloc, guide, aligned, &mut bindings)?;
    Ok(bindings)
}

/// Adds the bindings of a pair that changes. Refused for want of memory alone.
pub fn push_pair(
    alloc: Global,
    guide: &Guide<'_>,
    pair: &Pair,
    bindings: &mut Lets,
) -> Result<(), AllocError>
    ensures { OnOk result (bindings.new ≡
        bindings.old ++ pair_bindings (setting_by guide.now) (pair_of pair.now)) }
{
    match pair {
        Pair::Lacking => Ok(()),
        Pair::Carried => Ok(()),
        Pair::Opened(_, _) => push_both(alloc, guide, pair, bindings),
        Pair::Cleared => push_both(alloc, guide, pair, bindings),
    }
}

/// Adds the bindings of a pair.
fn push_both(
    alloc: Global,
    guide: &Guide<'_>,
    pair: &Pair,
    bindings: &mut Lets,
) -> Result<(), AllocError>
    ensures { OnOk result (bindings.new ≡ bindings.old ++ two_bindings (setting_by guide.now)
        (m_of (setting_by guide.now) (pair_of pair.now))
        (f_of (setting_by guide.now) (pair_of pair.now))) }
{
    push_binding(
        bindings,
        guide.margin.copy(alloc)?,
        column_of(alloc, guide, pair)?,
    )?;
    push_binding(
        bindings,
        guide.first.copy(alloc)?,
        start_of(alloc, guide, pair)?,
    )
}

/// Adds the binding of an aligned list.
fn push_column(
    alloc: Global,
    guide: &Guide<'_>,
    aligned: bool,
    bindings: &mut Lets,
) -> Result<(), AllocError>
    ensures { OnOk result (bindings.new ≡
        bindings.old ++ column_bindings (setting_by guide.now) aligned) }
{
    if !aligned {
        return Ok(());
    }
    push_binding(bindings, guide.column.copy(alloc)?, column_here(alloc)?)
}

/// The column of this position.
pub(crate) fn column_here(alloc: Global) -> Result<Expr, AllocError>
    ensures { IfOk result (λ r. expression_of r ≡ column_here) }
{
    let here = Operand::new(alloc, Expr::Here)?;
    Ok(Expr::Of(Function::Column, here))
}

/// Adds the binding at the end.
fn push_binding(bindings: &mut Lets, name: Word, value: Expr) -> Result<(), AllocError>
    ensures { OnOk result (bindings.new ≡
        bindings.old ++ bound_to name (expression_of value) ∷ []) }
{
    match bindings.push((name, value)) {
        Ok(()) => Ok(()),
        Err((refused, reason)) => {
            drop(refused);
            Err(reason)
        }
    }
}
