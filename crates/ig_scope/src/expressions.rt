//! What is asked of an expression where it stands.

ghost use Rattle.std.specs.Prelude.{◌≡◌, ◌↔◌, IsTrue, Some};
ghost use Rattle.ig_expr.specs.View.{expression_of};
ghost use Rattle.ig_grammar.specs.Condition.{NamesUnknown};
ghost use Rattle.ig_grammar.specs.Visible.{kind_at};

use ig_expr::{Expr, Kind};
use ig_grammar::Variables;

/// Whether the expression names a variable that isn't visible.
pub(crate) fn names_unknown(variables: &Variables, e: &Expr) -> bool
    ensures { IsTrue result ↔ NamesUnknown variables.now (expression_of e.now) }
{
    match e {
        Expr::Int(_) => false,
        Expr::Bool(_) => false,
        Expr::Here => false,
        Expr::Var(name) => !variables.sees(name),
        Expr::Not(a) => names_unknown(variables, a.as_expr()),
        Expr::Neg(a) => names_unknown(variables, a.as_expr()),
        Expr::Binary(_, a, b) => {
            names_unknown(variables, a.as_expr()) || names_unknown(variables, b.as_expr())
        }
        Expr::Of(_, a) => names_unknown(variables, a.as_expr()),
        Expr::Same(a, b) => {
            names_unknown(variables, a.as_expr()) || names_unknown(variables, b.as_expr())
        }
        Expr::Spells(a, _) => names_unknown(variables, a.as_expr()),
        Expr::Outer(a, b) => {
            names_unknown(variables, a.as_expr()) || names_unknown(variables, b.as_expr())
        }
        Expr::Inside(a, b) => {
            names_unknown(variables, a.as_expr()) || names_unknown(variables, b.as_expr())
        }
        Expr::FreeBefore(_) => false,
        Expr::FreeAfter(_) => false,
    }
}

/// Whether the expression has this kind.
pub(crate) fn has_kind(variables: &Variables, e: &Expr, kind: Kind) -> bool
    ensures { IsTrue result ↔ (kind_at variables.now (expression_of e.now) ≡ Some kind) }
{
    match variables.kind_of(e) {
        Some(found) => found == kind,
        None => false,
    }
}
