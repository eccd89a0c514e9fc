//! Symbols, each call of a levelled nonterminal with two arguments more.
ghost use Rattle.std.specs.Prelude.{◌≡◌, ◌++◌, IfOk, pos};
ghost use Rattle.ig_expr.specs.Expression.{Integer, Variable};
ghost use Rattle.ig_expr.specs.View.{expression_of};
ghost use Rattle.ig_grammar.specs.Symbol.{Call};
ghost use Rattle.ig_grammar.specs.View.{symbol_of};
ghost use Rattle.ig_pass.specs.Added.{right_name};
ghost use Rattle.ig_levels.specs.Levels.{with_pair, pair_arguments, no_pair};
ghost use Rattle.ig_levels.specs.Roles.{pair_of, unasked};
ghost use Rattle.ig_levels.specs.Tables.{levelled_by};

use crate::naming::{left_word, names_levelled, right_word};
use ig_expr::{Expr, Exprs};
use ig_grammar::{Decl, Inner, Symbol};
use ig_pass::{OwnRule, labelled, push_expression, rewrite_symbol};
use ig_text::{Copied, Word};
use std::alloc::{AllocError, Global};
use std::collections::BTreeMap;

/// What a symbol is to its alternative.
#[derive(Clone, Copy)]
pub enum Role {
    /// No operand.
    Outside,
    /// A left operand, with the bound for it.
    LeftOperand(u32),
    /// A right operand, with the bound for it.
    RightOperand(u32),
}

impl Role {
    /// What a call is that stands deeper than the symbols of its alternative.
    fn nested() -> Role
        ensures { pair_of result ≡ no_pair }
    {
        Self::Outside
    }
}

/// The first argument that the role gives: the least level on the left spine.
fn left_argument(alloc: Global, role: Role) -> Result<Expr, AllocError>
    ensures { IfOk result (λ e. expression_of e ≡ (pair_of role).left) }
{
    match role {
        Role::Outside => Ok(Expr::Int(0)),
        Role::LeftOperand(_) => Ok(Expr::Var(left_word(alloc)?)),
        Role::RightOperand(bound) => Ok(asked_of_other_side(bound)),
    }
}

/// What is asked of the spine of an operand on its other side: the bound of the operand.
fn asked_of_other_side(bound: u32) -> Expr
    ensures { expression_of result ≡ Integer (pos bound) }
{
    Expr::Int(bound as i64)
}

/// The bound for the right spine, as it is handed on to a right operand.
fn hand_on_right(alloc: Global) -> Result<Expr, AllocError>
    ensures { IfOk result (λ e. expression_of e ≡ Variable right_name) }
{
    let bound = right_word(alloc)?;
    Ok(Expr::Var(bound))
}

/// The second argument that the role gives: the least level on the right spine.
fn right_argument(alloc: Global, role: Role) -> Result<Expr, AllocError>
    ensures { IfOk result (λ e. expression_of e ≡ (pair_of role).right) }
{
    match role {
        Role::Outside => Ok(Expr::Int(0)),
        Role::LeftOperand(bound) => Ok(asked_of_other_side(bound)),
        Role::RightOperand(_) => hand_on_right(alloc),
    }
}

/// The arguments of a call, with the two that its role gives where it is levelled.
fn add_bounds(
    alloc: Global,
    arguments: Exprs,
    levelled: bool,
    role: Role,
) -> Result<Exprs, AllocError>
    ensures { IfOk result (λ r. r ≡ arguments ++ pair_arguments levelled (pair_of role)) }
{
    let mut list = arguments;
    if levelled {
        push_expression(&mut list, left_argument(alloc, role)?)?;
        push_expression(&mut list, right_argument(alloc, role)?)?;
    }
    Ok(list)
}

/// The own rule of the pass of levels: nothing is asked of what a call derives.
#[derive(Drop)]
struct Unasked<'a, 'b> {
    table: &'a BTreeMap<&'b str, bool>,
}

impl<'a, 'b> OwnRule for Unasked<'a, 'b> {
    ghost use Rattle.ig_levels.specs.Roles.{unasked};
    ghost use Rattle.ig_levels.specs.Tables.{levelled_by};

    ghost rule = { λ s decl x. unasked (levelled_by s.table.now) x };

    fn apply(&self, alloc: Global, _decl: &Decl, symbol: Symbol) -> Result<Symbol, AllocError> {
        ask_nothing(alloc, self.table, symbol)
    }
}

/// The symbol, whose call has the two arguments that ask for nothing.
#[cycle(asking)]
fn ask_nothing(
    alloc: Global,
    table: &BTreeMap<&str, bool>,
    symbol: Symbol,
) -> Result<Symbol, AllocError>
    ensures { IfOk result (λ r. symbol_of r ≡ unasked (levelled_by table.now) (symbol_of symbol)) }
{
    match symbol {
        Symbol::Call(name, arguments) => call_unasked(alloc, table, name, arguments),
        Symbol::Label(name, inner) => Ok(Symbol::Label(name, ask_nothing_of(alloc, table, inner)?)),
        Symbol::Offside(inner) => Ok(Symbol::Offside(ask_nothing_of(alloc, table, inner)?)),
        Symbol::Ignore(inner) => Ok(Symbol::Ignore(ask_nothing_of(alloc, table, inner)?)),
        Symbol::Align(inner) => Ok(Symbol::Align(ask_nothing_of(alloc, table, inner)?)),
        Symbol::Filtered(inner, filters) => match ask_nothing_of(alloc, table, inner) {
            Ok(inner) => Ok(Symbol::Filtered(inner, filters)),
            Err(refused) => {
                drop(filters);
                Err(refused)
            }
        },
        Symbol::Entry(bindings, inner) => match ask_nothing_of(alloc, table, inner) {
            Ok(inner) => Ok(Symbol::Entry(bindings, inner)),
            Err(refused) => {
                drop(bindings);
                Err(refused)
            }
        },
        other => Ok(other),
    }
}

/// The call, with the two arguments that ask for nothing where it is levelled.
fn call_unasked(
    alloc: Global,
    table: &BTreeMap<&str, bool>,
    name: Word,
    arguments: Exprs,
) -> Result<Symbol, AllocError>
    ensures { IfOk result (λ r. symbol_of r ≡
        unasked (levelled_by table.now) (Call name arguments)) }
{
    let levelled = names_levelled(table, &name);
    match add_bounds(alloc, arguments, levelled, Role::nested()) {
        Ok(arguments) => Ok(Symbol::Call(name, arguments)),
        Err(refused) => {
            drop(name);
            Err(refused)
        }
    }
}

/// What the symbol is directly round.
#[cycle(asking)]
fn ask_nothing_of(
    alloc: Global,
    table: &BTreeMap<&str, bool>,
    inner: Inner,
) -> Result<Inner, AllocError>
    ensures { IfOk result (λ r. r ≡ unasked (levelled_by table.now) inner) }
{
    Inner::new(alloc, ask_nothing(alloc, table, inner.into_symbol())?)
}

/// The symbol of an alternative, with the two arguments of its role where it is a call, or a label
/// round one. Refused for want of memory alone.
pub fn with_bounds(
    alloc: Global,
    table: &BTreeMap<&str, bool>,
    decl: &Decl,
    symbol: &Symbol,
    role: Role,
) -> Result<Symbol, AllocError>
    ensures { IfOk result (λ r. symbol_of r ≡
        with_pair (levelled_by table.now) (pair_of role) (symbol_of symbol.now)) }
{
    match symbol {
        Symbol::Call(name, arguments) => {
            let levelled = names_levelled(table, name);
            let arguments = add_bounds(alloc, arguments.copy(alloc)?, levelled, role)?;
            called(alloc, name, arguments)
        }
        Symbol::Label(name, inner) => {
            let inner = with_bounds(alloc, table, decl, inner.as_symbol(), role)?;
            labelled(alloc, name, Inner::new(alloc, inner)?)
        }
        _ => rewrite_symbol(&Unasked { table }, alloc, decl, symbol),
    }
}

/// A call of the nonterminal with the arguments.
fn called(alloc: Global, name: &Word, arguments: Exprs) -> Result<Symbol, AllocError>
    ensures { IfOk result (λ r. symbol_of r ≡ Call name.now arguments) }
{
    match name.copy(alloc) {
        Ok(name) => Ok(Symbol::Call(name, arguments)),
        Err(refused) => {
            drop(arguments);
            Err(refused)
        }
    }
}
