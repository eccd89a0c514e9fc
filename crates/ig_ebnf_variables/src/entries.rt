//! Calls of added declarations.
ghost use Rattle.std.specs.Prelude.{◌≡◌, [], map, IfOk};
ghost use Rattle.ig_expr.specs.View.{expression_of};
ghost use Rattle.ig_grammar.specs.Binding.{binding_of};
ghost use Rattle.ig_grammar.specs.Symbol.{Call};
ghost use Rattle.ig_grammar.specs.View.{symbol_of};
ghost use Rattle.ig_grammar.specs.Visible.{parameters};
ghost use Rattle.ig_pass.specs.Added.{added_name};
ghost use Rattle.ig_pass.specs.Needs.{needs};
ghost use Rattle.ig_ebnf_variables.specs.Lists.{argument, arguments, entering};

use crate::variables::params_for;
use ig_expr::{Expr, Exprs};
use ig_grammar::{Lets, Param, Symbol, Variables};
use ig_pass::push_expression;
use ig_text::{Copied, Word};
use std::alloc::{AllocError, Global};

/// The name of the k-th declaration that is added for the declaration of this name. Refused for
/// want of memory alone.
pub fn added_name(alloc: Global, of: &Word, k: u64) -> Result<Word, AllocError>
    ensures { IfOk result (λ w. w ≡ added_name of.now k) }
{
    let text = format!(in alloc; "{}#{k}", of.as_str())?;
    Word::new(alloc, text.as_str())
}

/// The call of the k-th declaration that is added, which stands for the symbol, with the
/// bindings of its entry. Refused for want of memory alone.
pub fn entering(
    alloc: Global,
    of: &Word,
    variables: &Variables,
    k: u64,
    bindings: &Lets,
    symbol: &Symbol,
) -> Result<Symbol, AllocError>
    ensures { IfOk result (λ r. symbol_of r ≡
        entering of.now k bindings.now variables.now (λ n. needs n (symbol_of symbol.now))) }
{
    let params = params_for(alloc, variables, symbol)?;
    call(alloc, of, k, bindings, params.as_slice())
}

/// The call of the k-th declaration that is added, which stands for the symbol: a list, an option
/// or a group. Refused for want of memory alone.
pub fn entering_list(
    alloc: Global,
    of: &Word,
    variables: &Variables,
    k: u64,
    symbol: &Symbol,
) -> Result<Symbol, AllocError>
    ensures { IfOk result (λ r. symbol_of r ≡
        entering of.now k [] variables.now (λ n. needs n (symbol_of symbol.now))) }
{
    entering(alloc, of, variables, k, &Lets::new(alloc), symbol)
}

/// The call of the k-th declaration that is added, with an argument for each parameter. Refused for
/// want of memory alone.
pub fn call(
    alloc: Global,
    of: &Word,
    k: u64,
    bindings: &Lets,
    params: &[Param],
) -> Result<Symbol, AllocError>
    ensures { IfOk result (λ r. symbol_of r ≡
        Call (added_name of.now k) (arguments bindings.now (parameters params.now))) }
{
    let name = added_name(alloc, of, k)?;
    let arguments = arguments(alloc, bindings, params)?;
    Ok(Symbol::Call(name, arguments))
}

/// An argument for each parameter.
fn arguments(alloc: Global, bindings: &Lets, params: &[Param]) -> Result<Exprs, AllocError>
    ensures { IfOk result (λ r. r ≡ arguments bindings.now (parameters params.now)) }
{
    let mut all = Exprs::new(alloc);
    for param in params {
        push_expression(&mut all, argument(alloc, bindings.as_slice(), &param.name)?)?;
    }
    Ok(all)
}

/// The value of the first binding of the name, or else the variable of that name.
fn argument(alloc: Global, bindings: &[(Word, Expr)], name: &Word) -> Result<Expr, AllocError>
    ensures { IfOk result (λ e.
        expression_of e ≡ argument (map binding_of bindings.now) name.now) }
{
    for (bound, value) in bindings {
        if *bound == *name {
            return value.copy(alloc);
        }
    }
    Ok(Expr::Var(name.copy(alloc)?))
}
