//! Which variables a symbol wants, and which it adds for those to its right.
ghost use Rattle.std.specs.Prelude.{◌≡◌, ◌&&◌, if◌then◌else◌, not, ◌∷◌, [], ◌++◌, IfOk, OnOk};
ghost use Rattle.ig_grammar.specs.View.{symbol_of};
ghost use Rattle.ig_grammar.specs.Symbol.{gathered};
ghost use Rattle.ig_grammar.specs.Visible.{parameters, binds, all_bind};
ghost use Rattle.ig_pass.specs.Needs.{is_added, needs};
ghost use Rattle.ig_ebnf_variables.specs.Lists.{keep, params_for};

use crate::wanting::{is_added, needs};
use ig_expr::Kind;
use ig_grammar::{Param, Params, Symbol, Symbols, Variables};
use ig_text::{Copied, Word};
use std::alloc::{AllocError, Global};

/// The parameters for what stands for the symbol: those that it wants of these variables,
/// variables of the source first, then those that passes added. Refused for want of memory alone.
pub fn params_for(
    alloc: Global,
    variables: &Variables,
    symbol: &Symbol,
) -> Result<Params, AllocError>
    ensures { IfOk result (λ r.
        parameters r ≡ params_for variables.now (λ n. needs n (symbol_of symbol.now))) }
{
    let mut params = Params::new(alloc);
    keep_wanted(alloc, variables, symbol, &mut params)?;
    Ok(params)
}

/// Adds the variables that the symbol wants, those of the source first.
fn keep_wanted(
    alloc: Global,
    variables: &Variables,
    symbol: &Symbol,
    params: &mut Params,
) -> Result<(), AllocError>
    ensures { OnOk result (parameters params.new ≡ parameters params.old ++
        params_for variables.now (λ n. needs n (symbol_of symbol.now))) }
{
    keep(alloc, variables, false, symbol, params)?;
    keep(alloc, variables, true, symbol, params)
}

/// Adds the variables that the symbol wants of those that passes added, or of the others.
fn keep(
    alloc: Global,
    variables: &Variables,
    added: bool,
    symbol: &Symbol,
    params: &mut Params,
) -> Result<(), AllocError>
    ensures { OnOk result (parameters params.new ≡ parameters params.old ++
        keep (λ n. (if added then is_added n else not (is_added n)) &&
        needs n (symbol_of symbol.now)) variables.now) }
{
    let kinds = variables.kinds();
    for (place, name) in variables.names().iter().enumerate() {
        let wanted = wants(added, symbol, name);
        push_wanted(alloc, params, wanted, name, kinds[place])?;
    }
    Ok(())
}

/// Adds a parameter.
fn push_param(alloc: Global, params: &mut Params, name: &Word, kind: Kind) -> Result<(), AllocError>
    ensures { OnOk result
        (params.new ≡ params.old ++ record { name = name.now; kind = kind } ∷ []) }
{
    let name = name.copy(alloc)?;
    params
        .push(Param { name, kind })
        .map_err(|refused| refused.1)
}

/// Whether the symbol wants the variable, and a pass added it, or none did.
fn wants(added: bool, symbol: &Symbol, name: &Word) -> bool
    ensures { result ≡ ((if added then is_added name.now else not (is_added name.now)) &&
        needs name.now (symbol_of symbol.now)) }
{
    is_among(added, name) && needs(name, symbol)
}

/// Whether the variable is among those that passes added, or among the others.
fn is_among(added: bool, name: &Word) -> bool
    ensures { result ≡ (if added then is_added name.now else not (is_added name.now)) }
{
    if added {
        is_added(name)
    } else {
        !is_added(name)
    }
}

/// Adds the parameter where it is wanted.
fn push_wanted(
    alloc: Global,
    params: &mut Params,
    wanted: bool,
    name: &Word,
    kind: Kind,
) -> Result<(), AllocError>
    ensures { OnOk result (params.new ≡ params.old ++
        (if wanted then record { name = name.now; kind = kind } ∷ [] else [])) }
{
    if !wanted {
        return Ok(());
    }
    push_param(alloc, params, name, kind)
}

/// Adds what the symbol binds for the symbols to its right. Refused for want of memory alone.
#[cycle(binding)]
pub fn bind(alloc: Global, variables: &mut Variables, symbol: &Symbol) -> Result<(), AllocError>
    ensures { OnOk result
        (variables.new ≡ variables.old ++ binds variables.old (symbol_of symbol.now)) }
{
    match symbol {
        Symbol::Literal(_) => Ok(()),
        Symbol::Class(_) => Ok(()),
        Symbol::Call(_, _) => Ok(()),
        Symbol::Label(name, inner) => {
            bind(alloc, variables, inner.as_symbol())?;
            variables.bind(alloc, name, Kind::Span)
        }
        Symbol::Guard(_) => Ok(()),
        Symbol::Let(name, value) => match variables.kind_of(value) {
            Some(kind) => variables.bind(alloc, name, kind),
            None => Ok(()),
        },
        Symbol::Opt(_) => Ok(()),
        Symbol::Star(_) => Ok(()),
        Symbol::Plus(_) => Ok(()),
        Symbol::SepStar(_, _) => Ok(()),
        Symbol::SepPlus(_, _) => Ok(()),
        Symbol::Group(_) => Ok(()),
        Symbol::Offside(inner) => bind(alloc, variables, inner.as_symbol()),
        Symbol::Ignore(inner) => bind(alloc, variables, inner.as_symbol()),
        Symbol::Align(inner) => bind(alloc, variables, inner.as_symbol()),
        Symbol::Filtered(inner, _) => bind(alloc, variables, inner.as_symbol()),
        Symbol::Seq(symbols) => bind_each(alloc, variables, symbols),
        Symbol::Entry(_, _) => Ok(()),
    }
}

/// Adds what the symbols bind, each of which sees what those before it bind.
#[cycle(binding)]
fn bind_each(alloc: Global, variables: &mut Variables, symbols: &Symbols) -> Result<(), AllocError>
    ensures { OnOk result
        (variables.new ≡ variables.old ++ all_bind variables.old (gathered symbols.now)) }
{
    for symbol in symbols.as_slice() {
        bind(alloc, variables, symbol)?;
    }
    Ok(())
}
