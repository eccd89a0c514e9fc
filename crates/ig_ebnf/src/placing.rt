//! What stands for a symbol, in place.
ghost use Rattle.std.specs.Prelude.{◌≡◌, ◌++◌, IfOk, OnOk};
ghost use Rattle.ig_grammar.specs.View.{symbol_of};
ghost use Rattle.ig_grammar.specs.Symbol.{gathered};
ghost use Rattle.ig_ebnf_variables.specs.Lists.{new_symbol, new, new_symbols, new_alts};

use ig_ebnf_variables::{bind, count, count_symbols, entering, entering_list, sum};
use ig_grammar::{Alt, Alts, Inner, Symbol, Symbols, Variables};
use ig_pass::{filtered, labelled, push_alternative, push_symbol};
use ig_text::{Copied, Word};
use std::alloc::{AllocError, Global};

/// What stands for a symbol that is no sequence: for a list, an option, a group or an entry the
/// call of the k-th declaration that is added.
fn new_symbol(
    alloc: Global,
    of: &Word,
    variables: &Variables,
    k: u64,
    symbol: &Symbol,
) -> Result<Symbol, AllocError>
    ensures { IfOk result (λ r.
        symbol_of r ≡ new_symbol of.now variables.now k (symbol_of symbol.now)) }
{
    match symbol {
        Symbol::Literal(_) => symbol.copy(alloc),
        Symbol::Class(_) => symbol.copy(alloc),
        Symbol::Call(_, _) => symbol.copy(alloc),
        Symbol::Label(name, inner) => {
            let inside = new_symbol(alloc, of, variables, k, inner.as_symbol())?;
            labelled(alloc, name, Inner::new(alloc, inside)?)
        }
        Symbol::Guard(_) => symbol.copy(alloc),
        Symbol::Let(_, _) => symbol.copy(alloc),
        Symbol::Opt(_) => entering_list(alloc, of, variables, k, symbol),
        Symbol::Star(_) => entering_list(alloc, of, variables, k, symbol),
        Symbol::Plus(_) => entering_list(alloc, of, variables, k, symbol),
        Symbol::SepStar(_, _) => entering_list(alloc, of, variables, k, symbol),
        Symbol::SepPlus(_, _) => entering_list(alloc, of, variables, k, symbol),
        Symbol::Group(_) => entering_list(alloc, of, variables, k, symbol),
        Symbol::Offside(_) => symbol.copy(alloc),
        Symbol::Ignore(_) => symbol.copy(alloc),
        Symbol::Align(_) => symbol.copy(alloc),
        Symbol::Filtered(inner, filters) => {
            let inside = new_symbol(alloc, of, variables, k, inner.as_symbol())?;
            filtered(alloc, Inner::new(alloc, inside)?, filters)
        }
        Symbol::Seq(_) => symbol.copy(alloc),
        Symbol::Entry(bindings, inner) => {
            let replaced = variables.replaced(alloc, bindings)?;
            entering(alloc, of, &replaced, k, bindings, inner.as_symbol())
        }
    }
}

/// Adds what stands for a symbol: the symbols of a sequence stand in place.
#[cycle(placing)]
pub(crate) fn push_new(
    alloc: Global,
    of: &Word,
    variables: &Variables,
    k: u64,
    symbol: &Symbol,
    all: &mut Symbols,
) -> Result<(), AllocError>
    ensures { OnOk result
        (all.new ≡ all.old ++ new of.now variables.now k (symbol_of symbol.now)) }
{
    match symbol {
        Symbol::Seq(symbols) => push_each(alloc, of, variables, k, symbols, all),
        _ => push_symbol(all, new_symbol(alloc, of, variables, k, symbol)?),
    }
}

/// Adds what stands for symbols, each of which sees what those before it bind.
#[cycle(placing)]
fn push_each(
    alloc: Global,
    of: &Word,
    variables: &Variables,
    k: u64,
    symbols: &Symbols,
    all: &mut Symbols,
) -> Result<(), AllocError>
    ensures { OnOk result
        (all.new ≡ all.old ++ new_symbols of.now variables.now k (gathered symbols.now)) }
{
    let mut visible = variables.copy(alloc)?;
    let mut next = k;
    for symbol in symbols.as_slice() {
        push_new(alloc, of, &visible, next, symbol, all)?;
        next = sum(next, count(symbol)?)?;
        bind(alloc, &mut visible, symbol)?;
    }
    Ok(())
}

/// What stands for a symbol.
pub(crate) fn new_part(
    alloc: Global,
    of: &Word,
    variables: &Variables,
    k: u64,
    symbol: &Symbol,
) -> Result<Symbols, AllocError>
    ensures { IfOk result (λ r. r ≡ new of.now variables.now k (symbol_of symbol.now)) }
{
    let mut all = Symbols::new(alloc);
    push_new(alloc, of, variables, k, symbol, &mut all)?;
    Ok(all)
}

/// An alternative, with what stands for its symbols.
fn new_alternative(
    alloc: Global,
    of: &Word,
    variables: &Variables,
    k: u64,
    alternative: &Alt,
) -> Result<Alt, AllocError>
    ensures { IfOk result (λ r.
        r ≡ record {
          symbols = new_symbols of.now variables.now k (gathered alternative.now.symbols);
        }) }
{
    let mut symbols = Symbols::new(alloc);
    push_each(alloc, of, variables, k, &alternative.symbols, &mut symbols)?;
    Ok(Alt { symbols })
}

/// Alternatives, with what stands for their symbols. The first declaration that is added for them
/// is the k-th one. Refused for want of memory alone.
pub fn new_alternatives(
    alloc: Global,
    of: &Word,
    variables: &Variables,
    k: u64,
    alternatives: &Alts,
) -> Result<Alts, AllocError>
    ensures { IfOk result (λ r. r ≡ new_alts of.now variables.now k alternatives.now) }
{
    let mut all = Alts::new(alloc);
    let mut next = k;
    for alternative in alternatives.as_slice() {
        let lowered = new_alternative(alloc, of, variables, next, alternative)?;
        push_alternative(&mut all, lowered)?;
        next = sum(next, count_symbols(&alternative.symbols)?)?;
    }
    Ok(all)
}

/// Adds copies of the symbols at the end.
pub(crate) fn push_copies(
    alloc: Global,
    all: &mut Symbols,
    symbols: &Symbols,
) -> Result<(), AllocError>
    ensures { OnOk result (all.new ≡ all.old ++ symbols.now) }
{
    for symbol in symbols.as_slice() {
        push_symbol(all, symbol.copy(alloc)?)?;
    }
    Ok(())
}
