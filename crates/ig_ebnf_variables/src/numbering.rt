//! How many declarations are added. What 64 bits don't hold is refused as want of memory.
ghost use Rattle.std.specs.Prelude.{◌≡◌, ◌≤◌, ◌+◌, suc, IfOk, OnErr};
ghost use Rattle.ig_grammar.specs.View.{symbol_of};
ghost use Rattle.ig_grammar.specs.Symbol.{gathered};
ghost use Rattle.ig_pass.specs.Added.{numbers_bound};
ghost use Rattle.ig_ebnf_variables.specs.Lists.{count, count_symbols, count_alts};

use crate::laws::groups_are_gathered;
use ig_grammar::{Alts, Inner, Symbol, Symbols};
use std::alloc::AllocError;

/// The sum. Refused, as want of memory, exactly where 64 bits don't hold it.
pub fn sum(a: u64, b: u64) -> Result<u64, AllocError>
    ensures number { IfOk result (λ s. s ≡ a + b) }
    ensures refused { OnErr result (numbers_bound ≤ a + b) }
{
    match a.checked_add(b) {
        Some(both) => Ok(both),
        None => Err(AllocError),
    }
}

/// The number behind this one. Refused, as want of memory, exactly where 64 bits don't hold it.
pub fn successor(k: u64) -> Result<u64, AllocError>
    ensures number { IfOk result (λ n. n ≡ suc k) }
    ensures refused { OnErr result (numbers_bound ≤ suc k) }
{
    sum(k, 1)
}

/// How many are added for a symbol. Refused, as want of memory, exactly where 64 bits don't hold
/// that.
#[cycle(numbering)]
pub fn count(symbol: &Symbol) -> Result<u64, AllocError>
    ensures number { IfOk result (λ n. n ≡ count (symbol_of symbol.now)) }
    ensures refused { OnErr result (numbers_bound ≤ count (symbol_of symbol.now)) }
{
    match symbol {
        Symbol::Literal(_) => Ok(0),
        Symbol::Class(_) => Ok(0),
        Symbol::Call(_, _) => Ok(0),
        Symbol::Label(_, inner) => count(inner.as_symbol()),
        Symbol::Guard(_) => Ok(0),
        Symbol::Let(_, _) => Ok(0),
        Symbol::Opt(inner) => successor(count(inner.as_symbol())?),
        Symbol::Star(inner) => successor(count(inner.as_symbol())?),
        Symbol::Plus(inner) => successor(count(inner.as_symbol())?),
        Symbol::SepStar(inner, separator) => {
            let one = successor(count_both(inner, separator)?)?;
            successor(one)
        }
        Symbol::SepPlus(inner, separator) => successor(count_both(inner, separator)?),
        Symbol::Group(choices) => {
            groups_are_gathered();
            successor(count_alternatives(choices)?)
        }
        Symbol::Offside(inner) => count(inner.as_symbol()),
        Symbol::Ignore(inner) => count(inner.as_symbol()),
        Symbol::Align(inner) => count(inner.as_symbol()),
        Symbol::Filtered(inner, _) => count(inner.as_symbol()),
        Symbol::Seq(symbols) => count_symbols(symbols),
        Symbol::Entry(_, inner) => count(inner.as_symbol()),
    }
}

/// How many are added for an item and its separator. Refused exactly where 64 bits don't hold that.
#[cycle(numbering)]
fn count_both(item: &Inner, separator: &Inner) -> Result<u64, AllocError>
    ensures number { IfOk result (λ n. n ≡ count item.now + count separator.now) }
    ensures refused { OnErr result (numbers_bound ≤ count item.now + count separator.now) }
{
    let items = count(item.as_symbol())?;
    sum(items, count(separator.as_symbol())?)
}

/// How many are added for symbols. Refused, as want of memory, exactly where 64 bits don't hold
/// that.
#[cycle(numbering)]
pub fn count_symbols(symbols: &Symbols) -> Result<u64, AllocError>
    ensures number { IfOk result (λ n. n ≡ count_symbols (gathered symbols.now)) }
    ensures refused { OnErr result (numbers_bound ≤ count_symbols (gathered symbols.now)) }
{
    let mut all = 0;
    for symbol in symbols.as_slice() {
        all = sum(all, count(symbol)?)?;
    }
    Ok(all)
}

/// How many are added for alternatives. Refused, as want of memory, exactly where 64 bits don't
/// hold that.
#[cycle(numbering)]
pub fn count_alternatives(alternatives: &Alts) -> Result<u64, AllocError>
    ensures number { IfOk result (λ n. n ≡ count_alts alternatives.now) }
    ensures refused { OnErr result (numbers_bound ≤ count_alts alternatives.now) }
{
    let mut all = 0;
    for alternative in alternatives.as_slice() {
        all = sum(all, count_symbols(&alternative.symbols)?)?;
    }
    Ok(all)
}
