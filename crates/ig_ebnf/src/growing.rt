//! The declarations that are added for a symbol: its own, then those of what stands inside it.
ghost use Rattle.std.specs.Prelude.{suc, ◌+◌, ◌∷◌, ◌++◌, OnOk};
ghost use Rattle.ig_grammar.specs.View.{symbol_of};
ghost use Rattle.ig_grammar.specs.Symbol.{gathered};
ghost use Rattle.ig_ebnf_variables.specs.Lists.{count, added, added_symbols, added_alts};
ghost use Rattle.ig_ebnf.specs.Made.{Grows, sep_plus_made};

use crate::made::{
    Lowered, Separated, push_group, push_option, push_plus, push_sep_plus, push_sep_star, push_star,
};
use ig_ebnf_variables::{bind, count, count_symbols, groups_are_gathered, successor, sum};
use ig_grammar::{Alts, Symbol, Symbols, Variables};
use ig_text::{Copied, Word};
use std::alloc::{AllocError, Global};

/// Adds the declarations for a symbol, the first of which is the k-th one.
#[cycle(growing)]
fn add(
    alloc: Global,
    of: &Word,
    variables: &Variables,
    k: u64,
    symbol: &Symbol,
    all: &mut Lowered,
) -> Result<(), AllocError>
    ensures { OnOk result
        (Grows all.old all.new (added of.now variables.now k (symbol_of symbol.now))) }
{
    match symbol {
        Symbol::Literal(_) => Ok(()),
        Symbol::Class(_) => Ok(()),
        Symbol::Call(_, _) => Ok(()),
        Symbol::Label(_, inner) => add(alloc, of, variables, k, inner.as_symbol(), all),
        Symbol::Guard(_) => Ok(()),
        Symbol::Let(_, _) => Ok(()),
        Symbol::Opt(inner) => {
            push_option(alloc, of, variables, k, symbol, inner, all)?;
            add(alloc, of, variables, successor(k)?, inner.as_symbol(), all)
        }
        Symbol::Star(inner) => {
            push_star(alloc, of, variables, k, symbol, inner, all)?;
            add(alloc, of, variables, successor(k)?, inner.as_symbol(), all)
        }
        Symbol::Plus(inner) => {
            push_plus(alloc, of, variables, k, symbol, inner, all)?;
            add(alloc, of, variables, successor(k)?, inner.as_symbol(), all)
        }
        Symbol::SepStar(item, separator) => {
            push_sep_star(alloc, of, variables, k, symbol, all)?;
            let list = Separated {
                whole: symbol,
                item,
                separator,
            };
            add_separated(alloc, of, variables, successor(k)?, &list, all)
        }
        Symbol::SepPlus(item, separator) => {
            let list = Separated {
                whole: symbol,
                item,
                separator,
            };
            add_separated(alloc, of, variables, k, &list, all)
        }
        Symbol::Group(choices) => {
            groups_are_gathered();
            push_group(alloc, of, variables, k, symbol, choices, all)?;
            add_alternatives(alloc, of, variables, successor(k)?, choices, all)
        }
        Symbol::Offside(inner) => add(alloc, of, variables, k, inner.as_symbol(), all),
        Symbol::Ignore(inner) => add(alloc, of, variables, k, inner.as_symbol(), all),
        Symbol::Align(inner) => add(alloc, of, variables, k, inner.as_symbol(), all),
        Symbol::Filtered(inner, _) => add(alloc, of, variables, k, inner.as_symbol(), all),
        Symbol::Seq(symbols) => add_each(alloc, of, variables, k, symbols, all),
        Symbol::Entry(bindings, inner) => {
            let replaced = variables.replaced(alloc, bindings)?;
            add(alloc, of, &replaced, k, inner.as_symbol(), all)
        }
    }
}

/// Adds the declaration for a separated list that isn't empty, then those for its item and its
/// separator.
#[cycle(growing)]
fn add_separated(
    alloc: Global,
    of: &Word,
    variables: &Variables,
    k: u64,
    list: &Separated,
    all: &mut Lowered,
) -> Result<(), AllocError>
    ensures { OnOk result (Grows all.old all.new
        (sep_plus_made of.now variables.now k (symbol_of list.now.whole.now) list.now.item.now
        list.now.separator.now ∷ (added of.now variables.now (suc k) list.now.item.now
        ++ added of.now variables.now (suc k + count list.now.item.now) list.now.separator.now))) }
{
    push_sep_plus(alloc, of, variables, k, list, all)?;
    let inside = successor(k)?;
    add(alloc, of, variables, inside, list.item.as_symbol(), all)?;
    let behind = sum(inside, count(list.item.as_symbol())?)?;
    let separator = list.separator.as_symbol();
    add(alloc, of, variables, behind, separator, all)
}

/// Adds the declarations for symbols, each of which sees what those before it bind.
#[cycle(growing)]
fn add_each(
    alloc: Global,
    of: &Word,
    variables: &Variables,
    k: u64,
    symbols: &Symbols,
    all: &mut Lowered,
) -> Result<(), AllocError>
    ensures { OnOk result
        (Grows all.old all.new (added_symbols of.now variables.now k (gathered symbols.now))) }
{
    let mut visible = variables.copy(alloc)?;
    let mut next = k;
    for symbol in symbols.as_slice() {
        add(alloc, of, &visible, next, symbol, all)?;
        next = sum(next, count(symbol)?)?;
        bind(alloc, &mut visible, symbol)?;
    }
    Ok(())
}

/// Adds the declarations for alternatives, none of which sees what the others bind.
#[cycle(growing)]
pub(crate) fn add_alternatives(
    alloc: Global,
    of: &Word,
    variables: &Variables,
    k: u64,
    alternatives: &Alts,
    all: &mut Lowered,
) -> Result<(), AllocError>
    ensures { OnOk result
        (Grows all.old all.new (added_alts of.now variables.now k alternatives.now)) }
{
    let mut next = k;
    for alternative in alternatives.as_slice() {
        add_each(alloc, of, variables, next, &alternative.symbols, all)?;
        next = sum(next, count_symbols(&alternative.symbols)?)?;
    }
    Ok(())
}
