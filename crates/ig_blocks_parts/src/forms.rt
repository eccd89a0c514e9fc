//! What the pass makes of a form, from what it made of the symbols inside it. Here a call lets go
//! of a symbol where memory lacks: where `?` does, its proof goes through all forms.
ghost use Rattle.std.specs.Prelude.{◌≡◌, [], ◌∷◌, ◌++◌, IfOk, OnOk, false};
ghost use Rattle.ig_grammar.specs.Symbol as tree;
ghost use Rattle.ig_grammar.specs.View.{symbol_of};
ghost use Rattle.ig_blocks_parts.specs.Setting.{m_of, f_of, inner, pair_bindings};
ghost use Rattle.ig_blocks_parts.specs.Setting.{column_guards, wrapped, entered};
ghost use Rattle.ig_blocks_parts.specs.Body.{tests_of, arguments_of};
ghost use Rattle.ig_blocks_parts.specs.ColumnCode.{pair_of, setting_by};
ghost use Rattle.ig_blocks_parts.specs.FormCode.{list_by, item_by};

use crate::guards::{behind, tests_before};
use crate::guide::{Guide, is_paired, kind_of};
use crate::pairs::{Pair, bindings_of, column_of, inner_of, push_pair, start_of};
use ig_expr::Exprs;
use ig_grammar::{Inner, Lets, Symbol};
use ig_pass::push_expression;
use ig_text::{Copied, Word};
use std::alloc::{AllocError, Global};

/// A call, with the pair where its declaration gets it. Refused for want of memory alone.
pub fn called(
    alloc: Global,
    guide: &Guide<'_>,
    pair: &Pair,
    name: &Word,
    arguments: &Exprs,
) -> Result<Symbol, AllocError>
    ensures { IfOk result (λ r. symbol_of r ≡ tree.Call name.now
        (arguments_of (setting_by guide.now) (pair_of pair.now)
        ((setting_by guide.now).kind_of name.now) arguments.now)) }
{
    let name_here = name.copy(alloc)?;
    Ok(Symbol::Call(
        name_here,
        arguments_of(alloc, guide, pair, name, arguments)?,
    ))
}

/// The arguments of a call, with the pair where its declaration gets it.
fn arguments_of(
    alloc: Global,
    guide: &Guide<'_>,
    pair: &Pair,
    name: &Word,
    arguments: &Exprs,
) -> Result<Exprs, AllocError>
    ensures { IfOk result (λ r. r ≡ arguments_of (setting_by guide.now) (pair_of pair.now)
        ((setting_by guide.now).kind_of name.now) arguments.now) }
{
    let mut all = arguments.copy(alloc)?;
    if let Some(kind) = kind_of(guide, name) {
        if is_paired(guide, kind) {
            push_values(alloc, guide, pair, &mut all)?;
        }
    }
    Ok(all)
}

/// Adds the values of the pair.
fn push_values(
    alloc: Global,
    guide: &Guide<'_>,
    pair: &Pair,
    all: &mut Exprs,
) -> Result<(), AllocError>
    ensures { OnOk result (all.new ≡ all.old ++ m_of (setting_by guide.now) (pair_of pair.now)
        ∷ f_of (setting_by guide.now) (pair_of pair.now) ∷ []) }
{
    push_expression(all, column_of(alloc, guide, pair)?)?;
    push_expression(all, start_of(alloc, guide, pair)?)
}

/// An option, of its item without tests. Refused for want of memory alone.
pub fn optional(
    alloc: Global,
    guide: &Guide<'_>,
    pair: &Pair,
    item: &Symbol,
    made: Symbol,
) -> Result<Symbol, AllocError>
    ensures { IfOk result (λ r. symbol_of r ≡ list_by (setting_by guide.now) false
        (pair_of pair.now) (tree.Opt (item_by (setting_by guide.now) false (pair_of pair.now)
        (symbol_of item.now) (symbol_of made)))) }
{
    let inner = item_of(alloc, guide, pair, false, item, made)?;
    entered_by(alloc, guide, pair, false, Symbol::Opt(inner))
}

/// A list that may be empty, of its item without tests. Refused for want of memory alone.
pub fn starred(
    alloc: Global,
    guide: &Guide<'_>,
    pair: &Pair,
    aligned: bool,
    item: &Symbol,
    made: Symbol,
) -> Result<Symbol, AllocError>
    ensures { IfOk result (λ r. symbol_of r ≡ list_by (setting_by guide.now) aligned
        (pair_of pair.now) (tree.Star (item_by (setting_by guide.now) aligned (pair_of pair.now)
        (symbol_of item.now) (symbol_of made)))) }
{
    let star = item_of(alloc, guide, pair, aligned, item, made)?;
    entered_by(alloc, guide, pair, aligned, Symbol::Star(star))
}

/// A list that isn't empty, of its item without tests. Refused for want of memory alone.
pub fn repeated(
    alloc: Global,
    guide: &Guide<'_>,
    pair: &Pair,
    aligned: bool,
    item: &Symbol,
    made: Symbol,
) -> Result<Symbol, AllocError>
    ensures { IfOk result (λ r. symbol_of r ≡ list_by (setting_by guide.now) aligned
        (pair_of pair.now) (tree.Plus (item_by (setting_by guide.now) aligned (pair_of pair.now)
        (symbol_of item.now) (symbol_of made)))) }
{
    let inner = item_of(alloc, guide, pair, aligned, item, made)?;
    entered_by(alloc, guide, pair, aligned, Symbol::Plus(inner))
}

/// The item of a list, and its separator, of the separator without tests. Refused for want of
/// memory alone.
pub fn both(
    alloc: Global,
    guide: &Guide<'_>,
    pair: &Pair,
    first: Inner,
    separator: &Symbol,
    made: Symbol,
) -> Result<(Inner, Inner), AllocError>
    ensures { IfOk result (λ r. r ≡ (
      first,
      item_by (setting_by guide.now) false
          (pair_of pair.now) (symbol_of separator.now) (symbol_of made),
    )) }
{
    match separator_of(alloc, guide, pair, separator, made) {
        Ok(second) => Ok((first, second)),
        Err(refused) => {
            drop(first);
            Err(refused)
        }
    }
}

/// An item, with its tests. Refused for want of memory alone.
pub fn item_of(
    alloc: Global,
    guide: &Guide<'_>,
    pair: &Pair,
    aligned: bool,
    item: &Symbol,
    made: Symbol,
) -> Result<Inner, AllocError>
    ensures { IfOk result (λ r. r ≡ item_by (setting_by guide.now) aligned (pair_of pair.now)
        (symbol_of item.now) (symbol_of made)) }
{
    let within = inner_of(pair);
    let tested = behind_tests(alloc, guide, &within, aligned, item, made);
    drop(within);
    Inner::new(alloc, tested?)
}

/// A separator, with its tests; it may stand in any column.
fn separator_of(
    alloc: Global,
    guide: &Guide<'_>,
    pair: &Pair,
    separator: &Symbol,
    made: Symbol,
) -> Result<Inner, AllocError>
    ensures { IfOk result (λ r. r ≡ item_by (setting_by guide.now) false (pair_of pair.now)
        (symbol_of separator.now) (symbol_of made)) }
{
    item_of(alloc, guide, pair, false, separator, made)
}

/// What was made of a symbol, behind the tests of the symbol. Refused for want of memory alone.
pub fn behind_tests(
    alloc: Global,
    guide: &Guide<'_>,
    pair: &Pair,
    aligned: bool,
    symbol: &Symbol,
    made: Symbol,
) -> Result<Symbol, AllocError>
    ensures { IfOk result (λ r. symbol_of r ≡ wrapped (column_guards (setting_by guide.now) aligned
        ++ tests_of (setting_by guide.now) (pair_of pair.now) (symbol_of symbol.now))
        (symbol_of made)) }
{
    match tests_before(alloc, guide, pair, aligned, symbol) {
        Ok(tests) => behind(tests, made),
        Err(refused) => {
            drop(made);
            Err(refused)
        }
    }
}

/// A list, an option or a group, with the bindings of the pair where it changes. Refused for want
/// of memory alone.
pub fn entered_by(
    alloc: Global,
    guide: &Guide<'_>,
    pair: &Pair,
    aligned: bool,
    symbol: Symbol,
) -> Result<Symbol, AllocError>
    ensures { IfOk result (λ r. symbol_of r ≡
        list_by (setting_by guide.now) aligned (pair_of pair.now) (symbol_of symbol)) }
{
    match bindings_of(alloc, guide, pair, aligned) {
        Ok(bindings) => under(alloc, bindings, symbol),
        Err(refused) => {
            drop(symbol);
            Err(refused)
        }
    }
}

/// An entry, with the bindings of the pair behind its own. Refused for want of memory alone.
pub fn entered_again(
    alloc: Global,
    guide: &Guide<'_>,
    pair: &Pair,
    bindings: &Lets,
    symbol: Symbol,
) -> Result<Symbol, AllocError>
    ensures { IfOk result (λ r. symbol_of r ≡ tree.Entry
        (bindings.now ++ pair_bindings (setting_by guide.now) (pair_of pair.now))
        (symbol_of symbol)) }
{
    match with_pair(alloc, guide, pair, bindings) {
        Ok(all) => entry(alloc, all, symbol),
        Err(refused) => {
            drop(symbol);
            Err(refused)
        }
    }
}

/// The bindings, with those of the pair.
fn with_pair(
    alloc: Global,
    guide: &Guide<'_>,
    pair: &Pair,
    bindings: &Lets,
) -> Result<Lets, AllocError>
    ensures { IfOk result (λ r.
        r ≡ bindings.now ++ pair_bindings (setting_by guide.now) (pair_of pair.now)) }
{
    let mut all = bindings.copy(alloc)?;
    push_pair(alloc, guide, pair, &mut all)?;
    Ok(all)
}

/// A symbol with bindings, where there are any.
fn under(alloc: Global, bindings: Lets, symbol: Symbol) -> Result<Symbol, AllocError>
    ensures { IfOk result (λ r. symbol_of r ≡ entered bindings (symbol_of symbol)) }
{
    if bindings.as_slice().is_empty() {
        drop(bindings);
        return Ok(symbol);
    }
    entry(alloc, bindings, symbol)
}

/// A symbol with bindings.
fn entry(alloc: Global, bindings: Lets, symbol: Symbol) -> Result<Symbol, AllocError>
    ensures { IfOk result (λ r. symbol_of r ≡ tree.Entry bindings (symbol_of symbol)) }
{
    match Inner::new(alloc, symbol) {
        Ok(inner) => Ok(Symbol::Entry(bindings, inner)),
        Err(refused) => {
            drop(bindings);
            Err(refused)
        }
    }
}
