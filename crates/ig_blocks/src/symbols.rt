//! What the pass makes of symbols.
ghost use Rattle.std.specs.Prelude.{◌≡◌, map, IfOk, false};
ghost use Rattle.ig_grammar.specs.View.{symbol_of};
ghost use Rattle.ig_blocks_parts.specs.Setting.{inner, wrapped};
ghost use Rattle.ig_blocks_parts.specs.Body.{tests_of, body_of};
ghost use Rattle.ig_blocks_parts.specs.Blocks.{symbols_by, alternative_by};
ghost use Rattle.ig_blocks_parts.specs.ColumnCode.{pair_of, setting_by};
ghost use Rattle.ig_blocks_parts.specs.FormCode.{item_by};

use ig_blocks_parts::{
    Guide, Pair, all_are_gathered, behind_tests, both, called, cleared_by, entered_again,
    entered_by, inner_of, item_of, opened_by, optional, repeated, starred,
};
use ig_grammar::{Alt, Alts, Inner, Symbol, Symbols};
use ig_pass::{filtered, labelled, push_alternative, push_symbol};
use ig_text::Copied;
use std::alloc::{AllocError, Global};

/// A symbol under a pair, without its tests; a list under `align` is aligned. What is made of a
/// form, from what is inside it, `ig_blocks_parts` says.
#[cycle(bodies)]
fn body(
    symbol: &Symbol,
    aligned: bool,
    alloc: Global,
    guide: &Guide<'_>,
    pair: &Pair,
) -> Result<Symbol, AllocError>
    ensures { IfOk result (λ r. symbol_of r ≡
        body_of (setting_by guide.now) aligned (pair_of pair.now) (symbol_of symbol.now)) }
{
    match symbol {
        Symbol::Literal(_) => symbol.copy(alloc),
        Symbol::Class(_) => symbol.copy(alloc),
        Symbol::Call(name, arguments) => called(alloc, guide, pair, name, arguments),
        Symbol::Label(name, inner) => {
            labelled(alloc, name, body_inner(inner, false, alloc, guide, pair)?)
        }
        Symbol::Guard(_) => symbol.copy(alloc),
        Symbol::Let(_, _) => symbol.copy(alloc),
        Symbol::Opt(inner) => {
            let item = inside(inner, alloc, guide, pair)?;
            optional(alloc, guide, pair, inner.as_symbol(), item)
        }
        Symbol::Star(inner) => {
            let item = inside(inner, alloc, guide, pair)?;
            starred(alloc, guide, pair, aligned, inner.as_symbol(), item)
        }
        Symbol::Plus(inner) => {
            let item = inside(inner, alloc, guide, pair)?;
            repeated(alloc, guide, pair, aligned, inner.as_symbol(), item)
        }
        Symbol::SepStar(inner, separator) => {
            let item = inside(inner, alloc, guide, pair)?;
            let head = item_of(alloc, guide, pair, aligned, inner.as_symbol(), item)?;
            let (first, second) = with_separator(separator, alloc, guide, pair, head)?;
            entered_by(alloc, guide, pair, aligned, Symbol::SepStar(first, second))
        }
        Symbol::SepPlus(inner, separator) => {
            let item = inside(inner, alloc, guide, pair)?;
            let head = item_of(alloc, guide, pair, aligned, inner.as_symbol(), item)?;
            let (first, second) = with_separator(separator, alloc, guide, pair, head)?;
            entered_by(alloc, guide, pair, aligned, Symbol::SepPlus(first, second))
        }
        Symbol::Group(alternatives) => {
            all_are_gathered();
            let lowered = choices_inside(alternatives, alloc, guide, pair)?;
            entered_by(alloc, guide, pair, false, Symbol::Group(lowered))
        }
        Symbol::Offside(inner) => {
            let pair = opened_by(alloc, guide, pair)?;
            let made = body(inner.as_symbol(), aligned, alloc, guide, &pair);
            drop(pair);
            made
        }
        Symbol::Ignore(inner) => {
            let pair = cleared_by(pair);
            let made = body(inner.as_symbol(), aligned, alloc, guide, &pair);
            drop(pair);
            made
        }
        Symbol::Align(inner) => body(inner.as_symbol(), true, alloc, guide, pair),
        Symbol::Filtered(inner, filters) => {
            filtered(
                alloc,
                body_inner(inner, aligned, alloc, guide, pair)?,
                filters,
            )
        }
        Symbol::Seq(symbols) => {
            all_are_gathered();
            Ok(Symbol::Seq(sequence(symbols, alloc, guide, pair)?))
        }
        Symbol::Entry(bindings, inner) => {
            let made = inside(inner, alloc, guide, pair)?;
            entered_again(alloc, guide, pair, bindings, made)
        }
    }
}

/// A symbol inside another one.
#[cycle(bodies)]
fn body_inner(
    inner: &Inner,
    aligned: bool,
    alloc: Global,
    guide: &Guide<'_>,
    pair: &Pair,
) -> Result<Inner, AllocError>
    ensures { IfOk result (λ r.
        r ≡ body_of (setting_by guide.now) aligned (pair_of pair.now) inner.now) }
{
    Inner::new(alloc, body(inner.as_symbol(), aligned, alloc, guide, pair)?)
}

/// A symbol inside a list, an option, a group or an entry, under the pair there.
#[cycle(bodies)]
fn inside(part: &Inner, alloc: Global, guide: &Guide<'_>, pair: &Pair) -> Result<Symbol, AllocError>
    ensures { IfOk result (λ r. symbol_of r ≡
        body_of (setting_by guide.now) false (inner (pair_of pair.now)) part.now) }
{
    let within = inner_of(pair);
    let made = body(part.as_symbol(), false, alloc, guide, &within);
    drop(within);
    made
}

/// The item of a list, which is made already, and its separator, with its tests.
#[cycle(bodies)]
fn with_separator(
    separator: &Inner,
    alloc: Global,
    guide: &Guide<'_>,
    pair: &Pair,
    first: Inner,
) -> Result<(Inner, Inner), AllocError>
    ensures { IfOk result (λ r. r ≡ (
      first,
      item_by (setting_by guide.now) false
          (pair_of pair.now) separator.now
          (body_of (setting_by guide.now) false (inner (pair_of pair.now)) separator.now),
    )) }
{
    match inside(separator, alloc, guide, pair) {
        Ok(between) => both(alloc, guide, pair, first, separator.as_symbol(), between),
        Err(refused) => {
            drop(first);
            Err(refused)
        }
    }
}

/// A symbol of a sequence, with its tests.
#[cycle(bodies)]
fn in_sequence(
    symbol: &Symbol,
    alloc: Global,
    guide: &Guide<'_>,
    pair: &Pair,
) -> Result<Symbol, AllocError>
    ensures { IfOk result (λ r. symbol_of r ≡
        wrapped (tests_of (setting_by guide.now) (pair_of pair.now) (symbol_of symbol.now))
        (body_of (setting_by guide.now) false (pair_of pair.now) (symbol_of symbol.now))) }
{
    let made = body(symbol, false, alloc, guide, pair)?;
    behind_tests(alloc, guide, pair, false, symbol, made)
}

/// The symbols of a sequence.
#[cycle(bodies)]
fn sequence(
    symbols: &Symbols,
    alloc: Global,
    guide: &Guide<'_>,
    pair: &Pair,
) -> Result<Symbols, AllocError>
    ensures { IfOk result (λ r.
        r ≡ symbols_by (setting_by guide.now) (pair_of pair.now) symbols.now) }
{
    let mut done = Symbols::new(alloc);
    for symbol in symbols.as_slice() {
        push_symbol(&mut done, in_sequence(symbol, alloc, guide, pair)?)?;
    }
    Ok(done)
}

/// An alternative.
#[cycle(bodies)]
fn alternative(
    alternative: &Alt,
    alloc: Global,
    guide: &Guide<'_>,
    pair: &Pair,
) -> Result<Alt, AllocError>
    ensures { IfOk result (λ r.
        r ≡ alternative_by (setting_by guide.now) (pair_of pair.now) alternative.now) }
{
    let symbols = sequence(&alternative.symbols, alloc, guide, pair)?;
    Ok(Alt { symbols })
}

/// The alternatives of a group, or of a level.
#[cycle(bodies)]
pub(crate) fn choices(
    alternatives: &Alts,
    alloc: Global,
    guide: &Guide<'_>,
    pair: &Pair,
) -> Result<Alts, AllocError>
    ensures { IfOk result (λ r. r ≡
        map (alternative_by (setting_by guide.now) (pair_of pair.now)) alternatives.now) }
{
    let mut done = Alts::new(alloc);
    for cell in alternatives.as_slice() {
        push_alternative(&mut done, alternative(cell, alloc, guide, pair)?)?;
    }
    Ok(done)
}

/// The alternatives of a group, under the pair there.
#[cycle(bodies)]
fn choices_inside(
    alternatives: &Alts,
    alloc: Global,
    guide: &Guide<'_>,
    pair: &Pair,
) -> Result<Alts, AllocError>
    ensures { IfOk result (λ r. r ≡
        map (alternative_by (setting_by guide.now) (inner (pair_of pair.now))) alternatives.now) }
{
    let within = inner_of(pair);
    let made = choices(alternatives, alloc, guide, &within);
    drop(within);
    made
}
