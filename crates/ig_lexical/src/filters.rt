//! Follow and precede filters as guards.
ghost use Rattle.std.specs.Prelude.{◌≡◌, ◌↔◌, [], ◌∷◌, ◌++◌, map, if◌then◌else◌};
ghost use Rattle.std.specs.Prelude.{None, IfOk, IsTrue, OnOk};
ghost use Rattle.ig_grammar.specs.Checked.{FitShapes};
ghost use Rattle.ig_grammar.specs.Numbering.{layout_among};
ghost use Rattle.ig_grammar.specs.Symbol.{Guard, Label};
ghost use Rattle.ig_grammar.specs.View.{symbol_of};
ghost use Rattle.ig_grammar.specs.WellScoped.{IsWellScoped};
ghost use Rattle.ig_pass.specs.Sound.{IsSound, IsFree, IsUnmarked};
ghost use Rattle.ig_lexical.specs.Filters.{befores, afters, exclusions, with_filters};
ghost use Rattle.ig_lexical.specs.Filters.{guarded, attached, attached_of, FiltersOf};

use crate::laws::filters_keep;
use ig_expr::Expr;
use ig_grammar::{Checked, Decl, Filter, Filters, Inner, Symbol, Symbols};
use ig_pass::{OwnRule, copy_of_shapes, has_root, push_symbol, relabelled, rewrite_grammar, root};
use ig_text::{Copied, Word};
use std::alloc::{AllocError, Global};

/// The grammar with its follow and precede filters as guards, exactly as `specs/Filters.antt` says;
/// `$root` is its last declaration where none stood for the root. Refused for want of memory alone.
pub fn attach_filters(alloc: Global, checked: &Checked) -> Result<Checked, AllocError>
    requires sound { IsSound checked.now }
    requires free { IsFree checked.now.grammar }
    requires unmarked { IsUnmarked checked.now.grammar }
    requires no_layout { layout_among checked.now.grammar.decls ≡ None }
    ensures { IfOk result (λ r. r ≡ FiltersOf checked.now) }
{
    filters_keep();
    if has_root(checked) {
        return attach_rooted(alloc, checked);
    }
    let rooted = root(alloc, checked)?;
    attach_rooted(alloc, &rooted)
}

/// The grammar, in which a declaration stands for the root, with its filters as guards.
fn attach_rooted(alloc: Global, checked: &Checked) -> Result<Checked, AllocError>
    requires scoped { IsWellScoped (attached_of checked.now).grammar }
    requires fit { FitShapes (attached_of checked.now).grammar (attached_of checked.now).shapes }
    ensures { IfOk result (λ r. r ≡ attached_of checked.now) }
{
    let grammar = rewrite_grammar(&Attached {}, alloc, checked.grammar())?;
    let shapes = copy_of_shapes(alloc, checked)?;
    Ok(Checked::with_shapes(grammar, shapes))
}

/// The own rule of the filters pass.
struct Attached {}

impl OwnRule for Attached {
    ghost use Rattle.ig_lexical.specs.Filters.{attached};

    ghost rule = { λ s decl x. attached x };

    fn apply(&self, alloc: Global, _decl: &Decl, symbol: Symbol) -> Result<Symbol, AllocError> {
        attach(alloc, symbol)
    }
}

/// The symbol, whose follow and precede filters are guards behind and before it.
fn attach(alloc: Global, symbol: Symbol) -> Result<Symbol, AllocError>
    ensures { IfOk result (λ r. symbol_of r ≡ attached (symbol_of symbol)) }
{
    match symbol {
        Symbol::Label(name, inner) => attach_labelled(alloc, name, inner.into_symbol()),
        Symbol::Filtered(inner, filters) => {
            let excluded = exclude(alloc, inner, &filters)?;
            guard(alloc, &filters, excluded)
        }
        other => Ok(other),
    }
}

/// The symbol with a label, whose follow and precede filters are guards behind and before both.
fn attach_labelled(alloc: Global, name: Word, symbol: Symbol) -> Result<Symbol, AllocError>
    ensures { IfOk result (λ r. symbol_of r ≡ attached (Label name (symbol_of symbol))) }
{
    match symbol {
        Symbol::Filtered(inner, filters) => {
            let excluded = exclude(alloc, inner, &filters)?;
            let labelled = relabelled(alloc, name, excluded)?;
            guard(alloc, &filters, labelled)
        }
        other => relabelled(alloc, name, other),
    }
}

/// The symbol with the exclusions among the filters, where there are any.
fn exclude(alloc: Global, inner: Inner, filters: &Filters) -> Result<Symbol, AllocError>
    ensures { IfOk result (λ r. symbol_of r ≡ with_filters inner (exclusions filters.now)) }
{
    match exclusions(alloc, filters.as_slice()) {
        Ok(kept) => Ok(with_filters(inner, kept)),
        Err(refused) => {
            drop(inner);
            Err(refused)
        }
    }
}

/// The symbol with these filters, where there are any.
fn with_filters(inner: Inner, kept: Filters) -> Symbol
    ensures { symbol_of result ≡ with_filters inner kept }
{
    if kept.is_empty() {
        inner.into_symbol()
    } else {
        Symbol::Filtered(inner, kept)
    }
}

/// The exclusions among the filters.
fn exclusions(alloc: Global, filters: &[Filter]) -> Result<Filters, AllocError>
    ensures { IfOk result (λ r. r ≡ exclusions filters.now) }
{
    let mut kept = Filters::new(alloc);
    for filter in filters {
        match filter {
            Filter::NotFollowed(_) => {}
            Filter::NotPreceded(_) => {}
            Filter::Not(pattern) => {
                push_filter(&mut kept, Filter::Not(pattern.copy(alloc)?))?;
            }
        }
    }
    Ok(kept)
}

/// The symbol behind and before the guards that the filters make, in a sequence where there are
/// any.
fn guard(alloc: Global, filters: &Filters, symbol: Symbol) -> Result<Symbol, AllocError>
    ensures { IfOk result (λ r.
        symbol_of r ≡ guarded (befores filters.now) (afters filters.now) (symbol_of symbol)) }
{
    let filters = filters.as_slice();
    if excludes_only(filters) {
        return Ok(symbol);
    }
    // A call lets go of the symbol: where `?` does, its proof goes through all forms.
    let mut symbols = match guards_before(alloc, filters) {
        Ok(guards) => guards,
        Err(refused) => {
            drop(symbol);
            return Err(refused);
        }
    };
    push_symbol(&mut symbols, symbol)?;
    add_guards(alloc, false, filters, &mut symbols)?;
    Ok(Symbol::Seq(symbols))
}

/// Whether no filter makes a guard.
fn excludes_only(filters: &[Filter]) -> bool
    ensures { IsTrue result ↔ ((befores filters.now ≡ []) × (afters filters.now ≡ [])) }
{
    for filter in filters {
        match filter {
            Filter::NotFollowed(_) => return false,
            Filter::NotPreceded(_) => return false,
            Filter::Not(_) => {}
        }
    }
    true
}

/// The guards that stand before the symbol.
fn guards_before(alloc: Global, filters: &[Filter]) -> Result<Symbols, AllocError>
    ensures { IfOk result (λ r. r ≡ map Guard (befores filters.now)) }
{
    let mut symbols = Symbols::new(alloc);
    add_guards(alloc, true, filters, &mut symbols)?;
    Ok(symbols)
}

/// Adds the guards that stand before the symbol, or those that stand behind it.
fn add_guards(
    alloc: Global,
    before: bool,
    filters: &[Filter],
    symbols: &mut Symbols,
) -> Result<(), AllocError>
    ensures { OnOk result (symbols.new ≡ symbols.old ++
        map Guard (if before then befores filters.now else afters filters.now)) }
{
    if before {
        add_befores(alloc, filters, symbols)
    } else {
        add_afters(alloc, filters, symbols)
    }
}

/// Adds the guards that stand before the symbol.
fn add_befores(alloc: Global, filters: &[Filter], symbols: &mut Symbols) -> Result<(), AllocError>
    ensures { OnOk result (symbols.new ≡ symbols.old ++ map Guard (befores filters.now)) }
{
    for filter in filters {
        match filter {
            Filter::NotFollowed(_) => {}
            Filter::NotPreceded(pattern) => {
                let test = Expr::FreeBefore(pattern.copy(alloc)?);
                push_symbol(symbols, Symbol::Guard(test))?;
            }
            Filter::Not(_) => {}
        }
    }
    Ok(())
}

/// Adds the guards that stand behind the symbol.
fn add_afters(alloc: Global, filters: &[Filter], symbols: &mut Symbols) -> Result<(), AllocError>
    ensures { OnOk result (symbols.new ≡ symbols.old ++ map Guard (afters filters.now)) }
{
    for filter in filters {
        match filter {
            Filter::NotFollowed(pattern) => {
                let test = Expr::FreeAfter(pattern.copy(alloc)?);
                push_symbol(symbols, Symbol::Guard(test))?;
            }
            Filter::NotPreceded(_) => {}
            Filter::Not(_) => {}
        }
    }
    Ok(())
}

/// Adds the filter at the end.
fn push_filter(all: &mut Filters, filter: Filter) -> Result<(), AllocError>
    ensures { OnOk result (all.new ≡ all.old ++ filter ∷ []) }
{
    match all.push(filter) {
        Ok(()) => Ok(()),
        Err((refused, reason)) => {
            drop(refused);
            Err(reason)
        }
    }
}
