//! A grammar each of whose symbols is rewritten by a pass's own rule.
ghost use Rattle.std.specs.Prelude.{◌≡◌, map, IfOk};
ghost use Rattle.ig_grammar.specs.Symbol.{Entry, Filtered, Label, SepStar};
ghost use Rattle.ig_grammar.specs.View.{symbol_of};
ghost use Rattle.ig_pass.specs.Rewriting.{within, rewritten, rewritten_alternative};
ghost use Rattle.ig_pass.specs.Rewriting.{rewritten_level, rewritten_declaration};
ghost use Rattle.ig_pass.specs.Rewriting.{rewritten_grammar};

use crate::growing::{copy_of_start, push_alternative, push_declaration, push_level, push_symbol};
use ig_grammar::{
    Alt, Alts, Decl, Decls, Filters, Grammar, Inner, Lets, Level, Levels, Symbol, Symbols,
};
use ig_text::{Copied, Word};
use std::alloc::{AllocError, Global};

/// A pass's own rule, for a symbol whose parts are rewritten already.
pub trait OwnRule {
    ghost use Rattle.ig_grammar.specs.Symbol as tree;
    ghost use Rattle.ig_grammar.specs.declared.declaration.Decl as declared;

    /// What becomes of a symbol of the declaration.
    ghost rule: { Self → declared.Decl → tree.Symbol → tree.Symbol };

    /// What becomes of the symbol of the declaration. Refused for want of memory alone.
    fn apply(&self, alloc: Global, decl: &Decl, symbol: Symbol) -> Result<Symbol, AllocError>
        ensures { IfOk result (λ r. symbol_of r ≡ rule self.now decl.now (symbol_of symbol)) };
}

/// The symbol of the declaration, rewritten by the pass's own rule, for a pass that changes more of
/// an alternative than its symbols. Refused for want of memory alone.
#[cycle(rewriting)]
pub fn rewrite_symbol<O: OwnRule>(
    own: &O,
    alloc: Global,
    decl: &Decl,
    symbol: &Symbol,
) -> Result<Symbol, AllocError>
    ensures { IfOk result (λ r.
        symbol_of r ≡ rewritten (O.rule own.now decl.now) (symbol_of symbol.now)) }
{
    let within = symbol_within(own, alloc, decl, symbol)?;
    applied(own, alloc, decl, within)
}

/// The symbol of the declaration, whose parts are rewritten, by the pass's own rule.
fn applied<O: OwnRule>(
    own: &O,
    alloc: Global,
    decl: &Decl,
    within: Symbol,
) -> Result<Symbol, AllocError>
    ensures { IfOk result (λ r.
        symbol_of r ≡ O.rule own.now decl.now (symbol_of within)) }
{
    own.apply(alloc, decl, within)
}

/// The symbol of the declaration, in whose parts each symbol is rewritten.
#[cycle(rewriting)]
fn symbol_within<O: OwnRule>(
    own: &O,
    alloc: Global,
    decl: &Decl,
    symbol: &Symbol,
) -> Result<Symbol, AllocError>
    ensures { IfOk result (λ r.
        symbol_of r ≡ within (O.rule own.now decl.now) (symbol_of symbol.now)) }
{
    match symbol {
        Symbol::Literal(_) => symbol.copy(alloc),
        Symbol::Class(_) => symbol.copy(alloc),
        Symbol::Call(_, _) => symbol.copy(alloc),
        Symbol::Label(name, inner) => {
            labelled(alloc, name, inner_within(own, alloc, decl, inner)?)
        }
        Symbol::Guard(_) => symbol.copy(alloc),
        Symbol::Let(_, _) => symbol.copy(alloc),
        Symbol::Opt(inner) => Ok(Symbol::Opt(rewritten_inner(own, alloc, decl, inner)?)),
        Symbol::Star(inner) => Ok(Symbol::Star(rewritten_inner(own, alloc, decl, inner)?)),
        Symbol::Plus(inner) => Ok(Symbol::Plus(rewritten_inner(own, alloc, decl, inner)?)),
        Symbol::SepStar(inner, separator) => {
            let inner = rewritten_inner(own, alloc, decl, inner)?;
            match rewritten_inner(own, alloc, decl, separator) {
                Ok(separator) => Ok(separated(inner, separator)),
                Err(refused) => {
                    drop(inner);
                    Err(refused)
                }
            }
        }
        Symbol::SepPlus(inner, separator) => {
            let inner = rewritten_inner(own, alloc, decl, inner)?;
            match rewritten_inner(own, alloc, decl, separator) {
                Ok(separator) => Ok(Symbol::SepPlus(inner, separator)),
                Err(refused) => {
                    drop(inner);
                    Err(refused)
                }
            }
        }
        Symbol::Group(choices) => {
            Ok(Symbol::Group(rewritten_alternatives(own, alloc, decl, choices)?))
        }
        Symbol::Offside(inner) => Ok(Symbol::Offside(inner_within(own, alloc, decl, inner)?)),
        Symbol::Ignore(inner) => Ok(Symbol::Ignore(inner_within(own, alloc, decl, inner)?)),
        Symbol::Align(inner) => Ok(Symbol::Align(inner_within(own, alloc, decl, inner)?)),
        Symbol::Filtered(inner, filters) => {
            filtered(alloc, inner_within(own, alloc, decl, inner)?, filters)
        }
        Symbol::Seq(symbols) => Ok(Symbol::Seq(rewritten_sequence(own, alloc, decl, symbols)?)),
        Symbol::Entry(bindings, inner) => {
            entered(alloc, bindings, inner_within(own, alloc, decl, inner)?)
        }
    }
}

/// A list that may be empty, of the item and the separator.
fn separated(item: Inner, separator: Inner) -> Symbol
    ensures { symbol_of result ≡ SepStar item separator }
{
    Symbol::SepStar(item, separator)
}

/// The symbol with the label. Refused for want of memory alone.
///
/// Here and below a call lets go of the symbol where memory lacks: where `?` does, its proof goes
/// through all forms.
pub fn labelled(alloc: Global, name: &Word, inner: Inner) -> Result<Symbol, AllocError>
    ensures { IfOk result (λ r. symbol_of r ≡ Label name.now inner) }
{
    match name.copy(alloc) {
        Ok(name) => Ok(Symbol::Label(name, inner)),
        Err(refused) => {
            drop(inner);
            Err(refused)
        }
    }
}

/// The symbol, which a pass made of what stood inside a label, with that label. Refused for want of
/// memory alone.
pub fn relabelled(alloc: Global, name: Word, inside: Symbol) -> Result<Symbol, AllocError>
    ensures { IfOk result (λ r. symbol_of r ≡ Label name (symbol_of inside)) }
{
    let inner = Inner::new(alloc, inside)?;
    Ok(Symbol::Label(name, inner))
}

/// The symbol with the filters. Refused for want of memory alone.
pub fn filtered(alloc: Global, inner: Inner, filters: &Filters) -> Result<Symbol, AllocError>
    ensures { IfOk result (λ r. symbol_of r ≡ Filtered inner filters.now) }
{
    match filters.copy(alloc) {
        Ok(filters) => Ok(Symbol::Filtered(inner, filters)),
        Err(refused) => {
            drop(inner);
            Err(refused)
        }
    }
}

/// The symbol with the bindings on its entry.
fn entered(alloc: Global, bindings: &Lets, inner: Inner) -> Result<Symbol, AllocError>
    ensures { IfOk result (λ r. symbol_of r ≡ Entry bindings.now inner) }
{
    match bindings.copy(alloc) {
        Ok(bindings) => Ok(Symbol::Entry(bindings, inner)),
        Err(refused) => {
            drop(inner);
            Err(refused)
        }
    }
}

/// A symbol inside another, rewritten.
#[cycle(rewriting)]
fn rewritten_inner<O: OwnRule>(
    own: &O,
    alloc: Global,
    decl: &Decl,
    inner: &Inner,
) -> Result<Inner, AllocError>
    ensures { IfOk result (λ r. r ≡ rewritten (O.rule own.now decl.now) inner.now) }
{
    Inner::new(alloc, rewrite_symbol(own, alloc, decl, inner.as_symbol())?)
}

/// A symbol inside another, in whose parts each symbol is rewritten.
#[cycle(rewriting)]
fn inner_within<O: OwnRule>(
    own: &O,
    alloc: Global,
    decl: &Decl,
    inner: &Inner,
) -> Result<Inner, AllocError>
    ensures { IfOk result (λ r. r ≡ within (O.rule own.now decl.now) inner.now) }
{
    Inner::new(alloc, symbol_within(own, alloc, decl, inner.as_symbol())?)
}

/// The symbols, each rewritten.
#[cycle(rewriting)]
fn rewritten_sequence<O: OwnRule>(
    own: &O,
    alloc: Global,
    decl: &Decl,
    symbols: &Symbols,
) -> Result<Symbols, AllocError>
    ensures { IfOk result (λ r. r ≡ map (rewritten (O.rule own.now decl.now)) symbols.now) }
{
    let mut all = Symbols::new(alloc);
    for symbol in symbols.as_slice() {
        push_symbol(&mut all, rewrite_symbol(own, alloc, decl, symbol)?)?;
    }
    Ok(all)
}

/// The alternatives, each symbol of which is rewritten.
#[cycle(rewriting)]
fn rewritten_alternatives<O: OwnRule>(
    own: &O,
    alloc: Global,
    decl: &Decl,
    choices: &Alts,
) -> Result<Alts, AllocError>
    ensures { IfOk result (λ r.
        r ≡ map (rewritten_alternative (O.rule own.now decl.now)) choices.now) }
{
    let mut all = Alts::new(alloc);
    for choice in choices.as_slice() {
        let symbols = rewritten_sequence(own, alloc, decl, &choice.symbols)?;
        push_alternative(&mut all, Alt { symbols })?;
    }
    Ok(all)
}

/// The grammar, each symbol of which is rewritten by the pass's own rule. Refused for want of
/// memory alone.
pub fn rewrite_grammar<O: OwnRule>(
    own: &O,
    alloc: Global,
    grammar: &Grammar,
) -> Result<Grammar, AllocError>
    ensures { IfOk result (λ r. r ≡ rewritten_grammar (O.rule own.now) grammar.now) }
{
    let mut decls = Decls::new(alloc);
    for decl in grammar.decls.as_slice() {
        push_declaration(&mut decls, rewrite_declaration(own, alloc, decl)?)?;
    }
    let start = copy_of_start(alloc, &grammar.start)?;
    Ok(Grammar {
        start,
        tabs: grammar.tabs,
        decls,
    })
}

/// The declaration, each symbol of which is rewritten.
fn rewrite_declaration<O: OwnRule>(own: &O, alloc: Global, decl: &Decl) -> Result<Decl, AllocError>
    ensures { IfOk result (λ r. r ≡ rewritten_declaration (O.rule own.now) decl.now) }
{
    let name = decl.name.copy(alloc)?;
    let params = decl.params.copy(alloc)?;
    let levels = rewrite_levels(own, alloc, decl)?;
    Ok(Decl {
        kind: decl.kind,
        name,
        params,
        levels,
    })
}

/// The levels of the declaration, each symbol of which is rewritten by the pass's own rule, for a
/// pass that changes more of a declaration than its symbols. Refused for want of memory alone.
pub fn rewrite_levels<O: OwnRule>(own: &O, alloc: Global, decl: &Decl) -> Result<Levels, AllocError>
    ensures { IfOk result (λ r.
        r ≡ map (rewritten_level (O.rule own.now decl.now)) decl.now.levels) }
{
    let mut all = Levels::new(alloc);
    for level in decl.levels.as_slice() {
        let alts = rewritten_alternatives(own, alloc, decl, &level.alts)?;
        push_level(
            &mut all,
            Level {
                assoc: level.assoc,
                alts,
            },
        )?;
    }
    Ok(all)
}
