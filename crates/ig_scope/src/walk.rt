//! The symbols of an alternative in preorder, up to the first fault.
//!
//! Each function takes how many symbols of the alternative stand before what it looks at, and
//! gives how many stand before what comes next.

ghost use Rattle.std.specs.Prelude.{[]};
ghost use Rattle.ig_grammar.specs.View.{symbol_of};
ghost use Rattle.ig_grammar.specs.Symbol.{gathered};
ghost use Rattle.ig_grammar.specs.Alternative.{gathered_alternatives};
ghost use Rattle.ig_grammar.specs.Visible.{inside_sequence, inside_choices, binds, all_bind};
ghost use Rattle.ig_scope.specs.AlternativePlaces.{HaveNumbers};
ghost use Rattle.ig_scope.specs.AlternativesTold.{Walked, from};

use crate::fault::ScopeFault;
use crate::places::Surroundings;
use crate::symbols::symbol_cause;
use ig_expr::Kind;
use ig_grammar::{Alts, Inner, Symbol, Symbols, Variables};
use std::alloc::Global;

/// The symbol and those inside it; what it binds is added to the variables.
#[cycle(walk)]
pub(crate) fn walk_symbol(
    alloc: Global,
    around: &Surroundings,
    variables: &mut Variables,
    before: u32,
    symbol: &Symbol,
) -> Result<u32, ScopeFault>
    requires { HaveNumbers before (from variables.old (symbol_of symbol.now)) }
    ensures { Walked around.now before (from variables.old (symbol_of symbol.now))
        (binds variables.old (symbol_of symbol.now)) variables.old variables.new result }
{
    if let Some(cause) = symbol_cause(around.declarations, around.kind, variables, symbol) {
        return Err(around.fault(cause, before));
    }
    let inside = before + 1;
    match symbol {
        Symbol::Literal(_) => Ok(inside),
        Symbol::Class(_) => Ok(inside),
        Symbol::Call(_, _) => Ok(inside),
        Symbol::Label(name, inner) => {
            let after = walk_symbol(alloc, around, variables, inside, inner.as_symbol())?;
            variables.bind(alloc, name, Kind::Span)?;
            Ok(after)
        }
        Symbol::Guard(_) => Ok(inside),
        Symbol::Let(name, value) => {
            if let Some(kind) = variables.kind_of(value) {
                variables.bind(alloc, name, kind)?;
            }
            Ok(inside)
        }
        Symbol::Opt(inner) => walk_apart(alloc, around, variables, inside, inner),
        Symbol::Star(inner) => walk_apart(alloc, around, variables, inside, inner),
        Symbol::Plus(inner) => walk_apart(alloc, around, variables, inside, inner),
        Symbol::SepStar(inner, separator) => {
            let after = walk_apart(alloc, around, variables, inside, inner)?;
            walk_apart(alloc, around, variables, after, separator)
        }
        Symbol::SepPlus(inner, separator) => {
            let after = walk_apart(alloc, around, variables, inside, inner)?;
            walk_apart(alloc, around, variables, after, separator)
        }
        Symbol::Group(choices) => { walk_choices(alloc, around, variables, inside, choices) }
        Symbol::Offside(inner) => walk_symbol(alloc, around, variables, inside, inner.as_symbol()),
        Symbol::Ignore(inner) => walk_symbol(alloc, around, variables, inside, inner.as_symbol()),
        Symbol::Align(inner) => walk_symbol(alloc, around, variables, inside, inner.as_symbol()),
        Symbol::Filtered(inner, _) => {
            walk_symbol(alloc, around, variables, inside, inner.as_symbol())
        }
        Symbol::Seq(symbols) => { walk_sequence(alloc, around, variables, inside, symbols) }
        Symbol::Entry(bindings, inner) => {
            let mut replaced = variables.replaced(alloc, bindings)?;
            walk_symbol(alloc, around, &mut replaced, inside, inner.as_symbol())
        }
    }
}

/// The symbol and those inside it, whose bindings are seen only there.
#[cycle(walk)]
fn walk_apart(
    alloc: Global,
    around: &Surroundings,
    variables: &mut Variables,
    before: u32,
    inner: &Inner,
) -> Result<u32, ScopeFault>
    requires { HaveNumbers before (from variables.old inner.now) }
    ensures { Walked around.now before (from variables.old inner.now) []
        variables.old variables.new result }
{
    let visible = variables.len();
    let behind = walk_symbol(alloc, around, variables, before, inner.as_symbol())?;
    variables.truncate(visible);
    Ok(behind)
}

/// The symbols of a sequence and those inside them; what they bind is added to the variables.
#[cycle(walk)]
pub(crate) fn walk_sequence(
    alloc: Global,
    around: &Surroundings,
    variables: &mut Variables,
    before: u32,
    symbols: &Symbols,
) -> Result<u32, ScopeFault>
    requires { HaveNumbers before (inside_sequence variables.old (gathered symbols.now)) }
    ensures { Walked around.now before (inside_sequence variables.old (gathered symbols.now))
        (all_bind variables.old (gathered symbols.now)) variables.old variables.new result }
{
    let mut next = before;
    for symbol in symbols.as_slice() {
        next = walk_symbol(alloc, around, variables, next, symbol)?;
    }
    Ok(next)
}

/// The alternatives of a group, whose bindings are seen only there.
#[cycle(walk)]
fn walk_choices(
    alloc: Global,
    around: &Surroundings,
    variables: &mut Variables,
    before: u32,
    choices: &Alts,
) -> Result<u32, ScopeFault>
    requires { HaveNumbers before
        (inside_choices variables.old (gathered_alternatives choices.now)) }
    ensures { Walked around.now before
        (inside_choices variables.old (gathered_alternatives choices.now)) []
        variables.old variables.new result }
{
    let visible = variables.len();
    let mut next = before;
    for choice in choices.as_slice() {
        next = walk_sequence(alloc, around, variables, next, &choice.symbols)?;
        variables.truncate(visible);
    }
    Ok(next)
}
