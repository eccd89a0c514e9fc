ghost use Rattle.std.specs.Prelude.{◌≡◌, [], ◌∷◌, ◌++◌, map, OnOk, OnErr, IfErr, IfOk};
ghost use Rattle.ig_grammar.specs.View.{symbol_of};

use crate::filter::Filters;
use crate::lets::Lets;
use ig_expr::{Expr, Exprs};
use ig_text::{Class, Copied, Word};
use std::alloc::{AllocError, Global};
use std::marker::Model;

/// A part of an alternative.
#[derive(Drop)]
#[cycle(symbol)]
pub enum Symbol {
    /// The text that it matches; a regular grammar has none that is empty.
    Literal(Word),
    /// One character of the class.
    Class(Class),
    /// A call of the nonterminal of this name, with its arguments.
    Call(Word, Exprs),
    /// The symbol, whose span is bound to the name.
    Label(Word, Inner),
    /// A condition.
    Guard(Expr),
    /// A name that is bound to the value of the expression.
    Let(Word, Expr),
    /// `X?`: the symbol or nothing.
    Opt(Inner),
    /// `X*`: a list of the symbol, maybe empty.
    Star(Inner),
    /// `X+`: a list of the symbol, not empty.
    Plus(Inner),
    /// `{X S}*`: a list of the first symbol, maybe empty, separated by the second.
    SepStar(Inner, Inner),
    /// `{X S}+`: a list of the first symbol, not empty, separated by the second.
    SepPlus(Inner, Inner),
    /// One of some alternatives.
    Group(Alts),
    /// `offside X`: each exposed token is at the begin of the symbol or right of its column.
    Offside(Inner),
    /// `ignore X`: the symbol, of whose tokens none is exposed.
    Ignore(Inner),
    /// `align X`: the list, all of whose members begin in one column.
    Align(Inner),
    /// The symbol, where each filter lets it stand.
    Filtered(Inner, Filters),
    /// The symbols in place, bindings included. Only passes make it.
    Seq(Symbols),
    /// A list, option or group with bindings that are evaluated where it begins and seen only
    /// inside it. Only passes make it.
    Entry(Lets, Inner),
}

/// A symbol inside another one.
#[derive(Drop)]
#[cycle(symbol)]
pub struct Inner {
    symbol: Box<Symbol>,
}

impl Model for Inner {
    ghost use Rattle.ig_grammar.specs.Symbol as tree;
    ghost use Rattle.ig_grammar.specs.CodingSizes.{nodes};

    ghost Value = { tree.Symbol };

    ghost use Rattle.ig_grammar.specs.CodingSymbols.{symbol_code};

    ghost coded = { symbol_code };

    ghost use Rattle.ig_grammar.specs.View.{symbol_of};
    ghost use Rattle.std.proofs.Common.{arith};

    ghost view = { λ o. symbol_of o.symbol.value };

    ghost size = { nodes };

    ghost size_decreases = { λ a h. Prim.grind arith };
}

impl Inner {
    /// The symbol as one inside another.
    pub fn new(alloc: Global, symbol: Symbol) -> Result<Inner, AllocError>
        ensures { IfOk result (λ o. o ≡ symbol_of symbol) }
    {
        let symbol = Box::new(alloc, symbol)?;
        Ok(Inner { symbol })
    }

    /// The symbol. Takes no memory.
    pub fn as_symbol(&self) -> &Symbol
        ensures { symbol_of result.now ≡ self.now }
    {
        &self.symbol
    }

    /// The symbol, taken out. Takes no memory.
    pub fn into_symbol(self) -> Symbol
        ensures { symbol_of result ≡ self }
    {
        Box::into_inner(self.symbol)
    }
}

/// A list of symbols.
#[derive(Drop)]
#[cycle(symbol)]
pub struct Symbols {
    cells: Vec<Symbol>,
}

impl Model for Symbols {
    ghost use Rattle.std.specs.Prelude.{List, map};
    ghost use Rattle.ig_grammar.specs.Symbol as tree;
    ghost use Rattle.ig_grammar.specs.CodingSizes.{list_nodes};

    ghost Value = { List tree.Symbol };

    ghost use Rattle.std.specs.Coded.{coded_list};
    ghost use Rattle.ig_grammar.specs.CodingSymbols.{symbol_code};

    ghost coded = { coded_list symbol_code };

    ghost use Rattle.ig_grammar.specs.View.{symbol_of};
    ghost use Rattle.std.proofs.Common.{arith};

    ghost view = { λ s. map symbol_of s.cells.items };

    ghost size = { list_nodes };

    ghost use Rattle.ig_grammar.specs.CodingFalls.{most_symbols};

    ghost size_decreases = { λ a h. Prim.omega (arith, most_symbols a.cells.items) };
}

impl Symbols {
    /// The empty list. Takes no memory.
    pub fn new(alloc: Global) -> Symbols
        ensures { result ≡ [] }
    {
        Symbols {
            cells: Vec::new(alloc),
        }
    }

    /// Adds the symbol at the end. Refused for want of memory, it hands the symbol back, and the
    /// list is as before.
    pub fn push(&mut self, symbol: Symbol) -> Result<(), (Symbol, AllocError)>
        ensures ok { OnOk result (self.new ≡ self.old ++ symbol_of symbol ∷ []) }
        ensures err { OnErr result (self.new ≡ self.old) }
        ensures value_returned { IfErr result (λ e. e.0 ≡ symbol) }
    {
        match self.cells.push(symbol) {
            Ok(()) => Ok(()),
            Err(full) => Err((full.value, AllocError)),
        }
    }

    /// The symbols, in order. Takes no memory.
    pub fn as_slice(&self) -> &[Symbol]
        ensures { map symbol_of result.now ≡ self.now }
    {
        self.cells.as_slice()
    }
}

/// An alternative, a list of symbols. The alternatives of a declaration are numbered from 1, over
/// all of its levels.
#[derive(Drop)]
#[cycle(symbol)]
pub struct Alt {
    pub symbols: Symbols,
}

/// A list of alternatives.
#[derive(Drop)]
#[cycle(symbol)]
pub struct Alts {
    cells: Vec<Alt>,
}

impl Model for Alts {
    ghost use Rattle.std.specs.Prelude.{List};
    ghost use Rattle.ig_grammar.specs.declared.symbol.Alt.{Alt};

    ghost Value = { List Alt };

    ghost use Rattle.std.specs.Coded.{coded_list};
    ghost use Rattle.ig_grammar.specs.CodingAlternatives.{alternative_code, alternatives_nodes};

    ghost coded = { coded_list alternative_code };

    ghost use Rattle.std.proofs.Common.{arith};

    ghost view = { λ s. s.cells.items };

    ghost size = { alternatives_nodes };

    ghost use Rattle.ig_grammar.specs.CodingFalls.{most_alternatives};

    ghost size_decreases = { λ a h. Prim.omega (arith, most_alternatives a.cells.items) };
}

impl Alts {
    /// The empty list. Takes no memory.
    pub fn new(alloc: Global) -> Alts
        ensures { result ≡ [] }
    {
        Alts {
            cells: Vec::new(alloc),
        }
    }

    /// Adds the alternative at the end. Refused for want of memory, it hands the alternative back,
    /// and the list is as before.
    pub fn push(&mut self, alternative: Alt) -> Result<(), (Alt, AllocError)>
        ensures ok { OnOk result (self.new ≡ self.old ++ alternative ∷ []) }
        ensures err { OnErr result (self.new ≡ self.old) }
        ensures value_returned { IfErr result (λ e. e.0 ≡ alternative) }
    {
        match self.cells.push(alternative) {
            Ok(()) => Ok(()),
            Err(full) => Err((full.value, AllocError)),
        }
    }

    /// The alternatives, in order. Takes no memory.
    pub fn as_slice(&self) -> &[Alt]
        ensures { result.now ≡ self.now }
    {
        self.cells.as_slice()
    }
}

impl Copied for Symbol {
    fn copy(&self, alloc: Global) -> Result<Symbol, AllocError> {
        copy_of(self, alloc)
    }
}

impl Copied for Inner {
    fn copy(&self, alloc: Global) -> Result<Inner, AllocError> {
        copy_of_inner(self, alloc)
    }
}

impl Copied for Symbols {
    fn copy(&self, alloc: Global) -> Result<Symbols, AllocError> {
        copy_of_symbols(self, alloc)
    }
}

impl Copied for Alt {
    fn copy(&self, alloc: Global) -> Result<Alt, AllocError> {
        copy_of_alternative(self, alloc)
    }
}

impl Copied for Alts {
    fn copy(&self, alloc: Global) -> Result<Alts, AllocError> {
        copy_of_alternatives(self, alloc)
    }
}

/// An equal symbol.
#[cycle(copies)]
fn copy_of(symbol: &Symbol, alloc: Global) -> Result<Symbol, AllocError>
    ensures { IfOk result (λ r. r ≡ symbol.now) }
{
    match symbol {
        Symbol::Literal(text) => Ok(Symbol::Literal(text.copy(alloc)?)),
        Symbol::Class(class) => Ok(Symbol::Class(class.copy(alloc)?)),
        Symbol::Call(name, arguments) => copy_of_call(name, arguments, alloc),
        Symbol::Label(name, inner) => label(name, copy_of_inner(inner, alloc)?, alloc),
        Symbol::Guard(condition) => Ok(Symbol::Guard(condition.copy(alloc)?)),
        Symbol::Let(name, value) => copy_of_let(name, value, alloc),
        Symbol::Opt(inner) => Ok(Symbol::Opt(copy_of_inner(inner, alloc)?)),
        Symbol::Star(inner) => Ok(Symbol::Star(copy_of_inner(inner, alloc)?)),
        Symbol::Plus(inner) => Ok(Symbol::Plus(copy_of_inner(inner, alloc)?)),
        Symbol::SepStar(inner, separator) => {
            let inner = copy_of_inner(inner, alloc)?;
            Ok(Symbol::SepStar(inner, copy_of_inner(separator, alloc)?))
        }
        Symbol::SepPlus(inner, separator) => {
            let inner = copy_of_inner(inner, alloc)?;
            Ok(Symbol::SepPlus(inner, copy_of_inner(separator, alloc)?))
        }
        Symbol::Group(alternatives) => {
            Ok(Symbol::Group(copy_of_alternatives(alternatives, alloc)?))
        }
        Symbol::Offside(inner) => Ok(Symbol::Offside(copy_of_inner(inner, alloc)?)),
        Symbol::Ignore(inner) => Ok(Symbol::Ignore(copy_of_inner(inner, alloc)?)),
        Symbol::Align(inner) => Ok(Symbol::Align(copy_of_inner(inner, alloc)?)),
        Symbol::Filtered(inner, filters) => filtered(copy_of_inner(inner, alloc)?, filters, alloc),
        Symbol::Seq(symbols) => Ok(Symbol::Seq(copy_of_symbols(symbols, alloc)?)),
        Symbol::Entry(bindings, inner) => entry(bindings, copy_of_inner(inner, alloc)?, alloc),
    }
}

/// An equal symbol inside another one.
#[cycle(copies)]
fn copy_of_inner(inner: &Inner, alloc: Global) -> Result<Inner, AllocError>
    ensures { IfOk result (λ r. r ≡ inner.now) }
{
    Inner::new(alloc, copy_of(inner.as_symbol(), alloc)?)
}

/// An equal list of symbols.
#[cycle(copies)]
fn copy_of_symbols(symbols: &Symbols, alloc: Global) -> Result<Symbols, AllocError>
    ensures { IfOk result (λ r. r ≡ symbols.now) }
{
    let mut cells = Vec::with_capacity(alloc, symbols.cells.len())?;
    for cell in &symbols.cells {
        cells.push(copy_of(cell, alloc)?)?;
    }
    Ok(Symbols { cells })
}

/// An equal alternative.
#[cycle(copies)]
fn copy_of_alternative(alternative: &Alt, alloc: Global) -> Result<Alt, AllocError>
    ensures { IfOk result (λ r. r ≡ alternative.now) }
{
    let symbols = copy_of_symbols(&alternative.symbols, alloc)?;
    Ok(Alt { symbols })
}

/// An equal list of alternatives.
#[cycle(copies)]
fn copy_of_alternatives(alternatives: &Alts, alloc: Global) -> Result<Alts, AllocError>
    ensures { IfOk result (λ r. r ≡ alternatives.now) }
{
    let mut cells = Vec::with_capacity(alloc, alternatives.cells.len())?;
    for cell in &alternatives.cells {
        cells.push(copy_of_alternative(cell, alloc)?)?;
    }
    Ok(Alts { cells })
}

/// An equal call.
fn copy_of_call(name: &Word, arguments: &Exprs, alloc: Global) -> Result<Symbol, AllocError>
    ensures { IfOk result (λ r. r ≡ Symbol.Call name.now arguments.now) }
{
    let name = name.copy(alloc)?;
    Ok(Symbol::Call(name, arguments.copy(alloc)?))
}

/// An equal let.
fn copy_of_let(name: &Word, value: &Expr, alloc: Global) -> Result<Symbol, AllocError>
    ensures { IfOk result (λ r. r ≡ Symbol.Let name.now value.now) }
{
    let name = name.copy(alloc)?;
    Ok(Symbol::Let(name, value.copy(alloc)?))
}

/// The symbol with a copy of the label.
fn label(name: &Word, inner: Inner, alloc: Global) -> Result<Symbol, AllocError>
    ensures { IfOk result (λ r. r ≡ Symbol.Label name.now inner) }
{
    Ok(Symbol::Label(name.copy(alloc)?, inner))
}

/// The symbol with a copy of the filters.
fn filtered(inner: Inner, filters: &Filters, alloc: Global) -> Result<Symbol, AllocError>
    ensures { IfOk result (λ r. r ≡ Symbol.Filtered inner filters.now) }
{
    match filters.copy(alloc) {
        Ok(filters) => Ok(Symbol::Filtered(inner, filters)),
        Err(refused) => {
            drop(inner);
            Err(refused)
        }
    }
}

/// The symbol with a copy of the bindings.
fn entry(bindings: &Lets, inner: Inner, alloc: Global) -> Result<Symbol, AllocError>
    ensures { IfOk result (λ r. r ≡ Symbol.Entry bindings.now inner) }
{
    Ok(Symbol::Entry(bindings.copy(alloc)?, inner))
}
