//! Which symbols of an alternative are its operands.
ghost use Rattle.std.specs.Prelude.{◌≡◌, ◌≤◌, ◌+◌, ◌⊎◌, map, true, IfOk, OnErr};
ghost use Rattle.ig_text.specs.Limits.{numbers_end};
ghost use Rattle.ig_grammar.specs.View.{symbol_of};
ghost use Rattle.ig_meaning.specs.Operands.{more_on_the_left, more_on_the_right};
ghost use Rattle.ig_levels.specs.Levels.{is_test, only_tests, is_call, is_operand};
ghost use Rattle.ig_levels.specs.Levels.{is_left, is_right, has_left, has_right, pair_at};
ghost use Rattle.ig_levels.specs.Roles.{pair_of, place_of};

use crate::symbols::Role;
use ig_grammar::{Assoc, Symbol};
use ig_text::Word;
use std::alloc::AllocError;

/// What an alternative asks: whether its declaration is levelled, its level, and the bounds for
/// its operands.
#[derive(Clone, Copy)]
pub struct Bounds {
    pub levelled: bool,
    pub level: u32,
    pub left: u32,
    pub right: u32,
}

/// The bounds of alternatives of this level. Refused, as want of memory, exactly where 32 bits
/// don't hold one of them.
pub fn bounds_at(levelled: bool, level: u32, assoc: Assoc) -> Result<Bounds, AllocError>
    ensures levelled { IfOk result (λ b. b.levelled ≡ levelled) }
    ensures level { IfOk result (λ b. b.level ≡ level) }
    ensures left { IfOk result (λ b. b.left ≡ level + more_on_the_left assoc) }
    ensures right { IfOk result (λ b. b.right ≡ level + more_on_the_right assoc) }
    ensures refused { OnErr result ((numbers_end ≤ level + more_on_the_left assoc)
        ⊎ (numbers_end ≤ level + more_on_the_right assoc)) }
{
    Ok(Bounds {
        levelled,
        level,
        left: sum(level, more_on_the_left(assoc))?,
        right: sum(level, more_on_the_right(assoc))?,
    })
}

/// The sum. Refused, as want of memory, exactly where 32 bits don't hold it.
fn sum(a: u32, b: u32) -> Result<u32, AllocError>
    ensures number { IfOk result (λ s. s ≡ a + b) }
    ensures refused { OnErr result (numbers_end ≤ a + b) }
{
    match a.checked_add(b) {
        Some(both) => Ok(both),
        None => Err(AllocError),
    }
}

/// One more where a left operand of the same level is refused.
fn more_on_the_left(assoc: Assoc) -> u32
    ensures { result ≡ more_on_the_left assoc }
{
    match assoc {
        Assoc::Right => 1,
        Assoc::Nonassoc => 1,
        Assoc::Left => 0,
        Assoc::Free => 0,
    }
}

/// One more where a right operand of the same level is refused.
fn more_on_the_right(assoc: Assoc) -> u32
    ensures { result ≡ more_on_the_right assoc }
{
    match assoc {
        Assoc::Left => 1,
        Assoc::Nonassoc => 1,
        Assoc::Right => 0,
        Assoc::Free => 0,
    }
}

/// Whether the symbol is a guard or a let.
pub fn is_test(symbol: &Symbol) -> bool
    ensures { result ≡ is_test (symbol_of symbol.now) }
{
    match symbol {
        Symbol::Guard(_) => true,
        Symbol::Let(_, _) => true,
        _ => false,
    }
}

/// Whether each symbol is a guard or a let.
fn only_tests(symbols: &[Symbol]) -> bool
    ensures { result ≡ only_tests (map symbol_of symbols.now) }
{
    let mut rest = symbols;
    while let [symbol, others @ ..] = rest {
        if !is_test(symbol) {
            return false;
        }
        rest = others;
    }
    true
}

/// Whether the symbol is a call of the nonterminal.
fn is_call(own: &Word, symbol: &Symbol) -> bool
    ensures { result ≡ is_call own.now (symbol_of symbol.now) }
{
    match symbol {
        Symbol::Call(name, _) => name == own,
        _ => false,
    }
}

/// Whether the symbol is a call of the nonterminal, or a label directly round one.
fn is_operand(own: &Word, symbol: &Symbol) -> bool
    ensures { result ≡ is_operand own.now (symbol_of symbol.now) }
{
    match symbol {
        Symbol::Label(_, inner) => is_call(own, inner.as_symbol()),
        _ => is_call(own, symbol),
    }
}

/// Whether the symbol is the left operand: only guards and lets stand before it, and more than
/// those behind it.
fn is_left(bounds: &Bounds, own: &Word, first: bool, symbol: &Symbol, others: &[Symbol]) -> bool
    ensures { result ≡ is_left (place_of bounds.now own.now) first (symbol_of symbol.now)
        (map symbol_of others.now) }
{
    is_operand(own, symbol) && bounds.levelled && first && !only_tests(others)
}

/// Whether the symbol is the right operand: only guards and lets stand behind it, and more than
/// those before it.
fn is_right(bounds: &Bounds, own: &Word, first: bool, symbol: &Symbol, others: &[Symbol]) -> bool
    ensures { result ≡ is_right (place_of bounds.now own.now) first (symbol_of symbol.now)
        (map symbol_of others.now) }
{
    is_operand(own, symbol) && bounds.levelled && !first && only_tests(others)
}

/// What the symbol is to its alternative, by whether only guards and lets stand before it, and by
/// the symbols behind it.
pub fn role_at(bounds: &Bounds, own: &Word, first: bool, symbol: &Symbol, others: &[Symbol]) -> Role
    ensures { pair_of result ≡ pair_at (place_of bounds.now own.now) first (symbol_of symbol.now)
        (map symbol_of others.now) }
{
    if is_left(bounds, own, first, symbol, others) {
        Role::LeftOperand(bounds.left)
    } else if is_right(bounds, own, first, symbol, others) {
        Role::RightOperand(bounds.right)
    } else {
        Role::Outside
    }
}

/// Whether the alternative has a left operand.
fn has_left(bounds: &Bounds, own: &Word, symbols: &[Symbol]) -> bool
    ensures { result ≡ has_left (place_of bounds.now own.now) true (map symbol_of symbols.now) }
{
    let mut first = true;
    let mut rest = symbols;
    while let [symbol, others @ ..] = rest {
        if is_left(bounds, own, first, symbol, others) {
            return true;
        }
        first = first && is_test(symbol);
        rest = others;
    }
    false
}

/// Whether the alternative has a right operand.
fn has_right(bounds: &Bounds, own: &Word, symbols: &[Symbol]) -> bool
    ensures { result ≡ has_right (place_of bounds.now own.now) true (map symbol_of symbols.now) }
{
    let mut first = true;
    let mut rest = symbols;
    while let [symbol, others @ ..] = rest {
        if is_right(bounds, own, first, symbol, others) {
            return true;
        }
        first = first && is_test(symbol);
        rest = others;
    }
    false
}

/// Whether an alternative asks its level of the left spine: where it has a left operand.
pub fn asks_left(bounds: &Bounds, own: &Word, symbols: &[Symbol]) -> bool
    ensures { result ≡ has_left (place_of bounds.now own.now) true (map symbol_of symbols.now) }
{
    has_left(bounds, own, symbols)
}

/// Whether an alternative asks its level of the right spine: where it has a right operand.
pub fn asks_right(bounds: &Bounds, own: &Word, symbols: &[Symbol]) -> bool
    ensures { result ≡ has_right (place_of bounds.now own.now) true (map symbol_of symbols.now) }
{
    has_right(bounds, own, symbols)
}
