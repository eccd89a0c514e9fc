//! The tests before symbols.
ghost use Rattle.std.specs.Prelude.{◌≡◌, [], ◌∷◌, ◌++◌, IfOk, OnOk};
ghost use Rattle.ig_expr.specs.Expression as expression;
ghost use Rattle.ig_expr.specs.View.{expression_of};
ghost use Rattle.ig_grammar.specs.View.{symbol_of};
ghost use Rattle.ig_grammar.specs.Symbol as tree;
ghost use Rattle.ig_blocks_parts.specs.Setting.{guards, column_guards, wrapped};
ghost use Rattle.ig_blocks_parts.specs.Setting.{m_of, f_of};
ghost use Rattle.ig_blocks_parts.specs.Body.{tests_of};
ghost use Rattle.ig_blocks_parts.specs.ColumnCode.{pair_of, setting_by};

use crate::guide::{Guide, kind_of};
use crate::pairs::{Pair, cleared_by, column_here, column_of, opened_by, start_operand};
use ig_expr::{Expr, Op, Operand};
use ig_grammar::{DeclKind, Symbol, Symbols};
use ig_pass::push_symbol;
use ig_text::{Copied, Word};
use std::alloc::{AllocError, Global};

/// The tests before a symbol, behind that of an aligned list. Refused for want of memory alone.
pub fn tests_before(
    alloc: Global,
    guide: &Guide<'_>,
    pair: &Pair,
    aligned: bool,
    symbol: &Symbol,
) -> Result<Symbols, AllocError>
    ensures { IfOk result (λ r. r ≡ column_guards (setting_by guide.now) aligned
        ++ tests_of (setting_by guide.now) (pair_of pair.now) (symbol_of symbol.now)) }
{
    let mut tests = Symbols::new(alloc);
    push_column_test(alloc, guide, aligned, &mut tests)?;
    push_tests(symbol, alloc, guide, pair, &mut tests)?;
    Ok(tests)
}

/// Adds the tests before a symbol.
#[cycle(tests)]
fn push_tests(
    symbol: &Symbol,
    alloc: Global,
    guide: &Guide<'_>,
    pair: &Pair,
    tests: &mut Symbols,
) -> Result<(), AllocError>
    ensures { OnOk result (tests.new ≡
        tests.old ++ tests_of (setting_by guide.now) (pair_of pair.now) (symbol_of symbol.now)) }
{
    match symbol {
        Symbol::Literal(_) => push_test(alloc, guide, pair, tests),
        Symbol::Class(_) => push_test(alloc, guide, pair, tests),
        Symbol::Call(name, _) => match kind_of(guide, name) {
            Some(DeclKind::Lexical) => push_test(alloc, guide, pair, tests),
            _ => Ok(()),
        },
        Symbol::Label(_, inner) => push_tests(inner.as_symbol(), alloc, guide, pair, tests),
        Symbol::Offside(inner) => {
            let pair = opened_by(alloc, guide, pair)?;
            let told = push_tests(inner.as_symbol(), alloc, guide, &pair, tests);
            drop(pair);
            told
        }
        Symbol::Ignore(inner) => {
            let pair = cleared_by(pair);
            let told = push_tests(inner.as_symbol(), alloc, guide, &pair, tests);
            drop(pair);
            told
        }
        Symbol::Filtered(inner, _) => push_tests(inner.as_symbol(), alloc, guide, pair, tests),
        _ => Ok(()),
    }
}

/// Adds the test before a token.
fn push_test(
    alloc: Global,
    guide: &Guide<'_>,
    pair: &Pair,
    tests: &mut Symbols,
) -> Result<(), AllocError>
    ensures { OnOk result (tests.new ≡
        tests.old ++ guards (setting_by guide.now) (pair_of pair.now)) }
{
    match pair {
        Pair::Lacking => Ok(()),
        Pair::Carried => push_inside(alloc, guide, pair, tests),
        Pair::Opened(_, _) => push_inside(alloc, guide, pair, tests),
        Pair::Cleared => Ok(()),
    }
}

/// Adds the test that the position is inside the pair.
fn push_inside(
    alloc: Global,
    guide: &Guide<'_>,
    pair: &Pair,
    tests: &mut Symbols,
) -> Result<(), AllocError>
    ensures { OnOk result (tests.new ≡ tests.old ++ tree.Guard (expression.Inside
        (m_of (setting_by guide.now) (pair_of pair.now))
        (f_of (setting_by guide.now) (pair_of pair.now))) ∷ []) }
{
    let column = Operand::new(alloc, column_of(alloc, guide, pair)?)?;
    match start_operand(alloc, guide, pair) {
        Ok(start) => push_guard(tests, Expr::Inside(column, start)),
        Err(refused) => {
            drop(column);
            Err(refused)
        }
    }
}

/// Adds the test before an item of an aligned list.
fn push_column_test(
    alloc: Global,
    guide: &Guide<'_>,
    aligned: bool,
    tests: &mut Symbols,
) -> Result<(), AllocError>
    ensures { OnOk result (tests.new ≡
        tests.old ++ column_guards (setting_by guide.now) aligned) }
{
    if !aligned {
        return Ok(());
    }
    let column = Operand::new(alloc, column_here(alloc)?)?;
    match variable(alloc, &guide.column) {
        Ok(there) => push_guard(tests, Expr::Binary(Op::Equal, column, there)),
        Err(refused) => {
            drop(column);
            Err(refused)
        }
    }
}

/// A variable, as an operand.
fn variable(alloc: Global, name: &Word) -> Result<Operand, AllocError>
    ensures { IfOk result (λ r. r ≡ expression.Variable name.now) }
{
    Operand::new(alloc, Expr::Var(name.copy(alloc)?))
}

/// A symbol behind tests, in a sequence where there are any. Refused for want of memory alone.
pub fn behind(tests: Symbols, symbol: Symbol) -> Result<Symbol, AllocError>
    ensures { IfOk result (λ r. symbol_of r ≡ wrapped tests (symbol_of symbol)) }
{
    if tests.as_slice().is_empty() {
        drop(tests);
        return Ok(symbol);
    }
    let mut symbols = tests;
    match push_symbol(&mut symbols, symbol) {
        Ok(()) => Ok(Symbol::Seq(symbols)),
        Err(refused) => {
            drop(symbols);
            Err(refused)
        }
    }
}

/// Adds the guard at the end.
fn push_guard(guards: &mut Symbols, condition: Expr) -> Result<(), AllocError>
    ensures { OnOk result (guards.new ≡
        guards.old ++ tree.Guard (expression_of condition) ∷ []) }
{
    push_symbol(guards, Symbol::Guard(condition))
}
