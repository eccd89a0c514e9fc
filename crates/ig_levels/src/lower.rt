//! A grammar without levels.
ghost use Rattle.std.specs.Prelude.{IfOk, OnErr, OnOk};
ghost use Rattle.std.specs.Prelude.{◌≡◌, ◌+◌, ◌-◌, ◌<◌, ◌≤◌, ◌++◌, map, true};
ghost use Rattle.ig_text.specs.Limits.{numbers_end};
ghost use Rattle.ig_grammar.specs.Numbering.{by_level};
ghost use Rattle.ig_grammar.specs.View.{symbol_of};
ghost use Rattle.ig_pass.specs.Added.{left_name, right_name};
ghost use Rattle.ig_pass.specs.Sound.{IsSound};
ghost use Rattle.ig_pass.specs.Unbound.{IsUnbound};
ghost use Rattle.ig_levels.specs.Levels.{lowered, test_of, symbols_in, added_parameters};
ghost use Rattle.ig_levels.specs.Levels.{lowered_alternative, lowered_declaration};
ghost use Rattle.ig_levels.specs.Levels.{is_levelled, lowered_grammar, one_level, LevelsOf};
ghost use Rattle.ig_levels.specs.Levels.{has_left, has_right};
ghost use Rattle.ig_meaning.specs.Operands.{more_on_the_left, more_on_the_right};
ghost use Rattle.ig_levels.specs.Roles.{place_of};
ghost use Rattle.ig_levels.specs.Tables.{levelled_by};
ghost use Rattle.ig_levels.specs.Numbered.{numbered};

use crate::laws::levels_keep;
use crate::naming::{is_levelled, left_word, levelled_names, right_word};
use crate::operands::{Bounds, asks_left, asks_right, bounds_at, is_test, role_at};
use crate::symbols::with_bounds;
use ig_expr::{Expr, Op, Operand};
use ig_grammar::{
    Alt, Alts, Assoc, Checked, Decl, Decls, Grammar, Level, Levels, Params, Symbol, Symbols,
};
use ig_pass::{
    copy_of_shapes, copy_of_start, push_alternative, push_declaration, push_integer, push_level,
    push_symbol, root,
};
use ig_text::{Copied, Word};
use std::alloc::{AllocError, Global};
use std::collections::BTreeMap;

/// The grammar without levels, exactly as `specs/Levels.antt` says; `$root` is its last declaration
/// where none stood for the root. Refused for want of memory alone; a level whose number 32 bits
/// don't hold counts as that. The grammar is sound, and nothing in it binds or reads `.l` and `.r`.
pub fn lower_levels(alloc: Global, checked: &Checked) -> Result<Checked, AllocError>
    requires sound { IsSound checked.now }
    requires left_unbound { IsUnbound checked.now.grammar left_name }
    requires right_unbound { IsUnbound checked.now.grammar right_name }
    ensures { IfOk result (λ r. r ≡ LevelsOf checked.now) }
{
    levels_keep();
    let rooted = root(alloc, checked)?;
    let shapes = copy_of_shapes(alloc, &rooted)?;
    let grammar = lower_grammar(alloc, rooted.grammar())?;
    Ok(Checked::with_shapes(grammar, shapes))
}

/// The grammar, each declaration of which has no levels.
fn lower_grammar(alloc: Global, grammar: &Grammar) -> Result<Grammar, AllocError>
    ensures { IfOk result (λ r. r ≡ lowered_grammar grammar.now) }
{
    let table = levelled_names(alloc, grammar.decls.as_slice())?;
    let decls = lower_declarations(alloc, &table, grammar.decls.as_slice())?;
    let start = copy_of_start(alloc, &grammar.start)?;
    Ok(Grammar {
        start,
        tabs: grammar.tabs,
        decls,
    })
}

/// The declarations, without levels.
fn lower_declarations(
    alloc: Global,
    table: &BTreeMap<&str, bool>,
    decls: &[Decl],
) -> Result<Decls, AllocError>
    ensures { IfOk result (λ r. r ≡ map (lowered_declaration (levelled_by table.now)) decls.now) }
{
    let mut all = Decls::new(alloc);
    for decl in decls {
        push_declaration(&mut all, lower_declaration(alloc, table, decl)?)?;
    }
    Ok(all)
}

/// The declaration, without levels: where it was levelled, the bounds are parameters.
fn lower_declaration(
    alloc: Global,
    table: &BTreeMap<&str, bool>,
    decl: &Decl,
) -> Result<Decl, AllocError>
    ensures { IfOk result (λ r. r ≡ lowered_declaration (levelled_by table.now) decl.now) }
{
    let name = decl.name.copy(alloc)?;
    let levelled = is_levelled(decl.levels.as_slice());
    let params = lower_parameters(alloc, &decl.params, levelled)?;
    let levels = lower_levels_of(alloc, table, decl, levelled)?;
    Ok(Decl {
        kind: decl.kind,
        name,
        params,
        levels,
    })
}

/// The parameters, and the two bounds where the declaration is levelled.
fn lower_parameters(alloc: Global, params: &Params, levelled: bool) -> Result<Params, AllocError>
    ensures { IfOk result (λ r. r ≡ params.now ++ added_parameters levelled) }
{
    let mut all = params.copy(alloc)?;
    if levelled {
        push_integer(&mut all, left_word(alloc)?)?;
        push_integer(&mut all, right_word(alloc)?)?;
    }
    Ok(all)
}

/// The one level of the declaration, where it has any.
fn lower_levels_of(
    alloc: Global,
    table: &BTreeMap<&str, bool>,
    decl: &Decl,
    levelled: bool,
) -> Result<Levels, AllocError>
    requires { levelled ≡ is_levelled decl.now.levels }
    ensures { IfOk result (λ r. r ≡ one_level decl.now.levels
        (map (lowered_alternative (levelled_by table.now) decl.now) (by_level decl.now.levels))) }
{
    let mut levels = Levels::new(alloc);
    if decl.levels.is_empty() {
        return Ok(levels);
    }
    let alts = lower_alternatives(alloc, table, decl, levelled)?;
    let assoc = Assoc::Free;
    push_level(&mut levels, Level { assoc, alts })?;
    Ok(levels)
}

/// The alternatives of all levels of the declaration, in order. The last level has the number 1.
fn lower_alternatives(
    alloc: Global,
    table: &BTreeMap<&str, bool>,
    decl: &Decl,
    levelled: bool,
) -> Result<Alts, AllocError>
    requires { levelled ≡ is_levelled decl.now.levels }
    ensures { IfOk result (λ r. r ≡
        map (lowered_alternative (levelled_by table.now) decl.now) (by_level decl.now.levels)) }
{
    let levels = decl.levels.as_slice();
    let mut all = Alts::new(alloc);
    for (index, level) in levels.iter().enumerate() {
        let number = level_number(levels.len(), index)?;
        let bounds = bounds_at(levelled, number, level.assoc)?;
        add_alternatives(alloc, table, &bounds, decl, level, &mut all)?;
    }
    Ok(all)
}

/// How many of so many levels there are from the one at this index on.
fn levels_from(levels: usize, index: usize) -> usize
    requires { index < levels }
    ensures { result ≡ levels - index }
{
    levels - index
}

/// The number of the level at this index of so many levels: the last one has the number 1. Refused,
/// as want of memory, exactly where 32 bits don't hold it.
fn level_number(levels: usize, index: usize) -> Result<u32, AllocError>
    requires { index < levels }
    ensures number { IfOk result (λ n. n ≡ levels - index) }
    ensures refused { OnErr result (numbers_end ≤ levels - index) }
{
    u32::try_from(levels_from(levels, index)).map_err(|_| AllocError)
}

/// Adds the alternatives of a level at the end.
fn add_alternatives(
    alloc: Global,
    table: &BTreeMap<&str, bool>,
    bounds: &Bounds,
    decl: &Decl,
    level: &Level,
    all: &mut Alts,
) -> Result<(), AllocError>
    requires levelled { bounds.now.levelled ≡ is_levelled decl.now.levels }
    requires left { bounds.now.left ≡ bounds.now.level + more_on_the_left level.now.assoc }
    requires right { bounds.now.right ≡ bounds.now.level + more_on_the_right level.now.assoc }
    ensures { OnOk result (all.new ≡ all.old ++
        map (lowered_alternative (levelled_by table.now) decl.now)
        (numbered bounds.now.level level.now.assoc level.now.alts)) }
{
    for alternative in level.alts.as_slice() {
        let symbols = lower_alternative(alloc, table, bounds, decl, alternative)?;
        push_alternative(all, Alt { symbols })?;
    }
    Ok(())
}

/// The symbols of an alternative, behind the tests of its level.
fn lower_alternative(
    alloc: Global,
    table: &BTreeMap<&str, bool>,
    bounds: &Bounds,
    decl: &Decl,
    alternative: &Alt,
) -> Result<Symbols, AllocError>
    ensures { IfOk result (λ r. r ≡ symbols_in (levelled_by table.now)
        (place_of bounds.now decl.now.name) bounds.now.level alternative.now.symbols) }
{
    let symbols = alternative.symbols.as_slice();
    let mut all = Symbols::new(alloc);
    add_tests(alloc, bounds, &decl.name, symbols, &mut all)?;
    add_symbols(alloc, table, bounds, decl, symbols, &mut all)?;
    Ok(all)
}

/// Adds the tests of the level of an alternative, for the operands that it has.
fn add_tests(
    alloc: Global,
    bounds: &Bounds,
    own: &Word,
    symbols: &[Symbol],
    all: &mut Symbols,
) -> Result<(), AllocError>
    ensures { OnOk result (all.new ≡ all.old ++
        test_of (has_left (place_of bounds.now own.now) true (map symbol_of symbols.now))
        bounds.now.level left_name ++
        test_of (has_right (place_of bounds.now own.now) true (map symbol_of symbols.now))
        bounds.now.level right_name) }
{
    if asks_left(bounds, own, symbols) {
        push_test(alloc, all, bounds.level, left_word(alloc)?)?;
    }
    if asks_right(bounds, own, symbols) {
        push_test(alloc, all, bounds.level, right_word(alloc)?)?;
    }
    Ok(())
}

/// Adds the test that the level is at least the bound.
fn push_test(alloc: Global, all: &mut Symbols, level: u32, bound: Word) -> Result<(), AllocError>
    ensures { OnOk result (all.new ≡ all.old ++ test_of true level bound) }
{
    let level = Operand::new(alloc, Expr::Int(level as i64))?;
    let bound = Operand::new(alloc, Expr::Var(bound))?;
    push_symbol(
        all,
        Symbol::Guard(Expr::Binary(Op::GreaterEqual, level, bound)),
    )
}

/// Adds the symbols of an alternative, its operands with the bounds for them.
fn add_symbols(
    alloc: Global,
    table: &BTreeMap<&str, bool>,
    bounds: &Bounds,
    decl: &Decl,
    symbols: &[Symbol],
    all: &mut Symbols,
) -> Result<(), AllocError>
    ensures { OnOk result (all.new ≡ all.old ++ lowered (levelled_by table.now)
        (place_of bounds.now decl.now.name) true (map symbol_of symbols.now)) }
{
    let mut first = true;
    let mut rest = symbols;
    while let [symbol, others @ ..] = rest {
        let role = role_at(bounds, &decl.name, first, symbol, others);
        push_symbol(all, with_bounds(alloc, table, decl, symbol, role)?)?;
        first = first && is_test(symbol);
        rest = others;
    }
    Ok(())
}
