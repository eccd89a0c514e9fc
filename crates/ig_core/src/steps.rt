//! The steps of symbols.
ghost use Rattle.std.specs.Prelude.{◌≡◌, map, IfOk};
ghost use Rattle.std.specs.Option.{option_copied};
ghost use Rattle.ig_expr.specs.View.{expression_of};
ghost use Rattle.ig_grammar.specs.View.{symbol_of};
ghost use Rattle.ig_item.specs.Step as item;
ghost use Rattle.ig_text.specs.declared.pattern.Pattern.TheVariants as pattern;
ghost use Rattle.ig_item.specs.View.{step_of};
ghost use Rattle.ig_pass.specs.Remaining.{label_of, unlabelled, unfiltered};
ghost use Rattle.ig_pass.specs.Remaining.{excluded_of, exclusions};
ghost use Rattle.ig_core.specs.Steps as steps;
ghost use Rattle.ig_core.specs.Tables.{lookup, number_by};

use ig_expr::{Expr, Exprs};
use ig_grammar::{Filter, Symbol};
use ig_item::{Step, Steps};
use ig_text::{Class, Copied, Pattern, Patterns, Sequence, Word};
use std::alloc::{AllocError, Global};
use std::collections::BTreeMap;

/// What the table has at a name.
fn find(numbers: &BTreeMap<&str, u32>, name: &Word) -> Option<u32>
    ensures { result ≡ lookup numbers.now name.now }
{
    numbers.get(name.as_str()).copied()
}

/// The number of the nonterminal of that name.
pub(crate) fn number_of(numbers: &BTreeMap<&str, u32>, missing: u32, name: &Word) -> u32
    ensures { result ≡ number_by numbers.now missing name.now }
{
    match find(numbers, name) {
        Some(number) => number,
        None => missing,
    }
}

/// The label of the symbol.
fn label_of(symbol: &Symbol) -> Option<&Word>
    ensures { option_copied result ≡ label_of (symbol_of symbol.now) }
{
    match symbol {
        Symbol::Label(name, _) => Some(name),
        _ => None,
    }
}

/// The symbol without its label.
fn unlabelled(symbol: &Symbol) -> &Symbol
    ensures { symbol_of result.now ≡ unlabelled (symbol_of symbol.now) }
{
    match symbol {
        Symbol::Label(_, inner) => inner.as_symbol(),
        _ => symbol,
    }
}

/// The symbol without its filters.
fn unfiltered(symbol: &Symbol) -> &Symbol
    ensures { symbol_of result.now ≡ unfiltered (symbol_of symbol.now) }
{
    match symbol {
        Symbol::Filtered(inner, _) => inner.as_symbol(),
        _ => symbol,
    }
}

/// The patterns that the symbol excludes.
fn excluded_of(alloc: Global, symbol: &Symbol) -> Result<Patterns, AllocError>
    ensures { IfOk result (λ r. r ≡ excluded_of (symbol_of symbol.now)) }
{
    match symbol {
        Symbol::Filtered(_, filters) => exclusions_of(alloc, filters.as_slice()),
        _ => Ok(Patterns::new(alloc)),
    }
}

/// The patterns of exclusions.
fn exclusions_of(alloc: Global, filters: &[Filter]) -> Result<Patterns, AllocError>
    ensures { IfOk result (λ r. r ≡ exclusions filters.now) }
{
    let mut patterns = Vec::new(alloc);
    for filter in filters {
        if let Some(pattern) = excluded(filter) {
            patterns.push(pattern.copy(alloc)?)?;
        }
    }
    Ok(Sequence::from_vec(patterns))
}

/// The pattern of an exclusion.
fn excluded(filter: &Filter) -> Option<&Pattern>
    ensures { option_copied result ≡ steps.exclusion filter.now }
{
    match filter {
        Filter::Not(pattern) => Some(pattern),
        _ => None,
    }
}

/// A copy of a label.
fn copy_label(alloc: Global, label: Option<&Word>) -> Result<Option<Word>, AllocError>
    ensures { IfOk result (λ r. r ≡ option_copied label.entry) }
{
    match label {
        Some(name) => Ok(Some(name.copy(alloc)?)),
        None => Ok(None),
    }
}

/// A copy of the label of the symbol.
fn own_label(alloc: Global, symbol: &Symbol) -> Result<Option<Word>, AllocError>
    ensures { IfOk result (λ r. r ≡ label_of (symbol_of symbol.now)) }
{
    copy_label(alloc, label_of(symbol))
}

/// The step of a symbol with this label and these excluded patterns.
fn build_main(
    alloc: Global,
    numbers: &BTreeMap<&str, u32>,
    missing: u32,
    label: Option<Word>,
    not: Patterns,
    symbol: &Symbol,
) -> Result<Step, AllocError>
    ensures { IfOk result (λ s. step_of s ≡
        steps.step_with (number_by numbers.now missing) label not (symbol_of symbol.now)) }
{
    match symbol {
        Symbol::Literal(word) => literal_step(alloc, label, not, word),
        Symbol::Class(class) => class_step(alloc, label, not, class),
        Symbol::Call(name, arguments) => {
            let nonterminal = number_of(numbers, missing, name);
            call_step(alloc, nonterminal, label, not, arguments)
        }
        Symbol::Guard(condition) => {
            drop(label);
            drop(not);
            Ok(Step::Test(condition.copy(alloc)?))
        }
        Symbol::Let(name, value) => {
            drop(label);
            drop(not);
            bind_step(alloc, name, value)
        }
        _ => {
            drop(label);
            drop(not);
            Ok(Step::Test(Expr::Bool(false)))
        }
    }
}

/// The step of a literal. Here and below a call lets go of what is handed over where memory lacks.
fn literal_step(
    alloc: Global,
    label: Option<Word>,
    not: Patterns,
    word: &Word,
) -> Result<Step, AllocError>
    ensures { IfOk result (λ s. step_of s ≡ item.Term (pattern.Literal word.now) label not) }
{
    match word.copy(alloc) {
        Ok(word) => {
            let what = Pattern::Literal(word);
            Ok(Step::Term { what, label, not })
        }
        Err(refused) => {
            drop(label);
            drop(not);
            Err(refused)
        }
    }
}

/// The step of a class.
fn class_step(
    alloc: Global,
    label: Option<Word>,
    not: Patterns,
    class: &Class,
) -> Result<Step, AllocError>
    ensures { IfOk result (λ s. step_of s ≡ item.Term (pattern.OneOf class.now) label not) }
{
    match class.copy(alloc) {
        Ok(class) => {
            let what = Pattern::OneOf(class);
            Ok(Step::Term { what, label, not })
        }
        Err(refused) => {
            drop(label);
            drop(not);
            Err(refused)
        }
    }
}

/// The step of a call.
fn call_step(
    alloc: Global,
    nonterminal: u32,
    label: Option<Word>,
    not: Patterns,
    arguments: &Exprs,
) -> Result<Step, AllocError>
    ensures { IfOk result (λ s.
        step_of s ≡ item.Call nonterminal arguments.now label not) }
{
    match copy_arguments(alloc, arguments) {
        Ok(args) => Ok(Step::Call {
            nonterminal,
            args,
            label,
            not,
        }),
        Err(refused) => {
            drop(label);
            drop(not);
            Err(refused)
        }
    }
}

/// A copy of arguments.
fn copy_arguments(alloc: Global, arguments: &Exprs) -> Result<Exprs, AllocError>
    ensures { IfOk result (λ r. r ≡ arguments.now) }
{
    arguments.copy(alloc)
}

/// The step of a let.
fn bind_step(alloc: Global, name: &Word, value: &Expr) -> Result<Step, AllocError>
    ensures { IfOk result (λ s. step_of s ≡ item.Bind name.now (expression_of value.now)) }
{
    let name = name.copy(alloc)?;
    Ok(Step::Bind(name, value.copy(alloc)?))
}

/// The step of a symbol.
fn build_step(
    alloc: Global,
    numbers: &BTreeMap<&str, u32>,
    missing: u32,
    symbol: &Symbol,
) -> Result<Step, AllocError>
    ensures { IfOk result (λ s. step_of s ≡
        steps.step_of (number_by numbers.now missing) (symbol_of symbol.now)) }
{
    let label = own_label(alloc, symbol)?;
    let inner = unlabelled(symbol);
    let not = excluded_of(alloc, inner)?;
    build_main(alloc, numbers, missing, label, not, unfiltered(inner))
}

/// A step for each symbol.
pub(crate) fn build_steps(
    alloc: Global,
    numbers: &BTreeMap<&str, u32>,
    missing: u32,
    symbols: &[Symbol],
) -> Result<Steps, AllocError>
    ensures { IfOk result (λ s. s ≡
        steps.steps_of (number_by numbers.now missing) (map symbol_of symbols.now)) }
{
    let mut cells = Vec::new(alloc);
    for symbol in symbols {
        cells.push(build_step(alloc, numbers, missing, symbol)?)?;
    }
    Ok(Steps::from_vec(cells))
}
