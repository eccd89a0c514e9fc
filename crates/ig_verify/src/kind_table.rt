//! The kinds that are visible at the dots of a core grammar, found once for all items.
ghost use Rattle.std.specs.Prelude.{◌≡◌, ◌∷◌, ◌++◌, [], IfOk, List, MatchOption, OnOk, map};
ghost use Rattle.std.specs.Prelude.{option_map, slice_get};
ghost use Rattle.std.specs.Option.{option_copied};
ghost use Rattle.ig_item.specs.Core.{numbered};
ghost use Rattle.ig_item.specs.Visible.{kinds_behind, names_at_dots};
ghost use Rattle.ig_item.specs.WellKinded.{IsWellKinded};
ghost use Rattle.ig_item.specs.declared.core_grammar.Nonterminal as core;
ghost use Rattle.ig_verify.specs.Kinds.{HasKinds, HasNoKinds, all_kinds, row_of, rows_of};

use crate::kinds::{kind_bound, push_bound};
use ig_expr::{Kind, Kinds};
use ig_item::{Core, CoreAlt, Nonterminal, VisibleNames, names_are_at_dots, names_grow, number};
use ig_text::{Copied, Sequence};
use std::alloc::{AllocError, Global};

/// The kinds at the dots of an alternative.
#[derive(Drop)]
pub(crate) struct KindRow {
    /// The names that are visible at each dot; as many kinds are.
    pub names: VisibleNames,
    /// The kinds behind the last step. There are some in each well-kinded core grammar.
    pub kinds: Option<Kinds>,
}

/// The kinds at the dots of all alternatives of all nonterminals.
pub(crate) fn kinds_of_core(
    alloc: Global,
    core: &Core,
) -> Result<Sequence<Sequence<KindRow>>, AllocError>
    ensures { IfOk result (λ table. table ≡ all_kinds core.now) }
{
    let mut table = Sequence::new(alloc);
    let nonterminals = core.as_slice();
    for nonterminal in nonterminals {
        let rows = kinds_of_nonterminal(alloc, nonterminal)?;
        push_to(&mut table, rows)?;
    }
    Ok(table)
}

/// The kinds at the dots of the alternatives of a nonterminal.
fn kinds_of_nonterminal(
    alloc: Global,
    nonterminal: &Nonterminal,
) -> Result<Sequence<KindRow>, AllocError>
    ensures { IfOk result (λ rows. rows ≡ rows_of nonterminal.now) }
{
    let mut rows = Sequence::new(alloc);
    let alternatives = nonterminal.alternatives.as_slice();
    for alternative in alternatives {
        let row = kinds_of_alternative(alloc, nonterminal, alternative)?;
        push_to(&mut rows, row)?;
    }
    Ok(rows)
}

/// The kinds at the dots of an alternative.
fn kinds_of_alternative(
    alloc: Global,
    nonterminal: &Nonterminal,
    alternative: &CoreAlt,
) -> Result<KindRow, AllocError>
    ensures { IfOk result (λ row. row ≡ row_of nonterminal.now alternative.now) }
{
    let names = VisibleNames::of(alloc, &nonterminal.params, &alternative.steps)?;
    let kinds = kinds_at_end(alloc, nonterminal, alternative, &names)?;
    Ok(KindRow { names, kinds })
}

/// The kinds behind the last step of an alternative, at whose dots these names are visible; `None`
/// exactly where an expression that is bound has no kind.
fn kinds_at_end(
    alloc: Global,
    nonterminal: &Nonterminal,
    alternative: &CoreAlt,
    names: &VisibleNames,
) -> Result<Option<Kinds>, AllocError>
    requires { names.now ≡ names_at_dots nonterminal.now.params alternative.now.steps }
    ensures { IfOk result (λ kinds. kinds ≡ kinds_behind nonterminal.now.params
        nonterminal.now.kinds alternative.now.steps) }
{
    names_grow();
    names_are_at_dots();
    let mut kinds = nonterminal.kinds.copy(alloc)?;
    let steps = alternative.steps.as_slice();
    for (dot, step) in steps.iter().enumerate() {
        let Some(visible) = names.at(number(dot)?) else {
            return Ok(None);
        };
        let Some(bound) = kind_bound(step, visible, kinds.as_slice()) else {
            return Ok(None);
        };
        push_bound(&mut kinds, bound)?;
    }
    Ok(Some(kinds))
}

/// Adds a value.
fn push_to<T: Drop>(values: &mut Sequence<T>, value: T) -> Result<(), AllocError>
    ensures { OnOk result (values.new ≡ values.old ++ value ∷ []) }
{
    values.push(value).map_err(|(_, error)| error)
}

/// The kinds that are visible at a dot, which counts from 0, of an alternative, which counts from
/// 1; `None` exactly where that dot isn't there.
pub(crate) fn kinds_at(
    table: &[Sequence<KindRow>],
    nonterminal: u32,
    alternative: u32,
    dot: u32,
) -> Option<&[Kind]>
    ensures { (core : List core.Nonterminal) → IsWellKinded core → table.now ≡ all_kinds core →
        MatchOption (option_copied result)
        (HasNoKinds core nonterminal alternative dot)
        (HasKinds core nonterminal alternative dot) }
{
    names_are_at_dots();
    let rows = rows_at(table, nonterminal)?;
    let row = row_at(rows.as_slice(), alternative)?;
    let names = row.names.at(dot)?;
    let Some(kinds) = &row.kinds else {
        return None;
    };
    kinds.as_slice().get(..names.len())
}

/// The rows of that number, from 0; `None` exactly where they aren't there.
fn rows_at(table: &[Sequence<KindRow>], number: u32) -> Option<&Sequence<KindRow>>
    ensures { option_copied result ≡ slice_get table.now number }
{
    table.get(number as usize)
}

/// The row of that number, from 1; `None` exactly where it isn't there.
fn row_at(rows: &[KindRow], number: u32) -> Option<&KindRow>
    ensures { option_copied result ≡ numbered rows.now number }
{
    let place = number.checked_sub(1)?;
    rows.get(place as usize)
}
