//! What is known at each dot before a run: the names that expressions may use, and the forms of the
//! expressions behind it.
ghost use Rattle.std.specs.Prelude.{◌≡◌, IfNone, IfOk, IfSome, List, Some, map, option_map};
ghost use Rattle.std.specs.Prelude.{slice_get};
ghost use Rattle.std.specs.Option.{option_copied};
ghost use Rattle.ig_item.specs.Core.{IsAlternative, numbered};
ghost use Rattle.ig_item.specs.Step as tree;
ghost use Rattle.ig_item.specs.View.{step_of};
ghost use Rattle.ig_item.specs.Visible.{names_at};
ghost use Rattle.ig_item.specs.declared.core_grammar.Nonterminal.{Nonterminal};
ghost use Rattle.ig_item.specs.declared.core_grammar.CoreAlt.{CoreAlt};
ghost use Rattle.ig_run_tables.specs.Compiled.{expressions_of, form_of, forms_along};
ghost use Rattle.ig_run_tables.specs.Names.{all_dots, dots_of, dots_of_alternatives};

use crate::compiled::{Form, forms_of_step};
use crate::rows::push_row;
use ig_item::{
    Core, CoreAlt, Item, Nonterminal, Step, Steps, VisibleNames, names_are_at_dots, number,
};
use ig_text::{Sequence, Word, Words};
use std::alloc::{AllocError, Global};

/// What is known at the dots of an alternative, which count from 0.
#[derive(Drop)]
pub struct Dots {
    /// The names that are visible at each dot.
    names: VisibleNames,
    /// The forms of the expressions of the step behind each dot but the last.
    forms: Sequence<Sequence<Form>>,
}

/// What is known at one dot.
#[derive(Clone, Copy)]
pub struct Known<'a> {
    /// The names that are visible there, one for each value of the environment.
    pub names: &'a [Word],
    /// The forms of the expressions of the step behind it, in order.
    pub forms: &'a [Form],
}

/// Of each nonterminal, and each of its alternatives, what is known at the dots.
pub type AllDots = Sequence<Sequence<Dots>>;

/// What is known at the dots of all alternatives. Refused for want of memory alone.
pub fn dots_of_core(alloc: Global, core: &Core) -> Result<AllDots, AllocError>
    ensures { IfOk result (λ dots. dots ≡ all_dots core.now) }
{
    let mut rows = Sequence::new(alloc);
    let nonterminals = core.as_slice();
    for nonterminal in nonterminals {
        let row = dots_of_nonterminal(alloc, nonterminal)?;
        push_row(&mut rows, row)?;
    }
    Ok(rows)
}

/// What is known at the dots of a nonterminal's alternatives.
fn dots_of_nonterminal(
    alloc: Global,
    nonterminal: &Nonterminal,
) -> Result<Sequence<Dots>, AllocError>
    ensures { IfOk result (λ dots. dots ≡ dots_of_alternatives nonterminal.now) }
{
    let alternatives = nonterminal.alternatives.as_slice();
    dots_of_alternatives(alloc, &nonterminal.params, alternatives)
}

/// What is known at the dots of the alternatives of a nonterminal with these parameters.
fn dots_of_alternatives(
    alloc: Global,
    params: &Words,
    alternatives: &[CoreAlt],
) -> Result<Sequence<Dots>, AllocError>
    ensures { IfOk result (λ dots. dots ≡
        map (λ a. dots_of params.now a.steps) alternatives.now) }
{
    let mut rows = Sequence::new(alloc);
    for alternative in alternatives {
        let row = dots_of_steps(alloc, params, &alternative.steps)?;
        push_row(&mut rows, row)?;
    }
    Ok(rows)
}

/// What is known at the dots of these steps, where the parameters have these names.
fn dots_of_steps(alloc: Global, params: &Words, steps: &Steps) -> Result<Dots, AllocError>
    ensures { IfOk result (λ dots. dots ≡ dots_of params.now steps.now) }
{
    let names = VisibleNames::of(alloc, params, steps)?;
    let forms = forms_along(alloc, &names, steps.as_slice())?;
    Ok(Dots { names, forms })
}

/// The forms of the expressions of each step, where these names are visible.
fn forms_along(
    alloc: Global,
    names: &VisibleNames,
    steps: &[Step],
) -> Result<Sequence<Sequence<Form>>, AllocError>
    ensures { IfOk result (λ forms. forms ≡ forms_along names.now (map step_of steps.now)) }
{
    let mut rows = Sequence::new(alloc);
    for (dot, step) in steps.iter().enumerate() {
        let Some(visible) = names.at(number(dot)?) else {
            return Ok(rows);
        };
        let row = forms_of_step(alloc, step, visible)?;
        push_row(&mut rows, row)?;
    }
    Ok(rows)
}

/// What is known at the dot of an item of that nonterminal, by what is known at all dots. `None`
/// only where there is no such dot, or no step behind it.
pub fn known_at(dots: &[Sequence<Dots>], nonterminal: u32, item: Item) -> Option<Known<'_>>
    ensures names { IfSome result (λ r. (core : List Nonterminal) (n : Nonterminal) (a : CoreAlt) →
        dots.now ≡ all_dots core → IsAlternative core nonterminal item.alternative n a →
        r.names.now ≡ names_at n a item.dot) }
    ensures forms { IfSome result (λ r. (core : List Nonterminal) (n : Nonterminal) (a : CoreAlt)
        (step : tree.Step) → dots.now ≡ all_dots core →
        IsAlternative core nonterminal item.alternative n a →
        slice_get a.steps item.dot ≡ Some step →
        r.forms.now ≡ map (form_of r.names.now) (expressions_of step)) }
    ensures none { IfNone result ((core : List Nonterminal) (n : Nonterminal) (a : CoreAlt)
        (step : tree.Step) → dots.now ≡ all_dots core →
        IsAlternative core nonterminal item.alternative n a →
        slice_get a.steps item.dot ≡ Some step → ⊥) }
{
    names_are_at_dots();
    let alternatives = row_of(dots, nonterminal)?;
    let alternative = dots_at(alternatives.as_slice(), item.alternative)?;
    let names = alternative.names.at(item.dot)?;
    let forms = forms_at(alternative, item.dot)?;
    Some(Known { names, forms })
}

/// The row of that number, from 0; `None` exactly where it isn't there.
fn row_of(rows: &[Sequence<Dots>], number: u32) -> Option<&Sequence<Dots>>
    ensures { option_copied result ≡ slice_get rows.now number }
{
    rows.get(number as usize)
}

/// What belongs to the alternative of that number, from 1; `None` exactly where it isn't there.
fn dots_at(alternatives: &[Dots], number: u32) -> Option<&Dots>
    ensures { option_copied result ≡ numbered alternatives.now number }
{
    let place = number.checked_sub(1)?;
    alternatives.get(place as usize)
}

/// The forms of the expressions behind that dot; `None` exactly where no step is there.
fn forms_at(dots: &Dots, dot: u32) -> Option<&[Form]>
    ensures { option_map (λ r. r.now) result ≡ slice_get dots.now.forms dot }
{
    let forms = dots.forms.as_slice().get(dot as usize)?;
    Some(forms.as_slice())
}
