//! From a checked grammar to its core grammar.
ghost use Rattle.std.specs.Prelude.{◌≡◌, ◌<◌, ◌≤◌, length, IfOk, IfErr};
ghost use Rattle.std.specs.Bool.{Decides};
ghost use Rattle.ig_item.specs.Core.{dots};
ghost use Rattle.ig_item.specs.Limits.{most_dots};
ghost use Rattle.ig_core.specs.CoreOf.{core_of};
ghost use Rattle.ig_core.specs.Lowered.{CoreOf, IsBuildable, IsNumbered};
ghost use Rattle.ig_pass.specs.Remaining.{IsRemaining};
ghost use Rattle.ig_core.specs.Limits.{most_declarations};
ghost use Rattle.ig_core.specs.declared.fault.CoreFault.TheVariants.{TooManyDots};

use crate::dots::has_few_dots;
use crate::fault::CoreFault;
use crate::laws::{cores_are_well_kinded, passes_keep};
use crate::lowering::lower;
use crate::naming::{count, number_names};
use crate::nonterminals::add_nonterminals;
use crate::roots::build_root;
use ig_grammar::Checked;
use ig_item::Core;
use ig_pass::declarations_are_found;
use ig_text::Sequence;
use std::alloc::{AllocError, Global};

/// A core grammar that is built has fewer nonterminals than this.
const MOST_DECLARATIONS: usize = 16_777_216;

/// The core grammar of a grammar, by all passes. `TooManyDots` comes only where it has more than
/// `MOST_DOTS` dots, and then no core grammar comes. `Memory` also stands for more lists, options
/// and groups than numbers tell apart, and for nonterminals that are too many to be numbered, which
/// memory holds out for in no grammar that was read.
pub fn build(alloc: Global, checked: &Checked) -> Result<Core, CoreFault>
    requires buildable { IsBuildable checked.now }
    ensures core { IfOk result (λ core. core ≡ CoreOf checked.now) }
    ensures numbered { IfOk result (λ core. IsNumbered checked.now) }
    ensures few { IfOk result (λ core. dots (CoreOf checked.now) ≤ most_dots) }
    ensures exact { IfErr result (λ fault. fault ≡ TooManyDots →
        most_dots < dots (CoreOf checked.now)) }
{
    passes_keep();
    let lowered = lower(alloc, checked)?;
    build_lowered(alloc, &lowered)
}

/// The core grammar of a grammar of the forms that remain after all passes. `TooManyDots` comes
/// exactly where it has more than `MOST_DOTS` dots.
fn build_lowered(alloc: Global, lowered: &Checked) -> Result<Core, CoreFault>
    requires remaining { IsRemaining lowered.now.grammar }
    ensures core { IfOk result (λ core. core ≡ core_of lowered.now.grammar lowered.now.shapes) }
    ensures few { IfOk result (λ core.
        dots (core_of lowered.now.grammar lowered.now.shapes) ≤ most_dots) }
    ensures exact { IfErr result (λ fault. fault ≡ TooManyDots →
        most_dots < dots (core_of lowered.now.grammar lowered.now.shapes)) }
{
    if !has_few_dots(lowered) {
        return Err(CoreFault::TooManyDots);
    }
    if !has_few_declarations(lowered) {
        return Err(CoreFault::Memory);
    }
    let core = build_core(alloc, lowered)?;
    Ok(core)
}

/// Whether the nonterminals can be numbered.
fn has_few_declarations(lowered: &Checked) -> bool
    ensures { Decides result (length lowered.now.grammar.decls < most_declarations) }
{
    lowered.grammar().decls.as_slice().len() < MOST_DECLARATIONS
}

/// The core grammar of a checked grammar, which has few dots and few declarations.
fn build_core(alloc: Global, lowered: &Checked) -> Result<Core, AllocError>
    requires remaining { IsRemaining lowered.now.grammar }
    requires few { length lowered.now.grammar.decls < most_declarations }
    requires few_dots { dots (core_of lowered.now.grammar lowered.now.shapes) ≤ most_dots }
    ensures { IfOk result (λ core. core ≡ core_of lowered.now.grammar lowered.now.shapes) }
{
    cores_are_well_kinded();
    declarations_are_found();
    let decls = lowered.grammar().decls.as_slice();
    let numbers = number_names(alloc, decls, lowered)?;
    let missing = count(decls, lowered) + 1;
    let root = build_root(alloc, &numbers, missing, lowered)?;
    let mut built = Vec::new(alloc);
    built.push(root)?;
    add_nonterminals(alloc, &numbers, missing, decls, lowered, &mut built)?;
    Ok(Core::of(Sequence::from_vec(built)))
}
