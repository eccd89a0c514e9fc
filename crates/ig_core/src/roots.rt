//! The root: a declaration that stands for it, or one that is made and calls the start.
ghost use Rattle.std.specs.Prelude.{◌≡◌, ◌<◌, ◌≤◌, length, slice_index_or, IfOk, None};
ghost use Rattle.std.specs.Option.{option_copied};
ghost use Rattle.ig_grammar.specs.Numbering.{alternatives, layout_among};
ghost use Rattle.ig_grammar.specs.declared.place.Shape.TheVariants.{Root, Rule};
ghost use Rattle.ig_item.specs.Limits.{most_dots};
ghost use Rattle.ig_core.specs.CoreOf.{root_among, root_of, written_root, call_of};
ghost use Rattle.ig_pass.specs.Rooted.{is_root};
ghost use Rattle.ig_core.specs.CoreOf.{nonterminal_of, shaped};
ghost use Rattle.ig_core.specs.Steps.{steps_of};
ghost use Rattle.ig_core.specs.Tables.{number_by};

use crate::nonterminals::build_nonterminal;
use crate::steps::number_of;
use ig_expr::Exprs;
use ig_grammar::{Checked, Decl, Grammar, Shape};
use ig_item::{CoreAlt, Nonterminal, Step, Steps};
use ig_text::{Patterns, Sequence, Tag, Word};
use std::alloc::{AllocError, Global};
use std::collections::BTreeMap;

/// Whether the shape is that of a root.
pub fn is_root(shape: Shape) -> bool
    ensures { result ≡ is_root shape }
{
    match shape {
        Shape::Root => true,
        _ => false,
    }
}

/// Whether the declaration at this index stands for the root.
fn stands_for_root(checked: &Checked, index: usize) -> bool
    requires { index < length checked.now.shapes }
    ensures { result ≡ is_root (slice_index_or checked.now.shapes index Rule) }
{
    is_root(checked.shape_behind(index))
}

/// The declaration that stands for the root, where there is one.
pub fn find_root<'a>(decls: &'a [Decl], checked: &Checked) -> Option<&'a Decl>
    requires beside { length checked.now.shapes ≡ length decls.now }
    ensures { option_copied result ≡ root_among decls.now checked.now.shapes }
{
    for (index, decl) in decls.iter().enumerate() {
        if stands_for_root(checked, index) {
            return Some(decl);
        }
    }
    None
}

/// The call of the start.
fn start_steps(
    alloc: Global,
    numbers: &BTreeMap<&str, u32>,
    missing: u32,
    start: &Option<Word>,
) -> Result<Steps, AllocError>
    ensures { IfOk result (λ s. s ≡
        steps_of (number_by numbers.now missing) (call_of start.now)) }
{
    let mut cells = Vec::new(alloc);
    if let Some(name) = start {
        let nonterminal = number_of(numbers, missing, name);
        cells.push(Step::Call {
            nonterminal,
            args: Exprs::new(alloc),
            label: None,
            not: Patterns::new(alloc),
        })?;
    }
    Ok(Steps::from_vec(cells))
}

/// The root that calls the start.
fn made_root(
    alloc: Global,
    numbers: &BTreeMap<&str, u32>,
    missing: u32,
    grammar: &Grammar,
) -> Result<Nonterminal, AllocError>
    requires no_layout { layout_among grammar.now.decls ≡ None }
    ensures { IfOk result (λ n. n ≡
        nonterminal_of (number_by numbers.now missing) 0 (shaped (written_root grammar.now) Root)) }
{
    let steps = start_steps(alloc, numbers, missing, &grammar.start)?;
    let mut alternatives = Vec::new(alloc);
    alternatives.push(CoreAlt {
        tag: Tag::Root,
        steps,
    })?;
    let name = Word::new(alloc, "$root")?;
    Ok(Nonterminal {
        name,
        params: Sequence::new(alloc),
        kinds: Sequence::new(alloc),
        alternatives: Sequence::from_vec(alternatives),
    })
}

/// Nonterminal 0: that of the declaration that stands for the root, or one that calls the start. A
/// name that the table lacks has the number `missing`. Refused for want of memory alone.
pub fn build_root(
    alloc: Global,
    numbers: &BTreeMap<&str, u32>,
    missing: u32,
    checked: &Checked,
) -> Result<Nonterminal, AllocError>
    requires no_layout { layout_among checked.now.grammar.decls ≡ None }
    requires few { length (alternatives (root_of checked.now.grammar checked.now.shapes).levels) ≤
        most_dots }
    ensures { IfOk result (λ n. n ≡ nonterminal_of (number_by numbers.now missing) 0
        (shaped (root_of checked.now.grammar checked.now.shapes) Root)) }
{
    let grammar = checked.grammar();
    match find_root(grammar.decls.as_slice(), checked) {
        Some(decl) => build_nonterminal(alloc, numbers, missing, Shape::Root, 0, decl),
        None => made_root(alloc, numbers, missing, grammar),
    }
}
