//! Dots of a core grammar, at which items stand.
ghost use Rattle.std.specs.Prelude.{◌≡◌, ◌↔◌, ◌⊎◌, ◌++◌, ◌∷◌, [], Contains, IfOk, OnOk, Some};
ghost use Rattle.std.specs.Prelude.{IsTrue};
ghost use Rattle.std.specs.List.{filter_map};
ghost use Rattle.std.specs.Option.{option_copied, option_to_list};
ghost use Rattle.ig_item.specs.Behind.{End, behind_at};
ghost use Rattle.ig_item.specs.Tables.{items_of};
ghost use Rattle.ig_item.specs.Behind.{Next};
ghost use Rattle.ig_item.specs.View.{step_of};
ghost use Rattle.ig_query.specs.CodeReport.{AreDotsAt, pattern_at, pattern_of};
ghost use Rattle.ig_query.specs.declared.dots.Dot.{Dot};

use crate::item::dot_of;
use ig_item::{Behind, Core, Item, Items, Step};
use ig_text::{Copied, Pattern, Patterns};
use indexmap::IndexSet;
use std::alloc::{AllocError, Global};

/// A dot, from 0, of an alternative, from 1, of a nonterminal, from 0.
#[derive(Clone, Copy, PartialEq, Eq, Hash)]
pub(crate) struct Dot {
    pub nonterminal: u32,
    pub alternative: u32,
    pub dot: u32,
}

/// The pattern of the terminal behind the dot; `None` exactly where none stands there.
pub(crate) fn pattern_at(core: &Core, dot: Dot) -> Option<&Pattern>
    ensures { option_copied result ≡ pattern_at core.now dot }
{
    match core.behind(dot.nonterminal, dot.alternative, dot.dot) {
        Some(Behind::Next(step)) => pattern_of(step),
        Some(Behind::End) => None,
        None => None,
    }
}

/// The pattern of a terminal; `None` exactly where the step is none.
fn pattern_of(step: &Step) -> Option<&Pattern>
    ensures { option_copied result ≡ pattern_of (Some (Next (step_of step.now))) }
{
    match step {
        Step::Term { what, .. } => Some(what),
        Step::Test(_) => None,
        Step::Bind(_, _) => None,
        Step::Call { .. } => None,
    }
}

/// Whether the dot is the last of its alternative.
pub(crate) fn is_last(core: &Core, dot: Dot) -> bool
    ensures { IsTrue result ↔ (behind_at core.now dot.nonterminal dot.alternative dot.dot ≡
        Some End) }
{
    match core.behind(dot.nonterminal, dot.alternative, dot.dot) {
        Some(Behind::End) => true,
        Some(Behind::Next(_)) => false,
        None => false,
    }
}

/// Whether the item stands at the position.
fn is_at(item: &Item, position: u32) -> bool
    ensures { IsTrue result ↔ (item.now.position ≡ position) }
{
    item.position == position
}

/// The dots at which the items at that position stand, each once.
pub(crate) fn dots_at(
    alloc: Global,
    items: &Items,
    position: u32,
) -> Result<IndexSet<Dot>, AllocError>
    ensures { IfOk result (λ dots. AreDotsAt (items_of items.now) position dots.keys) }
{
    let all = items.items();
    let mut dots = IndexSet::new(alloc);
    for item in all {
        if is_at(item, position) {
            add_dot(&mut dots, dot_of(items, item))?;
        }
    }
    Ok(dots)
}

/// Adds the dot, if it isn't there.
fn add_dot(dots: &mut IndexSet<Dot>, dot: Dot) -> Result<(), AllocError>
    ensures { OnOk result ((d : Dot) → Contains dots.new.keys d ↔
        (Contains dots.old.keys d ⊎ (d ≡ dot))) }
{
    dots.insert(dot)?;
    Ok(())
}

/// The patterns of the terminals behind the dots.
pub(crate) fn patterns_of(alloc: Global, core: &Core, dots: &[Dot]) -> Result<Patterns, AllocError>
    ensures { IfOk result (λ patterns. patterns ≡ filter_map (pattern_at core.now) dots.now) }
{
    let mut patterns = Patterns::new(alloc);
    for dot in dots {
        add_behind(alloc, core, &mut patterns, *dot)?;
    }
    Ok(patterns)
}

/// Adds the pattern of the terminal behind the dot, where one stands there.
fn add_behind(
    alloc: Global,
    core: &Core,
    patterns: &mut Patterns,
    dot: Dot,
) -> Result<(), AllocError>
    ensures { OnOk result (patterns.new ≡ patterns.old ++
        option_to_list (pattern_at core.now dot)) }
{
    match pattern_at(core, dot) {
        Some(pattern) => add_pattern(alloc, patterns, pattern),
        None => Ok(()),
    }
}

/// Adds a pattern.
fn add_pattern(alloc: Global, patterns: &mut Patterns, pattern: &Pattern) -> Result<(), AllocError>
    ensures { OnOk result (patterns.new ≡ patterns.old ++ pattern.now ∷ []) }
{
    let pattern = pattern.copy(alloc)?;
    patterns.push(pattern).map_err(|refused| refused.1)
}
