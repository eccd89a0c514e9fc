//! The names that are visible at the dots of an alternative.
ghost use Rattle.std.specs.Prelude.{◌≡◌, ◌++◌, option_map, slice_get, IfOk, OnOk};
ghost use Rattle.ig_item.specs.Step.{names_of};
ghost use Rattle.ig_item.specs.View.{step_of};
ghost use Rattle.ig_item.specs.Visible.{names_at_dots};

use crate::step::{Step, Steps};
use ig_text::{Copied, Word, Words};
use std::alloc::{AllocError, Global};
use std::marker::Model;

/// The names that are visible at each dot of an alternative: its names, each once, and how many of
/// them each dot sees.
#[derive(Drop)]
pub struct VisibleNames {
    names: Vec<Word>,
    seen: Vec<usize>,
}

impl Model for VisibleNames {
    ghost use Rattle.std.specs.Prelude.{ℕ, List, map, take};

    ghost Value = { List (List (List ℕ)) };

    ghost view = { λ v. map (λ n. take n v.names.items) v.seen.items };

    ghost use Rattle.ig_item.specs.Visible.{AreSeen};

    ghost invariant = { λ v. AreSeen v.names.items v.seen.items };
}

impl VisibleNames {
    /// The names at the dots of these steps, where the parameters have these names.
    pub fn of(alloc: Global, params: &Words, steps: &Steps) -> Result<VisibleNames, AllocError>
        ensures { IfOk result (λ names. names ≡ names_at_dots params.now steps.now) }
    {
        let mut names = copied(alloc, params.as_slice())?;
        let mut seen = Vec::new(alloc);
        for step in steps.as_slice() {
            seen.push(names.len())?;
            add_bound(alloc, &mut names, step)?;
        }
        seen.push(names.len())?;
        Ok(VisibleNames { names, seen })
    }

    /// The names that are visible at the dot, in the order of binding, the parameters first; `None`
    /// exactly where there is no such dot. Takes no memory.
    pub fn at(&self, dot: u32) -> Option<&[Word]>
        ensures { option_map (λ names. names.now) result ≡ slice_get self.now dot }
    {
        let seen = *self.seen.get(dot as usize)?;
        self.names.get(..seen)
    }
}

/// Copies of the words, in order.
fn copied(alloc: Global, words: &[Word]) -> Result<Vec<Word>, AllocError>
    ensures { IfOk result (λ copies. copies.items ≡ words.now) }
{
    let mut copies = Vec::new(alloc);
    for word in words {
        copies.push(word.copy(alloc)?)?;
    }
    Ok(copies)
}

/// Adds the name that the step binds, where it binds one.
fn add_bound(alloc: Global, names: &mut Vec<Word>, step: &Step) -> Result<(), AllocError>
    ensures { OnOk result (names.new.items ≡ names.old.items ++ names_of (step_of step.now)) }
{
    if let Some(name) = step.binds() {
        names.push(name.copy(alloc)?)?;
    }
    Ok(())
}
