//! What a run goes by.

ghost use Rattle.std.specs.Prelude.{◌≡◌};
ghost use Rattle.ig_run_tables.specs.Names.{all_dots};

use ig_item::Core;
use ig_run_tables::Dots;
use ig_text::{Sequence, Text};
use std::alloc::Global;

/// What a run goes by. None of it changes while it runs.
#[derive(Clone, Copy)]
pub struct Context<'a> {
    pub alloc: Global,
    pub core: &'a Core,
    pub text: &'a Text,
    /// Of each nonterminal, and each of its alternatives, what is known at the dots.
    pub dots: &'a [Sequence<Dots>],
    /// The most items that may be found.
    pub budget: u32,
    ghost known: { dots.now ≡ all_dots core.now },
}
