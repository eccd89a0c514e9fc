//! A declaration where it stands.

ghost use Rattle.std.specs.Prelude.{◌≡◌, Some, take, slice_get};
ghost use Rattle.ig_scope.specs.Heads.{count_names, have_layout};

use ig_grammar::{Decl, Declarations};

/// A declaration where it stands, with what stands before it.
#[derive(Clone, Copy)]
pub struct Head<'d, 'g> {
    /// The declarations of the grammar.
    pub declarations: &'d Declarations<'g>,
    /// The one that stands there.
    pub decl: &'g Decl,
    /// How many declarations stand before it.
    pub before: usize,
    /// How many of these have names of the notation.
    pub named: usize,
    /// Whether one of them is a layout declaration.
    pub has_layout: bool,
    ghost there: { slice_get declarations.now before ≡ Some decl.now },
    ghost count: { named ≡ count_names (take before declarations.now) },
    ghost layout: { has_layout ≡ have_layout (take before declarations.now) },
}
