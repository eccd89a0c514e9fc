//! A declaration with its number, and what is the same for all of its alternatives.

ghost use Rattle.std.specs.Prelude.{◌≡◌, ◌<◌, ◌-◌, Some, slice_get};
ghost use Rattle.ig_scope.specs.AlternativePlaces.{HaveNumberedAlternatives, HaveNumberedSymbols};
ghost use Rattle.ig_scope.specs.Room.{HasFewParameters, room_of};

use ig_grammar::{Decl, Declarations};

/// A declaration with its number.
#[derive(Clone, Copy)]
pub struct Numbered<'d, 'g> {
    /// The declarations of the grammar.
    pub declarations: &'d Declarations<'g>,
    /// The one of that number.
    pub decl: &'g Decl,
    /// Its number, from 1.
    pub number: u32,
    /// How many labels and lets each alternative may have; `None` where they aren't counted.
    pub room: Option<usize>,
    ghost counted: { 0 < number },
    ghost there: { slice_get declarations.now (number - 1) ≡ Some decl.now },
    ghost few: { HasFewParameters decl.now },
    ghost left: { room ≡ room_of decl.now },
    ghost alternatives: { HaveNumberedAlternatives decl.now },
    ghost symbols: { HaveNumberedSymbols decl.now },
}
