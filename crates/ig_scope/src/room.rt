//! The limit of the variables of an alternative.

ghost use Rattle.std.specs.Prelude.{◌≡◌};
ghost use Rattle.ig_scope.specs.Room.{HasFewParameters, room_of};

use crate::names::count_named;
use ig_grammar::{Decl, is_name};

/// The parameters, labels and lets that an alternative may have.
const MOST_VARIABLES: usize = 32;

/// How many labels and lets with names of the notation each alternative of the declaration may
/// have: what its parameters leave. `None` where they aren't counted, since a pass added the
/// declaration.
pub fn room_of(decl: &Decl) -> Option<usize>
    requires { HasFewParameters decl.now }
    ensures { result ≡ room_of decl.now }
{
    if is_name(&decl.name) {
        Some(MOST_VARIABLES - count_named(decl.params.as_slice()))
    } else {
        None
    }
}
