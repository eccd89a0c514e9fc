//! How the signs of levels are spelled.

ghost use Rattle.std.specs.Prelude.{◌∷◌, OnOk, string_bytes};
ghost use Rattle.ig_notation_syntax.specs.Token.{Greater};
ghost use Rattle.ig_show.specs.Pieces.{token, blank};
ghost use Rattle.ig_show.specs.Signs.{associativity_pieces};
ghost use Rattle.ig_show.specs.Appending.{Adds};

use crate::spelling::push_text;
use ig_grammar::Assoc;
use std::alloc::AllocError;

/// Adds an associativity and a space, and nothing where there is none.
pub fn push_associativity(out: &mut String, assoc: Assoc) -> Result<(), AllocError>
    ensures { OnOk result (Adds (string_bytes out.old) (string_bytes out.new)
        (associativity_pieces assoc)) }
{
    match assoc {
        Assoc::Free => Ok(()),
        Assoc::Left => push_text(out, "left "),
        Assoc::Right => push_text(out, "right "),
        Assoc::Nonassoc => push_text(out, "nonassoc "),
    }
}

/// Adds the sign between two levels, with a space on each side.
pub fn push_greater(out: &mut String) -> Result<(), AllocError>
    ensures { OnOk result (Adds (string_bytes out.old) (string_bytes out.new)
        (λ ps. blank ∷ token Greater ∷ blank ∷ ps)) }
{
    push_text(out, " > ")
}
