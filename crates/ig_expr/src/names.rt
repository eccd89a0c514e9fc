//! Environments: a list of names, and beside it a list with a member for each name.
ghost use Rattle.std.specs.Prelude.{◌≡◌};
ghost use Rattle.ig_expr.specs.Names.{place_of};

use ig_text::Word;

/// The first place of the name in the list, from 0; `None` exactly where it isn't there. Takes no
/// memory.
pub(crate) fn place_of(names: &[Word], name: &Word) -> Option<usize>
    ensures { result ≡ place_of names.now name.now }
{
    names.iter().position(|n| *n == *name)
}
