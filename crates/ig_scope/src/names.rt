//! Parameters with names of the notation.

ghost use Rattle.std.specs.Prelude.{◌≡◌, count_by};
ghost use Rattle.ig_grammar.specs.Name.{is_name};

use ig_grammar::{Param, is_name};

/// How many parameters have names of the notation.
pub fn count_named(params: &[Param]) -> usize
    ensures { result ≡ count_by (λ p. is_name p.name) params.now }
{
    params.iter().filter(|p| is_name(&p.name)).count()
}
