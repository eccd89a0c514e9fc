//! What core grammars keep to as they are printed. The functions do nothing: their contracts are
//! the laws.
ghost use Rattle.ig_verify_laws.specs.NameLaws.{CoresCallNoRoot, CoresHaveSmallTags};
ghost use Rattle.ig_verify_laws.specs.NameLaws.{CoresTellNames};

use crate::reduced_laws::alternatives_are_few;
use ig_core::cores_are_named;

/// The names of the core grammar of a grammar as it is written have no byte up to 32 and differ,
/// and the tags of each nonterminal print apart, where the declared names are those of the
/// notation. This law computes nothing.
pub fn cores_tell_names()
    ensures { CoresTellNames }
{
    alternatives_are_few();
    cores_are_named();
}

/// No step of a core grammar calls nonterminal 0. This law computes nothing.
pub fn cores_call_no_root()
    ensures { CoresCallNoRoot }
{}

/// The numbers in the tags of a core grammar fit 32 bits. This law computes nothing.
pub fn cores_have_small_tags()
    ensures { CoresHaveSmallTags }
{
    alternatives_are_few();
}
