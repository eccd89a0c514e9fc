//! What forests are as certificates. The functions do nothing: their contracts are the laws.
ghost use Rattle.ig_verify_laws.specs.CertificateLaws.{ReadCoresTellNames, ReducedIsCertified};
ghost use Rattle.ig_verify_laws.specs.CertificateLaws.{VerifiedIsPermitted};

use crate::integer_laws::{cores_have_small_integers, w3c_cores_have_small_integers};
use crate::name_laws::{cores_call_no_root, cores_have_small_tags, cores_tell_names};
use crate::reduced_laws::{
    reduced_forests_are_drafts, reduced_forests_are_sound, sound_forests_have_no_flaw,
};
use ig_command_sources::{
    read_grammars_are_buildable, read_grammars_stay_regular, read_names_are_names,
};
use ig_core::core_trees_are_permitted_trees;
use ig_forest_reader::texts_tell_drafts;
use ig_verify::sound_forests_unfold_to_core_trees;

/// What is printed of the core grammar of an accepted grammar tells its parts. This law computes
/// nothing.
pub fn read_cores_tell_names()
    ensures { ReadCoresTellNames }
{
    cores_tell_names();
    read_grammars_are_buildable();
    read_grammars_stay_regular();
    read_names_are_names();
}

/// The text of the reduced forest of an accepted grammar and an input is read as that forest, and
/// verified, where the forest has fewer than 4,294,967,296 items. This law computes nothing.
pub fn reduced_forests_are_certified()
    ensures { ReducedIsCertified }
{
    cores_call_no_root();
    cores_have_small_integers();
    w3c_cores_have_small_integers();
    cores_have_small_tags();
    read_cores_tell_names();
    reduced_forests_are_drafts();
    reduced_forests_are_sound();
    sound_forests_have_no_flaw();
    texts_tell_drafts();
}

/// Each tree to which a sound forest unfolds is one that the grammar permits. This law computes
/// nothing.
pub fn verified_trees_are_permitted()
    ensures { VerifiedIsPermitted }
{
    core_trees_are_permitted_trees();
    read_grammars_are_buildable();
    read_grammars_stay_regular();
    sound_forests_unfold_to_core_trees();
}
