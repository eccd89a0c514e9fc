//! Forests as certificates: what is read of a text and verified has permitted trees alone, and the
//! text of each reduced forest is read and verified.
//!
//! `specs/CertificateLaws.antt` has these laws, for a grammar that is accepted. They bring together
//! that texts tell drafts, that reduced forests are sound drafts, and that trees of a core grammar
//! are the permitted ones.
//!
//! `specs/ReducedLaws.antt`: the reduced forest of a well-kinded core grammar and a text is sound,
//! so [`verify`](ig_verify::verify) finds no flaw in it. It is a draft of the core grammar where it
//! has fewer than 2 to the power of 32 items, no step calls the root, and the integers and the tags
//! of the core grammar have the ranges of the program's (`specs/Ranges.antt`): values of
//! expressions then keep to 64 bits, and so do those of all reachable items.
//!
//! `specs/NameLaws.antt`: in the core grammar of a grammar whose declared names are those of the
//! notation no name has a byte up to 32, names differ, and the tags of each nonterminal print
//! apart: so a text tells them. No step of a core grammar calls its root, and the numbers in tags
//! are small.
//!
//! `specs/IntegerLaws.antt`: a number of a grammar text is below 2 to the power of 63, so the
//! integers of a grammar that is read fit; each pass keeps that, since the numbers that it adds are
//! levels, 0 and -1.
#![tactic(auto)]

mod certificate_laws;
mod integer_laws;
mod name_laws;
mod reduced_laws;

pub use certificate_laws::{
    read_cores_tell_names, reduced_forests_are_certified, verified_trees_are_permitted,
};
pub use integer_laws::{cores_have_small_integers, w3c_cores_have_small_integers};
pub use name_laws::{cores_call_no_root, cores_have_small_tags, cores_tell_names};
pub use reduced_laws::{
    alternatives_are_few, items_are_small, reduced_forests_are_drafts, reduced_forests_are_sound,
    sound_forests_have_no_flaw, values_are_small,
};
