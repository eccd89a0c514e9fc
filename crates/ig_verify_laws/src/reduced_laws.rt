//! What reduced forests keep to as drafts. The functions do nothing: their contracts are the laws.
ghost use Rattle.ig_verify_laws.specs.ReducedLaws.{AlternativesAreFew, ItemsAreSmall};
ghost use Rattle.ig_verify_laws.specs.ReducedLaws.{ReducedIsDraft};
ghost use Rattle.ig_verify_laws.specs.ReducedLaws.{ReducedIsSound, SoundHasNoFlaw, ValuesAreSmall};

use ig_forest::{live_items_are_reachable, no_key_stands_twice, reduced_forest_is_trim};
use ig_item::{
    alternatives_are_one, environments_fit, environments_grow, items_are_in_text,
    items_are_reached_by_trees, reachable_is_closed,
};

/// The reduced forest of a well-kinded core grammar and a text is sound. This law computes nothing.
pub fn reduced_forests_are_sound()
    ensures { ReducedIsSound }
{
    environments_fit();
    items_are_in_text();
    items_are_reached_by_trees();
}

/// A sound forest has no flaw. This law computes nothing.
pub fn sound_forests_have_no_flaw()
    ensures { SoundHasNoFlaw }
{}

/// The number of an alternative of a core grammar is at most that of all dots, and it has fewer
/// steps. This law computes nothing.
pub fn alternatives_are_few()
    ensures { AlternativesAreFew }
{}

/// In a text of at most 1,048,576 characters, with tabs of a width from 1 to 16, the value of an
/// expression whose integers fit 64 bits fits 64 bits, where those of its variables do; and so do
/// spans 32. This law computes nothing.
pub fn values_are_small()
    ensures { ValuesAreSmall }
{}

/// The values of the reachable items of such a text and a core grammar whose integers fit 64 bits
/// do so, too. This law computes nothing.
pub fn items_are_small()
    ensures { ItemsAreSmall }
{
    values_are_small();
    items_are_in_text();
    reachable_is_closed();
}

/// The reduced forest of such a text and a core grammar that is writable is a draft of the core
/// grammar, where it has fewer than 4,294,967,296 items. This law computes nothing.
pub fn reduced_forests_are_drafts()
    ensures { ReducedIsDraft }
{
    alternatives_are_few();
    alternatives_are_one();
    environments_fit();
    environments_grow();
    items_are_in_text();
    items_are_small();
    live_items_are_reachable();
    no_key_stands_twice();
    reachable_is_closed();
    reduced_forest_is_trim();
}
