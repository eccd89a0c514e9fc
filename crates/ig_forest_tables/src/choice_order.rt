//! The order of the alternatives of a node.
ghost use Rattle.std.specs.Prelude.{◌≡◌, IsTrue};
ghost use Rattle.std.specs.List.Sorted.{IsPermutation, IsSorted};
ghost use Rattle.ig_text.specs.TagNumber.{number_of};
ghost use Rattle.ig_forest_tables.specs.Orders.{choice_cmp};

use crate::entry::Choice;
use ig_text::Tag;

/// Puts alternatives into order. Where tag numbers rise with the alternatives of a nonterminal they
/// are in it, and nothing moves.
pub(crate) fn put_in_order(choices: &mut [Choice])
    ensures permutation { IsPermutation choices.old choices.new }
    ensures order { IsSorted choice_cmp choices.new }
{
    if !is_in_order(choices) {
        sort(choices);
    }
}

/// Whether no alternative is below the one before it.
fn is_in_order(choices: &[Choice]) -> bool
    ensures { IsTrue result → IsSorted choice_cmp choices.now }
{
    for place in 1..choices.len() {
        if rank_of(choices[place]) < rank_of(choices[place - 1]) {
            return false;
        }
    }
    true
}

/// Sorts alternatives.
fn sort(choices: &mut [Choice])
    ensures permutation { IsPermutation choices.old choices.new }
    ensures order { IsSorted choice_cmp choices.new }
{
    choices.sort_unstable_by_key(|choice: &Choice| rank_of(*choice));
}

/// What alternatives are ordered by: the number of the tag, and then the item.
fn rank_of(choice: Choice) -> (u32, u32)
    ensures { result ≡ (number_of choice.tag, choice.item) }
{
    (number_of(choice.tag), choice.item)
}

/// The number of a tag among those of one symbol.
fn number_of(tag: Tag) -> u32
    ensures { result ≡ number_of tag }
{
    match tag {
        Tag::Rule { alternative, .. } => alternative,
        Tag::GroupAlt { number } => number,
        Tag::Nil | Tag::One | Tag::Absent | Tag::Root => 1,
        Tag::Snoc | Tag::More | Tag::Present => 2,
    }
}
