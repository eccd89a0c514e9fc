//! What sound forests keep to. The functions do nothing: their contracts are the laws.
ghost use Rattle.ig_verify.specs.Laws.{SoundNodesUnfold, SoundUnfoldsToCoreTrees};

use ig_item::complete_items_are_trees;

/// Each tree of a sound forest is a tree of the core grammar for the text, at every depth. This law
/// computes nothing.
pub fn sound_forests_unfold_to_core_trees()
    ensures { SoundUnfoldsToCoreTrees }
{
    complete_items_are_trees();
}

/// Each tree of a node of a sound forest is a tree of the node's instance over its span. This law
/// computes nothing.
pub fn sound_nodes_unfold()
    ensures { SoundNodesUnfold }
{
    complete_items_are_trees();
}
