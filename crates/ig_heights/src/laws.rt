//! What heights keep to. The functions do nothing: their contracts are the laws.
ghost use Rattle.ig_heights.specs.Laws.{DepthsAreHeights, NoneAboveNodes};
ghost use Rattle.ig_heights.specs.Laws.{TreesAreNoHigherThanNodes};

/// The trees of a node to a depth are no higher than it, and each depth at which a tree is no
/// higher has it, with the same cursor. This law computes nothing.
pub fn depths_are_heights()
    ensures { DepthsAreHeights }
{}

/// Where the root of a forest has a highest tree, none is higher than the number of nodes. This
/// law computes nothing.
pub fn none_above_nodes()
    ensures { NoneAboveNodes }
{}

/// Where the root of a forest has a highest tree, each of its trees is among those to the depth of
/// the number of nodes, with the same cursor. This law computes nothing.
pub fn trees_are_no_higher_than_nodes()
    ensures { TreesAreNoHigherThanNodes }
{}
