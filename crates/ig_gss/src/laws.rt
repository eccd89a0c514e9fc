//! What the pairs of all calls keep to. The function does nothing: its contract is the law.
ghost use Rattle.ig_gss.specs.Laws.{EachPairOnce};

/// In any list of calls, from no nodes on, where each new edge is paired with all pops of its node
/// that are there, and each new pop with all edges, the pairs are each edge of a node with each of
/// its pops, once. This law computes nothing.
pub fn each_pair_once()
    ensures { EachPairOnce }
{}
