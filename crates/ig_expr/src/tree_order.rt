ghost use Rattle.ig_expr.specs.TreeOrder.{IsAnOrder, LastChildStartsDecide};

/// Of the children of two trees that have as many the start of the last one decides first, then, by
/// the same rule, the children before it, and then the last one. This law, proved of all trees,
/// computes nothing.
pub fn last_child_starts_decide()
    ensures { LastChildStartsDecide }
{}

/// A tree doesn't differ from itself, of two trees that differ one stands before the other, and the
/// order is transitive. This law, proved of all trees, computes nothing.
pub fn trees_are_ordered()
    ensures { IsAnOrder }
{}
