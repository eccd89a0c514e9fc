//! What listings keep to. The functions do nothing: their contracts are the laws.
ghost use Rattle.ig_walker.specs.Laws.{CursorHasOneTree, CursorsAreInOrder, ListingIsOne};
ghost use Rattle.ig_walker.specs.Laws.{ListingsGrow, PartsHaveOneTree};

/// The order of cursors is a strict total order. This law computes nothing.
pub fn cursors_are_in_order()
    ensures { CursorsAreInOrder }
{}

/// The trees with one cursor are one tree. This law computes nothing.
pub fn cursor_has_one_tree()
    ensures { CursorHasOneTree }
{}

/// The trees with the same parts are one tree. This law computes nothing.
pub fn parts_have_one_tree()
    ensures { PartsHaveOneTree }
{}

/// A listing has given no tree where it begins, and each call of `next` adds the tree that it
/// gives; once as many as are wanted were given, or no more are given, they are the first trees in
/// the order of their cursors. This law computes nothing.
pub fn listings_grow()
    ensures { ListingsGrow }
{}

/// The first trees in the order of their cursors, so many or all, are one list. This law computes
/// nothing.
pub fn listing_is_one()
    ensures { ListingIsOne }
{}
