ghost use Rattle.ig_show_trees.specs.Laws.{CursorTextsDiffer};

/// A text is that of one cursor at most, of those whose numbers have 32 bits. This law computes
/// nothing.
pub fn cursor_texts_differ()
    ensures { CursorTextsDiffer }
{}
