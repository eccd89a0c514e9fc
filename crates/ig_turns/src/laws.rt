//! What holds of lists. The function does nothing: its contract is the law.
ghost use Rattle.ig_turns.specs.Laws.{WrittenListsAreRead};

/// The text of 1 to 64 jobs reads as these. This law computes nothing.
pub fn written_lists_are_read()
    ensures { WrittenListsAreRead }
{}
