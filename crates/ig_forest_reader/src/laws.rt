//! That texts tell drafts. The functions do nothing: their contracts are the laws.
ghost use Rattle.ig_forest_reader.specs.Written.{ListsAreTold, TextsTellDrafts};

/// A list of values is told by its text and the bracket after it. This law computes nothing.
pub fn lists_of_values_are_told()
    ensures { ListsAreTold }
{}

/// A text is of one draft at most. This law computes nothing.
pub fn texts_tell_drafts()
    ensures { TextsTellDrafts }
{}
