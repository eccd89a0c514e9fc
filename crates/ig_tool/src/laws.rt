//! What holds of outcomes. The functions do nothing: their contracts are the laws.
ghost use Rattle.ig_tool.specs.Held.{OutcomesRestOnNames};

/// Where no fetch failed, what is decided rests on what is held under the names that the words give
/// and, where they ask for a batch, the lines of its list. This law computes nothing.
pub fn outcomes_rest_on_names()
    ensures { OutcomesRestOnNames }
{}
