//! The law of counts. Its function computes nothing: its contract is the law.

ghost use Rattle.ig_grammar.specs.Laws.{CountsByForm};

/// The counts of a symbol are its own and those of the symbols directly inside it, and each symbol
/// has one part at least. This law, proved of all symbols, computes nothing.
pub fn counts_by_form()
    ensures { CountsByForm }
{}
