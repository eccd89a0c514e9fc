//! Laws of reading: each is the contract of a function that computes nothing.

ghost use Rattle.ig_w3c.specs.Laws.{OneReading, ReadOrRefused, ReadGrammarsAreRegular};
ghost use Rattle.ig_w3c.specs.Laws.{ReadNamesAreNames, ReadGrammarsAreWritten};
ghost use Rattle.ig_w3c.specs.Laws.{ReadGrammarsHaveReadings};

/// A text reads as one grammar at most. This law, proved of all texts, computes nothing.
pub fn one_reading()
    ensures { OneReading }
{
    ig_w3c_syntax::tokens_are_single();
    ig_w3c_syntax::one_reading();
}

/// A text that reads as a grammar has no fault but want of memory. This law, proved of all texts,
/// computes nothing.
pub fn texts_are_read_or_refused()
    ensures { ReadOrRefused }
{
    ig_w3c_syntax::tokens_are_single();
    ig_w3c_syntax::texts_never_do_both();
}

/// A grammar that is read is regular, and has at most as many declarations as a grammar text may
/// have bytes. This law, proved of all texts, computes nothing.
pub fn read_grammars_are_regular()
    ensures { ReadGrammarsAreRegular }
{
    ig_w3c_syntax::tokens_are_few();
    ig_w3c_syntax::tokens_have_forms();
    ig_w3c_syntax::declarations_read();
    ig_notation_syntax::reads_are_regular();
    ig_notation_syntax::reads_are_counted();
}

/// Each name in a grammar that is read is a name of the notation. This law, proved of all texts,
/// computes nothing.
pub fn read_names_are_names()
    ensures { ReadNamesAreNames }
{
    ig_w3c_syntax::tokens_have_forms();
    ig_notation_syntax::reads_are_named();
}

/// In a grammar that is read stands neither a sequence nor an entry, which come from passes alone,
/// and no declaration is plain. This law, proved of all texts, computes nothing.
pub fn read_grammars_are_written()
    ensures { ReadGrammarsAreWritten }
{
    ig_notation::rules_have_forms_of_text();
}

/// A grammar that is read has a reading, which is what its printing asks. This law, proved of all
/// texts, computes nothing.
pub fn read_grammars_have_readings()
    ensures { ReadGrammarsHaveReadings }
{}
