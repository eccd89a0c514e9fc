//! Laws of reading: each is the contract of a function that computes nothing.

ghost use Rattle.ig_notation.specs.Outcome.{OneReading, ReadOrRefused};
ghost use Rattle.ig_notation.specs.Outcome.{ReadGrammarsAreRegular, ReadGrammarsAreWritten};
ghost use Rattle.ig_notation.specs.Outcome.{ReadNamesAreNames, RulesHaveFormsOfText};

/// A text reads as one grammar at most. This law, proved of all texts, computes nothing.
pub fn one_reading()
    ensures { OneReading }
{
    ig_notation_syntax::tokens_are_single();
    ig_notation_syntax::one_reading();
}

/// A text that reads as a grammar has no fault but want of memory. This law, proved of all texts,
/// computes nothing.
pub fn texts_are_read_or_refused()
    ensures { ReadOrRefused }
{
    ig_notation_syntax::tokens_are_single();
    ig_notation_syntax::texts_never_do_both();
}

/// A grammar that is read is regular, and has at most as many declarations as a grammar text may
/// have bytes. This law, proved of all texts, computes nothing.
pub fn read_grammars_are_regular()
    ensures { ReadGrammarsAreRegular }
{
    ig_notation_syntax::tokens_are_few();
    ig_notation_syntax::reads_are_regular();
    ig_notation_syntax::reads_are_counted();
}

/// Each name in a grammar that is read is a name of the notation: those declared, those of
/// parameters, labels and lets, those called, and the variables of expressions. This law, proved of
/// all texts, computes nothing.
pub fn read_names_are_names()
    ensures { ReadNamesAreNames }
{
    ig_notation_syntax::reads_are_named();
}

/// In a grammar that is read stands neither a sequence nor an entry, which come from passes alone,
/// and no declaration is plain. This law, proved of all texts, computes nothing.
pub fn read_grammars_are_written()
    ensures { ReadGrammarsAreWritten }
{
    rules_have_forms_of_text();
}

/// In a grammar that tokens read as by the rules stands neither a sequence nor an entry, and no
/// declaration is plain. This law, proved of all tokens, computes nothing.
pub fn rules_have_forms_of_text()
    ensures { RulesHaveFormsOfText }
{
    ig_notation_syntax::reads_are_written();
}
