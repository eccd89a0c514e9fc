//! What holds of grammars that are read, in either notation. The functions do nothing: their
//! contracts are the laws.
ghost use Rattle.ig_command_sources.specs.Laws.{OneReading, ReadOrRefused, ReadGrammarsAreRegular};
ghost use Rattle.ig_command_sources.specs.Laws.{ReadGrammarsAreWritten, ReadNamesAreNames};
ghost use Rattle.ig_command_sources.specs.Laws.{ReadGrammarsAreBuildable, ReadGrammarsStayRegular};
ghost use Rattle.ig_command_sources.specs.Laws.{ReadGrammarsHaveReadings};

use ig_core::{notation_is_buildable, passes_are_regular};

/// A text reads as one grammar at most. This law computes nothing.
pub fn one_reading()
    ensures { OneReading }
{
    ig_notation::one_reading();
    ig_w3c::one_reading();
}

/// A text that reads as a grammar has no fault but want of memory. This law computes nothing.
pub fn texts_are_read_or_refused()
    ensures { ReadOrRefused }
{
    ig_notation::texts_are_read_or_refused();
    ig_w3c::texts_are_read_or_refused();
}

/// A grammar that is read is regular, and has at most as many declarations as a grammar text may
/// have bytes. This law computes nothing.
pub fn read_grammars_are_regular()
    ensures { ReadGrammarsAreRegular }
{
    ig_notation::read_grammars_are_regular();
    ig_w3c::read_grammars_are_regular();
}

/// Each name in a grammar that is read is a name of the own notation. This law computes nothing.
pub fn read_names_are_names()
    ensures { ReadNamesAreNames }
{
    ig_notation::read_names_are_names();
    ig_w3c::read_names_are_names();
}

/// In a grammar that is read stands nothing that comes from passes alone. This law computes
/// nothing.
pub fn read_grammars_are_written()
    ensures { ReadGrammarsAreWritten }
{
    ig_notation::read_grammars_are_written();
    ig_w3c::read_grammars_are_written();
}

/// A grammar that is read from a text and well scoped can be built, as it is written. This law
/// computes nothing.
pub fn read_grammars_are_buildable()
    ensures { ReadGrammarsAreBuildable }
{
    notation_is_buildable();
    read_grammars_are_regular();
    read_grammars_are_written();
    read_names_are_names();
}

/// What each pass in turn leaves of a grammar that is read from a text and well scoped is regular,
/// with its bounds on counts. This law computes nothing.
pub fn read_grammars_stay_regular()
    ensures { ReadGrammarsStayRegular }
{
    read_grammars_are_buildable();
    read_grammars_are_regular();
    passes_are_regular();
}

/// A grammar that is read in the notation of the XML recommendation can be printed in it. This law
/// computes nothing.
pub fn read_grammars_have_readings()
    ensures { ReadGrammarsHaveReadings }
{
    ig_w3c::read_grammars_have_readings();
}
