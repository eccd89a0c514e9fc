//! Laws of the rules of the notation: each is the contract of a function that computes nothing.

ghost use Rattle.ig_notation_syntax.specs.RuleLaws.{OneReading, ReadRuns, RunStops, StopsOnce};
ghost use Rattle.ig_notation_syntax.specs.RuleLaws.{ReadsAreCounted, ReadsAreNamed};
ghost use Rattle.ig_notation_syntax.specs.RuleLaws.{ReadsAreRegular};
ghost use Rattle.ig_notation_syntax.specs.RuleLaws.{ReadsAreWritten, ReadsStandWell};

/// Tokens read as one grammar at most. This law, proved of all tokens, computes nothing.
pub fn one_reading()
    ensures { OneReading }
{}

/// Where the machine of `specs/Machine.antt` stops, the tokens stop following the rules. This law,
/// proved of all tokens, computes nothing.
pub fn run_stops()
    ensures { RunStops }
{}

/// The machine takes all tokens that follow the rules. This law, proved of all tokens, computes
/// nothing.
pub fn read_runs()
    ensures { ReadRuns }
{}

/// Tokens stop following the rules at one place at most. This law, proved of all tokens, computes
/// nothing.
pub fn stops_once()
    ensures { StopsOnce }
{}

/// A grammar that tokens read as has only forms that can be written. This law, proved of all
/// tokens, computes nothing.
pub fn reads_are_written()
    ensures { ReadsAreWritten }
{}

/// Where no token is an empty literal, labels, marks, signs and filters of a grammar that the
/// tokens read as stand where they may, and no literal in it is empty. This law, proved of all
/// tokens, computes nothing.
pub fn reads_stand_well()
    ensures { ReadsStandWell }
{}

/// Each name in a grammar that tokens read as is a name of the notation, if those of the tokens
/// are. This law, proved of all tokens, computes nothing.
pub fn reads_are_named()
    ensures { ReadsAreNamed }
{}

/// A grammar that tokens read as has no more declarations, levels, alternatives or symbols than
/// there are tokens. This law, proved of all tokens, computes nothing.
pub fn reads_are_counted()
    ensures { ReadsAreCounted }
{
    ig_grammar::counts_by_form();
}

/// A grammar that fewer than 4,294,967,296 tokens, none an empty literal, read as is regular. This
/// law, proved of all tokens, computes nothing.
pub fn reads_are_regular()
    ensures { ReadsAreRegular }
{
    ig_grammar::counts_by_form();
}
