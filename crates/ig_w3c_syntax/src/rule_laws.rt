//! Laws of the rules of the notation of the XML recommendation: each is the contract of a function
//! that computes nothing.

ghost use Rattle.ig_w3c_syntax.specs.RuleLaws.{KeptRulesRead, OneReading, RunStops, RunKeeps};
ghost use Rattle.ig_w3c_syntax.specs.RuleLaws.{ReadsHaveForms, DeclarationsRead};

/// Tokens that keep the rules read as a grammar. This law, proved of all tokens, computes nothing.
pub fn kept_rules_read()
    ensures { KeptRulesRead }
{}

/// Tokens read as one grammar at most. This law, proved of all tokens, computes nothing.
pub fn one_reading()
    ensures { OneReading }
{
    ig_notation_syntax::one_reading();
}

/// Where the machine stops, the tokens stop following the rules. This law, proved of all tokens,
/// computes nothing.
pub fn run_stops()
    ensures { RunStops }
{
    kept_rules_read();
}

/// Where the machine takes all tokens, they keep the rules. This law, proved of all tokens,
/// computes nothing.
pub fn run_keeps()
    ensures { RunKeeps }
{}

/// A grammar that tokens of whole characters read as has the form of rules: lexical declarations of
/// one level, of which the first is the start. This law, proved of all tokens, computes nothing.
pub fn reads_have_forms()
    ensures { ReadsHaveForms }
{
    one_reading();
}

/// The declarations of a grammar that tokens read as are those that the tokens are in the own
/// notation, without its start line. This law, proved of all tokens, computes nothing.
pub fn declarations_read()
    ensures { DeclarationsRead }
{
    one_reading();
}
