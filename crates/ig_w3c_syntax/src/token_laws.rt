//! Laws of the tokens of a text: each is the contract of a function that computes nothing.

ghost use Rattle.ig_w3c_syntax.specs.TokenLaws.{TokensAreSingle, BreakIsSingle, NeverBoth};
ghost use Rattle.ig_w3c_syntax.specs.TokenLaws.{TokensAreFew, TokensHaveForms};
ghost use Rattle.ig_w3c_syntax.specs.TokenLaws.{StandingTokensAreLongest};
ghost use Rattle.ig_w3c_syntax.specs.TokenLaws.{FrontsAreRuns};

/// A text has one list of tokens at most. This law, proved of every text, computes nothing.
pub fn tokens_are_single()
    ensures { TokensAreSingle }
{}

/// A text breaks at one byte at most. This law, proved of every text, computes nothing.
pub fn break_is_single()
    ensures { BreakIsSingle }
{}

/// No text is a sequence of tokens and breaks as well. This law, proved of every text, computes
/// nothing.
pub fn texts_never_do_both()
    ensures { NeverBoth }
{}

/// A text has at least four characters for each head, and one for each other token. This law,
/// proved of every text, computes nothing.
pub fn tokens_are_few()
    ensures { TokensAreFew }
{}

/// Each token of a text has the form of one: a name is a name of the notation, a string has
/// characters other than its quote and LF, a code names a character, and the class of a set has
/// parts that don't fall. This law, proved of every text, computes nothing.
pub fn tokens_have_forms()
    ensures { TokensHaveForms }
{}

/// A token that stands first is the longest that does; a name, where no `::=` stands after it.
/// This law, proved of every text, computes nothing.
pub fn standing_tokens_are_longest()
    ensures { StandingTokensAreLongest }
{}

/// Characters of a kind, with none of it behind them, are the longest front of that kind. This law,
/// proved of every kind, computes nothing.
pub fn fronts_are_runs()
    ensures { FrontsAreRuns }
{}
