ghost use Rattle.ig_notation_syntax.specs.TokenLaws.{BreakIsSingle, LexesOrBreaks, NeverBoth};
ghost use Rattle.ig_notation_syntax.specs.TokenLaws.{TokensAreSingle};
ghost use Rattle.ig_notation_syntax.specs.TokenLaws.{EndedTokensAreLongest, LongestTokenIsNext};
ghost use Rattle.ig_notation_syntax.specs.TokenLaws.{TokensAreFew};

/// What the scanner of `specs/Scanner.antt` finds first in a text is a separator, or the longest
/// token that stands there, or the end of the text; it finds none of these where the text is
/// broken. This law, proved of every text, computes nothing.
pub fn longest_token_is_next()
    ensures { LongestTokenIsNext }
{}

/// A text has one list of tokens at most. This law, proved of every text, computes nothing.
pub fn tokens_are_single()
    ensures { TokensAreSingle }
{}

/// A text breaks at one byte at most. This law, proved of every text, computes nothing.
pub fn break_is_single()
    ensures { BreakIsSingle }
{}

/// A text is a sequence of tokens and separators, or breaks somewhere. This law, proved of every
/// text, computes nothing.
pub fn texts_lex_or_break()
    ensures { LexesOrBreaks }
{}

/// No text is a sequence of tokens and breaks as well. This law, proved of every text, computes
/// nothing.
pub fn texts_never_do_both()
    ensures { NeverBoth }
{}

/// A text has no more tokens than characters. This law, proved of every text, computes nothing.
pub fn tokens_are_few()
    ensures { TokensAreFew }
{}

/// A token that stands first is the longest where what follows it makes none longer. This law,
/// proved of every text, computes nothing.
pub fn ended_tokens_are_longest()
    ensures { EndedTokensAreLongest }
{}
