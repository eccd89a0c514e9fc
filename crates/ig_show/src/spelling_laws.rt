ghost use Rattle.ig_show.specs.SpellingLaws.{FixedTokensAreSpelled, TokensAreSpelled};

/// By the table of tokens, the canonical spelling of each sign and of each keyword is one of that
/// sign or keyword. This law, proved of all, computes nothing.
pub fn fixed_tokens_are_spelled()
    ensures { FixedTokensAreSpelled }
{}

/// By the table of tokens, the canonical spelling of a token is one of that token, where it has
/// any. This law, proved of every token, computes nothing.
pub fn tokens_are_spelled()
    ensures { TokensAreSpelled }
{
    ig_text::normal_form_is_normal();
    ig_text::normal_ranges_stay();
}
