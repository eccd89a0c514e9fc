ghost use Rattle.ig_show.specs.Laws.{CanonicalTokensFollow, CanonicalTextReadsBack};

/// The tokens of the canonical text of a grammar follow the rules of the notation as that grammar,
/// where any tokens do. This law, proved of every grammar, computes nothing.
pub fn canonical_tokens_follow()
    ensures { CanonicalTokensFollow }
{}

/// The canonical text of a grammar reads as that grammar, where any text does. This law, proved of
/// every grammar, computes nothing.
pub fn canonical_text_reads_back()
    ensures { CanonicalTextReadsBack }
{
    ig_notation_syntax::ended_tokens_are_longest();
    crate::spelling_laws::fixed_tokens_are_spelled();
    crate::spelling_laws::tokens_are_spelled();
}
