//! Laws of printed texts: each is the contract of a function that computes nothing.

ghost use Rattle.ig_w3c.specs.TextLaws.{PrintedTextReadsBack};

/// Where some text reads as a grammar, its printed text does too. This law, proved of every
/// grammar, computes nothing.
pub fn printed_text_reads_back()
    ensures { PrintedTextReadsBack }
{
    ig_show::canonical_tokens_follow();
    ig_text::normal_form_is_normal();
    ig_text::normal_ranges_stay();
    ig_w3c_syntax::fronts_are_runs();
    ig_w3c_syntax::standing_tokens_are_longest();
    ig_w3c_syntax::tokens_have_forms();
    ig_w3c_syntax::reads_have_forms();
}
