//! Laws of the load's grammar and its inputs. The functions do nothing: their contracts are the
//! laws.
ghost use Rattle.ig_load.specs.Laws.{ChainsArePermitted, LoadInputsArePermitted};
ghost use Rattle.ig_load.specs.Laws.{LoadTextReads};

use crate::input_laws::inputs_are_chains;
use ig_notation_syntax::ended_tokens_are_longest;

/// The text of the grammar reads as the grammar, which is well scoped. This law computes nothing.
pub fn load_text_reads()
    ensures { LoadTextReads }
{
    ended_tokens_are_longest();
}

/// The grammar permits a tree for each chain of letters with operators between them. This law
/// computes nothing.
pub fn chains_are_permitted()
    ensures { ChainsArePermitted }
{}

/// The grammar permits a tree for the input of each size and number. This law computes nothing.
pub fn load_inputs_are_permitted()
    ensures { LoadInputsArePermitted }
{
    chains_are_permitted();
    inputs_are_chains();
}
