//! What the pass keeps. The functions compute nothing: their contracts are the laws.

ghost use Rattle.ig_blocks_parts.specs.Laws.{AllAreGathered, BlocksKeep, BlocksMultiply};
ghost use Rattle.ig_blocks_parts.specs.Laws.{PairsTellOfBlocks};

/// Without marks a grammar permits the same trees, with the same values, and is as sound as it was,
/// where levels are gone, the added names are new, and no plain declaration stands beside a mark.
/// This law, proved of all such grammars, computes nothing.
pub fn blocks_keep()
    ensures { BlocksKeep }
{
    ig_meaning::spans_are_in_order();
    ig_meaning::derivations_invert();
    ig_meaning::trees_without_operators_are_clean();
    ig_pass::declarations_are_found();
    ig_pass::added_names_are_new();
    ig_pass::symbols_ask();
    ig_pass::asks_elsewhere();
    ig_pass::results_are_ready();
    ig_pass::root_keeps();
    ig_pass::same_trees_is_an_equivalence();
}

/// A grammar with fewer than n declarations, levels, alternatives and symbols has fewer than
/// 5 (n + 2) of each without marks. This law, proved of all checked grammars, computes nothing.
pub fn blocks_multiply()
    ensures { BlocksMultiply }
{
    ig_pass::counts_grow();
    ig_grammar::counts_by_form();
}

/// A pair of a column and a start says of all blocks around a position at once whether each of them
/// allows a token there. This law, proved of all texts and blocks, computes nothing.
pub fn pairs_tell_of_blocks()
    ensures { PairsTellOfBlocks }
{}

/// What becomes of symbols and of alternatives as they are stored is what becomes of them in a
/// sequence and in a group. This law, proved of all of them, computes nothing.
pub fn all_are_gathered()
    ensures { AllAreGathered }
{}
