//! What the pass keeps, what bounds ask, and how much the pass adds. The functions compute nothing:
//! their contracts are the laws.

ghost use Rattle.ig_levels.specs.Laws.{BoundsAskOfSpines, LevelsKeep, LevelsMultiply};

/// A sound grammar in which nothing binds or reads `.l` and `.r` permits the same trees without
/// levels, with the same values, stays sound and has no operators, and what else was unbound in it
/// stays so. This law, proved of all such grammars, computes nothing.
pub fn levels_keep()
    ensures { LevelsKeep }
{
    ig_meaning::trees_without_operators_are_clean();
    ig_pass::added_names_are_new();
    ig_pass::declarations_are_found();
    ig_pass::root_keeps();
    ig_pass::same_trees_is_an_equivalence();
    ig_pass::asks_elsewhere();
    ig_pass::binders_are_counted();
    ig_pass::results_are_ready();
}

/// Under the bounds l and r a levelled nonterminal has, without levels, exactly those of its trees
/// that keep to the levels at each node, whose left spine has at least the level l at each node
/// with a left operand, and whose right spine at least r at each node with a right operand. This
/// law, proved of all such grammars, computes nothing.
pub fn bounds_ask_of_spines()
    ensures { BoundsAskOfSpines }
{
    ig_meaning::trees_without_operators_are_clean();
    ig_pass::added_names_are_new();
    ig_pass::declarations_are_found();
    ig_pass::root_keeps();
    ig_pass::same_trees_is_an_equivalence();
    ig_pass::asks_elsewhere();
    ig_pass::binders_are_counted();
    ig_pass::results_are_ready();
}

/// A grammar with fewer than n declarations, levels, alternatives and symbols has fewer than
/// 3 (n + 2) of each without levels. This law, proved of all checked grammars, computes nothing.
pub fn levels_multiply()
    ensures { LevelsMultiply }
{
    ig_grammar::counts_by_form();
    ig_pass::counts_grow();
}
