//! What the passes keep, and how much they add. The functions compute nothing: their contracts are
//! the laws.

ghost use Rattle.ig_lexical.specs.Laws.{LayoutKeeps, FiltersKeep};
ghost use Rattle.ig_lexical.specs.Laws.{LayoutMultiplies, FiltersMultiply};

/// With layout called in the open, a sound grammar without operators and marks permits the same
/// trees, with the same values, and stays sound; each declaration is plain. This law, proved of all
/// such grammars, computes nothing.
pub fn layout_keeps()
    ensures { LayoutKeeps }
{
    ig_meaning::trees_without_operators_are_clean();
    ig_pass::results_are_ready();
    ig_pass::declarations_are_found();
    ig_pass::root_keeps();
    ig_pass::same_trees_is_an_equivalence();
}

/// With its follow and precede filters as guards, a sound grammar without operators, marks and
/// layout permits the same trees, with the same values, and stays sound; of its filters only
/// exclusions are left. This law, proved of all such grammars, computes nothing.
pub fn filters_keep()
    ensures { FiltersKeep }
{
    ig_expr::tests_look_for_matches();
    ig_meaning::trees_without_operators_are_clean();
    ig_pass::results_are_ready();
    ig_pass::declarations_are_found();
    ig_pass::root_keeps();
    ig_pass::same_trees_is_an_equivalence();
}

/// A grammar with fewer than n declarations, levels, alternatives and symbols has fewer than
/// 3 * (n + 2) of each with layout called in the open. This law, proved of all checked grammars,
/// computes nothing.
pub fn layout_multiplies()
    ensures { LayoutMultiplies }
{
    ig_grammar::counts_by_form();
    ig_pass::counts_grow();
}

/// A grammar with fewer than n declarations, levels, alternatives and symbols has fewer than
/// 2 * (n + 2) of each with its follow and precede filters as guards. This law, proved of all
/// checked grammars, computes nothing.
pub fn filters_multiply()
    ensures { FiltersMultiply }
{
    ig_grammar::counts_by_form();
    ig_pass::counts_grow();
}
