//! What the lists pass keeps, and how much it adds. The functions compute nothing: their contracts
//! are the laws.

ghost use Rattle.ig_ebnf_variables.specs.Laws.{GroupsAreGathered, ListsAreFew, ListsKeep};
ghost use Rattle.ig_ebnf_variables.specs.Laws.{ListsMultiply};
ghost use Rattle.ig_ebnf_variables.specs.Laws.{LoweringKeeps};

/// With lists, options and groups as calls of added nonterminals, and before the root is added, a
/// checked grammar permits the same trees, with the same values, and stays checked, and the root
/// may be added. This law, proved of all sound grammars without layout, operators, marks, and
/// filters other than exclusions, computes nothing.
pub fn lowering_keeps()
    ensures { LoweringKeeps }
{
    ig_meaning::trees_without_operators_are_clean();
    ig_pass::added_names_are_new();
    ig_pass::symbols_ask();
    ig_pass::asks_elsewhere();
    ig_pass::results_are_ready();
    ig_pass::declarations_are_found();
}

/// With lists, options and groups as calls of added nonterminals, and with the root, a checked
/// grammar permits the same trees, with the same values, and stays checked, and only the forms
/// that remain are left. This law, proved of all sound grammars without layout, operators, marks,
/// and filters other than exclusions, computes nothing.
pub fn lists_keep()
    ensures { ListsKeep }
{
    ig_meaning::trees_without_operators_are_clean();
    ig_pass::added_names_are_new();
    ig_pass::symbols_ask();
    ig_pass::asks_elsewhere();
    ig_pass::results_are_ready();
    ig_pass::declarations_are_found();
    ig_pass::root_keeps();
    ig_pass::same_trees_is_an_equivalence();
}

/// Where symbols stand well and no mark is left, a grammar with fewer than n declarations, levels,
/// alternatives, and symbols with filters becomes one with fewer than 3 (n + 2) of each. This law,
/// proved of all checked grammars, computes nothing.
pub fn lists_multiply()
    ensures { ListsMultiply }
{
    ig_pass::counts_grow();
    ig_grammar::counts_by_form();
}

/// Where a grammar has fewer than so many symbols, fewer than twice as many declarations are added
/// for each of its declarations. This law, proved of all grammars, computes nothing.
pub fn lists_are_few()
    ensures { ListsAreFew }
{
    ig_grammar::counts_by_form();
}

/// The alternatives of a group become what those of a level become. This law, proved of all
/// alternatives, computes nothing.
pub fn groups_are_gathered()
    ensures { GroupsAreGathered }
{}
