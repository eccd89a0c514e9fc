//! What passes rest on. The functions compute nothing: their contracts are the laws.

ghost use Rattle.ig_pass.specs.Added.{AddedNamesAreNew};
ghost use Rattle.ig_pass.specs.Asked.{AsksElsewhere, SymbolsAsk};
ghost use Rattle.ig_pass.specs.Binders.{BindersAreCounted};
ghost use Rattle.ig_pass.specs.Counts.{CountsGrow};
ghost use Rattle.ig_pass.specs.Found.{DeclarationsAreFound};
ghost use Rattle.ig_pass.specs.KeptByRoot.{RootKeeps};
ghost use Rattle.ig_pass.specs.Passing.{ResultsAreReady};
ghost use Rattle.ig_pass.specs.Rooted.{RootedIsTheSame};
ghost use Rattle.ig_pass.specs.SameTrees.{SameTreesIsAnEquivalence};

/// A grammar permits the same trees as itself; where one permits those of another, and that one
/// those of a third, all three do. A grammar keeps its own values, and two steps that keep values
/// keep them together. This law, proved of all checked grammars, computes nothing.
pub fn same_trees_is_an_equivalence()
    ensures { SameTreesIsAnEquivalence }
{}

/// No name that a pass adds is one of the notation, and the names of added nonterminals tell for
/// which declaration they were added, and their numbers. This law, proved of all names, computes
/// nothing.
pub fn added_names_are_new()
    ensures { AddedNamesAreNew }
{}

/// The declaration of a name is the first one with that name. A declaration that is found stands at
/// a place among the others, under its name, and so does that of the layout nonterminal. Where no
/// two have one name, as in a well-scoped grammar, each declaration is that of its name. Where each
/// declaration is changed and keeps its name, that of a name is the changed one. This law, proved
/// of all declarations, computes nothing.
pub fn declarations_are_found()
    ensures { DeclarationsAreFound }
{}

/// A checked grammar without a declaration that stands for the root permits the same trees with
/// `$root` as its last declaration, if none has that name, with the same values, and stays
/// checked; it stays regular where the counts stay below their bound. This law, proved of all such
/// grammars, computes nothing.
pub fn rooted_is_the_same()
    ensures { RootedIsTheSame }
{}

/// A sound grammar is sound with its root written, and permits the same trees, with the same
/// values; and what passes ask of a grammar holds of it with its root where it held before. This
/// law, proved of all checked grammars, computes nothing.
pub fn root_keeps()
    ensures { RootKeeps }
{
    added_names_are_new();
    rooted_is_the_same();
    same_trees_is_an_equivalence();
}

/// As many symbols of an alternative bind a name of the notation as there are labels and lets with
/// such names in it, whatever is visible. This law, proved of all symbols, computes nothing.
pub fn binders_are_counted()
    ensures { BindersAreCounted }
{}

/// A symbol gets what its form asks of the place where it stands exactly where no condition holds
/// of it there. This law, proved of all symbols, computes nothing.
pub fn symbols_ask()
    ensures { SymbolsAsk }
{}

/// What a symbol asks it gets elsewhere, too, where its variables have the same kinds, its names
/// are new, and more arguments fit more parameters. This law, proved of all symbols, computes
/// nothing.
pub fn asks_elsewhere()
    ensures { AsksElsewhere }
{}

/// Where a pass gives of its result what `specs/Passing.antt` lists, a grammar that is well scoped,
/// regular in form and free of some names stays so. This law, proved of all passes, computes
/// nothing.
pub fn results_are_ready()
    ensures { ResultsAreReady }
{}

/// Where a pass's own rule adds n symbols to a symbol at most, and no alternatives, the numbers of
/// levels, alternatives and symbols of a declaration are multiplied by n + 1 at most. Where those
/// of each declaration are multiplied by k at most, so is a bound on those of the grammar; the
/// declaration that stands for the root raises it by two at most. This law, proved of all passes,
/// computes nothing.
pub fn counts_grow()
    ensures { CountsGrow }
{
    ig_grammar::counts_by_form();
}
