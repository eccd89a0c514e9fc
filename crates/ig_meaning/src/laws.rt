ghost use Rattle.ig_meaning.specs.AnnotatedLaws.{AnnotationsAreComplete, AnnotationsAreUnique};
ghost use Rattle.ig_meaning.specs.AnnotatedLaws.{DerivationsAreAnnotated};
ghost use Rattle.ig_meaning.specs.Inversion.{DerivationsInvert};
ghost use Rattle.ig_meaning.specs.Laws.{EnvironmentsGrow, LabelsBindOwnSpans};
ghost use Rattle.ig_meaning.specs.Laws.{PermittedTreesAreWhole, SpansAreInOrder};
ghost use Rattle.ig_meaning.specs.Laws.{TreesWithoutOperatorsAreClean};
ghost use Rattle.ig_meaning.specs.Order.{PermittedTreesAreOrdered, UndifferingTreesAreEqual};

use ig_expr::trees_are_ordered;

/// A derivation of each form of symbol consists of what the rules of derivations say of this form.
/// This law, proved of every derivation, computes nothing.
pub fn derivations_invert()
    ensures { DerivationsInvert }
{}

/// What a symbol covers ends where it begins or behind, its own end lies between, and what begins
/// in the text ends in it. This law, proved of every derivation, computes nothing.
pub fn spans_are_in_order()
    ensures { SpansAreInOrder }
{}

/// What symbols leave is the environment in which they stand, with the names that they bind at its
/// end. This law, proved of every derivation, computes nothing.
pub fn environments_grow()
    ensures { EnvironmentsGrow }
{}

/// A label round a symbol that may have one binds the span of the symbol's first tree, which ends
/// at the symbol's own end. This law, proved of every such derivation, computes nothing.
pub fn labels_bind_own_spans()
    ensures { LabelsBindOwnSpans }
{}

/// A permitted tree is a root over the whole text. This law, proved of every grammar and text,
/// computes nothing.
pub fn permitted_trees_are_whole()
    ensures { PermittedTreesAreWhole }
{}

/// Where no declaration has a second level, or a level that is `left`, `right` or `nonassoc`, every
/// tree is clean, at each of its nodes. This law, proved of every such grammar, computes nothing.
pub fn trees_without_operators_are_clean()
    ensures { TreesWithoutOperatorsAreClean }
{}

/// For what is derived, and for each permitted tree, there are trees with the values that the
/// alternatives bind, which are the derived ones without them. This law, proved of every
/// derivation, computes nothing.
pub fn derivations_are_annotated()
    ensures { DerivationsAreAnnotated }
{}

/// The values in a tree are the same for each of its derivations, where no name is declared twice
/// and each declaration is of its shape, as in every checked grammar. This law, proved of all trees
/// with values, computes nothing.
pub fn annotations_are_unique()
    ensures { AnnotationsAreUnique }
{}

/// A node has one value for each label and each let of its alternative, in order, and so has the
/// node of an option, a list or a group for those of its parts. This law, proved of all trees with
/// values, computes nothing.
pub fn annotations_are_complete()
    ensures { AnnotationsAreComplete }
{}

/// Trees of one symbol over one span, and permitted trees, are equal where they don't differ, if no
/// name is declared twice and each declaration is of its shape, as in every checked grammar. This
/// law, proved of every derivation, computes nothing.
pub fn undiffering_trees_are_equal()
    ensures { UndifferingTreesAreEqual }
{}

/// The order in which permitted trees are listed: none stands before itself, it is transitive, and
/// of two trees one stands before the other, under the same two conditions. This law, proved of
/// every derivation, computes nothing.
pub fn permitted_trees_are_ordered()
    ensures { PermittedTreesAreOrdered }
{
    trees_are_ordered();
}
