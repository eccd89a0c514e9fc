//! Worked grammars: the trees that each one permits for a text, all of them up to a height, and
//! texts that it refuses. Each is a law that computes nothing: it is proved by an enumeration of
//! derivations that is sound and complete. How many trees a text has, or that it has none, is said
//! of the trees of at most the height that the definition names.
#![tactic(auto)]

ghost use Rattle.ig_meaning_examples.specs.Blocks.{DeclarationsAreBlocks, NestedBlocksAreAsked};
ghost use Rattle.ig_meaning_examples.specs.Blocks.{GreaterColumnsCount, TokensUnderBlocksAreSeen};
ghost use Rattle.ig_meaning_examples.specs.Data.{NamesAreCompared, LettersAreCounted};
ghost use Rattle.ig_meaning_examples.specs.Matches.{MatchesAreKnown};
ghost use Rattle.ig_meaning_examples.specs.Keyword.{KeywordsAreExcluded};
ghost use Rattle.ig_meaning_examples.specs.Nullable.{EmptyPairsArePermitted};
ghost use Rattle.ig_meaning_examples.specs.Nullable.{HiddenLeftRecursionIsPermitted};
ghost use Rattle.ig_meaning_examples.specs.Operators.{LevelsBind, SpinesAreWhole};
ghost use Rattle.ig_meaning_examples.specs.Operators.{ComparisonsStandAlone};
ghost use Rattle.ig_meaning_examples.specs.Levels.{OperatorsGroupToTheRight};
ghost use Rattle.ig_meaning_examples.specs.Levels.{LabelledCallsAreOperands};
ghost use Rattle.ig_meaning_examples.specs.Levels.{FilteredCallsAreNoOperands, BracketsAreClean};
ghost use Rattle.ig_meaning_examples.specs.Levels.{SingleCallsAreNoOperands};
ghost use Rattle.ig_meaning_examples.specs.Bindings.{LetsStandBehindLayout};
ghost use Rattle.ig_meaning_examples.specs.Bindings.{GroupsKeepTheirBindings};
ghost use Rattle.ig_meaning_examples.specs.Bindings.{GuardsWantAValue};
ghost use Rattle.ig_meaning_examples.specs.Layout.{OptionsHaveLayout, CallsOfLayoutAreNoTokens};
ghost use Rattle.ig_meaning_examples.specs.Layout.{LexicalStartsHaveLayout, LayoutMayStart};
ghost use Rattle.ig_meaning_examples.specs.Layout.{LabelsBindOwnEnds};
ghost use Rattle.ig_meaning_examples.specs.Filters.{FiltersAreAskedAtOwnEnds, FiltersLookBack};
ghost use Rattle.ig_meaning_examples.specs.Filters.{NegatedClassesExclude};
ghost use Rattle.ig_meaning_examples.specs.Columns.{SeparatorsAreFree, AlignedListsHaveFilters};
ghost use Rattle.ig_meaning_examples.specs.Columns.{BlocksSeeAllTokens};
ghost use Rattle.ig_meaning_examples.specs.Passes.{SequencesStandInPlace, EntriesBindInside};
ghost use Rattle.ig_meaning_examples.specs.Passes.{RootsAreReadByTheirKind, ShapesGiveTags};
ghost use Rattle.ig_meaning_examples.specs.Widths.{TabsGoOnToStops, BlocksSeeTabs, ListsSeeTabs};

use ig_expr::{matches_are_decided, matches_have_their_width};

/// Where matches are is decided, and a match is as long as its pattern says.
fn matches_are_known()
    ensures { MatchesAreKnown }
{
    matches_are_decided();
    matches_have_their_width();
}

/// With `start S; syntax S = S S | "a" | ;` the empty text has one tree of height 2 and one of
/// height 3.
pub fn empty_pairs_are_permitted()
    ensures { EmptyPairsArePermitted }
{
    matches_are_known();
}

/// With `start S; syntax S = B S "x" | "y"; syntax B = ;` the text `yxx` has one tree, and `xy` has
/// none up to height 6.
pub fn hidden_left_recursion_is_permitted()
    ensures { HiddenLeftRecursionIsPermitted }
{
    matches_are_known();
}

/// With `start E; syntax E = [0-9] > left E "*" E > left E "+" E | E "-" E;` the one tree of
/// `1-2-3` groups to the left, the one tree of `1+2*3` is a sum, and `1-` has none up to height 6.
pub fn levels_bind()
    ensures { LevelsBind }
{
    matches_are_known();
}

/// With `start E; syntax E = [a-c] > left E "*" E > left E "+" E > "-" E;` the sign takes `b+c` in
/// the one tree of `a*-b+c`. With `start E; syntax E = "a" > E "!" > left E "*" E > E "?";` the
/// text `a*a?!` has one tree.
pub fn spines_are_whole()
    ensures { SpinesAreWhole }
{
    matches_are_known();
}

/// With `start E; syntax E = [a-c] > nonassoc E "<" E;` the text `a<b` has one tree, and `a<b<c`
/// has none up to height 6.
pub fn comparisons_stand_alone()
    ensures { ComparisonsStandAlone }
{
    matches_are_known();
}

/// With `start El; syntax El = "<" n: Name ">" El* "</" m: Name ">" when (same(n, m));` and names
/// of letters the text `<a></a>` has one tree, and `<a></b>` has none up to height 8.
pub fn names_are_compared()
    ensures { NamesAreCompared }
{
    matches_are_known();
}

/// With `start S; syntax S = "{" n: Num "}" Body(number(n));`, numbers of digits and
/// `syntax Body(k: int) = when (k == 0) | when (k > 0) [a-z] Body(k - 1);` the text `{3}abc` has
/// one tree, and `{2}abc` has none up to height 8.
pub fn letters_are_counted()
    ensures { LettersAreCounted }
{
    matches_are_known();
}

/// With `start P; syntax P = align (offside Decl)*; syntax Decl = Id "=" Id+;`, identifiers and
/// layout a declaration may go on in a further line that stands to its right, and not, up to
/// height 13, at its column.
pub fn declarations_are_blocks()
    ensures { DeclarationsAreBlocks }
{
    matches_are_known();
}

/// With `start S; syntax S = offside B; syntax B = offside Id offside N; syntax N = | "!";`,
/// identifiers and layout an empty block may stand in column 1, and a token inside it, up to height
/// 10, may not.
pub fn nested_blocks_are_asked()
    ensures { NestedBlocksAreAsked }
{
    matches_are_known();
}

/// With `start S; syntax S = offside ("a" offside (ignore "b" offside (ignore "c" "d")));` and
/// layout the `d` stands to the right of the `a`, the `b` and the `c`: up to height 13 there is no
/// tree where it doesn't.
pub fn greater_columns_count()
    ensures { GreaterColumnsCount }
{
    matches_are_known();
}

/// With `start S; syntax S = offside ("a" offside "b" "c");` and layout the `b` and the `c` stand
/// to the right of the `a`: up to height 9 there is no tree where one doesn't.
pub fn tokens_under_blocks_are_seen()
    ensures { TokensUnderBlocksAreSeen }
{
    matches_are_known();
}

/// With `start S; syntax S = Id; lexical Id = [a-z]+ !>> [a-z] \ "if";` the text `iff` has one
/// tree, and `if` has none up to height 8.
pub fn keywords_are_excluded()
    ensures { KeywordsAreExcluded }
{
    matches_are_known();
}

/// With `start E; syntax E = [a-c] > right E "^" E;` the one tree of `a^b^c` groups to the right.
pub fn operators_group_to_the_right()
    ensures { OperatorsGroupToTheRight }
{
    matches_are_known();
}

/// With `start E; syntax E = "a" > left l: E "+" when (size(l) > 0) r: E let n = (size(r));` the
/// one tree of `a+a+a` groups to the left.
pub fn labelled_calls_are_operands()
    ensures { LabelledCallsAreOperands }
{
    matches_are_known();
}

/// With `start E; syntax E = "a" > left E "+" E !>> "!";` the text `a+a+a` has two trees.
pub fn filtered_calls_are_no_operands()
    ensures { FilteredCallsAreNoOperands }
{
    matches_are_known();
}

/// With `start E; syntax E = "a" | "(" E ")" > left E "+" E;` the text `(a+a+a)` has one tree.
pub fn brackets_are_clean()
    ensures { BracketsAreClean }
{
    matches_are_known();
}

/// With `start S; syntax S = E(0); syntax E(n: int) = "a" > left E(0) "+" E(0) > when (n == 0)
/// E(1);` the text `a+a` has eight trees.
pub fn single_calls_are_no_operands()
    ensures { SingleCallsAreNoOperands }
{
    matches_are_known();
}

/// With `start S; syntax S = "a" let k = (here) B(here) when (k == 2);`, `syntax B(n: int) = when
/// (n == 2) "b";` and layout the text `a b` has one tree.
pub fn lets_stand_behind_layout()
    ensures { LetsStandBehindLayout }
{
    matches_are_known();
}

/// With `start S; syntax S = (x: "aa") x: "a" when (size(x) == 1);` the text `aaa` has one tree.
pub fn groups_keep_their_bindings()
    ensures { GroupsKeepTheirBindings }
{
    matches_are_known();
}

/// With `start S; syntax S = when ((1 div 0) == 1);` the empty text has no tree up to height 8.
pub fn guards_want_a_value()
    ensures { GuardsWantAValue }
{
    matches_are_known();
}

/// With `start S; syntax S = "a" "b"? "c";` and layout the texts `a b c` and `ac` have one tree
/// each.
pub fn options_have_layout()
    ensures { OptionsHaveLayout }
{
    matches_are_known();
}

/// With `start S; syntax S = offside ("a" "\n" W "b"); layout W = "-"?;` the `-` of `a\n-b` is the
/// layout behind the line end, or the layout that the rule calls.
pub fn calls_of_layout_are_no_tokens()
    ensures { CallsOfLayoutAreNoTokens }
{
    matches_are_known();
}

/// With `start L; lexical L = "a"; layout W = [ ]*;` the text ` a ` has one tree.
pub fn lexical_starts_have_layout()
    ensures { LexicalStartsHaveLayout }
{
    matches_are_known();
}

/// With `start W; syntax S = "a"; layout W = [ ]*;` a blank has two trees.
pub fn layout_may_start()
    ensures { LayoutMayStart }
{
    matches_are_known();
}

/// With `start S; syntax S = x: "a" y: ("b") when (size(x) == 1) when (size(y) == 2);` and layout
/// the text `a b ` has one tree.
pub fn labels_bind_own_ends()
    ensures { LabelsBindOwnEnds }
{
    matches_are_known();
}

/// With `start S; syntax S = "a" !>> "b" "b";` and layout the text `a b` has one tree, and with
/// `("a")` in place of `"a"` it has none up to height 12.
pub fn filters_are_asked_at_own_ends()
    ensures { FiltersAreAskedAtOwnEnds }
{
    matches_are_known();
}

/// With `start S; syntax S = A "b" !<< "a"; syntax A = "a" | "c";` the text `cb` has one tree, and
/// `ab` has none up to height 12.
pub fn filters_look_back()
    ensures { FiltersLookBack }
{
    matches_are_known();
}

/// With `start S; syntax S = [^a];` the text `b` has one tree, and `a` has none up to height 12.
pub fn negated_classes_exclude()
    ensures { NegatedClassesExclude }
{
    matches_are_known();
}

/// With `start P; syntax P = align {A ","}*; lexical A = [a-z];` and layout the texts `a\n ,\nb`
/// and the empty one have one tree each, and `a,\n b` has none up to height 12.
pub fn separators_are_free()
    ensures { SeparatorsAreFree }
{
    matches_are_known();
}

/// With `start S; syntax S = align ("a" "\n")* !>> "a" ("a" "\n")*;` the text `a\na\n` has one
/// tree.
pub fn aligned_lists_have_filters()
    ensures { AlignedListsHaveFilters }
{
    matches_are_known();
}

/// With `start S; syntax S = offside X;` and layout, where X is `("x" "y"?)`, `("x" align A+)`,
/// `{"a" ","}+` or `(ignore "a" "b")`, a further line stands to the right of the first token: up to
/// height 12 there is no tree where it doesn't.
pub fn blocks_see_all_tokens()
    ensures { BlocksSeeAllTokens }
{
    matches_are_known();
}

/// What a sequence binds is seen behind it, and a label round one, which no pass writes, binds all
/// of it.
pub fn sequences_stand_in_place()
    ensures { SequencesStandInPlace }
{
    matches_are_known();
}

/// The bindings of an entry are evaluated before any of them counts, and count inside it alone: up
/// to height 8 the empty text has no tree.
pub fn entries_bind_inside()
    ensures { EntriesBindInside }
{
    matches_are_known();
}

/// A declaration that stands for the root has layout between its tokens exactly where it is a
/// syntax declaration: of a plain one ` a ` has no tree up to height 8.
pub fn roots_are_read_by_their_kind()
    ensures { RootsAreReadByTheirKind }
{
    matches_are_known();
}

/// A declaration that stands for an option, a list or a group gives the tags of that form: in two
/// texts each tag of each form.
pub fn shapes_give_tags()
    ensures { ShapesGiveTags }
{
    matches_are_known();
}

/// With `start S; tabs 4; syntax S = "\t"? "a" when (column(here) == 6);` the text of a tab and
/// `a` has one tree, and `a` has none; and so on for tabs at other columns, on a second line, and
/// of other widths.
pub fn tabs_go_on_to_stops()
    ensures { TabsGoOnToStops }
{
    matches_are_known();
}

/// With `start S; tabs 4; syntax S = offside ("a" "b");` and layout with tabs, `a` behind a tab has
/// `b` below it behind a tab and a blank, or five blanks, and not behind four.
pub fn blocks_see_tabs()
    ensures { BlocksSeeTabs }
{
    matches_are_known();
}

/// With declarations under `align` and `tabs 4;` one line may begin with a tab, and the next one
/// with four blanks, and not with three.
pub fn lists_see_tabs()
    ensures { ListsSeeTabs }
{
    matches_are_known();
}
