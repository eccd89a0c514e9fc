//! Whether a step leads from one item to another one, and takes what an entry says.
ghost use Rattle.std.specs.Prelude.{◌≡◌, ◌↔◌, ◌∷◌, [], ◌++◌, IsTrue, Some, map};
ghost use Rattle.std.specs.Option.{option_to_list};
ghost use Rattle.ig_text.specs.Pattern.{Matches};
ghost use Rattle.ig_expr.specs.View.{expression_of};
ghost use Rattle.ig_item.specs.Gives.{leaf, nothing, tree};
ghost use Rattle.ig_item.specs.Items.{HaveValues, past};
ghost use Rattle.ig_item.specs.Step.{Bind, Call, Term, Test};
ghost use Rattle.ig_run_tables.specs.Compiled.{form_of};
ghost use Rattle.ig_verify.specs.Code.{IsNext, shown, shown_key};
ghost use Rattle.ig_verify.specs.Takes.{StepTakes};

use ig_expr::{Expr, Value, equal_values_are_one};
use ig_forest_tables::{ItemNode, Node};
use ig_run_tables::{Known, Qualifiers, is_true, matches_none, only, span_bound, value};
use ig_text::{Pattern, Span, Text, Word};

/// Whether both lists have the same values. Most have none.
#[inline(always)]
pub(crate) fn are_same(a: &[Value], b: &[Value]) -> bool
    ensures { IsTrue result ↔ (a.now ≡ b.now) }
{
    equal_values_are_one();
    if a.is_empty() {
        return b.is_empty();
    }
    a == b
}

/// Whether the list has the values of the first one, and behind them this one, if any.
fn is_extended(values: &[Value], first: &[Value], bound: Option<Value>) -> bool
    ensures { IsTrue result ↔ (values.now ≡ first.now ++ option_to_list bound) }
{
    let Some(value) = bound else {
        return are_same(values, first);
    };
    match values.split_last() {
        Some((last, others)) => *last == value && are_same(others, first),
        None => false,
    }
}

/// Whether both items are of one alternative of one instance, the second one a dot further.
fn is_next(it: &ItemNode<'_>, to: &ItemNode<'_>) -> bool
    ensures { IsTrue result ↔ IsNext (shown it.now) (shown to.now) }
{
    if to.dot <= it.dot || to.dot - 1 != it.dot {
        return false;
    }
    to.nonterminal == it.nonterminal
        && to.start == it.start
        && to.alternative == it.alternative
        && are_same(to.values, it.values)
}

/// Whether the second item is the one behind the next step, which bound this value, if any, and
/// came to that position.
fn is_past(it: &ItemNode<'_>, to: &ItemNode<'_>, bound: Option<Value>, position: u32) -> bool
    ensures { IsTrue result ↔
        (shown to.now ≡ past (shown it.now) (option_to_list bound) position) }
{
    if to.position != position {
        return false;
    }
    is_next(it, to) && is_extended(to.env, it.env, bound)
}

/// Whether the condition is true, and the second item the one behind it.
pub(crate) fn test_leads(
    known: &Known<'_>,
    condition: &Expr,
    it: &ItemNode<'_>,
    to: &ItemNode<'_>,
    text: &Text,
) -> bool
    requires { known.now.forms.now ≡
        form_of known.now.names.now (expression_of condition.now) ∷ [] }
    ensures { IsTrue result ↔ StepTakes text.now known.now.names.now (shown it.now)
        (Test (expression_of condition.now)) nothing (shown to.now) }
{
    let form = only(known.forms);
    if !is_true(condition, form, known.names, it.env, it.position, text) {
        return false;
    }
    is_past(it, to, None, it.position)
}

/// Whether the expression has a value, and the second item is the one behind it.
pub(crate) fn bind_leads(
    known: &Known<'_>,
    name: &Word,
    expression: &Expr,
    it: &ItemNode<'_>,
    to: &ItemNode<'_>,
    text: &Text,
) -> bool
    requires { known.now.forms.now ≡
        form_of known.now.names.now (expression_of expression.now) ∷ [] }
    ensures { IsTrue result ↔ StepTakes text.now known.now.names.now (shown it.now)
        (Bind name.now (expression_of expression.now)) nothing (shown to.now) }
{
    let form = only(known.forms);
    match value(form, expression, known.names, it.env, it.position, text) {
        Some(value) => is_past(it, to, Some(value), it.position),
        None => false,
    }
}

/// Whether the text from i to j is a match of the pattern.
fn is_match(pattern: &Pattern, text: &Text, i: u32, j: u32) -> bool
    ensures { IsTrue result ↔ Matches text.now pattern.now i j }
{
    match pattern.ends_at(text, i) {
        Some(end) => end == j,
        None => false,
    }
}

/// Whether the pattern matches the leaf, and the second item is the one behind it.
pub(crate) fn terminal_leads(
    known: &Known<'_>,
    what: &Pattern,
    qualifiers: &Qualifiers<'_>,
    it: &ItemNode<'_>,
    to: &ItemNode<'_>,
    span: Span,
    text: &Text,
) -> bool
    ensures { IsTrue result ↔ StepTakes text.now known.now.names.now (shown it.now)
        (Term what.now qualifiers.now.label.now qualifiers.now.not.now) (leaf span)
        (shown to.now) }
{
    let Span { begin, end } = span;
    if begin != it.position || !is_match(what, text, begin, end) {
        return false;
    }
    if !matches_none(qualifiers.not, text, begin, end) {
        return false;
    }
    is_past(it, to, span_bound(qualifiers.label, begin, end), end)
}

/// Whether the arguments have these values where the item stands.
fn have_values(
    known: &Known<'_>,
    arguments: &[Expr],
    it: &ItemNode<'_>,
    values: &[Value],
    text: &Text,
) -> bool
    requires { known.now.forms.now ≡
        map (form_of known.now.names.now) (map expression_of arguments.now) }
    ensures { IsTrue result ↔ HaveValues text.now (shown it.now) known.now.names.now
        (map expression_of arguments.now) values.now }
{
    if arguments.len() != values.len() {
        return false;
    }
    for (place, argument) in arguments.iter().enumerate() {
        let form = &known.forms[place];
        let there = value(form, argument, known.names, it.env, it.position, text);
        if !is_value(there, values[place]) {
            return false;
        }
    }
    true
}

/// Whether the value is there, and that one.
fn is_value(there: Option<Value>, value: Value) -> bool
    ensures { IsTrue result ↔ (there ≡ Some value) }
{
    match there {
        Some(other) => other == value,
        None => false,
    }
}

/// Whether the node is one of the callee with the values of these arguments, and the second item
/// is the one behind it.
pub(crate) fn call_leads(
    known: &Known<'_>,
    callee: u32,
    arguments: &[Expr],
    qualifiers: &Qualifiers<'_>,
    it: &ItemNode<'_>,
    to: &ItemNode<'_>,
    node: &Node<'_>,
    text: &Text,
) -> bool
    requires { known.now.forms.now ≡
        map (form_of known.now.names.now) (map expression_of arguments.now) }
    ensures { IsTrue result ↔ StepTakes text.now known.now.names.now (shown it.now)
        (Call callee (map expression_of arguments.now) qualifiers.now.label.now
        qualifiers.now.not.now) (tree (shown_key node.now)) (shown to.now) }
{
    let (here, end) = (it.position, node.span.end);
    if node.nonterminal != callee || node.span.begin != here {
        return false;
    }
    if !have_values(known, arguments, it, node.values, text) {
        return false;
    }
    if !matches_none(qualifiers.not, text, here, end) {
        return false;
    }
    is_past(it, to, span_bound(qualifiers.label, here, end), end)
}
