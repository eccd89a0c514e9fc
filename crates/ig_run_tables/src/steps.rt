//! What a step asks of the text, and what it binds.
ghost use Rattle.std.specs.Prelude.{◌≡◌, ◌↔◌, [], ◌∷◌, ◌++◌, List, map, IfOk, IsTrue, None, OnOk};
ghost use Rattle.std.specs.Prelude.{Some, true};
ghost use Rattle.ig_text.specs.Pattern.{Matches};
ghost use Rattle.std.specs.Option.{option_to_list};
ghost use Rattle.ig_expr.specs.Evaluation.{value_of};
ghost use Rattle.ig_expr.specs.View.{expression_of};
ghost use Rattle.ig_expr.specs.declared.value.Value.{Value};
ghost use Rattle.ig_expr.specs.declared.value.Value.TheVariants.{Bool as truth};
ghost use Rattle.ig_item.specs.Items.{MatchesNone, span_of};
ghost use Rattle.ig_run_tables.specs.Compiled.{AreValuesOf, form_of, values_in};
ghost use Rattle.ig_run_tables.specs.declared.steps.Arguments.{Arguments};

use crate::compiled::{Form, are_own, value};
use crate::names::Known;
use ig_expr::{Expr, Value, Values};
use ig_text::{Copied, Pattern, Span, Text, Word};
use std::alloc::{AllocError, Global};

/// What a step says of the text that it covers.
#[derive(Clone, Copy)]
pub struct Qualifiers<'a> {
    /// The name to which its span is bound, if any.
    pub label: &'a Option<Word>,
    /// The patterns of which it is to be no match.
    pub not: &'a [Pattern],
}

/// Whether the text from i to j, positions in characters from 0, is a match of none of the
/// patterns. Takes no memory.
pub fn matches_none(patterns: &[Pattern], text: &Text, i: u32, j: u32) -> bool
    ensures { IsTrue result ↔ MatchesNone text.now patterns.now i j }
{
    for pattern in patterns {
        if is_match(pattern, text, i, j) {
            return false;
        }
    }
    true
}

/// Whether the text from i to j is a match of the pattern.
fn is_match(pattern: &Pattern, text: &Text, i: u32, j: u32) -> bool
    ensures { IsTrue result ↔ Matches text.now pattern.now i j }
{
    let Some(end) = pattern.ends_at(text, i) else {
        return false;
    };
    end == j
}

/// What the label binds: the span from i to j, positions in characters from 0; `None` exactly where
/// there is no label.
pub fn span_bound(label: &Option<Word>, i: u32, j: u32) -> Option<Value>
    ensures { option_to_list result ≡ span_of label.now i j }
{
    match label {
        Some(_) => Some(Value::Span(Span { begin: i, end: j })),
        None => None,
    }
}

/// Whether the condition, which has that form, is true at the position `here`; one without a value
/// isn't. Takes no memory.
pub fn is_true(
    condition: &Expr,
    form: &Form,
    names: &[Word],
    values: &[Value],
    here: u32,
    text: &Text,
) -> bool
    requires { form.now ≡ form_of names.now (expression_of condition.now) }
    ensures { IsTrue result ↔ (value_of text.now names.now values.now here (expression_of
        condition.now) ≡ Some (truth true)) }
{
    holds(value(form, condition, names, values, here, text))
}

/// Whether the value of a condition is there, and true.
fn holds(value: Option<Value>) -> bool
    ensures { IsTrue result ↔ (value ≡ Some (truth true)) }
{
    match value {
        Some(Value::Bool(b)) => b,
        Some(_) => false,
        None => false,
    }
}

/// The values of a call's arguments.
#[derive(Drop)]
pub enum Arguments {
    /// They are those of the caller's environment, in order.
    Own,
    /// They are these.
    Listed(Values),
}

/// The values of the arguments at the position `here`; `None` exactly where one of them has no
/// value. They mostly are the values of the environment; then no list is made. Refused for want of
/// memory alone.
pub fn argument_values(
    alloc: Global,
    known: &Known<'_>,
    arguments: &[Expr],
    values: &[Value],
    here: u32,
    text: &Text,
) -> Result<Option<Arguments>, AllocError>
    requires { known.now.forms.now ≡
        map (form_of known.now.names.now) (map expression_of arguments.now) }
    ensures none { IfOk result (λ r. r ≡ None → (vs : List Value) → AreValuesOf text.now
        known.now.names.now values.now here (map expression_of arguments.now) vs → ⊥) }
    ensures some { IfOk result (λ r. (a : Arguments) → r ≡ Some a → AreValuesOf text.now
        known.now.names.now values.now here (map expression_of arguments.now)
        (values_in values.now a)) }
{
    if are_own(known.forms, values, here) {
        return Ok(Some(Arguments::Own));
    }
    listed(alloc, known, arguments, values, here, text)
}

/// The values of the arguments in a list of their own; `None` exactly where one of them has no
/// value.
fn listed(
    alloc: Global,
    known: &Known<'_>,
    arguments: &[Expr],
    values: &[Value],
    here: u32,
    text: &Text,
) -> Result<Option<Arguments>, AllocError>
    requires { known.now.forms.now ≡
        map (form_of known.now.names.now) (map expression_of arguments.now) }
    ensures none { IfOk result (λ r. r ≡ None → (vs : List Value) → AreValuesOf text.now
        known.now.names.now values.now here (map expression_of arguments.now) vs → ⊥) }
    ensures some { IfOk result (λ r. (a : Arguments) → r ≡ Some a → AreValuesOf text.now
        known.now.names.now values.now here (map expression_of arguments.now)
        (values_in values.now a)) }
{
    match listed_values(alloc, known, arguments, values, here, text)? {
        Some(list) => Ok(Some(Arguments::Listed(list))),
        None => Ok(None),
    }
}

/// The values of the arguments in a list; `None` exactly where one of them has no value.
fn listed_values(
    alloc: Global,
    known: &Known<'_>,
    arguments: &[Expr],
    values: &[Value],
    here: u32,
    text: &Text,
) -> Result<Option<Values>, AllocError>
    requires { known.now.forms.now ≡
        map (form_of known.now.names.now) (map expression_of arguments.now) }
    ensures none { IfOk result (λ r. r ≡ None → (vs : List Value) → AreValuesOf text.now
        known.now.names.now values.now here (map expression_of arguments.now) vs → ⊥) }
    ensures some { IfOk result (λ r. (vs : List Value) → r ≡ Some vs → AreValuesOf text.now
        known.now.names.now values.now here (map expression_of arguments.now) vs) }
{
    let mut list = Values::new(alloc);
    for (place, argument) in arguments.iter().enumerate() {
        let form = &known.forms[place];
        match value(form, argument, known.names, values, here, text) {
            Some(value) => push_value(&mut list, value)?,
            None => return Ok(None),
        }
    }
    Ok(Some(list))
}

/// The values with one more at the end. Refused for want of memory alone.
pub fn extended(alloc: Global, values: &Values, value: Value) -> Result<Values, AllocError>
    ensures { IfOk result (λ longer. longer ≡ values.now ++ value ∷ []) }
{
    let mut longer = values.copy(alloc)?;
    push_value(&mut longer, value)?;
    Ok(longer)
}

/// Adds a value at the end. Refused for want of memory alone.
fn push_value(values: &mut Values, value: Value) -> Result<(), AllocError>
    ensures { OnOk result (values.new ≡ values.old ++ value ∷ []) }
{
    values.push(value).map_err(|refused| refused.1)
}
