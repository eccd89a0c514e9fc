//! The kinds of values, and of what steps bind.
ghost use Rattle.std.specs.Prelude.{◌≡◌, ◌↔◌, ◌++◌, IsTrue, OnOk, map, option_map};
ghost use Rattle.std.specs.Option.{option_to_list};
ghost use Rattle.ig_expr.specs.Kinds.{kind_of_value};
ghost use Rattle.ig_item.specs.View.{step_of};
ghost use Rattle.ig_item.specs.Visible.{kinds_of, kinds_of_label};

use ig_expr::{Kind, Kinds, Value, kind_of};
use ig_item::Step;
use ig_text::Word;
use std::alloc::AllocError;

/// The kind of a value.
fn kind_of_value(value: Value) -> Kind
    ensures { result ≡ kind_of_value value }
{
    match value {
        Value::Int(_) => Kind::Int,
        Value::Bool(_) => Kind::Bool,
        Value::Span(_) => Kind::Span,
    }
}

/// Whether the values have these kinds.
pub(crate) fn have_kinds(values: &[Value], kinds: &[Kind]) -> bool
    ensures { IsTrue result ↔ (map kind_of_value values.now ≡ kinds.now) }
{
    if values.len() != kinds.len() {
        return false;
    }
    for (place, value) in values.iter().enumerate() {
        if kind_of_value(*value) != kinds[place] {
            return false;
        }
    }
    true
}

/// The kind of what a label binds, if there is one.
fn kind_of_label(label: &Option<Word>) -> Option<Kind>
    ensures { option_to_list result ≡ kinds_of_label label.now }
{
    match label {
        Some(_) => Some(Kind::Span),
        None => None,
    }
}

/// The kind of what the step binds, if anything, where these names with these kinds are visible;
/// `None` exactly where its expression has no kind.
pub(crate) fn kind_bound(step: &Step, names: &[Word], kinds: &[Kind]) -> Option<Option<Kind>>
    ensures { option_map option_to_list result ≡
        kinds_of names.now kinds.now (step_of step.now) }
{
    match step {
        Step::Test(_) => Some(None),
        Step::Bind(_, value) => match kind_of(value, names, kinds) {
            Some(kind) => Some(Some(kind)),
            None => None,
        },
        Step::Term { label, .. } => Some(kind_of_label(label)),
        Step::Call { label, .. } => Some(kind_of_label(label)),
    }
}

/// Adds a kind, if there is one.
pub(crate) fn push_bound(kinds: &mut Kinds, bound: Option<Kind>) -> Result<(), AllocError>
    ensures { OnOk result (kinds.new ≡ kinds.old ++ option_to_list bound) }
{
    match bound {
        Some(kind) => kinds.push(kind).map_err(|(_, error)| error),
        None => Ok(()),
    }
}
