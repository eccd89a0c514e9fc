//! Expressions whose variables are looked up before the run.
//!
//! Most expressions that a run evaluates are an integer, a variable, or a comparison of two of
//! them. Where the names are known, such an expression has a [`Form`], which says where its value
//! is.
ghost use Rattle.std.specs.Prelude.{◌≡◌, ◌↔◌, [], ◌∷◌, IfOk, IsTrue, Some, map};
ghost use Rattle.ig_expr.specs.Evaluation.{value_of};
ghost use Rattle.ig_expr.specs.Names.{place_of};
ghost use Rattle.ig_expr.specs.View.{expression_of};
ghost use Rattle.ig_item.specs.View.{step_of};
ghost use Rattle.ig_run_tables.specs.Compiled as spec;
ghost use Rattle.ig_run_tables.specs.Compiled.{AreOwn, expressions_of};

use crate::rows::push_row;
use ig_expr::{Expr, Op, Value, evaluate};
use ig_item::Step;
use ig_text::{Sequence, Text, Word};
use std::alloc::{AllocError, Global};

/// What has its value at hand.
#[derive(Clone, Copy)]
pub enum Atom {
    /// This value.
    Constant(Value),
    /// The current position.
    Here,
    /// The value at that place of the environment.
    Place(usize),
}

/// How the value of an expression is found.
#[derive(Clone, Copy)]
pub enum Form {
    /// It is that of the atom.
    Alone(Atom),
    /// It is what the operator gives at the two atoms.
    Binary(Op, Atom, Atom),
    /// The expression is evaluated.
    Other,
}

/// The form of the expression, where these names are visible.
fn form_of(expression: &Expr, names: &[Word]) -> Form
    ensures { result ≡ spec.form_of names.now (expression_of expression.now) }
{
    match expression {
        Expr::Binary(op, a, b) => {
            let a = atom_of(a.as_expr(), names);
            let b = atom_of(b.as_expr(), names);
            binary(*op, a, b)
        }
        _ => alone(atom_of(expression, names)),
    }
}

/// The form of an atom, if it is one.
fn alone(atom: Option<Atom>) -> Form
    ensures { result ≡ spec.alone atom }
{
    match atom {
        Some(atom) => Form::Alone(atom),
        None => Form::Other,
    }
}

/// The form of an operation on two atoms, if they are some.
fn binary(op: Op, a: Option<Atom>, b: Option<Atom>) -> Form
    ensures { result ≡ spec.binary op a b }
{
    match (a, b) {
        (Some(a), Some(b)) => Form::Binary(op, a, b),
        _ => Form::Other,
    }
}

/// The expression as an atom, where these names are visible; `None` exactly where it is none.
fn atom_of(expression: &Expr, names: &[Word]) -> Option<Atom>
    ensures { result ≡ spec.atom_of names.now (expression_of expression.now) }
{
    match expression {
        Expr::Int(n) => Some(Atom::Constant(Value::Int(*n))),
        Expr::Bool(b) => Some(Atom::Constant(Value::Bool(*b))),
        Expr::Here => Some(Atom::Here),
        Expr::Var(name) => Some(Atom::Place(place_of(names, name)?)),
        _ => None,
    }
}

/// The first place of the name in the list, from 0; `None` exactly where it isn't there.
fn place_of(names: &[Word], name: &Word) -> Option<usize>
    ensures { result ≡ place_of names.now name.now }
{
    names.iter().position(|n| *n == *name)
}

/// The forms of the expressions of a step, where these names are visible.
pub fn forms_of_step(
    alloc: Global,
    step: &Step,
    names: &[Word],
) -> Result<Sequence<Form>, AllocError>
    ensures { IfOk result (λ forms. forms ≡ map (spec.form_of names.now)
        (expressions_of (step_of step.now))) }
{
    match step {
        Step::Test(condition) => form_alone(alloc, condition, names),
        Step::Bind(_, expression) => form_alone(alloc, expression, names),
        Step::Term { .. } => Ok(Sequence::new(alloc)),
        Step::Call { args, .. } => forms_of(alloc, args.as_slice(), names),
    }
}

/// The form of the expression, in a list.
fn form_alone(
    alloc: Global,
    expression: &Expr,
    names: &[Word],
) -> Result<Sequence<Form>, AllocError>
    ensures { IfOk result (λ forms. forms ≡ map (spec.form_of names.now)
        (expression_of expression.now ∷ [])) }
{
    let mut forms = Sequence::new(alloc);
    push_row(&mut forms, form_of(expression, names))?;
    Ok(forms)
}

/// The forms of the expressions.
fn forms_of(
    alloc: Global,
    expressions: &[Expr],
    names: &[Word],
) -> Result<Sequence<Form>, AllocError>
    ensures { IfOk result (λ forms. forms ≡ map (spec.form_of names.now)
        (map expression_of expressions.now)) }
{
    let mut forms = Sequence::new(alloc);
    for expression in expressions {
        push_row(&mut forms, form_of(expression, names))?;
    }
    Ok(forms)
}

/// The form in a list of one.
pub fn only(forms: &[Form]) -> &Form
    requires { (form : Form) × (forms.now ≡ form ∷ []) }
    ensures { forms.now ≡ result.now ∷ [] }
{
    &forms[0]
}

/// The value of an expression of that form, as [`evaluate`] gives it. Takes no memory.
#[inline(always)]
pub fn value(
    form: &Form,
    expression: &Expr,
    names: &[Word],
    values: &[Value],
    here: u32,
    text: &Text,
) -> Option<Value>
    requires { form.now ≡ spec.form_of names.now (expression_of expression.now) }
    ensures { result ≡ value_of text.now names.now values.now here (expression_of expression.now) }
{
    match form {
        Form::Alone(atom) => value_at(atom, values, here),
        Form::Binary(op, a, b) => {
            let a = value_at(a, values, here);
            match compared(*op, a, value_at(b, values, here)) {
                Some(holds) => Some(Value::Bool(holds)),
                None => evaluate(expression, names, values, here, text),
            }
        }
        Form::Other => evaluate(expression, names, values, here, text),
    }
}

/// Whether what these forms stand for are, in order, the values of the environment, all of them
/// atoms.
pub fn are_own(forms: &[Form], values: &[Value], here: u32) -> bool
    ensures { IsTrue result ↔ AreOwn values.now here forms.now }
{
    if forms.len() != values.len() {
        return false;
    }
    for (place, form) in forms.iter().enumerate() {
        if !has_value(form, values[place], values, here) {
            return false;
        }
    }
    true
}

/// Whether the form is an atom with that value.
fn has_value(form: &Form, value: Value, values: &[Value], here: u32) -> bool
    ensures { IsTrue result ↔ (spec.value_by values.now here form.now ≡ Some value) }
{
    match form {
        Form::Alone(atom) => is_value(value_at(atom, values, here), value),
        _ => false,
    }
}

/// Whether the value is there, and that one.
fn is_value(there: Option<Value>, value: Value) -> bool
    ensures { IsTrue result ↔ (there ≡ Some value) }
{
    match there {
        Some(other) => other == value,
        None => false,
    }
}

/// The value of the atom in an environment with these values, at the position `here`.
fn value_at(atom: &Atom, values: &[Value], here: u32) -> Option<Value>
    ensures { result ≡ spec.value_at values.now here atom.now }
{
    match atom {
        Atom::Constant(value) => Some(*value),
        Atom::Here => Some(Value::Int(i64::from(here))),
        Atom::Place(place) => values.get(*place).copied(),
    }
}

/// How two integers compare, where the operator compares.
fn compared(op: Op, a: Option<Value>, b: Option<Value>) -> Option<bool>
    ensures { result ≡ spec.compared op a b }
{
    match (a, b) {
        (Some(Value::Int(a)), Some(Value::Int(b))) => comparison(op, a, b),
        _ => None,
    }
}

/// How the integers compare, where the operator compares.
fn comparison(op: Op, a: i64, b: i64) -> Option<bool>
    ensures { result ≡ spec.comparison op a b }
{
    match op {
        Op::Less => Some(a < b),
        Op::LessEqual => Some(a <= b),
        Op::Greater => Some(a > b),
        Op::GreaterEqual => Some(a >= b),
        Op::Equal => Some(a == b),
        Op::NotEqual => Some(a != b),
        _ => None,
    }
}
