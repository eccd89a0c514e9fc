ghost use Rattle.std.specs.Bool.{Decides};
ghost use Rattle.std.specs.Prelude.{◌≡◌, ◌↔◌, List, [], ◌∷◌, ◌++◌, IsTrue, OnOk, OnErr, IfErr};
ghost use Rattle.ig_expr.specs.ValueOrder.{value_cmp, values_cmp};

use ig_text::{Copied, Span};
use smallvec::SmallVec;
use std::alloc::{AllocError, Global};
use std::cmp::Ordering;
use std::hash::{Hash, Hasher};
use std::marker::Model;

/// What an expression gives. Values are ordered as `value_cmp` of `specs/ValueOrder.antt` defines:
/// integers by size, false before true, spans by their begin and then by their end.
#[derive(Clone, Copy, PartialEq, Eq, PartialOrd, Ord, Hash, Debug)]
pub enum Value {
    /// An integer.
    Int(i64),
    /// A truth value.
    Bool(bool),
    /// A part of the text, given by its positions alone: it may lie outside, or fall.
    Span(Span),
}

/// The integer 0: it stands in the places of a short list that aren't used.
impl Default for Value {
    fn default() -> Value {
        Value::Int(0)
    }
}

/// A list of values, which serves as a key of hash maps. Up to four values need no allocation.
#[derive(Drop)]
pub struct Values {
    cells: SmallVec<Value, 4>,
}

impl Model for Values {
    ghost use Rattle.std.specs.Prelude.{List};
    ghost use Rattle.ig_expr.specs.declared.value.Value as element;

    ghost Value = { List element.Value };

    ghost view = { λ v. v.cells.items };
}

impl Values {
    /// The empty list. Takes no memory.
    pub fn new(alloc: Global) -> Values
        ensures { result ≡ [] }
    {
        Values {
            cells: SmallVec::new(alloc),
        }
    }

    /// Adds the value at the end. Refused for want of memory, it hands the value back, and the
    /// list is as before.
    pub fn push(&mut self, value: Value) -> Result<(), (Value, AllocError)>
        ensures ok { OnOk result (self.new ≡ self.old ++ value ∷ []) }
        ensures err { OnErr result (self.new ≡ self.old) }
        ensures value_returned { IfErr result (λ e. e.0 ≡ value) }
    {
        match self.cells.push(value) {
            Ok(()) => Ok(()),
            Err(full) => Err((full.value, AllocError)),
        }
    }

    /// The values, in order. Takes no memory.
    pub fn as_slice(&self) -> &[Value]
        ensures { result.now ≡ self.now }
    {
        self.cells.as_slice()
    }
}

impl Copied for Values {
    fn copy(&self, alloc: Global) -> Result<Values, AllocError> {
        let cells = SmallVec::from_slice(alloc, self.cells.as_slice())?;
        Ok(Values { cells })
    }
}

impl PartialEq for Values {
    ghost use Rattle.std.specs.Cmp.Lexicographic.{pointwise, lists_per};

    ghost eq = { pointwise ⟦<Value as PartialEq>⟧.eq };

    ghost use Rattle.ig_expr.specs.contracts.value.ValuePartialEq.TheImpl.Laws as values;

    ghost laws = { lists_per values.laws-law };

    /// Whether both lists have equal values.
    fn eq(&self, other: &Values) -> bool
        ensures value { result ≡ ⟦<Values as PartialEq>⟧.eq self.now other.now }
        ensures exact { IsTrue result ↔ (self.now ≡ other.now) }
    {
        self.as_slice() == other.as_slice()
    }
}

impl Eq for Values {
    ghost use Rattle.std.proofs.lemmas.Cmp.{lists_equiv};
    ghost use Rattle.ig_expr.specs.contracts.value.ValueEq.TheImpl.Laws as values;

    ghost laws = { lists_equiv values.laws-law };
}

impl Hash for Values {
    ghost use Rattle.std.specs.Hash as fed;
    ghost use Rattle.std.specs.Hash.{items_Alike};

    ghost hash_input = { fed.slice ⟦<Value as Hash>⟧.hash_input };

    ghost use Rattle.ig_expr.specs.contracts.value.ValueHash.TheImpl.Laws as values;

    ghost respects_eq = { (items_Alike (record { fed = values.respects_eq-law })).fed };

    fn hash<H: Hasher>(&self, state: &mut H) {
        self.as_slice().hash(state);
    }
}

impl PartialOrd for Values {
    ghost use Rattle.std.specs.Cmp.Lexicographic.{slice_partial_cmp, lists_po};
    ghost use Rattle.ig_expr.specs.contracts.value.ValuePartialOrd.TheImpl.Laws as values;

    ghost partial_cmp = { slice_partial_cmp ⟦<Value as PartialOrd>⟧.partial_cmp };

    ghost laws = { lists_po values.laws-law };

    fn partial_cmp(&self, other: &Values) -> Option<Ordering> {
        self.as_slice().partial_cmp(other.as_slice())
    }
}

/// Lists are ordered by their first difference, and a list stands before those that it begins.
impl Ord for Values {
    ghost use Rattle.std.specs.Cmp.Lexicographic.{slice_cmp, lists_total, lists_agrees, lists_ties};
    ghost use Rattle.ig_expr.specs.contracts.value.ValueOrd.TheImpl.Laws as values;

    ghost cmp = { slice_cmp ⟦<Value as Ord>⟧.cmp };

    ghost total = { lists_total values.total-law };

    ghost matches_partial_cmp = { lists_agrees values.matches_partial_cmp-law };

    ghost matches_eq = { lists_ties ⟦<Value as Ord>⟧.cmp values.matches_eq-law };

    /// How the lists are ordered. Takes no memory.
    fn cmp(&self, other: &Values) -> Ordering
        ensures value { result ≡ ⟦<Values as Ord>⟧.cmp self.now other.now }
        ensures order { result ≡ values_cmp self.now other.now }
    {
        self.as_slice().cmp(other.as_slice())
    }
}

/// Lists of values are `==` exactly where they are equal. This law, proved for all lists, computes
/// nothing.
pub fn equal_values_are_one()
    ensures { (xs ys : List Value) → Decides (⟦<Values as PartialEq>⟧.eq xs ys) (xs ≡ ys) }
{}

/// `cmp` at values, as derived, is the order of `specs/ValueOrder.antt`. This law, proved
/// for all values, computes nothing.
pub fn values_are_ordered()
    ensures { (a b : Value) → ⟦<Value as Ord>⟧.cmp a b ≡ value_cmp a b }
{}
