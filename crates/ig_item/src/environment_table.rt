//! EnvironmentTable: lists of values, side by side in one vector.
ghost use Rattle.std.specs.Prelude.{◌≡◌, [], ◌∷◌, ◌++◌, IfOk, OnOk, OnErr, length, slice_get};
ghost use Rattle.std.specs.Option.{option_copied};
ghost use Rattle.ig_item.specs.Parts.{IsPartOf, values_in};

use crate::numbers::number;
use ig_expr::Value;
use std::alloc::{AllocError, Global};
use std::marker::Model;

/// Where a list stands in the vector of all values.
#[derive(Clone, Copy)]
struct Part {
    begin: u32,
    end: u32,
}

/// A list of environments: each has the values of the parameters, and then those bound so far. They
/// are numbered from 0.
#[derive(Drop)]
pub struct EnvironmentTable {
    values: Vec<Value>,
    parts: Vec<Part>,
}

impl Model for EnvironmentTable {
    ghost use Rattle.std.specs.Prelude.{List, map};
    ghost use Rattle.ig_expr.specs.declared.value.Value as element;
    ghost use Rattle.ig_item.specs.Parts.{ArePartsOf, values_in};

    ghost Value = { List (List element.Value) };

    ghost view = { λ s. map (values_in s.values.items) s.parts.items };

    ghost invariant = { λ s. ArePartsOf s.values.items s.parts.items };
}

impl EnvironmentTable {
    /// The empty list. Takes no memory.
    pub fn new(alloc: Global) -> EnvironmentTable
        ensures { result ≡ [] }
    {
        EnvironmentTable {
            values: Vec::new(alloc),
            parts: Vec::new(alloc),
        }
    }

    /// The number of environments. Takes no memory.
    pub fn len(&self) -> usize
        ensures { result ≡ length self.now }
    {
        self.parts.len()
    }

    /// An environment by its number, from 0; `None` exactly where the number isn't there. Takes no
    /// memory.
    pub fn get(&self, k: u32) -> Option<&[Value]>
        ensures { option_copied result ≡ slice_get self.now k }
    {
        let part = part_at(self.parts.as_slice(), k)?;
        Some(values_of(self.values.as_slice(), part))
    }

    /// Adds an environment of these values at the end. Refused for want of memory, and where all
    /// environments together would have 4,294,967,296 values; then the list is as before.
    pub fn push(&mut self, values: &[Value]) -> Result<(), AllocError>
        ensures ok { OnOk result (self.new ≡ self.old ++ values.now ∷ []) }
        ensures err { OnErr result (self.new ≡ self.old) }
    {
        let begin = number(self.values.as_slice().len())?;
        let end = number(self.values.as_slice().len().saturating_add(values.len()))?;
        self.values.extend_from_slice(values)?;
        self.parts.push(Part { begin, end })?;
        Ok(())
    }
}

/// The values of a part.
fn values_of(values: &[Value], part: Part) -> &[Value]
    requires { IsPartOf values.now part }
    ensures { result.now ≡ values_in values.now part }
{
    &values[part.begin as usize..part.end as usize]
}

/// The part of that number, from 0.
fn part_at(parts: &[Part], k: u32) -> Option<Part>
    ensures { result ≡ slice_get parts.now k }
{
    parts.get(k as usize).copied()
}
