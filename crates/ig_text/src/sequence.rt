ghost use Rattle.std.specs.Prelude.{◌≡◌, ◌↔◌, ◌<◌, ◌^◌, [], ◌∷◌, ◌++◌, length, IsTrue};
ghost use Rattle.std.specs.Prelude.{OnOk, OnErr, IfErr};
ghost use Rattle.std.specs.declared.alloc.Global as memory;
ghost use Rattle.std.specs.Iterator.Runs.{EveryRun, ItemsAre, ItemsMapTo};
ghost use Rattle.std.specs.Slice.Iter.{iter_rest, iter_steps};
ghost use Rattle.std.specs.Vec.Iter.{into_iter_items, into_iter_len, into_iter_steps};

use crate::copied::Copied;
use std::alloc::{AllocError, Global};
use std::marker::Model;
use std::{slice, vec};

/// A list, at whose end `push` adds.
#[derive(Drop)]
pub struct Sequence<T> {
    cells: Vec<T>,
}

impl<T> Model for Sequence<T> {
    ghost use Rattle.std.specs.Prelude.{List};

    ghost Value = { List T };

    ghost view = { λ s. s.cells.items };
}

impl<T> Sequence<T> {
    /// The empty list. Takes no memory.
    pub fn new(alloc: Global) -> Self
        ensures { result ≡ [] }
    {
        Sequence {
            cells: Vec::new(alloc),
        }
    }

    /// Adds the value at the end. Refused for want of memory, it hands the value back, and the
    /// list is as before.
    pub fn push(&mut self, value: T) -> Result<(), (T, AllocError)>
        ensures ok { OnOk result (self.new ≡ self.old ++ value ∷ []) }
        ensures err { OnErr result (self.new ≡ self.old) }
        ensures value_returned { IfErr result (λ e. e.0 ≡ value) }
    {
        match self.cells.push(value) {
            Ok(()) => Ok(()),
            Err(full) => Err((full.value, AllocError)),
        }
    }

    /// The list of the values. Takes no memory.
    pub fn from_vec(cells: Vec<T>) -> Self
        ensures { result ≡ cells.items }
    {
        Sequence { cells }
    }

    /// The values of the list. Takes no memory.
    pub fn into_vec(self) -> Vec<T>
        ensures { result.items ≡ self }
    {
        self.cells
    }

    /// The values, in order. Takes no memory.
    pub fn as_slice(&self) -> &[T]
        ensures { result.now ≡ self.now }
    {
        self.cells.as_slice()
    }

    /// The number of values. Takes no memory.
    pub fn len(&self) -> usize
        ensures { result ≡ length self.now }
    {
        self.cells.len()
    }

    /// Whether there is no value. Takes no memory.
    pub fn is_empty(&self) -> bool
        ensures { IsTrue result ↔ (self.now ≡ []) }
    {
        self.cells.is_empty()
    }

    /// The values one after another, by reference. Takes no memory.
    pub fn iter(&self) -> slice::Iter<'_, T>
        ensures { iter_rest result ≡ self.now }
    {
        self.cells.as_slice().iter()
    }
}

/// The values one after another, by reference. Takes no memory.
impl<'a, T> IntoIterator for &'a Sequence<T> {
    type Item = &'a T;

    type IntoIter = slice::Iter<'a, T>;

    ghost into_iter_gives = { λ s it. (iter_rest it ≡ s.now) × (length (iter_rest it) < 2 ^ 64)
        × EveryRun (iter_steps {A = T}) (λ p. ItemsMapTo p (λ x. x.now) (iter_rest p.from)) };

    fn into_iter(self) -> slice::Iter<'a, T> {
        self.cells.as_slice().iter()
    }
}

/// The values one after another. Takes no memory.
impl<T: Drop> IntoIterator for Sequence<T> {
    type Item = T;

    type IntoIter = vec::IntoIter<T>;

    ghost into_iter_gives = { λ s it. (into_iter_items it ≡ s)
        × (into_iter_len it ≡ length s) × (into_iter_len it < 2 ^ 64)
        × EveryRun (into_iter_steps {X = T} {Z = memory.Global})
        (λ p. ItemsAre p (into_iter_items p.from)) };

    fn into_iter(self) -> vec::IntoIter<T> {
        self.cells.into_iter()
    }
}

impl<T: Copied> Copied for Sequence<T> {
    fn copy(&self, alloc: Global) -> Result<Sequence<T>, AllocError> {
        let mut cells = Vec::with_capacity(alloc, self.cells.len())?;
        for cell in &self.cells {
            cells.push(cell.copy(alloc)?)?;
        }
        Ok(Sequence { cells })
    }
}
