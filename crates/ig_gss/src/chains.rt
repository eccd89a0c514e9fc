//! Marks of nodes. Those of one node are chained from the latest to the earliest, so that adding
//! one writes to no other.
ghost use Rattle.std.specs.Prelude.{◌≡◌, ◌≤◌, ◌++◌, [], ◌∷◌, length, reverse, slice_get};
ghost use Rattle.std.specs.Prelude.{IfOk, OnErr, OnOk};
ghost use Rattle.std.specs.Option.{option_copied};
ghost use Rattle.std.specs.Iterator.{YieldsFirstBy, item_count};
ghost use Rattle.ig_gss.specs.Chains.{cell, chain, found};

use ig_arena::Arena;
use std::alloc::{AllocError, Global};
use std::marker::Model;

/// A mark, and the place + 1 of the one before it of the same node, which is 0 where it is the
/// first.
#[derive(Clone, Copy)]
pub struct Cell<T> {
    pub mark: T,
    pub earlier: u32,
}

/// The kind of the numbers of cells.
pub struct Marks;

/// Marks of nodes, in the order in which they came.
#[derive(Drop)]
pub struct Chains<T: Copy> {
    cells: Arena<Marks, Cell<T>>,
}

impl<T: Copy> Model for Chains<T> {
    ghost use Rattle.std.specs.Prelude.{List, reverse};
    ghost use Rattle.ig_gss.specs.declared.chains.Cell as stored;
    ghost use Rattle.ig_gss.specs.Chains.{AreOnward};

    ghost Value = { List (stored.Cell T) };

    ghost view = { λ s. s.cells.values };

    ghost invariant = { λ s. AreOnward (reverse s.cells.values) };
}

impl<T: Copy> Chains<T> {
    /// No marks. Takes no memory.
    pub fn new(alloc: Global) -> Self
        ensures { result ≡ [] }
    {
        Chains {
            cells: Arena::new(alloc),
        }
    }

    /// Adds a mark behind the one at the place + 1 `earlier`, and gives its own place + 1. Refused
    /// for want of memory, or of a number of 32 bits, the marks are as before.
    #[inline(always)]
    pub fn add(&mut self, mark: T, earlier: u32) -> Result<u32, AllocError>
        requires { earlier ≤ length self.old }
        ensures added { OnOk result (self.new ≡ self.old ++ cell mark earlier ∷ []) }
        ensures place { IfOk result (λ place. place ≡ length self.new) }
        ensures refused { OnErr result (self.new ≡ self.old) }
    {
        self.cells.reserve(1)?;
        let id = self.cells.push_reserved(Cell { mark, earlier });
        Ok(id.number() + 1)
    }

    /// The latest mark of a node, which is at the place + 1 `last`; `None` where this is 0.
    #[inline(always)]
    pub fn last(&self, last: u32) -> Option<T>
        requires { last ≤ length self.now }
        ensures { result ≡ slice_get (chain (reverse self.now) last) 0 }
    {
        let cell = cell_at(&self.cells, last)?;
        Some(cell.mark)
    }

    /// The marks of a node from the one at the place + 1 `last` on, the latest first. Takes no
    /// memory.
    #[inline(always)]
    pub fn walk(&self, last: u32) -> Walk<'_, T>
        requires { last ≤ length self.now }
        ensures { result ≡ chain (reverse self.now) last }
    {
        Walk {
            cells: &self.cells,
            at: last,
        }
    }
}

/// The cell at a place + 1, which has to be there; `None` exactly where this is 0.
#[inline(always)]
fn cell_at<T>(cells: &Arena<Marks, Cell<T>>, at: u32) -> Option<&Cell<T>>
    requires { at ≤ length cells.now.values }
    ensures { option_copied result ≡ found (reverse cells.now.values) at }
{
    if at == 0 {
        return None;
    }
    Some(cells.at(at - 1))
}

/// The marks of a node that are left, the latest first.
#[derive(Drop)]
pub struct Walk<'a, T> {
    cells: &'a Arena<Marks, Cell<T>>,
    at: u32,
}

impl<'a, T> Model for Walk<'a, T> {
    ghost use Rattle.std.specs.Prelude.{List, ◌≤◌, length, reverse};
    ghost use Rattle.ig_gss.specs.Chains.{AreOnward, chain};

    ghost Value = { List T };

    ghost view = { λ w. chain (reverse w.cells.now.values) w.at };

    ghost invariant = { λ w. AreOnward (reverse w.cells.now.values)
        × (w.at ≤ length w.cells.now.values) };
}

impl<'a, T> Iterator for Walk<'a, T> {
    type Item = &'a T;

    ghost next_gives = { YieldsFirstBy (λ mark. mark.now) (λ rest. rest) };

    ghost remaining = { item_count (λ rest. rest) };

    fn next(&mut self) -> Option<&'a T> {
        let cell = cell_at(self.cells, self.at)?;
        self.at = cell.earlier;
        Some(&cell.mark)
    }
}
