//! Lists of values that grow side by side.
ghost use Rattle.std.specs.Prelude.{◌≡◌, ◌+◌, ◌<◌, ◌≤◌, [], ◌∷◌, ◌++◌, length, slice_get};
ghost use Rattle.std.specs.Prelude.{slice_index_or, option_and_then, None, Some};
ghost use Rattle.std.specs.Prelude.{IfOk, OnOk, OnErr, IfErr, IsOk};
ghost use Rattle.std.specs.Option.{option_copied};
ghost use Rattle.std.specs.Iterator.{item_count};
ghost use Rattle.ig_arena.specs.Lending.{with_value};
ghost use Rattle.ig_arena.specs.Cells.{first_of, longer_at, linked_at, relinked, longer};

use crate::arena::Arena;
use crate::id::Id;
use std::alloc::{AllocError, Global};
use std::marker::{Model, PhantomData};

/// The kind of the numbers of cells.
struct Place;

/// A value, and the number of the next cell of its chain.
#[derive(Drop)]
struct Cell<T> {
    value: T,
    next: Option<u32>,
}

/// The numbers of the first and the last cell of a chain.
#[derive(Clone, Copy)]
struct Ends {
    first: u32,
    last: u32,
}

/// A list of lists. The cells of all of them lie in one arena, in the order in which they were
/// added, and each names the next one of its list.
#[derive(Drop)]
pub struct Chains<K, T> {
    cells: Arena<Place, Cell<T>>,
    heads: Arena<K, Option<Ends>>,
    promised: u64,
}

impl<K, T> Model for Chains<K, T> {
    ghost use Rattle.std.specs.Prelude.{◌≤◌};
    ghost use Rattle.ig_arena.specs.Cells.{Listed, chains, AreChains};

    ghost Value = { Listed T };

    ghost view = { λ c. record {
      lists = chains c.cells.values c.heads.values;
      spare = c.promised;
    } };

    ghost invariant = { λ c. AreChains c.cells.values c.heads.values
        × (c.promised ≤ c.cells.spare) × (c.promised ≤ c.heads.spare) };
}

impl<K, T> Chains<K, T> {
    /// No lists. Takes no memory.
    pub fn new(alloc: Global) -> Self
        ensures { result ≡ record { lists = []; spare = 0 } }
    {
        Chains {
            cells: Arena::new(alloc),
            heads: Arena::new(alloc),
            promised: 0,
        }
    }

    /// Adds an empty list at the end, and gives its id. Refused for want of memory, or of a
    /// number of 32 bits, all is as before. Where there is spare room, it isn't refused, and takes
    /// no memory.
    pub fn add_head(&mut self) -> Result<Id<K>, AllocError>
        ensures ok { OnOk result (self.new.lists ≡ self.old.lists ++ [] ∷ []) }
        ensures id { IfOk result (λ id. id ≡ length self.old.lists) }
        ensures err { OnErr result (self.new ≡ self.old) }
        ensures succeeds { 0 < self.old.spare → IsOk result }
        ensures spare { 0 < self.old.spare → self.new.spare + 1 ≡ self.old.spare }
    {
        match self.heads.push(None) {
            Ok(id) => {
                self.promised = self.promised.saturating_sub(1);
                Ok(id)
            }
            Err((_, refused)) => Err(refused),
        }
    }

    /// Adds the value at the end of the list of that id, which has to be there, and leaves all
    /// others. Refused for want of memory, or of a number of 32 bits, it hands the value back,
    /// and all is as before. Where there is spare room, it isn't refused, and takes no memory.
    pub fn add(&mut self, head: Id<K>, value: T) -> Result<(), (T, AllocError)>
        requires { head < length self.old.lists }
        ensures ok { OnOk result (self.new.lists ≡ longer_at self.old.lists head value) }
        ensures err { OnErr result (self.new ≡ self.old) }
        ensures value_returned { IfErr result (λ e. e.0 ≡ value) }
        ensures succeeds { 0 < self.old.spare → IsOk result }
        ensures spare { 0 < self.old.spare → self.new.spare + 1 ≡ self.old.spare }
    {
        let number = match self.cells.push(Cell { value, next: None }) {
            Ok(id) => id.number(),
            Err((cell, refused)) => return Err((cell.value, refused)),
        };
        let ends = ends_at(&self.heads, head.number);
        let ends = link(&mut self.cells, ends, number);
        name_ends(&mut self.heads, head.number, ends);
        self.promised = self.promised.saturating_sub(1);
        Ok(())
    }

    /// Makes room for as many more heads and values. Refused for want of memory, or of numbers of
    /// 32 bits, all is as before.
    pub fn reserve(&mut self, more: u64) -> Result<(), AllocError>
        ensures lists { self.new.lists ≡ self.old.lists }
        ensures ok { OnOk result (more ≤ self.new.spare) }
        ensures kept { self.old.spare ≤ self.new.spare }
        ensures err { OnErr result (self.new ≡ self.old) }
    {
        self.cells.reserve(more)?;
        self.heads.reserve(more)?;
        self.promised = self.promised.max(more);
        Ok(())
    }

    /// How many more heads and values in all there is room for. Takes no memory.
    pub fn spare(&self) -> u64
        ensures { result ≡ self.now.spare }
    {
        self.promised
    }

    /// The values of the list of that id, in order; none where the id isn't there. Takes no memory.
    pub fn walk(&self, head: Id<K>) -> Walk<'_, K, T>
        ensures { result ≡ slice_index_or self.now.lists head [] }
    {
        Walk {
            cells: &self.cells,
            next: first_cell(&self.heads, head.number),
            kind: PhantomData,
        }
    }
}

/// The ends of the list of that number; `None` where the list is empty or isn't there.
fn ends_at<K>(heads: &Arena<K, Option<Ends>>, head: u32) -> Option<Ends>
    ensures { result ≡ slice_index_or heads.now.values head None }
{
    match heads.get(Id::of(head)) {
        Some(ends) => *ends,
        None => None,
    }
}

/// Names the ends of the list of that number, if it is there.
fn name_ends<K>(heads: &mut Arena<K, Option<Ends>>, head: u32, ends: Ends)
    ensures { heads.new ≡ with_value heads.old head (Some ends) }
{
    if let Some(place) = heads.get_mut(Id::of(head)) {
        *place = Some(ends);
    }
}

/// Names the cell of that number as the next one behind another one, if that is there.
fn name_next<T>(cells: &mut Arena<Place, Cell<T>>, last: u32, number: u32)
    ensures values { cells.new.values ≡ linked_at cells.old.values last number }
    ensures spare { cells.new.spare ≡ cells.old.spare }
{
    if let Some(cell) = cells.get_mut(Id::of(last)) {
        cell.next = Some(number);
    }
}

/// Names the cell of that number as the next one behind the chain of these ends, and gives the new
/// ends.
fn link<T>(cells: &mut Arena<Place, Cell<T>>, ends: Option<Ends>, number: u32) -> Ends
    ensures cells { cells.new.values ≡ relinked cells.old.values ends number }
    ensures spare { cells.new.spare ≡ cells.old.spare }
    ensures ends { result ≡ longer ends number }
{
    match ends {
        None => Ends {
            first: number,
            last: number,
        },
        Some(ends) => {
            name_next(cells, ends.last, number);
            Ends {
                first: ends.first,
                last: number,
            }
        }
    }
}

/// The number of the first cell of the list of that number; `None` where the list is empty or
/// isn't there.
fn first_cell<K>(heads: &Arena<K, Option<Ends>>, head: u32) -> Option<u32>
    ensures { result ≡ first_of (slice_index_or heads.now.values head None) }
{
    let ends = ends_at(heads, head)?;
    Some(ends.first)
}

/// The cell of that number; `None` where there is no number, or no such cell.
fn cell_at<T>(cells: &Arena<Place, Cell<T>>, number: Option<u32>) -> Option<&Cell<T>>
    ensures { option_copied result ≡ option_and_then (slice_get cells.now.values) number }
{
    cells.get(Id::of(number?))
}

/// The values of a list that are left, in order.
#[derive(Drop)]
pub struct Walk<'a, K, T> {
    cells: &'a Arena<Place, Cell<T>>,
    next: Option<u32>,
    kind: PhantomData<K>,
}

impl<'a, K, T> Model for Walk<'a, K, T> {
    ghost use Rattle.std.specs.Prelude.{List};

    ghost Value = { List T };

    ghost use Rattle.ig_arena.specs.Cells.{chain, AreOnward};

    ghost view = { λ w. chain 0 w.cells.now.values w.next };

    ghost invariant = { λ w. AreOnward 0 w.cells.now.values };
}

impl<'a, K, T> Iterator for Walk<'a, K, T> {
    type Item = &'a T;

    ghost use Rattle.std.specs.Iterator.{YieldsFirstBy};

    ghost next_gives = { YieldsFirstBy (λ value. value.now) (λ rest. rest) };

    ghost remaining = { item_count (λ rest. rest) };

    fn next(&mut self) -> Option<&'a T> {
        let cell = cell_at(self.cells, self.next)?;
        self.next = cell.next;
        Some(&cell.value)
    }
}
