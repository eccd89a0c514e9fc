//! A list of values under ids.
ghost use Rattle.std.specs.Prelude.{◌≡◌, ◌+◌, ◌-◌, ◌*◌, ◌<◌, ◌≤◌, [], ◌∷◌, ◌++◌, length, slice_get};
ghost use Rattle.std.specs.Prelude.{take, replicate, IfOk, OnOk, OnErr, IfErr, IsOk, IfSome, Some};
ghost use Rattle.std.specs.Option.{option_copied, option_copied_mut};
ghost use Rattle.std.specs.Borrow.{sem};
ghost use Rattle.ig_arena.specs.Filled.{Filled};
ghost use Rattle.ig_arena.specs.Lending.{lends_value};

use crate::id::Id;
use ig_chunk::{Chunk, PLACES};
use std::alloc::{AllocError, Global};
use std::marker::{Model, PhantomData};

/// The most chunks of an arena, so that 32 bits hold the number of its values.
const MOST_CHUNKS: usize = 4194303;

/// A list of values, at whose end `push` adds. An id keeps its value.
#[derive(Drop)]
pub struct Arena<K, T> {
    chunks: Vec<Chunk<T>>,
    count: usize,
    alloc: Global,
    kind: PhantomData<K>,
}

impl<K, T> Model for Arena<K, T> {
    ghost use Rattle.std.specs.Prelude.{ℕ, ◌-◌, ◌*◌, ◌≤◌, length};
    ghost use Rattle.ig_arena.specs.Filled.{Filled, joined, AreFilled};

    ghost Value = { Filled T };

    ghost view = { λ a. record {
      values = joined a.chunks.items;
      spare = 1024 * length a.chunks.items - a.count;
    } };

    ghost invariant = { λ a. AreFilled a.count a.chunks.items
        × (a.count ≤ 1024 * length a.chunks.items) × (length a.chunks.items ≤ 4194303) };
}

impl<K, T> Arena<K, T> {
    /// The empty list. Takes no memory.
    pub fn new(alloc: Global) -> Self
        ensures { result ≡ record { values = []; spare = 0 } }
    {
        Arena {
            chunks: Vec::new(alloc),
            count: 0,
            alloc,
            kind: PhantomData,
        }
    }

    /// Adds the value at the end, and gives its id. Refused for want of memory, or of numbers of
    /// 32 bits, it hands the value back, and the arena is as before. Where there is spare room, it
    /// isn't refused, and takes no memory.
    #[inline(always)]
    pub fn push(&mut self, value: T) -> Result<Id<K>, (T, AllocError)>
        ensures ok { OnOk result (self.new.values ≡ self.old.values ++ value ∷ []) }
        ensures id { IfOk result (λ id. id ≡ length self.old.values) }
        ensures err { OnErr result (self.new ≡ self.old) }
        ensures value_returned { IfErr result (λ e. e.0 ≡ value) }
        ensures succeeds { 0 < self.old.spare → IsOk result }
        ensures spare { 0 < self.old.spare → self.new.spare + 1 ≡ self.old.spare }
    {
        if let Err(refused) = self.reserve(1) {
            return Err((value, refused));
        }
        Ok(self.push_reserved(value))
    }

    /// Adds the value at the end, where there has to be spare room, and gives its id. Takes no
    /// memory.
    #[inline(always)]
    pub fn push_reserved(&mut self, value: T) -> Id<K>
        requires { 0 < self.old.spare }
        ensures values { self.new.values ≡ self.old.values ++ value ∷ [] }
        ensures id { result ≡ length self.old.values }
        ensures few { result + 1 < 4294967296 }
        ensures spare { self.new.spare + 1 ≡ self.old.spare }
    {
        let count = self.count;
        self.chunks[count / PLACES].add(value);
        self.count = count + 1;
        Id::of(count as u32)
    }

    /// Makes room for as many more values, and takes no memory where it is there. Refused for want
    /// of memory, or of numbers of 32 bits, the arena is as before.
    #[inline(always)]
    pub fn reserve(&mut self, more: u64) -> Result<(), AllocError>
        ensures values { self.new.values ≡ self.old.values }
        ensures ok { OnOk result (more ≤ self.new.spare) }
        ensures kept { self.old.spare ≤ self.new.spare }
        ensures err { OnErr result (self.new ≡ self.old) }
        ensures succeeds { more ≤ self.old.spare → IsOk result }
        ensures there { more ≤ self.old.spare → self.new ≡ self.old }
    {
        if more <= self.spare() {
            return Ok(());
        }
        self.make_room(more)
    }

    /// Makes room for as many more values. Refused, the arena is as before.
    #[cold]
    #[inline(never)]
    fn make_room(&mut self, more: u64) -> Result<(), AllocError>
        ensures values { self.new.values ≡ self.old.values }
        ensures ok { OnOk result (more ≤ self.new.spare) }
        ensures kept { self.old.spare ≤ self.new.spare }
        ensures err { OnErr result (self.new ≡ self.old) }
    {
        let Some(chunks) = chunks_for(self.count, more) else {
            return Err(AllocError);
        };
        lengthen(&mut self.chunks, self.alloc, chunks)?;
        Ok(())
    }

    /// How many more values there is room for. Takes no memory.
    pub fn spare(&self) -> u64
        ensures { result ≡ self.now.spare }
    {
        (PLACES * self.chunks.len() - self.count) as u64
    }

    /// The value of that id; `None` exactly where the number is at least the length. Takes no
    /// memory.
    pub fn get(&self, id: Id<K>) -> Option<&T>
        ensures { option_copied result ≡ slice_get self.now.values id }
    {
        let number = id.number as usize;
        self.chunks.get(number / PLACES)?.get(number % PLACES)
    }

    /// The value of that number, which has to be there. Takes no memory.
    #[inline(always)]
    pub fn at(&self, number: u32) -> &T
        requires { number < length self.now.values }
        ensures { slice_get self.now.values number ≡ Some result.now }
    {
        let number = number as usize;
        self.chunks[number / PLACES].at(number % PLACES)
    }

    /// The value of that id for writing; `None` exactly where the number is at least the length.
    /// Takes no memory.
    pub fn get_mut(&mut self, id: Id<K>) -> Option<&mut T>
        ensures* writes_back { sem 𝓛 (lends_value K.row T.row self.entry id result) }
        ensures value { option_copied_mut result ≡ slice_get self.old.values id }
    {
        let number = id.number as usize;
        let chunk = self.chunks.get_mut(number / PLACES)?;
        chunk.get_mut(number % PLACES)
    }

    /// The number of values. Takes no memory.
    pub fn len(&self) -> u64
        ensures { result ≡ length self.now.values }
    {
        self.count as u64
    }
}

/// The chunks that an arena needs for that many values and as many more; `None` where these are
/// more than it may have.
fn chunks_for(count: usize, more: u64) -> Option<usize>
    ensures { IfSome result (λ chunks. (count + more ≤ 1024 * chunks) × (chunks ≤ 4194303)) }
{
    let values = (count as u64).checked_add(more)?;
    let chunks = (values as usize).div_ceil(PLACES);
    if chunks > MOST_CHUNKS {
        return None;
    }
    Some(chunks)
}

/// Adds chunks without values until there are so many. Refused for want of memory, those that it
/// added are given back.
fn lengthen<T>(chunks: &mut Vec<Chunk<T>>, alloc: Global, count: usize) -> Result<(), AllocError>
    ensures ok { OnOk result (chunks.new.items ≡ chunks.old.items
        ++ replicate (count - length chunks.old.items) []) }
    ensures err { OnErr result (chunks.new.items ≡ chunks.old.items) }
    ensures succeeds { count ≤ length chunks.old.items → IsOk result }
{
    let there = chunks.len();
    while chunks.len() < count {
        if let Err(refused) = add_chunk(chunks, alloc) {
            cut(chunks, there);
            return Err(refused);
        }
    }
    Ok(())
}

/// Adds a chunk without values.
fn add_chunk<T>(chunks: &mut Vec<Chunk<T>>, alloc: Global) -> Result<(), AllocError>
    ensures ok { OnOk result (chunks.new.items ≡ chunks.old.items ++ [] ∷ []) }
    ensures err { OnErr result (chunks.new.items ≡ chunks.old.items) }
{
    chunks.reserve(1)?;
    let chunk = Chunk::make(alloc)?;
    chunks.push_reserved(chunk);
    Ok(())
}

/// Gives the chunks behind the first ones back, which have to be without values.
fn cut<T>(chunks: &mut Vec<Chunk<T>>, there: usize)
    requires within { there ≤ length chunks.old.items }
    requires empty { chunks.old.items ≡ take there chunks.old.items
        ++ replicate (length chunks.old.items - there) [] }
    ensures { chunks.new.items ≡ take there chunks.old.items }
{
    while chunks.len() > there {
        chunks.take_last().destroy_empty();
    }
}
