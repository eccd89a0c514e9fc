//! A block of memory with a fixed number of places.
ghost use Rattle.std.specs.Prelude.{◌≡◌, ◌<◌, [], ◌∷◌, ◌++◌, length, slice_get, IfOk, Some};
ghost use Rattle.std.specs.Option.{option_copied, option_copied_mut};
ghost use Rattle.std.specs.Borrow.{sem};
ghost use Rattle.ig_chunk.specs.ChunkLending.{lends_place};

use crate::places::{Places, Start, allocate, deallocate};
use std::alloc::{AllocError, Global};
use std::marker::Model;
use std_alloc::room::may_hold;

/// The number of places of a chunk.
pub const PLACES: usize = 1024;

/// A block of places, of which the first ones have values. It never grows, so its values stay
/// where they are.
pub struct Chunk<T> {
    start: Start<T>,
    filled: usize,
    places: Places<T, Global>,
    alloc: Global,
}

impl<T> Model for Chunk<T> {
    ghost use Rattle.std.specs.Prelude.{◌≡◌, List, ◌≤◌, length};

    ghost Value = { List T };

    ghost view = { λ c. c.places.values };

    ghost invariant = { λ c. (c.places.at ≡ c.start.ptr) × (c.places.count ≡ 1024)
        × (c.places.alloc ≡ c.alloc) × (c.filled ≡ length c.places.values) × (c.filled ≤ 1024) };
}

impl<T> Chunk<T> {
    /// A chunk without values.
    pub fn make(alloc: Global) -> Result<Chunk<T>, AllocError>
        ensures { IfOk result (λ c. c ≡ []) }
    {
        if !may_hold::<T>(PLACES) {
            return Err(AllocError);
        }
        let (start, places) = allocate(&alloc, PLACES)?;
        Ok(Chunk {
            start,
            filled: 0,
            places,
            alloc,
        })
    }

    /// Puts the value into the first free place, which has to be there. Takes no memory.
    #[inline(always)]
    pub fn add(&mut self, value: T)
        requires { length self.old < 1024 }
        ensures { self.new ≡ self.old ++ value ∷ [] }
    {
        self.places.write(self.start, self.filled, value);
        self.filled += 1;
    }

    /// The value in that place.
    pub fn get(&self, place: usize) -> Option<&T>
        ensures { option_copied result ≡ slice_get self.now place }
    {
        if place >= self.filled {
            return None;
        }
        Some(self.at(place))
    }

    /// The value in that place, which has to be there.
    #[inline(always)]
    pub fn at(&self, place: usize) -> &T
        requires { place < length self.now }
        ensures { slice_get self.now place ≡ Some result.now }
    {
        self.places.get(self.start, place)
    }

    /// The value in that place, for writing.
    pub fn get_mut(&mut self, place: usize) -> Option<&mut T>
        ensures* writes_back { sem 𝓛 (lends_place T.row self.entry place result) }
        ensures value { option_copied_mut result ≡ slice_get self.old place }
    {
        if place >= self.filled {
            return None;
        }
        Some(self.places.get_mut(self.start, place))
    }

    /// The number of values.
    fn len(&self) -> usize
        ensures { result ≡ length self.now }
    {
        self.filled
    }

    /// Moves the last value out, which has to be there.
    fn take_last(&mut self) -> T
        requires { 0 < length self.old }
        ensures { self.old ≡ self.new ++ result ∷ [] }
    {
        self.filled -= 1;
        self.places.read(self.start, self.filled)
    }

    /// Gives the memory of a chunk without values back.
    pub fn destroy_empty(self)
        requires { self ≡ [] }
    {
        let Chunk {
            start,
            filled: _,
            places,
            alloc,
        } = self;
        deallocate(&alloc, start, PLACES, places);
    }
}

impl<T: Drop> Drop for Chunk<T> {
    fn drop(mut self) {
        while self.len() > 0 {
            drop(self.take_last());
        }
        self.destroy_empty();
    }
}
