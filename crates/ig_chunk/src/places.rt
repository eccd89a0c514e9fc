//! The places of a chunk: the only functions with pointers.
ghost use Rattle.std.specs.Prelude.{◌≡◌, ℕ, ◌+◌, ◌<◌, ◌≤◌, List, [], ◌∷◌, ◌++◌, length, slice_get};
ghost use Rattle.std.specs.Prelude.{Some, IfOk, ⊤};
ghost use Rattle.std.specs.Borrow.{sem};
ghost use Rattle.std.specs.Vec.Ownership.{FitsInBlock};
ghost use denote.RawPtr.{Ptr};
ghost use Rattle.ig_chunk.specs.Holdings.{places_owned, places_lent};

use std::alloc::{AllocError, Allocator};
use std::marker::{Model, PhantomData};
use std::mem::{align_of, size_of};

/// Where the places begin. It owns nothing.
pub struct Start<T> {
    ptr: *mut T,
}

impl<T> Clone for Start<T> {
    ghost is_clone = { λ x y. y ≡ x };

    ghost is_infallible = { λ _. ⊤ };

    fn clone(&self) -> Result<Start<T>, AllocError> {
        Ok(*self)
    }
}

impl<T> Copy for Start<T> {}

/// The owner of `count` places: the first ones have values, the others are room. It may give the
/// block back, and takes no memory itself.
pub struct Places<T, A: Allocator> {
    mark: PhantomData<*const (T, A)>,
    ghost at: { Ptr },
    ghost count: { ℕ },
    ghost values: { List T },
    ghost alloc: { A },
}

impl<T, A: Allocator> Model for Places<T, A> {
    ghost also_owns = { λ p. places_owned (A.dealloc_token p.alloc) T.row p.at p.count p.values };

    ghost also_shares = { λ p _ κ. places_lent T.row p.at p.count p.values κ };
}

/// So many places, all of them room.
pub(crate) fn allocate<T, A: Allocator>(
    alloc: &A,
    count: usize,
) -> Result<(Start<T>, Places<T, A>), AllocError>
    requires { FitsInBlock T.row count }
    ensures { IfOk result (λ r. (r.1.at ≡ r.0.ptr) × (r.1.count ≡ count) × (r.1.values ≡ [])
        × (r.1.alloc ≡ alloc.now)) }
{
    match alloc.allocate(count * size_of::<T>(), align_of::<T>()) {
        Ok(block) => {
            let start = Start {
                ptr: block as *mut T,
            };
            Ok((start, Places { mark: PhantomData }))
        }
        Err(refused) => Err(refused),
    }
}

/// Gives the block back, which has to be all room.
pub(crate) fn deallocate<T, A: Allocator>(
    alloc: &A,
    start: Start<T>,
    count: usize,
    places: Places<T, A>,
)
    requires { (places.at ≡ start.ptr) × (places.count ≡ count) × (places.values ≡ [])
        × (places.alloc ≡ alloc.now) }
{
    let Places { mark: _ } = places;
    unsafe {
        alloc.deallocate(
            start.ptr as *mut u8,
            count * size_of::<T>(),
            align_of::<T>(),
        );
    }
}

impl<T, A: Allocator> Places<T, A> {
    ghost use Rattle.ig_chunk.specs.Lent.{with_values, lends_place};

    /// Puts the value into the first place that is room.
    pub(crate) fn write(&mut self, start: Start<T>, place: usize, value: T)
        requires { (start.ptr ≡ self.old.at) × (place ≡ length self.old.values)
            × (place < self.old.count) }
        ensures { self.new ≡ with_values self.old (self.old.values ++ value ∷ []) }
    {
        unsafe { start.ptr.add(place).write(value) }
    }

    /// Moves the last value out, whose place becomes room.
    pub(crate) fn read(&mut self, start: Start<T>, place: usize) -> T
        requires { (start.ptr ≡ self.old.at) × (length self.old.values ≡ place + 1)
            × (place < self.old.count) }
        ensures value { self.old.values ≡ self.new.values ++ result ∷ [] }
        ensures others { self.new ≡ with_values self.old self.new.values }
    {
        unsafe { start.ptr.add(place).read() }
    }

    /// The value in that place.
    pub(crate) fn get(&self, start: Start<T>, place: usize) -> &T
        requires { (start.ptr ≡ self.now.at) × (place < length self.now.values)
            × (length self.now.values ≤ self.now.count) }
        ensures { slice_get self.now.values place ≡ Some result.now }
    {
        unsafe { &*start.ptr.add(place) }
    }

    /// The value in that place, for writing.
    pub(crate) fn get_mut(&mut self, start: Start<T>, place: usize) -> &mut T
        requires { (start.ptr ≡ self.old.at) × (place < length self.old.values)
            × (length self.old.values ≤ self.old.count) }
        ensures* writes_back { sem 𝓛 (lends_place T.row A.row A.Allocator self.entry place result) }
        ensures value { slice_get self.old.values place ≡ Some result.now }
    {
        unsafe { &mut *start.ptr.add(place) }
    }
}
