//! Which items wait for an instance, and where it ended last.
ghost use Rattle.std.specs.Prelude.{◌≡◌, ◌<◌, ◌≤◌, [], ◌∷◌, ◌++◌, IfNone, IfSome, None, OnOk, Some};
ghost use Rattle.std.specs.Prelude.{length, set, suc};
ghost use Rattle.ig_run_moves.specs.Waiting as waits;
ghost use Rattle.ig_run_moves.specs.Waiting.{called_at, lengthened, linked, not_called};
ghost use Rattle.ig_run_moves.specs.Waiting.{with_caller};
ghost use Rattle.ig_run_moves.specs.Waiting.{with_end};

use ig_item::{Item, number};
use std::alloc::{AllocError, Global};

/// An item that is taken, with its number.
#[derive(Clone, Copy)]
pub struct Taken {
    pub item: Item,
    pub number: u32,
}

/// What is known of an instance that was called.
#[derive(Clone, Copy)]
pub struct Called {
    /// The place + 1 of its first caller, and 0 where there is none.
    pub first: u32,
    /// The place + 1 of its last caller, and 0 where there is none.
    pub last: u32,
    /// The position at which it ended last.
    pub last_end: Option<u32>,
    /// The number of the first item that was complete there.
    pub last_done: u32,
}

/// An item that waits for an instance.
#[derive(Clone, Copy)]
pub struct Caller {
    pub item: Item,
    pub number: u32,
    /// Whether its call has neither a label nor an excluded pattern.
    pub is_bare: bool,
    /// The place + 1 of the caller of the same instance behind this one, and 0 where there is none.
    pub next: u32,
}

/// The instances by number, with their callers in chains.
#[derive(Drop)]
pub struct Waiting {
    pub called: Vec<Called>,
    pub callers: Vec<Caller>,
}

impl Waiting {
    /// No instances. Takes no memory.
    pub fn new(alloc: Global) -> Waiting
        ensures called { result.called.items ≡ [] }
        ensures callers { result.callers.items ≡ [] }
    {
        Waiting {
            called: Vec::new(alloc),
            callers: Vec::new(alloc),
        }
    }
}

/// Adds an instance, which has no callers and no end yet.
pub fn add_called(waiting: &mut Waiting) -> Result<(), AllocError>
    ensures called { OnOk result (waiting.new.called.items ≡ waiting.old.called.items ++
        not_called ∷ []) }
    ensures callers { waiting.new.callers.items ≡ waiting.old.callers.items }
{
    waiting.called.push(Called {
        first: 0,
        last: 0,
        last_end: None,
        last_done: 0,
    })?;
    Ok(())
}

/// The first place, and the other one where it is 0.
fn first_or(first: u32, place: u32) -> u32
    ensures { result ≡ waits.first_or first place }
{
    if first == 0 { place } else { first }
}

/// Names the cell at the place + 1 `next` as the one behind that at the place + 1 `last`, if that
/// isn't 0.
fn link(callers: &mut Vec<Caller>, last: u32, next: u32)
    requires there { last ≤ length callers.old.items }
    ensures { callers.new.items ≡ linked callers.old.items last next }
{
    if last > 0 {
        callers[last as usize - 1].next = next;
    }
}

/// Makes the item the last caller of the instance.
pub fn add_caller(
    waiting: &mut Waiting,
    callee: u32,
    taken: Taken,
    is_bare: bool,
) -> Result<(), AllocError>
    requires there { callee < length waiting.old.called.items }
    requires last { (called_at waiting.old callee).last ≤ length waiting.old.callers.items }
    ensures callers { OnOk result (waiting.new.callers.items ≡ lengthened waiting.old.callers.items
        (called_at waiting.old callee).last taken.item taken.number is_bare) }
    ensures called { OnOk result (waiting.new.called.items ≡ set waiting.old.called.items callee
        (with_caller (called_at waiting.old callee) (suc (length waiting.old.callers.items)))) }
{
    let called = waiting.called[callee as usize];
    let place = number(waiting.callers.as_slice().len().saturating_add(1))?;
    waiting.callers.push(Caller {
        item: taken.item,
        number: taken.number,
        is_bare,
        next: 0,
    })?;
    link(&mut waiting.callers, called.last, place);
    waiting.called[callee as usize] = Called {
        first: first_or(called.first, place),
        last: place,
        last_end: called.last_end,
        last_done: called.last_done,
    };
    Ok(())
}

/// The number of the first item that was complete where the instance ended last; `None` exactly
/// where that wasn't at the position.
pub fn end_at(waiting: &Waiting, callee: u32, position: u32) -> Option<u32>
    requires there { callee < length waiting.now.called.items }
    ensures some { IfSome result (λ _. (called_at waiting.now callee).last_end ≡ Some position) }
    ensures done { IfSome result (λ done. done ≡ (called_at waiting.now callee).last_done) }
    ensures none { IfNone result ((called_at waiting.now callee).last_end ≡ Some position → ⊥) }
{
    let called = waiting.called[callee as usize];
    if called.last_end == Some(position) {
        return Some(called.last_done);
    }
    None
}

/// Makes the position the last end of the instance, at which the item of that number is complete.
pub fn add_end(waiting: &mut Waiting, callee: u32, position: u32, done: u32)
    requires there { callee < length waiting.old.called.items }
    ensures called { waiting.new.called.items ≡ set waiting.old.called.items callee
        (with_end (called_at waiting.old callee) position done) }
    ensures callers { waiting.new.callers.items ≡ waiting.old.callers.items }
{
    let called = waiting.called[callee as usize];
    waiting.called[callee as usize] = Called {
        first: called.first,
        last: called.last,
        last_end: Some(position),
        last_done: done,
    };
}

/// The place + 1 of the first caller of the instance, and 0 where there is none.
pub fn first_caller(waiting: &Waiting, callee: u32) -> u32
    requires there { callee < length waiting.now.called.items }
    ensures { result ≡ (called_at waiting.now callee).first }
{
    waiting.called[callee as usize].first
}
