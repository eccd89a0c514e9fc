//! Values under ids, over several chunks, and room that is made before.
use ig_arena::{Arena, Id};
use std::alloc::AllocError;
use std::test::Fail;

/// The kind of the ids.
struct Number;

fn push(arena: &mut Arena<Number, u32>, value: u32) -> Result<Id<Number>, AllocError> {
    match arena.push(value) {
        Ok(id) => Ok(id),
        Err((_, refused)) => Err(refused),
    }
}

fn raise(arena: &mut Arena<Number, u32>, id: Id<Number>) {
    if let Some(value) = arena.get_mut(id) {
        *value |= 1;
    }
}

/// Adds 4 and 7, and gives their ids.
fn two(arena: &mut Arena<Number, u32>) -> Result<(Id<Number>, Id<Number>), AllocError> {
    let first = push(arena, 4)?;
    let second = push(arena, 7)?;
    Ok((first, second))
}

#[test]
fn keeps_values(rt: HostRuntime) -> Result<(), Fail> {
    let mut arena = Arena::new(rt.alloc());
    let (first, second) = two(&mut arena)?;
    raise(&mut arena, first);
    assert_eq!(rt; arena.get(first).copied(), Some(5));
    assert_eq!(rt; arena.get(second).copied(), Some(7));
    assert_eq!(rt; second.number(), 1);
    assert_eq!(rt; arena.len(), 2);
    Ok(())
}

fn push_many(
    arena: &mut Arena<Number, u32>,
    ids: &mut Vec<Id<Number>>,
    from: u32,
    count: u32,
) -> Result<(), AllocError> {
    for n in 0..count {
        let id = push(arena, from.wrapping_add(n).wrapping_mul(3))?;
        ids.push(id)?;
    }
    Ok(())
}

/// Each id has three times its number.
fn are_there(arena: &Arena<Number, u32>, ids: &[Id<Number>]) -> bool {
    for id in ids {
        if arena.get(*id).copied() != Some(id.number().wrapping_mul(3)) {
            return false;
        }
    }
    true
}

#[test]
fn three_thousand(rt: HostRuntime) -> Result<(), Fail> {
    let mut arena = Arena::new(rt.alloc());
    let mut ids = Vec::new(rt.alloc());
    for thousand in 0..3u32 {
        push_many(&mut arena, &mut ids, thousand * 1000, 1000)?;
        assert!(rt; are_there(&arena, ids.as_slice()));
    }
    assert_eq!(rt; arena.len(), 3000);
    assert_eq!(rt; arena.spare(), 72);
    Ok(())
}

/// How many of so many pushes are refused.
fn refused(arena: &mut Arena<Number, u32>, count: u32) -> u32 {
    let mut refused = 0u32;
    for n in 0..count {
        if arena.push(n).is_err() {
            refused = refused.wrapping_add(1);
        }
    }
    refused
}

#[test]
fn reserved(rt: HostRuntime) -> Result<(), Fail> {
    let mut arena = Arena::new(rt.alloc());
    arena.reserve(2000)?;
    assert_eq!(rt; arena.spare(), 2048);
    assert_eq!(rt; refused(&mut arena, 2000), 0);
    assert_eq!(rt; arena.spare(), 48);
    assert_eq!(rt; arena.len(), 2000);
    Ok(())
}

/// Room is made, or nothing changes; with it no push is refused.
#[test]
fn refused_or_as_before(rt: HostRuntime) -> Result<(), Fail> {
    let mut arena = Arena::new(rt.alloc());
    if arena.reserve(5000).is_err() {
        assert_eq!(rt; arena.spare(), 0);
        assert_eq!(rt; arena.len(), 0);
        return Ok(());
    }
    assert_eq!(rt; refused(&mut arena, 5000), 0);
    let spare = arena.spare();
    if arena.reserve(9000).is_err() {
        assert_eq!(rt; arena.spare(), spare);
        assert_eq!(rt; arena.len(), 5000);
    }
    Ok(())
}

/// More values than ids have numbers: refused, and the room that was made stays.
#[test]
fn more_than_numbers(rt: HostRuntime) -> Result<(), Fail> {
    let mut arena: Arena<Number, u32> = Arena::new(rt.alloc());
    arena.reserve(1)?;
    assert!(rt; arena.reserve(4294967297).is_err());
    assert_eq!(rt; arena.spare(), 1024);
    assert_eq!(rt; arena.len(), 0);
    Ok(())
}
