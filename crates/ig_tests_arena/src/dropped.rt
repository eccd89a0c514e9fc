//! Each value is dropped once.
use ig_arena::Arena;
use std::alloc::AllocError;
use std::cell::Cell;
use std::test::Fail;

/// The kind of the ids.
struct Number;

/// Counts its drops.
struct Counted<'a> {
    drops: &'a Cell<u32>,
}

impl<'a> Drop for Counted<'a> {
    fn drop(self) {
        let Counted { drops } = self;
        drops.set(drops.get().wrapping_add(1));
    }
}

fn fill<'a>(
    arena: &mut Arena<Number, Counted<'a>>,
    drops: &'a Cell<u32>,
    count: u32,
) -> Result<(), AllocError> {
    for _ in 0..count {
        if let Err((_, refused)) = arena.push(Counted { drops }) {
            return Err(refused);
        }
    }
    Ok(())
}

#[test]
fn each_once(rt: HostRuntime) -> Result<(), Fail> {
    let drops = Cell::new(0u32);
    let mut arena = Arena::new(rt.alloc());
    arena.reserve(4000)?;
    fill(&mut arena, &drops, 3000)?;
    assert_eq!(rt; drops.get(), 0);
    drop(arena);
    assert_eq!(rt; drops.get(), 3000);
    Ok(())
}
