//! A load, its input and its line.
use ig_load::{Summary, load, load_input, show_summary};
use ig_queue::Order;
use std::test::Fail;

/// What a load of one operand says, by hand: of its items the root has two, and the instances of
/// `E` under their bounds 18, 18, 14 and 12; the forest has the root over one `E`.
const ONE: Summary = Summary {
    items: 64,
    nodes: 2,
    ambiguous: false,
    cyclic: false,
};

#[test]
fn loads(rt: HostRuntime) -> Result<(), Fail> {
    let summary = load(rt.alloc(), 1, 7, 64, Order::Fifo)?;
    assert_eq!(rt; summary, ONE);
    Ok(())
}

#[test]
fn draws_an_input(rt: HostRuntime) -> Result<(), Fail> {
    let input = load_input(rt.alloc(), 1, 7)?;
    assert_eq!(rt; input.char_at(0), Some('c'));
    assert_eq!(rt; input.len(), 1);
    Ok(())
}

#[test]
fn shows_a_summary(rt: HostRuntime) -> Result<(), Fail> {
    let shown = show_summary(rt.alloc(), &ONE)?;
    assert_eq!(rt;
        shown.as_slice(),
        b"items 64 nodes 2 ambiguous no cyclic no\n".as_slice()
    );
    Ok(())
}
