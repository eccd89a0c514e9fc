//! Each call that takes memory, once, with ample memory.
use crate::{Edge, Pop, Stacks};
use ig_item::InstanceKey;
use std::alloc::{AllocError, Global};
use std::test::Fail;

/// The node of the only instance, for which an item waits from then on.
fn call(stacks: &mut Stacks, item: u32) -> Result<u32, AllocError> {
    let key = InstanceKey {
        nonterminal: 3,
        env: 1,
        start: 2,
    };
    let (node, is_new) = stacks.node(key)?;
    if is_new {
        stacks.add_edge(
            node,
            Edge {
                item,
                is_bare: true,
                is_first: true,
            },
        )?;
    }
    Ok(node)
}

/// The number of the item that was complete first where the node ended so, which may be this one.
fn end(stacks: &mut Stacks, node: u32, end: u32, done: u32) -> Result<u32, AllocError> {
    if node as usize >= stacks.len() {
        return Ok(done);
    }
    match stacks.pop_at(node, end)? {
        Some(first) => Ok(first),
        None => {
            stacks.add_pop(node, Pop { end, done })?;
            Ok(done)
        }
    }
}

/// Ends of a node: two that rise, one between them, and two once more.
fn end_often(stacks: &mut Stacks) -> Result<[u32; 5], AllocError> {
    let node = call(stacks, 4)?;
    let first = end(stacks, node, 5, 10)?;
    let second = end(stacks, node, 7, 11)?;
    let between = end(stacks, node, 6, 12)?;
    let first_again = end(stacks, node, 5, 13)?;
    let between_again = end(stacks, node, 6, 14)?;
    Ok([first, second, between, first_again, between_again])
}

#[test]
fn ends_are_found_in_any_order(rt: HostRuntime) -> Result<(), Fail> {
    let mut stacks = Stacks::new(rt.alloc());
    let ended = end_often(&mut stacks)?;
    assert_eq!(rt; ended, [10, 11, 12, 10, 12]);
    Ok(())
}

/// How many instances there are where one is called twice.
fn call_twice(alloc: Global) -> Result<usize, AllocError> {
    let mut stacks = Stacks::new(alloc);
    call(&mut stacks, 4)?;
    call(&mut stacks, 5)?;
    Ok(stacks.into_keys()?.len())
}

#[test]
fn an_instance_has_one_node(rt: HostRuntime) -> Result<(), Fail> {
    assert_eq!(rt; call_twice(rt.alloc())?, 1);
    Ok(())
}
