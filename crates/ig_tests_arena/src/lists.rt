//! Lists that grow side by side, and room that is made before.
ghost use Rattle.std.specs.Prelude.{◌≡◌, ◌≤◌, ◌<◌, length, IfOk};

use ig_arena::{Chains, Id};
use std::alloc::{AllocError, Global};
use std::process::Abort;
use std::test::Fail;

/// The kind of the ids.
struct Number;

fn head(chains: &mut Chains<Number, u32>) -> Result<Id<Number>, AllocError>
    ensures id { IfOk result (λ id. id < length chains.new.lists) }
    ensures heads { length chains.old.lists ≤ length chains.new.lists }
{
    chains.add_head()
}

fn add(chains: &mut Chains<Number, u32>, head: Id<Number>, value: u32) -> Result<(), AllocError>
    requires { head < length chains.old.lists }
    ensures { length chains.new.lists ≡ length chains.old.lists }
{
    match chains.add(head, value) {
        Ok(()) => Ok(()),
        Err((_, error)) => Err(error),
    }
}

/// Adds two heads with their lists, and gives the heads.
fn fill(chains: &mut Chains<Number, u32>) -> Result<(Id<Number>, Id<Number>), AllocError>
    ensures first { IfOk result (λ heads. heads.0 < length chains.new.lists) }
    ensures second { IfOk result (λ heads. heads.1 < length chains.new.lists) }
{
    let odd = head(chains)?;
    let even = head(chains)?;
    add(chains, odd, 1)?;
    add(chains, even, 2)?;
    add(chains, odd, 3)?;
    Ok((odd, even))
}

/// Asserts that the list of that head is 1 and 3.
fn expect_odds(
    rt: &impl Abort,
    alloc: Global,
    chains: &Chains<Number, u32>,
    odd: Id<Number>,
) -> Result<(), AllocError>
    requires { odd < length chains.now.lists }
{
    let odds: Vec<u32> = chains.walk(odd).copied().collect(alloc)?;
    assert_eq!(rt; odds.as_slice(), [1, 3].as_slice());
    Ok(())
}

/// Asserts that the list of that head is 2.
fn expect_evens(rt: &impl Abort, chains: &Chains<Number, u32>, even: Id<Number>)
    requires { even < length chains.now.lists }
{
    let mut evens = chains.walk(even);
    assert_eq!(rt; evens.next().copied(), Some(2));
    assert_eq!(rt; evens.next().copied(), None);
}

#[test]
fn keeps_lists_apart(rt: HostRuntime) -> Result<(), Fail> {
    let mut chains = Chains::new(rt.alloc());
    let (odd, even) = fill(&mut chains)?;
    expect_evens(&rt, &chains, even);
    expect_odds(&rt, rt.alloc(), &chains, odd)?;
    Ok(())
}

fn add_many(
    chains: &mut Chains<Number, u32>,
    heads: (Id<Number>, Id<Number>),
    count: u32,
) -> Result<(), AllocError>
    requires { (heads.0 < length chains.old.lists) × (heads.1 < length chains.old.lists) }
    ensures { length chains.new.lists ≡ length chains.old.lists }
{
    for n in 0..count {
        add(chains, heads.0, n)?;
        add(chains, heads.1, n)?;
    }
    Ok(())
}

/// The values of the list are 0, 1, 2 and so on, so many.
fn counts(chains: &Chains<Number, u32>, head: Id<Number>, count: u32) -> bool {
    let mut n = 0u32;
    for value in chains.walk(head) {
        if *value != n {
            return false;
        }
        n = n.wrapping_add(1);
    }
    n == count
}

#[test]
fn two_lists(rt: HostRuntime) -> Result<(), Fail> {
    let mut chains = Chains::new(rt.alloc());
    let odd = head(&mut chains)?;
    let even = head(&mut chains)?;
    add_many(&mut chains, (odd, even), 1500)?;
    assert!(rt; counts(&chains, odd, 1500));
    assert!(rt; counts(&chains, even, 1500));
    Ok(())
}

#[test]
fn reserved_lists(rt: HostRuntime) -> Result<(), Fail> {
    let mut chains: Chains<Number, u32> = Chains::new(rt.alloc());
    chains.reserve(2000)?;
    assert_eq!(rt; chains.spare(), 2000);
    let mut refused = 0u32;
    for _ in 0..1000 {
        if chains.add_head().is_err() {
            refused = refused.wrapping_add(1);
        }
    }
    assert_eq!(rt; refused, 0);
    assert_eq!(rt; chains.spare(), 1000);
    Ok(())
}
