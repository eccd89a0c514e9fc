//! Each call that takes memory, with ample memory.
use crate::letters::letter_core;
use ig_expr::{Expr, Value};
use ig_item::{Core, EnvironmentTable, Step, Steps, VisibleNames};
use ig_text::{Word, Words};
use std::alloc::{AllocError, Global};
use std::process::Abort;
use std::test::Fail;

fn push_step(steps: &mut Steps, step: Step) -> Result<(), AllocError> {
    match steps.push(step) {
        Ok(()) => Ok(()),
        Err((step, refused)) => {
            drop(step);
            Err(refused)
        }
    }
}

/// The binding of `x` to the position here.
fn bound(alloc: Global) -> Result<Steps, AllocError> {
    let mut steps = Steps::new(alloc);
    push_step(&mut steps, Step::Bind(Word::new(alloc, "x")?, Expr::Here))?;
    Ok(steps)
}

#[test]
fn steps_are_added_with_their_names(rt: HostRuntime) -> Result<(), Fail> {
    let alloc = rt.alloc();
    let steps = bound(alloc)?;
    assert_eq!(rt; steps.as_slice().len(), 1);
    let names = VisibleNames::of(alloc, &Words::new(alloc), &steps);
    drop(steps);
    let names = names?;
    assert_eq!(rt; names.at(0).map(|seen| seen.len()), Some(0));
    assert_eq!(rt; names.at(1).map(|seen| seen.len()), Some(1));
    assert!(rt; names.at(2).is_none());
    Ok(())
}

/// Asserts that no name is visible in the one alternative.
fn expect_names(rt: &impl Abort, alloc: Global, core: &Core) -> Result<(), AllocError> {
    let names = core.names(alloc, 0, 1)?;
    assert!(rt; names.is_some_and(|names| names.at(1).is_some_and(|seen| seen.is_empty())));
    assert!(rt; core.names(alloc, 0, 2)?.is_none());
    Ok(())
}

#[test]
fn names_of_an_alternative(rt: HostRuntime) -> Result<(), Fail> {
    let core = letter_core(rt.alloc())?;
    expect_names(&rt, rt.alloc(), &core)?;
    Ok(())
}

#[test]
fn environments_are_added(rt: HostRuntime) -> Result<(), Fail> {
    let mut envs = EnvironmentTable::new(rt.alloc());
    envs.push(&[Value::Int(1)])?;
    assert_eq!(rt; envs.get(0).map(|values| values.len()), Some(1));
    assert!(rt; envs.get(1).is_none());
    Ok(())
}
