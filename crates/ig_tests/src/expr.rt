//! Each call that takes memory once, with ample memory. What expressions give at the edges stands
//! in `specs/Examples.antt`.
use ig_expr::{Expr, Exprs, Operand, Value, Values, evaluate};
use ig_text::{Copied, Text};
use std::alloc::{AllocError, Global};
use std::test::Fail;

/// `- 3`
fn opposite(alloc: Global) -> Result<Expr, AllocError> {
    let three = Operand::new(alloc, Expr::Int(3))?;
    Ok(Expr::Neg(three))
}

/// The copy of that.
fn copied(alloc: Global) -> Result<Expr, AllocError> {
    let e = opposite(alloc)?;
    e.copy(alloc)
}

#[test]
fn copies_an_expression(rt: HostRuntime) -> Result<(), Fail> {
    let alloc = rt.alloc();
    let text = Text::decode(alloc, b"")?;
    let e = copied(alloc)?;
    assert_eq!(rt; evaluate(&e, &[], &[], 0, &text), Some(Value::Int(-3)));
    Ok(())
}

#[test]
fn copies_values(rt: HostRuntime) -> Result<(), Fail> {
    let mut values = Values::new(rt.alloc());
    values.push(Value::Int(7)).map_err(|refused| refused.1)?;
    let copied = values.copy(rt.alloc())?;
    assert!(rt; copied == values);
    Ok(())
}

/// Adds an expression.
fn push_here(exprs: &mut Exprs) -> Result<(), AllocError> {
    match exprs.push(Expr::Here) {
        Ok(()) => Ok(()),
        Err((expression, refused)) => {
            drop(expression);
            Err(refused)
        }
    }
}

#[test]
fn copies_expressions(rt: HostRuntime) -> Result<(), Fail> {
    let mut exprs = Exprs::new(rt.alloc());
    push_here(&mut exprs)?;
    assert_eq!(rt; exprs.copy(rt.alloc())?.as_slice().len(), 1);
    Ok(())
}
