//! Lists and their copies, and a symbol nested deep. Each function owns few values, since it is
//! proved for each `?` that those which are owned there are dropped.
use ig_expr::{Expr, Kind};
use ig_grammar::{
    Alt, Alts, Filter, Filters, Inner, Lets, Param, Params, Shape, Shapes, Symbol, Symbols,
};
use ig_pass::{push_alternative, push_symbol};
use ig_text::{Class, Copied, Pattern, Word};
use std::alloc::{AllocError, Global};
use std::process::Abort;
use std::test::Fail;

fn push_parameter(params: &mut Params, name: Word) -> Result<(), AllocError> {
    let kind = Kind::Span;
    params
        .push(Param { name, kind })
        .map_err(|refused| refused.1)
}

fn expect_parameters(rt: &impl Abort, params: &[Param]) {
    for param in params {
        assert_eq!(rt; param.name.as_str(), "n");
        assert_eq!(rt; param.kind, Kind::Span);
    }
}

#[test]
fn copies_parameters(rt: HostRuntime) -> Result<(), Fail> {
    let alloc = rt.alloc();
    let mut params = Params::new(alloc);
    push_parameter(&mut params, Word::new(alloc, "n")?)?;
    let copied = params.copy(alloc);
    drop(params);
    expect_parameters(&rt, copied?.as_slice());
    Ok(())
}

fn push_exclusion(filters: &mut Filters) -> Result<(), AllocError> {
    filters
        .push(Filter::Not(Pattern::OneOf(Class::Any)))
        .map_err(|refused| refused.1)
}

#[test]
fn copies_filters(rt: HostRuntime) -> Result<(), Fail> {
    let alloc = rt.alloc();
    let mut filters = Filters::new(alloc);
    push_exclusion(&mut filters)?;
    assert_eq!(rt; filters.copy(alloc)?.as_slice().len(), 1);
    Ok(())
}

fn push_let(lets: &mut Lets, name: Word) -> Result<(), AllocError> {
    match lets.push((name, Expr::Here)) {
        Ok(()) => Ok(()),
        Err((binding, refused)) => {
            drop(binding);
            Err(refused)
        }
    }
}

#[test]
fn copies_lets(rt: HostRuntime) -> Result<(), Fail> {
    let alloc = rt.alloc();
    let mut lets = Lets::new(alloc);
    push_let(&mut lets, Word::new(alloc, "n")?)?;
    assert_eq!(rt; lets.copy(alloc)?.as_slice().len(), 1);
    Ok(())
}

#[test]
fn keeps_shapes(rt: HostRuntime) -> Result<(), Fail> {
    let mut shapes = Shapes::new(rt.alloc());
    shapes.push(Shape::Root).map_err(|refused| refused.1)?;
    assert_eq!(rt; shapes.as_slice(), [Shape::Root].as_slice());
    Ok(())
}

// The alternative of one symbol.
pub(crate) fn alternatives_of(alloc: Global, symbol: Symbol) -> Result<Alts, AllocError> {
    let mut symbols = Symbols::new(alloc);
    push_symbol(&mut symbols, symbol)?;
    let mut alts = Alts::new(alloc);
    push_alternative(&mut alts, Alt { symbols })?;
    Ok(alts)
}

// The symbol in as many options, one inside the other.
fn nested(alloc: Global, symbol: Symbol, depth: u32) -> Result<Symbol, AllocError> {
    let mut nested = symbol;
    for _ in 0..depth {
        nested = Symbol::Opt(Inner::new(alloc, nested)?);
    }
    Ok(nested)
}

// A copy of an alternative of a symbol in a thousand options.
fn deep_copy(alloc: Global) -> Result<Alts, AllocError> {
    let deep = nested(alloc, Symbol::Class(Class::Any), 1000)?;
    let alts = alternatives_of(alloc, deep)?;
    alts.copy(alloc)
}

// What stands in as many options.
fn inmost(symbol: &Symbol, depth: u32) -> Option<&Symbol> {
    let mut inside = symbol;
    for _ in 0..depth {
        let Symbol::Opt(inner) = inside else {
            return None;
        };
        inside = inner.as_symbol();
    }
    Some(inside)
}

#[test]
fn copies_a_symbol_a_thousand_deep(rt: HostRuntime) -> Result<(), Fail> {
    let copied = deep_copy(rt.alloc())?;
    for alternative in copied.as_slice() {
        for symbol in alternative.symbols.as_slice() {
            assert!(rt; matches!(inmost(symbol, 1000), Some(Symbol::Class(Class::Any))));
        }
    }
    Ok(())
}
