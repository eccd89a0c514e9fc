//! What the pass of blocks makes of an entry, which passes alone write, so that no text has one.
ghost use Rattle.std.specs.Prelude.{◌≡◌, length};

use crate::rewrite::barren;
use ig_blocks_parts::{Pair, entered_again, guide_of};
use ig_expr::Expr;
use ig_grammar::{Checked, Lets, Symbol};
use std::alloc::{AllocError, Global};
use std::test::Fail;

/// An entry without bindings, where nothing is `offside`.
fn entered(alloc: Global, checked: &Checked) -> Result<Symbol, AllocError>
    requires { length checked.now.shapes ≡ length checked.now.grammar.decls }
{
    let guide = guide_of(alloc, checked.grammar().decls.as_slice(), checked)?;
    let inside = Symbol::Guard(Expr::Bool(true));
    entered_again(alloc, &guide, &Pair::Lacking, &Lets::new(alloc), inside)
}

#[test]
fn enters_again(rt: HostRuntime) -> Result<(), Fail> {
    let checked = barren(rt.alloc())?;
    let entered = entered(rt.alloc(), &checked);
    drop(checked);
    assert!(rt; matches!(entered?, Symbol::Entry(..)));
    Ok(())
}
