//! A grammar of one declaration through the traversal, and with its root, with ample memory.
ghost use Rattle.std.specs.Prelude.{◌≡◌, IfOk, chars, codes, length};
ghost use Rattle.ig_tests.specs.Barren.{barren_grammar};

use crate::grammar::alternatives_of;
use ig_expr::Exprs;
use ig_grammar::{
    Assoc, Checked, Decl, DeclKind, Decls, Grammar, Inner, Level, Levels, Params, Symbol,
};
use ig_pass::{OwnRule, copy_of_shapes, has_root, rewrite_grammar, rewrite_levels, root};
use ig_text::{Copied, Word};
use std::alloc::{AllocError, Global};
use std::process::Abort;
use std::test::Fail;

/// A rule that changes nothing.
struct Unchanging {}

impl OwnRule for Unchanging {
    ghost rule = { λ s decl x. x };

    fn apply(&self, _alloc: Global, _decl: &Decl, symbol: Symbol) -> Result<Symbol, AllocError> {
        Ok(symbol)
    }
}

// `S?`
fn optional_call(alloc: Global) -> Result<Symbol, AllocError> {
    let name = Word::new(alloc, "S")?;
    let call = Symbol::Call(name, Exprs::new(alloc));
    Ok(Symbol::Opt(Inner::new(alloc, call)?))
}

// The one level of that alternative.
fn level_of(alloc: Global, symbol: Symbol) -> Result<Levels, AllocError> {
    let alts = alternatives_of(alloc, symbol)?;
    let assoc = Assoc::Free;
    Ok(Levels::from_vec(vec![in alloc; Level { assoc, alts }]?))
}

// `syntax S = S?;`
fn declaration(alloc: Global) -> Result<Decl, AllocError> {
    let levels = level_of(alloc, optional_call(alloc)?)?;
    Ok(Decl {
        kind: DeclKind::Syntax,
        name: Word::new(alloc, "S")?,
        params: Params::new(alloc),
        levels,
    })
}

// `start S; syntax S = S?;`
fn optional(alloc: Global) -> Result<Grammar, AllocError> {
    let decls = Decls::from_vec(vec![in alloc; declaration(alloc)?]?);
    Ok(Grammar {
        start: Some(Word::new(alloc, "S")?),
        tabs: None,
        decls,
    })
}

#[test]
fn rewrites_a_grammar(rt: HostRuntime) -> Result<(), Fail> {
    let alloc = rt.alloc();
    let grammar = rewrite_grammar(&Unchanging {}, alloc, &optional(alloc)?)?;
    for decl in grammar.decls.as_slice() {
        assert_eq!(rt; decl.name.as_str(), "S");
        assert_eq!(rt; rewrite_levels(&Unchanging {}, alloc, decl)?.len(), 1);
    }
    assert_eq!(rt; grammar.decls.len(), 1);
    Ok(())
}

fn barren_grammar(alloc: Global, name: Word) -> Result<Grammar, AllocError>
    ensures { IfOk result (λ g. g ≡ barren_grammar name) }
{
    let start = Some(name.copy(alloc)?);
    let decl = Decl {
        kind: DeclKind::Syntax,
        name,
        params: Params::new(alloc),
        levels: Levels::new(alloc),
    };
    let decls = Decls::from_vec(vec![in alloc; decl]?);
    Ok(Grammar {
        start,
        tabs: None,
        decls,
    })
}

/// The grammar of a declaration `S` without alternatives, checked.
pub(crate) fn barren(alloc: Global) -> Result<Checked, AllocError>
    ensures grammar { IfOk result (λ checked.
        checked.grammar ≡ barren_grammar (chars (codes "S"))) }
    ensures shapes { IfOk result (λ checked. length checked.shapes ≡ 1) }
{
    let name = Word::new(alloc, "S")?;
    Ok(Checked::of(barren_grammar(alloc, name)?))
}

/// Asserts that there are two declarations, of which one stands for the root.
fn expect_root(rt: &impl Abort, alloc: Global, rooted: &Checked) -> Result<(), Fail> {
    assert!(rt; has_root(rooted));
    assert_eq!(rt; rooted.grammar().decls.len(), 2);
    assert_eq!(rt; copy_of_shapes(alloc, rooted)?.len(), 2);
    Ok(())
}

#[test]
fn writes_the_root(rt: HostRuntime) -> Result<(), Fail> {
    let alloc = rt.alloc();
    let checked = barren(alloc)?;
    let rooted = root(alloc, &checked);
    assert!(rt; !has_root(&checked));
    drop(checked);
    let rooted = rooted?;
    expect_root(&rt, alloc, &rooted)
}
