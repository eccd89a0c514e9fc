//! Texts, written by hand: each call once. A table of every form is tried on the
//! program.
ghost use Rattle.std.specs.Prelude.{IfOk, List};
ghost use Rattle.ig_forest.specs.Tags.{TagsAreNamed};
ghost use Rattle.ig_item.specs.declared.core_grammar.Nonterminal.{Nonterminal};

use crate::letters::letter_core;
use ig_expr::{Expr, Function, Op, Operand};
use ig_forest::{Part, Tree};
use ig_grammar::{Decls, Grammar};
use ig_show::{push_expression_text, show_expression, show_grammar, show_pattern};
use ig_show_trees::{
    CursorFault, Report, read_cursor, show_cursor, show_cyclic, show_furthest, show_report,
    show_spans, show_tree,
};
use ig_text::{Class, Pattern, Patterns, Span, Tag, Word};
use std::alloc::{AllocError, Global};
use std::test::Fail;

/// `- size(x)`
fn opposite(alloc: Global) -> Result<Operand, AllocError> {
    let name = Operand::new(alloc, Expr::Var(Word::new(alloc, "x")?))?;
    let size = Operand::new(alloc, Expr::Of(Function::Size, name))?;
    Operand::new(alloc, Expr::Neg(size))
}

/// That and the position here.
fn sum(alloc: Global) -> Result<Expr, AllocError> {
    let opposite = opposite(alloc)?;
    let here = Operand::new(alloc, Expr::Here)?;
    Ok(Expr::Binary(Op::Add, opposite, here))
}

#[test]
fn shows_an_expression(rt: HostRuntime) -> Result<(), Fail> {
    let sum = sum(rt.alloc())?;
    let shown = show_expression(rt.alloc(), &sum);
    drop(sum);
    assert_eq!(rt; shown?.as_slice(), b"(- size(x)) + here".as_slice());
    Ok(())
}

#[test]
fn adds_the_text_of_an_expression(rt: HostRuntime) -> Result<(), Fail> {
    let mut out = String::new(rt.alloc());
    push_expression_text(&mut out, &Expr::Here)?;
    assert_eq!(rt; out.as_str(), "here");
    Ok(())
}

#[test]
fn shows_a_pattern(rt: HostRuntime) -> Result<(), Fail> {
    let alloc = rt.alloc();
    let class = Class::ranges(alloc, true, &[('x', 'x'), ('0', '9'), ('[', '[')])?;
    let pattern = Pattern::OneOf(class);
    let shown = show_pattern(alloc, &pattern);
    drop(pattern);
    assert_eq!(rt; shown?.as_slice(), b"[^0-9\\[x]".as_slice());
    Ok(())
}

#[test]
fn shows_a_grammar(rt: HostRuntime) -> Result<(), Fail> {
    let alloc = rt.alloc();
    let grammar = Grammar {
        start: Some(Word::new(alloc, "S")?),
        tabs: Some(8),
        decls: Decls::new(alloc),
    };
    let shown = show_grammar(alloc, &grammar);
    drop(grammar);
    assert_eq!(rt; shown?.as_slice(), b"start S;\ntabs 8;\n".as_slice());
    Ok(())
}

#[test]
fn reads_a_cursor_and_shows_it(rt: HostRuntime) -> Result<(), Fail> {
    let alloc = rt.alloc();
    let cursor = read_cursor(alloc, "2.0.4294967295")?;
    assert_eq!(rt; cursor.as_slice(), [2, 0, 4294967295].as_slice());
    let shown = show_cursor(alloc, &cursor);
    drop(cursor);
    assert_eq!(rt; shown?.as_slice(), b"2.0.4294967295".as_slice());
    Ok(())
}

#[test]
fn refuses_a_number_of_zeros(rt: HostRuntime) {
    let refused = read_cursor(rt.alloc(), "2.00");
    assert!(rt; matches!(refused, Err(CursorFault::NotACursor)));
}

/// A root over a leaf.
fn small_tree(alloc: Global) -> Result<Tree, AllocError>
    ensures { IfOk result (λ tree. (core : List Nonterminal) → TagsAreNamed core tree) }
{
    let span = Span { begin: 0, end: 12 };
    let root = Part {
        tag: Some(Tag::Root),
        span,
        children: 1,
    };
    let leaf = Part {
        tag: None,
        span,
        children: 0,
    };
    Ok(Tree::from_vec(vec![in alloc; root, leaf]?))
}

#[test]
fn shows_a_tree(rt: HostRuntime) -> Result<(), Fail> {
    let alloc = rt.alloc();
    let tree = small_tree(alloc)?;
    let core = letter_core(alloc)?;
    let shown = show_tree(alloc, &tree, &core);
    drop(core);
    assert_eq!(rt; shown?.as_slice(), b"($root 0..12 0..12)".as_slice());
    Ok(())
}

/// Adds a class and a literal.
fn push_two(alloc: Global, expected: &mut Patterns) -> Result<(), AllocError> {
    let class = Class::ranges(alloc, false, &[('a', 'z')])?;
    push_one(expected, Pattern::OneOf(class))?;
    let word = Word::new(alloc, ">")?;
    push_one(expected, Pattern::Literal(word))
}

/// Adds a pattern.
fn push_one(expected: &mut Patterns, pattern: Pattern) -> Result<(), AllocError> {
    expected.push(pattern).map_err(|refused| refused.1)
}

#[test]
fn shows_a_report(rt: HostRuntime) -> Result<(), Fail> {
    let alloc = rt.alloc();
    let mut expected = Patterns::new(alloc);
    push_two(alloc, &mut expected)?;
    let report = Report {
        position: 6,
        line: 1,
        column: 7,
        expected,
        end: true,
    };
    let shown = show_report(alloc, &report);
    drop(report);
    let shown = shown?;
    let place = b"line 1, column 7, expected \">\", [a-z], end of input";
    assert_eq!(rt; shown.as_slice(), place.as_slice());
    Ok(())
}

#[test]
fn shows_the_furthest_place(rt: HostRuntime) -> Result<(), Fail> {
    let alloc = rt.alloc();
    let report = Report {
        position: 0,
        line: 1,
        column: 1,
        expected: Patterns::new(alloc),
        end: false,
    };
    let shown = show_furthest(alloc, &report);
    drop(report);
    let shown = shown?;
    let line = b"furthest at line 1, column 1, expected nothing\n";
    assert_eq!(rt; shown.as_slice(), line.as_slice());
    Ok(())
}

#[test]
fn shows_spans_and_cycles(rt: HostRuntime) -> Result<(), Fail> {
    let alloc = rt.alloc();
    let spans = [Span { begin: 4, end: 6 }, Span { begin: 4, end: 13 }];
    let shown = show_spans(alloc, &spans)?;
    assert_eq!(rt; shown.as_slice(), b"4..6\n4..13\n".as_slice());
    let cyclic = show_cyclic(alloc, true)?;
    assert_eq!(rt; cyclic.as_slice(), b"cyclic yes\n".as_slice());
    Ok(())
}
