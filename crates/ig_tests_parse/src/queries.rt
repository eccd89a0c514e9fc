//! What queries tell of a forest with two trees.
use crate::parsing::forest_under;
use ig_forest::Forest;
use ig_query::{ambiguous_nodes, is_ambiguous, spans};
use ig_text::Span;
use std::alloc::Global;
use std::process::Abort;
use std::test::Fail;

/// The grammar of pairs.
const PAIRS: &str = "start S; syntax S = S S | \"a\";";

/// Asserts that these nodes of the forest are ambiguous.
fn expect_ambiguous(
    rt: &impl Abort,
    alloc: Global,
    forest: &Forest,
    expected: &[u32],
) -> Result<(), Fail> {
    let nodes = ambiguous_nodes(alloc, forest)?;
    assert_eq!(rt; nodes.as_slice(), expected);
    assert_eq!(rt; is_ambiguous(forest), !expected.is_empty());
    Ok(())
}

#[test]
fn tells_ambiguous_nodes(rt: HostRuntime) -> Result<(), Fail> {
    let forest = forest_under(rt.alloc(), PAIRS, b"aaa")?;
    // The node of `S` over the whole text, behind those of `S` over `0..1` and `0..2` and the root.
    expect_ambiguous(&rt, rt.alloc(), &forest, &[3])
}

#[test]
fn tells_that_none_is_ambiguous(rt: HostRuntime) -> Result<(), Fail> {
    let forest = forest_under(rt.alloc(), PAIRS, b"aa")?;
    expect_ambiguous(&rt, rt.alloc(), &forest, &[])
}

/// The span of these positions.
fn span(begin: u32, end: u32) -> Span {
    Span { begin, end }
}

/// Asserts that the nodes of `S` have these spans, and that there is none of a name with `$`.
fn expect_spans(
    rt: &impl Abort,
    alloc: Global,
    forest: &Forest,
    expected: &[Span],
) -> Result<(), Fail> {
    assert_eq!(rt; spans(alloc, forest, "S")?.as_slice(), expected);
    assert!(rt; spans(alloc, forest, "$root")?.is_empty());
    Ok(())
}

#[test]
fn tells_spans(rt: HostRuntime) -> Result<(), Fail> {
    let forest = forest_under(rt.alloc(), PAIRS, b"aa")?;
    let all = [span(0, 1), span(0, 2), span(1, 2)];
    expect_spans(&rt, rt.alloc(), &forest, &all)
}
