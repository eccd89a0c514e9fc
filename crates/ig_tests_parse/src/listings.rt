//! The heights of a forest with two trees, and their listing.
ghost use Rattle.ig_heights.specs.Heights.{AreHeights};

use crate::parsing::forest_under;
use ig_forest::{Cursor, Forest};
use ig_heights::Heights;
use ig_walker::{WalkFault, Walker};
use std::alloc::{AllocError, Global};
use std::process::Abort;
use std::test::Fail;

/// The grammar of pairs.
const PAIRS: &str = "start S; syntax S = S S | \"a\";";

/// A grammar whose trees of the empty text have every height above one.
const CYCLIC: &str = "start S; syntax S = S |;";

/// Asserts the least heights of the pairs: of the root over `S` over a pair over a letter, and of
/// the first letter alone.
fn expect_heights(rt: &impl Abort, root: u32, heights: &Heights) {
    assert_eq!(rt; heights.least(root), Some(4));
    assert_eq!(rt; heights.least(0), Some(1));
    assert_eq!(rt; heights.least(7), None);
    assert!(rt; !heights.is_cyclic());
}

#[test]
fn tells_heights(rt: HostRuntime) -> Result<(), Fail> {
    let alloc = rt.alloc();
    let forest = forest_under(alloc, PAIRS, b"aaa")?;
    let heights = Heights::of(alloc, &forest)?;
    expect_heights(&rt, forest.root(), &heights);
    Ok(())
}

#[test]
fn tells_that_heights_have_no_bound(rt: HostRuntime) -> Result<(), Fail> {
    let alloc = rt.alloc();
    let forest = forest_under(alloc, CYCLIC, b"")?;
    let heights = Heights::of(alloc, &forest)?;
    assert_eq!(rt; heights.least(forest.root()), Some(2));
    assert!(rt; heights.is_cyclic());
    Ok(())
}

/// Asserts that the walker gives a tree of so many parts, with a cursor of that one number.
fn expect_tree(
    rt: &impl Abort,
    walker: &mut Walker<'_>,
    parts: usize,
    number: u32,
) -> Result<(), Fail> {
    match walker.next()? {
        Some(tree) => assert_eq!(rt; tree.len(), parts),
        None => return Err(Fail::new("no tree")),
    }
    expect_cursor(rt, walker, number)
}

/// Asserts that the walker stands at a cursor of that one number.
fn expect_cursor(rt: &impl Abort, walker: &Walker<'_>, number: u32) -> Result<(), Fail> {
    match walker.cursor()? {
        Some(cursor) => assert_eq!(rt; cursor.as_slice(), [number].as_slice()),
        None => return Err(Fail::new("no cursor")),
    }
    Ok(())
}

/// Asserts that there are two trees of at most height 4, of nine parts: the root, five nodes of `S`
/// and three leaves.
fn expect_two(
    rt: &impl Abort,
    alloc: Global,
    forest: &Forest,
    heights: &Heights,
) -> Result<(), Fail>
    requires { AreHeights forest.now heights.now }
{
    let mut walker = Walker::first(alloc, forest, heights, 4);
    assert!(rt; walker.cursor()?.is_none());
    expect_tree(rt, &mut walker, 9, 0)?;
    expect_tree(rt, &mut walker, 9, 1)?;
    assert!(rt; walker.next()?.is_none());
    Ok(())
}

#[test]
fn lists_trees(rt: HostRuntime) -> Result<(), Fail> {
    let alloc = rt.alloc();
    let forest = forest_under(alloc, PAIRS, b"aaa")?;
    let heights = Heights::of(alloc, &forest)?;
    expect_two(&rt, alloc, &forest, &heights)
}

/// Whether a tree has at most that height.
fn has_tree(
    alloc: Global,
    forest: &Forest,
    heights: &Heights,
    depth: u32,
) -> Result<bool, AllocError>
    requires { AreHeights forest.now heights.now }
{
    let mut walker = Walker::first(alloc, forest, heights, depth);
    Ok(walker.next()?.is_some())
}

/// Asserts that there is a tree of at most height 4, and none of at most height 3.
fn expect_height(
    rt: &impl Abort,
    alloc: Global,
    forest: &Forest,
    heights: &Heights,
) -> Result<(), Fail>
    requires { AreHeights forest.now heights.now }
{
    assert!(rt; has_tree(alloc, forest, heights, 4)?);
    assert!(rt; !has_tree(alloc, forest, heights, 3)?);
    Ok(())
}

#[test]
fn lists_no_higher_trees(rt: HostRuntime) -> Result<(), Fail> {
    let alloc = rt.alloc();
    let forest = forest_under(alloc, PAIRS, b"aaa")?;
    let heights = Heights::of(alloc, &forest)?;
    expect_height(&rt, alloc, &forest, &heights)
}

/// The cursor of that one number.
fn cursor_of(alloc: Global, number: u32) -> Result<Cursor, AllocError> {
    Ok(Cursor::from_vec(vec![in alloc; number]?))
}

/// Asserts that behind the first tree there is the second alone.
fn expect_second(
    rt: &impl Abort,
    alloc: Global,
    forest: &Forest,
    heights: &Heights,
) -> Result<(), Fail>
    requires { AreHeights forest.now heights.now }
{
    let first = cursor_of(alloc, 0)?;
    let mut walker = Walker::after(alloc, forest, heights, 4, &first)?;
    expect_cursor(rt, &walker, 0)?;
    expect_tree(rt, &mut walker, 9, 1)?;
    assert!(rt; walker.next()?.is_none());
    Ok(())
}

#[test]
fn lists_trees_behind_one(rt: HostRuntime) -> Result<(), Fail> {
    let alloc = rt.alloc();
    let forest = forest_under(alloc, PAIRS, b"aaa")?;
    let heights = Heights::of(alloc, &forest)?;
    expect_second(&rt, alloc, &forest, &heights)
}

/// Whether the walker refuses a cursor of that one number.
fn is_refused(
    alloc: Global,
    forest: &Forest,
    heights: &Heights,
    number: u32,
) -> Result<bool, AllocError>
    requires { AreHeights forest.now heights.now }
{
    let cursor = cursor_of(alloc, number)?;
    match Walker::after(alloc, forest, heights, 4, &cursor) {
        Ok(_) => Ok(false),
        Err(WalkFault::BadCursor) => Ok(true),
        Err(WalkFault::Memory) => Err(AllocError),
    }
}

/// Asserts that there is a tree of the cursor of number 1, and none of number 2.
fn expect_refused(
    rt: &impl Abort,
    alloc: Global,
    forest: &Forest,
    heights: &Heights,
) -> Result<(), Fail>
    requires { AreHeights forest.now heights.now }
{
    assert!(rt; !is_refused(alloc, forest, heights, 1)?);
    assert!(rt; is_refused(alloc, forest, heights, 2)?);
    Ok(())
}

#[test]
fn refuses_a_cursor(rt: HostRuntime) -> Result<(), Fail> {
    let alloc = rt.alloc();
    let forest = forest_under(alloc, PAIRS, b"aaa")?;
    let heights = Heights::of(alloc, &forest)?;
    expect_refused(&rt, alloc, &forest, &heights)
}
