//! The top call in a hostile world: sinks that fail side by side, texts past their limits, cursors
//! that are none, derivations without end, and trees that are very high.

use crate::top_call::{LETTER, LETTER_FOREST, PAIRS, ROOM, end_of, shelf_of, words_of};
use ig_command_endings::Status;
use ig_outside::MemorySink;
use ig_tool::iguana;
use std::alloc::Global;
use std::process::Abort;
use std::test::Fail;

/// One byte more than a grammar text may have.
const LONG_GRAMMAR: usize = 262_145;

/// One byte more than an input may have.
const LONG_INPUT: usize = 4_194_305;

/// One character more than an input may have.
const MANY_CHARACTERS: usize = 1_048_577;

/// How many letters the highest tree of these tests has.
const HIGH: usize = 200_000;

#[test]
fn both_sinks_fail(rt: HostRuntime) -> Result<(), Fail> {
    let alloc = rt.alloc();
    let words = words_of(alloc, &["forest", "g", "i"])?;
    let mut shelf = shelf_of(alloc, LETTER.as_bytes(), b"a")?;
    let mut out = MemorySink::new(alloc, ROOM)?;
    out.fail(1, 0)?;
    let mut notes = MemorySink::new(alloc, ROOM)?;
    notes.fail(1, 0)?;
    let status = iguana(alloc, words.as_slice(), &mut shelf, &mut out, &mut notes);
    assert_eq!(rt; status, Status::WriteFault);
    assert_eq!(rt; out.bytes(), b"".as_slice());
    assert_eq!(rt; notes.bytes(), b"".as_slice());
    Ok(())
}

#[test]
fn nothing_is_noted_where_nothing_is_wrong(rt: HostRuntime) -> Result<(), Fail> {
    let alloc = rt.alloc();
    let words = words_of(alloc, &["forest", "g", "i"])?;
    let mut shelf = shelf_of(alloc, LETTER.as_bytes(), b"a")?;
    let mut out = MemorySink::new(alloc, ROOM)?;
    let mut notes = MemorySink::new(alloc, ROOM)?;
    notes.fail(1, 0)?;
    let status = iguana(alloc, words.as_slice(), &mut shelf, &mut out, &mut notes);
    assert_eq!(rt; status, Status::Done);
    assert_eq!(rt; out.bytes(), LETTER_FOREST.as_bytes());
    assert_eq!(rt; notes.count(), 0);
    Ok(())
}

/// Asserts that `forest` on the two texts is refused with that status and that line.
fn expect_refused(
    rt: &impl Abort,
    alloc: Global,
    grammar: &[u8],
    input: &[u8],
    status: Status,
    note: &str,
) -> Result<(), Fail> {
    let ended = end_of(alloc, &["forest", "g", "i"], grammar, input)?;
    assert_eq!(rt; ended.status, status);
    assert_eq!(rt; ended.out.bytes(), b"".as_slice());
    assert_eq!(rt; ended.notes.bytes(), note.as_bytes());
    Ok(())
}

#[test]
fn texts_past_their_limits(rt: HostRuntime) -> Result<(), Fail> {
    let alloc = rt.alloc();
    let spaces = vec![in alloc; b' '; LONG_GRAMMAR]?;
    let large = "grammar: too large: bytes\n";
    expect_refused(&rt, alloc, spaces.as_slice(), b"a", Status::Grammar, large)?;
    for length in [LONG_INPUT, MANY_CHARACTERS] {
        let letters = vec![in alloc; b'a'; length]?;
        let input = letters.as_slice();
        let long = "input: too long\n";
        expect_refused(&rt, alloc, LETTER.as_bytes(), input, Status::Input, long)?;
    }
    Ok(())
}

/// Listings after words that are no cursor of a tree of four letters in pairs.
const NO_CURSORS: &[&[&str]] = &[
    &["trees", "g", "i", "--after", "0"],
    &["trees", "g", "i", "--after", "0.2"],
    &["trees", "g", "i", "--after", "3"],
    &["trees", "g", "i", "--after", "1.0"],
    &["trees", "g", "i", "--after", "01"],
    &["trees", "g", "i", "--after", "0."],
    &["trees", "g", "i", "--after", "only"],
    &["trees", "g", "i", "--after", "4294967296"],
];

#[test]
fn words_that_are_no_cursor(rt: HostRuntime) -> Result<(), Fail> {
    for words in NO_CURSORS {
        let ended = end_of(rt.alloc(), words, PAIRS, b"aaaa")?;
        assert_eq!(rt; ended.status, Status::BadCursor);
        assert_eq!(rt; ended.out.bytes(), b"".as_slice());
        assert_eq!(rt; ended.notes.bytes(), b"no such cursor\n".as_slice());
    }
    Ok(())
}

#[test]
fn a_derivation_without_end(rt: HostRuntime) -> Result<(), Fail> {
    let endless = b"start S; syntax S = A(0); syntax A(n: int) = A(n + 1) | \"a\";";
    let words = &["forest", "g", "i", "--budget", "100000"];
    let ended = end_of(rt.alloc(), words, endless, b"a")?;
    assert_eq!(rt; ended.status, Status::Budget);
    assert_eq!(rt; ended.out.bytes(), b"".as_slice());
    let note = b"budget: more than 100000 items\n".as_slice();
    assert_eq!(rt; ended.notes.bytes(), note);
    Ok(())
}

#[test]
fn a_very_high_tree(rt: HostRuntime) -> Result<(), Fail> {
    let alloc = rt.alloc();
    let letters = vec![in alloc; b'a'; HIGH]?;
    let grammar = b"start S; syntax S = S \"a\" | \"a\";";
    let words = &["query", "g", "i", "--what", "cyclic"];
    let ended = end_of(alloc, words, grammar, letters.as_slice())?;
    assert_eq!(rt; ended.status, Status::Done);
    assert_eq!(rt; ended.out.bytes(), b"cyclic no\n".as_slice());
    Ok(())
}
