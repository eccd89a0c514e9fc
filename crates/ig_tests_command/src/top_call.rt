//! The top call over a shelf and sinks in memory, which may fail. What it answers is tried on the
//! program, by tables of texts.

use ig_command_endings::Status;
use ig_outside::{MemoryShelf, MemorySink};
use ig_tool::iguana;
use std::alloc::Global;
use std::process::Abort;
use std::test::Fail;

/// The grammar of one letter, whose forest on that letter is written out in `LETTER_FOREST`.
pub(crate) const LETTER: &str = "start S; syntax S = \"a\";";

pub(crate) const LETTER_FOREST: &str =
    "forest 2 4\nnode 0 $root () 0..1\nalt $root 2\nnode 1 S () 0..1\nalt S.1 3\nitem 0 $root () \
        1 0 [] 0..0\nbegin\nitem 1 S () 1 0 [] 0..0\nbegin\nitem 2 $root () 1 1 [] 0..1\ntake 0 \
        node 1\nitem 3 S () 1 1 [] 0..1\ntake 1 leaf 0..1\n";

/// More bytes than any output of these rows.
pub(crate) const ROOM: u64 = 100_000;

/// The words of a command.
pub(crate) fn words_of(alloc: Global, words: &[&str]) -> Result<Vec<String>, Fail> {
    let mut all = Vec::new(alloc);
    for word in words {
        all.push(String::from_str(alloc, word)?)?;
    }
    Ok(all)
}

/// A shelf that holds the grammar under `g` and the input under `i`.
pub(crate) fn shelf_of(alloc: Global, grammar: &[u8], input: &[u8]) -> Result<MemoryShelf, Fail> {
    let mut shelf = MemoryShelf::new(alloc);
    shelf.add("g", grammar)?;
    shelf.add("i", input)?;
    Ok(shelf)
}

/// How a command ended: its status, and what out and notes got.
#[derive(Drop)]
pub(crate) struct Ended {
    pub status: Status,
    pub out: MemorySink,
    pub notes: MemorySink,
}

/// How the command of these words ends on a grammar under `g` and an input under `i`.
pub(crate) fn end_of(
    alloc: Global,
    words: &[&str],
    grammar: &[u8],
    input: &[u8],
) -> Result<Ended, Fail> {
    let words = words_of(alloc, words)?;
    let mut shelf = shelf_of(alloc, grammar, input)?;
    let mut out = MemorySink::new(alloc, ROOM)?;
    let mut notes = MemorySink::new(alloc, ROOM)?;
    let status = iguana(alloc, words.as_slice(), &mut shelf, &mut out, &mut notes);
    Ok(Ended { status, out, notes })
}

#[test]
fn prints_a_forest(rt: HostRuntime) -> Result<(), Fail> {
    let ended = end_of(rt.alloc(), &["forest", "g", "i"], LETTER.as_bytes(), b"a")?;
    assert_eq!(rt; ended.status, Status::Done);
    assert_eq!(rt; ended.out.bytes(), LETTER_FOREST.as_bytes());
    assert_eq!(rt; ended.notes.bytes(), b"".as_slice());
    Ok(())
}

/// The grammar of pairs, under which three letters have two trees.
pub(crate) const PAIRS: &[u8] = b"start S; syntax S = S S | \"a\";";

const PAIRS_TREES: &[u8] =
    b"0 ($root 0..3 (S.1 0..3 (S.2 0..1 0..1) (S.1 1..3 (S.2 1..2 1..2) (S.2 2..3 2..3))))\n\
        1 ($root 0..3 (S.1 0..3 (S.1 0..2 (S.2 0..1 0..1) (S.2 1..2 1..2)) (S.2 2..3 2..3)))\n";

#[test]
fn lists_trees(rt: HostRuntime) -> Result<(), Fail> {
    let ended = end_of(rt.alloc(), &["trees", "g", "i"], PAIRS, b"aaa")?;
    assert_eq!(rt; ended.status, Status::Done);
    assert_eq!(rt; ended.out.bytes(), PAIRS_TREES);
    Ok(())
}

#[test]
fn answers_a_question(rt: HostRuntime) -> Result<(), Fail> {
    let ended = end_of(rt.alloc(), &["query", "g", "i"], PAIRS, b"aaa")?;
    assert_eq!(rt; ended.status, Status::Done);
    assert_eq!(rt; ended.out.bytes(), b"ambiguous yes\nS () 0..3\n".as_slice());
    Ok(())
}

/// Asserts that the command on this shelf can't read a file: what notes got, and the shelf's count.
pub(crate) fn expect_unread(
    rt: &impl Abort,
    alloc: Global,
    words: &[&str],
    shelf: &mut MemoryShelf,
    note: &str,
    faults: u64,
) -> Result<(), Fail> {
    let words = words_of(alloc, words)?;
    let mut out = MemorySink::new(alloc, ROOM)?;
    let mut notes = MemorySink::new(alloc, ROOM)?;
    let status = iguana(alloc, words.as_slice(), shelf, &mut out, &mut notes);
    assert_eq!(rt; status, Status::ReadFault);
    assert_eq!(rt; out.bytes(), b"".as_slice());
    assert_eq!(rt; notes.bytes(), note.as_bytes());
    assert_eq!(rt; shelf.count(), faults);
    Ok(())
}

#[test]
fn files_that_cannot_be_read(rt: HostRuntime) -> Result<(), Fail> {
    let alloc = rt.alloc();
    let forest = &["forest", "g", "i"];
    let mut shelf = MemoryShelf::new(alloc);
    expect_unread(
        &rt,
        alloc,
        &["check", "g.ig"],
        &mut shelf,
        "cannot read g.ig\n",
        0,
    )?;
    expect_unread(&rt, alloc, forest, &mut shelf, "cannot read g\n", 0)?;
    shelf.add("g", LETTER.as_bytes())?;
    expect_unread(&rt, alloc, forest, &mut shelf, "cannot read i\n", 0)?;
    let mut shelf = shelf_of(alloc, LETTER.as_bytes(), b"a")?;
    shelf.fail(1)?;
    expect_unread(&rt, alloc, &["show", "g"], &mut shelf, "cannot read g\n", 1)?;
    shelf.fail(3)?;
    expect_unread(&rt, alloc, forest, &mut shelf, "cannot read i\n", 2)
}

/// Asserts what comes of the forest of a letter where out keeps so many bytes of the first put.
fn expect_unwritten(
    rt: &impl Abort,
    alloc: Global,
    words: &[String],
    kept: u64,
) -> Result<(), Fail> {
    let mut shelf = shelf_of(alloc, LETTER.as_bytes(), b"a")?;
    let mut out = MemorySink::new(alloc, ROOM)?;
    out.fail(1, kept)?;
    let mut notes = MemorySink::new(alloc, ROOM)?;
    let status = iguana(alloc, words, &mut shelf, &mut out, &mut notes);
    assert_eq!(rt; status, Status::WriteFault);
    assert_eq!(rt; out.bytes().len() as u64, kept);
    assert!(rt; LETTER_FOREST.as_bytes().starts_with(out.bytes()));
    assert_eq!(rt; notes.bytes(), b"cannot write\n".as_slice());
    Ok(())
}

/// Asserts what comes of an input without a tree where notes keeps three bytes of the first put.
fn expect_unnoted(rt: &impl Abort, alloc: Global, words: &[String]) -> Result<(), Fail> {
    let mut shelf = shelf_of(alloc, LETTER.as_bytes(), b"")?;
    let mut out = MemorySink::new(alloc, ROOM)?;
    let mut notes = MemorySink::new(alloc, ROOM)?;
    notes.fail(1, 3)?;
    let status = iguana(alloc, words, &mut shelf, &mut out, &mut notes);
    assert_eq!(rt; status, Status::WriteFault);
    assert_eq!(rt; out.bytes(), b"".as_slice());
    assert_eq!(rt; notes.bytes(), b"no ".as_slice());
    Ok(())
}

#[test]
fn sinks_that_fail(rt: HostRuntime) -> Result<(), Fail> {
    let alloc = rt.alloc();
    let words = words_of(alloc, &["forest", "g", "i"])?;
    for kept in [0, 7, 218] {
        expect_unwritten(&rt, alloc, words.as_slice(), kept)?;
    }
    expect_unnoted(&rt, alloc, words.as_slice())
}
