//! The commands `analyse` and `verify` over a shelf in memory: facts of declarations, and forests
//! that keep to the rules or break one. What they answer to more texts is tried on the program.

use crate::top_call::{LETTER, LETTER_FOREST, PAIRS, ROOM, end_of, shelf_of, words_of};
use ig_command_endings::Status;
use ig_outside::{MemoryShelf, MemorySink};
use ig_tool::iguana;
use std::alloc::Global;
use std::process::Abort;
use std::test::Fail;

/// The words of a check of a forest.
const VERIFY: &[&str] = &["verify", "g", "i", "f"];

/// The forest of the letter, but for the span of its leaf.
const EMPTY_LEAF: &str =
    "forest 2 4\nnode 0 $root () 0..1\nalt $root 2\nnode 1 S () 0..1\nalt S.1 3\nitem 0 $root () \
        1 0 [] 0..0\nbegin\nitem 1 S () 1 0 [] 0..0\nbegin\nitem 2 $root () 1 1 [] 0..1\ntake 0 \
        node 1\nitem 3 S () 1 1 [] 0..1\ntake 1 leaf 0..0\n";

/// The same in another order, with a second item that nothing uses.
const DISORDER: &str =
    "forest 2 5\nnode 0 S () 0..1\nalt S.1 2\nnode 1 $root () 0..1\nalt $root 0\nitem 0 $root () \
        1 1 [] 0..1\ntake 3 node 0\nitem 1 S () 1 0 [] 1..1\nbegin\nitem 2 S () 1 1 [] \
        0..1\ntake 4 leaf 0..1\nitem 3 $root () 1 0 [] 0..0\nbegin\nitem 4 S () 1 0 [] \
        0..0\nbegin\n";

/// Asserts how the command ends on this shelf: its status, and what out and notes got.
pub(crate) fn expect_end(
    rt: &impl Abort,
    alloc: Global,
    words: &[&str],
    shelf: &mut MemoryShelf,
    status: Status,
    said: (&str, &str),
) -> Result<(), Fail> {
    let words = words_of(alloc, words)?;
    let mut out = MemorySink::new(alloc, ROOM)?;
    let mut notes = MemorySink::new(alloc, ROOM)?;
    let answer = iguana(alloc, words.as_slice(), shelf, &mut out, &mut notes);
    assert_eq!(rt; answer, status);
    assert_eq!(rt; out.bytes(), said.0.as_bytes());
    assert_eq!(rt; notes.bytes(), said.1.as_bytes());
    Ok(())
}

/// Asserts what comes of the text of a forest, with the grammar and the input of a letter.
fn expect_checked(
    rt: &impl Abort,
    alloc: Global,
    text: &str,
    status: Status,
    said: (&str, &str),
) -> Result<(), Fail> {
    let mut shelf = shelf_of(alloc, LETTER.as_bytes(), b"a")?;
    shelf.add("f", text.as_bytes())?;
    expect_end(rt, alloc, VERIFY, &mut shelf, status, said)
}

#[test]
fn checks_forests(rt: HostRuntime) -> Result<(), Fail> {
    let alloc = rt.alloc();
    let sound = ("verified\n", "");
    expect_checked(&rt, alloc, LETTER_FOREST, Status::Done, sound)?;
    expect_checked(&rt, alloc, DISORDER, Status::Done, sound)?;
    let broken = ("", "not sound: item 3 rule 5\n");
    expect_checked(&rt, alloc, EMPTY_LEAF, Status::NotSound, broken)?;
    let none = ("", "forest: not a forest\n");
    expect_checked(&rt, alloc, "forest 2 4\n", Status::NotForest, none)?;
    expect_checked(&rt, alloc, "", Status::NotForest, none)
}

#[test]
fn checks_what_it_prints(rt: HostRuntime) -> Result<(), Fail> {
    let alloc = rt.alloc();
    let printed = end_of(alloc, &["forest", "g", "i"], PAIRS, b"aaaa")?;
    let mut shelf = shelf_of(alloc, PAIRS, b"aaaa")?;
    shelf.add("f", printed.out.bytes())?;
    expect_end(
        &rt,
        alloc,
        VERIFY,
        &mut shelf,
        Status::Done,
        ("verified\n", ""),
    )?;
    shelf.add("i", b"aaab")?;
    let broken = ("", "not sound: item 24 rule 5\n");
    expect_end(&rt, alloc, VERIFY, &mut shelf, Status::NotSound, broken)
}

/// The text of the forest is fetched last: each file is missed only where those before it are
/// there.
#[test]
fn checks_files_in_order(rt: HostRuntime) -> Result<(), Fail> {
    let alloc = rt.alloc();
    let mut shelf = MemoryShelf::new(alloc);
    let unread = Status::ReadFault;
    expect_end(
        &rt,
        alloc,
        VERIFY,
        &mut shelf,
        unread,
        ("", "cannot read g\n"),
    )?;
    shelf.add("g", LETTER.as_bytes())?;
    expect_end(
        &rt,
        alloc,
        VERIFY,
        &mut shelf,
        unread,
        ("", "cannot read i\n"),
    )?;
    shelf.add("i", b"\xff")?;
    let refused = ("", "input: not UTF-8 at byte 0\n");
    expect_end(&rt, alloc, VERIFY, &mut shelf, Status::Input, refused)?;
    shelf.add("i", b"a")?;
    expect_end(
        &rt,
        alloc,
        VERIFY,
        &mut shelf,
        unread,
        ("", "cannot read f\n"),
    )?;
    shelf.fail(11)?;
    shelf.add("f", LETTER_FOREST.as_bytes())?;
    expect_end(
        &rt,
        alloc,
        VERIFY,
        &mut shelf,
        unread,
        ("", "cannot read f\n"),
    )?;
    assert_eq!(rt; shelf.count(), 1);
    Ok(())
}

/// Asserts what is told of the declarations of a grammar.
fn expect_facts(rt: &impl Abort, alloc: Global, grammar: &str, facts: &str) -> Result<(), Fail> {
    let mut shelf = shelf_of(alloc, grammar.as_bytes(), b"")?;
    let analyse = &["analyse", "g"];
    expect_end(rt, alloc, analyse, &mut shelf, Status::Done, (facts, ""))
}

#[test]
fn tells_facts(rt: HostRuntime) -> Result<(), Fail> {
    let alloc = rt.alloc();
    expect_facts(
        &rt,
        alloc,
        "start S; syntax S = S S | \"a\" | ;",
        "S nullable left-recursive cyclic\n",
    )?;
    expect_facts(
        &rt,
        alloc,
        "start S; syntax S = B S \"x\" | \"y\"; syntax B = ;",
        "S left-recursive\nB nullable\n",
    )?;
    expect_facts(
        &rt,
        alloc,
        "start S; syntax S = \"a\"; syntax T = T \"b\";",
        "S\nT unproductive unreachable left-recursive\n",
    )
}

#[test]
fn tells_no_facts(rt: HostRuntime) -> Result<(), Fail> {
    let alloc = rt.alloc();
    let analyse = &["analyse", "g"];
    let mut shelf = MemoryShelf::new(alloc);
    expect_end(
        &rt,
        alloc,
        analyse,
        &mut shelf,
        Status::ReadFault,
        ("", "cannot read g\n"),
    )?;
    shelf.add("g", b"start S;")?;
    let refused = (
        "",
        "grammar: unknown name at declaration 0, alternative 0, symbol 0\n",
    );
    expect_end(&rt, alloc, analyse, &mut shelf, Status::Grammar, refused)
}
