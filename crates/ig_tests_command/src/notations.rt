//! The option `--notation` of the top call, over a shelf in memory.

use crate::top_call::end_of;
use ig_command_endings::Status;
use std::alloc::Global;
use std::process::Abort;
use std::test::Fail;

/// Spaces, or letters, in the notation of the XML recommendation.
const LETTERS: &str = "S ::= #x20 | [a-c]+ 'x' - \"ax\"";

/// Names but the keyword.
const NAME: &str = "Name ::= [a-z]+ - \"if\"";

/// The same in the own notation.
const OWN_NAME: &str = "start Name; lexical Name = [a-z]+ \\ \"if\";";

/// The one tree of names of three letters.
const IFF: &str = "only ($root 0..3 (Name.1 0..3 ($more 0..3 ($more 0..2 ($one 0..1 0..1) 1..2) \
        2..3)))\n";

/// Asserts how the command of these words ends on a grammar and an input.
fn expect(
    rt: &impl Abort,
    alloc: Global,
    words: &[&str],
    files: (&str, &str),
    status: Status,
    said: (&str, &str),
) -> Result<(), Fail> {
    let ended = end_of(alloc, words, files.0.as_bytes(), files.1.as_bytes())?;
    assert_eq!(rt; ended.status, status);
    assert_eq!(rt; ended.out.bytes(), said.0.as_bytes());
    assert_eq!(rt; ended.notes.bytes(), said.1.as_bytes());
    Ok(())
}

#[test]
fn shows_grammars_in_their_notation(rt: HostRuntime) -> Result<(), Fail> {
    let alloc = rt.alloc();
    let shown = ("S ::= #x20 | [#x61-#x63]+ \"x\" - \"ax\"\n", "");
    let words = &["show", "--notation", "w3c", "g"];
    expect(&rt, alloc, words, (LETTERS, ""), Status::Done, shown)?;
    let words = &["check", "g", "--notation=w3c"];
    expect(&rt, alloc, words, (LETTERS, ""), Status::Done, ("ok\n", ""))?;
    let words = &["check", "g", "--notation=own"];
    expect(
        &rt,
        alloc,
        words,
        (OWN_NAME, ""),
        Status::Done,
        ("ok\n", ""),
    )?;
    let words = &["check", "g"];
    expect(
        &rt,
        alloc,
        words,
        (OWN_NAME, ""),
        Status::Done,
        ("ok\n", ""),
    )
}

#[test]
fn refuses_texts_of_the_other_notation(rt: HostRuntime) -> Result<(), Fail> {
    let alloc = rt.alloc();
    let words = &["check", "--notation", "w3c", "g"];
    let unended = ("", "grammar: syntax at byte 5\n");
    expect(&rt, alloc, words, ("S ::=", ""), Status::Grammar, unended)?;
    let other = ("", "grammar: syntax at byte 0\n");
    expect(&rt, alloc, words, (OWN_NAME, ""), Status::Grammar, other)?;
    let words = &["check", "g"];
    expect(&rt, alloc, words, (NAME, ""), Status::Grammar, other)
}

#[test]
fn runs_grammars_of_the_notation(rt: HostRuntime) -> Result<(), Fail> {
    let alloc = rt.alloc();
    let words = &["trees", "g", "i", "--notation", "w3c"];
    expect(&rt, alloc, words, (NAME, "iff"), Status::Done, (IFF, ""))?;
    let keyword = ("", "no parse at line 1, column 3, expected [a-z]\n");
    expect(&rt, alloc, words, (NAME, "if"), Status::NoParse, keyword)?;
    let words = &["trees", "g", "i"];
    expect(
        &rt,
        alloc,
        words,
        (OWN_NAME, "iff"),
        Status::Done,
        (IFF, ""),
    )
}

#[test]
fn other_words_are_no_command(rt: HostRuntime) -> Result<(), Fail> {
    let alloc = rt.alloc();
    let rows: &[&[&str]] = &[
        &["check", "g", "--notation", "xml"],
        &["check", "g", "--notation"],
        &["check", "g", "--notation=own", "--notation=own"],
        &["load", "1", "1", "--notation=own"],
    ];
    for words in rows {
        let ended = end_of(alloc, words, OWN_NAME.as_bytes(), b"")?;
        assert_eq!(&rt; ended.status, Status::Usage);
    }
    Ok(())
}
