//! Lists of jobs: the command `batch` over a shelf in memory. What comes of more lists is tried on
//! the program.
use crate::checks::expect_end;
use crate::top_call::{LETTER, expect_unread};
use ig_command_endings::Status;
use ig_outside::MemoryShelf;
use std::alloc::{AllocError, Global};
use std::process::Abort;
use std::test::Fail;

const BATCH: &[&str] = &["batch", "l"];

/// The files of jobs: a grammar, the same under another name, one that is refused, and two inputs.
const FILES: &[(&str, &str)] = &[
    ("g", LETTER),
    ("same", LETTER),
    ("twice", "start S; syntax S = \"a\"; syntax S = \"b\";"),
    ("i", "a"),
    ("j", ""),
];

/// A shelf that holds these files, an input that is no text under `bytes`, and a list under `l`.
fn shelf_with(alloc: Global, list: &[u8]) -> Result<MemoryShelf, Fail> {
    let mut shelf = MemoryShelf::new(alloc);
    for (name, text) in FILES {
        shelf.add(name, text.as_bytes())?;
    }
    shelf.add("bytes", b"\xff")?;
    shelf.add("l", list)?;
    Ok(shelf)
}

/// Asserts how the command ends on that list: its status, and what out and notes get.
fn expect_list(
    rt: &impl Abort,
    alloc: Global,
    words: &[&str],
    list: &[u8],
    status: Status,
    said: (&str, &str),
) -> Result<(), Fail> {
    let mut shelf = shelf_with(alloc, list)?;
    expect_end(rt, alloc, words, &mut shelf, status, said)
}

/// Words that ask for the same, whatever turns the jobs take.
const TURNS: &[&[&str]] = &[
    BATCH,
    &["batch", "l", "--turn", "1"],
    &["batch", "--turn=7", "l", "--order", "lifo"],
    &["batch", "l", "--budget", "4", "--order=lowest"],
];

const TWO_JOBS: &str =
    "job 1 status 0 out 218 notes 0\nforest 2 4\nnode 0 $root () 0..1\nalt $root 2\nnode 1 S () \
        0..1\nalt S.1 3\nitem 0 $root () 1 0 [] 0..0\nbegin\nitem 1 S () 1 0 [] 0..0\nbegin\nitem \
        2 $root () 1 1 [] 0..1\ntake 0 node 1\nitem 3 S () 1 1 [] 0..1\ntake 1 leaf 0..1\njob 2 \
        status 1 out 0 notes 43\nno parse at line 1, column 1, expected \"a\"\n";

#[test]
fn jobs_end_as_alone(rt: HostRuntime) -> Result<(), Fail> {
    let alloc = rt.alloc();
    let said = (TWO_JOBS, "");
    for words in TURNS {
        expect_list(&rt, alloc, words, b"g i\nsame j\n", Status::Done, said)?;
    }
    Ok(())
}

const REFUSED_JOBS: &str = "job 1 status 3 out 0 notes 66\ngrammar: duplicate name at declaration \
    2, alternative 0, symbol 0\njob 2 status 4 out 0 notes 27\ninput: not UTF-8 at byte 0\njob 3 \
    status 5 out 0 notes 26\nbudget: more than 3 items\njob 4 status 1 out 0 notes 43\nno parse at \
    line 1, column 1, expected \"a\"\n";

/// The input of the first job isn't there, and nobody asks for it. The last one has two items.
#[test]
fn refusals_are_answers_of_jobs(rt: HostRuntime) -> Result<(), Fail> {
    expect_list(
        &rt,
        rt.alloc(),
        &["batch", "l", "--budget=3", "--turn=2"],
        b"twice nowhere\ng bytes\ng i\nsame j\n",
        Status::Done,
        (REFUSED_JOBS, ""),
    )
}

/// Texts that are no list, each with the note of its first wrong line.
const NO_LISTS: &[(&str, &str)] = &[
    ("", "batch list: line 1\n"),
    ("\n", "batch list: line 1\n"),
    ("g i", "batch list: line 1\n"),
    ("g  i\n", "batch list: line 1\n"),
    ("-g i\n", "batch list: line 1\n"),
    ("g i\n\n", "batch list: line 2\n"),
    ("g i\ng i j\n", "batch list: line 2\n"),
    ("nowhere i\ng\n", "batch list: line 2\n"),
];

#[test]
fn texts_that_are_no_list(rt: HostRuntime) -> Result<(), Fail> {
    let alloc = rt.alloc();
    for (list, note) in NO_LISTS {
        let list = list.as_bytes();
        expect_list(&rt, alloc, BATCH, list, Status::BadList, ("", *note))?;
    }
    let wrong = ("", "batch list: line 2\n");
    expect_list(&rt, alloc, BATCH, b"g i\n\xff i\n", Status::BadList, wrong)
}

/// A list of so many lines of four bytes.
fn lines(alloc: Global, count: u32) -> Result<Vec<u8>, AllocError> {
    let mut list = Vec::new(alloc);
    for _ in 0..count {
        list.extend_from_slice(b"g j\n")?;
    }
    Ok(list)
}

/// How many lines a list has, where these are too many, and its note.
const TOO_LONG: &[(u32, &str)] = &[
    (65, "batch list: line 65\n"),
    (16_384, "batch list: line 65\n"),
    (16_385, "batch list: too long\n"),
];

#[test]
fn lists_that_are_too_long(rt: HostRuntime) -> Result<(), Fail> {
    let alloc = rt.alloc();
    for (count, note) in TOO_LONG {
        let list = lines(alloc, *count)?;
        let list = list.as_slice();
        expect_list(&rt, alloc, BATCH, list, Status::BadList, ("", *note))?;
    }
    Ok(())
}

/// Lists of which a file isn't there, each with its note.
const MISSING: &[(&str, &str)] = &[
    ("g i\nnowhere i\n", "cannot read nowhere\n"),
    ("g nowhere\nnone i\n", "cannot read nowhere\n"),
    ("twice nowhere\nsame none\n", "cannot read none\n"),
];

#[test]
fn files_of_jobs_that_are_missing(rt: HostRuntime) -> Result<(), Fail> {
    let alloc = rt.alloc();
    let mut shelf = MemoryShelf::new(alloc);
    expect_unread(&rt, alloc, BATCH, &mut shelf, "cannot read l\n", 0)?;
    for (list, note) in MISSING {
        let mut shelf = shelf_with(alloc, list.as_bytes())?;
        expect_unread(&rt, alloc, BATCH, &mut shelf, note, 0)?;
    }
    Ok(())
}

/// Lists, each with the note of the third fetch, which fails. The first one is that of the list.
const THIRD: &[(&str, &str)] = &[
    ("g i\ng j\n", "cannot read i\n"),
    ("twice i\ng j\n", "cannot read g\n"),
];

#[test]
fn files_are_fetched_in_order(rt: HostRuntime) -> Result<(), Fail> {
    let alloc = rt.alloc();
    for (list, note) in THIRD {
        let mut shelf = shelf_with(alloc, list.as_bytes())?;
        shelf.fail(3)?;
        expect_unread(&rt, alloc, BATCH, &mut shelf, note, 1)?;
    }
    Ok(())
}
