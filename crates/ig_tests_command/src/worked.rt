//! Worked rows over a shelf and sinks in memory: each command, most options, and each status that
//! a sound shelf and sound sinks can meet. The same rows are tried on the program, with more.

use crate::top_call::{LETTER, LETTER_FOREST, end_of};
use ig_command_endings::Status;
use std::alloc::Global;
use std::process::Abort;
use std::test::Fail;

/// What out has to get.
#[derive(Clone, Copy)]
enum Out {
    /// Nothing.
    Nothing,
    /// This text.
    Text(&'static str),
    /// A text that begins so.
    Begins(&'static str),
    /// The line of an only tree, and no other.
    OneTree,
}

/// What comes of words: the status, what out gets, and what notes gets.
#[derive(Clone, Copy)]
struct Row {
    words: &'static [&'static str],
    input: &'static [u8],
    status: Status,
    out: Out,
    note: &'static str,
}

/// A row that is answered.
const fn answered(words: &'static [&'static str], input: &'static [u8], out: Out) -> Row {
    Row {
        words,
        input,
        status: Status::Done,
        out,
        note: "",
    }
}

/// A row that is refused.
const fn refused(
    words: &'static [&'static str],
    input: &'static [u8],
    status: Status,
    note: &'static str,
) -> Row {
    Row {
        words,
        input,
        status,
        out: Out::Nothing,
        note,
    }
}

/// Whether out got what it has to get.
fn is_got(got: &[u8], wanted: Out) -> bool {
    match wanted {
        Out::Nothing => got.is_empty(),
        Out::Text(text) => got == text.as_bytes(),
        Out::Begins(text) => got.starts_with(text.as_bytes()),
        Out::OneTree => got.starts_with(b"only (") && is_a_line(got),
    }
}

/// Whether the bytes have a line feed at their end, and no other.
fn is_a_line(bytes: &[u8]) -> bool {
    bytes.iter().position(|byte| *byte == b'\n') == bytes.len().checked_sub(1)
}

/// Asserts that each row over that grammar ends as it says.
fn expect_rows(rt: &impl Abort, alloc: Global, grammar: &str, rows: &[Row]) -> Result<(), Fail> {
    for row in rows {
        let ended = end_of(alloc, row.words, grammar.as_bytes(), row.input)?;
        assert_eq!(rt; ended.status, row.status);
        assert!(rt; is_got(ended.out.bytes(), row.out));
        assert_eq!(rt; ended.notes.bytes(), row.note.as_bytes());
    }
    Ok(())
}

const FOREST: &[&str] = &["forest", "g", "i"];

const TREES: &[&str] = &["trees", "g", "i"];

const CHECK: &[&str] = &["check", "g"];

#[test]
fn letters(rt: HostRuntime) -> Result<(), Fail> {
    let first = "no parse at line 1, column 1, expected \"a\"\n";
    let rows = [
        refused(FOREST, b"", Status::NoParse, first),
        answered(FOREST, b"a", Out::Text(LETTER_FOREST)),
        answered(
            TREES,
            b"a",
            Out::Text("only ($root 0..1 (S.1 0..1 0..1))\n"),
        ),
        answered(
            &["forest", "g", "i", "--budget", "4"],
            b"a",
            Out::Text(LETTER_FOREST),
        ),
        refused(
            &["forest", "g", "i", "--budget", "3"],
            b"a",
            Status::Budget,
            "budget: more than 3 items\n",
        ),
        refused(
            FOREST,
            b"\xff",
            Status::Input,
            "input: not UTF-8 at byte 0\n",
        ),
        answered(
            &["core", "g"],
            b"",
            Out::Text("nt 0 $root ()\nalt $root . call 1 ()\nnt 1 S ()\nalt S.1 . \"a\"\n"),
        ),
        answered(CHECK, b"", Out::Text("ok\n")),
        answered(
            &["query", "g", "i", "--what", "report"],
            b"a",
            Out::Text("furthest at line 1, column 2, expected end of input\n"),
        ),
        answered(
            &["load", "1", "7"],
            b"",
            Out::Text("items 64 nodes 2 ambiguous no cyclic no\n"),
        ),
    ];
    expect_rows(&rt, rt.alloc(), LETTER, &rows)
}

#[test]
fn cycles(rt: HostRuntime) -> Result<(), Fail> {
    let three = "0.0.1 ($root 0..1 (S.1 0..1 (S.1 0..1 (S.2 0..1 0..1))))\n\
        0.1 ($root 0..1 (S.1 0..1 (S.2 0..1 0..1)))\n1 ($root 0..1 (S.2 0..1 0..1))\n";
    let rows = [
        refused(
            TREES,
            b"a",
            Status::DepthNeeded,
            "depth needed: the forest is cyclic\n",
        ),
        answered(&["trees", "g", "i", "--depth", "4"], b"a", Out::Text(three)),
        answered(FOREST, b"a", Out::Begins("forest 2 6\n")),
        answered(
            &["query", "g", "i", "--what", "cyclic"],
            b"a",
            Out::Text("cyclic yes\n"),
        ),
        refused(
            &["trees", "g", "i", "--depth", "4", "--after", "0.0.0.1"],
            b"a",
            Status::BadCursor,
            "no such cursor\n",
        ),
    ];
    expect_rows(&rt, rt.alloc(), "start S; syntax S = S | \"a\";", &rows)
}

const PAIRS: &str = "start S; syntax S = S S | \"a\";";

/// The five trees of four letters, the first one first.
const FIVE: &str = "0.0 ($root 0..4 (S.1 0..4 (S.2 0..1 0..1) (S.1 1..4 (S.2 1..2 1..2) (S.1 2..4 \
    (S.2 2..3 2..3) (S.2 3..4 3..4)))))\n0.1 ($root 0..4 (S.1 0..4 (S.2 0..1 0..1) (S.1 1..4 (S.1 \
    1..3 (S.2 1..2 1..2) (S.2 2..3 2..3)) (S.2 3..4 3..4))))\n1 ($root 0..4 (S.1 0..4 (S.1 0..2 \
    (S.2 0..1 0..1) (S.2 1..2 1..2)) (S.1 2..4 (S.2 2..3 2..3) (S.2 3..4 3..4))))\n2.0 ($root 0..4 \
    (S.1 0..4 (S.1 0..3 (S.2 0..1 0..1) (S.1 1..3 (S.2 1..2 1..2) (S.2 2..3 2..3))) (S.2 3..4 \
    3..4)))\n2.1 ($root 0..4 (S.1 0..4 (S.1 0..3 (S.1 0..2 (S.2 0..1 0..1) (S.2 1..2 1..2)) (S.2 \
    2..3 2..3)) (S.2 3..4 3..4)))\n";

/// The last of them.
const FIFTH: &str = "2.1 ($root 0..4 (S.1 0..4 (S.1 0..3 (S.1 0..2 (S.2 0..1 0..1) (S.2 1..2 \
    1..2)) (S.2 2..3 2..3)) (S.2 3..4 3..4)))\n";

#[test]
fn pairs(rt: HostRuntime) -> Result<(), Fail> {
    let none = "no such cursor\n";
    let spans = "ambiguous yes\nS () 0..3\nS () 0..4\nS () 1..4\n";
    let rows = [
        answered(TREES, b"aaaa", Out::Text(FIVE)),
        answered(FOREST, b"aaaa", Out::Begins("forest 11 25\n")),
        answered(
            &["forest", "g", "i", "--order", "lifo"],
            b"aaaa",
            Out::Begins("forest 11 25\n"),
        ),
        answered(
            &["trees", "g", "i", "--order=lowest"],
            b"aaaa",
            Out::Text(FIVE),
        ),
        answered(
            &["query", "g", "i", "--order", "plain"],
            b"aaaa",
            Out::Text(spans),
        ),
        answered(
            &["trees", "g", "i", "--count", "2", "--after", "2.0"],
            b"aaaa",
            Out::Text(FIFTH),
        ),
        answered(
            &["trees", "g", "i", "--after", "2.1"],
            b"aaaa",
            Out::Nothing,
        ),
        refused(
            &["trees", "g", "i", "--after", "9"],
            b"aaaa",
            Status::BadCursor,
            none,
        ),
        refused(
            &["trees", "g", "i", "--after", "x"],
            b"aaaa",
            Status::BadCursor,
            none,
        ),
        answered(&["query", "g", "i"], b"aaaa", Out::Text(spans)),
    ];
    expect_rows(&rt, rt.alloc(), PAIRS, &rows)
}

#[test]
fn nothing_in_nothing(rt: HostRuntime) -> Result<(), Fail> {
    let two = "0.1.1 ($root 0..0 (S.1 0..0 (S.3 0..0) (S.3 0..0)))\n1 ($root 0..0 (S.3 0..0))\n";
    let rows = [
        answered(
            &["trees", "g", "i", "--depth", "2"],
            b"",
            Out::Text("1 ($root 0..0 (S.3 0..0))\n"),
        ),
        answered(&["trees", "g", "i", "--depth", "3"], b"", Out::Text(two)),
        answered(&["trees", "g", "i", "--depth", "0"], b"", Out::Nothing),
    ];
    expect_rows(
        &rt,
        rt.alloc(),
        "start S; syntax S = S S | \"a\" | ;",
        &rows,
    )
}

#[test]
fn levels(rt: HostRuntime) -> Result<(), Fail> {
    let alloc = rt.alloc();
    let left = "only ($root 0..5 (E.4 0..5 (E.4 0..3 (E.1 0..1 0..1) 1..2 (E.1 2..3 2..3)) 3..4 \
        (E.1 4..5 4..5)))\n";
    let mixed = "only ($root 0..5 (E.3 0..5 (E.1 0..1 0..1) 1..2 (E.2 2..5 (E.1 2..3 2..3) 3..4 \
        (E.1 4..5 4..5))))\n";
    let cut = "no parse at line 1, column 3, expected [0-9]\n";
    let sums = "start E; syntax E = [0-9] > left E \"*\" E > left E \"+\" E | E \"-\" E;";
    let rows = [
        answered(TREES, b"1-2-3", Out::Text(left)),
        answered(TREES, b"1+2*3", Out::Text(mixed)),
        refused(TREES, b"1-", Status::NoParse, cut),
    ];
    expect_rows(&rt, alloc, sums, &rows)?;
    let unary = "only ($root 0..6 (E.2 0..6 (E.1 0..1 0..1) 1..2 (E.4 2..6 2..3 (E.3 3..6 (E.1 \
        3..4 3..4) 4..5 (E.1 5..6 5..6)))))\n";
    let minus = "start E; syntax E = [a-c] > left E \"*\" E > left E \"+\" E > \"-\" E;";
    expect_rows(
        &rt,
        alloc,
        minus,
        &[answered(TREES, b"a*-b+c", Out::Text(unary))],
    )?;
    let end = "no parse at line 1, column 4, expected end of input\n";
    let rows = [
        refused(TREES, b"a<b<c", Status::NoParse, end),
        answered(TREES, b"a<b", Out::OneTree),
    ];
    expect_rows(
        &rt,
        alloc,
        "start E; syntax E = [a-c] > nonassoc E \"<\" E;",
        &rows,
    )
}

const TAGS: &str = "start El; syntax El = \"<\" n: Name \">\" El* \"</\" m: Name \">\" \
    when (same(n, m)); lexical Name = [a-z]+ !>> [a-z];";

const COUNTED: &str = "start S; syntax S = \"{\" n: Num \"}\" Body(number(n)); \
    lexical Num = [0-9]+ !>> [0-9]; \
    syntax Body(k: int) = when (k == 0) | when (k > 0) [a-z] Body(k - 1);";

#[test]
fn values(rt: HostRuntime) -> Result<(), Fail> {
    let alloc = rt.alloc();
    let tags = "no parse at line 1, column 7, expected \">\", [a-z]\n";
    let rows = [
        answered(TREES, b"<a></a>", Out::OneTree),
        refused(TREES, b"<a></b>", Status::NoParse, tags),
    ];
    expect_rows(&rt, alloc, TAGS, &rows)?;
    let three = "only ($root 0..6 (S.1 0..6 0..1 (Num.1 1..2 ($one 1..2 1..2)) 2..3 (Body.2 3..6 \
        3..4 (Body.2 4..6 4..5 (Body.2 5..6 5..6 (Body.1 6..6))))))\n";
    let two = "no parse at line 1, column 6, expected end of input\n";
    let rows = [
        answered(TREES, b"{3}abc", Out::Text(three)),
        refused(TREES, b"{2}abc", Status::NoParse, two),
    ];
    expect_rows(&rt, alloc, COUNTED, &rows)?;
    let endless = "start S; syntax S = A(0); syntax A(n: int) = A(n + 1) | \"a\";";
    let over = refused(
        &["forest", "g", "i", "--budget", "10"],
        b"a",
        Status::Budget,
        "budget: more than 10 items\n",
    );
    expect_rows(&rt, alloc, endless, &[over])
}

const BLOCKS: &str = "start P; syntax P = align (offside Decl)*; syntax Decl = Id \"=\" Id+; \
    lexical Id = [a-z]+ !>> [a-z]; layout W = [ \\n]* !>> [ \\n];";

const EMPTY_BLOCK: &str = "start S; syntax S = offside B; syntax B = offside Id offside N; \
    syntax N = | \"!\"; lexical Id = [a-z]+ !>> [a-z]; layout W = [ \\n]* !>> [ \\n];";

#[test]
fn indentation(rt: HostRuntime) -> Result<(), Fail> {
    let alloc = rt.alloc();
    let third = "no parse at line 3, column 1, expected [\\n ]\n";
    let rows = [
        answered(TREES, b"a = b\n  c\nd = e\n", Out::OneTree),
        refused(TREES, b"a = b\nc\n", Status::NoParse, third),
    ];
    expect_rows(&rt, alloc, BLOCKS, &rows)?;
    let second = "no parse at line 2, column 1, expected [\\n ], end of input\n";
    let rows = [
        answered(TREES, b"a\n", Out::OneTree),
        answered(TREES, b"a\n !", Out::OneTree),
        refused(TREES, b"a\n!", Status::NoParse, second),
    ];
    expect_rows(&rt, alloc, EMPTY_BLOCK, &rows)?;
    let keyword = "no parse at line 1, column 3, expected [a-z]\n";
    let rows = [
        answered(TREES, b"iff", Out::OneTree),
        refused(TREES, b"if", Status::NoParse, keyword),
    ];
    expect_rows(
        &rt,
        alloc,
        "start S; syntax S = Id; lexical Id = [a-z]+ !>> [a-z] \\ \"if\";",
        &rows,
    )
}

const STATEMENTS: &str = "start P; syntax P = Stmt*; syntax Stmt = Id \"=\" E \";\"; \
    syntax E = Id | Num | \"(\" E \")\" > left E \"*\" E | E \"/\" E > left E \"+\" E | E \"-\" E; \
    lexical Id = $xid_start $xid_continue* !>> $xid_continue; lexical Num = [0-9]+ !>> [0-9]; \
    layout W = ([ \\n\\t] | \"//\" [^\\n]* !>> [^\\n])* !>> [ \\n\\t] !>> \"//\";";

#[test]
fn statements(rt: HostRuntime) -> Result<(), Fail> {
    let input = b"x = 1 + 2 * y; // sum\ny = x;\n";
    let rows = [
        answered(TREES, input, Out::OneTree),
        answered(
            &["query", "g", "i", "--what", "spans", "--name", "E"],
            input,
            Out::Text("4..6\n4..13\n8..10\n8..13\n12..13\n26..27\n"),
        ),
    ];
    expect_rows(&rt, rt.alloc(), STATEMENTS, &rows)
}

/// A grammar text that isn't accepted, and why.
const REFUSED: &[(&str, &str)] = &[
    (
        "start S; syntax S = \"a\"; syntax S = \"b\";",
        "grammar: duplicate name at declaration 2, alternative 0, symbol 0\n",
    ),
    ("start S; syntax S = \"a\"", "grammar: syntax at byte 23\n"),
    (
        "",
        "grammar: no start at declaration 0, alternative 0, symbol 0\n",
    ),
    (
        "start S; syntax S = when ((9223372036854775808 + 1) > 0) \"a\";",
        "grammar: too large: number\n",
    ),
];

#[test]
fn grammars(rt: HostRuntime) -> Result<(), Fail> {
    let alloc = rt.alloc();
    for (grammar, note) in REFUSED {
        expect_rows(
            &rt,
            alloc,
            grammar,
            &[refused(CHECK, b"", Status::Grammar, note)],
        )?;
    }
    let shown = "start S;\nsyntax S = S S | \"a\" | ;\n";
    let row = answered(&["show", "g"], b"", Out::Text(shown));
    expect_rows(&rt, alloc, "start S;syntax S=S S|\"a\"|;", &[row])?;
    let largest = "start S; syntax S = when ((9223372036854775807 + 1) > 0) \"a\";";
    let nothing = "no parse at line 1, column 1, expected nothing\n";
    expect_rows(
        &rt,
        alloc,
        largest,
        &[refused(FOREST, b"a", Status::NoParse, nothing)],
    )
}

/// Words that are no command.
const WRONG_WORDS: &[&[&str]] = &[
    &["forest", "g", "i", "--budget", "5", "--budget=6"],
    &["forest", "g"],
    &["forest", "g", "i", "--budget", "0"],
    &["trees", "g", "i", "--count", "0"],
    &["forest", "g", "i", "--order", "first"],
    &["forest", "g", "i", "--turn", "5"],
    &["batch", "i", "--order", "plain"],
    &["batch", "i", "--turn", "0"],
    &["batch", "i", "--notation", "own"],
    &[],
];

#[test]
fn words(rt: HostRuntime) -> Result<(), Fail> {
    for wrong in WRONG_WORDS {
        let ended = end_of(rt.alloc(), wrong, LETTER.as_bytes(), b"a")?;
        assert_eq!(rt; ended.status, Status::Usage);
        assert_eq!(rt; ended.out.bytes(), b"".as_slice());
        assert!(rt; ended.notes.bytes().starts_with(b"usage: iguana "));
    }
    Ok(())
}
