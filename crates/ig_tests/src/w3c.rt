//! The notation of the XML recommendation: texts, what is printed of them, and bytes of faults,
//! from what the notation says.
ghost use Rattle.std.specs.Prelude.{IfOk};
ghost use Rattle.ig_w3c_syntax.specs.Notation.{HasReading};

use ig_grammar::Grammar;
use ig_notation::ReadFault;
use ig_w3c::{read_grammars_have_readings, read_w3c, show_w3c};
use std::alloc::Global;
use std::test::Fail;

/// Texts, each with its printed form.
const TEXTS: &[(&str, &str)] = &[
    (
        "S ::= #x20 | [a-c]+ 'x' - \"ax\"",
        "S ::= #x20 | [#x61-#x63]+ \"x\" - \"ax\"\n",
    ),
    (
        "A ::= B? (C | 'x' 'y')*  /* and */ B ::= \"it's\" C::='\"'",
        "A ::= B? (C | \"x\" \"y\")*\nB ::= \"it's\"\nC ::= '\"'\n",
    ),
    (
        "P ::= [-'()+,./:=?;!*#@$_%] [^#x9-] [^^x]",
        "P ::= [#x21#x23-#x25#x27-#x2F#x3A-#x3B#x3D#x3F-#x40#x5F] [^#x9#x2D] [^#x5E#x78]\n",
    ),
];

/// Texts that aren't of the notation, each with the byte of its fault.
const FAULTS: &[(&str, u32)] = &[
    ("S ::=", 5),
    ("", 0),
    ("S = 'a'", 2),
    ("A ::= left", 6),
    ("S ::= [c-a]", 6),
    ("S ::= 'a' - b", 12),
    ("S ::= 'a' /* b", 10),
    ("S ::= ''", 6),
    ("S ::= #xD800", 6),
    ("S ::= ('a'", 10),
];

/// The grammar that the text reads as.
fn grammar_of(alloc: Global, source: &str) -> Result<Grammar, ReadFault>
    ensures { IfOk result HasReading }
{
    read_grammars_have_readings();
    read_w3c(alloc, source)
}

/// The printed form of the grammar of the text.
fn shown(alloc: Global, source: &str) -> Result<Vec<u8>, ReadFault> {
    let grammar = grammar_of(alloc, source)?;
    let shown = show_w3c(alloc, &grammar);
    drop(grammar);
    Ok(shown?)
}

/// Whether the text is refused at that byte.
fn is_refused_at(alloc: Global, source: &str, byte: u32) -> bool {
    match read_w3c(alloc, source) {
        Err(ReadFault::Syntax { at }) => at == byte,
        Err(_) => false,
        Ok(_) => false,
    }
}

#[test]
fn reads_and_shows(rt: HostRuntime) -> Result<(), Fail> {
    for (source, printed) in TEXTS {
        let shown = shown(rt.alloc(), source)?;
        assert_eq!(rt; shown.as_slice(), printed.as_bytes());
    }
    Ok(())
}

#[test]
fn tells_the_byte_of_a_fault(rt: HostRuntime) -> Result<(), Fail> {
    for (source, byte) in FAULTS {
        assert!(rt; is_refused_at(rt.alloc(), source, *byte));
    }
    Ok(())
}
