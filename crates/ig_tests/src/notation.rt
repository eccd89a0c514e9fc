//! Reading, once. Tables of texts that are read and that aren't are tried on the program.
use ig_notation::read;
use ig_text::Word;
use std::test::Fail;

#[test]
fn reads(rt: HostRuntime) -> Result<(), Fail> {
    let grammar = read(rt.alloc(), "start S; syntax S = A; lexical A = [a];")?;
    assert_eq!(rt; grammar.start.as_ref().map(Word::as_str), Some("S"));
    assert_eq!(rt; grammar.decls.as_slice().len(), 2);
    Ok(())
}
