//! Each call that takes memory, once. Tables of texts stand in the tests of the program.
use ig_notation_syntax::{class_of, literal_text, tokenize};
use std::test::Fail;

#[test]
fn splits_a_text(rt: HostRuntime) -> Result<(), Fail> {
    let tokens = tokenize(rt.alloc(), "S = a( // é\n12")?;
    let ends: [u32; 4] = [0, 2, 4, 13];
    for (placed, at) in tokens.iter().zip(ends) {
        assert_eq!(rt; placed.at, at);
    }
    Ok(())
}

#[test]
fn reads_a_literal(rt: HostRuntime) -> Result<(), Fail> {
    let word = literal_text(rt.alloc(), "\\\"a\\n]")?;
    assert_eq!(rt; word.as_str(), "\"a\n]");
    Ok(())
}

#[test]
fn reads_a_class(rt: HostRuntime) -> Result<(), Fail> {
    let class = class_of(rt.alloc(), "^x-z\\-a-cb")?;
    assert!(rt; !class.has('b'));
    assert!(rt; !class.has('-'));
    assert!(rt; class.has('d'));
    Ok(())
}
