//! Each call that takes memory once, with ample memory: answers worked out by hand.
ghost use Rattle.std.specs.Prelude.{◌↔◌, IsTrue};
ghost use Rattle.ig_text.specs.Ranges.{NoneFalls};

use ig_text::{Class, Copied, Text, Word, Words};
use std::test::Fail;

fn none_falls(pairs: &[(char, char)]) -> bool
    ensures { IsTrue result ↔ NoneFalls pairs.now }
{
    pairs.iter().all(|pair| pair.0 <= pair.1)
}

#[test]
fn joins_ranges(rt: HostRuntime) -> Result<(), Fail> {
    let pairs = [('x', 'é'), ('c', 'd'), ('a', 'b')];
    assert!(rt; none_falls(&pairs));
    let class = Class::ranges(rt.alloc(), false, &pairs)?.copy(rt.alloc())?;
    assert!(rt; class.has('d') && !class.has('e') && class.has('é'));
    let Class::Ranges { ranges, .. } = class else {
        return Err(Fail::new("no ranges"));
    };
    assert_eq!(rt; ranges.as_slice(), [('a', 'd'), ('x', 'é')].as_slice());
    Ok(())
}

#[test]
fn counts_lines_and_columns(rt: HostRuntime) -> Result<(), Fail> {
    let text = Text::decode(rt.alloc(), "aé\nc".as_bytes())?;
    assert_eq!(rt; text.line(3), Some(2));
    assert_eq!(rt; text.column(2), Some(3));
    Ok(())
}

#[test]
fn tabs_go_on_to_stops(rt: HostRuntime) -> Result<(), Fail> {
    let text = Text::decode(rt.alloc(), "ab\tc\n\té".as_bytes())?;
    assert_eq!(rt; text.column(3), Some(4));
    let text = text.with_tabs(4);
    assert_eq!(rt; text.column(2), Some(3));
    assert_eq!(rt; text.column(3), Some(5));
    assert_eq!(rt; text.column(5), Some(1));
    assert_eq!(rt; text.with_tabs(16).column(7), Some(18));
    Ok(())
}

#[test]
fn copies_words(rt: HostRuntime) -> Result<(), Fail> {
    let mut words = Words::new(rt.alloc());
    words
        .push(Word::new(rt.alloc(), "é7")?)
        .map_err(|refused| refused.1)?;
    let copied = words.copy(rt.alloc())?;
    for word in &copied {
        assert!(rt; *word == Word::new(rt.alloc(), "é7")?);
        assert_eq!(rt; word.len(), 2);
    }
    assert_eq!(rt; copied.len(), 1);
    Ok(())
}
