//! The items and the forest of a core grammar that is made by hand.
use crate::letters::letter_core;
use ig_forest::Forest;
use ig_item::{Core, RunFault};
use ig_parse::forest_of_items;
use ig_plain::saturate;
use ig_show_texts::show_forest;
use ig_text::Text;
use std::alloc::Global;
use std::test::Fail;

/// More items than any text of these tests has.
const BUDGET: u32 = 10;

/// The number of items of the letter's core grammar and the text.
fn items_of(alloc: Global, text: &[u8], budget: u32) -> Result<Result<u32, RunFault>, Fail> {
    let core = letter_core(alloc)?;
    let text = Text::decode(alloc, text)?;
    match saturate(alloc, &core, &text, budget) {
        Ok(items) => Ok(Ok(items.len())),
        Err(fault) => Ok(Err(fault)),
    }
}

#[test]
fn saturates(rt: HostRuntime) -> Result<(), Fail> {
    let alloc = rt.alloc();
    assert_eq!(rt; items_of(alloc, b"a", BUDGET)?, Ok(2));
    assert_eq!(rt; items_of(alloc, b"b", BUDGET)?, Ok(1));
    assert_eq!(rt; items_of(alloc, b"a", 2)?, Ok(2));
    assert_eq!(rt; items_of(alloc, b"a", 1)?, Err(RunFault::Budget));
    Ok(())
}

/// The forest of the core grammar and the text.
fn forest_of(alloc: Global, core: &Core, text: &Text) -> Result<Option<Forest>, Fail> {
    let items = saturate(alloc, core, text, BUDGET)?;
    let forest = forest_of_items(alloc, &items, core, text);
    drop(items);
    Ok(forest?)
}

/// The forest of the letter's core grammar and the text.
fn letter_forest(alloc: Global, text: &[u8]) -> Result<Option<Forest>, Fail> {
    let core = letter_core(alloc)?;
    let text = Text::decode(alloc, text)?;
    forest_of(alloc, &core, &text)
}

const FOREST: &str =
    "forest 1 2\nnode 0 $root () 0..1\nalt $root 1\nitem 0 $root () 1 0 [] 0..0\nbegin\nitem 1 \
        $root () 1 1 [] 0..1\ntake 0 leaf 0..1\n";

#[test]
fn builds_a_forest(rt: HostRuntime) -> Result<(), Fail> {
    let alloc = rt.alloc();
    let Some(forest) = letter_forest(alloc, b"a")? else {
        return Err(Fail::new("no forest"));
    };
    let shown = show_forest(alloc, forest.tables());
    drop(forest);
    assert_eq!(rt; shown?.as_slice(), FOREST.as_bytes());
    Ok(())
}

#[test]
fn builds_no_forest(rt: HostRuntime) -> Result<(), Fail> {
    assert!(rt; letter_forest(rt.alloc(), b"b")?.is_none());
    Ok(())
}
