//! A caller that knows its shelf and its sink by their traits alone, and each call that takes
//! memory once.
ghost use Rattle.std.specs.Prelude.{◌≡◌, ℕ, List, OnOk};
ghost use Rattle.ig_outside.specs.Counts.{Rose, risen};
ghost use Rattle.ig_outside.specs.Told.{bytes};
ghost use Rattle.std.specs.Io.KnownBytes.{Appends};

use ig_outside::{FetchFault, MemoryShelf, MemorySink, Shelf, Sink, SinkFault};
use std::alloc::Global;
use std::test::Fail;

#[derive(Debug, Clone, Copy, PartialEq, Drop)]
enum CopyFault {
    Unread(FetchFault),
    Unwritten,
}

// Copies what the shelf holds under the name to the sink.
fn copy_one<F: Shelf, O: Sink>(
    alloc: Global,
    shelf: &mut F,
    sink: &mut O,
    name: &str,
) -> Result<(), CopyFault>
    ensures told { OnOk result ((xs : List ℕ) → (F.state shelf.old).holds name.now ≡ bytes xs →
        Appends (O.state sink.old).got (O.state sink.new).got xs) }
    ensures read { OnOk result ((F.state shelf.new).faults ≡ (F.state shelf.old).faults) }
    ensures written { OnOk result ((O.state sink.new).faults ≡ (O.state sink.old).faults) }
    ensures unread { result ≡ Err (CopyFault.Unread FetchFault.Failed) →
        Rose (F.state shelf.old).faults (F.state shelf.new).faults }
    ensures unwritten { result ≡ Err CopyFault.Unwritten →
        Rose (O.state sink.old).faults (O.state sink.new).faults }
    ensures counted { (F.state shelf.new).fetches ≡ risen (F.state shelf.old).fetches }
    ensures same { (n : List ℕ) → (F.state shelf.new).holds n ≡ (F.state shelf.old).holds n }
{
    let content = match shelf.fetch(alloc, name, 100) {
        Ok(content) => content,
        Err(fault) => return Err(CopyFault::Unread(fault)),
    };
    match sink.put(content.as_slice()) {
        Ok(()) => Ok(()),
        Err(SinkFault::Failed) => Err(CopyFault::Unwritten),
    }
}

#[test]
fn copies_by_the_traits(rt: HostRuntime) -> Result<(), Fail> {
    let alloc = rt.alloc();
    let mut shelf = MemoryShelf::new(alloc);
    shelf.add("a", b"text")?;
    shelf.fail(2)?;
    let mut sink = MemorySink::new(alloc, 6)?;
    sink.fail(2, 1)?;
    assert_eq!(rt; copy_one(alloc, &mut shelf, &mut sink, "a"), Ok(()));
    assert_eq!(rt;
        copy_one(alloc, &mut shelf, &mut sink, "a"),
        Err(CopyFault::Unread(FetchFault::Failed))
    );
    assert_eq!(rt;
        copy_one(alloc, &mut shelf, &mut sink, "a"),
        Err(CopyFault::Unwritten)
    );
    assert_eq!(rt; sink.bytes(), b"textt".as_slice());
    Ok(())
}
