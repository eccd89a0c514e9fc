//! Ways: how the items of a run came about.
ghost use Rattle.std.specs.Prelude.{◌≡◌, [], ◌∷◌, ◌++◌, OnOk, OnErr};

use std::alloc::{AllocError, Global};
use std::marker::Model;

/// How an item comes about. Items are named by their numbers; `prev` is the previous item of the
/// alternative, whose next step was passed.
#[derive(Clone, Copy, PartialEq, Eq, Debug)]
pub enum Way {
    /// The dot stands before the first step.
    Begin,
    /// The step is a `Test` or a `Bind`.
    Pass { prev: u32 },
    /// The step is a `Term`.
    Leaf { prev: u32 },
    /// The step is a `Call`. The callee came to this position, and `done` is the first of its items
    /// that was complete there.
    Node { prev: u32, done: u32 },
}

/// A further way to an item that came about before. Only behind a call there is one; it is a
/// [`Way::Node`] with this `prev` and `done`.
#[derive(Clone, Copy, PartialEq, Eq, Debug)]
pub struct FurtherWay {
    pub item: u32,
    pub prev: u32,
    pub done: u32,
}

/// A further complete item of an instance at a position, and the first one.
#[derive(Clone, Copy, PartialEq, Eq, PartialOrd, Ord, Debug)]
pub struct FurtherEnd {
    pub first: u32,
    pub item: u32,
}

/// How the items of a run came about. Items are numbered from 0.
#[derive(Drop)]
pub struct Ways {
    firsts: Vec<Way>,
    further: Vec<FurtherWay>,
    ends: Vec<FurtherEnd>,
}

impl Model for Ways {
    ghost use Rattle.ig_item.specs.Ways.{WayLists};

    ghost Value = { WayLists };

    ghost view = { λ w. record {
      firsts = w.firsts.items;
      further = w.further.items;
      ends = w.ends.items;
    } };
}

impl Ways {
    /// Of no items. Takes no memory.
    pub fn new(alloc: Global) -> Ways
        ensures { result ≡ record { firsts = []; further = []; ends = [] } }
    {
        Ways {
            firsts: Vec::new(alloc),
            further: Vec::new(alloc),
            ends: Vec::new(alloc),
        }
    }

    /// Adds the way in which the next item was found. Refused for want of memory, it leaves the
    /// ways as before.
    pub fn push(&mut self, way: Way) -> Result<(), AllocError>
        ensures ok { OnOk result
            (self.new ≡ record self.old { firsts = self.old.firsts ++ way ∷ [] }) }
        ensures err { OnErr result (self.new ≡ self.old) }
    {
        self.firsts.push(way)?;
        Ok(())
    }

    /// Adds a further way to an item. Refused for want of memory, it leaves the ways as before.
    pub fn push_further(&mut self, way: FurtherWay) -> Result<(), AllocError>
        ensures ok { OnOk result
            (self.new ≡ record self.old { further = self.old.further ++ way ∷ [] }) }
        ensures err { OnErr result (self.new ≡ self.old) }
    {
        self.further.push(way)?;
        Ok(())
    }

    /// Adds a further complete item. Refused for want of memory, it leaves the ways as before.
    pub fn push_end(&mut self, end: FurtherEnd) -> Result<(), AllocError>
        ensures ok { OnOk result (self.new ≡ record self.old { ends = self.old.ends ++ end ∷ [] }) }
        ensures err { OnErr result (self.new ≡ self.old) }
    {
        self.ends.push(end)?;
        Ok(())
    }

    /// Of each item the way in which it was found. Takes no memory.
    pub fn firsts(&self) -> &[Way]
        ensures { result.now ≡ self.now.firsts }
    {
        self.firsts.as_slice()
    }

    /// The further ways, in the order in which they were found. Takes no memory.
    pub fn further(&self) -> &[FurtherWay]
        ensures { result.now ≡ self.now.further }
    {
        self.further.as_slice()
    }

    /// The further complete items, in the order in which they were found. Takes no memory.
    pub fn ends(&self) -> &[FurtherEnd]
        ensures { result.now ≡ self.now.ends }
    {
        self.ends.as_slice()
    }
}
