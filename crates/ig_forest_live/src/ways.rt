//! The ways of a run, grouped by the items to which they lead.
ghost use Rattle.std.specs.Prelude.{◌≡◌, ◌<◌, ◌↔◌, Some, IfOk, Contains, length, slice_get};
ghost use Rattle.ig_item.specs.Recorded.{IsRecorded};
ghost use Rattle.ig_forest_live.specs.Links.{IsSameRun};

use crate::grouped::{Grouped, Numbered};
use ig_item::{FurtherEnd, FurtherWay, Recorded, Way};
use std::alloc::{AllocError, Global};
use std::marker::Model;

impl Numbered for FurtherWay {
    ghost number_of = { λ w. w.item };

    fn number(&self) -> u32 {
        self.item
    }
}

impl Numbered for FurtherEnd {
    ghost number_of = { λ e. e.first };

    fn number(&self) -> u32 {
        self.first
    }
}

/// What was recorded, with the further ways grouped by item, and the further complete items by the
/// first one of their node.
#[derive(Drop)]
pub struct Links<'a> {
    recorded: &'a Recorded<'a>,
    further: Grouped<FurtherWay>,
    ends: Grouped<FurtherEnd>,
}

impl<'a> Model for Links<'a> {
    ghost use Rattle.ig_item.specs.Recorded.{Recording};
    ghost use Rattle.ig_forest_live.specs.Links.{AreLinks, regrouped};

    ghost Value = { Recording };

    ghost use Rattle.ig_item.specs.CodingRecorded.{recording_code};
    ghost use Rattle.ig_item.specs.contracts.core_grammar.Core as grammar;
    ghost use Rattle.ig_item.specs.contracts.items.Items as tables;
    ghost use Rattle.ig_item.specs.contracts.ways.Ways as lists;

    ghost coded = { recording_code grammar.the_row.coded tables.the_row.coded lists.the_row.coded };

    ghost view = { λ l. regrouped l.recorded.now l.further l.ends };

    ghost invariant = { λ l. AreLinks l.recorded.now l.further l.ends };
}

impl<'a> Links<'a> {
    /// Of what was recorded. Refused for want of memory, and where there are 4,294,967,296 further
    /// ways or further complete items.
    pub fn of(alloc: Global, recorded: &'a Recorded<'a>) -> Result<Links<'a>, AllocError>
        ensures same { IfOk result (IsSameRun recorded.now) }
        ensures recorded { IfOk result (λ links. IsRecorded links) }
    {
        let count = recorded.items().len() as usize;
        let ways = recorded.ways();
        let further = Grouped::of(alloc, ways.further(), count)?;
        let ends = Grouped::of(alloc, ways.ends(), count)?;
        Ok(Links {
            recorded,
            further,
            ends,
        })
    }

    /// The number of items. Takes no memory.
    pub fn len(&self) -> usize
        ensures number { result ≡ length self.now.ways.firsts }
        ensures recorded { IsRecorded self.now }
    {
        self.recorded.ways().firsts().len()
    }

    /// The way by which the item of that number, from 0, was found. Takes no memory.
    pub fn first(&self, number: u32) -> Way
        requires { number < length self.now.ways.firsts }
        ensures way { slice_get self.now.ways.firsts number ≡ Some result }
        ensures recorded { IsRecorded self.now }
    {
        self.recorded.ways().firsts()[number as usize]
    }

    /// The further ways to the item of that number, from 0, in no order that is told; none where
    /// the number isn't there. Takes no memory.
    pub fn further(&self, number: u32) -> &[FurtherWay]
        ensures { (way : FurtherWay) → Contains result.now way ↔
            (Contains self.now.ways.further way × (way.item ≡ number)) }
    {
        self.further.group(number)
    }

    /// The number of all further ways. Takes no memory.
    pub fn all_further(&self) -> usize
        ensures { result ≡ length self.now.ways.further }
    {
        self.further.members().len()
    }

    /// The further complete items of the node of which that one is the first; none where it is the
    /// first of no node. Takes no memory.
    pub fn ends(&self, first: u32) -> &[FurtherEnd]
        ensures ends { (end : FurtherEnd) → Contains result.now end ↔
            (Contains self.now.ways.ends end × (end.first ≡ first)) }
        ensures recorded { IsRecorded self.now }
    {
        self.ends.group(first)
    }
}
