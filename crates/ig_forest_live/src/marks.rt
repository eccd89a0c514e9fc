//! The items that some tree of the whole text uses, by a work list.
ghost use Rattle.std.specs.Prelude.{◌≡◌, ◌<◌, [], IfOk, OnOk, true, length, slice_get};
ghost use Rattle.ig_item.specs.Items.{Reachable};
ghost use Rattle.ig_item.specs.Tables.{items_of};
ghost use Rattle.ig_item.specs.Ways.{IsFirstEnd};
ghost use Rattle.ig_forest_live.specs.Marks.{is_live};
ghost use Rattle.ig_forest_live.specs.CodeWayMarks.{AreFound, AreWhole, IsAWay, Leads};
ghost use Rattle.ig_forest_live.specs.Marks.{AreMarks};
ghost use Rattle.ig_forest_live.specs.CodeWayMarks.{LeadsFrom, MarksMore, OfNode, ThatItem};
ghost use Rattle.ig_forest_live.specs.Live.{root_key};
ghost use Rattle.ig_forest_live.specs.declared.mark.Mark.TheVariants.{Complete};

use crate::mark::Mark;
use crate::ways::Links;
use ig_item::{FurtherEnd, Way, alternatives_are_one};
use std::alloc::{AllocError, Global};

/// The marks of all items, and the numbers of those that are live, in the order in which they were
/// marked.
#[derive(Drop)]
struct Walk {
    marks: Vec<Mark>,
    found: Vec<u32>,
}

/// The marks of all items, by their numbers from 0. Live are the complete items of the root, of
/// which that number is the first, and all to which ways lead back from them. Each is visited once.
/// Refused for want of memory.
pub fn marks_of(alloc: Global, links: &Links, root: u32) -> Result<Vec<Mark>, AllocError>
    requires { IsFirstEnd links.now.core (Reachable links.now.core links.now.text)
        (items_of links.now.tables) (root_key links.now.text) root }
    ensures { IfOk result (λ marks. AreMarks links.now.core links.now.text
        (items_of links.now.tables) marks.items) }
{
    alternatives_are_one();
    let count = links.len();
    let mut walk = no_marks(alloc, count)?;
    walk.mark_node(links, root)?;
    for turn in 0..count {
        let Some(number) = walk.at(turn) else {
            return Ok(walk.marks);
        };
        walk.visit(links, number)?;
    }
    Ok(walk.marks)
}

/// No marks.
fn no_marks(alloc: Global, count: usize) -> Result<Walk, AllocError>
    ensures found { IfOk result (λ walk. AreFound walk count) }
    ensures none { IfOk result (λ walk. walk.found.items ≡ []) }
{
    let marks = vec![in alloc; Mark::Dead; count]?;
    let found = Vec::with_capacity(alloc, count)?;
    Ok(Walk { marks, found })
}

impl Walk {
    /// The number that was marked at that turn.
    fn at(&self, turn: usize) -> Option<u32>
        ensures { result ≡ slice_get self.now.found.items turn }
    {
        self.found.get(turn).copied()
    }

    /// Marks all to which the ways to an item lead back.
    fn visit(&mut self, links: &Links, number: u32) -> Result<(), AllocError>
        requires found { AreFound self.old (length links.now.ways.firsts) }
        requires whole { AreWhole links.now.ways self.old.marks.items }
        requires number { number < length links.now.ways.firsts }
        ensures more { OnOk result (MarksMore self.old self.new
            (LeadsFrom links.now.ways number)) }
        ensures whole { OnOk result (AreWhole links.now.ways self.new.marks.items) }
    {
        let first = links.first(number);
        self.follow(links, first)?;
        for further in links.further(number) {
            let way = Way::Node {
                prev: further.prev,
                done: further.done,
            };
            self.follow(links, way)?;
        }
        Ok(())
    }

    /// Marks the previous item of a way, and the complete items of the node that was taken.
    #[inline(always)]
    fn follow(&mut self, links: &Links, way: Way) -> Result<(), AllocError>
        requires found { AreFound self.old (length links.now.ways.firsts) }
        requires whole { AreWhole links.now.ways self.old.marks.items }
        requires way { IsAWay links.now way }
        ensures more { OnOk result (MarksMore self.old self.new (Leads links.now.ways way)) }
        ensures whole { OnOk result (AreWhole links.now.ways self.new.marks.items) }
    {
        alternatives_are_one();
        match way {
            Way::Begin => Ok(()),
            Way::Pass { prev } => self.mark(prev, Mark::Open),
            Way::Leaf { prev } => self.mark(prev, Mark::Open),
            Way::Node { prev, done } => {
                self.mark(prev, Mark::Open)?;
                self.mark_node(links, done)
            }
        }
    }

    /// Marks all complete items of a node, of which `done` is the first. Where that one is marked,
    /// all are.
    #[inline(always)]
    fn mark_node(&mut self, links: &Links, done: u32) -> Result<(), AllocError>
        requires found { AreFound self.old (length links.now.ways.firsts) }
        requires whole { AreWhole links.now.ways self.old.marks.items }
        requires done { done < length links.now.ways.firsts }
        ensures more { OnOk result (MarksMore self.old self.new (OfNode links.now.ways done)) }
        ensures whole { OnOk result (AreWhole links.now.ways self.new.marks.items) }
    {
        if self.marks[done as usize].is_live() {
            return Ok(());
        }
        self.mark(done, Mark::Complete)?;
        for end in links.ends(done) {
            self.mark_end(*end)?;
        }
        Ok(())
    }

    /// Marks a further complete item of a node.
    #[inline(always)]
    fn mark_end(&mut self, end: FurtherEnd) -> Result<(), AllocError>
        requires found { AreFound self.old (length self.old.marks.items) }
        requires number { end.item < length self.old.marks.items }
        ensures { OnOk result (MarksMore self.old self.new (ThatItem end.item Complete)) }
    {
        self.mark(end.item, Mark::Complete)
    }

    /// Marks an item, where it has no mark.
    fn mark(&mut self, number: u32, mark: Mark) -> Result<(), AllocError>
        requires found { AreFound self.old (length self.old.marks.items) }
        requires number { number < length self.old.marks.items }
        requires mark { is_live mark ≡ true }
        ensures { OnOk result (MarksMore self.old self.new (ThatItem number mark)) }
    {
        if self.marks[number as usize].is_live() {
            return Ok(());
        }
        self.marks[number as usize] = mark;
        self.found.push(number)?;
        Ok(())
    }
}
