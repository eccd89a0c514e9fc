//! The walker: the trees of a forest, one by one.
ghost use Rattle.std.specs.Prelude.{◌≡◌, IfOk, IfErr, OnErr, None, Some, vec_items};
ghost use Rattle.ig_heights.specs.Heights.{AreHeights};
ghost use Rattle.ig_walker.specs.Listing.{Gives, HasTree, HasNoTree};
ghost use Rattle.ig_walker.specs.declared.walker.WalkFault.TheVariants.{BadCursor};

use crate::follow::follow;
use crate::goal::Visit;
use crate::measured::Measured;
use crate::parts::{cursor_of, tree_of};
use crate::walk::next_walk;
use ig_forest::{Cursor, Forest, Tree};
use ig_heights::Heights;
use std::alloc::{AllocError, Global};
use std::marker::Model;

/// Why there is no walker behind a cursor.
#[derive(Clone, Copy, PartialEq, Eq, Debug, Drop)]
pub enum WalkFault {
    /// The cursor isn't that of a tree of the root to the depth.
    BadCursor,
    /// Memory ran out.
    Memory,
}

impl From<AllocError> for WalkFault {
    ghost use Rattle.std.specs.Prelude.{◌≡◌};
    ghost use Rattle.ig_walker.specs.declared.walker.WalkFault.TheVariants.{Memory};

    ghost from_gives = { λ _ fault. fault ≡ Memory };

    fn from(_error: AllocError) -> WalkFault {
        WalkFault::Memory
    }
}

/// A listing of the trees of a forest to a depth, in the order of their cursors.
#[derive(Drop)]
pub struct Walker<'f> {
    alloc: Global,
    forest: Measured<'f>,
    depth: u32,
    /// The walk of the last tree; empty where no tree was given yet.
    visits: Vec<Visit>,
}

impl<'f> Model for Walker<'f> {
    ghost use Rattle.ig_walker.specs.Listing.{Listing};

    ghost Value = { Listing };

    ghost use Rattle.ig_walker.specs.States.{HasWalked, listing_of};

    ghost view = { λ w. listing_of w.forest w.depth w.visits.items };

    ghost invariant = { λ w. HasWalked w.forest w.depth w.visits.items };
}

/// Takes this walk in place of the one that was.
fn go_on(walk: &mut Vec<Visit>, next: Vec<Visit>)
    ensures { vec_items walk.new ≡ vec_items next }
{
    *walk = next;
}

impl<'f> Walker<'f> {
    /// The listing of the trees of the root of at most that height, from the first one on. Takes no
    /// memory. The heights are those of the forest.
    pub fn first(alloc: Global, forest: &'f Forest, heights: &'f Heights, depth: u32) -> Walker<'f>
        requires heights { AreHeights forest.now heights.now }
        ensures { result ≡ record { forest = forest.now; depth = depth; last = None } }
    {
        let forest = Measured { forest, heights };
        Walker {
            alloc,
            forest,
            depth,
            visits: Vec::new(alloc),
        }
    }

    /// The listing of the trees behind the one with that cursor. `BadCursor` exactly where no tree
    /// of the root of at most that height has the cursor. The heights are those of the forest.
    pub fn after(
        alloc: Global,
        forest: &'f Forest,
        heights: &'f Heights,
        depth: u32,
        cursor: &Cursor,
    ) -> Result<Walker<'f>, WalkFault>
        requires heights { AreHeights forest.now heights.now }
        ensures there { IfOk result (λ _. HasTree forest.now depth cursor.now) }
        ensures behind { IfOk result (λ walker. walker ≡
            record { forest = forest.now; depth = depth; last = Some cursor.now }) }
        ensures refused { IfErr result (λ fault. fault ≡ BadCursor →
            HasNoTree forest.now depth cursor.now) }
    {
        let forest = Measured { forest, heights };
        match follow(alloc, &forest, depth, cursor.as_slice())? {
            Some(visits) => Ok(Walker {
                alloc,
                forest,
                depth,
                visits,
            }),
            None => Err(WalkFault::BadCursor),
        }
    }

    /// The next tree in the order of the cursors; `None` exactly where there is no later one of at
    /// most the height, and then the walker stays as it is. Refused for want of memory, the walker
    /// is unchanged.
    pub fn next(&mut self) -> Result<Option<Tree>, AllocError>
        ensures given { IfOk result (λ given. Gives self.old given self.new) }
        ensures refused { OnErr result (self.new ≡ self.old) }
    {
        let found = next_walk(self.alloc, &self.forest, self.depth, self.visits.as_slice())?;
        let Some(visits) = found else {
            return Ok(None);
        };
        let tree = tree_of(self.alloc, &self.forest, visits.as_slice())?;
        go_on(&mut self.visits, visits);
        Ok(Some(tree))
    }

    /// The cursor of the last tree that was given, and before that the one that `after` took;
    /// `None` exactly where there is neither.
    pub fn cursor(&self) -> Result<Option<Cursor>, AllocError>
        ensures { IfOk result (λ cursor. cursor ≡ self.now.last) }
    {
        let visits = self.visits.as_slice();
        if visits.is_empty() {
            return Ok(None);
        }
        let cursor = cursor_of(self.alloc, &self.forest, visits)?;
        Ok(Some(cursor))
    }
}
