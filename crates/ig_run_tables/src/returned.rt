//! Items of a run that stand behind calls, by a table of hashes that is emptied without a cost.
//! Only these can be found once more.
ghost use Rattle.std.specs.Prelude.{◌≡◌, ◌≤◌, ◌+◌, [], ◌∷◌, ◌++◌};
ghost use Rattle.std.specs.Prelude.{ℕ, IfNone, IfOk, IfSome, OnErr, OnOk, Contains};
ghost use Rattle.ig_text.specs.Limits.{numbers_end};
ghost use Rattle.ig_run_tables.specs.Returned.{bucket_of, entry};

use ig_item::Item;
use std::alloc::{AllocError, Global};
use std::marker::Model;

/// One less than the number of buckets at the beginning.
const FIRST_MASK: u32 = 63;

/// Whatever the number of buckets, small multiples of this number lie far from small numbers. So
/// those of an instance lie side by side by their positions, and near instances don't meet there.
const FAR: u64 = 0x2d93_3659;

/// In base 2 `0101..`: whatever the number of buckets, each multiple lies a third or two thirds of
/// them behind the one before. So two dots of an instance don't meet.
const THIRDS: u64 = 0x5555_5555;

/// In base 2 `0011..`: each multiple lies some fifths of the buckets behind the one before.
const FIFTHS: u64 = 0x3333_3333;

/// In base 2 `00011110..`. It is even, so that an environment that rises with its instance still
/// reaches all buckets.
const SEVENTEENTHS: u64 = 0x1e1e_1e1e;

/// An item with its number, and where the one before it in its bucket stands: its place + 1,
/// counted on from the base. There is none where this is at most the base.
#[derive(Clone, Copy)]
pub struct Cell {
    pub item: Item,
    pub number: u32,
    pub next: u32,
}

impl Cell {
    /// Where the cell before it in its bucket stands.
    #[inline(always)]
    fn earlier(self) -> u32
        ensures { result ≡ self.next }
    {
        self.next
    }
}

/// Items with their numbers, in the order in which they were added. The places of those that were
/// there before the set was cleared are at most `base`, so that clearing doesn't touch the buckets.
#[derive(Drop)]
pub struct Returned {
    /// Where the last item of each bucket stands.
    heads: Vec<u32>,
    cells: Vec<Cell>,
    base: u32,
    mask: u32,
}

impl Model for Returned {
    ghost use Rattle.std.specs.Prelude.{List};
    ghost use Rattle.ig_run_tables.specs.Returned.{AreChained, Entry, entries_of};

    ghost Value = { List Entry };

    ghost view = { λ s. entries_of s.cells.items };

    ghost invariant = { λ s. AreChained s.mask s.base s.heads.items s.cells.items };
}

impl Returned {
    /// No items. Refused for want of memory alone.
    pub fn new(alloc: Global) -> Result<Returned, AllocError>
        ensures { IfOk result (λ s. s ≡ []) }
    {
        Returned::with_mask(alloc, FIRST_MASK)
    }

    /// No items, with so many buckets and one more.
    fn with_mask(alloc: Global, mask: u32) -> Result<Returned, AllocError>
        ensures { IfOk result (λ s. s ≡ []) }
    {
        let heads = vec![in alloc; 0; mask as usize + 1]?;
        Ok(Returned {
            heads,
            cells: Vec::new(alloc),
            base: 0,
            mask,
        })
    }

    /// Removes all items. Refused where 32 bits can't count on.
    pub fn clear(&mut self) -> Result<(), AllocError>
        ensures { OnOk result (self.new ≡ []) }
    {
        let Ok(count) = u32::try_from(self.cells.len()) else {
            return Err(AllocError);
        };
        let Some(base) = self.base.checked_add(count) else {
            return Err(AllocError);
        };
        self.base = base;
        self.cells.clear();
        Ok(())
    }

    /// The number of the item; `None` exactly where it isn't there.
    #[inline(always)]
    pub fn number_of(&self, item: Item) -> Option<u32>
        ensures some { IfSome result (λ n. Contains self.now (entry item n)) }
        ensures none { IfNone result ((n : ℕ) → Contains self.now (entry item n) → ⊥) }
    {
        let mut at = self.heads[bucket_of(item, self.mask)];
        // The walk tests this, too. Here it keeps the load of a head apart from that of a link.
        if at <= self.base {
            return None;
        }
        while at > self.base {
            let cell = self.cells[(at - self.base - 1) as usize];
            if cell.item == item {
                return Some(cell.number);
            }
            at = cell.earlier();
        }
        None
    }

    /// Adds an item with its number. Refused for want of memory alone, and then the items are as
    /// they were.
    pub fn add(&mut self, item: Item, number: u32) -> Result<(), AllocError>
        ensures ok { OnOk result (self.new ≡ self.old ++ entry item number ∷ []) }
        ensures err { OnErr result (self.new ≡ self.old) }
    {
        self.make_room()?;
        self.push(item, number)
    }

    /// Adds an item with its number, where there are buckets for it. Refused, it leaves the items
    /// as they were.
    fn push(&mut self, item: Item, number: u32) -> Result<(), AllocError>
        ensures ok { OnOk result (self.new ≡ self.old ++ entry item number ∷ []) }
        ensures err { OnErr result (self.new ≡ self.old) }
    {
        let at = bucket_of(item, self.mask);
        let next = self.heads[at];
        let place = place_behind(self.base, self.cells.len())?;
        self.cells.push(Cell { item, number, next })?;
        self.heads[at] = place;
        Ok(())
    }

    /// Makes more buckets where less than half of them would be free.
    fn make_room(&mut self) -> Result<(), AllocError>
        ensures { self.new ≡ self.old }
    {
        if self.cells.len() <= self.mask as usize / 2 {
            return Ok(());
        }
        self.grow()
    }

    /// Makes twice as many buckets.
    #[cold]
    fn grow(&mut self) -> Result<(), AllocError>
        ensures { self.new ≡ self.old }
    {
        let Some(mask) = self.mask.checked_mul(2) else {
            return Err(AllocError);
        };
        let larger = self.with_buckets(mask | 1)?;
        *self = larger;
        Ok(())
    }

    /// The same items, with so many buckets and one more.
    fn with_buckets(&self, mask: u32) -> Result<Returned, AllocError>
        ensures { IfOk result (λ s. s ≡ self.now) }
    {
        let mut larger = Returned::with_mask(*self.cells.allocator(), mask)?;
        let cells = self.cells.as_slice();
        for cell in cells {
            larger.push(cell.item, cell.number)?;
        }
        Ok(larger)
    }
}

/// The bucket of an item.
#[tactic(auto, unfolding(crate::specs::Returned::hash_of))]
fn bucket_of(item: Item, mask: u32) -> usize
    ensures { result ≡ bucket_of mask item }
{
    let hash = u64::from(item.position)
        + u64::from(item.instance) * FAR
        + u64::from(item.alternative) * FIFTHS
        + u64::from(item.dot) * THIRDS
        + u64::from(item.env) * SEVENTEENTHS;
    (hash & u64::from(mask)) as usize
}

/// The place + 1 behind so many cells, counted on from the base. Refused, as want of memory,
/// exactly where 32 bits don't hold it.
fn place_behind(base: u32, cells: usize) -> Result<u32, AllocError>
    ensures place { IfOk result (λ p. p ≡ base + cells + 1) }
    ensures refused { OnErr result (numbers_end ≤ base + cells + 1) }
{
    let Ok(cells) = u32::try_from(cells) else {
        return Err(AllocError);
    };
    let Some(place) = base.checked_add(cells) else {
        return Err(AllocError);
    };
    place.checked_add(1).ok_or(AllocError)
}
