//! What a run found, as rows are read off it.
ghost use Rattle.std.specs.Prelude.{◌≡◌, IfSome, IsTrue, slice_get};
ghost use Rattle.std.specs.declared.cmp.Ordering.TheVariants.{Less};
ghost use Rattle.ig_forest_live.specs.Founds.{IsThereIn, number_cmp_in, row_in};

use crate::rows::ItemRow;
use ig_item::{InstanceKey, Item};
use std::cmp::Ordering;

/// The items of a run by number, from 0, with the instances that they name, and with the place of
/// each environment in the ordered table of lists.
#[derive(Clone, Copy)]
pub struct Found<'a> {
    pub items: &'a [Item],
    pub keys: &'a [InstanceKey],
    pub places: &'a [u32],
}

impl<'a> Found<'a> {
    /// The item of that number, from 0, as a row. Takes no memory.
    pub fn row(&self, number: u32) -> ItemRow
        requires { IsThereIn self.now number }
        ensures { result ≡ row_in self.now number }
    {
        let item = self.items[number as usize];
        let key = self.keys[item.instance as usize];
        ItemRow {
            start: key.start,
            position: item.position,
            nonterminal: key.nonterminal,
            values: self.places[key.env as usize],
            alternative: item.alternative,
            dot: item.dot,
            env: self.places[item.env as usize],
        }
    }

    /// The item of that number as a row, if it is there.
    pub(crate) fn find_row(&self, number: u32) -> Option<ItemRow>
        ensures { IfSome result (λ row. row ≡ row_in self.now number) }
    {
        let item = item_at(self.items, number)?;
        let key = key_at(self.keys, item.instance)?;
        let values = place_at(self.places, key.env)?;
        let env = place_at(self.places, item.env)?;
        Some(ItemRow {
            start: key.start,
            position: item.position,
            nonterminal: key.nonterminal,
            values,
            alternative: item.alternative,
            dot: item.dot,
            env,
        })
    }

    /// Whether both items are there, and the row of the first one is below that of the second.
    pub(crate) fn is_below(&self, a: u32, b: u32) -> bool
        ensures { IsTrue result → number_cmp_in self.now a b ≡ Less }
    {
        let Some(x) = self.find_row(a) else {
            return false;
        };
        let Some(y) = self.find_row(b) else {
            return false;
        };
        x.cmp(&y).is_lt()
    }

    /// How the rows of two items compare. Only time rests on it.
    pub(crate) fn compare(&self, a: u32, b: u32) -> Ordering {
        self.find_row(a).cmp(&self.find_row(b))
    }

    /// Where the item starts, or 0 if it isn't there. Only time rests on it.
    pub(crate) fn start(&self, number: u32) -> u32 {
        match self.find_start(number) {
            Some(start) => start,
            None => 0,
        }
    }

    /// Where the item starts, if it is there. Only time rests on it.
    fn find_start(&self, number: u32) -> Option<u32> {
        let item = item_at(self.items, number)?;
        let key = key_at(self.keys, item.instance)?;
        Some(key.start)
    }

    /// Whether the two items start at one position, and came to one position. Only time rests on
    /// it.
    pub(crate) fn are_together(&self, a: u32, b: u32) -> bool {
        let Some(x) = item_at(self.items, a) else {
            return false;
        };
        let Some(y) = item_at(self.items, b) else {
            return false;
        };
        x.position == y.position && self.find_start(a) == self.find_start(b)
    }
}

/// The item of that number.
fn item_at(items: &[Item], number: u32) -> Option<Item>
    ensures { result ≡ slice_get items.now number }
{
    items.get(number as usize).copied()
}

/// The instance of that number.
fn key_at(keys: &[InstanceKey], number: u32) -> Option<InstanceKey>
    ensures { result ≡ slice_get keys.now number }
{
    keys.get(number as usize).copied()
}

/// The place of the environment of that number.
fn place_at(places: &[u32], number: u32) -> Option<u32>
    ensures { result ≡ slice_get places.now number }
{
    places.get(number as usize).copied()
}
