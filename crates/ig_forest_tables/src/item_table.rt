//! Item nodes as they are kept: the entries of all of them side by side in one vector.
ghost use Rattle.std.specs.Prelude.{◌≡◌, [], ◌∷◌, ◌++◌, IfOk, OnOk, length, option_map};
ghost use Rattle.std.specs.Prelude.{slice_get};
ghost use Rattle.ig_forest_tables.specs.StoredItems.{IsPartOf, entries_in, stored_view};

use crate::entry::Entry;
use ig_forest_live::ItemRow;
use ig_item::number;
use std::alloc::{AllocError, Global};
use std::marker::Model;

/// A row, and where its entries stand in the vector of all entries.
#[derive(Clone, Copy)]
struct Part {
    row: ItemRow,
    begin: u32,
    end: u32,
}

/// Item nodes, numbered from 0.
#[derive(Drop)]
pub struct ItemTable {
    entries: Vec<Entry>,
    parts: Vec<Part>,
}

impl Model for ItemTable {
    ghost use Rattle.std.specs.Prelude.{List, map};
    ghost use Rattle.ig_forest_tables.specs.StoredItems.{ArePartsOf, StoredItem, item_in};

    ghost Value = { List StoredItem };

    ghost view = { λ s. map (item_in s.entries.items) s.parts.items };

    ghost invariant = { λ s. ArePartsOf s.entries.items s.parts.items };
}

/// An item node that is borrowed from a table.
#[derive(Clone, Copy)]
pub(crate) struct Stored<'t> {
    pub row: ItemRow,
    pub entries: &'t [Entry],
}

impl ItemTable {
    /// No item nodes, with room for so many, and for so many entries.
    pub fn with_capacity(
        alloc: Global,
        items: usize,
        entries: usize,
    ) -> Result<ItemTable, AllocError>
        ensures { IfOk result (λ table. table ≡ []) }
    {
        let entries = Vec::with_capacity(alloc, entries)?;
        let parts = Vec::with_capacity(alloc, items)?;
        Ok(ItemTable { entries, parts })
    }

    /// The number of item nodes.
    pub fn len(&self) -> usize
        ensures { result ≡ length self.now }
    {
        self.parts.len()
    }

    /// An item node by its number; `None` exactly where the number isn't there.
    pub(crate) fn get(&self, k: u32) -> Option<Stored<'_>>
        ensures { option_map stored_view result ≡ slice_get self.now k }
    {
        let Some(part) = part_at(self.parts.as_slice(), k) else {
            return None;
        };
        let entries = entries_of(self.entries.as_slice(), part);
        Some(Stored {
            row: part.row,
            entries,
        })
    }

    /// Adds an item node at the end. Refused for want of memory, and where all would have
    /// 4,294,967,296 entries.
    pub fn push(&mut self, row: ItemRow, entries: &[Entry]) -> Result<(), AllocError>
        ensures { OnOk result
            (self.new ≡ self.old ++ record { row = row; entries = entries.now } ∷ []) }
    {
        let begin = number(self.entries.as_slice().len())?;
        let end = number(self.entries.as_slice().len().saturating_add(entries.len()))?;
        self.entries.extend_from_slice(entries)?;
        self.parts.push(Part { row, begin, end })?;
        Ok(())
    }

    /// Adds an item node with one entry at the end. Refused for want of memory, and where all would
    /// have 4,294,967,296 entries.
    pub fn push_one(&mut self, row: ItemRow, entry: Entry) -> Result<(), AllocError>
        ensures { OnOk result
            (self.new ≡ self.old ++ record { row = row; entries = entry ∷ [] } ∷ []) }
    {
        let begin = number(self.entries.as_slice().len())?;
        let end = number(self.entries.as_slice().len().saturating_add(1))?;
        self.entries.push(entry)?;
        self.parts.push(Part { row, begin, end })?;
        Ok(())
    }
}

/// The entries of a part.
fn entries_of(entries: &[Entry], part: Part) -> &[Entry]
    requires { IsPartOf entries.now part }
    ensures { result.now ≡ entries_in entries.now part }
{
    &entries[part.begin as usize..part.end as usize]
}

/// The part of that number, from 0.
fn part_at(parts: &[Part], k: u32) -> Option<Part>
    ensures { result ≡ slice_get parts.now k }
{
    parts.get(k as usize).copied()
}
