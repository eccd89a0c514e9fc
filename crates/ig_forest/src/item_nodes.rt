//! The item nodes of a forest with their entries, made from the ways of a run.
ghost use Rattle.std.specs.Prelude.{◌≡◌, ◌↔◌, ◌⊎◌, ◌<◌, ◌≤◌, ◌+◌, ℕ};
ghost use Rattle.std.specs.Prelude.{IfOk, IsTrue, OnOk, Contains, length};
ghost use Rattle.std.specs.Prelude.{slice_index};
ghost use Rattle.std.specs.List.{AllAdjacentBelow};
ghost use Rattle.std.specs.declared.cmp.Ordering.TheVariants.{Less};
ghost use Rattle.ig_item.specs.WellKinded.{NoneTwice};
ghost use Rattle.ig_item.specs.declared.ways.Way.TheVariants as way;
ghost use Rattle.ig_forest_tables.specs.Orders.{entry_cmp, previous};
ghost use Rattle.ig_text.specs.Pairwise.{Each};
ghost use Rattle.ig_text.specs.Limits.{numbers_end};
ghost use Rattle.ig_forest.specs.CodeItemNodes.{AddsItem, AreSources, AreFromOne, AreNumbers};
ghost use Rattle.ig_forest.specs.CodeItemNodes.{IsStoredItem, WayFits, entry_by, further_entry};
ghost use Rattle.ig_forest.specs.CodeItemNodes.{node_by, number_by};
ghost use Rattle.ig_forest_live.specs.Once.{IsOnce};

use ig_forest_live::{Found, Links};
use ig_forest_tables::{Child, Entry, ItemTable};
use ig_item::{FurtherWay, Way};
use ig_text::Span;
use std::alloc::{AllocError, Global};

/// What the entries are made from.
#[derive(Clone, Copy)]
pub(crate) struct Sources<'a> {
    pub found: Found<'a>,
    pub links: &'a Links<'a>,
    /// The numbers of the items of the forest, in order.
    pub order: &'a [u32],
    /// Of each item of the run that is in the forest its number there.
    pub numbers: &'a [u32],
    /// Of each complete item of the forest the number of its node.
    pub nodes: &'a [u32],
}

/// Of each of `count` items of a run, whose numbers in order these are, the number in the forest.
pub(crate) fn numbers_of(alloc: Global, count: usize, order: &[u32]) -> Result<Vec<u32>, AllocError>
    requires below { (k : ℕ) → Contains order.now k → k < count }
    requires once { NoneTwice order.now }
    requires few { count ≤ numbers_end }
    ensures long { IfOk result (λ numbers. length numbers.items ≡ count) }
    ensures numbers { IfOk result (λ numbers. AreNumbers order.now numbers.items) }
{
    let mut numbers = vec![in alloc; 0; count]?;
    for place in 0..order.len() {
        numbers[order[place] as usize] = place as u32;
    }
    Ok(numbers)
}

impl<'a> Sources<'a> {
    /// The item nodes with their entries, in order.
    pub(crate) fn item_nodes(&self, alloc: Global) -> Result<ItemTable, AllocError>
        requires { AreSources self.now }
        ensures { IfOk result (Each (IsStoredItem self.now) self.now.order.now) }
    {
        let order = self.order;
        let most = order.len().saturating_add(self.links.all_further());
        let mut table = ItemTable::with_capacity(alloc, order.len(), most)?;
        let mut entries = Vec::new(alloc);
        for number in order {
            self.add(&mut table, &mut entries, *number)?;
        }
        Ok(table)
    }

    /// Adds the item of that number. Further entries are put together in the vector.
    fn add(
        &self,
        table: &mut ItemTable,
        entries: &mut Vec<Entry>,
        number: u32,
    ) -> Result<(), AllocError>
        requires sources { AreSources self.now }
        requires live { Contains self.now.order.now number }
        ensures { OnOk result (AddsItem self.now number table.old table.new) }
    {
        let row = self.found.row(number);
        let first = self.entry(self.links.first(number), row.position);
        let further = self.links.further(number);
        if further.is_empty() {
            table.push_one(row, first)?;
            return Ok(());
        }
        self.gather(entries, further)?;
        entries.push(first)?;
        put_in_order(entries);
        table.push(row, entries.as_slice())?;
        Ok(())
    }

    /// Makes these the entries of further ways. Mostly these were found by falling previous items
    /// and then by rising ones, so they are taken from the lowest one on, to both sides.
    fn gather(&self, entries: &mut Vec<Entry>, further: &[FurtherWay]) -> Result<(), AllocError>
        requires { (more : FurtherWay) → Contains further.now more →
            WayFits self.now (way.Node more.prev more.done) }
        ensures { OnOk result ((e : Entry) → Contains entries.new.items e ↔
            ((more : FurtherWay) × Contains further.now more × (e ≡ further_entry self.now more))) }
    {
        entries.clear();
        let mut begin = self.lowest(further);
        for turn in 0..further.len() {
            let place = self.next_place(further, begin, begin + turn);
            let more = further[place];
            entries.push(self.taken(more.prev, more.done))?;
            begin = least(begin, place);
        }
        Ok(())
    }

    /// The place up to which the previous items of further ways fall.
    #[inline(always)]
    fn lowest(&self, further: &[FurtherWay]) -> usize
        requires { (more : FurtherWay) → Contains further.now more →
            WayFits self.now (way.Node more.prev more.done) }
        ensures { result ≤ length further.now }
    {
        for place in 1..further.len() {
            if self.number(further[place - 1].prev) < self.number(further[place].prev) {
                return place - 1;
            }
        }
        further.len()
    }

    /// The place before `begin`, or `end`: that of the way whose previous item is lower, or where
    /// there is a way.
    #[inline(always)]
    fn next_place(&self, further: &[FurtherWay], begin: usize, end: usize) -> usize
        requires fits { (more : FurtherWay) → Contains further.now more →
            WayFits self.now (way.Node more.prev more.done) }
        requires within { begin ≤ length further.now }
        requires left { begin ≡ 0 → end < length further.now }
        ensures beside { (result + 1 ≡ begin) ⊎ (result ≡ end) }
        ensures there { result < length further.now }
    {
        if begin == 0 {
            return end;
        }
        if end >= further.len() {
            return begin - 1;
        }
        if self.number(further[begin - 1].prev) < self.number(further[end].prev) {
            return begin - 1;
        }
        end
    }

    /// The entry of a way to an item at that position.
    fn entry(&self, way: Way, position: u32) -> Entry
        requires { WayFits self.now way }
        ensures { result ≡ entry_by self.now position way }
    {
        match way {
            Way::Begin => Entry::Begin,
            Way::Pass { prev } => Entry::Pass {
                prev: self.number(prev),
            },
            Way::Leaf { prev } => Entry::Take {
                prev: self.number(prev),
                child: Child::Leaf(Span {
                    begin: self.found.items[prev as usize].position,
                    end: position,
                }),
            },
            Way::Node { prev, done } => self.taken(prev, done),
        }
    }

    /// The entry of a way behind a call.
    fn taken(&self, prev: u32, done: u32) -> Entry
        requires { WayFits self.now (way.Node prev done) }
        ensures { result ≡ entry_by self.now 0 (way.Node prev done) }
    {
        let number = self.number(done);
        let node = self.node_at(number);
        Entry::Take {
            prev: self.number(prev),
            child: Child::Node(node),
        }
    }

    /// The number of the node of a complete item of the run.
    pub(crate) fn node(&self, item: u32) -> u32
        requires item { item < length self.now.numbers.now }
        requires number { number_by self.now item < length self.now.nodes.now }
        ensures { result ≡ node_by self.now item }
    {
        self.node_at(self.number(item))
    }

    /// The number of the node of a complete item of the forest.
    #[inline]
    fn node_at(&self, number: u32) -> u32
        requires { number < length self.now.nodes.now }
        ensures { result ≡ slice_index self.now.nodes.now number }
    {
        self.nodes[number as usize]
    }

    /// The number in the forest of an item of the run.
    fn number(&self, item: u32) -> u32
        requires { item < length self.now.numbers.now }
        ensures { result ≡ number_by self.now item }
    {
        self.numbers[item as usize]
    }
}

/// The lower of the two.
#[inline(always)]
fn least(a: usize, b: usize) -> usize
    ensures first { a ≤ b → result ≡ a }
    ensures second { b < a → result ≡ b }
{
    if b < a { b } else { a }
}

/// Puts entries into the order of their previous items, each once. Mostly they are in it.
fn put_in_order(entries: &mut Vec<Entry>)
    requires { AreFromOne entries.old.items }
    ensures { IsOnce entry_cmp entries.old.items entries.new.items }
{
    if !is_rising(entries.as_slice()) {
        sort_entries(entries);
    }
}

/// Whether the previous item of each entry is below that of the next one.
fn is_rising(entries: &[Entry]) -> bool
    ensures { IsTrue result → AllAdjacentBelow (λ e f. entry_cmp e f ≡ Less) entries.now
        (length entries.now) }
{
    for place in 1..entries.len() {
        if previous_of(entries[place - 1]) >= previous_of(entries[place]) {
            return false;
        }
    }
    true
}

/// Sorts entries by their previous items, each once.
fn sort_entries(entries: &mut Vec<Entry>)
    requires { AreFromOne entries.old.items }
    ensures { IsOnce entry_cmp entries.old.items entries.new.items }
{
    entries.sort_unstable_by_key(|entry| previous_of(*entry));
    entries.dedup_by_key(|entry| previous_of(*entry));
}

/// The number of the previous item; 0 where there is none.
fn previous_of(entry: Entry) -> u32
    ensures { result ≡ previous entry }
{
    match entry {
        Entry::Begin => 0,
        Entry::Pass { prev } => prev,
        Entry::Take { prev, .. } => prev,
    }
}
