//! Items with their ways, in the order of finding, and a schedule of those that wait.
ghost use Rattle.std.specs.Prelude.{◌≡◌, ◌⊎◌, ◌≤◌, ◌<◌, [], ◌∷◌, ◌++◌, ℕ};
ghost use Rattle.std.specs.Prelude.{Contains, length, slice_get};
ghost use Rattle.std.specs.Prelude.{IfErr, IfNone, IfOk, IfSome, OnErr, OnOk};
ghost use Rattle.std.specs.List.Sorted.{IsPermutation};
ghost use Rattle.ig_item.specs.declared.run_fault.RunFault.TheVariants.{Budget, Memory};
ghost use Rattle.ig_item.specs.declared.ways.Way.TheVariants.{Node};
ghost use Rattle.ig_run_moves.specs.Finding.{CutOff, IsFinding, Pushed, Returns};
ghost use Rattle.ig_run_moves.specs.Finding.{ticket_of, with_end};

use ig_item::{FurtherEnd, FurtherWay, Item, RunFault, Way, Ways, number};
use ig_queue::{Schedule, Ticket};
use ig_run_tables::{Returned, within_budget};
use std::alloc::{AllocError, Global};
use std::marker::Model;

/// The items that a run has found, numbered from 0 in the order of finding, with their ways, and
/// the schedule of those that wait. Once a call was refused for want of memory, each further one
/// that adds an item may be refused, too.
#[derive(Drop)]
pub struct Found<S: Schedule + Drop> {
    items: Vec<Item>,
    /// A way more than items where memory ran out between the two.
    ways: Ways,
    /// The items that may come about once more, with their numbers.
    index: Returned,
    schedule: S,
}

impl<S: Schedule + Drop> Model for Found<S> {
    ghost use Rattle.ig_run_moves.specs.Finding.{Finding, IsKept, items_of, ways_to};

    ghost Value = { Finding };

    ghost view = { λ f. record {
      items = f.items.items;
      ways = ways_to f.items.items f.ways;
      waiting = S.waiting f.schedule;
      indexed = items_of f.index;
    } };

    ghost invariant = { λ f. IsKept f.items.items f.ways f.index (S.waiting f.schedule) };
}

impl<S: Schedule + Drop> Found<S> {
    /// No items, over a schedule in which nothing waits. Refused for want of memory alone.
    pub fn new(alloc: Global, schedule: S) -> Result<Found<S>, AllocError>
        requires { S.waiting schedule ≡ [] }
        ensures items { IfOk result (λ f. f.items ≡ []) }
        ensures ways { IfOk result (λ f. f.ways ≡ record { firsts = []; further = []; ends = [] }) }
        ensures waiting { IfOk result (λ f. f.waiting ≡ []) }
        ensures indexed { IfOk result (λ f. f.indexed ≡ []) }
    {
        let index = Returned::new(alloc)?;
        Ok(Found {
            items: Vec::new(alloc),
            ways: Ways::new(alloc),
            index,
            schedule,
        })
    }

    /// The items, in the order of finding. Takes no memory.
    pub fn items(&self) -> &[Item]
        ensures items { result.now ≡ self.now.items }
        ensures finding { IsFinding self.now }
    {
        self.items.as_slice()
    }

    /// An item by its number, from 0; `None` exactly where the number isn't there. Takes no memory.
    pub fn item(&self, number: u32) -> Option<Item>
        ensures { result ≡ slice_get self.now.items number }
    {
        self.items.get(number as usize).copied()
    }

    /// Adds an item, which isn't there, the way in which it came about, and its ticket. It isn't
    /// indexed. `Budget` exactly where it is added and there are more items than `budget`. Refused
    /// for want of memory, it changes nothing, or adds all but the ticket.
    pub fn push(&mut self, item: Item, way: Way, budget: u32) -> Result<(), RunFault>
        requires { Contains self.old.items item → ⊥ }
        ensures pushed { OnOk result (Pushed self.old self.new item way) }
        ensures indexed { self.new.indexed ≡ self.old.indexed }
        ensures within { OnOk result (length self.new.items ≤ budget) }
        ensures over { IfErr result (λ fault. fault ≡ Budget →
            Pushed self.old self.new item way × (budget < length self.new.items)) }
        ensures memory { IfErr result (λ fault. fault ≡ Memory →
            CutOff self.old self.new item way) }
    {
        let number = next_number(self.items.as_slice(), &self.ways)?;
        self.ways.push(way)?;
        add_waiting(&mut self.items, &mut self.schedule, item, number)?;
        self.keep_within(budget)
    }

    /// Adds that an item, which is indexed if it is there, came about by a call from the item of
    /// number `prev`, where `done` is the complete item by which its callee is named: a new item
    /// with its ticket, which is indexed then, or a further way to the one that is there. `Budget`
    /// exactly where a new item is added and there are more than `budget`; it isn't indexed then.
    /// Refused for want of memory, it changes nothing, or adds all but the ticket, or all, and
    /// doesn't index it.
    #[inline(always)]
    pub fn add_returned(
        &mut self,
        item: Item,
        prev: u32,
        done: u32,
        budget: u32,
    ) -> Result<(), RunFault>
        requires { Contains self.old.items item → Contains self.old.indexed item }
        ensures returned { OnOk result (Returns self.old self.new item prev done) }
        ensures unindexed { OnErr result (self.new.indexed ≡ self.old.indexed) }
        ensures within { OnOk result (length self.old.items ≤ budget →
            length self.new.items ≤ budget) }
        ensures over { IfErr result (λ fault. fault ≡ Budget → (Contains self.old.items item → ⊥) ×
            Pushed self.old self.new item (Node prev done) × (budget < length self.new.items)) }
        ensures memory { IfErr result (λ fault. fault ≡ Memory →
            CutOff self.old self.new item (Node prev done) ⊎
            Pushed self.old self.new item (Node prev done)) }
    {
        next_number(self.items.as_slice(), &self.ways)?;
        let Some(item) = self.index.number_of(item) else {
            // A copy, so that the item that is looked up stays in registers.
            let new = item;
            return self.push_returned(new, prev, done, budget);
        };
        self.ways.push_further(FurtherWay { item, prev, done })?;
        Ok(())
    }

    /// Adds an item, which isn't there and came about by a call, with its ticket, and indexes it.
    #[inline(never)]
    fn push_returned(
        &mut self,
        item: Item,
        prev: u32,
        done: u32,
        budget: u32,
    ) -> Result<(), RunFault>
        requires { Contains self.old.items item → ⊥ }
        ensures pushed { OnOk result (Pushed self.old self.new item (Node prev done)) }
        ensures indexed { OnOk result (self.new.indexed ≡ self.old.indexed ++ item ∷ []) }
        ensures unindexed { OnErr result (self.new.indexed ≡ self.old.indexed) }
        ensures within { OnOk result (length self.new.items ≤ budget) }
        ensures over { IfErr result (λ fault. fault ≡ Budget →
            Pushed self.old self.new item (Node prev done) ×
            (budget < length self.new.items)) }
        ensures memory { IfErr result (λ fault. fault ≡ Memory →
            CutOff self.old self.new item (Node prev done) ⊎
            Pushed self.old self.new item (Node prev done)) }
    {
        let number = next_number(self.items.as_slice(), &self.ways)?;
        self.push(item, Way::Node { prev, done }, budget)?;
        self.index.add(item, number)?;
        Ok(())
    }

    /// `Budget` exactly where there are more items than the budget.
    fn keep_within(&self, budget: u32) -> Result<(), RunFault>
        ensures within { OnOk result (length self.now.items ≤ budget) }
        ensures over { OnErr result (budget < length self.now.items) }
        ensures fault { IfErr result (λ fault. fault ≡ Budget) }
    {
        within_budget(self.items.len(), budget)
    }

    /// Adds that the item of number `item` is complete, too, where that of number `first` was taken
    /// before. Refused for want of memory, it changes nothing.
    pub fn add_end(&mut self, first: u32, item: u32) -> Result<(), AllocError>
        ensures ok { OnOk result (self.new ≡ record self.old {
          ways = with_end self.old.ways
              (record { first = first; item = item });
        }) }
        ensures err { OnErr result (self.new ≡ self.old) }
    {
        self.ways.push_end(FurtherEnd { first, item })
    }

    /// Takes the ticket that the schedule gives: the item and its number; `None` exactly where none
    /// waits. Takes no memory.
    pub fn take(&mut self) -> Option<(u32, Item)>
        ensures found { IfSome result (λ r. slice_get self.old.items r.0 ≡ Some r.1) }
        ensures taken { IfSome result (λ r. IsPermutation self.old.waiting
            (ticket_of r.1 r.0 ∷ self.new.waiting)) }
        ensures gone { IfSome result (λ r. Contains self.new.waiting (ticket_of r.1 r.0) → ⊥) }
        ensures none { IfNone result (self.old.waiting ≡ []) }
        ensures still_none { IfNone result (self.new.waiting ≡ []) }
        ensures items { self.new.items ≡ self.old.items }
        ensures ways { self.new.ways ≡ self.old.ways }
        ensures indexed { self.new.indexed ≡ self.old.indexed }
    {
        let ticket = self.schedule.take()?;
        Some((ticket.number, self.items[ticket.number as usize]))
    }

    /// The items and the ways. Refused only after a call that was refused for want of memory. Takes
    /// no memory.
    pub fn into_parts(self) -> Result<(Vec<Item>, Ways), AllocError>
        ensures items { IfOk result (λ parts. parts.0.items ≡ self.items) }
        ensures ways { IfOk result (λ parts. parts.1 ≡ self.ways) }
        ensures finding { IsFinding self }
    {
        next_number(self.items.as_slice(), &self.ways)?;
        let Found { items, ways, .. } = self;
        Ok((items, ways))
    }
}

/// The number of the next item. Refused as want of memory where 32 bits don't hold it, and where
/// the items don't have a way each, which is so only after such a refusal.
#[inline(always)]
fn next_number(items: &[Item], ways: &Ways) -> Result<u32, AllocError>
    ensures number { IfOk result (λ n. n ≡ length items.now) }
    ensures numbered { OnOk result (length ways.now.firsts ≡ length items.now) }
{
    if ways.firsts().len() != items.len() {
        return Err(AllocError);
    }
    number(items.len())
}

/// Adds an item, which has that number, and its ticket. Refused for want of memory alone, it adds
/// no ticket.
fn add_waiting<S: Schedule>(
    items: &mut Vec<Item>,
    schedule: &mut S,
    item: Item,
    number: u32,
) -> Result<(), AllocError>
    requires { Contains (S.waiting schedule.old) (ticket_of item number) → ⊥ }
    ensures items { OnOk result (items.new.items ≡ items.old.items ++ item ∷ []) }
    ensures waiting { OnOk result (IsPermutation
        (ticket_of item number ∷ S.waiting schedule.old) (S.waiting schedule.new)) }
    ensures err_items { OnErr result ((items.new.items ≡ items.old.items) ⊎
        (items.new.items ≡ items.old.items ++ item ∷ [])) }
    ensures err_waiting { OnErr result (S.waiting schedule.new ≡ S.waiting schedule.old) }
{
    let ticket = Ticket {
        position: item.position,
        number,
    };
    items.push(item)?;
    schedule.put(ticket)
}
