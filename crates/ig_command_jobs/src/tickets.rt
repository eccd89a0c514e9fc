//! Tickets in the order that a command names.
ghost use Rattle.std.specs.Prelude.{◌≡◌, []};
ghost use Rattle.ig_command_jobs.specs.Tickets.{waiting_in};

use ig_command::WorkList;
use ig_queue::{Fifo, Lifo, Lowest, Schedule, Ticket};
use std::alloc::{AllocError, Global};

/// A work list in one of three orders.
#[derive(Drop)]
pub(crate) enum Tickets {
    Fifo(Fifo),
    Lifo(Lifo),
    Lowest(Lowest),
}

impl Tickets {
    /// No tickets, to be given in that order. Takes no memory.
    pub(crate) fn new(alloc: Global, order: WorkList) -> Tickets
        ensures { waiting_in result ≡ [] }
    {
        match order {
            WorkList::Fifo => Tickets::Fifo(Fifo::new(alloc)),
            WorkList::Lifo => Tickets::Lifo(Lifo::new(alloc)),
            WorkList::Lowest => Tickets::Lowest(Lowest::new(alloc)),
        }
    }
}

impl Schedule for Tickets {
    ghost waiting = { waiting_in };

    fn put(&mut self, ticket: Ticket) -> Result<(), AllocError> {
        match self {
            Tickets::Fifo(queue) => queue.put(ticket),
            Tickets::Lifo(stack) => stack.put(ticket),
            Tickets::Lowest(heap) => heap.put(ticket),
        }
    }

    fn take(&mut self) -> Option<Ticket> {
        match self {
            Tickets::Fifo(queue) => queue.take(),
            Tickets::Lifo(stack) => stack.take(),
            Tickets::Lowest(heap) => heap.take(),
        }
    }
}
