//! Each schedule takes a ticket and gives it back.
use crate::{Fifo, Lifo, Lowest, Schedule, Ticket};
use std::test::Fail;

#[test]
fn fifo_gives_it_back(rt: HostRuntime) -> Result<(), Fail> {
    let mut tickets = Fifo::new(rt.alloc());
    let ticket = Ticket {
        position: 2,
        number: 1,
    };
    tickets.put(ticket)?;
    assert_eq!(rt; tickets.take(), Some(ticket));
    assert_eq!(rt; tickets.take(), None);
    Ok(())
}

#[test]
fn lifo_gives_it_back(rt: HostRuntime) -> Result<(), Fail> {
    let mut tickets = Lifo::new(rt.alloc());
    let ticket = Ticket {
        position: 2,
        number: 1,
    };
    tickets.put(ticket)?;
    assert_eq!(rt; tickets.take(), Some(ticket));
    assert_eq!(rt; tickets.take(), None);
    Ok(())
}

#[test]
fn lowest_gives_it_back(rt: HostRuntime) -> Result<(), Fail> {
    let mut tickets = Lowest::new(rt.alloc());
    let ticket = Ticket {
        position: 2,
        number: 1,
    };
    tickets.put(ticket)?;
    assert_eq!(rt; tickets.take(), Some(ticket));
    assert_eq!(rt; tickets.take(), None);
    Ok(())
}
