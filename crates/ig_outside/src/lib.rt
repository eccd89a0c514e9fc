//! The outside of the parser: shelves, from which named bytes are fetched, and sinks, which take
//! bytes. Each has an implementation in memory, whose faults are chosen beforehand.
//!
//! A shelf or a sink that tells what it holds or got promises exact answers. One that tells
//! nothing, as over files, promises what its counts show: a call fails only where the count of
//! faults rose, and every other answer leaves that count as it was. Each shelf records what its
//! fetches gave, so that a contract above can speak of the bytes that were read.
#![tactic(auto)]

mod memory_shelf;
mod memory_sink;
mod record;
mod shelf;
mod sink;

pub use memory_shelf::MemoryShelf;
pub use memory_sink::MemorySink;
pub use record::Record;
pub use shelf::{FetchFault, Shelf};
pub use sink::{Sink, SinkFault};
