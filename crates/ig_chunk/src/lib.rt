//! Blocks of 1,024 places in raw memory, which never move. Contracts see the list of a chunk's
//! values.
#![tactic(auto)]

mod chunk;
mod places;

pub use chunk::{Chunk, PLACES};
// A crate names a chunk in a contract only if the types of its fields are exported.
#[doc(hidden)]
pub use places::{Places, Start};
