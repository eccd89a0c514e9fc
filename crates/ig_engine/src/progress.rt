//! Whether a step took a ticket.

/// Whether a step took a ticket.
#[derive(Clone, Copy, PartialEq, Eq, Debug)]
pub enum Progress {
    More,
    Done,
}
