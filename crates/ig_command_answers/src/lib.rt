//! What a command tells of a forest: the answers to questions, and the listing of its trees.
//!
//! [`answer_text`] gives the text of an answer: the ambiguous nodes, whether there is a higher tree
//! than each, the spans of a declaration, or how far the items came in the input. Only the last one
//! is told by the items, the others are told by the forest. `specs/Questions.antt` has what is told
//! where a question is asked.
//!
//! [`list`] gives the text of a listing: a line for each tree, in the order of the cursors, up to a
//! height, so many at most, from the first tree on or after that of a cursor. `specs/Lines.antt`
//! has the text of a line, `specs/Pages.antt` which trees are listed, and when there is no listing.
//! A call is refused for want of memory alone.
#![tactic(auto)]

mod answer;
mod fault;
mod listing;

pub use answer::answer_text;
pub use fault::ListFault;
pub use listing::list;
