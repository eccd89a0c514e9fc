//! What is asked of a run and of a forest.
//!
//! [`report`] says how far the items of a run came in the text, and what they expect there:
//! `specs/Report.antt`. [`spans`] gives the spans of the nodes of a declaration:
//! `specs/Spans.antt`. [`ambiguous_nodes`] gives the nodes that have two alternatives, or whose
//! alternative leads to an item node with two entries, and [`is_ambiguous`] says whether there are
//! any: `specs/Ambiguity.antt`. The laws say what these answers mean for the trees of the forest.
#![tactic(auto)]

mod ambiguity;
mod dots;
mod furthest;
mod item;
mod laws;
mod node_spans;
mod run_report;

pub use ambiguity::{Numbers, ambiguous_nodes, is_ambiguous};
pub use laws::{ambiguity_is_two_trees, nodes_are_those_of_trees, spans_are_those_of_trees};
pub use node_spans::{Spans, spans};
pub use run_report::report;
