//! Which derivation trees a grammar permits for a text, and in which order they stand.
//!
//! `specs/Derivation.antt` defines what symbols cover, `specs/Permitted.antt` which trees a grammar
//! permits: the meaning of a grammar as it is written, with no item, stack or forest in it.
//! `specs/Order.antt` has the order of trees. The functions compute nothing: their contracts are
//! the laws of these definitions.
#![tactic(auto)]

mod laws;

pub use laws::{
    annotations_are_complete, annotations_are_unique, derivations_are_annotated,
    derivations_invert, environments_grow, labels_bind_own_spans, permitted_trees_are_ordered,
    permitted_trees_are_whole, spans_are_in_order, trees_without_operators_are_clean,
    undiffering_trees_are_equal,
};
