//! What the passes share: one traversal of symbols, lists that grow, the declaration that stands
//! for the root, and the laws of all passes.
//!
//! [`rewrite_grammar`] rewrites each symbol of a grammar by a pass's own rule ([`OwnRule`]),
//! exactly as `specs/Rewriting.antt` says; [`rewrite_levels`] and [`rewrite_symbol`] do so of a
//! part. [`root`] writes `$root` as the last declaration, exactly as `specs/Rooted.antt` says. A
//! call is refused for want of memory alone.
//!
//! `specs/SameTrees.antt` says when two grammars permit the same trees. The laws say that `$root`,
//! written as the last declaration, changes no tree and keeps a checked grammar checked, which
//! names are new, what a pass has to give for its result to be well scoped and regular
//! ([`results_are_ready`]), and how much the rewriting of symbols adds ([`counts_grow`]).
#![tactic(auto)]

mod growing;
mod laws;
mod rewriting;
mod rooting;

pub use growing::{
    copy_of_start, push_alternative, push_declaration, push_expression, push_integer, push_level,
    push_shape, push_symbol,
};
pub use laws::{
    added_names_are_new, asks_elsewhere, binders_are_counted, counts_grow, declarations_are_found,
    results_are_ready, root_keeps, rooted_is_the_same, same_trees_is_an_equivalence, symbols_ask,
};
pub use rewriting::{
    OwnRule, filtered, labelled, relabelled, rewrite_grammar, rewrite_levels, rewrite_symbol,
};
pub use rooting::{copy_of_shapes, has_root, root};
