//! Values and expressions of a grammar: their kinds, and how they are evaluated.
//!
//! Contracts see an [`Expr`] as the syntax tree that `expression_of` of `specs/View.antt` gives,
//! and an [`Operand`] as that tree itself. [`kind_of`] answers the kind that `specs/Kinds.antt`
//! defines, and [`evaluate`] the value of `specs/Evaluation.antt`, over whole numbers without
//! bound. Neither takes memory, and both leave a wrong kind without an answer. [`Values`] is a
//! short list of values that are kept inline; values, and such lists, are ordered as
//! `specs/ValueOrder.antt` says, trees whose nodes have values as `specs/TreeOrder.antt` says.
//! `specs/Examples.antt` has worked values at the edges.
#![tactic(auto)]

mod blocks;
mod evaluation;
mod expression;
mod kind;
mod matching;
mod names;
mod operation;
mod operator;
mod reading;
mod tree_order;
mod value;

pub use evaluation::{
    digits_grow, evaluate, matches_are_decided, matches_have_their_width, tests_look_for_matches,
    value_is_of_kind, values_are_worked,
};
pub use expression::{Expr, Exprs, Operand};
pub use kind::{Kind, Kinds, kind_of};
pub use operator::{Function, Op};
pub use tree_order::{last_child_starts_decide, trees_are_ordered};
pub use value::{Value, Values, equal_values_are_one, values_are_ordered};
