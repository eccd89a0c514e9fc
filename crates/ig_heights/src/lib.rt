//! How high the trees of a forest are at least, and whether there is a highest one.
//!
//! [`Heights::of`] gives the least height of the trees of each node, that of the lists of trees of
//! each item node, and whether the root has a tree above each height. `specs/Heights.antt` says
//! what these are, of the trees to which the forest unfolds. The laws say that a depth has exactly
//! the trees that are no higher, and that no tree is higher than the number of nodes where the
//! root has a highest one.
//!
//! Both answers come from one work list over rules between numbered parts. A rule makes its target
//! once its two sources are made; parts are made in the order of their heights, and each rule is
//! looked at once for each of its sources. For least heights a part has a rule for each entry or
//! alternative, and one of them is enough. For the other answer the rules of a part form a chain,
//! so that it is made once all that it names is made; parts on a cycle, and those above one, never
//! are.
#![tactic(auto)]

mod heights;
mod laws;
mod least_rules;
mod rule;
mod uses;
mod whole_rules;
mod work;

pub use heights::Heights;
pub use laws::{depths_are_heights, none_above_nodes, trees_are_no_higher_than_nodes};
