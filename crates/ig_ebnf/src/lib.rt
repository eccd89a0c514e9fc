//! Lists, options and groups as calls of added nonterminals: a pass from grammars to grammars with
//! the same trees.
//!
//! What the pass is, and what it keeps, `ig_ebnf_variables` says; [`lower_ebnf`] is exactly that.
//! [`new_alternatives`] gives what stands for alternatives, with a call of an added declaration for
//! each list, option and group. [`push_option`] and its like add that declaration to those that are
//! there (`specs/Made.antt`). A call is refused for want of memory alone.
#![tactic(auto)]

mod grammars;
mod growing;
mod made;
mod placing;

pub use grammars::lower_ebnf;
pub use made::{
    Lowered, Separated, push_group, push_option, push_plus, push_sep_plus, push_sep_star, push_star,
};
pub use placing::new_alternatives;
