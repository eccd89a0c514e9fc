//! Operator levels, as a pass from grammars to grammars with the same trees.
//!
//! `specs/Levels.antt` says what becomes of a levelled declaration: it has one level, two more
//! parameters, `.l` and `.r`, and each of its alternatives first tests its level against them;
//! calls hand the bounds of operands on. The laws say that the pass changes no tree, keeps a sound
//! grammar sound, and takes a bound n on its counts to 3 (n + 2). [`lower_levels`] is exactly that
//! pass.
//!
//! [`left_word`] and [`right_word`] are the names of the pair of bounds. [`levelled_names`] tells
//! of each name whether its declaration is levelled, as [`is_levelled`] says of one. [`bounds_at`]
//! gives what alternatives of a level ask and hand on; [`asks_left`] and [`asks_right`] tell which
//! bounds an alternative is tested against, and [`role_at`] what each of its symbols is to it.
//! [`with_bounds`] gives the symbol that stands for one in that role. `specs/Tables.antt` and
//! `specs/Roles.antt` say what a table, bounds and a role are read as. A call is refused for want
//! of memory alone; a number that 32 bits don't hold counts as that.
#![tactic(auto)]

mod laws;
mod lower;
mod naming;
mod operands;
mod symbols;

pub use laws::{bounds_ask_of_spines, levels_keep, levels_multiply};
pub use lower::lower_levels;
pub use naming::{is_levelled, left_word, levelled_names, right_word};
pub use operands::{Bounds, asks_left, asks_right, bounds_at, is_test, role_at};
pub use symbols::{Role, with_bounds};
