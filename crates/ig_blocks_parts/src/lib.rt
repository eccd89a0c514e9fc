//! The parts of the pass for `offside`, `ignore` and `align`: what the pass is, by what it goes,
//! and what it makes of single forms.
//!
//! `specs/Blocks.antt` says what becomes of a grammar: these forms are gone, a syntax declaration
//! of a grammar with a block has two more parameters, and tests of columns stand before tokens and
//! before the items of aligned lists. The laws say that the pass changes no tree, and keeps a
//! grammar sound.
//!
//! [`guide_of`] gives the names that the pass adds, whether the grammar has an `offside`, and the
//! kinds of its declarations. A [`Pair`] is a column and a start; [`opened_by`], [`cleared_by`] and
//! [`inner_of`] lead to that further inside, and [`bindings_of`] binds it anew. [`tests_before`]
//! gives the guards before a symbol: that it stands inside the pair, and that an item of an aligned
//! list stands in its column. `forms.rt` has the symbol that stands for a call, a list, an option,
//! an entry or a symbol after its tests, from what stands for the symbols inside it. All is exactly
//! as `specs/Blocks.antt` says, of what `specs/ColumnCode.antt` reads a guide and a pair as, and
//! `specs/FormCode.antt` items. A call is refused for want of memory alone.
#![tactic(auto)]

mod forms;
mod guards;
mod guide;
mod laws;
mod marks;
mod pairs;

pub use forms::{
    behind_tests, both, called, entered_again, entered_by, item_of, optional, repeated, starred,
};
pub use guards::{behind, tests_before};
pub use guide::{Guide, guide_of, is_paired, is_root, kind_of};
pub use laws::{all_are_gathered, blocks_keep, blocks_multiply, pairs_tell_of_blocks};
pub use pairs::{
    Pair, bindings_of, cleared_by, column_of, inner_of, opened_by, push_pair, start_of,
};
