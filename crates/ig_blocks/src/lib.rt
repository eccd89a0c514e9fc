//! Blocks and alignment, as a pass from grammars to grammars with the same trees.
//!
//! `ig_blocks_parts` says what the pass is, and what it keeps; [`lower_blocks`] is exactly that,
//! and is refused for want of memory alone.
#![tactic(auto)]

mod lowering;
mod symbols;

pub use lowering::lower_blocks;
