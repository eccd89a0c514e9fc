//! The texts of trees and cursors, of reports and of the answers of queries; and reading a cursor.
//!
//! [`show_tree`] and [`show_cursor`] (`specs/TreeText.antt`), [`show_report`] (`ReportText.antt`)
//! and the texts of queries (`QueryText.antt`) write stated functions of what they get, of the
//! pieces of `ig_show_texts`, and are refused for want of memory alone. [`read_cursor`] reads the
//! text of a cursor and refuses every other one; that two cursors have different texts,
//! [`cursor_texts_differ`] says.
#![tactic(auto)]

mod cursor_text;
mod laws;
mod query_text;
mod report;
mod tree_text;

pub use cursor_text::{CursorFault, push_cursor, read_cursor, show_cursor};
pub use laws::cursor_texts_differ;
pub use query_text::{show_ambiguous, show_cyclic, show_furthest, show_spans};
pub use report::{Report, show_report};
pub use tree_text::{push_tree, show_tree};
