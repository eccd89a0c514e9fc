//! How far a run came in a text, and what it expected there.
ghost use Rattle.std.specs.Prelude.{◌≡◌, ◌≤◌, IfOk, length};
ghost use Rattle.ig_item.specs.Tables.{items_of};
ghost use Rattle.ig_text.specs.Lines.{column_of, line_of};
ghost use Rattle.ig_query.specs.CodeReport.{AreReachable};
ghost use Rattle.ig_query.specs.Report.{IsReport};

use crate::dots::{dots_at, patterns_of};
use crate::furthest::{ends_at, furthest};
use ig_item::{Core, Items, behind_is_looked_up, items_are_in_text};
use ig_show_trees::Report;
use ig_text::Text;
use std::alloc::{AllocError, Global};

/// How far the items came in the text: the greatest position of one that stands before a terminal
/// or is a complete one of the root, and 0 where there is none; with the patterns of the terminals
/// before which items stand there, and whether a complete item of the root does. The items have to
/// be the reachable ones of the core grammar and the text. Refuses only for want of memory.
pub fn report(alloc: Global, items: &Items, core: &Core, text: &Text) -> Result<Report, AllocError>
    requires reachable { AreReachable core.now text.now (items_of items.now) }
    ensures { IfOk result (IsReport core.now text.now) }
{
    behind_is_looked_up();
    items_are_in_text();
    let position = furthest(core, items);
    let dots = dots_at(alloc, items, position)?;
    Ok(Report {
        position,
        line: line_of(text, position),
        column: column_of(text, position),
        expected: patterns_of(alloc, core, dots.as_slice())?,
        end: ends_at(core, items, position),
    })
}

/// The line of a position in the text.
fn line_of(text: &Text, position: u32) -> u32
    requires { position ≤ length text.now.characters }
    ensures { result ≡ line_of text.now position }
{
    match text.line(position) {
        Some(line) => line,
        None => unreachable!(),
    }
}

/// The column of a position in the text.
fn column_of(text: &Text, position: u32) -> u32
    requires { position ≤ length text.now.characters }
    ensures { result ≡ column_of text.now position }
{
    let _characters = text.len();
    match text.column(i64::from(position)) {
        Some(column) => column.unsigned_abs() as u32,
        None => unreachable!(),
    }
}
