//! The dots of a core grammar, counted before it is built, without memory.
ghost use Rattle.std.specs.Prelude.{◌≡◌, ◌+◌, ◌≤◌, None, sum_by, length};
ghost use Rattle.std.specs.Bool.{Decides};
ghost use Rattle.ig_grammar.specs.Numbering.{layout_among};
ghost use Rattle.ig_item.specs.Core.{dots};
ghost use Rattle.ig_item.specs.Limits.{most_dots};
ghost use Rattle.ig_core.specs.CoreOf.{unrooted, call_of, root_of, core_of};
ghost use Rattle.ig_core.specs.Dots.{alt_dots, level_dots, decl_dots, row_dots, row, IsCount};

use crate::roots::{find_root, is_root};
use ig_grammar::{Alt, Checked, Decl, Level, Shape};
use ig_item::MOST_DOTS;
use ig_text::Word;

/// The dots and those of the alternatives; `None` exactly where they are more than `MOST_DOTS`.
fn add_dots(before: usize, alts: &[Alt]) -> Option<usize>
    requires { before ≤ most_dots }
    ensures { IsCount result (before + sum_by alt_dots alts.now) }
{
    let mut dots = before;
    for alt in alts {
        let symbols = alt.symbols.as_slice().len();
        if symbols >= MOST_DOTS as usize - dots {
            return None;
        }
        dots += symbols + 1;
    }
    Some(dots)
}

/// The dots and those of the levels; `None` exactly where they are more than `MOST_DOTS`.
pub(crate) fn add_level_dots(before: usize, levels: &[Level]) -> Option<usize>
    requires { before ≤ most_dots }
    ensures { IsCount result (before + sum_by level_dots levels.now) }
{
    let mut dots = before;
    for level in levels {
        match add_dots(dots, level.alts.as_slice()) {
            Some(more) => dots = more,
            None => return None,
        }
    }
    Some(dots)
}

/// The dots and those of a declaration, unless it stands for the root.
fn add_row(before: usize, decl: &Decl, shape: Shape) -> Option<usize>
    requires { before ≤ most_dots }
    ensures { IsCount result (before + sum_by row_dots (row decl.now shape)) }
{
    if is_root(shape) {
        return Some(before);
    }
    add_level_dots(before, decl.levels.as_slice())
}

/// The dots and those of the declarations that don't stand for the root; `None` exactly where they
/// are more than `MOST_DOTS`.
fn add_rows(before: usize, decls: &[Decl], checked: &Checked) -> Option<usize>
    requires few { before ≤ most_dots }
    requires beside { length checked.now.shapes ≡ length decls.now }
    ensures { IsCount result (before + sum_by row_dots (unrooted decls.now checked.now.shapes)) }
{
    let mut dots = before;
    for (index, decl) in decls.iter().enumerate() {
        match add_row(dots, decl, checked.shape_behind(index)) {
            Some(more) => dots = more,
            None => return None,
        }
    }
    Some(dots)
}

/// The dots of a root that calls the start.
fn made_dots(start: &Option<Word>) -> usize
    ensures { result ≡ length (call_of start.now) + 1 }
{
    match start {
        Some(_) => 2,
        None => 1,
    }
}

/// The dots of the root; `None` exactly where they are more than `MOST_DOTS`.
fn root_dots(checked: &Checked) -> Option<usize>
    requires no_layout { layout_among checked.now.grammar.decls ≡ None }
    ensures { IsCount result (decl_dots (root_of checked.now.grammar checked.now.shapes)) }
{
    let grammar = checked.grammar();
    match find_root(grammar.decls.as_slice(), checked) {
        Some(decl) => add_level_dots(0, decl.levels.as_slice()),
        None => Some(made_dots(&grammar.start)),
    }
}

/// Whether the core grammar has at most `MOST_DOTS` dots.
pub(crate) fn has_few_dots(checked: &Checked) -> bool
    requires no_layout { layout_among checked.now.grammar.decls ≡ None }
    ensures { Decides result (dots (core_of checked.now.grammar checked.now.shapes) ≤ most_dots) }
{
    match root_dots(checked) {
        Some(dots) => add_rows(dots, checked.grammar().decls.as_slice(), checked).is_some(),
        None => false,
    }
}
