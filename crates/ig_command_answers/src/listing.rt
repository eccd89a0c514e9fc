//! Listing the trees of a forest.
ghost use Rattle.std.specs.Prelude.{◌≡◌, ◌++◌, ℕ, IfOk, List, MatchOption, OnOk, Some};
ghost use Rattle.std.specs.Prelude.{string_bytes};
ghost use Rattle.std.specs.Option.{option_copied};
ghost use Rattle.ig_forest.specs.Cursors.{IsShortCursor};
ghost use Rattle.ig_forest.specs.Flat.{flat};
ghost use Rattle.ig_forest.specs.Tags.{TagsAreNamed};
ghost use Rattle.ig_forest_tables.specs.Unfold.{Unfold};
ghost use Rattle.ig_heights.specs.Heights.{AreHeights};
ghost use Rattle.ig_text.specs.Tree.{Tree};
ghost use Rattle.ig_command.specs.Commands.{stored_listing};
ghost use Rattle.ig_command_answers.specs.Lines.{line_text};
ghost use Rattle.ig_command_answers.specs.Pages.{IsDepthFor, IsPageText, IsPrintable, Lists};
ghost use Rattle.ig_command_answers.specs.Pages.{NeedsDepth};
ghost use Rattle.ig_command_answers.specs.Pages.{Starts};

use crate::fault::ListFault;
use ig_command::Listing;
use ig_forest::{Forest, Tree};
use ig_heights::Heights;
use ig_item::Core;
use ig_show_trees::{cursor_texts_differ, push_cursor, push_tree, read_cursor};
use ig_walker::{Walker, listings_grow};
use std::alloc::{AllocError, Global};

/// The text of a listing of the forest's trees, whose tags name nonterminals of the core grammar.
/// `DepthNeeded` comes exactly where no depth is given and the forest has no highest tree, else
/// `NoCursor` exactly where a word is given that is the text of no cursor of a tree up to the
/// depth, if memory doesn't run out before.
pub fn list(
    alloc: Global,
    core: &Core,
    forest: &Forest,
    listing: Listing<'_>,
) -> Result<Vec<u8>, ListFault>
    requires printable { IsPrintable core.now forest.now }
    ensures { Lists core.now forest.now (stored_listing listing.entry) result }
{
    let heights = Heights::of(alloc, forest)?;
    let Some(depth) = depth_for(forest, &heights, listing.depth) else {
        return Err(ListFault::DepthNeeded);
    };
    let mut walker = walker_at(alloc, forest, &heights, depth, listing.after)?;
    let text = list_trees(alloc, &mut walker, core, listing.count)?;
    Ok(text)
}

/// The depth to which the trees are listed: without one that of all trees, `None` exactly where
/// there is no highest one.
fn depth_for(forest: &Forest, heights: &Heights, depth: Option<u32>) -> Option<u32>
    requires heights { AreHeights forest.now heights.now }
    ensures { MatchOption result (NeedsDepth forest.now depth) (IsDepthFor forest.now depth) }
{
    match depth {
        Some(depth) => Some(depth),
        None => {
            if heights.is_cyclic() {
                None
            } else {
                Some(forest.nodes())
            }
        }
    }
}

/// The walker from the first tree on, or behind the one of which the word is the cursor's text.
fn walker_at<'f>(
    alloc: Global,
    forest: &'f Forest,
    heights: &'f Heights,
    depth: u32,
    after: Option<&str>,
) -> Result<Walker<'f>, ListFault>
    requires heights { AreHeights forest.now heights.now }
    requires short { (d : ℕ) (cs : List ℕ) (t : Tree) → Unfold forest.now d cs t →
        IsShortCursor cs }
    ensures { Starts forest.now depth (option_copied after.entry) result }
{
    cursor_texts_differ();
    let Some(word) = after else {
        return Ok(Walker::first(alloc, forest, heights, depth));
    };
    let cursor = read_cursor(alloc, word)?;
    numbers_are_short(cursor.as_slice());
    let walker = Walker::after(alloc, forest, heights, depth, &cursor)?;
    Ok(walker)
}

/// Numbers of 32 bits make a short cursor. This law computes nothing.
fn numbers_are_short(numbers: &[u32])
    ensures { IsShortCursor numbers.now }
{}

/// The lines of the next trees, so many at most.
fn list_trees(
    alloc: Global,
    walker: &mut Walker<'_>,
    core: &Core,
    count: u32,
) -> Result<Vec<u8>, AllocError>
    requires named { (d : ℕ) (cs : List ℕ) (t : Tree) → Unfold walker.old.forest d cs t →
        TagsAreNamed core.now (flat t) }
    ensures { IfOk result (λ text. IsPageText walker.old count core.now text.items) }
{
    listings_grow();
    let mut text = String::new(alloc);
    for _listed in 0..count {
        let Some(tree) = walker.next()? else {
            return Ok(text.into_bytes());
        };
        push_line(alloc, &mut text, walker, &tree, core)?;
    }
    Ok(text.into_bytes())
}

/// Adds the line of the tree that the walker gave last.
fn push_line(
    alloc: Global,
    text: &mut String,
    walker: &Walker<'_>,
    tree: &Tree,
    core: &Core,
) -> Result<(), AllocError>
    requires named { TagsAreNamed core.now tree.now }
    ensures { (cursor : List ℕ) (t : Tree) → walker.now.last ≡ Some cursor → tree.now ≡ flat t →
        OnOk result (string_bytes text.new ≡ string_bytes text.old
        ++ line_text core.now (record { cursor = cursor; tree = t })) }
{
    let Some(cursor) = walker.cursor()? else {
        return Ok(());
    };
    push_cursor(text, &cursor)?;
    text.push_str(" ")?;
    push_tree(alloc, text, tree, core)?;
    text.push_str("\n")
}
