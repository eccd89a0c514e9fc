//! The tree of a walk, and its cursor.
ghost use Rattle.std.specs.Prelude.{◌≡◌, ◌≤◌, ◌+◌, [], ◌++◌, IfOk, OnErr, OnOk, nat_lt};
ghost use Rattle.std.specs.Prelude.{slice_get, vec_items};
ghost use Rattle.ig_text.specs.Limits.{numbers_end};
ghost use Rattle.ig_forest_tables.specs.Unfold.{noted};
ghost use Rattle.ig_walker.specs.Options.{options};
ghost use Rattle.ig_walker.specs.Written.{bump_last, by_choice, by_entry, emits, written};
ghost use Rattle.ig_walker.specs.Walks.{cursor};

use crate::goal::{Goal, Visit};
use crate::measured::Measured;
use crate::options::{count_options, entries_of};
use ig_forest::{Cursor, Entry, Part, Tree};
use ig_text::Sequence;
use std::alloc::{AllocError, Global};

/// One more than so many children. Refused, as want of memory, exactly where 32 bits don't hold it.
fn one_more(children: u32) -> Result<u32, AllocError>
    ensures number { IfOk result (λ more. more ≡ children + 1) }
    ensures refused { OnErr result (numbers_end ≤ children + 1) }
{
    match children.checked_add(1) {
        Some(more) => Ok(more),
        None => Err(AllocError),
    }
}

/// One more child of the last part. Refused also where `one_more` refuses the number of its
/// children.
fn add_child(parts: &mut Vec<Part>) -> Result<(), AllocError>
    ensures { OnOk result (vec_items parts.new ≡ bump_last (vec_items parts.old)) }
{
    let Some(part) = parts.pop() else {
        return Ok(());
    };
    let children = one_more(part.children)?;
    parts.push(Part {
        tag: part.tag,
        span: part.span,
        children,
    })?;
    Ok(())
}

/// What the visit of an item by an entry adds to the parts: where it takes a child, the last part,
/// whose node is being visited, has one more.
fn write_entry(parts: &mut Vec<Part>, entries: &[Entry], number: usize) -> Result<(), AllocError>
    ensures { OnOk result (vec_items parts.new ≡
        by_entry (slice_get entries.now number) (vec_items parts.old)) }
{
    match entries.get(number) {
        Some(Entry::Take { prev: _, child: _ }) => add_child(parts),
        _ => Ok(()),
    }
}

/// What the visit of a node by an alternative adds to the parts: a part with no child yet.
fn write_node(
    parts: &mut Vec<Part>,
    forest: &Measured,
    node: u32,
    number: usize,
) -> Result<(), AllocError>
    ensures { OnOk result (vec_items parts.new ≡
        by_choice (slice_get forest.now.nodes node) number (vec_items parts.old)) }
{
    let Some(found) = forest.node(node) else {
        return Ok(());
    };
    let Some(choice) = found.alternatives.get(number) else {
        return Ok(());
    };
    parts.push(Part {
        tag: Some(choice.tag),
        span: found.span,
        children: 0,
    })?;
    Ok(())
}

/// What a visit adds to the parts.
fn write(parts: &mut Vec<Part>, forest: &Measured, visit: Visit) -> Result<(), AllocError>
    ensures { OnOk result (vec_items parts.new ≡
        written forest.now visit.goal visit.choice (vec_items parts.old)) }
{
    match visit.goal {
        Goal::Node { node, depth: _ } => write_node(parts, forest, node, visit.choice as usize),
        Goal::Item { item, depth: _ } => {
            write_entry(parts, entries_of(forest, item), visit.choice as usize)
        }
        Goal::Leaf(span) => {
            parts.push(Part {
                tag: None,
                span,
                children: 0,
            })?;
            Ok(())
        }
    }
}

/// The tree of a walk.
pub fn tree_of(alloc: Global, forest: &Measured, visits: &[Visit]) -> Result<Tree, AllocError>
    ensures { IfOk result (λ tree. tree ≡ emits forest.now [] visits.now) }
{
    let mut parts = Vec::new(alloc);
    for visit in visits {
        write(&mut parts, forest, *visit)?;
    }
    Ok(Sequence::from_vec(parts))
}

/// Whether these are two options or more.
fn is_choice(count: usize) -> bool
    ensures { result ≡ nat_lt 1 count }
{
    1 < count
}

/// Adds the number of the option, where there are two or more.
fn note_choice(numbers: &mut Vec<u32>, count: usize, choice: u32) -> Result<(), AllocError>
    ensures { OnOk result (vec_items numbers.new ≡ vec_items numbers.old ++ noted count choice) }
{
    if is_choice(count) {
        numbers.push(choice)?;
    }
    Ok(())
}

/// The cursor of a walk.
pub fn cursor_of(alloc: Global, forest: &Measured, visits: &[Visit]) -> Result<Cursor, AllocError>
    ensures { IfOk result (λ told. told ≡ cursor (options forest.now) visits.now) }
{
    let mut numbers = Vec::new(alloc);
    for visit in visits {
        let count = count_options(forest, visit.goal);
        note_choice(&mut numbers, count, visit.choice)?;
    }
    Ok(Sequence::from_vec(numbers))
}
