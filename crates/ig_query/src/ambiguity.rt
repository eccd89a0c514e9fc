//! Ambiguous nodes.
ghost use Rattle.std.specs.Prelude.{◌≡◌, ◌<◌, ◌↔◌, IfOk, IsTrue, Some, length, slice_get, true};
ghost use Rattle.ig_forest_tables.specs.Unfold.{IsTrim};
ghost use Rattle.ig_query.specs.Ambiguity.{AreAmbiguous, IsAmbiguous, link};
ghost use Rattle.ig_query.specs.CodeAmbiguity.{AreMarks, AreNumbers, HasChoice, HasFork};
ghost use Rattle.ig_query.specs.CodeAmbiguity.{IsMarked, LeadsToMark, LinksToMark};

use ig_forest::{Choice, Entry, Forest};
use ig_text::Sequence;
use std::alloc::{AllocError, Global};

/// A list of numbers.
pub type Numbers = Sequence<u32>;

/// The numbers of the nodes that have two alternatives, or whose alternative leads along previous
/// items to an item node with two entries, in order. Each item node is looked at once. Refuses only
/// for want of memory.
pub fn ambiguous_nodes(alloc: Global, forest: &Forest) -> Result<Numbers, AllocError>
    ensures { IfOk result (AreAmbiguous forest.now) }
{
    let _root = forest.root();
    let marks = marks_of(alloc, forest)?;
    let numbers = numbers_of(alloc, forest, marks.as_slice())?;
    Ok(Numbers::from_vec(numbers))
}

/// Whether some node is ambiguous. Takes no memory.
pub fn is_ambiguous(forest: &Forest) -> bool
    ensures { IsTrue result ↔ IsAmbiguous forest.now }
{
    let _root = forest.root();
    has_choice(forest) || has_fork(forest)
}

/// For each item node whether links lead from it to one with two entries.
fn marks_of(alloc: Global, forest: &Forest) -> Result<Vec<bool>, AllocError>
    requires { IsTrim forest.now }
    ensures { IfOk result (λ marks. AreMarks forest.now (length forest.now.items) marks.items) }
{
    let mut marks = Vec::new(alloc);
    for number in 0..forest.items() {
        let Some(item) = forest.item(number) else {
            unreachable!()
        };
        let mark = links_to_mark(item.entries, marks.as_slice());
        marks.push(mark)?;
    }
    Ok(marks)
}

/// Whether there are two entries, or one that links to an item node with a mark.
fn links_to_mark(entries: &[Entry], marks: &[bool]) -> bool
    ensures { IsTrue result ↔ LinksToMark entries.now marks.now }
{
    if entries.len() > 1 {
        return true;
    }
    match entries.first() {
        Some(entry) => is_marked(link(*entry), marks),
        None => false,
    }
}

/// The previous item node of an entry.
fn link(entry: Entry) -> Option<u32>
    ensures { result ≡ link entry }
{
    match entry {
        Entry::Begin => None,
        Entry::Pass { prev } => Some(prev),
        Entry::Take { prev, .. } => Some(prev),
    }
}

/// Whether the item node of that number is there and has a mark.
fn is_marked(number: Option<u32>, marks: &[bool]) -> bool
    ensures { IsTrue result ↔ IsMarked number marks.now }
{
    match number {
        Some(number) => mark_at(marks, number),
        None => false,
    }
}

/// The mark of that number; none is no mark.
fn mark_at(marks: &[bool], number: u32) -> bool
    ensures { IsTrue result ↔ (slice_get marks.now number ≡ Some true) }
{
    match marks.get(number as usize) {
        Some(mark) => *mark,
        None => false,
    }
}

/// The ambiguous nodes, where the item nodes have these marks.
fn numbers_of(alloc: Global, forest: &Forest, marks: &[bool]) -> Result<Vec<u32>, AllocError>
    ensures { IfOk result (λ numbers.
        AreNumbers forest.now marks.now (length forest.now.nodes) numbers.items) }
{
    let mut numbers = Vec::new(alloc);
    for number in 0..forest.nodes() {
        let Some(node) = forest.node(number) else {
            unreachable!()
        };
        if leads_to_mark(node.alternatives, marks) {
            numbers.push(number)?;
        }
    }
    Ok(numbers)
}

/// Whether there are two alternatives, or one whose item node has a mark.
fn leads_to_mark(alternatives: &[Choice], marks: &[bool]) -> bool
    ensures { IsTrue result ↔ LeadsToMark alternatives.now marks.now }
{
    if are_several(alternatives) {
        return true;
    }
    match alternatives.first() {
        Some(choice) => mark_at(marks, choice.item),
        None => false,
    }
}

/// Whether there are two alternatives.
fn are_several(alternatives: &[Choice]) -> bool
    ensures { IsTrue result ↔ (1 < length alternatives.now) }
{
    alternatives.len() > 1
}

/// Whether some node has two alternatives.
fn has_choice(forest: &Forest) -> bool
    ensures { IsTrue result ↔ HasChoice forest.now }
{
    for number in 0..forest.nodes() {
        let Some(node) = forest.node(number) else {
            unreachable!()
        };
        if node.alternatives.len() > 1 {
            return true;
        }
    }
    false
}

/// Whether some item node has two entries.
fn has_fork(forest: &Forest) -> bool
    ensures { IsTrue result ↔ HasFork forest.now }
{
    for number in 0..forest.items() {
        let Some(item) = forest.item(number) else {
            unreachable!()
        };
        if item.entries.len() > 1 {
            return true;
        }
    }
    false
}
