//! The heights of a forest.
ghost use Rattle.std.specs.Prelude.{◌≡◌, ◌↔◌, ◌<◌, ◌≤◌, ◌+◌, ℕ, IfOk, IsTrue, length, slice_get};
ghost use Rattle.ig_text.specs.Limits.{numbers_end};
ghost use Rattle.ig_heights.specs.Heights.{AreHeights};
ghost use Rattle.ig_heights.specs.Rules.{IsPart, height_at};

use crate::least_rules::least_rules;
use crate::whole_rules::whole_rules;
use crate::work::least_heights;
use ig_forest::{Forest, trim_forest_has_trees};
use std::alloc::{AllocError, Global};
use std::marker::Model;

/// The least heights of the nodes and of the item nodes of a forest, by number, and whether its
/// root has a tree above each height.
#[derive(Drop)]
pub struct Heights {
    nodes: Vec<u32>,
    items: Vec<u32>,
    cyclic: bool,
}

impl Model for Heights {
    ghost use Rattle.ig_heights.specs.Heights as parts;

    ghost Value = { parts.Heights };

    ghost view = { λ s.
        record { nodes = s.nodes.items; items = s.items.items; cyclic = s.cyclic } };
}

impl Heights {
    /// The heights of the forest.
    pub fn of(alloc: Global, forest: &Forest) -> Result<Heights, AllocError>
        ensures { IfOk result (AreHeights forest.now) }
    {
        trim_forest_has_trees();
        let root = forest.root();
        let least = least_rules(alloc, forest)?;
        let count = least.nodes;
        let least_table = least_heights(alloc, &least)?;
        let low = least_table.as_slice();
        let nodes = part_of(alloc, low, 0, forest.nodes())?;
        let items = part_of(alloc, low, count, forest.items())?;
        // A table is let go as soon as it is not wanted, before the next one grows.
        drop(least_table);
        let whole = whole_rules(alloc, &least)?;
        drop(least);
        let whole_table = least_heights(alloc, &whole)?;
        let cyclic = is_above(whole_table.as_slice(), root, count);
        Ok(Heights {
            nodes,
            items,
            cyclic,
        })
    }

    /// The least height of the trees of a node; `None` exactly where the number isn't there. Takes
    /// no memory.
    pub fn least(&self, node: u32) -> Option<u32>
        ensures { result ≡ slice_get self.now.nodes node }
    {
        number_at(self.nodes.as_slice(), node)
    }

    /// The least height of the lists of trees of an item node; `None` exactly where the number
    /// isn't there. Takes no memory.
    pub fn least_of_item(&self, item: u32) -> Option<u32>
        ensures { result ≡ slice_get self.now.items item }
    {
        number_at(self.items.as_slice(), item)
    }

    /// Whether for each number the root has a higher tree. Takes no memory.
    pub fn is_cyclic(&self) -> bool
        ensures { result ≡ self.now.cyclic }
    {
        self.cyclic
    }
}

/// A number of a list.
fn number_at(numbers: &[u32], k: u32) -> Option<u32>
    ensures { result ≡ slice_get numbers.now k }
{
    numbers.get(k as usize).copied()
}

/// So many heights from a part on.
fn part_of(
    alloc: Global,
    heights: &[usize],
    from: usize,
    count: u32,
) -> Result<Vec<u32>, AllocError>
    requires from { from < numbers_end }
    requires there { from + count ≤ length heights.now }
    requires small { (k : ℕ) → k < count → height_at heights.now (from + k) < numbers_end }
    ensures { IfOk result (λ list. IsPart heights.now from count list.items) }
{
    let mut list = Vec::with_capacity(alloc, count as usize)?;
    for k in 0..count {
        list.push(heights[from + k as usize] as u32)?;
    }
    Ok(list)
}

/// Whether the height of the part is above the number.
fn is_above(heights: &[usize], part: u32, number: usize) -> bool
    ensures { IsTrue result ↔ (number < height_at heights.now part) }
{
    match heights.get(part as usize) {
        Some(height) => *height > number,
        None => false,
    }
}
