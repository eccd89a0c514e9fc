//! Nodes that are read off the complete items in order: the last one grows by an alternative at a
//! time. At the end the alternatives of each node are put in order.
ghost use Rattle.std.specs.Prelude.{◌≡◌, ◌≤◌, ◌-◌, [], ◌∷◌, ◌++◌, IfOk, OnOk, length};
ghost use Rattle.std.specs.Prelude.{option_map, slice_get, slice_range};
ghost use Rattle.ig_forest_tables.specs.StoredNodes.{begin_at, nodes_from, rows_in, with_choice};
ghost use Rattle.ig_forest_tables.specs.StoredNodes.{IsPutInOrder, RiseIn, stored_view};
ghost use Rattle.ig_text.specs.Pairwise.{Each};

use crate::choice_order::put_in_order;
use crate::entry::Choice;
use ig_item::number;
use std::alloc::{AllocError, Global};
use std::marker::Model;

/// A node: an instance, and where its trees end. Its values are a place in the same table.
#[derive(Clone, Copy, PartialEq, Eq)]
pub struct NodeRow {
    pub start: u32,
    pub end: u32,
    pub nonterminal: u32,
    pub values: u32,
}

/// A row, and where its alternatives begin in the vector of all alternatives.
#[derive(Clone, Copy)]
struct Begun {
    row: NodeRow,
    begin: u32,
}

/// Nodes, numbered from 0. The alternatives of the last one may still grow.
#[derive(Drop)]
pub struct NodeRows {
    begun: Vec<Begun>,
    choices: Vec<Choice>,
}

impl Model for NodeRows {
    ghost use Rattle.std.specs.Prelude.{List};
    ghost use Rattle.ig_forest_tables.specs.StoredNodes.{nodes_from, RiseIn, StoredNode};

    ghost Value = { List StoredNode };

    ghost view = { λ s. nodes_from s.choices.items s.begun.items };

    ghost invariant = { λ s. RiseIn s.choices.items s.begun.items };
}

/// A node that is borrowed.
#[derive(Clone, Copy)]
pub(crate) struct Stored<'t> {
    pub row: NodeRow,
    pub alternatives: &'t [Choice],
}

impl NodeRows {
    /// No nodes.
    pub fn new(alloc: Global) -> NodeRows
        ensures { result ≡ [] }
    {
        NodeRows {
            begun: Vec::new(alloc),
            choices: Vec::new(alloc),
        }
    }

    /// The number of nodes.
    pub fn len(&self) -> usize
        ensures { result ≡ length self.now }
    {
        self.begun.len()
    }

    /// The row of the last node; `None` exactly where there are no nodes.
    pub fn last_row(&self) -> Option<NodeRow>
        ensures { result ≡ slice_get (rows_in self.now) (length self.now - 1) }
    {
        let last = self.begun.len().saturating_sub(1);
        match begun_at(self.begun.as_slice(), last) {
            Some(node) => Some(node.row),
            None => None,
        }
    }

    /// The row of a node by its number, from 0; `None` exactly where the number isn't there. Takes
    /// no memory.
    pub fn row(&self, k: u32) -> Option<NodeRow>
        ensures { result ≡ slice_get (rows_in self.now) k }
    {
        match begun_at(self.begun.as_slice(), k as usize) {
            Some(node) => Some(node.row),
            None => None,
        }
    }

    /// A node by its number; `None` exactly where the number isn't there.
    pub(crate) fn get(&self, k: u32) -> Option<Stored<'_>>
        ensures { option_map stored_view result ≡ slice_get self.now k }
    {
        let k = k as usize;
        let Some(node) = begun_at(self.begun.as_slice(), k) else {
            return None;
        };
        let choices = self.choices.as_slice();
        let end = begin_of(self.begun.as_slice(), k + 1, choices.len());
        let alternatives = range_of(choices, node.begin as usize, end);
        Some(Stored {
            row: node.row,
            alternatives,
        })
    }

    /// Adds a node at the end, without alternatives. Refused for want of memory, and where there
    /// are 4,294,967,296 alternatives.
    pub fn push(&mut self, row: NodeRow) -> Result<(), AllocError>
        ensures { OnOk result
            (self.new ≡ self.old ++ record { row = row; alternatives = [] } ∷ []) }
    {
        let begin = number(self.choices.as_slice().len())?;
        self.begun.push(Begun { row, begin })?;
        Ok(())
    }

    /// Adds an alternative of the last node.
    pub fn push_choice(&mut self, choice: Choice) -> Result<(), AllocError>
        ensures { OnOk result (self.new ≡ with_choice self.old choice) }
    {
        self.choices.push(choice)?;
        Ok(())
    }

    /// Puts the alternatives of each node into order. Mostly they are in it, and nothing moves.
    pub fn put_in_order(&mut self)
        ensures { Each IsPutInOrder self.old self.new }
    {
        put_all_in_order(self.begun.as_slice(), self.choices.as_mut_slice());
    }
}

/// Puts the alternatives of each of these nodes into order.
fn put_all_in_order(begun: &[Begun], choices: &mut [Choice])
    requires { RiseIn choices.old begun.now }
    ensures rise { RiseIn choices.new begun.now }
    ensures nodes { Each IsPutInOrder (nodes_from choices.old begun.now)
        (nodes_from choices.new begun.now) }
{
    for k in 0..begun.len() {
        let begin = begun[k].begin as usize;
        let end = begin_of(begun, k + 1, choices.len());
        put_in_order(&mut choices[begin..end]);
    }
}

/// The node of that number, from 0.
fn begun_at(begun: &[Begun], k: usize) -> Option<Begun>
    ensures { result ≡ slice_get begun.now k }
{
    begun.get(k).copied()
}

/// Where the alternatives of the node of that number begin, or the end of all where it isn't there.
fn begin_of(begun: &[Begun], k: usize, all: usize) -> usize
    ensures { result ≡ begin_at all begun.now k }
{
    match begun_at(begun, k) {
        Some(node) => node.begin as usize,
        None => all,
    }
}

/// What stands from `begin` to before `end`.
fn range_of(choices: &[Choice], begin: usize, end: usize) -> &[Choice]
    requires onward { begin ≤ end }
    requires within { end ≤ length choices.now }
    ensures { result.now ≡ slice_range choices.now begin end }
{
    &choices[begin..end]
}
