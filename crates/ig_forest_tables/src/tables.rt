//! A forest as tables, with readers that hand out borrowing views.
ghost use Rattle.std.specs.Prelude.{◌≡◌, length, option_map, slice_get};
ghost use Rattle.std.specs.Option.{option_copied};
ghost use Rattle.ig_forest_tables.specs.Tables.{FitsTables, forest_by};
ghost use Rattle.ig_forest_tables.specs.Views.{item_node_view, node_view};

use crate::item_table::ItemTable;
use crate::node_rows::NodeRows;
use crate::views::{ItemNode, Node};
use ig_item::EnvironmentTable;
use ig_text::{Span, Word, Words};
use std::marker::Model;

/// A forest in any order, of which nothing more is promised. Nodes and item nodes are numbered from
/// 0.
#[derive(Drop)]
pub struct ForestTables {
    root: u32,
    names: Words,
    lists: EnvironmentTable,
    nodes: NodeRows,
    items: ItemTable,
}

impl Model for ForestTables {
    ghost use Rattle.ig_forest_tables.specs.Forest as parts;
    ghost use Rattle.ig_forest_tables.specs.Tables.{forest_by, FitsTables};

    ghost Value = { parts.Forest };

    ghost view = { λ s. forest_by s.root s.names s.lists s.nodes s.items };

    ghost invariant = { λ s. FitsTables s.names s.lists s.nodes s.items };
}

impl ForestTables {
    /// The forest of these nodes and item nodes with that root. Their nonterminals are places in
    /// the names, and their values and environments are places in the lists. Takes no memory.
    pub fn of(
        root: u32,
        names: Words,
        lists: EnvironmentTable,
        nodes: NodeRows,
        items: ItemTable,
    ) -> ForestTables
        requires { FitsTables names lists nodes items }
        ensures { result ≡ forest_by root names lists nodes items }
    {
        ForestTables {
            root,
            names,
            lists,
            nodes,
            items,
        }
    }

    /// The number of the root's node. Takes no memory.
    pub fn root(&self) -> u32
        ensures { result ≡ self.now.root }
    {
        self.root
    }

    /// The number of nodes. Takes no memory.
    pub fn nodes(&self) -> u32
        ensures { result ≡ length self.now.nodes }
    {
        self.nodes.len() as u32
    }

    /// The number of item nodes. Takes no memory.
    pub fn items(&self) -> u32
        ensures { result ≡ length self.now.items }
    {
        self.items.len() as u32
    }

    /// A node by its number, from 0; `None` exactly where the number isn't there. Takes no memory.
    pub fn node(&self, k: u32) -> Option<Node<'_>>
        ensures { option_map node_view result ≡ slice_get self.now.nodes k }
    {
        let Some(stored) = self.nodes.get(k) else {
            return None;
        };
        let Some(name) = word_at(self.names.as_slice(), stored.row.nonterminal) else {
            unreachable!()
        };
        let Some(values) = self.lists.get(stored.row.values) else {
            unreachable!()
        };
        Some(Node {
            name,
            nonterminal: stored.row.nonterminal,
            values,
            span: Span {
                begin: stored.row.start,
                end: stored.row.end,
            },
            alternatives: stored.alternatives,
        })
    }

    /// An item node by its number, from 0; `None` exactly where the number isn't there. Takes no
    /// memory.
    pub fn item(&self, k: u32) -> Option<ItemNode<'_>>
        ensures { option_map item_node_view result ≡ slice_get self.now.items k }
    {
        let Some(stored) = self.items.get(k) else {
            return None;
        };
        let Some(name) = word_at(self.names.as_slice(), stored.row.nonterminal) else {
            unreachable!()
        };
        let Some(values) = self.lists.get(stored.row.values) else {
            unreachable!()
        };
        let Some(env) = self.lists.get(stored.row.env) else {
            unreachable!()
        };
        Some(ItemNode {
            name,
            nonterminal: stored.row.nonterminal,
            values,
            start: stored.row.start,
            alternative: stored.row.alternative,
            dot: stored.row.dot,
            env,
            position: stored.row.position,
            entries: stored.entries,
        })
    }
}

/// A word by its number.
fn word_at(words: &[Word], k: u32) -> Option<&Word>
    ensures { option_copied result ≡ slice_get words.now k }
{
    words.get(k as usize)
}
