//! Drafts: forests that somebody wrote down.
ghost use Rattle.std.specs.Prelude.{◌≡◌, length, option_map, slice_get};
ghost use Rattle.ig_forest_tables.specs.Views.{item_node_view, node_view};
ghost use Rattle.ig_verify.specs.Sound.{IsDraft};

use ig_forest_tables::{ForestTables, ItemNode, Node};
use std::marker::Model;

/// A forest in any order, which may have dead parts. The environment of each item begins with the
/// item's values. Nodes and items are numbered from 0.
#[derive(Drop)]
pub struct Draft {
    tables: ForestTables,
}

impl Model for Draft {
    ghost use Rattle.ig_forest_tables.specs.Forest as parts;
    ghost use Rattle.ig_verify.specs.Sound.{IsDraft};

    ghost Value = { parts.Forest };

    ghost view = { λ s. s.tables };

    ghost invariant = { λ s. IsDraft s.tables };
}

impl Draft {
    /// The draft of these tables. Takes no memory.
    pub fn of(tables: ForestTables) -> Draft
        requires { IsDraft tables }
        ensures { result ≡ tables }
    {
        Draft { tables }
    }

    /// The tables. Takes no memory.
    pub fn tables(&self) -> &ForestTables
        ensures { result.now ≡ self.now }
    {
        &self.tables
    }

    /// The number of the root's node. Takes no memory.
    pub fn root(&self) -> u32
        ensures number { result ≡ self.now.root }
        ensures draft { IsDraft self.now }
    {
        self.tables.root()
    }

    /// The number of nodes. Takes no memory.
    pub fn nodes(&self) -> u32
        ensures { result ≡ length self.now.nodes }
    {
        self.tables.nodes()
    }

    /// The number of items. Takes no memory.
    pub fn items(&self) -> u32
        ensures { result ≡ length self.now.items }
    {
        self.tables.items()
    }

    /// A node by its number, from 0; `None` exactly where the number isn't there. Takes no memory.
    pub fn node(&self, k: u32) -> Option<Node<'_>>
        ensures { option_map node_view result ≡ slice_get self.now.nodes k }
    {
        self.tables.node(k)
    }

    /// An item by its number, from 0; `None` exactly where the number isn't there. Takes no memory.
    pub fn item(&self, k: u32) -> Option<ItemNode<'_>>
        ensures { option_map item_node_view result ≡ slice_get self.now.items k }
    {
        self.tables.item(k)
    }
}
