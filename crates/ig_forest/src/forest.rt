//! The reduced forest: tables that are trim, how they are made, and readers that hand out borrowing
//! views.
ghost use Rattle.std.specs.Prelude.{◌≡◌, IfOk, MatchOption, length, option_map};
ghost use Rattle.std.specs.Prelude.{slice_get};
ghost use Rattle.ig_item.specs.Items.{RootIsComplete};
ghost use Rattle.ig_forest.specs.Reduced.{IsReduced};
ghost use Rattle.ig_forest_tables.specs.Unfold.{IsTrim};
ghost use Rattle.ig_forest_tables.specs.Views.{item_node_view, node_view};

use crate::builder::from_recorded;
use ig_forest_live::first_root;
use ig_forest_tables::{ForestTables, ItemNode, Node};
use ig_item::Recorded;
use std::alloc::{AllocError, Global};
use std::marker::Model;

/// The reduced forest of a core grammar and a text. Nodes and item nodes are numbered from 0.
#[derive(Drop)]
pub struct Forest {
    tables: ForestTables,
}

impl Model for Forest {
    ghost use Rattle.ig_forest_tables.specs.Forest as parts;
    ghost use Rattle.ig_forest_tables.specs.Unfold.{IsTrim};

    ghost Value = { parts.Forest };

    ghost view = { λ s. s.tables };

    ghost invariant = { λ s. IsTrim s.tables };
}

impl Forest {
    /// The reduced forest of what was recorded. `None` exactly where no complete item of the root
    /// over the whole text is reachable.
    pub fn of_recorded(alloc: Global, recorded: &Recorded) -> Result<Option<Forest>, AllocError>
        ensures { IfOk result (λ forest. MatchOption forest
            (RootIsComplete recorded.now.core recorded.now.text → ⊥)
            (IsReduced recorded.now.core recorded.now.text)) }
    {
        let Some(root) = first_root(recorded) else {
            return Ok(None);
        };
        let forest = from_recorded(alloc, recorded, root)?;
        Ok(Some(forest))
    }

    /// The forest of these tables, which are trim. Takes no memory.
    pub(crate) fn of(tables: ForestTables) -> Forest
        requires { IsTrim tables }
        ensures { result ≡ tables }
    {
        Forest { tables }
    }

    /// The tables. Takes no memory.
    pub fn tables(&self) -> &ForestTables
        ensures { result.now ≡ self.now }
    {
        &self.tables
    }

    /// The number of the root's node. Takes no memory.
    pub fn root(&self) -> u32
        ensures number { result ≡ self.now.root }
        ensures trim { IsTrim self.now }
    {
        self.tables.root()
    }

    /// The number of nodes. Takes no memory.
    pub fn nodes(&self) -> u32
        ensures { result ≡ length self.now.nodes }
    {
        self.tables.nodes()
    }

    /// The number of item nodes. Takes no memory.
    pub fn items(&self) -> u32
        ensures { result ≡ length self.now.items }
    {
        self.tables.items()
    }

    /// A node by its number, from 0; `None` exactly where the number isn't there. Takes no memory.
    pub fn node(&self, k: u32) -> Option<Node<'_>>
        ensures { option_map node_view result ≡ slice_get self.now.nodes k }
    {
        self.tables.node(k)
    }

    /// An item node by its number, from 0; `None` exactly where the number isn't there. Takes no
    /// memory.
    pub fn item(&self, k: u32) -> Option<ItemNode<'_>>
        ensures { option_map item_node_view result ≡ slice_get self.now.items k }
    {
        self.tables.item(k)
    }
}
