//! A forest whose heights are known.
ghost use Rattle.std.specs.Prelude.{◌≡◌, ◌↔◌, [], ◌∷◌, IsTrue, option_map, slice_get};
ghost use Rattle.ig_forest_tables.specs.Views.{item_node_view, node_view};
ghost use Rattle.ig_forest_tables.specs.Unfold.{IsTrim};
ghost use Rattle.ig_walker.specs.Options.{options};
ghost use Rattle.ig_walker.specs.Walks.{Opens};
ghost use Rattle.ig_walker.specs.declared.goal.Goal.TheVariants as goal;

use ig_forest::{Forest, ItemNode, Node};
use ig_heights::{Heights, depths_are_heights};
use std::marker::Model;

/// A forest with its heights. It shows the forest.
#[derive(Drop)]
pub struct Measured<'f> {
    pub forest: &'f Forest,
    pub heights: &'f Heights,
}

impl<'f> Model for Measured<'f> {
    ghost use Rattle.ig_forest_tables.specs.Forest as parts;
    ghost use Rattle.ig_heights.specs.Heights.{AreHeights};

    ghost Value = { parts.Forest };

    ghost view = { λ m. m.forest.now };

    ghost invariant = { λ m. AreHeights m.forest.now m.heights.now };
}

impl<'f> Measured<'f> {
    /// The number of the root's node.
    pub fn root(&self) -> u32
        ensures number { result ≡ self.now.root }
        ensures trim { IsTrim self.now }
    {
        self.forest.root()
    }

    /// A node by its number; `None` exactly where the number isn't there.
    pub fn node(&self, node: u32) -> Option<Node<'f>>
        ensures { option_map node_view result ≡ slice_get self.now.nodes node }
    {
        self.forest.node(node)
    }

    /// An item node by its number; `None` exactly where the number isn't there.
    pub fn item(&self, item: u32) -> Option<ItemNode<'f>>
        ensures { option_map item_node_view result ≡ slice_get self.now.items item }
    {
        self.forest.item(item)
    }

    /// Whether the node has a tree to that depth.
    pub fn node_opens(&self, node: u32, depth: u32) -> bool
        ensures { IsTrue result ↔ Opens (options self.now) (goal.Node node depth ∷ []) }
    {
        depths_are_heights();
        match self.heights.least(node) {
            Some(height) => height <= depth,
            None => false,
        }
    }

    /// Whether the item node has a list of trees to that depth.
    pub fn item_opens(&self, item: u32, depth: u32) -> bool
        ensures { IsTrue result ↔ Opens (options self.now) (goal.Item item depth ∷ []) }
    {
        depths_are_heights();
        match self.heights.least_of_item(item) {
            Some(height) => height <= depth,
            None => false,
        }
    }
}
