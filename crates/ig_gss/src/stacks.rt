//! The nodes of a run, which are shared by all that wait for them.
ghost use Rattle.std.specs.Prelude.{◌≡◌, ◌<◌, [], length, map, reverse, slice_get, true, false};
ghost use Rattle.std.specs.Prelude.{Contains, IfNone, IfOk, IfSome, OnErr, OnOk};
ghost use Rattle.ig_gss.specs.Nodes.{AreOnce, FindsNode, MakesNode, edges_at, keys_of, pops_at};
ghost use Rattle.ig_gss.specs.Nodes.{ended, ends_at, items_at, with_edge, with_pop};

use crate::chains::{Chains, Walk};
use crate::marks::{Edge, Pop};
use crate::places::{Place, done_at, make_ready};
use crate::tops::Tops;
use ig_item::InstanceKey;
use ig_run_tables::InstanceSet;
use indexmap::IndexMap;
use std::alloc::{AllocError, Global};
use std::marker::Model;

/// Nodes by number, from 0, each with the instance for which it stands, with who waits for it and
/// with where it ended. No instance has two nodes; no item waits twice for a node, and none ended
/// twice at one position.
///
/// Where the ends of a node rise, its last pop tells whether it ended somewhere before. Once it is
/// asked for an end below that one, its pops are entered into a table, as are its later ones.
#[derive(Drop)]
pub struct Stacks {
    keys: InstanceSet,
    tops: Vec<Tops>,
    edges: Chains<Edge>,
    pops: Chains<Pop>,
    ends: IndexMap<Place, u32>,
}

impl Model for Stacks {
    ghost use Rattle.std.specs.Prelude.{List};
    ghost use Rattle.ig_gss.specs.Nodes.{Node};
    ghost use Rattle.ig_gss.specs.Views.{AreStacks, node_by, nodes_with};

    ghost Value = { List Node };

    ghost view = { λ s. nodes_with (node_by s.edges s.pops) s.keys s.tops.items };

    ghost invariant = { λ s. AreStacks s.keys s.tops.items s.edges s.pops s.ends.entries };
}

impl Stacks {
    /// No nodes. Takes no memory.
    pub fn new(alloc: Global) -> Stacks
        ensures { result ≡ [] }
    {
        Stacks {
            keys: InstanceSet::new(alloc),
            tops: Vec::new(alloc),
            edges: Chains::new(alloc),
            pops: Chains::new(alloc),
            ends: IndexMap::new(alloc),
        }
    }

    /// Nothing stands twice in the nodes. This law computes nothing.
    pub fn once(&self)
        ensures { AreOnce self.now }
    {
        let _nodes = self.tops.len();
    }

    /// The node of an instance, and whether it is new; then it stands at the end. Refused for want
    /// of memory, or of a number of 32 bits, the nodes are as before.
    #[inline]
    pub fn node(&mut self, key: InstanceKey) -> Result<(u32, bool), AllocError>
        ensures found { IfOk result (λ r. r.1 ≡ false → FindsNode self.old self.new key r.0) }
        ensures made { IfOk result (λ r. r.1 ≡ true → MakesNode self.old self.new key r.0) }
        ensures there { IfOk result (λ r. slice_get (keys_of self.new) r.0 ≡ Some key) }
        ensures refused { OnErr result (self.new ≡ self.old) }
    {
        self.tops.reserve(1)?;
        let (node, is_new) = self.keys.enter(key)?;
        if is_new {
            self.tops.push(Tops::none())?;
            return Ok((node, true));
        }
        Ok((node, false))
    }

    /// The number of nodes. Takes no memory.
    pub fn len(&self) -> usize
        ensures { result ≡ length self.now }
    {
        self.keys().len()
    }

    /// The instance of a node by its number; `None` exactly where there is no such node. Takes no
    /// memory.
    #[inline(always)]
    pub fn key(&self, node: u32) -> Option<InstanceKey>
        ensures { result ≡ slice_get (keys_of self.now) node }
    {
        self.keys().get(node as usize).copied()
    }

    /// The instances of all nodes, by their numbers. Takes no memory.
    #[inline(always)]
    pub fn keys(&self) -> &[InstanceKey]
        ensures { result.now ≡ keys_of self.now }
    {
        self.keys.as_slice()
    }

    /// The instances of all nodes, by their numbers. Takes no memory, and isn't refused.
    pub fn into_keys(self) -> Result<Vec<InstanceKey>, AllocError>
        ensures { IfOk result (λ keys. keys.items ≡ keys_of self) }
    {
        Ok(self.keys.into_vec())
    }

    /// Adds an edge at the end of those of a node, which has to be there, as its item has not.
    /// Refused for want of memory, or of a number of 32 bits, the nodes are as before.
    #[inline]
    pub fn add_edge(&mut self, node: u32, edge: Edge) -> Result<(), AllocError>
        requires node { node < length self.old }
        requires is_new { Contains (items_at self.old node) edge.item → ⊥ }
        ensures ok { OnOk result (self.new ≡ with_edge self.old node edge) }
        ensures refused { OnErr result (self.new ≡ self.old) }
    {
        let at = node as usize;
        let place = self.edges.add(edge, self.tops[at].edge)?;
        self.tops[at].edge = place;
        Ok(())
    }

    /// The number of the complete item that was taken first where the node, which has to be there,
    /// ended at `end`; `None` exactly where it didn't end there before. The nodes stay. Refused for
    /// want of memory alone, which is taken where an end lies below an earlier one.
    #[inline]
    pub fn pop_at(&mut self, node: u32, end: u32) -> Result<Option<u32>, AllocError>
        requires { node < length self.old }
        ensures some { IfOk result (λ r. IfSome r (λ done.
            Contains (pops_at self.old node) (ended end done))) }
        ensures none { IfOk result (λ r. IfNone r (Contains (ends_at self.old node) end → ⊥)) }
        ensures same { self.new ≡ self.old }
    {
        let at = node as usize;
        let tops = self.tops[at];
        let last = self.pops.last(tops.pop);
        let Some(pop) = last else {
            return Ok(None);
        };
        if pop.end == end {
            return Ok(Some(pop.done));
        }
        if tops.rise(last, end) {
            return Ok(None);
        }
        self.pop_in_table(node, end)
    }

    /// The same by the table of ends, into which the pops of the node are entered before. A
    /// function of its own, so that the way that is mostly gone saves no registers.
    #[inline(never)]
    fn pop_in_table(&mut self, node: u32, end: u32) -> Result<Option<u32>, AllocError>
        requires { node < length self.old }
        ensures some { IfOk result (λ r. IfSome r (λ done.
            Contains (pops_at self.old node) (ended end done))) }
        ensures none { IfOk result (λ r. IfNone r (Contains (ends_at self.old node) end → ⊥)) }
        ensures same { self.new ≡ self.old }
    {
        let at = node as usize;
        let tops = self.tops[at];
        let pops = self.pops.walk(tops.pop);
        make_ready(&mut self.ends, node, pops, tops.is_indexed)?;
        self.tops[at].is_indexed = true;
        Ok(done_at(&self.ends, node, end))
    }

    /// Adds a pop at the end of those of a node, which has to be there, as it has not ended at that
    /// position. Refused for want of memory, or of a number of 32 bits, the nodes are as before.
    #[inline]
    pub fn add_pop(&mut self, node: u32, pop: Pop) -> Result<(), AllocError>
        requires node { node < length self.old }
        requires is_new { Contains (ends_at self.old node) pop.end → ⊥ }
        ensures ok { OnOk result (self.new ≡ with_pop self.old node pop) }
        ensures refused { OnErr result (self.new ≡ self.old) }
    {
        let at = node as usize;
        let tops = self.tops[at];
        if tops.rise(self.pops.last(tops.pop), pop.end) {
            let highest = self.pops.add(pop, tops.pop)?;
            self.tops[at].pop = highest;
            return Ok(());
        }
        self.add_to_table(node, pop)
    }

    /// The same, and it enters the pops of the node into the table of ends.
    #[inline(never)]
    fn add_to_table(&mut self, node: u32, pop: Pop) -> Result<(), AllocError>
        requires node { node < length self.old }
        requires is_new { Contains (ends_at self.old node) pop.end → ⊥ }
        ensures ok { OnOk result (self.new ≡ with_pop self.old node pop) }
        ensures refused { OnErr result (self.new ≡ self.old) }
    {
        let at = node as usize;
        let tops = self.tops[at];
        let pops = self.pops.walk(tops.pop);
        make_ready(&mut self.ends, node, pops, tops.is_indexed)?;
        let place = self.pops.add(pop, tops.pop)?;
        self.tops[at] = Tops {
            edge: tops.edge,
            pop: place,
            is_indexed: true,
        };
        let new_place = Place { node, end: pop.end };
        self.ends.insert(new_place, pop.done)?;
        Ok(())
    }

    /// Walks the edges of a node, which has to be there, the latest first. Takes no memory.
    #[inline(always)]
    pub fn edges(&self, node: u32) -> Walk<'_, Edge>
        requires { node < length self.now }
        ensures { result ≡ reverse (edges_at self.now node) }
    {
        self.edges.walk(self.tops[node as usize].edge)
    }

    /// Walks the pops of a node, which has to be there, the latest first. Takes no memory.
    #[inline(always)]
    pub fn pops(&self, node: u32) -> Walk<'_, Pop>
        requires { node < length self.now }
        ensures { result ≡ reverse (pops_at self.now node) }
    {
        self.pops.walk(self.tops[node as usize].pop)
    }
}
