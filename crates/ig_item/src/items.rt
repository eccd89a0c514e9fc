//! Items: how far an alternative has come in the text.
ghost use Rattle.std.specs.Prelude.{◌≡◌, length, map, option_map, slice_get};
ghost use Rattle.std.specs.Option.{option_copied};
ghost use Rattle.ig_item.specs.Tables.{AreTables, HaveValues, instance_by, instance_of, tables_by};

use crate::environment_table::EnvironmentTable;
use ig_expr::{Value, Values};
use std::marker::Model;

/// A nonterminal with the values of its arguments, which was called at a position. Contracts see
/// the instances of [`Items`] so; the tables keep an [`InstanceKey`], and readers give an
/// [`InstanceView`].
#[derive(PartialEq, Eq, Hash, Drop)]
pub struct Instance {
    pub nonterminal: u32,
    pub values: Values,
    pub start: u32,
}

/// An instance whose values are the environment of that number.
#[derive(Clone, Copy, PartialEq, Eq, Hash, Debug)]
pub struct InstanceKey {
    pub nonterminal: u32,
    pub env: u32,
    pub start: u32,
}

/// An instance that is borrowed from a table.
#[derive(Clone, Copy)]
pub struct InstanceView<'a> {
    pub nonterminal: u32,
    pub values: &'a [Value],
    pub start: u32,
}

/// An item: an alternative of an instance, a dot in it, an environment, and the position to which
/// the steps before the dot have come. Instances and environments are numbers in tables, from 0, as
/// dots are; alternatives are numbered from 1.
#[derive(Clone, Copy, PartialEq, Eq, Hash, Debug)]
pub struct Item {
    pub instance: u32,
    pub alternative: u32,
    pub dot: u32,
    pub env: u32,
    pub position: u32,
}

/// What a run found: items, with the instances and the environments that they name.
#[derive(Drop)]
pub struct Items {
    keys: Vec<InstanceKey>,
    envs: EnvironmentTable,
    items: Vec<Item>,
}

impl Model for Items {
    ghost use Rattle.ig_item.specs.Tables.{Tables, AreTables, HaveValues, tables_by};

    ghost Value = { Tables };

    ghost view = { λ s. tables_by s.keys.items s.envs s.items.items };

    ghost invariant = { λ s. HaveValues s.envs s.keys.items ×
        AreTables (tables_by s.keys.items s.envs s.items.items) };
}

impl Items {
    /// The items over these tables. Each item's instance and environment have to be in them, as has
    /// each instance's environment, and each of the three lists has to have fewer than
    /// 4,294,967,296 members. Takes no memory.
    pub fn of(keys: Vec<InstanceKey>, envs: EnvironmentTable, items: Vec<Item>) -> Items
        requires values { HaveValues envs keys.items }
        requires tables { AreTables (tables_by keys.items envs items.items) }
        ensures { result ≡ tables_by keys.items envs items.items }
    {
        Items { keys, envs, items }
    }

    /// The number of items. Takes no memory.
    pub fn len(&self) -> u32
        ensures number { result ≡ length self.now.items }
        ensures tables { AreTables self.now }
    {
        self.items.len() as u32
    }

    /// The items, in order. Takes no memory.
    pub fn items(&self) -> &[Item]
        ensures items { result.now ≡ self.now.items }
        ensures tables { AreTables self.now }
    {
        self.items.as_slice()
    }

    /// An item by its number, from 0; `None` exactly where the number isn't there. Takes no memory.
    pub fn item(&self, k: u32) -> Option<Item>
        ensures { result ≡ slice_get self.now.items k }
    {
        self.items.get(k as usize).copied()
    }

    /// The number of instances. Takes no memory.
    pub fn instances(&self) -> u32
        ensures { result ≡ length self.now.instances }
    {
        self.keys.len() as u32
    }

    /// The instances, in order, with their values by number. Takes no memory.
    pub fn instance_keys(&self) -> &[InstanceKey]
        ensures instances { map (instance_by self.now.environments) result.now
            ≡ self.now.instances }
        ensures values { HaveValues self.now.environments result.now }
    {
        self.keys.as_slice()
    }

    /// An instance by its number, from 0; `None` exactly where the number isn't there. Takes no
    /// memory.
    pub fn instance(&self, k: u32) -> Option<InstanceView<'_>>
        ensures { option_map instance_of result ≡ slice_get self.now.instances k }
    {
        let key = key_at(self.keys.as_slice(), k)?;
        let values = self.envs.get(key.env)?;
        Some(InstanceView {
            nonterminal: key.nonterminal,
            values,
            start: key.start,
        })
    }

    /// The number of environments. Takes no memory.
    pub fn environments(&self) -> u32
        ensures { result ≡ length self.now.environments }
    {
        self.envs.len() as u32
    }

    /// An environment by its number, from 0; `None` exactly where the number isn't there. Takes no
    /// memory.
    pub fn env(&self, k: u32) -> Option<&[Value]>
        ensures { option_copied result ≡ slice_get self.now.environments k }
    {
        self.envs.get(k)
    }
}

/// The key of that number, from 0.
fn key_at(keys: &[InstanceKey], k: u32) -> Option<InstanceKey>
    ensures { result ≡ slice_get keys.now k }
{
    keys.get(k as usize).copied()
}
