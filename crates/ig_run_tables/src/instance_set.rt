//! The instances of a run by number.
ghost use Rattle.std.specs.Prelude.{◌≡◌, [], ◌∷◌, ◌++◌};
ghost use Rattle.std.specs.Prelude.{Contains, IfNone, IfOk, IfSome, OnErr, OnOk, Some};
ghost use Rattle.std.specs.Prelude.{false, true, slice_get};
ghost use Rattle.ig_item.specs.WellKinded.{NoneTwice};
ghost use Rattle.ig_run_tables.specs.Extends.{Enters, IsNew};

use crate::buckets::{Buckets, make_room};
use ig_item::{InstanceKey, number};
use std::alloc::{AllocError, Global};
use std::marker::Model;

/// Instances by number, each once.
#[derive(Drop)]
pub struct InstanceSet {
    keys: Vec<InstanceKey>,
    buckets: Buckets,
}

impl Model for InstanceSet {
    ghost use Rattle.std.specs.Prelude.{List};
    ghost use Rattle.ig_item.specs.declared.items.InstanceKey as stored;
    ghost use Rattle.ig_run_tables.specs.InstanceSet.{AreInstances};

    ghost Value = { List stored.InstanceKey };

    ghost view = { λ s. s.keys.items };

    ghost invariant = { λ s. AreInstances s.keys.items s.buckets.heads.items
        s.buckets.earlier.items s.buckets.mask };
}

impl InstanceSet {
    /// No instances. Takes no memory.
    pub fn new(alloc: Global) -> InstanceSet
        ensures { result ≡ [] }
    {
        InstanceSet {
            keys: Vec::new(alloc),
            buckets: Buckets::none(alloc),
        }
    }

    /// The instances by number. Takes no memory.
    #[inline(always)]
    pub fn as_slice(&self) -> &[InstanceKey]
        ensures { result.now ≡ self.now }
    {
        self.keys.as_slice()
    }

    /// The instances by number. Takes no memory.
    pub fn into_vec(self) -> Vec<InstanceKey>
        ensures { result.items ≡ self }
    {
        self.keys
    }

    /// The number of the instance, from 0, which is added at the end if it isn't there; and whether
    /// it was added. Refused where memory lacks, or 32 bits don't hold the number: then they are as
    /// they were.
    #[inline]
    pub fn enter(&mut self, key: InstanceKey) -> Result<(u32, bool), AllocError>
        ensures once { NoneTwice self.new }
        ensures enters { IfOk result (λ r. Enters self.old self.new key r.0) }
        ensures new { IfOk result (λ r. r.1 ≡ true → IsNew self.old self.new key r.0) }
        ensures old { IfOk result (λ r. r.1 ≡ false → self.new ≡ self.old) }
        ensures refused { OnErr result (self.new ≡ self.old) }
    {
        if let Some(place) = self.place_of(key) {
            return Ok((number(place)?, false));
        }
        let place = number(self.keys.len())?;
        self.add(key)?;
        Ok((place, true))
    }

    /// The place of the instance; `None` exactly where it isn't there.
    #[inline(always)]
    fn place_of(&self, key: InstanceKey) -> Option<usize>
        ensures some { IfSome result (λ k. slice_get self.now k ≡ Some key) }
        ensures none { IfNone result (Contains self.now key → ⊥) }
    {
        let mut at = self.buckets.last(key);
        while at > 0 {
            let place = at as usize - 1;
            if self.keys[place] == key {
                return Some(place);
            }
            at = self.buckets.earlier[place];
        }
        None
    }

    /// Adds an instance that isn't there. Refused, it leaves them as they were.
    fn add(&mut self, key: InstanceKey) -> Result<(), AllocError>
        requires { Contains self.old key → ⊥ }
        ensures ok { OnOk result (self.new ≡ self.old ++ key ∷ []) }
        ensures err { OnErr result (self.new ≡ self.old) }
    {
        self.keys.reserve(1)?;
        let alloc = *self.keys.allocator();
        make_room(alloc, self.keys.as_slice(), &mut self.buckets)?;
        self.buckets.push(key)?;
        self.keys.push(key)?;
        Ok(())
    }
}
