//! Instances in buckets by their hashes.
ghost use Rattle.std.specs.Prelude.{◌≡◌, ◌+◌, [], ◌∷◌, ◌++◌, List, length, slice_index_or};
ghost use Rattle.std.specs.Prelude.{IfOk, OnErr, OnOk};
ghost use Rattle.ig_item.specs.declared.items.InstanceKey as stored;
ghost use Rattle.ig_run_tables.specs.InstanceSet.{AreFound, AreInBuckets, bucket_of};

use ig_item::{InstanceKey, number};
use std::alloc::{AllocError, Global};

/// One less than the number of buckets at the beginning.
const FIRST_MASK: u32 = 63;

/// Small multiples of this number, of the next one and of 1 add up to no multiple of the number of
/// buckets, whatever that is. So instances that differ by little don't meet, and those of one
/// nonterminal and environment lie side by side.
const BY_NONTERMINAL: u64 = 0x1c05_3c97;

/// As above.
const BY_ENVIRONMENT: u64 = 0x41bd_386f;

/// Where instances stand, by their numbers: the last one of each bucket, and for each instance the
/// one before it in its bucket. Both are places + 1, and 0 where there is none.
#[derive(Drop)]
pub struct Buckets {
    pub heads: Vec<u32>,
    pub earlier: Vec<u32>,
    pub mask: u32,
}

impl Buckets {
    /// No buckets. Takes no memory.
    pub fn none(alloc: Global) -> Buckets
        ensures heads { result.heads.items ≡ [] }
        ensures earlier { result.earlier.items ≡ [] }
    {
        Buckets {
            heads: Vec::new(alloc),
            earlier: Vec::new(alloc),
            mask: 0,
        }
    }

    /// So many buckets and one more, with no instances.
    fn with_mask(alloc: Global, mask: u32) -> Result<Buckets, AllocError>
        ensures { IfOk result (λ b. AreInBuckets [] b.heads.items b.earlier.items b.mask) }
    {
        let heads = vec![in alloc; 0; mask as usize + 1]?;
        Ok(Buckets {
            heads,
            earlier: Vec::new(alloc),
            mask,
        })
    }

    /// So many buckets and one more, with these instances.
    fn of(alloc: Global, mask: u32, keys: &[InstanceKey]) -> Result<Buckets, AllocError>
        ensures { IfOk result (λ b. AreInBuckets keys.now b.heads.items b.earlier.items b.mask) }
    {
        let mut buckets = Buckets::with_mask(alloc, mask)?;
        for key in keys {
            buckets.push(*key)?;
        }
        Ok(buckets)
    }

    /// Adds an instance, where there are buckets. Refused for want of memory, or of a number of 32
    /// bits, it leaves the instances as they were.
    pub fn push(&mut self, key: InstanceKey) -> Result<(), AllocError>
        requires { length self.old.heads.items ≡ self.old.mask + 1 }
        ensures ok { OnOk result ((keys : List stored.InstanceKey) →
            AreInBuckets keys self.old.heads.items self.old.earlier.items self.old.mask →
            AreInBuckets (keys ++ key ∷ []) self.new.heads.items self.new.earlier.items
            self.new.mask) }
        ensures long { length self.new.heads.items ≡ self.new.mask + 1 }
        ensures err { OnErr result ((keys : List stored.InstanceKey) →
            AreInBuckets keys self.old.heads.items self.old.earlier.items self.old.mask →
            AreInBuckets keys self.new.heads.items self.new.earlier.items self.new.mask) }
    {
        let at = bucket_of(key, self.mask);
        let last = self.heads[at];
        let place = number(self.earlier.len() + 1)?;
        self.earlier.push(last)?;
        self.heads[at] = place;
        Ok(())
    }

    /// The place + 1 of the last instance in the bucket of this one; 0 where there is none.
    #[inline(always)]
    pub fn last(&self, key: InstanceKey) -> u32
        ensures { result ≡ slice_index_or self.now.heads.items (bucket_of self.now.mask key) 0 }
    {
        match self.heads.get(bucket_of(key, self.mask)) {
            Some(last) => *last,
            None => 0,
        }
    }
}

/// Makes more buckets where there are as many instances as buckets. Refused for want of memory
/// alone, it changes nothing.
pub fn make_room(
    alloc: Global,
    keys: &[InstanceKey],
    buckets: &mut Buckets,
) -> Result<(), AllocError>
    requires { AreFound keys.now buckets.old.heads.items
        buckets.old.earlier.items buckets.old.mask }
    ensures ok { OnOk result (AreInBuckets keys.now buckets.new.heads.items
        buckets.new.earlier.items buckets.new.mask) }
    ensures err { OnErr result (buckets.new ≡ buckets.old) }
{
    let count = buckets.heads.len();
    if keys.len() < count {
        return Ok(());
    }
    let mask = if count == 0 {
        FIRST_MASK
    } else {
        next_mask(buckets.mask)?
    };
    *buckets = Buckets::of(alloc, mask, keys)?;
    Ok(())
}

/// One less than twice the number of buckets.
#[cold]
fn next_mask(mask: u32) -> Result<u32, AllocError> {
    let Some(twice) = mask.checked_mul(2) else {
        return Err(AllocError);
    };
    Ok(twice | 1)
}

/// The bucket of an instance.
#[inline(always)]
#[tactic(auto, unfolding(crate::specs::InstanceSet::hash_of))]
fn bucket_of(key: InstanceKey, mask: u32) -> usize
    ensures { result ≡ bucket_of mask key }
{
    let hash = u64::from(key.start)
        + u64::from(key.nonterminal) * BY_NONTERMINAL
        + u64::from(key.env) * BY_ENVIRONMENT;
    (hash & u64::from(mask)) as usize
}
