//! Numbers of 32 bits.
ghost use Rattle.std.specs.Prelude.{◌≡◌, ◌≤◌, ◌<◌, IfOk, OnErr, OnOk};
ghost use Rattle.ig_text.specs.Limits.{numbers_end};

use std::alloc::AllocError;

/// The number of a table's member, in 32 bits. Refused as want of memory exactly where these don't
/// hold it.
pub fn number(k: usize) -> Result<u32, AllocError>
    ensures number { IfOk result (λ n. n ≡ k) }
    ensures fits { OnOk result (k < numbers_end) }
    ensures refused { OnErr result (numbers_end ≤ k) }
{
    match u32::try_from(k) {
        Ok(n) => Ok(n),
        Err(_) => Err(AllocError),
    }
}
