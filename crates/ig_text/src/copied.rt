ghost use Rattle.std.specs.Prelude.{◌≡◌, IfOk};

use std::alloc::{AllocError, Global};

/// A type whose values can be copied, for which memory may be wanting.
pub trait Copied: Drop {
    /// An equal value. It is refused for want of memory alone.
    fn copy(&self, alloc: Global) -> Result<Self, AllocError>
        ensures { IfOk result (λ r. r ≡ self.now) };
}

impl Copied for (char, char) {
    fn copy(&self, _alloc: Global) -> Result<(char, char), AllocError> {
        Ok(*self)
    }
}
