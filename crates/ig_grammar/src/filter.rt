use ig_text::{Copied, Pattern, Sequence};
use std::alloc::{AllocError, Global};

/// What is asked of the text at a symbol, which covers some part of it.
#[derive(Drop)]
pub enum Filter {
    /// `!>>`: no match of the pattern begins where the symbol ends.
    NotFollowed(Pattern),
    /// `!<<`: no match of the pattern ends where the symbol begins.
    NotPreceded(Pattern),
    /// `\`: what the symbol covers is no match of the pattern.
    Not(Pattern),
}

/// A list of filters.
pub type Filters = Sequence<Filter>;

impl Copied for Filter {
    fn copy(&self, alloc: Global) -> Result<Filter, AllocError> {
        match self {
            Filter::NotFollowed(pattern) => Ok(Filter::NotFollowed(pattern.copy(alloc)?)),
            Filter::NotPreceded(pattern) => Ok(Filter::NotPreceded(pattern.copy(alloc)?)),
            Filter::Not(pattern) => Ok(Filter::Not(pattern.copy(alloc)?)),
        }
    }
}
