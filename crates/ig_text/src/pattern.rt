ghost use Rattle.std.specs.Prelude.{ℕ, MatchOption};
ghost use Rattle.ig_text.specs.Pattern.{IsOneOf, Matches};

use crate::class::Class;
use crate::copied::Copied;
use crate::sequence::Sequence;
use crate::text::Text;
use crate::word::Word;
use std::alloc::{AllocError, Global};

/// What stands in a text.
#[derive(Drop)]
pub enum Pattern {
    /// The characters of the word.
    Literal(Word),
    /// One character of the class.
    OneOf(Class),
}

/// A list of patterns.
pub type Patterns = Sequence<Pattern>;

impl Pattern {
    /// The position at which a match of the pattern at this position ends; `None` exactly where the
    /// pattern doesn't match there. Takes no memory.
    pub fn ends_at(&self, text: &Text, position: u32) -> Option<u32>
        ensures { MatchOption result ((j : ℕ) → Matches text.now self.now position j → ⊥)
            (Matches text.now self.now position) }
    {
        match self {
            Pattern::Literal(word) => word.ends_at(text, position),
            Pattern::OneOf(class) => class_ends_at(class, text, position),
        }
    }
}

/// The position behind a character of the class at this position; `None` exactly where none stands
/// there. Takes no memory.
fn class_ends_at(class: &Class, text: &Text, position: u32) -> Option<u32>
    ensures { MatchOption result ((j : ℕ) → IsOneOf text.now class.now position j → ⊥)
        (IsOneOf text.now class.now position) }
{
    let (character, end) = text.step(position)?;
    if class.has(character) {
        Some(end)
    } else {
        None
    }
}

impl Copied for Pattern {
    fn copy(&self, alloc: Global) -> Result<Pattern, AllocError> {
        match self {
            Pattern::Literal(word) => Ok(Pattern::Literal(word.copy(alloc)?)),
            Pattern::OneOf(class) => Ok(Pattern::OneOf(class.copy(alloc)?)),
        }
    }
}
