ghost use Rattle.std.specs.Prelude.{◌≡◌, IfOk};
ghost use Rattle.ig_text.specs.Ranges.{is_within, is_among, KnowsFirst};

use crate::copied::Copied;
use std::alloc::{AllocError, Global};
use std::marker::Model;

/// The number of ASCII characters, which are the first.
const ASCII: u8 = 128;

/// Ranges of characters: pairs of a first and a last character, both of which belong to it. Beside
/// the pairs it keeps which ASCII characters are in one, so that their test is one look-up.
#[derive(Drop)]
pub struct Ranges {
    pairs: Vec<(char, char)>,
    ascii: Vec<bool>,
}

impl Model for Ranges {
    ghost use Rattle.std.specs.Prelude.{ℕ, List};
    ghost use Rattle.ig_text.specs.Ranges.{KnowsFirst};

    ghost Value = { List (ℕ × ℕ) };

    ghost view = { λ r. r.pairs.items };

    ghost invariant = { λ r. KnowsFirst r.pairs.items r.ascii.items };
}

impl Ranges {
    /// These ranges, with their table of ASCII characters.
    pub fn from_vec(alloc: Global, pairs: Vec<(char, char)>) -> Result<Ranges, AllocError>
        ensures { IfOk result (λ r. r ≡ pairs.items) }
    {
        let ascii = ascii_of(alloc, pairs.as_slice())?;
        Ok(Ranges { pairs, ascii })
    }

    /// The ranges, in order. Takes no memory.
    pub fn as_slice(&self) -> &[(char, char)]
        ensures { result.now ≡ self.now }
    {
        self.pairs.as_slice()
    }

    /// Whether the character is in some range: one look-up for an ASCII character. Takes no memory.
    pub fn has(&self, c: char) -> bool
        ensures { result ≡ is_among self.now c }
    {
        match self.ascii.get(c as usize) {
            Some(is_in) => *is_in,
            None => is_in_some(self.pairs.as_slice(), c),
        }
    }
}

/// Of each ASCII character, whether it is in some range.
fn ascii_of(alloc: Global, pairs: &[(char, char)]) -> Result<Vec<bool>, AllocError>
    ensures { IfOk result (λ ascii. KnowsFirst pairs.now ascii.items) }
{
    let mut ascii = Vec::with_capacity(alloc, ASCII as usize)?;
    for c in 0..ASCII {
        ascii.push(is_in_some(pairs, c as char))?;
    }
    Ok(ascii)
}

/// Whether the character is in some range. Takes no memory.
fn is_in_some(ranges: &[(char, char)], c: char) -> bool
    ensures { result ≡ is_among ranges.now c }
{
    ranges.iter().any(|range| is_within(*range, c))
}

/// Whether the character is in the range. Takes no memory.
fn is_within(range: (char, char), c: char) -> bool
    ensures { result ≡ is_within range c }
{
    range.0 <= c && c <= range.1
}

impl Copied for Ranges {
    fn copy(&self, alloc: Global) -> Result<Ranges, AllocError> {
        let pairs = Vec::from_slice(alloc, self.pairs.as_slice())?;
        let ascii = Vec::from_slice(alloc, self.ascii.as_slice())?;
        Ok(Ranges { pairs, ascii })
    }
}
