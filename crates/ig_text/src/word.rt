ghost use Rattle.std.specs.Prelude.{◌≡◌, ◌↔◌, ℕ, IfOk, IsTrue, MatchOption, chars, length};
ghost use Rattle.ig_text.specs.Place.{Spells};
ghost use Rattle.ig_text.specs.Words.{is_word};

use crate::copied::Copied;
use crate::sequence::Sequence;
use crate::text::{Text, characters_of};
use std::alloc::{AllocError, Global};
use std::hash::{Hash, Hasher};
use std::marker::Model;

/// A text that stands in a grammar: a name, or what a literal matches. It keeps its characters
/// beside its UTF-8, so that a match compares characters and decodes nothing.
#[derive(Drop)]
pub struct Word {
    text: String,
    characters: Vec<char>,
}

/// A list of words.
pub type Words = Sequence<Word>;

impl Model for Word {
    ghost use Rattle.std.specs.Prelude.{◌≡◌, List, ℕ, chars, string_bytes};

    ghost Value = { List ℕ };

    ghost view = { λ w. w.characters.items };

    ghost invariant = { λ w. w.characters.items ≡ chars (string_bytes w.text) };
}

impl Word {
    /// The word of these characters.
    pub fn new(alloc: Global, text: &str) -> Result<Word, AllocError>
        ensures { IfOk result (λ w. w ≡ chars text.now) }
    {
        let characters = characters_of(alloc, text)?;
        let text = String::from_str(alloc, text)?;
        Ok(Word { text, characters })
    }

    /// The word as text. Takes no memory.
    pub fn as_str(&self) -> &str
        ensures { chars result.now ≡ self.now }
    {
        self.text.as_str()
    }

    /// The characters of the word. Takes no memory.
    pub fn as_chars(&self) -> &[char]
        ensures { result.now ≡ self.now }
    {
        self.characters.as_slice()
    }

    /// The number of characters. Takes no memory.
    pub fn len(&self) -> usize
        ensures { result ≡ length self.now }
    {
        self.characters.len()
    }

    /// The position at which a match of the word at this position ends; `None` exactly where the
    /// word doesn't match there. Takes no memory.
    pub fn ends_at(&self, text: &Text, position: u32) -> Option<u32>
        ensures { MatchOption result ((j : ℕ) → Spells text.now self.now position j → ⊥)
            (Spells text.now self.now position) }
    {
        let rest = text.from(position)?;
        let word = self.characters.as_slice();
        if rest.starts_with(word) {
            Some(position + word.len() as u32)
        } else {
            None
        }
    }
}

impl Copied for Word {
    fn copy(&self, alloc: Global) -> Result<Word, AllocError> {
        let text = String::from_str(alloc, self.text.as_str())?;
        let characters = Vec::from_slice(alloc, self.characters.as_slice())?;
        Ok(Word { text, characters })
    }
}

impl PartialEq for Word {
    ghost use Rattle.std.specs.Cmp as compared;
    ghost use Rattle.std.specs.Cmp.Lexicographic.{nat_list_eq_equiv};

    ghost eq = { is_word };

    ghost laws = { compared.partial_equiv_from_equiv nat_list_eq_equiv };

    /// Whether both words have equal characters.
    fn eq(&self, other: &Word) -> bool
        ensures value { result ≡ is_word self.now other.now }
        ensures exact { IsTrue result ↔ (self.now ≡ other.now) }
    {
        self.as_chars() == other.as_chars()
    }
}

impl Eq for Word {
    ghost use Rattle.std.specs.Cmp.Lexicographic.{nat_list_eq_equiv};

    ghost laws = { nat_list_eq_equiv };
}

impl Hash for Word {
    ghost use Rattle.std.specs.Cmp.Lexicographic.{bytes_decides};
    ghost use Rattle.std.specs.Hash as fed;
    ghost use Rattle.std.specs.Hash.{same_Alike};

    ghost hash_input = { fed.slice fed.char };

    ghost respects_eq = { (same_Alike (fed.slice fed.char) bytes_decides).fed };

    fn hash<H: Hasher>(&self, state: &mut H) {
        self.as_chars().hash(state);
    }
}
