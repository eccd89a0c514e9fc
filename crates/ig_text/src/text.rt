ghost use Rattle.std.specs.Prelude.{◌≡◌, ◌+◌, ◌*◌, ◌<◌, ◌≤◌, ◌↔◌, ℕ, chars, drop, length};
ghost use Rattle.std.specs.Prelude.{slice_get};
ghost use Rattle.std.specs.Prelude.{IfErr, IfNone, IfOk, IfSome, IsTrue, option_map};
ghost use Rattle.std.specs.Prelude.{slice_range};
ghost use Rattle.ig_text.specs.Input.{with_width, IsTabWidth, KeepsLimits};
ghost use Rattle.ig_text.specs.Limits.{most_bytes, most_characters, most_tabs};
ghost use Rattle.ig_text.specs.Decoding.{IsDecoded, IsFaulty};
ghost use Rattle.ig_text.specs.Lines.{line_at, column_at, column_of};
ghost use Rattle.ig_text.specs.StopTable.{IsMark};
ghost use Rattle.ig_text.specs.Place.{IsInside, Spells, AreSame};

use crate::stops::Stop;
use crate::{lines, stops};
use std::alloc::{AllocError, Global};
use std::marker::Model;
use std::str;

/// A part of a text: the positions at which it begins and ends, in characters from 0. Spans are
/// ordered by their begin, and then by their end.
#[derive(Clone, Copy, PartialEq, Eq, PartialOrd, Ord, Hash, Debug)]
pub struct Span {
    pub begin: u32,
    pub end: u32,
}

/// Why bytes are no text.
#[derive(Clone, Copy, PartialEq, Eq, Debug)]
pub enum TextFault {
    /// They aren't UTF-8; `at` is the length in bytes of the longest valid prefix.
    NotUtf8 { at: u32 },
    /// There are more than 4,194,304 bytes, or more than 1,048,576 characters.
    TooLong,
    /// Memory ran out.
    Memory,
}

impl From<AllocError> for TextFault {
    ghost use Rattle.ig_text.specs.declared.text.TextFault.TheVariants.{Memory};

    ghost from_gives = { λ _ fault. fault ≡ Memory };

    fn from(_error: AllocError) -> TextFault {
        TextFault::Memory
    }
}

/// A text of at most 1,048,576 characters, and a width of tabs from 1 to 16. It keeps the positions
/// at which its lines begin and those behind its tabs, so that lines and columns are found in
/// logarithmic time.
#[derive(Drop)]
pub struct Text {
    characters: Vec<char>,
    line_starts: Vec<u32>,
    stops: Vec<Stop>,
    tabs: u32,
}

impl Model for Text {
    ghost use Rattle.ig_text.specs.Input.{Input};
    ghost use Rattle.ig_text.specs.Tabled.{IsTabled};

    ghost Value = { Input };

    ghost view = { λ t. record { characters = t.characters.items; tabs = t.tabs } };

    ghost invariant = { λ t.
        IsTabled t.characters.items t.line_starts.items t.stops.items t.tabs };
}

/// The most bytes that a text may have.
pub const MOST_BYTES: usize = 4_194_304;

/// The most characters that a text may have.
pub const MOST_CHARACTERS: usize = 1_048_576;

impl Text {
    /// The characters of UTF-8 bytes, with tabs of width 1. Refuses more than 4,194,304 bytes as
    /// `TooLong`, then bytes that aren't UTF-8 as `NotUtf8`, then more than 1,048,576 characters as
    /// `TooLong`.
    pub fn decode(alloc: Global, bytes: &[u8]) -> Result<Text, TextFault>
        ensures text { IfOk result (IsDecoded 1 bytes.now) }
        ensures fault { IfErr result (IsFaulty bytes.now) }
    {
        if bytes.len() > MOST_BYTES {
            return Err(TextFault::TooLong);
        }
        match str::from_utf8(bytes) {
            Ok(text) => Text::of_str(alloc, text),
            Err(error) => Err(TextFault::NotUtf8 {
                at: error.valid_up_to() as u32,
            }),
        }
    }

    /// The characters of a string, `TooLong` where there are more than 1,048,576.
    fn of_str(alloc: Global, text: &str) -> Result<Text, TextFault>
        requires { length text.now ≤ most_bytes }
        ensures text { IfOk result (IsDecoded 1 text.now) }
        ensures fault { IfErr result (IsFaulty text.now) }
    {
        let characters = characters_of(alloc, text)?;
        if characters.len() > MOST_CHARACTERS {
            return Err(TextFault::TooLong);
        }
        let line_starts = lines::starts_of(alloc, characters.as_slice())?;
        let stops = stops::stops_of(alloc, characters.as_slice())?;
        Ok(Text {
            characters,
            line_starts,
            stops,
            tabs: 1,
        })
    }

    /// The same characters with tabs of this width, from 1 to 16. Takes no memory.
    pub fn with_tabs(self, tabs: u32) -> Text
        requires { IsTabWidth tabs }
        ensures { result ≡ with_width tabs self }
    {
        let mut stops = self.stops;
        stops::set_stops(stops.as_mut_slice(), self.characters.as_slice(), tabs);
        Text {
            characters: self.characters,
            line_starts: self.line_starts,
            stops,
            tabs,
        }
    }

    /// The number of characters. Takes no memory.
    pub fn len(&self) -> u32
        ensures length { result ≡ length self.now.characters }
        ensures limit { result ≤ most_characters }
        ensures limits { KeepsLimits self.now }
    {
        self.characters.len() as u32
    }

    /// The character at a position; `None` exactly where the position isn't below the length.
    /// Takes no memory.
    pub fn char_at(&self, position: u32) -> Option<char>
        ensures { result ≡ slice_get self.now.characters position }
    {
        self.characters.get(position as usize).copied()
    }

    /// The line of a position: 1 plus the number of line feeds before it; `None` exactly where the
    /// position is greater than the length. Takes no memory.
    pub fn line(&self, position: u32) -> Option<u32>
        ensures { result ≡ line_at self.now position }
    {
        if position > self.len() {
            return None;
        }
        Some(lines::count_up_to(self.line_starts.as_slice(), position) as u32)
    }

    /// The column of a position: 1 at the start of its line; each character before it on its line
    /// adds 1, but a tab goes on to the least greater column that is 1 plus a multiple of the
    /// width; 0 for -1. `None` exactly where the position is less than -1 or greater than the
    /// length. Takes no memory.
    pub fn column(&self, position: i64) -> Option<i64>
        ensures { result ≡ column_at self.now position }
    {
        if position == -1 {
            Some(0)
        } else if 0 <= position && position <= i64::from(self.len()) {
            Some(i64::from(self.column_of(position as u32)))
        } else {
            None
        }
    }

    /// The column of a position, which is at most the length.
    fn column_of(&self, position: u32) -> u32
        requires { position ≤ length self.now.characters }
        ensures { result ≡ column_of self.now position }
    {
        let mark = self.mark(position);
        mark.column + (position - mark.position)
    }

    /// The last place up to a position that begins a line or stands behind a tab.
    fn mark(&self, position: u32) -> Stop
        requires { position ≤ length self.now.characters }
        ensures mark { IsMark self.now position result }
        ensures few { column_of self.now position ≤ most_tabs * most_characters + 1 }
    {
        let line = lines::count_up_to(self.line_starts.as_slice(), position);
        let start = Stop {
            position: self.line_starts[line - 1],
            column: 1,
        };
        stops::last_up_to(self.stops.as_slice(), position, start)
    }

    /// Whether both spans lie in the text and have equal characters. A span lies in the text where
    /// its begin is at most its end, and its end at most the length. Takes no memory.
    pub fn same(&self, a: Span, b: Span) -> bool
        ensures { IsTrue result ↔ AreSame self.now a b }
    {
        match (self.letters(a), self.letters(b)) {
            (Some(first), Some(second)) => first == second,
            _ => false,
        }
    }

    /// Whether the span lies in the text and its characters are those of the string. Takes no
    /// memory.
    pub fn spells(&self, a: Span, text: &str) -> bool
        ensures { IsTrue result ↔ Spells self.now (chars text.now) a.begin a.end }
    {
        match self.letters(a) {
            Some(letters) => are_letters_of(letters, text),
            None => false,
        }
    }

    /// The characters of a span; `None` exactly where it doesn't lie in the text.
    fn letters(&self, span: Span) -> Option<&[char]>
        ensures none { IfNone result (IsInside self.now span → ⊥) }
        ensures inside { IfSome result (λ _. IsInside self.now span) }
        ensures letters { IfSome result (λ r.
            r.now ≡ slice_range self.now.characters span.begin span.end) }
    {
        self.characters.get(span.begin as usize..span.end as usize)
    }

    /// The character at a position, and the position behind it; `None` exactly where the position
    /// isn't below the length.
    pub(crate) fn step(&self, position: u32) -> Option<(char, u32)>
        ensures { result ≡ option_map (λ c. (c, position + 1))
            (slice_get self.now.characters position) }
    {
        let character = self.characters.get(position as usize)?;
        Some((*character, position + 1))
    }

    /// The characters from a position on; `None` exactly where the position is past the end.
    pub(crate) fn from(&self, position: u32) -> Option<&[char]>
        ensures none { IfNone result (length self.now.characters < position) }
        ensures within { IfSome result (λ _. position ≤ length self.now.characters) }
        ensures rest { IfSome result (λ r. r.now ≡ drop position self.now.characters) }
        ensures few { length self.now.characters ≤ most_characters }
    {
        self.characters.get(position as usize..)
    }
}

/// Whether the letters are the characters of the string. Takes no memory.
fn are_letters_of(letters: &[char], text: &str) -> bool
    ensures { IsTrue result ↔ (letters.now ≡ chars text.now) }
{
    let mut rest = text.chars();
    for letter in letters {
        if rest.next() != Some(*letter) {
            return false;
        }
    }
    rest.next().is_none()
}

/// The characters of a string.
pub(crate) fn characters_of(alloc: Global, text: &str) -> Result<Vec<char>, AllocError>
    ensures { IfOk result (λ letters. letters.items ≡ chars text.now) }
{
    text.chars().collect(alloc)
}
