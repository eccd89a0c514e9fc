//! Pieces of lines, which are written from their last byte to their first and then pushed at once.
ghost use Rattle.std.specs.Prelude.{◌≡◌, ◌++◌, ◌+◌, ◌≤◌, [], drop, length, OnOk};
ghost use Rattle.std.specs.Fmt.{decimal};
ghost use Rattle.ig_show_texts.specs.Room.{piece_room};
ghost use Rattle.ig_show_texts.specs.ValueText.{places_text};

use itoa::write_digits;
use std::alloc::AllocError;
use std::marker::Model;

/// The most bytes of a piece: five numbers, with what stands around them.
const ROOM: usize = 96;

/// A text of at most 96 bytes, which grows at its begin.
#[derive(Drop)]
pub struct Piece {
    bytes: [u8; ROOM],
    start: usize,
}

impl Model for Piece {
    ghost use Rattle.std.specs.Prelude.{List, ℕ, drop, ◌≤◌};
    ghost use Rattle.ig_show_texts.specs.Room.{piece_room};

    ghost Value = { List ℕ };

    ghost view = { λ p. drop p.start p.bytes };

    ghost invariant = { λ p. p.start ≤ piece_room };
}

impl Piece {
    /// The empty piece. Takes no memory.
    pub fn new() -> Piece
        ensures { result ≡ [] }
    {
        Piece {
            bytes: [0; ROOM],
            start: ROOM,
        }
    }

    /// Puts the text before the others, which have room for it. Takes no memory.
    pub fn put_text(&mut self, text: &[u8])
        requires room { length text.now + length self.old ≤ piece_room }
        ensures { self.new ≡ text.now ++ self.old }
    {
        self.start = write_text(text, &mut self.bytes, self.start);
    }

    /// Puts the number before the others, in decimal: at most 10 bytes. Takes no memory.
    pub fn put_number(&mut self, number: u32)
        requires room { 10 + length self.old ≤ piece_room }
        ensures text { self.new ≡ decimal number ++ self.old }
        ensures short { length self.new ≤ 10 + length self.old }
    {
        self.start = write_digits(u64::from(number), &mut self.bytes, self.start);
    }

    /// Puts two positions before the others, as those where a span begins and ends: in decimal with
    /// `..` between them, at most 22 bytes. Takes no memory.
    #[inline(always)]
    pub fn put_places(&mut self, begin: u32, end: u32)
        requires room { 22 + length self.old ≤ piece_room }
        ensures text { self.new ≡ places_text begin end ++ self.old }
        ensures short { length self.new ≤ 22 + length self.old }
    {
        self.put_number(end);
        self.put_text(b"..");
        self.put_number(begin);
    }

    /// Adds the piece to the output. Refuses only for want of memory.
    #[inline(always)]
    pub fn push_to(&self, out: &mut Vec<u8>) -> Result<(), AllocError>
        ensures { OnOk result (out.new.items ≡ out.old.items ++ self.now) }
    {
        out.extend_from_slice(&self.bytes[self.start..])
    }
}

/// Writes the text so that it ends at `end`, and returns where it starts.
fn write_text(text: &[u8], bytes: &mut [u8], end: usize) -> usize
    requires room { length text.now ≤ end }
    requires within { end ≤ length bytes.old }
    ensures start { result + length text.now ≡ end }
    ensures written { drop result bytes.new ≡ text.now ++ drop end bytes.old }
    ensures long { length bytes.new ≡ length bytes.old }
{
    let start = end - text.len();
    bytes[start..end].copy_from_slice(text);
    start
}
