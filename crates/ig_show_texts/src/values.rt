//! How numbers and words print.

ghost use Rattle.std.specs.Prelude.{◌≡◌, ◌++◌, OnOk, string_bytes, encode_utf8_all};
ghost use Rattle.std.specs.Fmt.{decimal};

use ig_text::Word;
use itoa::Buffer;
use std::alloc::AllocError;

/// Adds a number in decimal, as UTF-8. Refuses only for want of memory.
#[inline(always)]
pub fn push_number(out: &mut String, number: u32) -> Result<(), AllocError>
    ensures { OnOk result (string_bytes out.new ≡ string_bytes out.old ++ decimal number) }
{
    let mut buffer = Buffer::new();
    out.push_str(buffer.format(number))
}

/// Adds the characters of a word, as UTF-8. Refuses only for want of memory.
#[inline(always)]
pub fn push_word(out: &mut String, word: &Word) -> Result<(), AllocError>
    ensures { OnOk result (string_bytes out.new ≡ string_bytes out.old ++
        encode_utf8_all word.now) }
{
    out.push_str(word.as_str())
}
