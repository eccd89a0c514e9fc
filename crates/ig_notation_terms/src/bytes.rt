//! The bytes of a grammar text: how many they are, and at which a token begins.

ghost use Rattle.std.specs.Prelude.{◌≡◌, ◌≤◌, ◌<◌, ◌↔◌, IsTrue, length};
ghost use Rattle.ig_notation_syntax.specs.Notation.{most_bytes};
ghost use Rattle.ig_notation_syntax.specs.View.{tokens_of};
ghost use Rattle.ig_notation_terms.specs.Limits.{byte_of};

use ig_notation_syntax::{MOST_BYTES, Placed};

/// Whether the text has more than 262,144 bytes.
pub fn is_too_long(source: &str) -> bool
    ensures { IsTrue result ↔ (most_bytes < length source.now) }
{
    source.len() > MOST_BYTES
}

/// The first byte of the token of that number, or the length of the text where there is none.
pub fn byte_of(tokens: &[Placed], number: usize, source: &str) -> u32
    requires { length source.now ≤ most_bytes }
    ensures { result ≡ byte_of (length source.now) (tokens_of tokens.now) number }
{
    match tokens.get(number) {
        Some(placed) => placed.at,
        None => source.len() as u32,
    }
}
