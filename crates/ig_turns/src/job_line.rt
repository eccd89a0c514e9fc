//! Parts of a text between bytes of one kind, and names.
ghost use Rattle.std.specs.Prelude.{◌≡◌, ◌==◌, ◌<◌, ◌+◌, Some, None, position, length, drop, IfOk};
ghost use Rattle.std.specs.Prelude.{IfSome, if◌then◌else◌, option_map, string_bytes};
ghost use Rattle.ig_turns.specs.Lists.{is_name, is_plain};

use std::alloc::{AllocError, Global};
use std::str;

/// The first place of the byte. Takes no memory.
pub(crate) fn place_of(bytes: &[u8], byte: u8) -> Option<usize>
    ensures place { result ≡ position (λ b. b == byte) bytes.now }
    ensures within { IfSome result (λ at. at < length bytes.now) }
{
    bytes.iter().position(|b| *b == byte)
}

/// What stands after a place. Takes no memory.
pub(crate) fn after(bytes: &[u8], at: usize) -> &[u8]
    requires { at < length bytes.now }
    ensures { result.now ≡ drop (at + 1) bytes.now }
{
    &bytes[at + 1..]
}

/// The name that the bytes are; `None` exactly where they are no name.
pub(crate) fn name_of(alloc: Global, bytes: &[u8]) -> Result<Option<String>, AllocError>
    ensures { IfOk result (λ name. option_map string_bytes name
        ≡ (if is_name bytes.now then Some bytes.now else None)) }
{
    if !is_plain(bytes) {
        return Ok(None);
    }
    match str::from_utf8(bytes) {
        Ok(name) => Ok(Some(String::from_str(alloc, name)?)),
        Err(_) => Ok(None),
    }
}

/// Whether there are bytes, none of them a space, and the first no `-`. Takes no memory.
fn is_plain(bytes: &[u8]) -> bool
    ensures { result ≡ is_plain bytes.now }
{
    match bytes {
        [first, ..] => *first != b'-' && !bytes.contains(&b' '),
        [] => false,
    }
}
