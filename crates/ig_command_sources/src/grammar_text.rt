//! From bytes to a grammar, or to the note that says why they are none.

ghost use Rattle.std.specs.Prelude.{◌≤◌, ◌++◌, IfErr, IfOk, length};
ghost use Rattle.std.specs.Fmt.{decimal};
ghost use Rattle.ig_notation_syntax.specs.Notation.{most_bytes};
ghost use Rattle.ig_scope.specs.Causes.{condition_of};
ghost use Rattle.ig_command_sources.specs.Texts.{condition_text, place_text};
ghost use Rattle.ig_command_endings.specs.Stops.{RefusesWith};
ghost use Rattle.ig_notation.specs.declared.fault.Large.TheVariants.{Bytes};
ghost use Rattle.ig_command_sources.specs.Accepted.{IsReadFaultIn, IsReadIn};
ghost use Rattle.ig_command_sources.specs.Refusals.{large_text};
ghost use Rattle.ig_command_sources.specs.Sources.{ReadsGrammar};

use crate::cause::{push_cause, push_numbered};
use crate::laws::read_grammars_are_regular;
use ig_command::Notation;
use ig_command_endings::{Stop, refuse};
use ig_grammar::{Checked, Grammar, Place};
use ig_notation::{Large, ReadFault, read_short};
use ig_scope::{ScopeCause, ScopeFault, check};
use ig_w3c::read_short_w3c;
use std::alloc::Global;
use std::str;

/// The well-scoped grammar that the bytes read as in this notation; or the note on the first of
/// these tests that they fail: UTF-8; tokens; numbers and nesting; the rules of the notation;
/// scopes. The bytes are at most [`MOST_BYTES`](ig_notation::MOST_BYTES).
pub fn read_grammar(alloc: Global, bytes: &[u8], notation: Notation) -> Result<Checked, Stop>
    requires { length bytes.now ≤ most_bytes }
    ensures { ReadsGrammar notation bytes.now result }
{
    read_grammars_are_regular();
    let source = match str::from_utf8(bytes) {
        Ok(source) => source,
        Err(error) => {
            return Err(refuse_at(alloc, b"not UTF-8 at byte ", error.valid_up_to() as u32));
        }
    };
    let grammar = match read_in(alloc, source, notation) {
        Ok(grammar) => grammar,
        Err(ReadFault::Syntax { at }) => return Err(refuse_at(alloc, b"syntax at byte ", at)),
        Err(ReadFault::TooLarge { which }) => return Err(too_large(alloc, which)),
        Err(ReadFault::Memory) => return Err(Stop::Memory),
    };
    match check(alloc, grammar) {
        Ok(checked) => Ok(checked),
        Err(ScopeFault::Broken { cause, place }) => Err(not_scoped(alloc, cause, place)),
        Err(ScopeFault::Memory) => Err(Stop::Memory),
    }
}

/// The grammar that a text of few bytes reads as in this notation.
fn read_in(alloc: Global, source: &str, notation: Notation) -> Result<Grammar, ReadFault>
    requires { length source.now ≤ most_bytes }
    ensures ok { IfOk result (IsReadIn notation source.now) }
    ensures fault { IfErr result (IsReadFaultIn notation source.now) }
{
    match notation {
        Notation::Own => read_short(alloc, source),
        Notation::W3c => read_short_w3c(alloc, source),
    }
}

/// The grammar's text has more than [`MOST_BYTES`](ig_notation::MOST_BYTES).
pub fn long_grammar(alloc: Global) -> Stop
    ensures { RefusesWith (large_text Bytes) result }
{
    too_large(alloc, Large::Bytes)
}

/// The grammar's text passes a limit.
fn too_large(alloc: Global, which: Large) -> Stop
    ensures { RefusesWith (large_text which) result }
{
    match which {
        Large::Bytes => refuse(alloc, b"too large: bytes"),
        Large::Number => refuse(alloc, b"too large: number"),
        Large::Nesting => refuse(alloc, b"too large: nesting"),
    }
}

/// The grammar is refused with the text and the number.
fn refuse_at(alloc: Global, text: &[u8], at: u32) -> Stop
    ensures { RefusesWith (text.now ++ decimal at) result }
{
    let mut line = Vec::new(alloc);
    match push_numbered(&mut line, text, at) {
        Ok(()) => refuse(alloc, line.as_slice()),
        Err(error) => Stop::from(error),
    }
}

/// The grammar isn't well scoped, by this cause at this place.
fn not_scoped(alloc: Global, cause: ScopeCause, place: Place) -> Stop
    ensures { RefusesWith (condition_text (condition_of cause) ++ place_text place) result }
{
    let mut line = Vec::new(alloc);
    match push_cause(&mut line, cause, place) {
        Ok(()) => refuse(alloc, line.as_slice()),
        Err(error) => Stop::from(error),
    }
}
