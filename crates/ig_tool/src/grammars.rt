//! The grammars of a batch, each read once.
ghost use Rattle.std.specs.Prelude.{◌≡◌, ◌↔◌, ◌<◌, ◌≤◌, ◌++◌, ◌∷◌, [], All};
ghost use Rattle.std.specs.Prelude.{IfOk, IsTrue, MatchOption, OnErr, OnOk, length, slice_get};
ghost use Rattle.std.specs.Option.{IsSomeAnd};
ghost use Rattle.ig_text.specs.Input.{IsTabWidth};
ghost use Rattle.ig_grammar.specs.Tabs.{tab_width};
ghost use Rattle.ig_notation_syntax.specs.Notation.{most_bytes};
ghost use Rattle.ig_command_endings.specs.Change.{change, ByFetches, Fetched, OnlyFetches};
ghost use Rattle.ig_tool.specs.Loading.{Accepts, FindsGrammar, Grows, IsKept, PlacesGrammar};
ghost use Rattle.ig_tool.specs.Loading.{refused_text};

use ig_command::Notation;
use ig_command_endings::{Status, Stop, refuse};
use ig_command_sources::{fetch_grammar, long_grammar, read_grammar, read_grammars_are_buildable};
use ig_core::{CoreFault, build};
use ig_grammar::Checked;
use ig_item::Core;
use ig_outside::Shelf;
use std::alloc::{AllocError, Global};

/// A grammar that is accepted, with its bytes and its core grammar.
#[derive(Drop)]
pub(crate) struct Kept {
    pub(crate) bytes: Vec<u8>,
    pub(crate) grammar: Checked,
    pub(crate) core: Core,
}

/// What a grammar text comes to.
#[derive(Drop)]
pub(crate) enum Found {
    /// It is that of the grammar in this place.
    At(usize),
    /// It is refused, with this status and this line for notes.
    Refused(Status, Vec<u8>),
}

/// The place of the grammar in the file of that name; where its bytes are new, they are read, and
/// the grammar is added at the end.
pub(crate) fn find_grammar<F: Shelf>(
    alloc: Global,
    shelf: &mut F,
    kept: &mut Vec<Kept>,
    name: &str,
) -> Result<Found, Stop>
    requires { All IsKept kept.old.items }
    ensures answer { ByFetches (λ call. FindsGrammar kept.new.items (call.before.holds name.now)
        name.now call.before.faults call.after.faults result)
        (change (F.state shelf.old) (F.state shelf.new)) }
    ensures grown { Grows kept.old.items kept.new.items }
    ensures kept { All IsKept kept.new.items }
    ensures counted { Fetched (change (F.state shelf.old) (F.state shelf.new)) 1 }
    ensures fetches { OnlyFetches (change (F.state shelf.old) (F.state shelf.new)) }
{
    match fetch_grammar(alloc, shelf, name)? {
        Some(bytes) => place_grammar(alloc, kept, bytes),
        None => refused(long_grammar(alloc)),
    }
}

/// The place of the grammar that these bytes are the text of.
fn place_grammar(alloc: Global, kept: &mut Vec<Kept>, bytes: Vec<u8>) -> Result<Found, Stop>
    requires few { length bytes.items ≤ most_bytes }
    requires kept { All IsKept kept.old.items }
    ensures answer { PlacesGrammar kept.new.items bytes.items result }
    ensures grown { Grows kept.old.items kept.new.items }
    ensures kept { All IsKept kept.new.items }
{
    if let Some(at) = place_of(kept.as_slice(), bytes.as_slice()) {
        return Ok(Found::At(at));
    }
    match accept(alloc, bytes) {
        Ok(new) => {
            let at = add(kept, new)?;
            Ok(Found::At(at))
        }
        Err(stop) => refused(stop),
    }
}

/// The place of the grammar that was read from these bytes; `None` exactly where none was.
fn place_of(kept: &[Kept], bytes: &[u8]) -> Option<usize>
    ensures { MatchOption result (All (λ k. k.bytes.items ≡ bytes.now → ⊥) kept.now)
        (λ at. IsSomeAnd (slice_get kept.now at) (λ k. k.bytes.items ≡ bytes.now)) }
{
    for at in 0..kept.len() {
        if is_from(&kept[at], bytes) {
            return Some(at);
        }
    }
    None
}

/// Whether the grammar was read from these bytes.
fn is_from(kept: &Kept, bytes: &[u8]) -> bool
    ensures { IsTrue result ↔ (kept.now.bytes.items ≡ bytes.now) }
{
    kept.bytes.as_slice() == bytes
}

/// The width of tabs that the grammar in that place says.
pub(crate) fn width_at(kept: &[Kept], at: usize) -> u32
    requires { at < length kept.now }
    ensures width { IsSomeAnd (slice_get kept.now at)
        (λ k. result ≡ tab_width k.grammar.grammar.tabs) }
    ensures allowed { IsTabWidth result }
{
    kept[at].grammar.tab_width()
}

/// The grammar that the bytes are the text of, with its core grammar; or the note that says why it
/// isn't accepted.
fn accept(alloc: Global, bytes: Vec<u8>) -> Result<Kept, Stop>
    requires { length bytes.items ≤ most_bytes }
    ensures { Accepts bytes.items result }
{
    read_grammars_are_buildable();
    let grammar = read_grammar(alloc, bytes.as_slice(), Notation::Own)?;
    match build(alloc, &grammar) {
        Ok(core) => Ok(Kept {
            bytes,
            grammar,
            core,
        }),
        Err(CoreFault::TooManyDots) => Err(refuse(alloc, b"too many dots")),
        Err(CoreFault::Memory) => Err(Stop::Memory),
    }
}

/// Adds the grammar at the end, and gives its place.
fn add(kept: &mut Vec<Kept>, new: Kept) -> Result<usize, AllocError>
    ensures items { OnOk result (kept.new.items ≡ kept.old.items ++ new ∷ []) }
    ensures kept { OnErr result (kept.new.items ≡ kept.old.items) }
    ensures place { IfOk result (λ at. at ≡ length kept.old.items) }
{
    let at = kept.len();
    kept.push(new)?;
    Ok(at)
}

/// A grammar that is refused is its job's own answer; want of memory isn't.
fn refused(stop: Stop) -> Result<Found, Stop>
    ensures { result ≡ refused_text stop }
{
    match stop {
        Stop::Note(status, line) => Ok(Found::Refused(status, line)),
        Stop::Memory => Err(Stop::Memory),
    }
}
