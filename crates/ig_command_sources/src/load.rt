//! Fetching and reading the files of a command.
ghost use Rattle.std.specs.Prelude.{◌≤◌, IfOk, length, vec_len};
ghost use Rattle.ig_turns.specs.Lists.{most_jobs};
ghost use Rattle.ig_text.specs.Input.{IsTabWidth};
ghost use Rattle.ig_command_endings.specs.Change.{change, ByFetches, Fetched, OnlyFetches};
ghost use Rattle.ig_command_sources.specs.Sources.{LoadsForest, LoadsGrammar, LoadsGrammarText};
ghost use Rattle.ig_command_sources.specs.Sources.{LoadsInput, LoadsList, ReadsInput, ReadsList};
ghost use Rattle.ig_command_sources.specs.Sources.{most_list_bytes};

use crate::grammar_text::{long_grammar, read_grammar};
use ig_command::Notation;
use ig_command_endings::{Stop, bad_list, cannot_read, long_forest, long_list, not_utf8, too_long};
use ig_grammar::Checked;
use ig_notation::MOST_BYTES;
use ig_outside::{FetchFault, Shelf};
use ig_text::{MOST_BYTES as MOST_INPUT_BYTES, Text, TextFault};
use ig_turns::{ListFault, Names, read_list};
use std::alloc::Global;

/// How many bytes the text of a forest may have.
pub const MOST_FOREST_BYTES: u64 = 268_435_456;

/// How many bytes the text of a list of jobs may have.
pub const MOST_LIST_BYTES: u64 = 65_536;

/// The well-scoped grammar in the file of that name, in this notation; the file is fetched once.
///
/// Stops with the status `ReadFault` where the shelf holds nothing under the name or fails; with
/// `Grammar` where the bytes are more than [`MOST_BYTES`], aren't UTF-8, don't read as a grammar,
/// or read as one that isn't well scoped, by the first of these tests that fails; or for want of
/// memory.
pub fn load_grammar<F: Shelf>(
    alloc: Global,
    shelf: &mut F,
    name: &str,
    notation: Notation,
) -> Result<Checked, Stop>
    ensures answer { ByFetches (λ call. LoadsGrammar notation call name.now result)
        (change (F.state shelf.old) (F.state shelf.new)) }
    ensures counted { Fetched (change (F.state shelf.old) (F.state shelf.new)) 1 }
    ensures fetches { OnlyFetches (change (F.state shelf.old) (F.state shelf.new)) }
{
    match fetch_grammar(alloc, shelf, name)? {
        Some(bytes) => read_grammar(alloc, bytes.as_slice(), notation),
        None => Err(long_grammar(alloc)),
    }
}

/// The bytes in the file of that name, which is to be a grammar text and is fetched once; `None`
/// exactly where there are more than [`MOST_BYTES`].
///
/// Stops with the status `ReadFault` where the shelf holds nothing under the name or fails; or for
/// want of memory.
pub fn fetch_grammar<F: Shelf>(
    alloc: Global,
    shelf: &mut F,
    name: &str,
) -> Result<Option<Vec<u8>>, Stop>
    ensures answer { ByFetches (λ call. LoadsGrammarText call name.now result)
        (change (F.state shelf.old) (F.state shelf.new)) }
    ensures counted { Fetched (change (F.state shelf.old) (F.state shelf.new)) 1 }
    ensures fetches { OnlyFetches (change (F.state shelf.old) (F.state shelf.new)) }
{
    match shelf.fetch(alloc, name, MOST_BYTES as u64) {
        Ok(bytes) => Ok(Some(bytes)),
        Err(FetchFault::Long) => Ok(None),
        Err(FetchFault::Failed) => Err(cannot_read(alloc, name)),
        Err(FetchFault::Missing) => Err(cannot_read(alloc, name)),
        Err(FetchFault::Memory) => Err(Stop::Memory),
    }
}

/// The text in the file of that name, with tabs of this width, from 1 to 16. The file is fetched
/// once.
///
/// Stops with the status `ReadFault` where the shelf holds nothing under the name or fails; with
/// `Input` where there are more than 4,194,304 bytes or 1,048,576 characters, or the bytes aren't
/// UTF-8; or for want of memory.
pub fn load_input<F: Shelf>(
    alloc: Global,
    shelf: &mut F,
    name: &str,
    tabs: u32,
) -> Result<Text, Stop>
    requires { IsTabWidth tabs }
    ensures answer { ByFetches (λ call. LoadsInput tabs call name.now result)
        (change (F.state shelf.old) (F.state shelf.new)) }
    ensures counted { Fetched (change (F.state shelf.old) (F.state shelf.new)) 1 }
    ensures fetches { OnlyFetches (change (F.state shelf.old) (F.state shelf.new)) }
{
    match shelf.fetch(alloc, name, MOST_INPUT_BYTES as u64) {
        Ok(bytes) => read_input(alloc, bytes.as_slice(), tabs),
        Err(FetchFault::Long) => Err(too_long(alloc)),
        Err(FetchFault::Failed) => Err(cannot_read(alloc, name)),
        Err(FetchFault::Missing) => Err(cannot_read(alloc, name)),
        Err(FetchFault::Memory) => Err(Stop::Memory),
    }
}

/// The bytes in the file of that name, which is to be the text of a forest and is fetched once.
///
/// Stops with the status `ReadFault` where the shelf holds nothing under the name or fails; with
/// `NotForest` where there are more than [`MOST_FOREST_BYTES`]; or for want of memory.
pub fn load_forest<F: Shelf>(alloc: Global, shelf: &mut F, name: &str) -> Result<Vec<u8>, Stop>
    ensures answer { ByFetches (λ call. LoadsForest call name.now result)
        (change (F.state shelf.old) (F.state shelf.new)) }
    ensures counted { Fetched (change (F.state shelf.old) (F.state shelf.new)) 1 }
    ensures fetches { OnlyFetches (change (F.state shelf.old) (F.state shelf.new)) }
{
    match shelf.fetch(alloc, name, MOST_FOREST_BYTES) {
        Ok(bytes) => Ok(bytes),
        Err(FetchFault::Long) => Err(long_forest(alloc)),
        Err(FetchFault::Failed) => Err(cannot_read(alloc, name)),
        Err(FetchFault::Missing) => Err(cannot_read(alloc, name)),
        Err(FetchFault::Memory) => Err(Stop::Memory),
    }
}

/// The jobs of the list in the file of that name, which is fetched once.
///
/// Stops with the status `ReadFault` where the shelf holds nothing under the name or fails; with
/// `BadList` where there are more than [`MOST_LIST_BYTES`], or they aren't the text of a list; or
/// for want of memory.
pub fn load_list<F: Shelf>(alloc: Global, shelf: &mut F, name: &str) -> Result<Vec<Names>, Stop>
    ensures answer { ByFetches (λ call. LoadsList call name.now result)
        (change (F.state shelf.old) (F.state shelf.new)) }
    ensures few { IfOk result (λ jobs. vec_len jobs ≤ most_jobs) }
    ensures counted { Fetched (change (F.state shelf.old) (F.state shelf.new)) 1 }
    ensures fetches { OnlyFetches (change (F.state shelf.old) (F.state shelf.new)) }
{
    match shelf.fetch(alloc, name, MOST_LIST_BYTES) {
        Ok(bytes) => read_jobs(alloc, bytes.as_slice()),
        Err(FetchFault::Long) => Err(long_list(alloc)),
        Err(FetchFault::Failed) => Err(cannot_read(alloc, name)),
        Err(FetchFault::Missing) => Err(cannot_read(alloc, name)),
        Err(FetchFault::Memory) => Err(Stop::Memory),
    }
}

/// The jobs of the list that the bytes are the text of.
fn read_jobs(alloc: Global, bytes: &[u8]) -> Result<Vec<Names>, Stop>
    requires { length bytes.now ≤ most_list_bytes }
    ensures reads { ReadsList bytes.now result }
    ensures few { IfOk result (λ jobs. vec_len jobs ≤ most_jobs) }
{
    match read_list(alloc, bytes) {
        Ok(jobs) => Ok(jobs),
        Err(ListFault::Wrong { line }) => Err(bad_list(alloc, line)),
        Err(ListFault::Memory) => Err(Stop::Memory),
    }
}

/// The text of the bytes, with tabs of this width.
fn read_input(alloc: Global, bytes: &[u8], tabs: u32) -> Result<Text, Stop>
    requires { IsTabWidth tabs }
    ensures { ReadsInput tabs bytes.now result }
{
    match Text::decode(alloc, bytes) {
        Ok(text) => Ok(text.with_tabs(tabs)),
        Err(TextFault::NotUtf8 { at }) => Err(not_utf8(alloc, at)),
        Err(TextFault::TooLong) => Err(too_long(alloc)),
        Err(TextFault::Memory) => Err(Stop::Memory),
    }
}
