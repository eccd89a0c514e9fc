//! Checking a forest that somebody wrote down.
ghost use Rattle.std.specs.Prelude.{◌≤◌, length};
ghost use Rattle.ig_command_jobs.specs.Verifying.{IsTaken, SaysVerified, VerifiesDraft};
ghost use Rattle.ig_command_jobs.specs.Verifying.{VerifiesText};
ghost use Rattle.ig_command_sources.specs.Sources.{most_forest_bytes};

use ig_command_endings::{Stop, no_forest, not_sound};
use ig_forest_reader::{ForestFault, read_forest};
use ig_item::Core;
use ig_parse::Parser;
use ig_text::Text;
use ig_verify::{Draft, verify};
use ig_verify_laws::{
    read_cores_tell_names, reduced_forests_are_certified, verified_trees_are_permitted,
};
use std::alloc::Global;

/// What comes of the bytes that are to be the text of a forest of the parser's grammar and the
/// input: the line `verified`, where they are one, and it breaks no rule.
///
/// Stops with the status `NotForest` exactly where the bytes are the text of no forest with the
/// names and tags of the parser's core grammar; with `NotSound` and the first broken rule exactly
/// where one is broken; or for want of memory. Neither comes for the text of the reduced forest.
/// The bytes may be many, so they go before the forest is checked.
pub fn verify_text(
    alloc: Global,
    parser: &Parser<'_>,
    input: &Text,
    bytes: Vec<u8>,
) -> Result<Vec<u8>, Stop>
    requires taken { IsTaken parser.now }
    requires few { length bytes.items ≤ most_forest_bytes }
    ensures { VerifiesText parser.now input.now bytes.items result }
{
    read_cores_tell_names();
    reduced_forests_are_certified();
    verified_trees_are_permitted();
    let core = parser.core();
    let _nonterminals = core.nonterminals();
    let _characters = input.len();
    let draft = match read_forest(alloc, bytes.as_slice(), core) {
        Ok(draft) => draft,
        Err(ForestFault::NotAForest) => return Err(no_forest(alloc)),
        Err(ForestFault::Memory) => return Err(Stop::Memory),
    };
    drop(bytes);
    verify_draft(alloc, core, input, &draft)
}

/// What comes of a forest that was read, by its rules.
fn verify_draft(alloc: Global, core: &Core, input: &Text, draft: &Draft) -> Result<Vec<u8>, Stop>
    ensures { VerifiesDraft core.now input.now draft.now result }
{
    match verify(alloc, draft, core, input)? {
        Some(flaw) => Err(not_sound(alloc, flaw.item, flaw.number, flaw.rule)),
        None => say_verified(alloc),
    }
}

/// The line that says that a forest is sound.
fn say_verified(alloc: Global) -> Result<Vec<u8>, Stop>
    ensures { SaysVerified result }
{
    let text = Vec::from_slice(alloc, b"verified\n")?;
    Ok(text)
}
