//! The nonterminals by their names.
ghost use Rattle.std.specs.Prelude.{◌≡◌, ◌<◌, IfOk, IsTrue, List, Some, encode_utf8_all};
ghost use Rattle.std.specs.Prelude.{length, slice_get};
ghost use Rattle.ig_item.specs.declared.core_grammar.Nonterminal.{Nonterminal as nonterminal_type};
ghost use Rattle.ig_text.specs.Limits.{numbers_end};
ghost use Rattle.ig_forest_reader.specs.Shown.{FindsNames, IsIndex, lookup};
ghost use Rattle.ig_forest_reader.specs.Written.{TellsNames};

use crate::fronts::is_text;
use ig_item::{Core, Nonterminal};
use ig_text::Word;
use std::alloc::{AllocError, Global};
use std::collections::BTreeMap;

/// How many guesses a table has.
const GUESSES: usize = 1024;

/// Nonterminals that are found by the bytes of their names.
#[derive(Drop)]
pub(crate) struct NameTable<'c> {
    nonterminals: &'c [Nonterminal],
    numbers: BTreeMap<&'c [u8], u32>,
    /// Which nonterminal is tried first, by the hash of a name. Only time rests on it.
    guesses: Vec<u32>,
}

/// The nonterminals by their names. Refused for want of memory alone.
pub(crate) fn index_names<'c>(
    alloc: Global,
    nonterminals: &'c [Nonterminal],
) -> Result<NameTable<'c>, AllocError>
    requires tells { TellsNames nonterminals.now }
    requires few { length nonterminals.now < numbers_end }
    ensures { IfOk result (IsIndex nonterminals.now) }
{
    let guesses = guesses_of(alloc, nonterminals)?;
    let numbers = numbers_of(alloc, nonterminals)?;
    Ok(NameTable {
        nonterminals,
        numbers,
        guesses,
    })
}

/// The number of each nonterminal by the bytes of its name.
fn numbers_of<'c>(
    alloc: Global,
    nonterminals: &'c [Nonterminal],
) -> Result<BTreeMap<&'c [u8], u32>, AllocError>
    requires tells { TellsNames nonterminals.now }
    requires few { length nonterminals.now < numbers_end }
    ensures { IfOk result (FindsNames nonterminals.now) }
{
    let mut index = BTreeMap::new(alloc);
    let mut number = 0_u32;
    for nonterminal in nonterminals {
        index.insert(bytes_of(&nonterminal.name), number)?;
        number += 1;
    }
    Ok(index)
}

/// A nonterminal for each hash, one with that hash where there is one.
fn guesses_of(alloc: Global, nonterminals: &[Nonterminal]) -> Result<Vec<u32>, AllocError> {
    let mut guesses = vec![in alloc; 0; GUESSES]?;
    let mut number = 0_u32;
    for nonterminal in nonterminals {
        if let Some(guess) = guesses.get_mut(hash_of(bytes_of(&nonterminal.name))) {
            *guess = number;
        }
        number = number.saturating_add(1);
    }
    Ok(guesses)
}

/// The hash of a name, which is less than `GUESSES`.
fn hash_of(name: &[u8]) -> usize {
    let mut hash = 0_u32;
    for byte in name {
        hash = hash.wrapping_mul(31).wrapping_add(u32::from(*byte));
    }
    hash as usize % GUESSES
}

/// The bytes of a name.
pub(crate) fn bytes_of(name: &Word) -> &[u8]
    ensures { result.now ≡ encode_utf8_all name.now }
{
    name.as_str().as_bytes()
}

/// The nonterminal that is tried first for these bytes.
fn guess_of(index: &NameTable<'_>, bytes: &[u8]) -> u32 {
    match index.guesses.get(hash_of(bytes)) {
        Some(guess) => *guess,
        None => 0,
    }
}

/// Whether the nonterminal of that number has a name of these bytes.
fn has_name(nonterminals: &[Nonterminal], number: u32, bytes: &[u8]) -> bool
    ensures { IsTrue result → (n : nonterminal_type) ×
        (slice_get nonterminals.now number ≡ Some n) × (bytes.now ≡ encode_utf8_all n.name) }
{
    match nonterminals.get(number as usize) {
        Some(nonterminal) => is_text(bytes, bytes_of(&nonterminal.name)),
        None => false,
    }
}

/// The nonterminal whose name has these bytes.
pub(crate) fn nonterminal_of(index: &NameTable<'_>, bytes: &[u8]) -> Option<u32>
    ensures { (core : List nonterminal_type) → IsIndex core index.now →
        result ≡ lookup index.now bytes.now }
{
    let guess = guess_of(index, bytes);
    if has_name(index.nonterminals, guess, bytes) {
        return Some(guess);
    }
    index.numbers.get(bytes).copied()
}
