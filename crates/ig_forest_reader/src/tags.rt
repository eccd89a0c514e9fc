//! Reading the lines of alternatives.
ghost use Rattle.std.specs.Prelude.{◌≡◌, ◌↔◌, ◌++◌, ◌∷◌, ℕ, List, IfOk, IsTrue, MatchBool, OnOk};
ghost use Rattle.std.specs.Prelude.{MatchOption, None, Some, codes, flat_map};
ghost use Rattle.ig_item.specs.Core.{alternative_at};
ghost use Rattle.ig_item.specs.declared.core_grammar.CoreAlt.{CoreAlt as alternative_type};
ghost use Rattle.std.specs.List.{AllByRecursion};
ghost use Rattle.std.specs.Fmt.{decimal};
ghost use Rattle.ig_show_texts.specs.TagText.{tag_text};
ghost use Rattle.ig_forest_tables.specs.declared.entry.Choice.{Choice as a_choice};
ghost use Rattle.ig_show_texts.specs.ForestText.{choice_text};
ghost use Rattle.ig_forest_reader.specs.Runs.{IsChoice, Stops};
ghost use Rattle.ig_forest_reader.specs.Shown.{Added, HasTag};
ghost use Rattle.ig_forest_reader.specs.Written.{IsNamed, IsSmallTag, IsTagOf, TellsNames};

use crate::fronts::{in_range, is_text, read_behind, read_last_number, read_number, split_word};
use crate::names::bytes_of;
use ig_forest_tables::Choice;
use ig_item::Core;
use ig_text::{Tag, Word};
use itoa::Buffer;
use std::alloc::AllocError;

/// Whether the bytes are the number in decimal.
fn is_number(bytes: &[u8], number: u32) -> bool
    ensures { IsTrue result ↔ (bytes.now ≡ decimal number) }
{
    let mut buffer = Buffer::new();
    is_text(bytes, buffer.format(number).as_bytes())
}

/// Whether the bytes are that text, and after it the number in decimal.
fn is_numbered(bytes: &[u8], text: &[u8], number: u32) -> bool
    ensures { IsTrue result ↔ (bytes.now ≡ text.now ++ decimal number) }
{
    let Some(digits) = read_behind(bytes, text) else {
        return false;
    };
    is_number(digits, number)
}

/// Whether the bytes are the tag of that alternative of a declaration of that name.
fn is_rule(bytes: &[u8], name: &[u8], alternative: u32) -> bool
    ensures { IsTrue result ↔ (bytes.now ≡ name.now ++ (codes "." ++ decimal alternative)) }
{
    let Some(behind) = read_behind(bytes, name) else {
        return false;
    };
    is_numbered(behind, b".", alternative)
}

/// Whether the bytes are that tag of a nonterminal of that name.
fn is_tag(bytes: &[u8], name: &Word, tag: Tag) -> bool
    ensures { IsTrue result ↔ (bytes.now ≡ tag_text name.now tag) }
{
    match tag {
        Tag::Rule { alternative, .. } => is_rule(bytes, bytes_of(name), alternative),
        Tag::Nil => is_text(bytes, b"$nil"),
        Tag::Snoc => is_text(bytes, b"$snoc"),
        Tag::One => is_text(bytes, b"$one"),
        Tag::More => is_text(bytes, b"$more"),
        Tag::Absent => is_text(bytes, b"$none"),
        Tag::Present => is_text(bytes, b"$some"),
        Tag::GroupAlt { number } => is_numbered(bytes, b"$group.", number),
        Tag::Root => is_text(bytes, b"$root"),
    }
}

/// The number after a point, or 0.
fn number_behind(bytes: &[u8]) -> u32 {
    let Some(digits) = read_behind(bytes, b".") else {
        return 0;
    };
    match read_number(digits) {
        Some((number, _)) => number,
        None => 0,
    }
}

/// Where the alternative of that tag mostly stands, from 1. Only time rests on it.
fn likely_place(bytes: &[u8], name: &Word) -> u32 {
    if let Some(behind) = read_behind(bytes, bytes_of(name)) {
        return number_behind(behind);
    }
    if let Some(behind) = read_behind(bytes, b"$group") {
        return number_behind(behind);
    }
    if is_text(bytes, b"$snoc") || is_text(bytes, b"$more") || is_text(bytes, b"$some") {
        return 2;
    }
    1
}

/// The tag itself, whose number is in the range of its type.
fn small_tag(tag: Tag) -> Tag
    ensures same { result ≡ tag }
    ensures small { IsSmallTag result }
{
    match tag {
        Tag::Rule {
            nonterminal,
            alternative,
        } => Tag::Rule {
            nonterminal,
            alternative: in_range(alternative),
        },
        Tag::GroupAlt { number } => Tag::GroupAlt {
            number: in_range(number),
        },
        Tag::Nil => Tag::Nil,
        Tag::Snoc => Tag::Snoc,
        Tag::One => Tag::One,
        Tag::More => Tag::More,
        Tag::Absent => Tag::Absent,
        Tag::Present => Tag::Present,
        Tag::Root => Tag::Root,
    }
}

/// The tag of that alternative of the nonterminal, where it has these bytes.
fn tag_at(core: &Core, nonterminal: u32, name: &Word, bytes: &[u8], place: u32) -> Option<Tag>
    ensures there { MatchOption result (Unit {0}) (λ tag. HasTag core.now nonterminal tag ×
        (bytes.now ≡ tag_text name.now tag)) }
    ensures none { result ≡ None → (a : alternative_type) →
        alternative_at core.now nonterminal place ≡ Some a →
        bytes.now ≡ tag_text name.now a.tag → ⊥ }
{
    let Some(tag) = core.tag(nonterminal, place) else {
        return None;
    };
    if is_tag(bytes, name, tag) {
        return Some(small_tag(tag));
    }
    None
}

/// The tag of the nonterminal that has these bytes.
fn tag_of(core: &Core, nonterminal: u32, bytes: &[u8]) -> Option<Tag>
    requires { TellsNames core.now }
    ensures there { MatchOption result (Unit {0}) (HasTag core.now nonterminal) }
    ensures exact { (name : List ℕ) → IsNamed core.now nonterminal name →
        MatchOption result (Unit {0}) (λ tag. bytes.now ≡ tag_text name tag) }
    ensures told { (name : List ℕ) (c : a_choice) → IsNamed core.now nonterminal name →
        IsTagOf core.now nonterminal c → bytes.now ≡ tag_text name c.tag → result ≡ Some c.tag }
{
    let Some(name) = core.name(nonterminal) else {
        return None;
    };
    let Some(many) = core.alternatives(nonterminal) else {
        return None;
    };
    if let Some(tag) = tag_at(core, nonterminal, name, bytes, likely_place(bytes, name)) {
        return Some(tag);
    }
    for place in 0..many {
        if let Some(tag) = tag_at(core, nonterminal, name, bytes, place + 1) {
            return Some(tag);
        }
    }
    None
}

/// The line of an alternative of the nonterminal.
fn read_choice<'a>(core: &Core, nonterminal: u32, bytes: &'a [u8]) -> Option<(Choice, &'a [u8])>
    requires { TellsNames core.now }
    ensures small { MatchOption result (Unit {0}) (λ r. IsTagOf core.now nonterminal r.0) }
    ensures exact { (name : List ℕ) → IsNamed core.now nonterminal name →
        MatchOption result (Unit {0}) (λ r. bytes.now ≡ choice_text name r.0 ++ r.1.now) }
    ensures told { (name : List ℕ) (c : a_choice) (us : List ℕ) →
        IsNamed core.now nonterminal name → IsTagOf core.now nonterminal c →
        bytes.now ≡ choice_text name c ++ us →
        MatchOption result ⊥ (λ r. (r.0 ≡ c) × (r.1.now ≡ us)) }
{
    let Some(begun) = read_behind(bytes, b"alt ") else {
        return None;
    };
    let (word, behind) = split_word(begun);
    let Some(tag) = tag_of(core, nonterminal, word) else {
        return None;
    };
    let Some(second) = read_behind(behind, b" ") else {
        return None;
    };
    let Some((item, rest)) = read_last_number(second) else {
        return None;
    };
    Some((Choice { tag, item }, rest))
}

/// Whether the bytes go on with the line of an alternative.
fn is_choice(bytes: &[u8]) -> bool
    ensures { MatchBool result (Stops IsChoice bytes.now → ⊥) (Stops IsChoice bytes.now) }
{
    match bytes {
        [] => false,
        [c, ..] => *c == 97,
    }
}

/// Adds the alternatives of the nonterminal whose lines stand at the front, up to another line, and
/// answers what stands after them.
pub(crate) fn push_choices<'a>(
    out: &mut Vec<Choice>,
    core: &Core,
    nonterminal: u32,
    bytes: &'a [u8],
) -> Result<&'a [u8], AllocError>
    requires { TellsNames core.now }
    ensures added { (name : List ℕ) → IsNamed core.now nonterminal name →
        IfOk result (λ rest. Added (IsTagOf core.now nonterminal) (flat_map (choice_text name))
        bytes.now rest.now out.old.items out.new.items) }
    ensures told { (name : List ℕ) (xs : List a_choice) (us : List ℕ) →
        IsNamed core.now nonterminal name → AllByRecursion (IsTagOf core.now nonterminal) xs →
        Stops IsChoice us → bytes.now ≡ flat_map (choice_text name) xs ++ us →
        IfOk result (λ rest. (rest.now ≡ us) × (out.new.items ≡ out.old.items ++ xs)) }
{
    let mut rest = bytes;
    for _ in 0..bytes.len() {
        if !is_choice(rest) {
            return Ok(rest);
        }
        let Some((choice, behind)) = read_choice(core, nonterminal, rest) else {
            return Ok(rest);
        };
        out.push(choice)?;
        rest = behind;
    }
    Ok(rest)
}
