//! The stops of a command, each with the line that it has for notes. For want of memory for the
//! line each of them is [`Stop::Memory`].
ghost use Rattle.std.specs.Prelude.{◌≡◌, ◌++◌, OnOk, codes};
ghost use Rattle.std.specs.Fmt.{decimal};
ghost use Rattle.ig_command_endings.specs.Notes.{depth_needed_note, no_cursor_note, no_parse_note};
ghost use Rattle.ig_command_endings.specs.Notes.{bad_list_note, long_list_note};
ghost use Rattle.ig_command_endings.specs.Notes.{long_forest_note, no_forest_note, not_sound_note};
ghost use Rattle.ig_command_endings.specs.Notes.{usage_note};
ghost use Rattle.ig_command_endings.specs.Stops.{IsBadAt, IsCannotRead, IsOverBudget, IsTooLong};
ghost use Rattle.ig_command_endings.specs.Stops.{RefusesWith, StopsWith};
ghost use Rattle.ig_command_endings.specs.declared.status.Status.TheVariants as status;

use crate::status::Status;
use crate::stop::{Stop, stop_with};
use itoa::Buffer;
use std::alloc::{AllocError, Global};

/// The line of wrong words.
const USAGE: &[u8] =
    b"usage: iguana (check|show|core) G | (forest|trees|query) G I | load SIZE NUMBER | batch F \
        | verify G I F | analyse G";

/// The words are no command: how the program is called.
pub fn usage(alloc: Global) -> Stop
    ensures { StopsWith status.Usage usage_note result }
{
    stop_with(alloc, Status::Usage, USAGE, b"")
}

/// The file of that name can't be read.
pub fn cannot_read(alloc: Global, name: &str) -> Stop
    ensures { IsCannotRead name.now result }
{
    stop_with(alloc, Status::ReadFault, b"cannot read ", name.as_bytes())
}

/// The grammar is refused with this text.
pub fn refuse(alloc: Global, text: &[u8]) -> Stop
    ensures { RefusesWith text.now result }
{
    stop_with(alloc, Status::Grammar, b"grammar: ", text)
}

/// The input is too long.
pub fn too_long(alloc: Global) -> Stop
    ensures { IsTooLong result }
{
    stop_with(alloc, Status::Input, b"input: too long", b"")
}

/// The input isn't UTF-8 after that many bytes.
pub fn not_utf8(alloc: Global, at: u32) -> Stop
    ensures { IsBadAt at result }
{
    let mut digits = Buffer::new();
    let at = digits.format(at);
    stop_with(
        alloc,
        Status::Input,
        b"input: not UTF-8 at byte ",
        at.as_bytes(),
    )
}

/// More items are reachable than the budget allows.
pub fn over_budget(alloc: Global, budget: u32) -> Stop
    ensures { IsOverBudget budget result }
{
    let mut items = Vec::new(alloc);
    match push_items(&mut items, budget) {
        Ok(()) => stop_with(
            alloc,
            Status::Budget,
            b"budget: more than ",
            items.as_slice(),
        ),
        Err(error) => Stop::from(error),
    }
}

/// Adds a number of items.
fn push_items(text: &mut Vec<u8>, number: u32) -> Result<(), AllocError>
    ensures { OnOk result (text.new.items
        ≡ text.old.items ++ (decimal number ++ codes " items")) }
{
    let mut digits = Buffer::new();
    text.extend_from_slice(digits.format(number).as_bytes())?;
    text.extend_from_slice(b" items")
}

/// No tree is permitted; the place says how far the items came, and what was expected there.
pub fn no_parse(alloc: Global, place: &[u8]) -> Stop
    ensures { StopsWith status.NoParse (no_parse_note place.now) result }
{
    stop_with(alloc, Status::NoParse, b"no parse at ", place)
}

/// A depth is wanted.
pub fn depth_needed(alloc: Global) -> Stop
    ensures { StopsWith status.DepthNeeded depth_needed_note result }
{
    stop_with(
        alloc,
        Status::DepthNeeded,
        b"depth needed: the forest is cyclic",
        b"",
    )
}

/// The word is the cursor of no tree that may be listed.
pub fn no_cursor(alloc: Global) -> Stop
    ensures { StopsWith status.BadCursor no_cursor_note result }
{
    stop_with(alloc, Status::BadCursor, b"no such cursor", b"")
}

/// The forest breaks the rule of this number at the item, or else the node, of that number.
pub fn not_sound(alloc: Global, item: bool, number: u32, rule: u32) -> Stop
    ensures { StopsWith status.NotSound (not_sound_note item number rule) result }
{
    let mut place = Vec::new(alloc);
    match push_broken(&mut place, number, rule) {
        Ok(()) => stop_with(
            alloc,
            Status::NotSound,
            if item {
                b"not sound: item "
            } else {
                b"not sound: node "
            },
            place.as_slice(),
        ),
        Err(error) => Stop::from(error),
    }
}

/// Adds the number of a node or an item, and that of the rule that is broken there.
fn push_broken(text: &mut Vec<u8>, number: u32, rule: u32) -> Result<(), AllocError>
    ensures { OnOk result (text.new.items
        ≡ text.old.items ++ (decimal number ++ (codes " rule " ++ decimal rule))) }
{
    let mut digits = Buffer::new();
    text.extend_from_slice(digits.format(number).as_bytes())?;
    text.extend_from_slice(b" rule ")?;
    text.extend_from_slice(digits.format(rule).as_bytes())
}

/// The text of a forest is too long.
pub fn long_forest(alloc: Global) -> Stop
    ensures { StopsWith status.NotForest long_forest_note result }
{
    stop_with(alloc, Status::NotForest, b"forest: too long", b"")
}

/// The text is that of no forest.
pub fn no_forest(alloc: Global) -> Stop
    ensures { StopsWith status.NotForest no_forest_note result }
{
    stop_with(alloc, Status::NotForest, b"forest: not a forest", b"")
}

/// The text of a list of jobs is too long.
pub fn long_list(alloc: Global) -> Stop
    ensures { StopsWith status.BadList long_list_note result }
{
    stop_with(alloc, Status::BadList, b"batch list: too long", b"")
}

/// The line of that number, counted from 1, is the first wrong one of a list of jobs.
pub fn bad_list(alloc: Global, line: u32) -> Stop
    ensures { StopsWith status.BadList (bad_list_note line) result }
{
    let mut digits = Buffer::new();
    let line = digits.format(line);
    stop_with(
        alloc,
        Status::BadList,
        b"batch list: line ",
        line.as_bytes(),
    )
}
