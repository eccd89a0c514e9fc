//! The table of the tab stops of a text: the positions directly behind its tabs, with their
//! columns.
ghost use Rattle.std.specs.Prelude.{◌≡◌, ◌≤◌, ◌*◌, ◌+◌, count_by, length, IfOk};
ghost use Rattle.std.specs.List.Sorted.{IsNonDecreasingBy};
ghost use Rattle.ig_text.specs.Input.{IsTabWidth};
ghost use Rattle.ig_text.specs.Limits.{most_characters, most_tabs};
ghost use Rattle.ig_text.specs.Lines.{columns_with, is_tab};
ghost use Rattle.ig_text.specs.StopTable.{stops_behind, IsStopSplit, IsLastUpTo};

use std::alloc::{AllocError, Global};

/// A position, and its column.
#[derive(Clone, Copy)]
pub(crate) struct Stop {
    pub(crate) position: u32,
    pub(crate) column: u32,
}

/// The stops of the characters where tabs have width 1, ascending.
pub(crate) fn stops_of(alloc: Global, characters: &[char]) -> Result<Vec<Stop>, AllocError>
    requires { length characters.now ≤ most_characters }
    ensures { IfOk result (λ v. v.items ≡ stops_behind 1 0 0 characters.now) }
{
    let mut stops = Vec::new(alloc);
    let mut columns = 0;
    for (index, character) in characters.iter().enumerate() {
        columns = columns_with(1, columns, *character);
        if *character == '\t' {
            stops.push(Stop {
                position: index as u32 + 1,
                column: columns + 1,
            })?;
        }
    }
    Ok(stops)
}

/// Writes the stops of the characters where tabs have this width, over as many of another width.
/// Takes no memory.
pub(crate) fn set_stops(stops: &mut [Stop], characters: &[char], tabs: u32)
    requires width { IsTabWidth tabs }
    requires characters { length characters.now ≤ most_characters }
    requires long { length stops.old ≡ count_by is_tab characters.now }
    ensures { stops.new ≡ stops_behind tabs 0 0 characters.now }
{
    let mut columns = 0;
    let mut next = 0;
    for (index, character) in characters.iter().enumerate() {
        columns = columns_with(tabs, columns, *character);
        if *character == '\t' {
            stops[next] = Stop {
                position: index as u32 + 1,
                column: columns + 1,
            };
            next += 1;
        }
    }
}

/// How many columns of its line end with the character, where `before` do before it.
fn columns_with(tabs: u32, before: u32, character: char) -> u32
    requires width { IsTabWidth tabs }
    requires before { before ≤ most_tabs * most_characters }
    ensures columns { result ≡ columns_with tabs before character }
    ensures bound { result ≤ before + tabs }
{
    match character {
        '\n' => 0,
        '\t' => (before / tabs + 1) * tabs,
        _ => before + 1,
    }
}

/// The number of stops that are at most the position, in logarithmic time. Takes no memory.
fn count_up_to(stops: &[Stop], position: u32) -> usize
    requires { IsNonDecreasingBy (λ s. s.position) stops.now }
    ensures { IsStopSplit stops.now position result }
{
    stops.partition_point(|stop| stop.position <= position)
}

/// The last stop that is at most the position, in logarithmic time; `start` where that is greater,
/// or there is none. Takes no memory.
pub(crate) fn last_up_to(stops: &[Stop], position: u32, start: Stop) -> Stop
    requires { IsNonDecreasingBy (λ s. s.position) stops.now }
    ensures { IsLastUpTo stops.now position start result }
{
    let count = count_up_to(stops, position);
    if count == 0 {
        return start;
    }
    let stop = stops[count - 1];
    if stop.position < start.position {
        return start;
    }
    stop
}
