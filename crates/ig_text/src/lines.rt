//! The table of the positions at which the lines of a text begin.
ghost use Rattle.std.specs.Prelude.{◌≡◌, ◌≤◌, length, IfOk};
ghost use Rattle.std.specs.List.Sorted.{IsNonDecreasing};
ghost use Rattle.ig_text.specs.Limits.{most_characters};
ghost use Rattle.ig_text.specs.LineTable.{line_starts, IsSplitAt};

use std::alloc::{AllocError, Global};

/// The positions at which the lines of the characters begin, ascending.
pub(crate) fn starts_of(alloc: Global, characters: &[char]) -> Result<Vec<u32>, AllocError>
    requires { length characters.now ≤ most_characters }
    ensures { IfOk result (λ v. v.items ≡ line_starts characters.now) }
{
    let mut starts = Vec::new(alloc);
    starts.push(0)?;
    for (index, character) in characters.iter().enumerate() {
        if *character == '\n' {
            starts.push(index as u32 + 1)?;
        }
    }
    Ok(starts)
}

/// The number of starts that are at most the position, in logarithmic time. Takes no memory.
pub(crate) fn count_up_to(starts: &[u32], position: u32) -> usize
    requires { IsNonDecreasing starts.now }
    ensures { IsSplitAt starts.now position result }
{
    starts.partition_point(|start| *start <= position)
}
