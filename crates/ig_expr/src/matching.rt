//! Whether a pattern matches a text at a place.
ghost use Rattle.std.specs.Prelude.{◌≡◌, ℕ, ◌↔◌, IsTrue};
ghost use Rattle.ig_text.specs.Pattern.{Matches};
ghost use Rattle.ig_expr.specs.Matching.{width, matches_at, matches_before};

use ig_text::{Pattern, Text};

/// Whether the pattern matches at the position. Takes no memory.
pub(crate) fn matches_at(pattern: &Pattern, text: &Text, position: u32) -> bool
    ensures value { result ≡ matches_at text.now pattern.now position }
    ensures exact { IsTrue result ↔ ((j : ℕ) × Matches text.now pattern.now position j) }
{
    pattern.ends_at(text, position).is_some()
}

/// Whether a match of the pattern ends at the position. Takes no memory.
pub(crate) fn matches_before(pattern: &Pattern, text: &Text, position: u32) -> bool
    ensures value { result ≡ matches_before text.now pattern.now position }
    ensures exact { IsTrue result ↔ ((i : ℕ) × Matches text.now pattern.now i position) }
{
    let width = width(pattern);
    width <= position as usize && matches_at(pattern, text, position - width as u32)
}

/// How many characters a match of the pattern has.
fn width(pattern: &Pattern) -> usize
    ensures { result ≡ width pattern.now }
{
    match pattern {
        Pattern::Literal(word) => word.len(),
        Pattern::OneOf(_) => 1,
    }
}
