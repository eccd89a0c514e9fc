//! Separators.

ghost use Rattle.std.specs.Prelude.{◌≡◌, MatchOption, chars, None};
ghost use Rattle.ig_notation_syntax.specs.Spelling.{is_one_of, blanks};
ghost use Rattle.ig_w3c_syntax.specs.Spelling.{behind_comment};
ghost use Rattle.ig_w3c_syntax.specs.Steps.{Separates, NoSeparator, IsRest, IsPast, EndsHead};
ghost use Rattle.ig_w3c_syntax.specs.Steps.{NoHead};
ghost use Rattle.ig_w3c_syntax.specs.Steps.{IsComment, NoComment, IsCommentEnd, NoCommentEnd};

use crate::characters;

/// What stands behind the separator at the front; `None` exactly where none stands there.
pub(crate) fn separator(text: &str) -> Option<&str>
    ensures { MatchOption result (NoSeparator (chars text.now)) (λ r. Separates (chars text.now)
        r.now) }
{
    let (c, after) = characters::first(text)?;
    if is_blank(c) {
        return Some(after);
    }
    let inside = comment_inside(text)?;
    match behind_comment(inside) {
        Some(rest) => Some(rest),
        None => None,
    }
}

/// What stands behind the `/*` at the front; `None` exactly where it doesn't stand there.
fn comment_inside(text: &str) -> Option<&str>
    ensures { MatchOption result (NoComment (chars text.now)) (λ r. IsComment (chars text.now)
        r.now) }
{
    characters::behind(characters::behind(text, '/')?, '*')
}

/// What stands behind the next `*/`; `None` exactly where there is none.
fn behind_comment(text: &str) -> Option<&str>
    ensures { MatchOption result (behind_comment (chars text.now) ≡ None) (λ r. IsRest
        (behind_comment (chars text.now)) r.now) }
{
    let mut rest = text;
    while let Some((_, after)) = characters::first(rest) {
        if let Some(behind) = comment_end(rest) {
            return Some(behind);
        }
        rest = after;
    }
    None
}

/// What stands behind the `*/` at the front; `None` exactly where it doesn't stand there.
fn comment_end(text: &str) -> Option<&str>
    ensures { MatchOption result (NoCommentEnd (chars text.now)) (λ r. IsCommentEnd (chars text.now)
        r.now) }
{
    characters::behind(characters::behind(text, '*')?, '/')
}

fn is_blank(c: char) -> bool
    ensures { result ≡ is_one_of blanks c }
{
    match c {
        ' ' => true,
        '\t' => true,
        '\r' => true,
        '\n' => true,
        _ => false,
    }
}

/// What stands behind all separators at the front.
fn past_separators(text: &str) -> &str
    ensures { IsPast (chars text.now) result.now }
{
    let mut rest = text;
    while let Some(after) = separator(rest) {
        rest = after;
    }
    rest
}

/// What stands behind the `::=` of a head, with separators before it or none; `None` exactly where
/// none stands there.
pub(crate) fn head_end(text: &str) -> Option<&str>
    ensures { MatchOption result (NoHead (chars text.now)) (λ r. EndsHead (chars text.now) r.now) }
{
    let sign = past_separators(text);
    let second = characters::behind(sign, ':')?;
    let third = characters::behind(second, ':')?;
    match characters::behind(third, '=') {
        Some(rest) => Some(rest),
        None => None,
    }
}
