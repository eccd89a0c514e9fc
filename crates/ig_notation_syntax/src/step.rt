//! What stands first in a text.

ghost use Rattle.std.specs.Prelude.{◌≡◌, chars};
ghost use Rattle.ig_notation_syntax.specs.Spelling.{is_one_of, blanks};
ghost use Rattle.ig_notation_syntax.specs.Scanner.{next, comment};
ghost use Rattle.ig_notation_syntax.specs.Steps.{Begins, Gives};

use crate::characters::{self, Run};
use crate::token::Token;
use crate::{classes, literals, numbers, signs, words};

/// What stands first in a text that isn't empty: a separator or a token and then the rest, or
/// neither.
pub(crate) enum Step<'a> {
    Separator(&'a str),
    Takes(Token<'a>, &'a str),
    Broken,
}

/// What stands first in a text that begins with `c`, where `after` stands behind that.
pub(crate) fn first_step<'a>(text: &'a str, c: char, after: &'a str) -> Step<'a>
    requires { Begins text.now c after.now }
    ensures { Gives (next (chars text.now)) result }
{
    if is_blank(c) {
        return Step::Separator(after);
    }
    if c == '/' {
        return comment(after);
    }
    if characters::starts(c) {
        return words::word(text);
    }
    if characters::is_digit(c) {
        return numbers::numeral(text, c, after);
    }
    if c == '"' {
        return literals::literal(after);
    }
    if c == '[' {
        return classes::class(after);
    }
    if c == '$' {
        return words::named_class(after);
    }
    signs::sign(c, after)
}

/// What a comment is, of which `after` stands behind the first `/`.
fn comment<'a>(after: &'a str) -> Step<'a>
    ensures { Gives (comment (chars after.now)) result }
{
    let Some((c, line)) = characters::first(after) else {
        return Step::Broken;
    };
    if c != '/' {
        return Step::Broken;
    }
    let (_, rest) = characters::split(line, Run::OfLine);
    Step::Separator(rest)
}

fn is_blank(c: char) -> bool
    ensures { result ≡ is_one_of blanks c }
{
    match c {
        ' ' => true,
        '\t' => true,
        '\r' => true,
        '\n' => true,
        _ => false,
    }
}
