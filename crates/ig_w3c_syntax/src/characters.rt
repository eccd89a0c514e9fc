//! A text is read from its front, character by character.

ghost use Rattle.std.specs.Prelude.{◌≡◌, ◌≢◌, [], MatchOption, chars, ◌++◌, IsUtf8, true, false};
ghost use Rattle.unicode_ident.specs.Ident.{is_xid_start, is_xid_continue};
ghost use Rattle.ig_w3c_syntax.specs.Spelling.{is_hexadecimal, is_inside};
ghost use Rattle.ig_notation_syntax.specs.Spelling.{begins};
ghost use Rattle.ig_w3c_syntax.specs.Steps.{Begins, IsSplit, IsBehind, belongs, IsAfter, NotFirst};

/// A kind of characters that stand together.
#[derive(Clone, Copy)]
pub(crate) enum Run {
    /// Those that may stand in a name behind its first.
    OfWord,
    /// The hexadecimal digits.
    OfHexadecimal,
    /// All but this quote and LF.
    Inside(char),
}

/// The first character of a text, and what stands behind it; `None` exactly where the text is
/// empty.
pub(crate) fn first(text: &str) -> Option<(char, &str)>
    ensures { MatchOption result (chars text.now ≡ []) (λ p. Begins text.now p.0 p.1.now) }
{
    let mut rest = text.chars();
    let c = rest.next()?;
    Some((c, rest.as_str()))
}

/// A text in two: its longest front of that kind, and the rest.
pub(crate) fn split(text: &str, run: Run) -> (&str, &str)
    ensures { IsSplit run text.now result.0.now result.1.now }
{
    let mut rest = text;
    while let Some((c, after)) = first(rest) {
        if !belongs(run, c) {
            break;
        }
        rest = after;
    }
    (front(text, rest), rest)
}

/// The front of a text that stands before the rest.
pub(crate) fn front<'a>(text: &'a str, rest: &str) -> &'a str
    requires { IsBehind text.now rest.now }
    ensures text { IsUtf8 result.now }
    ensures parts { text.now ≡ result.now ++ rest.now }
{
    &text[..text.len() - rest.len()]
}

fn belongs(run: Run, c: char) -> bool
    ensures { result ≡ belongs run c }
{
    match run {
        Run::OfWord => continues(c),
        Run::OfHexadecimal => is_hexadecimal(c),
        Run::Inside(quote) => is_inside(quote, c),
    }
}

/// Whether the character is a hexadecimal digit.
pub(crate) fn is_hexadecimal(c: char) -> bool
    ensures { result ≡ is_hexadecimal c }
{
    ('0' <= c && c <= '9') || ('A' <= c && c <= 'F') || ('a' <= c && c <= 'f')
}

/// Whether the character may stand between two of these quotes.
fn is_inside(quote: char, c: char) -> bool
    ensures { result ≡ is_inside quote c }
{
    c != quote && c != '\n'
}

/// Whether a name may begin with the character.
pub(crate) fn starts(c: char) -> bool
    ensures { result ≡ is_xid_start c }
{
    if c.is_ascii() {
        c.is_ascii_alphabetic()
    } else {
        unicode_ident::is_xid_start(c)
    }
}

/// Whether the character may stand in a name behind its first.
fn continues(c: char) -> bool
    ensures { result ≡ is_xid_continue c }
{
    if c.is_ascii() {
        c.is_ascii_alphanumeric() || c == '_'
    } else {
        unicode_ident::is_xid_continue(c)
    }
}

/// Whether the text begins with a character that may stand in a name behind its first.
pub(crate) fn goes_on(text: &str) -> bool
    ensures { result ≡ begins is_xid_continue (chars text.now) }
{
    match first(text) {
        Some((c, _)) => continues(c),
        None => false,
    }
}

/// What stands behind the character at the front; `None` exactly where another one stands there, or
/// none.
pub(crate) fn behind(text: &str, wanted: char) -> Option<&str>
    ensures { MatchOption result (NotFirst (chars text.now) wanted) (λ r. IsAfter (chars text.now)
        wanted r.now) }
{
    let (c, after) = first(text)?;
    if c == wanted { Some(after) } else { None }
}

/// Whether the text has no character.
pub(crate) fn is_empty(text: &str) -> bool
    ensures yes { result ≡ true → chars text.now ≡ [] }
    ensures no { result ≡ false → chars text.now ≢ [] }
{
    match first(text) {
        Some(_) => false,
        None => true,
    }
}
