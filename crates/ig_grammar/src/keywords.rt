//! Which words are names of the notation.

ghost use Rattle.std.specs.Prelude.{◌≡◌, bytes_eq, chars};
ghost use Rattle.std.specs.List.{list_any, list_all};
ghost use Rattle.ig_text.specs.Class.{is_in_class};
ghost use Rattle.ig_grammar.specs.Name.{is_keyword, is_identifier, is_name};

use ig_text::{Class, Word};

/// The words that are no names.
const KEYWORDS: [&str; 25] = [
    "start", "syntax", "lexical", "layout", "left", "right", "nonassoc", "offside", "ignore",
    "align", "when", "let", "here", "true", "false", "and", "or", "not", "div", "mod", "int",
    "bool", "span", "tabs", "return",
];

/// Whether the word is a name of the notation: an identifier that is no keyword. Names that passes
/// add are none. Takes no memory.
pub fn is_name(word: &Word) -> bool
    ensures { result ≡ is_name word.now }
{
    is_identifier(word.as_chars()) && !is_keyword(word.as_str())
}

/// Whether the text is a keyword of the notation. Takes no memory.
pub fn is_keyword(text: &str) -> bool
    ensures { result ≡ is_keyword (chars text.now) }
{
    is_among(&KEYWORDS, text)
}

/// Whether a character that may begin a name stands first, and then such as may go on with it.
fn is_identifier(word: &[char]) -> bool
    ensures { result ≡ is_identifier word.now }
{
    match word {
        [first, rest @ ..] => {
            if Class::XidStart.has(*first) {
                goes_on(rest)
            } else {
                false
            }
        }
        [] => false,
    }
}

/// Whether a name may go on with each of the characters.
fn goes_on(rest: &[char]) -> bool
    ensures { result ≡ list_all (is_in_class Class.XidContinue) rest.now }
{
    rest.iter().all(|c| Class::XidContinue.has(*c))
}

/// Whether the text is among the words.
fn is_among(words: &[&str], text: &str) -> bool
    ensures { result ≡ list_any (λ w. bytes_eq w.now text.now) words.now }
{
    words.iter().any(|w| *w == text)
}
