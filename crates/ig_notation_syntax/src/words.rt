//! Names, heads, keywords and the classes that have a name.

ghost use Rattle.std.specs.Prelude.{◌≡◌, chars, option_map};
ghost use Rattle.ig_notation_syntax.specs.Token.{OneOf};
ghost use Rattle.ig_notation_syntax.specs.Spelling.{entry, keywords, named_classes};
ghost use Rattle.ig_notation_syntax.specs.Scanner.{word_token, name_token, named_class};
ghost use Rattle.ig_notation_syntax.specs.View.{token_of};
ghost use Rattle.ig_notation_syntax.specs.Steps.{Gives, rows_of};

use crate::characters::{self, Run};
use crate::step::Step;
use crate::token::Token;

// The keywords, by their lengths.
static OF_TWO: [(&str, Token<'static>); 1] = [("or", Token::Or)];

static OF_THREE: [(&str, Token<'static>); 6] = [
    ("let", Token::Let),
    ("and", Token::And),
    ("not", Token::Not),
    ("div", Token::Div),
    ("mod", Token::Mod),
    ("int", Token::Int),
];

static OF_FOUR: [(&str, Token<'static>); 7] = [
    ("left", Token::Left),
    ("when", Token::When),
    ("here", Token::Here),
    ("true", Token::True),
    ("bool", Token::Bool),
    ("span", Token::Span),
    ("tabs", Token::Tabs),
];

static OF_FIVE: [(&str, Token<'static>); 4] = [
    ("start", Token::Start),
    ("right", Token::Right),
    ("align", Token::Align),
    ("false", Token::False),
];

static OF_SIX: [(&str, Token<'static>); 4] = [
    ("syntax", Token::Syntax),
    ("layout", Token::Layout),
    ("ignore", Token::Ignore),
    ("return", Token::Return),
];

static OF_SEVEN: [(&str, Token<'static>); 2] = [
    ("lexical", Token::Lexical),
    ("offside", Token::Offside),
];

static OF_EIGHT: [(&str, Token<'static>); 1] = [("nonassoc", Token::Nonassoc)];

// The classes that have a name.
static CLASSES: [(&str, Token<'static>); 3] = [
    ("any", Token::Any),
    ("xid_start", Token::XidStart),
    ("xid_continue", Token::XidContinue),
];

/// What a text is that begins with a word.
pub(crate) fn word<'a>(text: &'a str) -> Step<'a>
    ensures { Gives (word_token (chars text.now)) result }
{
    let (front, rest) = characters::split(text, Run::OfWord);
    match keyword(front) {
        Some(token) => Step::Takes(token, rest),
        None => name(front, rest),
    }
}

/// A name or a head, where `rest` stands behind the name.
fn name<'a>(name: &'a str, rest: &'a str) -> Step<'a>
    ensures { Gives (name_token (chars name.now) (chars rest.now)) result }
{
    match characters::first(rest) {
        Some((c, behind)) => {
            if c == '(' {
                Step::Takes(Token::Head(name), behind)
            } else {
                Step::Takes(Token::Name(name), rest)
            }
        }
        None => Step::Takes(Token::Name(name), rest),
    }
}

/// The keyword that a word is; `None` exactly where it is none.
fn keyword(word: &str) -> Option<Token<'static>>
    ensures { option_map token_of result ≡ entry keywords (chars word.now) }
{
    match word.len() {
        2 => entry(&OF_TWO, word),
        3 => entry(&OF_THREE, word),
        4 => entry(&OF_FOUR, word),
        5 => entry(&OF_FIVE, word),
        6 => entry(&OF_SIX, word),
        7 => entry(&OF_SEVEN, word),
        8 => entry(&OF_EIGHT, word),
        _ => None,
    }
}

/// What a class with a name is, of which `after` stands behind the `$`.
pub(crate) fn named_class<'a>(after: &'a str) -> Step<'a>
    ensures { Gives (named_class (chars after.now)) result }
{
    let (front, rest) = characters::split(after, Run::OfWord);
    match class_named(front) {
        Some(token) => Step::Takes(token, rest),
        None => Step::Broken,
    }
}

/// The class with that name; `None` exactly where there is none.
fn class_named(name: &str) -> Option<Token<'static>>
    ensures { option_map token_of result ≡ option_map OneOf (entry named_classes (chars name.now)) }
{
    entry(&CLASSES, name)
}

/// What the table has beside the word; `None` exactly where it hasn't the word.
fn entry<'a>(table: &[(&str, Token<'a>)], word: &str) -> Option<Token<'a>>
    ensures { option_map token_of result ≡ entry (rows_of table.now) word.now }
{
    for (key, token) in table {
        if *key == word {
            return Some(*token);
        }
    }
    None
}
