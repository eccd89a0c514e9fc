//! Tokens are put into those of the own notation.

ghost use Rattle.std.specs.Prelude.{◌≡◌, ◌∷◌, [], ◌++◌, IfOk, OnOk, length};
ghost use Rattle.ig_notation_syntax.specs.Token as own;
ghost use Rattle.ig_notation_terms.specs.Limits.{meanings as own_meanings, NumbersFit};
ghost use Rattle.ig_notation_syntax.specs.View.{token_of as own_meaning};
ghost use Rattle.ig_w3c_syntax.specs.View.{token_of, meanings};
ghost use Rattle.ig_w3c_syntax.specs.Reading.{in_own_notation};
ghost use Rattle.ig_w3c.specs.Steps.{own_token, put, started};

use ig_notation_syntax::{Placed as OwnPlaced, Token as Own};
use ig_text::Class;
use ig_w3c_syntax::{Placed, Token};
use std::alloc::{AllocError, Global};

/// The tokens of the own notation that read as these do: a start line that names the first rule,
/// each rule as a lexical declaration, and `-` as `\`.
pub(crate) fn in_own_notation<'a>(
    alloc: Global,
    tokens: &'a [Placed<'a>],
) -> Result<Vec<OwnPlaced<'a>>, AllocError>
    ensures ok { IfOk result (λ v. own_meanings v.items ≡ in_own_notation (meanings tokens.now)) }
    ensures numbers { IfOk result (λ v. NumbersFit (own_meanings v.items)) }
{
    let mut own = Vec::new(alloc);
    begin(&mut own, tokens)?;
    for placed in tokens {
        put(&mut own, placed)?;
    }
    add(&mut own, Own::Semicolon, 0)?;
    Ok(own)
}

/// Adds the beginning of the start line, up to before its `;`, where the first token is a head.
fn begin<'a>(own: &mut Vec<OwnPlaced<'a>>, tokens: &'a [Placed<'a>]) -> Result<(), AllocError>
    ensures { OnOk result (own_meanings own.new.items ≡ own_meanings own.old.items ++ started
        (meanings tokens.now)) }
{
    match tokens.first() {
        Some(placed) => begin_at(own, placed),
        None => Ok(()),
    }
}

fn begin_at<'a>(own: &mut Vec<OwnPlaced<'a>>, placed: &'a Placed<'a>) -> Result<(), AllocError>
    ensures { OnOk result (own_meanings own.new.items ≡ own_meanings own.old.items ++ started
        (token_of placed.now.token ∷ [])) }
{
    match &placed.token {
        Token::Head(name) => {
            add(own, Own::Start, placed.at)?;
            add(own, Own::Name(name), placed.at)
        }
        _ => Ok(()),
    }
}

/// Adds what the token is in the own notation: of a head, the end of the declaration before and the
/// beginning of another one.
fn put<'a>(own: &mut Vec<OwnPlaced<'a>>, placed: &'a Placed<'a>) -> Result<(), AllocError>
    ensures { OnOk result (own_meanings own.new.items ≡ own_meanings own.old.items ++ put
        (token_of placed.now.token)) }
{
    if let Token::Head(name) = &placed.token {
        add(own, Own::Semicolon, placed.at)?;
        add(own, Own::Lexical, placed.at)?;
        add(own, Own::Name(name), placed.at)?;
        return add(own, Own::Equals, placed.at);
    }
    add(own, own_token(&placed.token), placed.at)
}

/// What a token is in the own notation; of a head, its name.
fn own_token<'a>(token: &'a Token<'a>) -> Own<'a>
    ensures { own_meaning result ≡ own_token (token_of token.now) }
{
    match token {
        Token::Head(name) => Own::Name(name),
        Token::Name(name) => Own::Name(name),
        Token::Text(text) => Own::Exact(text),
        Token::Code(c) => Own::Character(*c),
        Token::Set(class) => own_class(class),
        Token::Bar => Own::Bar,
        Token::Open => Own::Open,
        Token::Close => Own::Close,
        Token::Question => Own::Question,
        Token::Star => Own::Star,
        Token::Plus => Own::Plus,
        Token::Minus => Own::Backslash,
    }
}

fn own_class<'a>(class: &'a Class) -> Own<'a>
    ensures { own_meaning result ≡ own.OneOf class.now }
{
    match class {
        Class::Ranges { negated, ranges } => Own::Made(*negated, ranges.as_slice()),
        Class::Any => Own::Any,
        Class::XidStart => Own::XidStart,
        Class::XidContinue => Own::XidContinue,
    }
}

/// Adds a token at the end.
fn add<'a>(own: &mut Vec<OwnPlaced<'a>>, token: Own<'a>, at: u32) -> Result<(), AllocError>
    ensures { OnOk result (own_meanings own.new.items ≡ own_meanings own.old.items ++ own_meaning
        token.entry ∷ []) }
{
    match own.push(OwnPlaced { token, at }) {
        Ok(()) => Ok(()),
        Err(_refused) => Err(AllocError),
    }
}
