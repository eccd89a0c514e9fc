//! Single tokens.

ghost use Rattle.std.specs.Prelude.{◌≡◌, true, false, chars, IfOk, IfErr, None};
ghost use Rattle.ig_notation_syntax.specs.View.{token_of};
ghost use Rattle.ig_notation_syntax.specs.Token as spec;
ghost use Rattle.ig_notation_syntax.specs.Machine.{after, name, numeral};
ghost use Rattle.ig_notation_terms.specs.Readers.{Stands, StandsNumber, Takes, Misses, MissesAt};
ghost use Rattle.ig_notation_terms.specs.Readers.{sign_token, want_of};

use crate::fault::RuleFault;
use crate::tokens::Tokens;
use ig_notation_syntax::{Token, number_of};

/// A sign that the rules ask for.
#[derive(Clone, Copy)]
pub enum Sign {
    Semicolon,
    Equals,
    Bar,
    Greater,
    Colon,
    Comma,
    Open,
    Close,
    CloseBrace,
}

/// Whether the token of this number is the sign.
pub fn stands_at(tokens: &Tokens, at: usize, wanted: Sign) -> bool
    ensures yes { result ≡ true → Stands tokens.now at (sign_token wanted) }
    ensures no { result ≡ false → Misses (want_of wanted) tokens.now at }
{
    match tokens.get(at) {
        Some(token) => is_sign(token, wanted),
        None => false,
    }
}

/// The number of the token behind the sign, which stands there. Refused as unexpected exactly where
/// another token stands there, or none. Takes no memory.
pub fn read_sign(tokens: &Tokens, at: usize, wanted: Sign) -> Result<usize, RuleFault>
    ensures ok { IfOk result (Takes (sign_token wanted) tokens.now at) }
    ensures err { IfErr result (MissesAt (want_of wanted) tokens.now at) }
{
    if stands_at(tokens, at, wanted) {
        Ok(at + 1)
    } else {
        Err(RuleFault::Unexpected { token: at })
    }
}

/// Whether the token is the sign.
fn is_sign(token: Token, sign: Sign) -> bool
    ensures yes { result ≡ true → token_of token.entry ≡ sign_token sign }
    ensures no { result ≡ false → after (want_of sign) (token_of token.entry) ≡ None }
{
    match sign {
        Sign::Semicolon => matches!(token, Token::Semicolon),
        Sign::Equals => matches!(token, Token::Equals),
        Sign::Bar => matches!(token, Token::Bar),
        Sign::Greater => matches!(token, Token::Greater),
        Sign::Colon => matches!(token, Token::Colon),
        Sign::Comma => matches!(token, Token::Comma),
        Sign::Open => matches!(token, Token::Open),
        Sign::Close => matches!(token, Token::Close),
        Sign::CloseBrace => matches!(token, Token::CloseBrace),
    }
}

/// The name that stands there, in front of the token of the next number. Refused as unexpected
/// exactly where no name stands there. Takes no memory.
pub fn read_name<'a>(tokens: &Tokens<'a>, at: usize) -> Result<&'a str, RuleFault>
    ensures ok { IfOk result (λ x. Stands tokens.now at (spec.Name (chars x.now))) }
    ensures err { IfErr result (MissesAt name tokens.now at) }
{
    match tokens.ahead(at)? {
        Token::Name(name) => Ok(name),
        _ => Err(RuleFault::Unexpected { token: at }),
    }
}

/// The number that stands there, in front of the token of the next number. Refused as unexpected
/// exactly where no number stands there. Takes no memory.
pub fn read_number(tokens: &Tokens, at: usize) -> Result<i64, RuleFault>
    ensures ok { IfOk result (StandsNumber tokens.now at) }
    ensures err { IfErr result (MissesAt numeral tokens.now at) }
{
    match tokens.ahead(at)? {
        Token::Number(digits) => {
            tokens.numbers_fit();
            match number_of(digits) {
                Some(number) => Ok(number),
                None => unreachable!(),
            }
        }
        _ => Err(RuleFault::Unexpected { token: at }),
    }
}
