//! The limits of a grammar text that its tokens keep.

ghost use Rattle.std.specs.Prelude.{◌≡◌, ◌≤◌, ◌↔◌, IsTrue};
ghost use Rattle.ig_notation_syntax.specs.View.{token_of};
ghost use Rattle.ig_notation_terms.specs.Limits.{NumberFits, NumbersFit, IsShallow, meanings};
ghost use Rattle.ig_notation_terms.specs.Limits.{most_open, opened};

use ig_notation_syntax::{Placed, Token, number_of};

/// The most brackets that may be open at one place.
const MOST_OPEN: usize = 64;

/// Whether each number is at most 9,223,372,036,854,775,807.
pub fn numbers_fit(tokens: &[Placed]) -> bool
    ensures { IsTrue result ↔ NumbersFit (meanings tokens.now) }
{
    for placed in tokens {
        if !number_fits(placed.token) {
            return false;
        }
    }
    true
}

/// Whether the token is no number, or one that fits.
fn number_fits(token: Token) -> bool
    ensures { IsTrue result ↔ NumberFits (token_of token.entry) }
{
    match token {
        Token::Number(digits) => match number_of(digits) {
            Some(_) => true,
            None => false,
        },
        _ => true,
    }
}

/// Whether at most 64 brackets are open at each place: a head, `(` and `{` open one, `)` and `}`
/// close one, where one is open.
pub fn is_shallow(tokens: &[Placed]) -> bool
    ensures { IsTrue result ↔ IsShallow (meanings tokens.now) }
{
    let mut open = 0;
    for placed in tokens {
        open = opened(open, placed.token);
        if open > MOST_OPEN {
            return false;
        }
    }
    true
}

/// The number of brackets that are open behind the token, where `before` are before it.
fn opened(before: usize, token: Token) -> usize
    requires { before ≤ most_open }
    ensures { result ≡ opened before (token_of token.entry) }
{
    match token {
        Token::Head(_) => before + 1,
        Token::Open => before + 1,
        Token::OpenBrace => before + 1,
        Token::Close => before.saturating_sub(1),
        Token::CloseBrace => before.saturating_sub(1),
        _ => before,
    }
}
