//! The machine that reads tokens one by one, and stops at the first that can't follow.

ghost use Rattle.std.specs.Prelude.{◌≡◌, ◌<◌, ◌^◌, ℕ, Some, None, if◌then◌else◌};
ghost use Rattle.ig_w3c_syntax.specs.View.{token_of, meanings};
ghost use Rattle.ig_w3c_syntax.specs.Machine.{step, step_begin, step_item, step_string};
ghost use Rattle.ig_w3c_syntax.specs.Machine.{step_head, step_close, step_behind, step_sign};
ghost use Rattle.ig_w3c_syntax.specs.Machine.{step_atom, stop, stop_of};

use crate::token::{Placed, Token};

/// What stands before a token, or must come next.
#[derive(Clone, Copy)]
pub(crate) enum State {
    /// A head must come.
    Begin,
    /// An item must come.
    Item,
    /// A string must come, behind `-`.
    Excluded,
    /// An atom stands before.
    BehindAtom,
    /// The sign of an atom stands before.
    BehindSign,
    /// A whole item stands before.
    BehindItem,
}

/// A state, and how many brackets are open.
#[derive(Clone, Copy)]
pub(crate) struct At {
    pub state: State,
    pub brackets: usize,
}

/// The number of the first token, from 0, such that no tokens that follow the rules begin with
/// those up to and including it; the number of all tokens where they end too early; `None` where
/// they follow the rules.
pub fn stop(tokens: &[Placed]) -> Option<usize>
    ensures { result ≡ stop_of (meanings tokens.now) }
{
    let mut state = State::Begin;
    let mut brackets = 0;
    for (number, placed) in tokens.iter().enumerate() {
        match step(state, brackets, &placed.token) {
            Some(next) => {
                state = next.state;
                brackets = next.brackets;
            }
            None => return Some(number),
        }
    }
    if may_end(state, brackets) {
        return None;
    }
    Some(tokens.len())
}

/// Whether rules may end there.
fn may_end(state: State, brackets: usize) -> bool
    ensures { (k : ℕ) → stop k state brackets ≡ (if result then None else Some k) }
{
    if brackets > 0 {
        return false;
    }
    match state {
        State::BehindAtom => true,
        State::BehindSign => true,
        State::BehindItem => true,
        _ => false,
    }
}

/// What stands behind the token; `None` where it can't follow.
fn step(state: State, brackets: usize, token: &Token) -> Option<At>
    requires { brackets < 2 ^ 62 }
    ensures { result ≡ step state brackets (token_of token.now) }
{
    match state {
        State::Begin => step_begin(brackets, token),
        State::Item => step_item(brackets, token),
        State::Excluded => step_string(brackets, token),
        State::BehindAtom => step_atom(brackets, token),
        State::BehindSign => step_sign(brackets, token),
        State::BehindItem => step_behind(brackets, token),
    }
}

/// A head must come.
fn step_begin(brackets: usize, token: &Token) -> Option<At>
    ensures { result ≡ step_begin brackets (token_of token.now) }
{
    match token {
        Token::Head(_) => goes_to(State::Item, brackets),
        _ => None,
    }
}

/// An item must come.
fn step_item(brackets: usize, token: &Token) -> Option<At>
    requires { brackets < 2 ^ 62 }
    ensures { result ≡ step_item brackets (token_of token.now) }
{
    match token {
        Token::Name(_) => goes_to(State::BehindAtom, brackets),
        Token::Text(_) => goes_to(State::BehindAtom, brackets),
        Token::Code(_) => goes_to(State::BehindAtom, brackets),
        Token::Set(_) => goes_to(State::BehindAtom, brackets),
        Token::Open => goes_to(State::Item, brackets + 1),
        _ => None,
    }
}

/// A string must come.
fn step_string(brackets: usize, token: &Token) -> Option<At>
    ensures { result ≡ step_string brackets (token_of token.now) }
{
    match token {
        Token::Text(_) => goes_to(State::BehindItem, brackets),
        _ => None,
    }
}

/// Behind an item: a head where no bracket is open, `)` where one is, `|`, or what begins an item.
fn step_behind(brackets: usize, token: &Token) -> Option<At>
    requires { brackets < 2 ^ 62 }
    ensures { result ≡ step_behind brackets (token_of token.now) }
{
    match token {
        Token::Head(_) => step_head(brackets),
        Token::Close => step_close(brackets),
        Token::Bar => goes_to(State::Item, brackets),
        _ => step_item(brackets, token),
    }
}

fn step_head(brackets: usize) -> Option<At>
    ensures { result ≡ step_head brackets }
{
    if brackets > 0 {
        return None;
    }
    goes_to(State::Item, 0)
}

fn step_close(brackets: usize) -> Option<At>
    ensures { result ≡ step_close brackets }
{
    let others = brackets.checked_sub(1)?;
    goes_to(State::BehindAtom, others)
}

/// Behind an atom and its sign: a `-`, or what may stand behind an item.
fn step_sign(brackets: usize, token: &Token) -> Option<At>
    requires { brackets < 2 ^ 62 }
    ensures { result ≡ step_sign brackets (token_of token.now) }
{
    match token {
        Token::Minus => goes_to(State::Excluded, brackets),
        _ => step_behind(brackets, token),
    }
}

/// Behind an atom: its sign, or what may stand behind that.
fn step_atom(brackets: usize, token: &Token) -> Option<At>
    requires { brackets < 2 ^ 62 }
    ensures { result ≡ step_atom brackets (token_of token.now) }
{
    match token {
        Token::Question => goes_to(State::BehindSign, brackets),
        Token::Star => goes_to(State::BehindSign, brackets),
        Token::Plus => goes_to(State::BehindSign, brackets),
        _ => step_sign(brackets, token),
    }
}

fn goes_to(state: State, brackets: usize) -> Option<At>
    ensures { result ≡ Some (record { state = state; brackets = brackets }) }
{
    Some(At { state, brackets })
}
