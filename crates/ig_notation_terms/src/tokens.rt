//! The tokens of a grammar text, as the readers go over them.

ghost use Rattle.std.specs.Prelude.{◌≡◌, [], drop, length, IfOk, IfErr, MatchOption};
ghost use Rattle.ig_notation_syntax.specs.View.{token_of};
ghost use Rattle.ig_notation_terms.specs.Limits.{NumbersFit, meanings};
ghost use Rattle.ig_notation_terms.specs.Readers.{Stands, EndsAt};

use crate::fault::RuleFault;
use ig_notation_syntax::{Placed, Token};
use std::marker::Model;

/// Tokens of which no number is greater than 9,223,372,036,854,775,807. Contracts see what they
/// mean.
#[derive(Drop)]
pub struct Tokens<'a> {
    placed: &'a [Placed<'a>],
}

impl<'a> Model for Tokens<'a> {
    ghost use Rattle.std.specs.Prelude.{◌<◌, List, length};
    ghost use Rattle.ig_text.specs.Limits.{integers_end};
    ghost use Rattle.ig_notation_syntax.specs.Token.{Token};
    ghost use Rattle.ig_notation_terms.specs.Limits.{NumbersFit, meanings};

    ghost Value = { List Token };

    ghost view = { λ t. meanings t.placed.now };

    ghost invariant = { λ t. NumbersFit (meanings t.placed.now) ×
        (length t.placed.now < integers_end) };
}

impl<'a> Tokens<'a> {
    /// These tokens.
    pub fn new(placed: &'a [Placed<'a>]) -> Tokens<'a>
        requires { NumbersFit (meanings placed.now) }
        ensures { result ≡ meanings placed.now }
    {
        Tokens { placed }
    }

    /// How many they are.
    pub fn len(&self) -> usize
        ensures { result ≡ length self.now }
    {
        self.placed.len()
    }

    /// The token of this number, counted from 0; `None` exactly where there are no more.
    pub fn get(&self, at: usize) -> Option<Token<'a>>
        ensures { MatchOption result (drop at self.now ≡ [])
            (λ t. Stands self.now at (token_of t)) }
    {
        match self.placed.get(at) {
            Some(placed) => Some(placed.token),
            None => None,
        }
    }

    /// The token of this number; refused exactly where there are no more.
    pub fn ahead(&self, at: usize) -> Result<Token<'a>, RuleFault>
        ensures ok { IfOk result (λ t. Stands self.now at (token_of t)) }
        ensures err { IfErr result (EndsAt self.now at) }
    {
        match self.get(at) {
            Some(token) => Ok(token),
            None => Err(RuleFault::Unexpected { token: at }),
        }
    }

    /// That each number fits. This computes nothing.
    pub fn numbers_fit(&self)
        ensures { NumbersFit self.now }
    {
        let _placed = self.placed;
    }
}
