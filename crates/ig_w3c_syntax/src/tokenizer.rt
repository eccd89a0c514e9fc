//! The tokens of a text.

ghost use Rattle.std.specs.Prelude.{◌≡◌, ◌≤◌, [], ◌∷◌, ◌++◌, length, chars, IfOk, IfErr, OnOk};
ghost use Rattle.ig_notation_syntax.specs.Notation.{most_bytes};
ghost use Rattle.ig_notation_syntax.specs.Texts.{Lexes};
ghost use Rattle.ig_w3c_syntax.specs.Spelling.{StandsFirst, IsSeparator};
ghost use Rattle.ig_w3c_syntax.specs.View.{tokens_of};
ghost use Rattle.ig_w3c_syntax.specs.Faults.{IsFault};

use crate::characters;
use crate::step::{self, Step};
use crate::token::{Placed, Token};
use ig_notation_syntax::TokenFault;
use std::alloc::{AllocError, Global};

/// The tokens of a text of at most 262,144 bytes, in order, each with the byte at which it begins.
/// Refuses a text as `Broken` exactly where it isn't a sequence of tokens and separators.
pub fn tokenize<'a>(alloc: Global, source: &'a str) -> Result<Vec<Placed<'a>>, TokenFault>
    requires { length source.now ≤ most_bytes }
    ensures tokens { IfOk result (λ v. Lexes StandsFirst IsSeparator 0 (chars source.now) (tokens_of
        v.items)) }
    ensures fault { IfErr result (IsFault (chars source.now)) }
{
    let mut tokens = Vec::new(alloc);
    let mut rest = source;
    while let Some((c, after)) = characters::first(rest) {
        let at = (source.len() - rest.len()) as u32;
        match step::first_step(alloc, rest, c, after)? {
            Step::Separator(behind) => rest = behind,
            Step::Takes(token, behind) => {
                add(&mut tokens, token, at)?;
                rest = behind;
            }
            Step::Broken => return Err(TokenFault::Broken { at }),
        }
    }
    Ok(tokens)
}

/// Adds a token at the end.
fn add<'a>(tokens: &mut Vec<Placed<'a>>, token: Token<'a>, at: u32) -> Result<(), AllocError>
    ensures ok { OnOk result (tokens.new.items ≡ tokens.old.items ++
        (record { token = token.entry; at = at }) ∷ []) }
{
    match tokens.push(Placed { token, at }) {
        Ok(()) => Ok(()),
        Err(_refused) => Err(AllocError),
    }
}
