//! Reading a grammar text.

ghost use Rattle.std.specs.Prelude.{◌≡◌, ◌≤◌, IfOk, IfErr, MatchOption, length};
ghost use Rattle.ig_notation_syntax.specs.Notation.{most_bytes};
ghost use Rattle.ig_notation_syntax.specs.View.{tokens_of};
ghost use Rattle.ig_notation_terms.specs.Limits.{meanings};
ghost use Rattle.ig_notation.specs.Outcome.{IsRead, IsReadFault, refusal_of, IsWithin, Passes};

use crate::declarations::read_grammar;
use crate::fault::{Large, ReadFault};
use ig_grammar::Grammar;
use ig_notation_syntax::{Placed, tokenize};
use ig_notation_terms::{RuleFault, Tokens, byte_of, is_shallow, is_too_long, numbers_fit};
use std::alloc::Global;

/// The grammar that a text reads as. The first test that fails decides: more than 262,144 bytes are
/// `TooLarge`; the other tests are those of [`read_short`].
pub fn read(alloc: Global, source: &str) -> Result<Grammar, ReadFault>
    ensures ok { IfOk result (IsRead source.now) }
    ensures fault { IfErr result (IsReadFault source.now) }
{
    if is_too_long(source) {
        return Err(ReadFault::TooLarge {
            which: Large::Bytes,
        });
    }
    read_short(alloc, source)
}

/// The grammar that a text of at most 262,144 bytes reads as. The first test that fails decides: a
/// text that is no sequence of tokens is `Syntax` at the byte at which, after the separators and
/// tokens before it, neither a separator nor a token begins; a number greater than
/// 9,223,372,036,854,775,807 is `TooLarge`; more than 64 brackets open at one place are `TooLarge`;
/// tokens against the rules are `Syntax` at the first byte of the first token such that no sequence
/// of tokens that follows the rules begins with the tokens up to and including it, and at the
/// length of the text where there is no such token.
pub fn read_short(alloc: Global, source: &str) -> Result<Grammar, ReadFault>
    requires { length source.now ≤ most_bytes }
    ensures ok { IfOk result (IsRead source.now) }
    ensures fault { IfErr result (IsReadFault source.now) }
{
    let found = tokenize(alloc, source)?;
    let tokens = found.as_slice();
    if let Some(which) = limit_passed(tokens) {
        return Err(ReadFault::TooLarge { which });
    }
    ig_notation_syntax::run_stops();
    match read_grammar(alloc, &Tokens::new(tokens)) {
        Ok(grammar) => Ok(grammar),
        Err(fault) => Err(refusal(tokens, fault, source)),
    }
}

/// The limit that the tokens pass, that of numbers before that of brackets; `None` exactly where
/// they pass neither.
fn limit_passed(tokens: &[Placed]) -> Option<Large>
    ensures { MatchOption result (IsWithin (meanings tokens.now)) (Passes (meanings tokens.now)) }
{
    if !numbers_fit(tokens) {
        return Some(Large::Number);
    }
    if !is_shallow(tokens) {
        return Some(Large::Nesting);
    }
    None
}

/// The fault of the text, of which the tokens are at fault by the rules.
fn refusal(tokens: &[Placed], fault: RuleFault, source: &str) -> ReadFault
    requires { length source.now ≤ most_bytes }
    ensures { result ≡ refusal_of (length source.now) (tokens_of tokens.now) fault }
{
    match fault {
        RuleFault::Unexpected { token } => ReadFault::Syntax {
            at: byte_of(tokens, token, source),
        },
        RuleFault::Memory => ReadFault::Memory,
    }
}
