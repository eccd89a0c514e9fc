//! Reading a grammar text.

ghost use Rattle.std.specs.Prelude.{◌≡◌, ◌≤◌, IfOk, IfErr, length};
ghost use Rattle.ig_notation_syntax.specs.Notation.{most_bytes};
ghost use Rattle.ig_w3c_syntax.specs.View.{tokens_of};
ghost use Rattle.ig_notation_terms.specs.Limits.{byte_of};
ghost use Rattle.ig_notation.specs.declared.fault.ReadFault.TheVariants.{Memory};
ghost use Rattle.ig_w3c.specs.Steps.{IsMemory};
ghost use Rattle.ig_w3c.specs.Outcome.{IsRead, IsReadFault, HasTokens};

use crate::translation::in_own_notation;
use ig_grammar::Grammar;
use ig_notation::{Large, ReadFault, read_grammar};
use ig_notation_terms::{RuleFault, Tokens, is_shallow, is_too_long};
use ig_w3c_syntax::{Placed, stop, tokenize};
use std::alloc::Global;

/// The grammar that a text reads as, in the notation of section 6 of the XML recommendation. The
/// first test that fails decides: more than 262,144 bytes are `TooLarge`; the other tests are those
/// of [`read_short_w3c`].
pub fn read_w3c(alloc: Global, source: &str) -> Result<Grammar, ReadFault>
    ensures ok { IfOk result (IsRead source.now) }
    ensures fault { IfErr result (IsReadFault source.now) }
{
    if is_too_long(source) {
        return Err(ReadFault::TooLarge {
            which: Large::Bytes,
        });
    }
    read_short_w3c(alloc, source)
}

/// The grammar that a text of at most 262,144 bytes reads as. The first test that fails decides: a
/// text that is no sequence of tokens is `Syntax` at the byte at which, after the separators and
/// tokens before it, neither a separator nor a token begins; more than 64 brackets open at one
/// place are `TooLarge`; tokens against the rules are `Syntax` at the first byte of the first token
/// such that no sequence of tokens that follows the rules begins with the tokens up to and
/// including it, and at the length of the text where there is no such token.
pub fn read_short_w3c(alloc: Global, source: &str) -> Result<Grammar, ReadFault>
    requires { length source.now ≤ most_bytes }
    ensures ok { IfOk result (IsRead source.now) }
    ensures fault { IfErr result (IsReadFault source.now) }
{
    let found = tokenize(alloc, source)?;
    read_tokens(alloc, found.as_slice(), source)
}

/// The grammar that the text reads as, which has these tokens.
fn read_tokens<'a>(
    alloc: Global,
    tokens: &'a [Placed<'a>],
    source: &str,
) -> Result<Grammar, ReadFault>
    requires { HasTokens source.now (tokens_of tokens.now) }
    ensures ok { IfOk result (IsRead source.now) }
    ensures fault { IfErr result (IsReadFault source.now) }
{
    let own = in_own_notation(alloc, tokens)?;
    if !is_shallow(own.as_slice()) {
        return Err(ReadFault::TooLarge {
            which: Large::Nesting,
        });
    }
    ig_w3c_syntax::run_stops();
    if let Some(number) = stop(tokens) {
        return Err(ReadFault::Syntax {
            at: byte_of(tokens, number, source),
        });
    }
    ig_w3c_syntax::run_keeps();
    ig_w3c_syntax::kept_rules_read();
    ig_notation_syntax::read_runs();
    match read_grammar(alloc, &Tokens::new(own.as_slice())) {
        Ok(grammar) => Ok(grammar),
        Err(fault) => Err(without_memory(fault)),
    }
}

/// The fault of a text whose tokens follow the rules: memory ran out.
fn without_memory(fault: RuleFault) -> ReadFault
    requires { IsMemory fault }
    ensures { result ≡ Memory }
{
    let _fault = fault;
    ReadFault::Memory
}

/// The first byte of the token of that number, or the length of the text where there is none.
fn byte_of(tokens: &[Placed], number: usize, source: &str) -> u32
    requires { length source.now ≤ most_bytes }
    ensures { result ≡ byte_of (length source.now) (tokens_of tokens.now) number }
{
    match tokens.get(number) {
        Some(placed) => placed.at,
        None => source.len() as u32,
    }
}
