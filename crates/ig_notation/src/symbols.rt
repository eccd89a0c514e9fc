//! Reading the symbols of alternatives. Each function reads from the token of number `at`, and
//! returns what it read with the number of the first token behind it.

ghost use Rattle.std.specs.Prelude.{◌≡◌, ◌≤◌, ◌<◌, [], ◌∷◌, ◌++◌, length, IfOk, IfErr, OnOk};
ghost use Rattle.ig_grammar.specs.Symbol as tree;
ghost use Rattle.ig_grammar.specs.Symbol.{gathered};
ghost use Rattle.ig_grammar.specs.Alternative.{gathered_alternatives};
ghost use Rattle.ig_grammar.specs.View.{symbol_of};
ghost use Rattle.ig_notation_syntax.specs.Rules.{ReadsSymbol, ReadsMarked, ReadsPost};
ghost use Rattle.ig_notation_syntax.specs.Rules.{ReadsAlternative, ReadsAlternatives};
ghost use Rattle.ig_notation_syntax.specs.Machine as want;
ghost use Rattle.ig_notation_syntax.specs.Machine.{alternatives_wants};
ghost use Rattle.ig_notation_syntax.specs.Reading.{Goes};
ghost use Rattle.ig_notation_terms.specs.Readers.{StopsAt};

use ig_grammar::{Alt, Alts, Symbol, Symbols};
use ig_notation_terms::{
    Beginning, Opening, RuleFault, Sign, Tokens, beginning_at, begins_symbol, labelled, mark_at,
    marked, opening_at, read_group_end, read_guard, read_let, read_list_end, read_plain, stands_at,
};
use std::alloc::Global;

/// Reads alternatives, with `|` between them, and gives them with the number of the token behind.
/// Refused as unexpected only where the machine of the rules stops whatever is wanted behind them,
/// at the token where it stops; for want of memory at any.
#[cycle(symbols)]
pub fn read_alternatives(
    alloc: Global,
    tokens: &Tokens,
    at: usize,
) -> Result<(Alts, usize), RuleFault>
    requires { at ≤ length tokens.now }
    ensures ok { IfOk result (λ r. Goes tree.Alternatives ReadsAlternatives alternatives_wants []
        tokens.now at r.1 (gathered_alternatives r.0)) }
    ensures err { IfErr result (StopsAt alternatives_wants tokens.now at) }
{
    let mut alternatives = Alts::new(alloc);
    let mut end = at;
    loop {
        let (symbols, next) = read_alternative(alloc, tokens, end)?;
        add_alternative(&mut alternatives, Alt { symbols })?;
        if !stands_at(tokens, next, Sign::Bar) {
            return Ok((alternatives, next));
        }
        end = next + 1;
    }
}

/// Reads the symbols of an alternative.
#[cycle(symbols)]
fn read_alternative(
    alloc: Global,
    tokens: &Tokens,
    at: usize,
) -> Result<(Symbols, usize), RuleFault>
    requires { at ≤ length tokens.now }
    ensures ok { IfOk result (λ r. Goes tree.Symbols ReadsAlternative (want.alternative ∷ []) []
        tokens.now at r.1 (gathered r.0)) }
    ensures err { IfErr result (StopsAt (want.alternative ∷ []) tokens.now at) }
{
    let mut symbols = Symbols::new(alloc);
    let mut end = at;
    while begins_symbol(tokens, end) {
        let (symbol, next) = read_symbol(alloc, tokens, end)?;
        add_symbol(&mut symbols, symbol)?;
        end = next;
    }
    Ok((symbols, end))
}

/// Reads a symbol.
#[cycle(symbols)]
fn read_symbol(alloc: Global, tokens: &Tokens, at: usize) -> Result<(Symbol, usize), RuleFault>
    ensures ok { IfOk result (λ r. Goes tree.Symbol ReadsSymbol (want.symbol ∷ []) [] tokens.now at
        r.1 (symbol_of r.0)) }
    ensures progress { IfOk result (λ r. at < r.1) }
    ensures err { IfErr result (StopsAt (want.symbol ∷ []) tokens.now at) }
{
    match beginning_at(tokens, at) {
        Beginning::Guard => read_guard(alloc, tokens, at + 1),
        Beginning::Let => read_let(alloc, tokens, at + 1),
        Beginning::Label(name) => {
            let (symbol, end) = read_marked(alloc, tokens, at + 2)?;
            labelled(alloc, name, symbol, end)
        }
        Beginning::Marked => read_marked(alloc, tokens, at),
    }
}

/// Reads a symbol with a mark before it or none.
#[cycle(symbols)]
fn read_marked(alloc: Global, tokens: &Tokens, at: usize) -> Result<(Symbol, usize), RuleFault>
    ensures ok { IfOk result (λ r. Goes tree.Symbol ReadsMarked (want.marked ∷ []) [] tokens.now at
        r.1 (symbol_of r.0)) }
    ensures progress { IfOk result (λ r. at < r.1) }
    ensures err { IfErr result (StopsAt (want.marked ∷ []) tokens.now at) }
{
    let Some(mark) = mark_at(tokens, at) else {
        return read_unmarked(alloc, tokens, at);
    };
    let (symbol, end) = read_unmarked(alloc, tokens, at + 1)?;
    marked(alloc, mark, symbol, end)
}

/// Reads a symbol without a mark, with the filters behind it.
#[cycle(symbols)]
fn read_unmarked(alloc: Global, tokens: &Tokens, at: usize) -> Result<(Symbol, usize), RuleFault>
    ensures ok { IfOk result (λ r. Goes tree.Symbol ReadsPost (want.post ∷ []) [] tokens.now at r.1
        (symbol_of r.0)) }
    ensures progress { IfOk result (λ r. at < r.1) }
    ensures err { IfErr result (StopsAt (want.post ∷ []) tokens.now at) }
{
    match opening_at(tokens, at) {
        Opening::Brace => {
            let (item, next) = read_marked(alloc, tokens, at + 1)?;
            match read_marked(alloc, tokens, next) {
                Ok((separator, close)) => read_list_end(alloc, tokens, close, item, separator),
                Err(fault) => {
                    drop(item);
                    Err(fault)
                }
            }
        }
        Opening::Bracket => {
            let (alternatives, close) = read_alternatives(alloc, tokens, at + 1)?;
            read_group_end(alloc, tokens, close, alternatives)
        }
        Opening::Nothing => read_plain(alloc, tokens, at),
    }
}

/// Adds a symbol at the end. Refused for want of memory alone.
fn add_symbol(symbols: &mut Symbols, symbol: Symbol) -> Result<(), RuleFault>
    ensures ok { OnOk result (symbols.new ≡ symbols.old ++ symbol_of symbol ∷ []) }
    ensures err { IfErr result (λ e. e ≡ RuleFault.Memory) }
{
    symbols.push(symbol)?;
    Ok(())
}

/// Adds an alternative at the end. Refused for want of memory alone.
fn add_alternative(alternatives: &mut Alts, alternative: Alt) -> Result<(), RuleFault>
    ensures ok { OnOk result (alternatives.new ≡ alternatives.old ++ alternative ∷ []) }
    ensures err { IfErr result (λ e. e ≡ RuleFault.Memory) }
{
    alternatives.push(alternative)?;
    Ok(())
}
