//! The parts of symbols that hold no symbols of their own, and what is made of symbols by what
//! stands around them. Each function that reads does so from the token of number `at`, and returns
//! what it read with the number of the first token behind it.

ghost use Rattle.std.specs.Prelude.{◌≡◌, ◌≢◌, ◌≤◌, ◌<◌, [], ◌∷◌, length, true, false, is_some};
ghost use Rattle.std.specs.Prelude.{IfOk, IfErr, Option, MatchOption, chars};
ghost use Rattle.ig_notation_syntax.specs.View.{token_of};
ghost use Rattle.ig_notation_syntax.specs.Token as spec;
ghost use Rattle.ig_grammar.specs.Symbol as tree;
ghost use Rattle.ig_grammar.specs.Alternative.{gathered_alternatives};
ghost use Rattle.ig_grammar.specs.View.{symbol_of};
ghost use Rattle.ig_notation_syntax.specs.Rules.{ReadsSymbol, ReadsPost, ReadsAtom, filtered};
ghost use Rattle.ig_notation_terms.specs.declared.repetitions.ListSign.{ListSign as SpecListSign};
ghost use Rattle.ig_notation_terms.specs.declared.repetitions.Repetition.{
  Repetition as SpecRepetition,
};
ghost use Rattle.ig_notation_syntax.specs.Machine as want;
ghost use Rattle.ig_notation_syntax.specs.Machine.{after_symbol};
ghost use Rattle.ig_notation_syntax.specs.Reading.{Goes};
ghost use Rattle.ig_notation_terms.specs.Readers.{Stands, Misses, Finds, StopsAt, Runs, Behind};
ghost use Rattle.ig_notation_terms.specs.Repetitions.{separated_of};
ghost use Rattle.ig_notation_terms.specs.Parts.{Begins, mark_token, marked_of, IsOpening, IsPlain};
ghost use Rattle.ig_notation_terms.specs.Parts.{ReadsRepetition, symbol_with, ReadsFiltered};
ghost use Rattle.ig_notation_terms.specs.Parts.{ReadsAtomEnd, ReadsGroupEnd, ReadsClosing};
ghost use Rattle.ig_notation_terms.specs.Parts.{ReadsListEnd};
ghost use Rattle.ig_notation_terms.specs.Parts.{terminal_of};

use crate::expressions::{read_arguments, read_closed};
use crate::fault::RuleFault;
use crate::filters::{pattern_of, read_filters};
use crate::repetitions::{
    ListSign, Repetition, read_list_sign, repeated, repetition_at, separated,
};
use crate::signs::{Sign, read_name, read_sign, stands_at};
use crate::tokens::Tokens;
use ig_expr::Exprs;
use ig_grammar::{Alts, Filters, Inner, Symbol};
use ig_notation_syntax::Token;
use ig_text::{Pattern, Word};
use std::alloc::Global;

/// How a symbol begins.
#[derive(Clone, Copy)]
pub enum Beginning<'a> {
    /// With `when`: a guard.
    Guard,
    /// With `let`.
    Let,
    /// With a name and `:`, a label.
    Label(&'a str),
    /// As a symbol without a label does.
    Marked,
}

/// A mark before a symbol, by which it is a block, is left out of the blocks around it, or is a
/// list with its items in one column.
#[derive(Clone, Copy)]
pub enum BlockMark {
    /// `offside`
    Offside,
    /// `ignore`
    Ignore,
    /// `align`
    Align,
}

/// What a symbol without a mark opens with.
#[derive(Clone, Copy)]
pub enum Opening {
    /// `{`, of a separated list.
    Brace,
    /// `(`, of a group.
    Bracket,
    /// Neither.
    Nothing,
}

/// Whether a symbol begins with the token that stands there.
pub fn begins_symbol(tokens: &Tokens, at: usize) -> bool
    ensures yes { result ≡ true → Finds (λ t. is_some (after_symbol t) ≡ true) tokens.now at }
    ensures no { result ≡ false → Misses want.alternative tokens.now at }
{
    match tokens.get(at) {
        Some(token) => begins(token),
        None => false,
    }
}

/// Whether a symbol begins with the token.
fn begins(token: Token) -> bool
    ensures { result ≡ is_some (after_symbol (token_of token.entry)) }
{
    match token {
        Token::When => true,
        Token::Let => true,
        Token::Offside => true,
        Token::Ignore => true,
        Token::Align => true,
        Token::OpenBrace => true,
        Token::Open => true,
        Token::Name(_) => true,
        Token::Head(_) => true,
        Token::Literal(_) => true,
        Token::Exact(_) => true,
        Token::Character(_) => true,
        Token::Made(_, _) => true,
        Token::Ranges(_) => true,
        Token::Any => true,
        Token::XidStart => true,
        Token::XidContinue => true,
        _ => false,
    }
}

/// How the symbol begins that stands there; `Marked` also where none does.
pub fn beginning_at<'a>(tokens: &Tokens<'a>, at: usize) -> Beginning<'a>
    ensures { Begins result tokens.now at }
{
    let Some(token) = tokens.get(at) else {
        return Beginning::Marked;
    };
    match token {
        Token::When => Beginning::Guard,
        Token::Let => Beginning::Let,
        Token::Name(name) => {
            if stands_at(tokens, at + 1, Sign::Colon) {
                Beginning::Label(name)
            } else {
                Beginning::Marked
            }
        }
        _ => Beginning::Marked,
    }
}

/// The symbol with the label, and the number of the token behind both. Refused for want of memory
/// alone.
pub fn labelled(
    alloc: Global,
    name: &str,
    symbol: Symbol,
    end: usize,
) -> Result<(Symbol, usize), RuleFault>
    ensures ok { IfOk result (λ r. symbol_of r.0 ≡ tree.Label (chars name.now) (symbol_of symbol)) }
    ensures end { IfOk result (λ r. r.1 ≡ end) }
    ensures err { IfErr result (λ e. e ≡ RuleFault.Memory) }
{
    let symbol = Inner::new(alloc, symbol)?;
    let name = Word::new(alloc, name)?;
    Ok((Symbol::Label(name, symbol), end))
}

/// Reads what stands behind `when`, a condition in brackets, and gives the guard with the number of
/// the token behind. Refused as unexpected only where the machine of the rules stops, at the token
/// where it stops; for want of memory at any.
pub fn read_guard(alloc: Global, tokens: &Tokens, at: usize) -> Result<(Symbol, usize), RuleFault>
    ensures ok { IfOk result (λ r. Goes tree.Symbol (Behind spec.When ReadsSymbol)
        (want.open_bracket ∷ want.expression ∷ want.close_bracket ∷ []) [] tokens.now at r.1
        (symbol_of r.0)) }
    ensures err { IfErr result (StopsAt (want.open_bracket ∷ want.expression ∷ want.close_bracket ∷
        []) tokens.now at) }
{
    let inside = read_sign(tokens, at, Sign::Open)?;
    let (condition, end) = read_closed(alloc, tokens, inside)?;
    Ok((Symbol::Guard(condition), end))
}

/// Reads what stands behind `let`, a name, `=` and an expression in brackets, and gives the binding
/// with the number of the token behind. Refused as `read_guard` is.
pub fn read_let(alloc: Global, tokens: &Tokens, at: usize) -> Result<(Symbol, usize), RuleFault>
    ensures ok { IfOk result (λ r. Goes tree.Symbol (Behind spec.Let ReadsSymbol) (want.name ∷
        want.equals ∷ want.open_bracket ∷ want.expression ∷ want.close_bracket ∷ []) [] tokens.now
        at r.1 (symbol_of r.0)) }
    ensures err { IfErr result (StopsAt (want.name ∷ want.equals ∷ want.open_bracket ∷
        want.expression ∷ want.close_bracket ∷ []) tokens.now at) }
{
    let name = read_name(tokens, at)?;
    let open = read_sign(tokens, at + 1, Sign::Equals)?;
    let inside = read_sign(tokens, open, Sign::Open)?;
    let name = Word::new(alloc, name)?;
    let (value, end) = read_closed(alloc, tokens, inside)?;
    Ok((Symbol::Let(name, value), end))
}

/// The mark that stands there; `None` exactly where none does.
pub fn mark_at(tokens: &Tokens, at: usize) -> Option<BlockMark>
    ensures { MatchOption result (Runs (want.marked ∷ []) (want.post ∷ []) tokens.now at at)
        (λ m. Stands tokens.now at (mark_token m)) }
{
    match tokens.get(at)? {
        Token::Offside => Some(BlockMark::Offside),
        Token::Ignore => Some(BlockMark::Ignore),
        Token::Align => Some(BlockMark::Align),
        _ => None,
    }
}

/// The symbol with the mark, and the number of the token behind both. Refused for want of memory
/// alone.
pub fn marked(
    alloc: Global,
    mark: BlockMark,
    symbol: Symbol,
    end: usize,
) -> Result<(Symbol, usize), RuleFault>
    ensures ok { IfOk result (λ r. symbol_of r.0 ≡ marked_of mark (symbol_of symbol)) }
    ensures end { IfOk result (λ r. r.1 ≡ end) }
    ensures err { IfErr result (λ e. e ≡ RuleFault.Memory) }
{
    let symbol = Inner::new(alloc, symbol)?;
    match mark {
        BlockMark::Offside => Ok((Symbol::Offside(symbol), end)),
        BlockMark::Ignore => Ok((Symbol::Ignore(symbol), end)),
        BlockMark::Align => Ok((Symbol::Align(symbol), end)),
    }
}

/// What the symbol without a mark opens with that stands there; `Nothing` also where none does.
pub fn opening_at(tokens: &Tokens, at: usize) -> Opening
    ensures { IsOpening result tokens.now at }
{
    let Some(token) = tokens.get(at) else {
        return Opening::Nothing;
    };
    match token {
        Token::OpenBrace => Opening::Brace,
        Token::Open => Opening::Bracket,
        _ => Opening::Nothing,
    }
}

/// Reads a literal, a class or a call, with the sign and the filters behind it, and gives what they
/// make with the number of the token behind. Refused as `read_guard` is.
pub fn read_plain(alloc: Global, tokens: &Tokens, at: usize) -> Result<(Symbol, usize), RuleFault>
    requires { IsPlain tokens.now at }
    ensures ok { IfOk result (λ r. Goes tree.Symbol ReadsPost (want.post ∷ []) [] tokens.now at r.1
        (symbol_of r.0)) }
    ensures progress { IfOk result (λ r. at < r.1) }
    ensures err { IfErr result (StopsAt (want.post ∷ []) tokens.now at) }
{
    let (atom, end) = read_leaf(alloc, tokens, at)?;
    read_atom_end(alloc, tokens, end, atom)
}

/// Reads a literal, a class or a call. Refused as `read_guard` is.
fn read_leaf(alloc: Global, tokens: &Tokens, at: usize) -> Result<(Symbol, usize), RuleFault>
    requires { IsPlain tokens.now at }
    ensures ok { IfOk result (λ r. Goes tree.Symbol ReadsAtom (want.atom ∷ []) [] tokens.now at r.1
        (symbol_of r.0)) }
    ensures progress { IfOk result (λ r. at < r.1) }
    ensures err { IfErr result (StopsAt (want.atom ∷ []) tokens.now at) }
{
    match tokens.ahead(at)? {
        Token::Name(name) => {
            let name = Word::new(alloc, name)?;
            Ok((Symbol::Call(name, Exprs::new(alloc)), at + 1))
        }
        Token::Head(name) => {
            let name = Word::new(alloc, name)?;
            let (arguments, end) = read_arguments(alloc, tokens, at + 1)?;
            Ok((Symbol::Call(name, arguments), end))
        }
        token => match pattern_of(alloc, token)? {
            Some(pattern) => Ok((terminal(pattern), at + 1)),
            None => Err(RuleFault::Unexpected { token: at }),
        },
    }
}

/// A pattern as a symbol.
fn terminal(pattern: Pattern) -> Symbol
    ensures { symbol_of result ≡ terminal_of pattern }
{
    match pattern {
        Pattern::Literal(text) => Symbol::Literal(text),
        Pattern::OneOf(class) => Symbol::Class(class),
    }
}

/// Reads what stands behind an atom, a sign or none and filters, and gives what they make of it.
/// Refused as `read_guard` is.
fn read_atom_end(
    alloc: Global,
    tokens: &Tokens,
    at: usize,
    atom: Symbol,
) -> Result<(Symbol, usize), RuleFault>
    requires { at ≤ length tokens.now }
    ensures ok { IfOk result (λ r. Goes tree.Symbol (ReadsAtomEnd (symbol_of atom)) (want.sign ∷
        want.filters ∷ []) [] tokens.now at r.1 (symbol_of r.0)) }
    ensures err { IfErr result (StopsAt (want.sign ∷ want.filters ∷ []) tokens.now at) }
{
    let (repetition, behind) = read_repetition(tokens, at);
    let symbol = with_repetition(alloc, repetition, atom)?;
    read_filters_behind(alloc, tokens, behind, symbol)
}

/// Reads the sign behind an atom, where there is one.
fn read_repetition(tokens: &Tokens, at: usize) -> (Option<Repetition>, usize)
    requires { at ≤ length tokens.now }
    ensures { Goes (Option SpecRepetition) ReadsRepetition (want.sign ∷ []) [] tokens.now at
        result.1 result.0 }
{
    match repetition_at(tokens, at) {
        Some(repetition) => (Some(repetition), at + 1),
        None => (None, at),
    }
}

/// The option or the list that the sign makes of an atom; the atom itself without a sign. Refused
/// for want of memory alone.
fn with_repetition(
    alloc: Global,
    repetition: Option<Repetition>,
    atom: Symbol,
) -> Result<Symbol, RuleFault>
    ensures ok { IfOk result (λ x. symbol_of x ≡ symbol_with repetition (symbol_of atom)) }
    ensures err { IfErr result (λ e. e ≡ RuleFault.Memory) }
{
    match repetition {
        Some(repetition) => Ok(repeated(repetition, Inner::new(alloc, atom)?)),
        None => Ok(atom),
    }
}

/// Reads the filters behind a symbol, maybe none, and gives the symbol with them. Refused as
/// `read_guard` is.
fn read_filters_behind(
    alloc: Global,
    tokens: &Tokens,
    at: usize,
    symbol: Symbol,
) -> Result<(Symbol, usize), RuleFault>
    requires { at ≤ length tokens.now }
    ensures ok { IfOk result (λ r. Goes tree.Symbol (ReadsFiltered (symbol_of symbol))
        (want.filters ∷ []) [] tokens.now at r.1 (symbol_of r.0)) }
    ensures err { IfErr result (StopsAt (want.filters ∷ []) tokens.now at) }
{
    match read_filters(alloc, tokens, at) {
        Ok((filters, end)) => Ok((filtered(alloc, symbol, filters)?, end)),
        Err(fault) => {
            drop(symbol);
            Err(fault)
        }
    }
}

/// The symbol with the filters behind it; the symbol itself where there is none. Refused for want
/// of memory alone.
fn filtered(alloc: Global, symbol: Symbol, filters: Filters) -> Result<Symbol, RuleFault>
    ensures ok { IfOk result (λ x. symbol_of x ≡ filtered (symbol_of symbol) filters) }
    ensures err { IfErr result (λ e. e ≡ RuleFault.Memory) }
{
    if filters.as_slice().is_empty() {
        return Ok(symbol);
    }
    Ok(Symbol::Filtered(Inner::new(alloc, symbol)?, filters))
}

/// Reads what stands behind the alternatives of a group, its `)` and what may stand behind an atom,
/// and gives what this makes of the group with the number of the token behind. Refused as
/// `read_guard` is.
pub fn read_group_end(
    alloc: Global,
    tokens: &Tokens,
    at: usize,
    alternatives: Alts,
) -> Result<(Symbol, usize), RuleFault>
    ensures ok { IfOk result (λ r. Goes tree.Symbol (ReadsGroupEnd
        (gathered_alternatives alternatives)) (want.close_bracket ∷ want.sign ∷ want.filters ∷ [])
        [] tokens.now at r.1 (symbol_of r.0)) }
    ensures err { IfErr result (StopsAt (want.close_bracket ∷ want.sign ∷ want.filters ∷ [])
        tokens.now at) }
{
    match read_sign(tokens, at, Sign::Close) {
        Ok(end) => read_atom_end(alloc, tokens, end, Symbol::Group(alternatives)),
        Err(fault) => {
            drop(alternatives);
            Err(fault)
        }
    }
}

/// Reads what stands behind the separator of a list, `}`, a sign and filters, and gives the list
/// with these, and the number of the token behind. Refused as `read_guard` is.
pub fn read_list_end(
    alloc: Global,
    tokens: &Tokens,
    at: usize,
    item: Symbol,
    separator: Symbol,
) -> Result<(Symbol, usize), RuleFault>
    ensures ok { IfOk result (λ r. Goes tree.Symbol (ReadsListEnd (symbol_of item)
        (symbol_of separator)) (want.close_brace ∷ want.list_sign ∷ want.filters ∷ []) []
        tokens.now at r.1 (symbol_of r.0)) }
    ensures err { IfErr result (StopsAt (want.close_brace ∷ want.list_sign ∷ want.filters ∷ [])
        tokens.now at) }
{
    match read_closing(tokens, at) {
        Ok((sign, end)) => {
            let list = listed(alloc, sign, item, separator)?;
            read_filters_behind(alloc, tokens, end, list)
        }
        Err(fault) => {
            drop(item);
            drop(separator);
            Err(fault)
        }
    }
}

/// Reads the `}` of a list and the sign behind it. Refused as `read_guard` is. Takes no memory.
fn read_closing(tokens: &Tokens, at: usize) -> Result<(ListSign, usize), RuleFault>
    ensures ok { IfOk result (λ r. Goes SpecListSign ReadsClosing (want.close_brace ∷
        want.list_sign ∷ []) [] tokens.now at r.1 r.0) }
    ensures err { IfErr result (StopsAt (want.close_brace ∷ want.list_sign ∷ []) tokens.now at) }
    ensures unexpected { IfErr result (λ e. e ≢ RuleFault.Memory) }
{
    let behind = read_sign(tokens, at, Sign::CloseBrace)?;
    let sign = read_list_sign(tokens, behind)?;
    Ok((sign, behind + 1))
}

/// The list that the sign makes of an item and a separator. Refused for want of memory alone.
fn listed(
    alloc: Global,
    sign: ListSign,
    item: Symbol,
    separator: Symbol,
) -> Result<Symbol, RuleFault>
    ensures ok { IfOk result (λ x. symbol_of x ≡ separated_of sign (symbol_of item)
        (symbol_of separator)) }
    ensures err { IfErr result (λ e. e ≡ RuleFault.Memory) }
{
    match Inner::new(alloc, item) {
        Ok(item) => Ok(separated(sign, item, Inner::new(alloc, separator)?)),
        Err(_refused) => {
            drop(separator);
            Err(RuleFault::Memory)
        }
    }
}
