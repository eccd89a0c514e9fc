//! Reading declarations. Each function reads from the token of number `at`, and returns what it
//! read with the number of the first token behind it.

ghost use Rattle.std.specs.Prelude.{◌≡◌, ◌≤◌, ◌<◌, [], ◌∷◌, ◌++◌, List, length, true, false, None};
ghost use Rattle.std.specs.Prelude.{drop, IfOk, IfErr, MatchOption};
ghost use Rattle.ig_notation_syntax.specs.View.{token_of};
ghost use Rattle.ig_notation_syntax.specs.Token as spec;
ghost use Rattle.ig_notation_syntax.specs.Rules.{IsKind, IsDeclKind, ReadsAssociativity};
ghost use Rattle.ig_notation_syntax.specs.Rules.{ReadsLevel};
ghost use Rattle.ig_notation_syntax.specs.Rules.{ReadsLevels, ReadsParameters, ReadsDeclaration};
ghost use Rattle.ig_notation_syntax.specs.Rules.{ReadsDeclarations, ReadsBody, FollowsRules};
ghost use Rattle.ig_grammar.specs.declared.declaration.Assoc.{Assoc as SpecAssoc};
ghost use Rattle.ig_grammar.specs.declared.declaration.Param.{Param as SpecParam};
ghost use Rattle.ig_grammar.specs.declared.declaration.Level.{Level as SpecLevel};
ghost use Rattle.ig_grammar.specs.declared.declaration.Decl.{Decl as SpecDecl};
ghost use Rattle.ig_notation_syntax.specs.Machine as want;
ghost use Rattle.ig_notation_syntax.specs.Machine.{after_grammar, after_body, after_declarations};
ghost use Rattle.ig_notation_syntax.specs.Machine.{level_wants, levels_wants, parameters_wants};
ghost use Rattle.ig_notation_syntax.specs.Machine.{close_bracket};
ghost use Rattle.ig_notation_syntax.specs.Reading.{Goes};
ghost use Rattle.ig_notation_terms.specs.Readers.{Stands, Misses, MissesAt, Finds, StopsAt};
ghost use Rattle.ig_notation_terms.specs.Readers.{Runs, Closed};
ghost use Rattle.ig_notation.specs.Parts.{FailsAt, ReadsHeading, ReadsParameter};
ghost use Rattle.ig_notation.specs.Parts.{IsAssociativity};

use crate::symbols::read_alternatives;
use ig_expr::Kind;
use ig_grammar::{Assoc, Decl, DeclKind, Decls, Grammar, Level, Levels, Param, Params};
use ig_notation_syntax::Token;
use ig_notation_terms::{
    RuleFault, Sign, Tokens, add, read_name, read_number, read_sign, stands_at,
};
use ig_text::Word;
use std::alloc::Global;

/// The grammar that the tokens read as. Refused exactly where they stop following the rules, at the
/// number of the token at which they do, or for want of memory.
pub fn read_grammar(alloc: Global, tokens: &Tokens) -> Result<Grammar, RuleFault>
    ensures ok { IfOk result (FollowsRules tokens.now) }
    ensures err { IfErr result (FailsAt want.grammar tokens.now 0) }
{
    if is_started(tokens) {
        return read_started(alloc, tokens);
    }
    let (tabs, decls) = read_body(alloc, tokens, 0)?;
    Ok(Grammar {
        start: None,
        tabs,
        decls,
    })
}

/// Whether the tokens begin with a start line.
fn is_started(tokens: &Tokens) -> bool
    ensures yes { result ≡ true → Stands tokens.now 0 spec.Start }
    ensures no { result ≡ false → Runs (want.grammar ∷ []) (want.body ∷ []) tokens.now 0 0 }
{
    match tokens.get(0) {
        Some(token) => is_start(token),
        None => false,
    }
}

fn is_start(token: Token) -> bool
    ensures yes { result ≡ true → token_of token.entry ≡ spec.Start }
    ensures no { result ≡ false → after_grammar (token_of token.entry) ≡ after_body
        (token_of token.entry) }
{
    matches!(token, Token::Start)
}

/// Reads all tokens as a grammar with a start line.
fn read_started(alloc: Global, tokens: &Tokens) -> Result<Grammar, RuleFault>
    requires { Stands tokens.now 0 spec.Start }
    ensures ok { IfOk result (FollowsRules tokens.now) }
    ensures err { IfErr result (FailsAt want.grammar tokens.now 0) }
{
    let name = read_name(tokens, 1)?;
    let end = read_sign(tokens, 2, Sign::Semicolon)?;
    let start = Word::new(alloc, name)?;
    let (tabs, decls) = read_body(alloc, tokens, end)?;
    Ok(Grammar {
        start: Some(start),
        tabs,
        decls,
    })
}

/// Reads the line of a width of tabs, where there is one, and declarations up to the last token.
fn read_body(alloc: Global, tokens: &Tokens, at: usize) -> Result<(Option<i64>, Decls), RuleFault>
    ensures ok { IfOk result (λ r. ReadsBody (drop at tokens.now) r.0 r.1) }
    ensures err { IfErr result (FailsAt want.body tokens.now at) }
{
    if says_width(tokens, at) {
        return read_widened(alloc, tokens, at);
    }
    let decls = read_declarations(alloc, tokens, at)?;
    Ok((None, decls))
}

/// Whether the line of a width of tabs stands there.
fn says_width(tokens: &Tokens, at: usize) -> bool
    ensures yes { result ≡ true → Stands tokens.now at spec.Tabs }
    ensures no { result ≡ false →
        Runs (want.body ∷ []) (want.declarations ∷ []) tokens.now at at }
{
    match tokens.get(at) {
        Some(token) => is_tabs(token),
        None => false,
    }
}

fn is_tabs(token: Token) -> bool
    ensures yes { result ≡ true → token_of token.entry ≡ spec.Tabs }
    ensures no { result ≡ false → after_body (token_of token.entry) ≡ after_declarations
        (token_of token.entry) }
{
    matches!(token, Token::Tabs)
}

/// Reads the line of a width of tabs, which stands there, and declarations up to the last token.
fn read_widened(
    alloc: Global,
    tokens: &Tokens,
    at: usize,
) -> Result<(Option<i64>, Decls), RuleFault>
    requires { Stands tokens.now at spec.Tabs }
    ensures ok { IfOk result (λ r. ReadsBody (drop at tokens.now) r.0 r.1) }
    ensures err { IfErr result (FailsAt want.body tokens.now at) }
{
    let tabs = read_number(tokens, at + 1)?;
    let end = read_sign(tokens, at + 2, Sign::Semicolon)?;
    let decls = read_declarations(alloc, tokens, end)?;
    Ok((Some(tabs), decls))
}

/// Reads declarations up to the last token.
fn read_declarations(alloc: Global, tokens: &Tokens, at: usize) -> Result<Decls, RuleFault>
    ensures ok { IfOk result (ReadsDeclarations (drop at tokens.now)) }
    ensures err { IfErr result (FailsAt want.declarations tokens.now at) }
{
    let mut declarations = Vec::new(alloc);
    let mut end = at;
    while end < tokens.len() {
        let (declaration, next) = read_declaration(alloc, tokens, end)?;
        add(&mut declarations, declaration)?;
        end = next;
    }
    Ok(Decls::from_vec(declarations))
}

/// Reads a declaration.
fn read_declaration(alloc: Global, tokens: &Tokens, at: usize) -> Result<(Decl, usize), RuleFault>
    ensures ok { IfOk result (λ r. Goes SpecDecl ReadsDeclaration (want.declaration ∷ []) []
        tokens.now at r.1 r.0) }
    ensures progress { IfOk result (λ r. at < r.1) }
    ensures err { IfErr result (StopsAt (want.declaration ∷ []) tokens.now at) }
{
    let kind = read_decl_kind(tokens, at)?;
    let (name, params, equals) = read_heading(alloc, tokens, at + 1)?;
    let first = read_sign(tokens, equals, Sign::Equals)?;
    let (levels, close) = read_levels(alloc, tokens, first)?;
    let end = read_sign(tokens, close, Sign::Semicolon)?;
    let declaration = Decl {
        kind,
        name,
        params,
        levels,
    };
    Ok((declaration, end))
}

/// Reads the name of a declaration, with its parameters where it has any.
fn read_heading(
    alloc: Global,
    tokens: &Tokens,
    at: usize,
) -> Result<(Word, Params, usize), RuleFault>
    ensures ok { IfOk result (λ r. Goes (List SpecParam) (ReadsHeading r.0) (want.heading ∷ []) []
        tokens.now at r.2 r.1) }
    ensures err { IfErr result (StopsAt (want.heading ∷ []) tokens.now at) }
{
    match tokens.ahead(at)? {
        Token::Name(name) => Ok((Word::new(alloc, name)?, Params::new(alloc), at + 1)),
        Token::Head(name) => {
            let name = Word::new(alloc, name)?;
            let (params, end) = read_parameters(alloc, tokens, at + 1)?;
            Ok((name, params, end))
        }
        _ => Err(RuleFault::Unexpected { token: at }),
    }
}

/// Reads parameters and the `)` behind them.
fn read_parameters(alloc: Global, tokens: &Tokens, at: usize) -> Result<(Params, usize), RuleFault>
    requires { at ≤ length tokens.now }
    ensures ok { IfOk result (λ r. Goes (List SpecParam) (Closed ReadsParameters) (parameters_wants
        ++ close_bracket ∷ []) [] tokens.now at r.1 r.0) }
    ensures err { IfErr result (StopsAt (parameters_wants ++ close_bracket ∷ []) tokens.now at) }
{
    let mut parameters = Vec::new(alloc);
    let mut end = at;
    loop {
        let (parameter, next) = read_parameter(alloc, tokens, end)?;
        add(&mut parameters, parameter)?;
        if !stands_at(tokens, next, Sign::Comma) {
            let end = read_sign(tokens, next, Sign::Close)?;
            return Ok((Params::from_vec(parameters), end));
        }
        end = next + 1;
    }
}

/// Reads a parameter: a name, `:` and a kind.
fn read_parameter(alloc: Global, tokens: &Tokens, at: usize) -> Result<(Param, usize), RuleFault>
    ensures ok { IfOk result (λ r. Goes SpecParam ReadsParameter (want.parameter ∷ []) [] tokens.now
        at r.1 r.0) }
    ensures err { IfErr result (StopsAt (want.parameter ∷ []) tokens.now at) }
{
    let name = read_name(tokens, at)?;
    let next = read_sign(tokens, at + 1, Sign::Colon)?;
    let kind = read_kind(tokens, next)?;
    let name = Word::new(alloc, name)?;
    Ok((Param { name, kind }, next + 1))
}

/// Reads levels, with `>` between them.
fn read_levels(alloc: Global, tokens: &Tokens, at: usize) -> Result<(Levels, usize), RuleFault>
    requires { at ≤ length tokens.now }
    ensures ok { IfOk result (λ r. Goes (List SpecLevel) ReadsLevels levels_wants [] tokens.now at
        r.1 r.0) }
    ensures err { IfErr result (StopsAt levels_wants tokens.now at) }
{
    let mut levels = Vec::new(alloc);
    let mut end = at;
    loop {
        let (level, next) = read_level(alloc, tokens, end)?;
        add(&mut levels, level)?;
        if !stands_at(tokens, next, Sign::Greater) {
            return Ok((Levels::from_vec(levels), next));
        }
        end = next + 1;
    }
}

/// Reads a level: its associativity, where it has one, and its alternatives.
fn read_level(alloc: Global, tokens: &Tokens, at: usize) -> Result<(Level, usize), RuleFault>
    requires { at ≤ length tokens.now }
    ensures ok { IfOk result (λ r. Goes SpecLevel ReadsLevel level_wants [] tokens.now at r.1 r.0) }
    ensures err { IfErr result (StopsAt level_wants tokens.now at) }
{
    let (assoc, next) = read_associativity(tokens, at);
    let (alts, end) = read_alternatives(alloc, tokens, next)?;
    Ok((Level { assoc, alts }, end))
}

/// Reads to which side the alternatives of a level group; to either where no token says it.
fn read_associativity(tokens: &Tokens, at: usize) -> (Assoc, usize)
    requires { at ≤ length tokens.now }
    ensures { Goes SpecAssoc ReadsAssociativity (want.associativity ∷ []) [] tokens.now at result.1
        result.0 }
{
    match associativity_at(tokens, at) {
        Some(assoc) => (assoc, at + 1),
        None => (Assoc::Free, at),
    }
}

/// The associativity that stands there; `None` exactly where none does.
fn associativity_at(tokens: &Tokens, at: usize) -> Option<Assoc>
    ensures { MatchOption result (Misses want.associativity tokens.now at) (λ a. Finds
        (IsAssociativity a) tokens.now at) }
{
    match tokens.get(at)? {
        Token::Left => Some(Assoc::Left),
        Token::Right => Some(Assoc::Right),
        Token::Nonassoc => Some(Assoc::Nonassoc),
        _ => None,
    }
}

/// The kind of declaration that stands there, in front of the token of the next number.
fn read_decl_kind(tokens: &Tokens, at: usize) -> Result<DeclKind, RuleFault>
    ensures ok { IfOk result (λ k. Finds (λ t. IsDeclKind t k) tokens.now at) }
    ensures err { IfErr result (MissesAt want.declaration tokens.now at) }
{
    match tokens.ahead(at)? {
        Token::Syntax => Ok(DeclKind::Syntax),
        Token::Lexical => Ok(DeclKind::Lexical),
        Token::Layout => Ok(DeclKind::Layout),
        _ => Err(RuleFault::Unexpected { token: at }),
    }
}

/// The kind of values that stands there, in front of the token of the next number.
fn read_kind(tokens: &Tokens, at: usize) -> Result<Kind, RuleFault>
    ensures ok { IfOk result (λ k. Finds (λ t. IsKind t k) tokens.now at) }
    ensures err { IfErr result (MissesAt want.kind tokens.now at) }
{
    match tokens.ahead(at)? {
        Token::Int => Ok(Kind::Int),
        Token::Bool => Ok(Kind::Bool),
        Token::Span => Ok(Kind::Span),
        _ => Err(RuleFault::Unexpected { token: at }),
    }
}
