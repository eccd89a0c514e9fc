//! Grammars and their declarations.

ghost use Rattle.std.specs.Prelude.{◌≡◌, ◌++◌, ◌∷◌, [], OnOk, IfOk, Some};
ghost use Rattle.std.specs.Prelude.{string_bytes};
ghost use Rattle.ig_expr.specs.View.{expression_of};
ghost use Rattle.ig_notation_syntax.specs.Token.{Colon};
ghost use Rattle.ig_show.specs.Pieces.{token, blank};
ghost use Rattle.ig_show.specs.Appending.{Adds};
ghost use Rattle.ig_show.specs.CanonicalText.{text_of, expression_text, pattern_text};
ghost use Rattle.ig_show.specs.CanonicalText.{level_pieces, levels_pieces};
ghost use Rattle.ig_show.specs.CanonicalText.{parameter_pieces, head_pieces, joined, comma};
ghost use Rattle.ig_show.specs.CanonicalText.{declaration_token, declaration_pieces};
ghost use Rattle.ig_show.specs.CanonicalText.{kind_token, separated};
ghost use Rattle.ig_show.specs.CanonicalText.{start_pieces, tabs_pieces};
ghost use Rattle.ig_show.specs.CanonicalText.{expression_bytes, pattern_bytes};
ghost use Rattle.ig_show.specs.Writing.{IsText};

use crate::expressions::push_expression;
use crate::levels::{push_associativity, push_greater};
use crate::spelling::{push_head, push_integer, push_name, push_pattern, push_text};
use crate::symbols::push_alternatives;
use ig_expr::{Expr, Kind};
use ig_grammar::{Decl, DeclKind, Grammar, Level, Param};
use ig_text::{Pattern, Word};
use std::alloc::{AllocError, Global};

/// Adds a level.
fn push_level(out: &mut String, level: &Level) -> Result<(), AllocError>
    ensures { OnOk result (Adds (string_bytes out.old) (string_bytes out.new)
        (level_pieces level.now)) }
{
    push_associativity(out, level.assoc)?;
    push_alternatives(out, &level.alts)
}

/// Adds levels, with ` > ` between two.
fn push_levels(out: &mut String, levels: &[Level]) -> Result<(), AllocError>
    ensures { OnOk result (Adds (string_bytes out.old) (string_bytes out.new)
        (levels_pieces levels.now)) }
{
    let Some((first, others)) = levels.split_first() else {
        return Ok(());
    };
    push_level(out, first)?;
    for other in others {
        push_greater(out)?;
        push_level(out, other)?;
    }
    Ok(())
}

/// Adds `: ` and the kind of a parameter.
fn push_parameter_kind(out: &mut String, kind: Kind) -> Result<(), AllocError>
    ensures { OnOk result (Adds (string_bytes out.old) (string_bytes out.new)
        (λ ps. token Colon ∷ blank ∷ token (kind_token kind) ∷ ps)) }
{
    match kind {
        Kind::Int => push_text(out, ": int"),
        Kind::Bool => push_text(out, ": bool"),
        Kind::Span => push_text(out, ": span"),
    }
}

/// Adds a parameter: its name, `: ` and its kind.
fn push_parameter(out: &mut String, param: &Param) -> Result<(), AllocError>
    ensures { OnOk result (Adds (string_bytes out.old) (string_bytes out.new)
        (parameter_pieces param.now)) }
{
    push_name(out, &param.name)?;
    push_parameter_kind(out, param.kind)
}

/// Adds parameters, with `, ` between two.
fn push_parameters(out: &mut String, params: &[Param]) -> Result<(), AllocError>
    ensures { OnOk result (Adds (string_bytes out.old) (string_bytes out.new)
        (joined comma parameter_pieces params.now)) }
{
    let Some((first, others)) = params.split_first() else {
        return Ok(());
    };
    push_parameter(out, first)?;
    for other in others {
        push_text(out, ", ")?;
        push_parameter(out, other)?;
    }
    Ok(())
}

/// Adds a declared name, and the parameters in parentheses where there are any.
fn push_declared(out: &mut String, name: &Word, params: &[Param]) -> Result<(), AllocError>
    ensures { OnOk result (Adds (string_bytes out.old) (string_bytes out.new)
        (head_pieces name.now params.now)) }
{
    if params.is_empty() {
        return push_name(out, name);
    }
    push_head(out, name)?;
    push_parameters(out, params)?;
    push_text(out, ")")
}

/// Adds the kind of a declaration and a space.
fn push_kind(out: &mut String, kind: DeclKind) -> Result<(), AllocError>
    ensures { OnOk result (Adds (string_bytes out.old) (string_bytes out.new)
        (λ ps. token (declaration_token kind) ∷ blank ∷ ps)) }
{
    match kind {
        DeclKind::Syntax => push_text(out, "syntax "),
        DeclKind::Lexical => push_text(out, "lexical "),
        DeclKind::Layout => push_text(out, "layout "),
        DeclKind::Plain => push_text(out, "plain "),
    }
}

/// Adds a declaration as a line.
fn push_declaration(out: &mut String, decl: &Decl) -> Result<(), AllocError>
    ensures { OnOk result (Adds (string_bytes out.old) (string_bytes out.new)
        (declaration_pieces decl.now)) }
{
    push_kind(out, decl.kind)?;
    push_declared(out, &decl.name, decl.params.as_slice())?;
    push_text(out, " = ")?;
    push_levels(out, decl.levels.as_slice())?;
    push_text(out, ";\n")
}

/// Adds declarations.
fn push_declarations(out: &mut String, decls: &[Decl]) -> Result<(), AllocError>
    ensures { OnOk result (Adds (string_bytes out.old) (string_bytes out.new)
        (separated [] declaration_pieces decls.now)) }
{
    for decl in decls {
        push_declaration(out, decl)?;
    }
    Ok(())
}

/// Adds the line of a start symbol, where there is one.
fn push_start(out: &mut String, start: &Option<Word>) -> Result<(), AllocError>
    ensures { OnOk result (Adds (string_bytes out.old) (string_bytes out.new)
        (start_pieces start.now)) }
{
    match start {
        None => Ok(()),
        Some(name) => push_start_line(out, name),
    }
}

/// Adds the line of a start symbol.
fn push_start_line(out: &mut String, name: &Word) -> Result<(), AllocError>
    ensures { OnOk result (Adds (string_bytes out.old) (string_bytes out.new)
        (start_pieces (Some name.now))) }
{
    push_text(out, "start ")?;
    push_name(out, name)?;
    push_text(out, ";\n")
}

/// Adds the line of a width of tabs, where one is said.
fn push_tabs(out: &mut String, tabs: Option<i64>) -> Result<(), AllocError>
    ensures { OnOk result (Adds (string_bytes out.old) (string_bytes out.new)
        (tabs_pieces tabs)) }
{
    match tabs {
        None => Ok(()),
        Some(width) => push_tabs_line(out, width),
    }
}

/// Adds the line of a width of tabs.
fn push_tabs_line(out: &mut String, width: i64) -> Result<(), AllocError>
    ensures { OnOk result (Adds (string_bytes out.old) (string_bytes out.new)
        (tabs_pieces (Some width))) }
{
    push_text(out, "tabs ")?;
    push_integer(out, width)?;
    push_text(out, ";\n")
}

/// The canonical text of a grammar, as UTF-8: the line `start NAME;` where there is a start, the
/// line `tabs N;` where it says a width of tabs, and a line for each declaration. Reading it gives
/// the grammar again, where some text does. Refuses only for want of memory.
pub fn show_grammar(alloc: Global, grammar: &Grammar) -> Result<Vec<u8>, AllocError>
    ensures { IfOk result (λ bytes. IsText bytes.items (text_of grammar.now)) }
{
    let mut out = String::new(alloc);
    push_start(&mut out, &grammar.start)?;
    push_tabs(&mut out, grammar.tabs)?;
    push_declarations(&mut out, grammar.decls.as_slice())?;
    Ok(out.into_bytes())
}

/// The canonical text of an expression, as UTF-8. Refuses only for want of memory.
pub fn show_expression(alloc: Global, expression: &Expr) -> Result<Vec<u8>, AllocError>
    ensures { IfOk result (λ bytes. IsText bytes.items (expression_text
        (expression_of expression.now))) }
{
    let mut out = String::new(alloc);
    push_expression(&mut out, expression)?;
    Ok(out.into_bytes())
}

/// The canonical text of a pattern, as UTF-8: a literal in quotes, or a class. Refuses only for
/// want of memory.
pub fn show_pattern(alloc: Global, pattern: &Pattern) -> Result<Vec<u8>, AllocError>
    ensures { IfOk result (λ bytes. IsText bytes.items (pattern_text pattern.now)) }
{
    let mut out = String::new(alloc);
    push_pattern(&mut out, pattern)?;
    Ok(out.into_bytes())
}

/// Adds the canonical text of an expression, as UTF-8. Refuses only for want of memory.
pub fn push_expression_text(out: &mut String, expression: &Expr) -> Result<(), AllocError>
    ensures { OnOk result (string_bytes out.new ≡ string_bytes out.old ++
        expression_bytes (expression_of expression.now)) }
{
    push_expression(out, expression)
}

/// Adds the canonical text of a pattern, as UTF-8. Refuses only for want of memory.
pub fn push_pattern_text(out: &mut String, pattern: &Pattern) -> Result<(), AllocError>
    ensures { OnOk result (string_bytes out.new ≡ string_bytes out.old ++
        pattern_bytes pattern.now) }
{
    push_pattern(out, pattern)
}
