//! Symbols, alternatives and filters.

ghost use Rattle.std.specs.Prelude.{◌≡◌, ◌∷◌, [], OnOk, map, chars, string_bytes};
ghost use Rattle.ig_grammar.specs.Symbol.{gathered};
ghost use Rattle.ig_grammar.specs.Alternative.{gathered_alternatives};
ghost use Rattle.ig_grammar.specs.Binding.{binding_of};
ghost use Rattle.ig_grammar.specs.Regular.{pattern_of};
ghost use Rattle.ig_grammar.specs.View.{symbol_of};
ghost use Rattle.ig_expr.specs.View.{expression_of};
ghost use Rattle.ig_show.specs.Pieces.{token, blank};
ghost use Rattle.ig_show.specs.Appending.{Adds};
ghost use Rattle.ig_show.specs.CanonicalText.{symbol_pieces, alternative_pieces};
ghost use Rattle.ig_show.specs.CanonicalText.{alternatives_pieces, filter_pieces, separated};
ghost use Rattle.ig_show.specs.CanonicalText.{guard_pieces, let_pieces, bindings_pieces};
ghost use Rattle.ig_show.specs.CanonicalText.{filter_sign};
ghost use Rattle.ig_notation_syntax.specs.Token.{Colon, Name, OpenBrace};
ghost use Rattle.ig_show.specs.Writing.{AddsBefore, AddsBehind};

use crate::expressions::{push_call, push_expression};
use crate::spelling::{push_class, push_literal, push_name, push_pattern, push_text};
use ig_expr::Expr;
use ig_grammar::{Alts, Filter, Inner, Symbol, Symbols};
use ig_text::{Pattern, Word};
use std::alloc::AllocError;

/// Adds `when (e)`.
fn push_guard(out: &mut String, condition: &Expr) -> Result<(), AllocError>
    ensures { OnOk result (Adds (string_bytes out.old) (string_bytes out.new)
        (guard_pieces (expression_of condition.now))) }
{
    push_text(out, "when (")?;
    push_expression(out, condition)?;
    push_text(out, ")")
}

/// Adds a label, with `: ` behind it.
fn push_label(out: &mut String, name: &Word) -> Result<(), AllocError>
    ensures { OnOk result (Adds (string_bytes out.old) (string_bytes out.new)
        (λ ps. token (Name name.now) ∷ token Colon ∷ blank ∷ ps)) }
{
    push_name(out, name)?;
    push_text(out, ": ")
}

/// Adds `let x = (e)`.
fn push_let(out: &mut String, name: &Word, value: &Expr) -> Result<(), AllocError>
    ensures { OnOk result (Adds (string_bytes out.old) (string_bytes out.new)
        (let_pieces name.now (expression_of value.now))) }
{
    push_text(out, "let ")?;
    push_name(out, name)?;
    push_text(out, " = (")?;
    push_expression(out, value)?;
    push_text(out, ")")
}

/// Adds bindings, each with a space behind it.
fn push_bindings(out: &mut String, bindings: &[(Word, Expr)]) -> Result<(), AllocError>
    ensures { OnOk result (Adds (string_bytes out.old) (string_bytes out.new)
        (bindings_pieces (map binding_of bindings.now))) }
{
    for binding in bindings {
        push_let(out, &binding.0, &binding.1)?;
        push_text(out, " ")?;
    }
    Ok(())
}

/// Adds the sign of a filter and a space.
fn push_filter_sign(out: &mut String, filter: &Filter) -> Result<(), AllocError>
    ensures { OnOk result (Adds (string_bytes out.old) (string_bytes out.new)
        (λ ps. token (filter_sign filter.now) ∷ blank ∷ ps)) }
{
    match filter {
        Filter::NotFollowed(_) => push_text(out, "!>> "),
        Filter::NotPreceded(_) => push_text(out, "!<< "),
        Filter::Not(_) => push_text(out, "\\ "),
    }
}

/// The pattern of a filter.
fn filter_pattern(filter: &Filter) -> &Pattern
    ensures { result.now ≡ pattern_of filter.now }
{
    match filter {
        Filter::NotFollowed(pattern) => pattern,
        Filter::NotPreceded(pattern) => pattern,
        Filter::Not(pattern) => pattern,
    }
}

/// Adds a filter: its sign, a space and its pattern.
fn push_filter(out: &mut String, filter: &Filter) -> Result<(), AllocError>
    ensures { OnOk result (Adds (string_bytes out.old) (string_bytes out.new)
        (filter_pieces filter.now)) }
{
    push_filter_sign(out, filter)?;
    push_pattern(out, filter_pattern(filter))
}

/// Adds filters, each with a space before it.
fn push_filters(out: &mut String, filters: &[Filter]) -> Result<(), AllocError>
    ensures { OnOk result (Adds (string_bytes out.old) (string_bytes out.new)
        (separated (blank ∷ []) filter_pieces filters.now)) }
{
    for filter in filters {
        push_text(out, " ")?;
        push_filter(out, filter)?;
    }
    Ok(())
}

/// Adds a symbol.
#[cycle(symbols)]
pub(crate) fn push_symbol(out: &mut String, symbol: &Symbol) -> Result<(), AllocError>
    ensures { OnOk result (Adds (string_bytes out.old) (string_bytes out.new)
        (symbol_pieces (symbol_of symbol.now))) }
{
    match symbol {
        Symbol::Literal(word) => push_literal(out, word),
        Symbol::Class(class) => push_class(out, class),
        Symbol::Call(name, arguments) => push_call(out, name, arguments.as_slice()),
        Symbol::Label(name, inner) => {
            push_label(out, name)?;
            push_inner(out, inner)
        }
        Symbol::Guard(condition) => push_guard(out, condition),
        Symbol::Let(name, value) => push_let(out, name, value),
        Symbol::Opt(inner) => push_ended(out, inner, "?"),
        Symbol::Star(inner) => push_ended(out, inner, "*"),
        Symbol::Plus(inner) => push_ended(out, inner, "+"),
        Symbol::SepStar(inner, separator) => {
            push_opened(out, inner)?;
            push_ended(out, separator, "}*")
        }
        Symbol::SepPlus(inner, separator) => {
            push_opened(out, inner)?;
            push_ended(out, separator, "}+")
        }
        Symbol::Group(alternatives) => {
            push_text(out, "(")?;
            push_alternatives(out, alternatives)?;
            push_text(out, ")")
        }
        Symbol::Offside(inner) => push_marked(out, "offside ", inner),
        Symbol::Ignore(inner) => push_marked(out, "ignore ", inner),
        Symbol::Align(inner) => push_marked(out, "align ", inner),
        Symbol::Filtered(inner, filters) => {
            push_inner(out, inner)?;
            push_filters(out, filters.as_slice())
        }
        Symbol::Seq(symbols) => push_alternative(out, symbols),
        Symbol::Entry(bindings, inner) => {
            push_bindings(out, bindings.as_slice())?;
            push_inner(out, inner)
        }
    }
}

/// Adds a symbol inside another one.
#[cycle(symbols)]
fn push_inner(out: &mut String, inner: &Inner) -> Result<(), AllocError>
    ensures { OnOk result (Adds (string_bytes out.old) (string_bytes out.new)
        (symbol_pieces inner.now)) }
{
    push_symbol(out, inner.as_symbol())
}

/// Adds a symbol inside another one, and what ends it.
#[cycle(symbols)]
fn push_ended(out: &mut String, inner: &Inner, end: &str) -> Result<(), AllocError>
    ensures { OnOk result (AddsBefore (string_bytes out.old) (string_bytes out.new)
        (chars end.now) (symbol_pieces inner.now)) }
{
    push_symbol(out, inner.as_symbol())?;
    push_text(out, end)
}

/// Adds `{`, a symbol inside another one and a space.
#[cycle(symbols)]
fn push_opened(out: &mut String, inner: &Inner) -> Result<(), AllocError>
    ensures { OnOk result (Adds (string_bytes out.old) (string_bytes out.new)
        (λ ps. token OpenBrace ∷ symbol_pieces inner.now (blank ∷ ps))) }
{
    push_text(out, "{")?;
    push_symbol(out, inner.as_symbol())?;
    push_text(out, " ")
}

/// Adds a mark, and the symbol behind it.
#[cycle(symbols)]
fn push_marked(out: &mut String, mark: &str, inner: &Inner) -> Result<(), AllocError>
    ensures { OnOk result (AddsBehind (string_bytes out.old) (string_bytes out.new)
        (chars mark.now) (symbol_pieces inner.now)) }
{
    push_text(out, mark)?;
    push_symbol(out, inner.as_symbol())
}

/// Adds the symbols of an alternative, with a space between two.
#[cycle(symbols)]
fn push_alternative(out: &mut String, symbols: &Symbols) -> Result<(), AllocError>
    ensures { OnOk result (Adds (string_bytes out.old) (string_bytes out.new)
        (alternative_pieces (gathered symbols.now))) }
{
    let Some((first, others)) = symbols.as_slice().split_first() else {
        return Ok(());
    };
    push_symbol(out, first)?;
    for other in others {
        push_text(out, " ")?;
        push_symbol(out, other)?;
    }
    Ok(())
}

/// Adds alternatives, with ` | ` between two.
#[cycle(symbols)]
pub(crate) fn push_alternatives(out: &mut String, alternatives: &Alts) -> Result<(), AllocError>
    ensures { OnOk result (Adds (string_bytes out.old) (string_bytes out.new)
        (alternatives_pieces (gathered_alternatives alternatives.now))) }
{
    let Some((first, others)) = alternatives.as_slice().split_first() else {
        return Ok(());
    };
    push_alternative(out, &first.symbols)?;
    for other in others {
        push_text(out, " | ")?;
        push_alternative(out, &other.symbols)?;
    }
    Ok(())
}
