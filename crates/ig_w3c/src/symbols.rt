//! Symbols and alternatives.

ghost use Rattle.std.specs.Prelude.{◌≡◌, ◌++◌, [], OnOk, map, chars, string_bytes, if◌then◌else◌};
ghost use Rattle.ig_grammar.specs.Symbol.{gathered};
ghost use Rattle.ig_grammar.specs.Alternative.{gathered_alternatives};
ghost use Rattle.ig_grammar.specs.View.{symbol_of};
ghost use Rattle.ig_show.specs.Appending.{Appends};
ghost use Rattle.ig_w3c.specs.Text.{symbol_text, symbols_text, alternatives_text};

use crate::spelling::{push_filters, push_literal, push_set};
use ig_grammar::{Alts, Inner, Symbol, Symbols};
use ig_show::push_text;
use std::alloc::AllocError;

/// Adds the separator, but not before the first one.
fn push_separator(out: &mut String, is_first: bool, separator: &str) -> Result<(), AllocError>
    ensures { OnOk result (Appends (string_bytes out.old) (string_bytes out.new)
        (if is_first then [] else chars separator.now)) }
{
    if is_first {
        Ok(())
    } else {
        push_text(out, separator)
    }
}

/// Adds a symbol; nothing for a form that no text reads as.
#[cycle(symbols)]
fn push_symbol(out: &mut String, symbol: &Symbol) -> Result<(), AllocError>
    ensures { OnOk result (Appends (string_bytes out.old) (string_bytes out.new) (symbol_text
        (symbol_of symbol.now))) }
{
    match symbol {
        Symbol::Literal(word) => push_literal(out, word),
        Symbol::Class(class) => push_set(out, class),
        Symbol::Call(name, _) => push_text(out, name.as_str()),
        Symbol::Opt(inner) => push_ended(out, inner, "?"),
        Symbol::Star(inner) => push_ended(out, inner, "*"),
        Symbol::Plus(inner) => push_ended(out, inner, "+"),
        Symbol::Group(alternatives) => {
            push_text(out, "(")?;
            push_alternatives(out, alternatives)?;
            push_text(out, ")")
        }
        Symbol::Filtered(inner, filters) => {
            push_symbol(out, inner.as_symbol())?;
            push_filters(out, filters.as_slice())
        }
        _ => Ok(()),
    }
}

/// Adds a symbol inside another one, and the sign behind it.
#[cycle(symbols)]
fn push_ended(out: &mut String, inner: &Inner, sign: &str) -> Result<(), AllocError>
    ensures { OnOk result (Appends (string_bytes out.old) (string_bytes out.new) (symbol_text
        inner.now ++ chars sign.now)) }
{
    push_symbol(out, inner.as_symbol())?;
    push_text(out, sign)
}

/// Adds the symbols of an alternative, with a space between two.
#[cycle(symbols)]
fn push_symbols(out: &mut String, symbols: &Symbols) -> Result<(), AllocError>
    ensures { OnOk result (Appends (string_bytes out.old) (string_bytes out.new) (symbols_text []
        (gathered symbols.now))) }
{
    let items = symbols.as_slice();
    let mut is_first = true;
    for symbol in items {
        push_separator(out, is_first, " ")?;
        push_symbol(out, symbol)?;
        is_first = false;
    }
    Ok(())
}

/// Adds alternatives, with ` | ` between two.
#[cycle(symbols)]
pub(crate) fn push_alternatives(out: &mut String, alternatives: &Alts) -> Result<(), AllocError>
    ensures { OnOk result (Appends (string_bytes out.old) (string_bytes out.new) (alternatives_text
        [] (gathered_alternatives alternatives.now))) }
{
    let items = alternatives.as_slice();
    let mut is_first = true;
    for alternative in items {
        push_separator(out, is_first, " | ")?;
        push_symbols(out, &alternative.symbols)?;
        is_first = false;
    }
    Ok(())
}
