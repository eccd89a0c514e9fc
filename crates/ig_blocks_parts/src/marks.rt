//! Whether a grammar is marked.
ghost use Rattle.std.specs.Prelude.{◌≡◌};
ghost use Rattle.ig_grammar.specs.Alternative.{gathered_alternatives};
ghost use Rattle.ig_grammar.specs.Symbol.{gathered};
ghost use Rattle.ig_grammar.specs.View.{symbol_of};
ghost use Rattle.ig_blocks_parts.specs.Blocks.{has_block, symbols_have_block, choices_have_block};
ghost use Rattle.ig_blocks_parts.specs.Blocks.{levels_have_block, is_marked};

use ig_grammar::{Alts, Decl, Level, Symbol, Symbols};

/// Whether some declaration has an `offside`.
pub(crate) fn is_marked(decls: &[Decl]) -> bool
    ensures { result ≡ is_marked decls.now }
{
    for decl in decls {
        if levels_have_block(decl.levels.as_slice()) {
            return true;
        }
    }
    false
}

/// Whether an `offside` is in the levels.
fn levels_have_block(levels: &[Level]) -> bool
    ensures { result ≡ levels_have_block levels.now }
{
    for level in levels {
        if choices_have_block(&level.alts) {
            return true;
        }
    }
    false
}

/// Whether an `offside` is in the alternatives.
#[cycle(marks)]
fn choices_have_block(choices: &Alts) -> bool
    ensures { result ≡ choices_have_block (gathered_alternatives choices.now) }
{
    for choice in choices.as_slice() {
        if symbols_have_block(&choice.symbols) {
            return true;
        }
    }
    false
}

/// Whether an `offside` is in the symbols.
#[cycle(marks)]
fn symbols_have_block(symbols: &Symbols) -> bool
    ensures { result ≡ symbols_have_block (gathered symbols.now) }
{
    for symbol in symbols.as_slice() {
        if has_block(symbol) {
            return true;
        }
    }
    false
}

/// Whether an `offside` is in the symbol.
#[cycle(marks)]
fn has_block(symbol: &Symbol) -> bool
    ensures { result ≡ has_block (symbol_of symbol.now) }
{
    match symbol {
        Symbol::Literal(_) => false,
        Symbol::Class(_) => false,
        Symbol::Call(_, _) => false,
        Symbol::Label(_, inner) => has_block(inner.as_symbol()),
        Symbol::Guard(_) => false,
        Symbol::Let(_, _) => false,
        Symbol::Opt(inner) => has_block(inner.as_symbol()),
        Symbol::Star(inner) => has_block(inner.as_symbol()),
        Symbol::Plus(inner) => has_block(inner.as_symbol()),
        Symbol::SepStar(inner, separator) => {
            has_block(inner.as_symbol()) || has_block(separator.as_symbol())
        }
        Symbol::SepPlus(inner, separator) => {
            has_block(inner.as_symbol()) || has_block(separator.as_symbol())
        }
        Symbol::Group(choices) => choices_have_block(choices),
        Symbol::Offside(_) => true,
        Symbol::Ignore(inner) => has_block(inner.as_symbol()),
        Symbol::Align(inner) => has_block(inner.as_symbol()),
        Symbol::Filtered(inner, _) => has_block(inner.as_symbol()),
        Symbol::Seq(symbols) => symbols_have_block(symbols),
        Symbol::Entry(_, inner) => has_block(inner.as_symbol()),
    }
}
