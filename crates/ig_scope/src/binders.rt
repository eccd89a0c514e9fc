//! How many labels and lets with names of the notation there are, as far as there is room for them.
//!
//! Each function takes a room and gives what is left of it; `None` exactly where there are more.

ghost use Rattle.std.specs.Prelude.{◌≡◌, ◌∷◌, []};
ghost use Rattle.ig_grammar.specs.View.{symbol_of};
ghost use Rattle.ig_grammar.specs.Symbol.{gathered};
ghost use Rattle.ig_grammar.specs.Alternative.{gathered_alternatives};
ghost use Rattle.ig_grammar.specs.Visible.{Visible, at, inside_sequence, inside_choices};
ghost use Rattle.ig_grammar.specs.Condition.{binds_name};
ghost use Rattle.ig_scope.specs.Binders.{Leaves, binders};
ghost use Rattle.ig_scope.specs.AlternativesTold.{from};

use ig_grammar::{Alts, Symbol, Symbols, is_name};

/// Of a symbol and those inside it.
#[cycle(binders)]
fn leave(room: usize, symbol: &Symbol) -> Option<usize>
    ensures { (v : Visible) → Leaves room (binders (from v (symbol_of symbol.now))) result }
{
    let room = leave_itself(room, symbol)?;
    match symbol {
        Symbol::Literal(_) => Some(room),
        Symbol::Class(_) => Some(room),
        Symbol::Call(_, _) => Some(room),
        Symbol::Label(_, inner) => leave(room, inner.as_symbol()),
        Symbol::Guard(_) => Some(room),
        Symbol::Let(_, _) => Some(room),
        Symbol::Opt(inner) => leave(room, inner.as_symbol()),
        Symbol::Star(inner) => leave(room, inner.as_symbol()),
        Symbol::Plus(inner) => leave(room, inner.as_symbol()),
        Symbol::SepStar(inner, separator) => {
            let room = leave(room, inner.as_symbol())?;
            leave(room, separator.as_symbol())
        }
        Symbol::SepPlus(inner, separator) => {
            let room = leave(room, inner.as_symbol())?;
            leave(room, separator.as_symbol())
        }
        Symbol::Group(choices) => leave_choices(room, choices),
        Symbol::Offside(inner) => leave(room, inner.as_symbol()),
        Symbol::Ignore(inner) => leave(room, inner.as_symbol()),
        Symbol::Align(inner) => leave(room, inner.as_symbol()),
        Symbol::Filtered(inner, _) => leave(room, inner.as_symbol()),
        Symbol::Seq(symbols) => leave_sequence(room, symbols),
        Symbol::Entry(_, inner) => leave(room, inner.as_symbol()),
    }
}

/// Of the symbols of a sequence and those inside them.
#[cycle(binders)]
pub(crate) fn leave_sequence(room: usize, symbols: &Symbols) -> Option<usize>
    ensures { (v : Visible)
        → Leaves room (binders (inside_sequence v (gathered symbols.now))) result }
{
    let mut left = room;
    for symbol in symbols.as_slice() {
        left = leave(left, symbol)?;
    }
    Some(left)
}

/// Of the alternatives of a group.
#[cycle(binders)]
fn leave_choices(room: usize, choices: &Alts) -> Option<usize>
    ensures { (v : Visible)
        → Leaves room (binders (inside_choices v (gathered_alternatives choices.now))) result }
{
    let mut left = room;
    for choice in choices.as_slice() {
        left = leave_sequence(left, &choice.symbols)?;
    }
    Some(left)
}

/// Of a symbol without those inside it.
fn leave_itself(room: usize, symbol: &Symbol) -> Option<usize>
    ensures { (v : Visible) → Leaves room (binders (at v (symbol_of symbol.now) ∷ [])) result }
{
    if binds_name(symbol) {
        room.checked_sub(1)
    } else {
        Some(room)
    }
}

/// Whether the symbol is a label or a let with a name of the notation.
fn binds_name(symbol: &Symbol) -> bool
    ensures { result ≡ binds_name (symbol_of symbol.now) }
{
    match symbol {
        Symbol::Label(name, _) => is_name(name),
        Symbol::Let(name, _) => is_name(name),
        _ => false,
    }
}
