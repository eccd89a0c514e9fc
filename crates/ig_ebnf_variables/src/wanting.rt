//! What a symbol wants of the variables before it.
ghost use Rattle.std.specs.Prelude.{◌≡◌, ◌||◌, map};
ghost use Rattle.ig_expr.specs.View.{expression_of};
ghost use Rattle.ig_grammar.specs.Binding.{binding_of};
ghost use Rattle.ig_grammar.specs.View.{symbol_of};
ghost use Rattle.ig_grammar.specs.Symbol.{gathered};
ghost use Rattle.ig_grammar.specs.Alternative.{gathered_alternatives};
ghost use Rattle.ig_pass.specs.Needs.{uses, any_uses, bindings_use, is_bound, is_pair, is_added};
ghost use Rattle.ig_pass.specs.Needs.{needs, symbols_need, alternatives_need};

use ig_expr::Expr;
use ig_grammar::{Alts, Symbol, Symbols};
use ig_text::Word;

/// The parameter that stands for the margin of enclosing blocks.
const MARGIN: [char; 2] = ['.', 'm'];

/// The parameter that stands for the first position of enclosing blocks.
const FIRST: [char; 2] = ['.', 'f'];

/// Whether the expression names the variable.
fn uses(name: &Word, e: &Expr) -> bool
    ensures { result ≡ uses name.now (expression_of e.now) }
{
    match e {
        Expr::Int(_) => false,
        Expr::Bool(_) => false,
        Expr::Here => false,
        Expr::Var(variable) => *variable == *name,
        Expr::Not(a) => uses(name, a.as_expr()),
        Expr::Neg(a) => uses(name, a.as_expr()),
        Expr::Binary(_, a, b) => uses(name, a.as_expr()) || uses(name, b.as_expr()),
        Expr::Of(_, a) => uses(name, a.as_expr()),
        Expr::Same(a, b) => uses(name, a.as_expr()) || uses(name, b.as_expr()),
        Expr::Spells(a, _) => uses(name, a.as_expr()),
        Expr::Outer(a, b) => uses(name, a.as_expr()) || uses(name, b.as_expr()),
        Expr::Inside(a, b) => uses(name, a.as_expr()) || uses(name, b.as_expr()),
        Expr::FreeBefore(_) => false,
        Expr::FreeAfter(_) => false,
    }
}

/// Whether one of the expressions names the variable.
fn any_uses(name: &Word, arguments: &[Expr]) -> bool
    ensures { result ≡ any_uses name.now (map expression_of arguments.now) }
{
    for argument in arguments {
        if uses(name, argument) {
            return true;
        }
    }
    false
}

/// Whether the value of one of the bindings names the variable.
fn bindings_use(name: &Word, bindings: &[(Word, Expr)]) -> bool
    ensures { result ≡ bindings_use name.now (map binding_of bindings.now) }
{
    for (_, value) in bindings {
        if uses(name, value) {
            return true;
        }
    }
    false
}

/// Whether one of the bindings is of the name.
fn is_bound(name: &Word, bindings: &[(Word, Expr)]) -> bool
    ensures { result ≡ is_bound name.now (map binding_of bindings.now) }
{
    for (bound, _) in bindings {
        if *bound == *name {
            return true;
        }
    }
    false
}

/// Whether the name is that of the margin or of the first position of enclosing blocks.
fn is_pair(name: &Word) -> bool
    ensures { result ≡ is_pair name.now }
{
    MARGIN.as_slice() == name.as_chars() || FIRST.as_slice() == name.as_chars()
}

/// Whether a pass added the name.
pub(crate) fn is_added(name: &Word) -> bool
    ensures { result ≡ is_added name.now }
{
    match name.as_chars() {
        [] => false,
        [first, ..] => *first == '.',
    }
}

/// Whether an item wants the variable, or its separator.
fn one_wants(item_wants: bool, separator_wants: bool) -> bool
    ensures { result ≡ (item_wants || separator_wants) }
{
    if item_wants {
        return true;
    }
    separator_wants
}

/// Whether the symbol wants the variable.
#[cycle(wanting)]
pub(crate) fn needs(name: &Word, symbol: &Symbol) -> bool
    ensures { result ≡ needs name.now (symbol_of symbol.now) }
{
    match symbol {
        Symbol::Literal(_) => false,
        Symbol::Class(_) => false,
        Symbol::Call(_, arguments) => any_uses(name, arguments.as_slice()),
        Symbol::Label(_, inner) => needs(name, inner.as_symbol()),
        Symbol::Guard(condition) => uses(name, condition),
        Symbol::Let(_, value) => uses(name, value),
        Symbol::Opt(inner) => is_pair(name) || needs(name, inner.as_symbol()),
        Symbol::Star(inner) => is_pair(name) || needs(name, inner.as_symbol()),
        Symbol::Plus(inner) => is_pair(name) || needs(name, inner.as_symbol()),
        Symbol::SepStar(inner, separator) => {
            is_pair(name) || one_needs(name, inner.as_symbol(), separator.as_symbol())
        }
        Symbol::SepPlus(inner, separator) => {
            is_pair(name) || one_needs(name, inner.as_symbol(), separator.as_symbol())
        }
        Symbol::Group(choices) => is_pair(name) || choices_need(name, choices),
        Symbol::Offside(inner) => needs(name, inner.as_symbol()),
        Symbol::Ignore(inner) => needs(name, inner.as_symbol()),
        Symbol::Align(inner) => needs(name, inner.as_symbol()),
        Symbol::Filtered(inner, _) => needs(name, inner.as_symbol()),
        Symbol::Seq(symbols) => symbols_need(name, symbols),
        Symbol::Entry(bindings, inner) => {
            bindings_use(name, bindings.as_slice())
                || !is_bound(name, bindings.as_slice()) && needs(name, inner.as_symbol())
        }
    }
}

/// Whether an item or its separator wants the variable.
#[cycle(wanting)]
fn one_needs(name: &Word, item: &Symbol, separator: &Symbol) -> bool
    ensures { result ≡
        (needs name.now (symbol_of item.now) || needs name.now (symbol_of separator.now)) }
{
    one_wants(needs(name, item), needs(name, separator))
}

/// Whether one of the symbols wants the variable.
#[cycle(wanting)]
fn symbols_need(name: &Word, symbols: &Symbols) -> bool
    ensures { result ≡ symbols_need name.now (gathered symbols.now) }
{
    for symbol in symbols.as_slice() {
        if needs(name, symbol) {
            return true;
        }
    }
    false
}

/// Whether one of the alternatives wants the variable.
#[cycle(wanting)]
fn choices_need(name: &Word, choices: &Alts) -> bool
    ensures { result ≡ alternatives_need name.now (gathered_alternatives choices.now) }
{
    for choice in choices.as_slice() {
        if symbols_need(name, &choice.symbols) {
            return true;
        }
    }
    false
}
