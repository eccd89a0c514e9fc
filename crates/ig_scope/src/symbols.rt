//! What holds at a symbol itself, apart from the symbols inside it.

ghost use Rattle.std.specs.Prelude.{◌≡◌, ◌↔◌, IsTrue, map, length};
ghost use Rattle.ig_expr.specs.View.{expression_of};
ghost use Rattle.ig_grammar.specs.View.{symbol_of};
ghost use Rattle.ig_grammar.specs.Symbol as tree;
ghost use Rattle.ig_grammar.specs.Condition.{IsInLexical, IsListed, SymbolMeets};
ghost use Rattle.ig_scope.specs.Causes.{Tells};
ghost use Rattle.ig_scope.specs.Symbols.{HasUnknown, HasUnkinded, IsMismatched};
ghost use Rattle.ig_scope.specs.Symbols.{TellsAnywhere, TellsMark};

use crate::cause::ScopeCause;
use crate::expressions::{has_kind, names_unknown};
use ig_expr::{Expr, Exprs, Kind};
use ig_grammar::{DeclKind, Declarations, Lets, Param, Symbol, Variables};
use ig_text::Word;

/// Of the conditions that hold at the symbol itself, in an alternative of a declaration of this
/// kind, where these variables are visible, the one of the least number; `None` exactly where none
/// holds there. What holds at the symbols inside it isn't asked.
pub fn symbol_cause(
    declarations: &Declarations,
    within: DeclKind,
    variables: &Variables,
    symbol: &Symbol,
) -> Option<ScopeCause>
    ensures { Tells
        (SymbolMeets declarations.now within variables.now (symbol_of symbol.now)) result }
{
    match symbol {
        Symbol::Call(name, arguments) => call_cause(
            declarations,
            within,
            variables,
            name,
            arguments,
        ),
        Symbol::Label(name, _) => label_cause(variables, name),
        Symbol::Guard(condition) => guard_cause(variables, condition),
        Symbol::Let(name, value) => let_cause(variables, name, value),
        Symbol::Offside(_) => mark_cause(within),
        Symbol::Ignore(_) => mark_cause(within),
        Symbol::Align(inner) => {
            if is_listed(inner.as_symbol()) {
                mark_cause(within)
            } else {
                Some(ScopeCause::AlignNotList)
            }
        }
        Symbol::Entry(bindings, _) => entry_cause(variables, bindings),
        _ => None,
    }
}

/// The cause at a call.
fn call_cause(
    declarations: &Declarations,
    within: DeclKind,
    variables: &Variables,
    name: &Word,
    arguments: &Exprs,
) -> Option<ScopeCause>
    ensures { Tells
        (SymbolMeets declarations.now within variables.now (tree.Call name.now arguments.now))
        result }
{
    let Some(callee) = declarations.find(name) else {
        return Some(ScopeCause::UnknownName);
    };
    let arguments = arguments.as_slice();
    let params = callee.params.as_slice();
    if !are_as_many(arguments, params) {
        return Some(ScopeCause::WrongArity);
    }
    if have_unknown(variables, arguments) {
        return Some(ScopeCause::UnknownVariable);
    }
    if are_mismatched(variables, arguments, params) {
        return Some(ScopeCause::KindMismatch);
    }
    if is_syntax_in_lexical(within, callee.kind) {
        return Some(ScopeCause::SyntaxInLexical);
    }
    None
}

/// The cause at a label.
fn label_cause(variables: &Variables, name: &Word) -> Option<ScopeCause>
    ensures { (x : tree.Symbol) → TellsAnywhere variables.now (tree.Label name.now x) result }
{
    if variables.sees(name) {
        Some(ScopeCause::DuplicateVariable)
    } else {
        None
    }
}

/// The cause at a guard.
fn guard_cause(variables: &Variables, condition: &Expr) -> Option<ScopeCause>
    ensures { TellsAnywhere variables.now (tree.Guard (expression_of condition.now)) result }
{
    if names_unknown(variables, condition) {
        Some(ScopeCause::UnknownVariable)
    } else if has_kind(variables, condition, Kind::Bool) {
        None
    } else {
        Some(ScopeCause::KindMismatch)
    }
}

/// The cause at a let.
fn let_cause(variables: &Variables, name: &Word, value: &Expr) -> Option<ScopeCause>
    ensures { TellsAnywhere variables.now (tree.Let name.now (expression_of value.now)) result }
{
    if names_unknown(variables, value) {
        return Some(ScopeCause::UnknownVariable);
    }
    if variables.sees(name) {
        return Some(ScopeCause::DuplicateVariable);
    }
    if variables.kind_of(value).is_none() {
        return Some(ScopeCause::KindMismatch);
    }
    None
}

/// The cause at bindings that are seen only inside a symbol.
fn entry_cause(variables: &Variables, bindings: &Lets) -> Option<ScopeCause>
    ensures { (x : tree.Symbol)
        → TellsAnywhere variables.now (tree.Entry bindings.now x) result }
{
    let bindings = bindings.as_slice();
    if values_have_unknown(variables, bindings) {
        return Some(ScopeCause::UnknownVariable);
    }
    if values_have_unkinded(variables, bindings) {
        return Some(ScopeCause::KindMismatch);
    }
    None
}

/// The cause at a mark that stands where it may.
fn mark_cause(kind: DeclKind) -> Option<ScopeCause>
    ensures { TellsMark kind result }
{
    if is_in_lexical(kind) {
        Some(ScopeCause::MarkInLexical)
    } else {
        None
    }
}

/// Whether a syntax declaration is called in a lexical or a layout one.
fn is_syntax_in_lexical(within: DeclKind, callee: DeclKind) -> bool
    ensures { IsTrue result ↔ (IsInLexical within × (callee ≡ DeclKind.Syntax)) }
{
    match callee {
        DeclKind::Syntax => is_in_lexical(within),
        DeclKind::Lexical => false,
        DeclKind::Layout => false,
        DeclKind::Plain => false,
    }
}

/// Whether a declaration is a lexical or a layout one.
fn is_in_lexical(kind: DeclKind) -> bool
    ensures { IsTrue result ↔ IsInLexical kind }
{
    match kind {
        DeclKind::Lexical => true,
        DeclKind::Layout => true,
        DeclKind::Syntax => false,
        DeclKind::Plain => false,
    }
}

/// Whether the symbol is a star, plus or separated list, filters aside.
fn is_listed(symbol: &Symbol) -> bool
    ensures { IsTrue result ↔ IsListed (symbol_of symbol.now) }
{
    match symbol {
        Symbol::Star(_) => true,
        Symbol::Plus(_) => true,
        Symbol::SepStar(_, _) => true,
        Symbol::SepPlus(_, _) => true,
        Symbol::Filtered(inner, _) => is_listed(inner.as_symbol()),
        _ => false,
    }
}

/// Whether there are as many arguments as parameters.
fn are_as_many(arguments: &[Expr], params: &[Param]) -> bool
    ensures { IsTrue result ↔ (length arguments.now ≡ length params.now) }
{
    arguments.len() == params.len()
}

/// Whether some expression names a variable that isn't visible.
fn have_unknown(variables: &Variables, expressions: &[Expr]) -> bool
    ensures { IsTrue result ↔ HasUnknown variables.now (map expression_of expressions.now) }
{
    for e in expressions {
        if names_unknown(variables, e) {
            return true;
        }
    }
    false
}

/// Whether the expression of some binding names a variable that isn't visible.
fn values_have_unknown(variables: &Variables, bindings: &[(Word, Expr)]) -> bool
    ensures { IsTrue result
        ↔ HasUnknown variables.now (map (λ b. expression_of b.1) bindings.now) }
{
    for binding in bindings {
        if names_unknown(variables, &binding.1) {
            return true;
        }
    }
    false
}

/// Whether the expression of some binding has no kind.
fn values_have_unkinded(variables: &Variables, bindings: &[(Word, Expr)]) -> bool
    ensures { IsTrue result
        ↔ HasUnkinded variables.now (map (λ b. expression_of b.1) bindings.now) }
{
    for binding in bindings {
        if variables.kind_of(&binding.1).is_none() {
            return true;
        }
    }
    false
}

/// Whether some argument hasn't the kind of its parameter.
fn are_mismatched(variables: &Variables, arguments: &[Expr], params: &[Param]) -> bool
    requires { length arguments.now ≡ length params.now }
    ensures { IsTrue result
        ↔ IsMismatched variables.now (map expression_of arguments.now) params.now }
{
    for (place, argument) in arguments.iter().enumerate() {
        if !has_kind(variables, argument, params[place].kind) {
            return true;
        }
    }
    false
}
