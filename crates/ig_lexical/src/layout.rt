//! Layout called in the open.
ghost use Rattle.std.specs.Prelude.{◌≡◌, map, None, IfOk};
ghost use Rattle.ig_grammar.specs.View.{symbol_of};
ghost use Rattle.ig_grammar.specs.Checked.{FitShapes};
ghost use Rattle.ig_grammar.specs.WellScoped.{IsWellScoped};
ghost use Rattle.ig_pass.specs.Sound.{IsSound, IsFree, IsUnmarked};
ghost use Rattle.ig_grammar.specs.Symbol.{Filtered, Entry};
ghost use Rattle.ig_lexical.specs.Layout.{is_syntax, is_token, then_layout, laid_inside, laid};
ghost use Rattle.ig_lexical.specs.Layout.{laid_declaration, laid_grammar, laid_of, LayoutOf};

use crate::guide::Guide;
use crate::laws::layout_keeps;
use ig_expr::Exprs;
use ig_grammar::{Checked, Decl, DeclKind, Decls, Filters, Grammar, Inner, Lets, Symbol, Symbols};
use ig_pass::{
    OwnRule, copy_of_shapes, copy_of_start, has_root, push_declaration, push_symbol, relabelled,
    rewrite_levels, root,
};
use ig_text::{Copied, Word};
use std::alloc::{AllocError, Global};

/// The grammar with layout called in the open, exactly as `specs/Layout.antt` says: each
/// declaration is plain, and in those that were syntax declarations a call of the layout
/// nonterminal stands behind each token. Where none stood for the root, `$root` is the last
/// declaration. Refused for want of memory alone.
pub fn add_layout(alloc: Global, checked: &Checked) -> Result<Checked, AllocError>
    requires sound { IsSound checked.now }
    requires free { IsFree checked.now.grammar }
    requires unmarked { IsUnmarked checked.now.grammar }
    ensures { IfOk result (λ r. r ≡ LayoutOf checked.now) }
{
    layout_keeps();
    if has_root(checked) {
        return lay_rooted(alloc, checked);
    }
    let rooted = root(alloc, checked)?;
    lay_rooted(alloc, &rooted)
}

/// The grammar, in which a declaration stands for the root, with layout called in the open.
fn lay_rooted(alloc: Global, checked: &Checked) -> Result<Checked, AllocError>
    requires scoped { IsWellScoped (laid_of checked.now).grammar }
    requires fit { FitShapes (laid_of checked.now).grammar (laid_of checked.now).shapes }
    ensures { IfOk result (λ r. r ≡ laid_of checked.now) }
{
    let grammar = lay_grammar(alloc, checked.grammar())?;
    let shapes = copy_of_shapes(alloc, checked)?;
    Ok(Checked::with_shapes(grammar, shapes))
}

/// The grammar, each declaration of which is plain, with layout called in the open.
fn lay_grammar(alloc: Global, grammar: &Grammar) -> Result<Grammar, AllocError>
    ensures { IfOk result (λ r. r ≡ laid_grammar grammar.now) }
{
    let start = copy_of_start(alloc, &grammar.start)?;
    let guide = Guide::new(alloc, grammar.decls.as_slice())?;
    let decls = lay_declarations(alloc, &guide, grammar.decls.as_slice())?;
    Ok(Grammar {
        start,
        tabs: grammar.tabs,
        decls,
    })
}

/// The declarations, which are plain, with layout called in the open.
fn lay_declarations(alloc: Global, guide: &Guide, decls: &[Decl]) -> Result<Decls, AllocError>
    ensures { IfOk result (λ r. r ≡ map (laid_declaration guide.now) decls.now) }
{
    let mut all = Decls::new(alloc);
    for decl in decls {
        push_declaration(&mut all, lay_declaration(alloc, guide, decl)?)?;
    }
    Ok(all)
}

/// The declaration, which is plain, with layout called in the open.
fn lay_declaration(alloc: Global, guide: &Guide, decl: &Decl) -> Result<Decl, AllocError>
    ensures { IfOk result (λ r. r ≡ laid_declaration guide.now decl.now) }
{
    let name = decl.name.copy(alloc)?;
    let params = decl.params.copy(alloc)?;
    let levels = rewrite_levels(&Laid { guide }, alloc, decl)?;
    Ok(Decl {
        kind: DeclKind::Plain,
        name,
        params,
        levels,
    })
}

/// The own rule of the layout pass.
#[derive(Drop)]
struct Laid<'a> {
    guide: &'a Guide<'a>,
}

impl<'a> OwnRule for Laid<'a> {
    ghost use Rattle.ig_grammar.specs.Numbering.{layout_among};
    ghost use Rattle.ig_lexical.specs.Layout.{laid_in};

    ghost rule = { λ s decl x.
        laid_in (layout_among s.guide.now) s.guide.now decl.kind x };

    fn apply(&self, alloc: Global, decl: &Decl, symbol: Symbol) -> Result<Symbol, AllocError> {
        match self.guide.layout() {
            None => Ok(symbol),
            Some(layout) => {
                if is_syntax(decl.kind) {
                    lay(alloc, self.guide, layout, symbol)
                } else {
                    Ok(symbol)
                }
            }
        }
    }
}

/// Whether layout stands between the tokens of a declaration of the kind.
fn is_syntax(kind: DeclKind) -> bool
    ensures { result ≡ is_syntax kind }
{
    match kind {
        DeclKind::Syntax => true,
        DeclKind::Lexical => false,
        DeclKind::Layout => false,
        DeclKind::Plain => false,
    }
}

/// The symbol of a syntax declaration, with layout behind each of its tokens.
#[cycle(laying)]
fn lay(alloc: Global, guide: &Guide, layout: &Word, symbol: Symbol) -> Result<Symbol, AllocError>
    ensures { IfOk result (λ r. symbol_of r ≡ laid guide.now layout.now (symbol_of symbol)) }
{
    if is_token(guide, &symbol) {
        then_layout(alloc, layout, symbol)
    } else {
        lay_inside(alloc, guide, layout, symbol)
    }
}

/// The symbol, which is no token, with layout behind the token that an entry of it stands round.
#[cycle(laying)]
fn lay_inside(
    alloc: Global,
    guide: &Guide,
    layout: &Word,
    symbol: Symbol,
) -> Result<Symbol, AllocError>
    ensures { IfOk result (λ r.
        symbol_of r ≡ laid_inside guide.now layout.now (symbol_of symbol)) }
{
    match symbol {
        Symbol::Label(name, inner) => {
            let inside = lay_inside(alloc, guide, layout, inner.into_symbol())?;
            relabelled(alloc, name, inside)
        }
        Symbol::Filtered(inner, filters) => lay_filtered(alloc, guide, layout, inner, filters),
        Symbol::Entry(bindings, inner) => {
            match lay(alloc, guide, layout, inner.into_symbol()) {
                Ok(inside) => reentered(alloc, bindings, inside),
                Err(refused) => {
                    drop(bindings);
                    Err(refused)
                }
            }
        }
        other => Ok(other),
    }
}

/// What [`lay_inside`] makes of the symbol, with the filters round it.
#[cycle(laying)]
fn lay_filtered(
    alloc: Global,
    guide: &Guide,
    layout: &Word,
    inner: Inner,
    filters: Filters,
) -> Result<Symbol, AllocError>
    ensures { IfOk result (λ r.
        symbol_of r ≡ Filtered (laid_inside guide.now layout.now inner) filters) }
{
    match lay_inside(alloc, guide, layout, inner.into_symbol()) {
        Ok(inside) => refiltered(alloc, inside, filters),
        Err(refused) => {
            drop(filters);
            Err(refused)
        }
    }
}

/// The symbol with the filters.
///
/// Here and below a call lets go of what stands beside the symbol: where `?` does, its proof goes
/// through all forms.
fn refiltered(alloc: Global, inside: Symbol, filters: Filters) -> Result<Symbol, AllocError>
    ensures { IfOk result (λ r. symbol_of r ≡ Filtered (symbol_of inside) filters) }
{
    match Inner::new(alloc, inside) {
        Ok(inner) => Ok(Symbol::Filtered(inner, filters)),
        Err(refused) => {
            drop(filters);
            Err(refused)
        }
    }
}

/// The symbol with the bindings on its entry.
fn reentered(alloc: Global, bindings: Lets, inside: Symbol) -> Result<Symbol, AllocError>
    ensures { IfOk result (λ r. symbol_of r ≡ Entry bindings (symbol_of inside)) }
{
    match Inner::new(alloc, inside) {
        Ok(inner) => Ok(Symbol::Entry(bindings, inner)),
        Err(refused) => {
            drop(bindings);
            Err(refused)
        }
    }
}

/// Whether the symbol is a token, with its labels and filters.
fn is_token(guide: &Guide, symbol: &Symbol) -> bool
    ensures { result ≡ is_token guide.now (symbol_of symbol.now) }
{
    match symbol {
        Symbol::Literal(_) => true,
        Symbol::Class(_) => true,
        Symbol::Call(name, _) => guide.has_lexical(name),
        Symbol::Label(_, inner) => is_token(guide, inner.as_symbol()),
        Symbol::Filtered(inner, _) => is_token(guide, inner.as_symbol()),
        _ => false,
    }
}

/// The symbol, and behind it a call of the layout nonterminal.
fn then_layout(alloc: Global, layout: &Word, symbol: Symbol) -> Result<Symbol, AllocError>
    ensures { IfOk result (λ r. symbol_of r ≡ then_layout layout.now (symbol_of symbol)) }
{
    let mut both = Symbols::new(alloc);
    push_symbol(&mut both, symbol)?;
    let name = layout.copy(alloc)?;
    push_symbol(&mut both, Symbol::Call(name, Exprs::new(alloc)))?;
    Ok(Symbol::Seq(both))
}
