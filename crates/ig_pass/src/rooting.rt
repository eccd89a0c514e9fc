//! The declaration that stands for the root.
ghost use Rattle.std.specs.Prelude.{◌≡◌, ◌↔◌, [], ◌∷◌, ◌++◌, Some, false, length, IfOk, IsTrue};
ghost use Rattle.ig_grammar.specs.Symbol.{Call};
ghost use Rattle.ig_grammar.specs.View.{symbol_of};
ghost use Rattle.ig_grammar.specs.Numbering.{layout_among};
ghost use Rattle.ig_meaning.specs.Permitted.{behind_layout};
ghost use Rattle.ig_grammar.specs.declared.declaration.DeclKind.TheVariants.{Layout, Syntax};
ghost use Rattle.ig_pass.specs.Added.{root_name, IsFresh};
ghost use Rattle.ig_pass.specs.Rooted.{root_symbols, root_declaration, rooted_grammar};
ghost use Rattle.ig_pass.specs.Rooted.{is_root, has_root, rooted};

use crate::growing::{
    copy_of_start, push_alternative, push_declaration, push_level, push_shape, push_symbol,
};
use crate::laws::rooted_is_the_same;
use ig_expr::Exprs;
use ig_grammar::{
    Alt, Alts, Assoc, Checked, Decl, DeclKind, Decls, Grammar, Level, Levels, Params, Shape,
    Shapes, Symbol, Symbols,
};
use ig_text::{Copied, Word};
use std::alloc::{AllocError, Global};

/// Whether some declaration stands for the root. Takes no memory.
pub fn has_root(checked: &Checked) -> bool
    ensures { result ≡ has_root checked.now.shapes }
{
    for before in 0..count_of_shapes(checked) {
        if is_root(checked.shape_behind(before)) {
            return true;
        }
    }
    false
}

/// Whether the shape is that of a declaration that stands for the root.
fn is_root(shape: Shape) -> bool
    ensures { result ≡ is_root shape }
{
    matches!(shape, Shape::Root)
}

/// The grammar where some declaration stands for the root, and else with its root alternative as
/// `$root`, the last declaration, which is then the start. Refused for want of memory alone. Where
/// none stands for the root, none is named `$root`.
pub fn root(alloc: Global, checked: &Checked) -> Result<Checked, AllocError>
    requires fresh { has_root checked.now.shapes ≡ false → IsFresh checked.now.grammar root_name }
    ensures { IfOk result (λ r. r ≡ rooted Syntax checked.now) }
{
    rooted_is_the_same();
    let grammar = checked.grammar();
    let mut shapes = copy_of_shapes(alloc, checked)?;
    if has_root(checked) {
        let same = copy_of_grammar(alloc, grammar)?;
        return Ok(Checked::with_shapes(same, shapes));
    }
    let grammar = rooted_grammar(alloc, grammar)?;
    push_shape(&mut shapes, Shape::Root)?;
    Ok(Checked::with_shapes(grammar, shapes))
}

/// The number of declarations, each of which has a shape.
fn count_of_shapes(checked: &Checked) -> usize
    ensures { result ≡ length checked.now.shapes }
{
    checked.grammar().decls.len()
}

/// The shapes of the declarations, in order. Refused for want of memory alone.
pub fn copy_of_shapes(alloc: Global, checked: &Checked) -> Result<Shapes, AllocError>
    ensures { IfOk result (λ r. r ≡ checked.now.shapes) }
{
    let mut shapes = Shapes::new(alloc);
    for before in 0..count_of_shapes(checked) {
        push_shape(&mut shapes, checked.shape_behind(before))?;
    }
    Ok(shapes)
}

/// An equal grammar.
fn copy_of_grammar(alloc: Global, grammar: &Grammar) -> Result<Grammar, AllocError>
    ensures { IfOk result (λ r. r ≡ grammar.now) }
{
    let start = copy_of_start(alloc, &grammar.start)?;
    let decls = grammar.decls.copy(alloc)?;
    Ok(Grammar {
        start,
        tabs: grammar.tabs,
        decls,
    })
}

/// The grammar with its root alternative as the last declaration.
fn rooted_grammar(alloc: Global, grammar: &Grammar) -> Result<Grammar, AllocError>
    ensures { IfOk result (λ r. r ≡ rooted_grammar Syntax grammar.now) }
{
    let start = root_start(alloc)?;
    let decls = rooted_declarations(alloc, grammar)?;
    Ok(Grammar {
        start,
        tabs: grammar.tabs,
        decls,
    })
}

/// The declarations, with that which stands for the root as the last one.
fn rooted_declarations(alloc: Global, grammar: &Grammar) -> Result<Decls, AllocError>
    ensures { IfOk result (λ r.
        r ≡ grammar.now.decls ++ root_declaration Syntax grammar.now ∷ []) }
{
    let mut decls = grammar.decls.copy(alloc)?;
    push_declaration(&mut decls, root_declaration(alloc, grammar)?)?;
    Ok(decls)
}

/// The start of a grammar with a declaration that stands for the root.
fn root_start(alloc: Global) -> Result<Option<Word>, AllocError>
    ensures { IfOk result (λ r. r ≡ Some root_name) }
{
    Ok(Some(root_word(alloc)?))
}

/// The declaration that stands for the root of the grammar.
fn root_declaration(alloc: Global, grammar: &Grammar) -> Result<Decl, AllocError>
    ensures { IfOk result (λ r. r ≡ root_declaration Syntax grammar.now) }
{
    let name = root_word(alloc)?;
    let levels = root_levels(alloc, grammar)?;
    Ok(Decl {
        kind: DeclKind::Syntax,
        name,
        params: Params::new(alloc),
        levels,
    })
}

/// The one level of the declaration that stands for the root.
fn root_levels(alloc: Global, grammar: &Grammar) -> Result<Levels, AllocError>
    ensures { IfOk result (λ r. r ≡ (root_declaration Syntax grammar.now).levels) }
{
    let alts = root_alternatives(alloc, grammar)?;
    let mut levels = Levels::new(alloc);
    push_level(
        &mut levels,
        Level {
            assoc: Assoc::Free,
            alts,
        },
    )?;
    Ok(levels)
}

/// The one alternative of the declaration that stands for the root.
fn root_alternatives(alloc: Global, grammar: &Grammar) -> Result<Alts, AllocError>
    ensures { IfOk result (λ r. r ≡ record { symbols = root_symbols grammar.now } ∷ []) }
{
    let symbols = root_symbols(alloc, grammar)?;
    let mut alts = Alts::new(alloc);
    push_alternative(&mut alts, Alt { symbols })?;
    Ok(alts)
}

/// The name of the declaration that stands for the root.
fn root_word(alloc: Global) -> Result<Word, AllocError>
    ensures { IfOk result (λ w. w ≡ root_name) }
{
    Word::new(alloc, "$root")
}

/// The symbols of the root alternative of the grammar.
fn root_symbols(alloc: Global, grammar: &Grammar) -> Result<Symbols, AllocError>
    ensures { IfOk result (λ r. r ≡ root_symbols grammar.now) }
{
    let mut symbols = layout_call(alloc, grammar.decls.as_slice())?;
    if let Some(start) = &grammar.start {
        push_symbol(&mut symbols, call(alloc, start)?)?;
    }
    Ok(symbols)
}

/// The call of the layout nonterminal, where one is declared.
fn layout_call(alloc: Global, decls: &[Decl]) -> Result<Symbols, AllocError>
    ensures { IfOk result (λ r. r ≡ behind_layout (layout_among decls.now) []) }
{
    let mut symbols = Symbols::new(alloc);
    for decl in decls {
        if is_layout(decl.kind) {
            push_symbol(&mut symbols, call(alloc, &decl.name)?)?;
            return Ok(symbols);
        }
    }
    Ok(symbols)
}

/// Whether the declaration is of what may stand between tokens.
fn is_layout(kind: DeclKind) -> bool
    ensures { IsTrue result ↔ (kind ≡ Layout) }
{
    kind == DeclKind::Layout
}

/// A call of the nonterminal of this name, without arguments.
fn call(alloc: Global, name: &Word) -> Result<Symbol, AllocError>
    ensures { IfOk result (λ r. symbol_of r ≡ Call name.now []) }
{
    let name = name.copy(alloc)?;
    Ok(Symbol::Call(name, Exprs::new(alloc)))
}
