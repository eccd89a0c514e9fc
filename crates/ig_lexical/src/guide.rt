//! What the pass goes by: the declarations, found by their names, and the layout among them.
ghost use Rattle.std.specs.Prelude.{◌≡◌, ◌↔◌, IfOk, IsTrue, MatchOption, None, Some};
ghost use Rattle.ig_grammar.specs.Condition.{declaration_of};
ghost use Rattle.ig_grammar.specs.Numbering.{layout_among};
ghost use Rattle.ig_grammar.specs.declared.declaration.DeclKind.TheVariants.{Layout};
ghost use Rattle.ig_lexical.specs.Layout.{declares_lexical, is_lexical};

use ig_grammar::{Decl, DeclKind, Declarations};
use ig_text::Word;
use std::alloc::{AllocError, Global};
use std::marker::Model;

/// The declarations of a grammar, found by their names, with the layout among them.
#[derive(Drop)]
pub(crate) struct Guide<'a> {
    declarations: Declarations<'a>,
    /// The name of the first layout declaration.
    layout: Option<&'a Word>,
}

impl<'a> Model for Guide<'a> {
    ghost use Rattle.std.specs.Prelude.{◌≡◌, List, MatchOption, None, Some};
    ghost use Rattle.ig_grammar.specs.Numbering.{layout_among};
    ghost use Rattle.ig_grammar.specs.declared.declaration.Decl.{Decl};

    ghost Value = { List Decl };

    ghost use Rattle.std.specs.Coded.{coded_list};
    ghost use Rattle.ig_grammar.specs.contracts.declaration.Decl as decl;

    ghost coded = { coded_list decl.the_row.coded };

    ghost view = { λ g. g.declarations };

    ghost invariant = { λ g. MatchOption g.layout (layout_among g.declarations ≡ None)
        (λ w. layout_among g.declarations ≡ Some w.now) };
}

impl<'a> Guide<'a> {
    /// What the pass goes by among these declarations. Refused for want of memory alone.
    pub(crate) fn new(alloc: Global, decls: &'a [Decl]) -> Result<Guide<'a>, AllocError>
        ensures { IfOk result (λ g. g ≡ decls.now) }
    {
        let declarations = Declarations::new(alloc, decls)?;
        let layout = layout_among(decls);
        Ok(Guide {
            declarations,
            layout,
        })
    }

    /// The name of the layout nonterminal, where one is declared.
    pub(crate) fn layout(&self) -> Option<&'a Word>
        ensures { MatchOption result (layout_among self.now ≡ None)
            (λ w. layout_among self.now ≡ Some w.now) }
    {
        self.layout
    }

    /// Whether the declaration of the name is lexical.
    pub(crate) fn has_lexical(&self, name: &Word) -> bool
        ensures { result ≡ declares_lexical (declaration_of self.now name.now) }
    {
        match self.declarations.find(name) {
            Some(decl) => is_lexical(decl.kind),
            None => false,
        }
    }
}

/// The name of the first layout declaration.
fn layout_among(decls: &[Decl]) -> Option<&Word>
    ensures { MatchOption result (layout_among decls.now ≡ None)
        (λ w. layout_among decls.now ≡ Some w.now) }
{
    for decl in decls {
        if is_layout(decl.kind) {
            return Some(&decl.name);
        }
    }
    None
}

/// Whether the declaration is of what may stand between tokens.
fn is_layout(kind: DeclKind) -> bool
    ensures { IsTrue result ↔ (kind ≡ Layout) }
{
    kind == DeclKind::Layout
}

/// Whether the declaration is of a token.
fn is_lexical(kind: DeclKind) -> bool
    ensures { result ≡ is_lexical kind }
{
    match kind {
        DeclKind::Lexical => true,
        DeclKind::Syntax => false,
        DeclKind::Layout => false,
        DeclKind::Plain => false,
    }
}
