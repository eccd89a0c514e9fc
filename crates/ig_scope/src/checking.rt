ghost use Rattle.std.specs.Prelude.{◌≡◌, ◌+◌, ◌<◌, IfOk, IfErr};
ghost use Rattle.ig_text.specs.Limits.{numbers_end};
ghost use Rattle.ig_grammar.specs.Regular.{IsRegular};
ghost use Rattle.ig_grammar.specs.WellScoped.{IsWellScoped};
ghost use Rattle.ig_grammar.specs.Checked.{rules};
ghost use Rattle.ig_scope.specs.Heads.{is_layout};
ghost use Rattle.ig_scope.specs.AlternativePlaces.{HaveNumberedAlternatives, HaveNumberedSymbols};
ghost use Rattle.ig_scope.specs.Places.{AreNumbered};
ghost use Rattle.ig_scope.specs.Told.{TellsHead, TellsDeclarations, TellsFault, TellsGrammar};

use crate::alternatives::check_alternatives;
use crate::fault::ScopeFault;
use crate::head::Head;
use crate::heads::head_cause;
use crate::numbered::Numbered;
use crate::room::room_of;
use crate::starts::start_cause;
use ig_grammar::{Checked, DeclKind, Declarations, Grammar, Place, is_name};
use std::alloc::Global;

/// The grammar, where it is well scoped: that is, no condition of
/// [`ScopeCause`](crate::ScopeCause) holds at any place. Every declaration then has the shape
/// `Rule`.
///
/// `Broken` comes exactly where a condition holds somewhere. Its place is the first, by
/// declaration, then by alternative, then by symbol in preorder; its cause is the first of those
/// that hold there, in the order of `ScopeCause`. The declaration of a name is the first with
/// that name. A limit counts only names of the notation, and no name that a pass added. `Memory`
/// comes where memory is wanting. A grammar that is refused is dropped. The grammar is regular.
pub fn check(alloc: Global, grammar: Grammar) -> Result<Checked, ScopeFault>
    requires { IsRegular grammar }
    ensures grammar { IfOk result (λ checked. checked.grammar ≡ grammar) }
    ensures shapes { IfOk result (λ checked. checked.shapes ≡ rules grammar) }
    ensures scoped { IfOk result (λ _. IsWellScoped grammar) }
    ensures broken { IfErr result (TellsFault grammar) }
{
    check_grammar(alloc, &grammar)?;
    Ok(Checked::of(grammar))
}

/// The first fault of the grammar.
fn check_grammar(alloc: Global, grammar: &Grammar) -> Result<(), ScopeFault>
    requires { IsRegular grammar.now }
    ensures { TellsGrammar grammar.now result }
{
    let declarations = Declarations::new(alloc, grammar.decls.as_slice())?;
    check_declared(alloc, &declarations, grammar)
}

/// The first fault of the grammar of these declarations.
fn check_declared(
    alloc: Global,
    declarations: &Declarations,
    grammar: &Grammar,
) -> Result<(), ScopeFault>
    requires same { declarations.now ≡ grammar.now.decls }
    requires regular { IsRegular grammar.now }
    ensures { TellsGrammar grammar.now result }
{
    if let Some(cause) = start_cause(declarations, grammar) {
        let place = Place {
            decl: 0,
            alt: 0,
            symbol: 0,
        };
        return Err(ScopeFault::Broken { cause, place });
    }
    ig_grammar::counts_by_form();
    check_declarations(alloc, declarations)
}

/// The first fault of the declarations.
fn check_declarations(alloc: Global, declarations: &Declarations) -> Result<(), ScopeFault>
    requires { AreNumbered declarations.now }
    ensures { TellsDeclarations declarations.now result }
{
    let decls = declarations.as_slice();
    let mut named = 0;
    let mut has_layout = false;
    for (before, decl) in decls.iter().enumerate() {
        let head = Head {
            declarations,
            decl,
            before,
            named,
            has_layout,
        };
        check_declaration(alloc, &head)?;
        if is_name(&decl.name) {
            named += 1;
        }
        has_layout |= is_layout(decl.kind);
    }
    Ok(())
}

/// The first fault of the declaration, at its head or in an alternative.
fn check_declaration(alloc: Global, head: &Head) -> Result<(), ScopeFault>
    requires number { head.now.before + 1 < numbers_end }
    requires alternatives { HaveNumberedAlternatives head.now.decl.now }
    requires symbols { HaveNumberedSymbols head.now.decl.now }
    ensures { TellsHead head.now result }
{
    let number = head.before as u32 + 1;
    if let Some(cause) = head_cause(alloc, head)? {
        let place = Place {
            decl: number,
            alt: 0,
            symbol: 0,
        };
        return Err(ScopeFault::Broken { cause, place });
    }
    let numbered = Numbered {
        declarations: head.declarations,
        decl: head.decl,
        number,
        room: room_of(head.decl),
    };
    check_alternatives(alloc, &numbered)
}

/// Whether a declaration is a layout declaration.
fn is_layout(kind: DeclKind) -> bool
    ensures { result ≡ is_layout kind }
{
    match kind {
        DeclKind::Layout => true,
        DeclKind::Syntax => false,
        DeclKind::Lexical => false,
        DeclKind::Plain => false,
    }
}
