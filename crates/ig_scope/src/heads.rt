//! What holds at the head of a declaration.

ghost use Rattle.std.specs.Prelude.{◌≡◌, ◌<◌, ◌↔◌, [], IsTrue, IfOk, length};
ghost use Rattle.ig_scope.specs.Causes.{Tells};
ghost use Rattle.ig_scope.specs.Heads.{HasRepeated, HaveAssociativity};
ghost use Rattle.ig_scope.specs.AtHeads.{HeadHas, IsDeclared, IsUnplain, IsUnplainLayout};
ghost use Rattle.ig_scope.specs.AtHeads.{PassesLimit};

use crate::cause::{Many, ScopeCause};
use crate::head::Head;
use crate::names::count_named;
use ig_grammar::{Assoc, DeclKind, Level, Param, is_name};
use indexmap::IndexSet;
use std::alloc::{AllocError, Global};

/// The declarations that a grammar may have.
const MOST_NONTERMINALS: usize = 4096;

/// The parameters that a declaration may have.
const MOST_PARAMETERS: usize = 16;

/// The levels that a layout declaration may have.
const MOST_LEVELS: usize = 1;

/// Of the conditions that hold at the head the one of the least number; `None` exactly where none
/// holds there. Refused for want of memory alone.
pub fn head_cause(alloc: Global, head: &Head) -> Result<Option<ScopeCause>, AllocError>
    ensures { IfOk result (Tells (HeadHas head.now)) }
{
    if is_declared(head) {
        return Ok(Some(ScopeCause::DuplicateName));
    }
    if has_repeated(alloc, head.decl.params.as_slice())? {
        return Ok(Some(ScopeCause::DuplicateVariable));
    }
    if is_unplain_layout(head) {
        return Ok(Some(ScopeCause::LayoutNotPlain));
    }
    Ok(passed_limit(head))
}

/// Whether an earlier declaration has this name.
fn is_declared(head: &Head) -> bool
    ensures { IsTrue result ↔ IsDeclared head.now }
{
    match head.declarations.place_of(&head.decl.name) {
        Some(place) => place < head.before,
        None => false,
    }
}

/// Whether the declaration is a layout declaration that isn't plain.
fn is_unplain_layout(head: &Head) -> bool
    ensures { IsTrue result ↔ IsUnplainLayout head.now }
{
    match head.decl.kind {
        DeclKind::Layout => is_not_plain(head),
        DeclKind::Syntax => false,
        DeclKind::Lexical => false,
        DeclKind::Plain => false,
    }
}

/// Whether a layout declaration isn't plain: it has parameters, more than one level or an
/// associativity, or there is an earlier one.
fn is_not_plain(head: &Head) -> bool
    ensures { IsTrue result ↔ IsUnplain head.now }
{
    if head.has_layout {
        return true;
    }
    if !head.decl.params.as_slice().is_empty() {
        return true;
    }
    let levels = head.decl.levels.as_slice();
    if are_many(levels) {
        return true;
    }
    have_associativity(levels)
}

/// Whether there are more levels than a layout declaration may have.
fn are_many(levels: &[Level]) -> bool
    ensures { IsTrue result ↔ (MOST_LEVELS < length levels.now) }
{
    levels.len() > MOST_LEVELS
}

/// Whether some level has an associativity.
fn have_associativity(levels: &[Level]) -> bool
    ensures { IsTrue result ↔ HaveAssociativity levels.now }
{
    for level in levels {
        if level.assoc != Assoc::Free {
            return true;
        }
    }
    false
}

/// The limit that is passed at the head of a declaration.
fn passed_limit(head: &Head) -> Option<ScopeCause>
    ensures { Tells (PassesLimit head.now) result }
{
    if !is_name(&head.decl.name) {
        return None;
    }
    if head.named == MOST_NONTERMINALS {
        return Some(ScopeCause::TooMany {
            which: Many::Nonterminals,
        });
    }
    if count_named(head.decl.params.as_slice()) > MOST_PARAMETERS {
        return Some(ScopeCause::TooMany {
            which: Many::Parameters,
        });
    }
    None
}

/// Whether a parameter has the name of an earlier one.
fn has_repeated(alloc: Global, params: &[Param]) -> Result<bool, AllocError>
    ensures { IfOk result (λ b. IsTrue b ↔ HasRepeated params.now) }
{
    let mut names = IndexSet::with_capacity(alloc, params.len())?;
    repeats(&mut names, params)
}

/// Whether a parameter has the name of an earlier one, where no name was collected yet.
fn repeats<'a>(names: &mut IndexSet<&'a [char]>, params: &'a [Param]) -> Result<bool, AllocError>
    requires { names.old.keys ≡ [] }
    ensures { IfOk result (λ b. IsTrue b ↔ HasRepeated params.now) }
{
    for param in params {
        if !names.insert(param.name.as_chars())? {
            return Ok(true);
        }
    }
    Ok(false)
}
