//! The whole pass.
ghost use Rattle.std.specs.Prelude.{◌≡◌, ◌<◌, None, Contains, map, IfOk, OnOk};
ghost use Rattle.ig_grammar.specs.Numbering.{layout_among};
ghost use Rattle.ig_grammar.specs.Visible.{parameters};
ghost use Rattle.ig_grammar.specs.declared.declaration.Decl as declared;
ghost use Rattle.ig_pass.specs.Added.{numbers_bound};
ghost use Rattle.ig_pass.specs.Sound.{IsSound, IsFree, IsUnmarked, HasExclusionsAlone};
ghost use Rattle.ig_ebnf_variables.specs.Lists.{new_levels, new_declaration, added_by, all_added};
ghost use Rattle.ig_ebnf_variables.specs.Lists.{count_levels, HasFewLists, ListsOf};
ghost use Rattle.ig_ebnf_variables.specs.Lists.{lowered_grammar, lowered};
ghost use Rattle.ig_ebnf.specs.Made.{Grows};

use crate::growing::add_alternatives;
use crate::made::Lowered;
use crate::placing::new_alternatives;
use ig_ebnf_variables::{count_alternatives, lowering_keeps, sum};
use ig_grammar::{Checked, Decl, Decls, Grammar, Level, Levels, Variables};
use ig_pass::{copy_of_shapes, copy_of_start, has_root, push_declaration, push_level, root};
use ig_text::Copied;
use std::alloc::{AllocError, Global};

/// The levels of the declaration, with what stands for their symbols.
fn new_levels(alloc: Global, decl: &Decl) -> Result<Levels, AllocError>
    ensures levels { IfOk result (λ r.
        r ≡ new_levels decl.now.name (parameters decl.now.params) 1 decl.now.levels) }
    ensures few { OnOk result (count_levels decl.now.levels < numbers_bound) }
{
    let variables = Variables::of(alloc, decl.params.as_slice())?;
    let mut all = Levels::new(alloc);
    let mut next = 1;
    for level in decl.levels.as_slice() {
        let alts = new_alternatives(alloc, &decl.name, &variables, next, &level.alts)?;
        let assoc = level.assoc;
        push_level(&mut all, Level { assoc, alts })?;
        next = sum(next, count_alternatives(&level.alts)?)?;
    }
    Ok(all)
}

/// The declaration, with what stands for its symbols.
fn new_declaration(alloc: Global, decl: &Decl) -> Result<Decl, AllocError>
    ensures same { IfOk result (λ r. r ≡ new_declaration decl.now) }
    ensures few { OnOk result (count_levels decl.now.levels < numbers_bound) }
{
    let name = decl.name.copy(alloc)?;
    let params = decl.params.copy(alloc)?;
    let levels = new_levels(alloc, decl)?;
    Ok(Decl {
        kind: decl.kind,
        name,
        params,
        levels,
    })
}

/// The declarations, with what stands for their symbols.
fn new_declarations(alloc: Global, decls: &[Decl]) -> Result<Decls, AllocError>
    ensures same { IfOk result (λ r. r ≡ map new_declaration decls.now) }
    ensures few { OnOk result ((decl : declared.Decl) → Contains decls.now decl
        → count_levels decl.levels < numbers_bound) }
{
    let mut all = Decls::new(alloc);
    for decl in decls {
        push_declaration(&mut all, new_declaration(alloc, decl)?)?;
    }
    Ok(all)
}

/// Adds the declarations that are added for the declaration.
fn add_levels(alloc: Global, decl: &Decl, all: &mut Lowered) -> Result<(), AllocError>
    ensures { OnOk result (Grows all.old all.new (added_by decl.now)) }
{
    let variables = Variables::of(alloc, decl.params.as_slice())?;
    let mut next = 1;
    for level in decl.levels.as_slice() {
        add_alternatives(alloc, &decl.name, &variables, next, &level.alts, all)?;
        next = sum(next, count_alternatives(&level.alts)?)?;
    }
    Ok(())
}

/// Adds the declarations that are added for the declarations.
fn add_declarations(alloc: Global, decls: &[Decl], all: &mut Lowered) -> Result<(), AllocError>
    ensures { OnOk result (Grows all.old all.new (all_added decls.now)) }
{
    for decl in decls {
        add_levels(alloc, decl, all)?;
    }
    Ok(())
}

/// The declarations of the grammar, with what stands for their symbols, and behind them those that
/// are added; with a shape for each.
fn lowered_declarations(alloc: Global, checked: &Checked) -> Result<Lowered, AllocError>
    ensures decls { IfOk result (λ r. r.decls ≡ (lowered_grammar checked.now.grammar).decls) }
    ensures shapes { IfOk result (λ r. r.shapes ≡ (lowered checked.now).shapes) }
    ensures few { OnOk result (HasFewLists checked.now.grammar) }
{
    let source = checked.grammar();
    let decls = new_declarations(alloc, source.decls.as_slice())?;
    let shapes = copy_of_shapes(alloc, checked)?;
    let mut all = Lowered { decls, shapes };
    add_declarations(alloc, source.decls.as_slice(), &mut all)?;
    Ok(all)
}

/// The grammar, before a declaration stands for the root.
fn lowered(alloc: Global, checked: &Checked) -> Result<Checked, AllocError>
    requires sound { IsSound checked.now }
    requires free { IsFree checked.now.grammar }
    requires unmarked { IsUnmarked checked.now.grammar }
    requires no_layout { layout_among checked.now.grammar.decls ≡ None }
    requires excluding { HasExclusionsAlone checked.now.grammar }
    ensures same { IfOk result (λ r. r ≡ lowered checked.now) }
    ensures few { OnOk result (HasFewLists checked.now.grammar) }
{
    lowering_keeps();
    let all = lowered_declarations(alloc, checked)?;
    let source = checked.grammar();
    let start = copy_of_start(alloc, &source.start)?;
    let grammar = Grammar {
        start,
        tabs: source.tabs,
        decls: all.decls,
    };
    Ok(Checked::with_shapes(grammar, all.shapes))
}

/// The grammar with a call in place of each list, option and group, and with the declarations that
/// are added for these, exactly as `ig_ebnf_variables` says; `$root` is its last declaration where
/// none stood for the root. Refused for want of memory alone: that is said of a declaration, too,
/// for which more are added than numbers of 64 bits from 1 tell apart. The grammar is sound, as
/// passes leave it: no layout is declared, no declaration has operators, no mark is left, and of
/// filters only exclusions are.
pub fn lower_ebnf(alloc: Global, checked: &Checked) -> Result<Checked, AllocError>
    requires sound { IsSound checked.now }
    requires free { IsFree checked.now.grammar }
    requires unmarked { IsUnmarked checked.now.grammar }
    requires no_layout { layout_among checked.now.grammar.decls ≡ None }
    requires excluding { HasExclusionsAlone checked.now.grammar }
    ensures lists { IfOk result (λ r. r ≡ ListsOf checked.now) }
    ensures few { IfOk result (λ r. HasFewLists checked.now.grammar) }
{
    lowering_keeps();
    let all = lowered(alloc, checked)?;
    if has_root(&all) {
        return Ok(all);
    }
    root(alloc, &all)
}
