//! Which nonterminals have each fact, as a list of marks for each.
ghost use Rattle.std.specs.Prelude.{length, ◌<◌, IfOk};
ghost use Rattle.ig_analyse.specs.Facts.{IsCircular, IsLeftRecursive, IsNullable, IsReached};
ghost use Rattle.ig_analyse.specs.Marks.{MarkExactly, MarkFacts};

use crate::cycles::on_cycles;
use crate::edges::{Leading, rows_of};
use crate::rounds::made;
use crate::walk::found_from;
use ig_item::Core;
use std::alloc::{AllocError, Global};

/// Marks of the nonterminals with each fact.
#[derive(Drop)]
pub struct Marks {
    pub nullable: Vec<bool>,
    pub productive: Vec<bool>,
    pub reachable: Vec<bool>,
    pub left_recursive: Vec<bool>,
    pub cyclic: Vec<bool>,
}

/// Marks the nonterminals with each fact. Refused for want of memory.
pub fn marks_of(alloc: Global, core: &Core) -> Result<Marks, AllocError>
    ensures { IfOk result (MarkFacts core.now) }
{
    let nullable = made(alloc, core, true)?;
    let productive = made(alloc, core, false)?;
    let reachable = reached(alloc, core)?;
    let left_recursive = left_recursive(alloc, core, &nullable)?;
    let cyclic = circular(alloc, core, &nullable)?;
    Ok(Marks {
        nullable,
        productive,
        reachable,
        left_recursive,
        cyclic,
    })
}

/// Marks the root, and whom a reachable nonterminal calls.
fn reached(alloc: Global, core: &Core) -> Result<Vec<bool>, AllocError>
    ensures { IfOk result (λ marks. MarkExactly core.now (IsReached core.now) marks.items) }
{
    let _well_kinded = core.nonterminals();
    let rows = rows_of(alloc, core, Leading::Any, &[])?;
    let marks = found_from(alloc, rows.as_slice(), &[0])?;
    Ok(marks)
}

/// Marks the nonterminals that lead back to themselves, with nothing but what can be empty before
/// the calls.
fn left_recursive(alloc: Global, core: &Core, nullable: &[bool]) -> Result<Vec<bool>, AllocError>
    requires { MarkExactly core.now (IsNullable core.now) nullable.now }
    ensures { IfOk result (λ marks. MarkExactly core.now (IsLeftRecursive core.now) marks.items) }
{
    let _well_kinded = core.nonterminals();
    let rows = rows_of(alloc, core, Leading::Left, nullable)?;
    let marks = on_cycles(alloc, rows.as_slice())?;
    Ok(marks)
}

/// Marks the nonterminals that lead back to themselves, with nothing but what can be empty beside
/// the calls.
fn circular(alloc: Global, core: &Core, nullable: &[bool]) -> Result<Vec<bool>, AllocError>
    requires { MarkExactly core.now (IsNullable core.now) nullable.now }
    ensures { IfOk result (λ marks. MarkExactly core.now (IsCircular core.now) marks.items) }
{
    let _well_kinded = core.nonterminals();
    let rows = rows_of(alloc, core, Leading::Alone, nullable)?;
    let marks = on_cycles(alloc, rows.as_slice())?;
    Ok(marks)
}
