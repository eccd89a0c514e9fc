//! The alternatives of a declaration, up to the first fault.

ghost use Rattle.std.specs.Prelude.{◌≡◌, ◌+◌, ◌<◌, ◌↔◌, IsTrue, OnOk, Contains, length};
ghost use Rattle.ig_text.specs.Limits.{numbers_end};
ghost use Rattle.ig_grammar.specs.declared.symbol.Alt.{Alt};
ghost use Rattle.ig_grammar.specs.Visible.{parameters};
ghost use Rattle.ig_grammar.specs.Numbering.{alternatives};
ghost use Rattle.ig_scope.specs.Binders.{HasTooMany};
ghost use Rattle.ig_scope.specs.AlternativesTold.{TellsAlternative, TellsLevel, TellsAlternatives};

use crate::binders::leave_sequence;
use crate::cause::{Many, ScopeCause};
use crate::fault::ScopeFault;
use crate::numbered::Numbered;
use crate::places::Surroundings;
use crate::walk::walk_sequence;
use ig_grammar::{Alt, Place, Variables};
use std::alloc::Global;

/// The first fault in the alternatives of the declaration: `Ok` where no condition holds in any of
/// them.
///
/// `Broken` comes exactly where a condition holds somewhere. Its place has the number of the
/// declaration, and is the first, by alternative, then by symbol in preorder, the alternative
/// itself before its symbols; its cause is the first of those that hold there, in the order of
/// `ScopeCause`. `Memory` comes where memory is wanting.
pub fn check_alternatives(alloc: Global, numbered: &Numbered) -> Result<(), ScopeFault>
    ensures { TellsAlternatives numbered.now result }
{
    let mut variables = Variables::of(alloc, numbered.decl.params.as_slice())?;
    check_levels(alloc, numbered, &mut variables)
}

/// The levels of the declaration, one after the other.
fn check_levels(
    alloc: Global,
    numbered: &Numbered,
    variables: &mut Variables,
) -> Result<(), ScopeFault>
    requires { variables.old ≡ parameters numbered.now.decl.now.params }
    ensures { TellsAlternatives numbered.now result }
{
    let mut before = 0;
    for level in numbered.decl.levels.as_slice() {
        before = check_level(alloc, numbered, variables, before, level.alts.as_slice())?;
    }
    Ok(())
}

/// The alternatives of a level, of which so many stand before it.
fn check_level(
    alloc: Global,
    numbered: &Numbered,
    variables: &mut Variables,
    before: u32,
    alts: &[Alt],
) -> Result<u32, ScopeFault>
    requires visible { variables.old ≡ parameters numbered.now.decl.now.params }
    requires numbers { before + length alts.now < numbers_end }
    requires among { (a : Alt) → Contains alts.now a
        → Contains (alternatives numbered.now.decl.now.levels) a }
    ensures told { TellsLevel numbered.now before alts.now result }
    ensures kept { OnOk result (variables.new ≡ variables.old) }
{
    let mut next = before;
    for alternative in alts {
        next += 1;
        check_alternative(alloc, numbered, variables, next, alternative)?;
    }
    Ok(next)
}

/// The alternative of this number, as a whole and then its symbols.
fn check_alternative(
    alloc: Global,
    numbered: &Numbered,
    variables: &mut Variables,
    alt: u32,
    alternative: &Alt,
) -> Result<(), ScopeFault>
    requires visible { variables.old ≡ parameters numbered.now.decl.now.params }
    requires among { Contains (alternatives numbered.now.decl.now.levels) alternative.now }
    ensures told { TellsAlternative numbered.now alt alternative.now result }
    ensures kept { OnOk result (variables.new ≡ variables.old) }
{
    if is_passed(numbered, alternative) {
        let cause = ScopeCause::TooMany {
            which: Many::Variables,
        };
        let place = Place {
            decl: numbered.number,
            alt,
            symbol: 0,
        };
        return Err(ScopeFault::Broken { cause, place });
    }
    let around = Surroundings {
        declarations: numbered.declarations,
        kind: numbered.decl.kind,
        decl: numbered.number,
        alt,
    };
    let visible = variables.len();
    walk_sequence(alloc, &around, variables, 0, &alternative.symbols)?;
    variables.truncate(visible);
    Ok(())
}

/// Whether the alternative has too many variables.
fn is_passed(numbered: &Numbered, alternative: &Alt) -> bool
    ensures { IsTrue result ↔ HasTooMany numbered.now.decl.now alternative.now }
{
    match numbered.room {
        Some(room) => leave_sequence(room, &alternative.symbols).is_none(),
        None => false,
    }
}
