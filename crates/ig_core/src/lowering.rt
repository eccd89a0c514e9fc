//! The passes, one behind the other.
ghost use Rattle.std.specs.Prelude.{◌≡◌, IfOk};
ghost use Rattle.ig_pass.specs.Sound.{IsSound, IsFree, IsUnmarked};
ghost use Rattle.ig_lexical.specs.Layout.{LayoutOf};
ghost use Rattle.ig_lexical.specs.Filters.{FiltersOf};
ghost use Rattle.ig_core.specs.Lowered.{IsBuildable, IsNumbered, Lowered};

use crate::laws::passes_in_turn;
use ig_blocks::lower_blocks;
use ig_ebnf::lower_ebnf;
use ig_grammar::Checked;
use ig_levels::lower_levels;
use ig_lexical::{add_layout, attach_filters, layout_keeps};
use std::alloc::{AllocError, Global};

/// What the passes leave of a grammar: levels, blocks, layout, filters and lists, in this order.
/// Refused for want of memory alone, as where numbers don't tell all added names apart.
///
/// A call lets go of each grammar before `?`, where a proof would go through all forms of it.
pub(crate) fn lower(alloc: Global, checked: &Checked) -> Result<Checked, AllocError>
    requires { IsBuildable checked.now }
    ensures lowered { IfOk result (λ r. r ≡ Lowered checked.now) }
    ensures numbered { IfOk result (λ r. IsNumbered checked.now) }
{
    passes_in_turn();
    let level = lower_levels(alloc, checked)?;
    let made = lower_blocks(alloc, &level);
    drop(level);
    let unblocked = made?;
    let made = open_layout(alloc, &unblocked);
    drop(unblocked);
    let guarded = made?;
    let made = lower_ebnf(alloc, &guarded);
    drop(guarded);
    made
}

/// What the passes for layout and for filters leave of a grammar, in this order.
fn open_layout(alloc: Global, checked: &Checked) -> Result<Checked, AllocError>
    requires sound { IsSound checked.now }
    requires free { IsFree checked.now.grammar }
    requires unmarked { IsUnmarked checked.now.grammar }
    ensures { IfOk result (λ r. r ≡ FiltersOf (LayoutOf checked.now)) }
{
    layout_keeps();
    let laid_out = add_layout(alloc, checked)?;
    let made = attach_filters(alloc, &laid_out);
    drop(laid_out);
    made
}
