//! What the pass makes of declarations and grammars.
ghost use Rattle.std.specs.Prelude.{◌≡◌, [], ◌∷◌, ◌++◌, length, map, IfOk, OnOk};
ghost use Rattle.ig_pass.specs.Added.{margin_name, first_name, column_name};
ghost use Rattle.ig_pass.specs.Rooted.{is_root};
ghost use Rattle.ig_pass.specs.Sound.{IsSound, IsFree};
ghost use Rattle.ig_pass.specs.Unbound.{IsUnbound};
ghost use Rattle.ig_blocks_parts.specs.Setting.{extra_by, pair_by};
ghost use Rattle.ig_blocks_parts.specs.Blocks.{alternative_by, level_by, int_param, BlocksOf};
ghost use Rattle.ig_blocks_parts.specs.Blocks.{lowered_declaration, lowered_declarations};
ghost use Rattle.ig_blocks_parts.specs.Blocks.{lowered_grammar};
ghost use Rattle.ig_blocks_parts.specs.Laws.{PlainIsUnmarked};
ghost use Rattle.ig_blocks_parts.specs.ColumnCode.{setting_by};
ghost use Rattle.ig_blocks.specs.Code.{has_pair};

use crate::symbols::choices;
use ig_blocks_parts::{Guide, Pair, blocks_keep, guide_of, is_paired, is_root};
use ig_grammar::{
    Alts, Checked, Decl, DeclKind, Decls, Grammar, Level, Levels, Params, Shape, Shapes,
};
use ig_pass::{copy_of_shapes, copy_of_start, push_declaration, push_integer, push_level, root};
use ig_text::{Copied, Word};
use std::alloc::{AllocError, Global};

/// The grammar without `offside`, `ignore` and `align`, exactly as `ig_blocks_parts` says;
/// `$root` is its last declaration where none stood for the root. Refused for want of memory alone.
/// No declaration of the grammar has operators, nothing in it has the names of the pair or of the
/// column, and where some declaration is plain it has no mark.
pub fn lower_blocks(alloc: Global, checked: &Checked) -> Result<Checked, AllocError>
    requires sound { IsSound checked.now }
    requires free { IsFree checked.now.grammar }
    requires margin { IsUnbound checked.now.grammar margin_name }
    requires first { IsUnbound checked.now.grammar first_name }
    requires column { IsUnbound checked.now.grammar column_name }
    requires plain { PlainIsUnmarked checked.now.grammar }
    ensures { IfOk result (λ r. r ≡ BlocksOf checked.now) }
{
    blocks_keep();
    let rooted = root(alloc, checked)?;
    let lowered = lower_rooted(alloc, &rooted);
    drop(rooted);
    let (grammar, shapes) = lowered?;
    Ok(Checked::with_shapes(grammar, shapes))
}

/// The grammar, in which a declaration may stand for the root, without marks, and its shapes.
fn lower_rooted(alloc: Global, checked: &Checked) -> Result<(Grammar, Shapes), AllocError>
    ensures { IfOk result (λ r.
        r ≡ (lowered_grammar checked.now.grammar checked.now.shapes, checked.now.shapes)) }
{
    let shapes = copy_of_shapes(alloc, checked)?;
    Ok((lower_grammar(alloc, checked)?, shapes))
}

/// The grammar, in which a declaration may stand for the root, without marks.
fn lower_grammar(alloc: Global, checked: &Checked) -> Result<Grammar, AllocError>
    ensures { IfOk result (λ r. r ≡ lowered_grammar checked.now.grammar checked.now.shapes) }
{
    let grammar = checked.grammar();
    let guide = guide_of(alloc, grammar.decls.as_slice(), checked)?;
    let decls = lower_declarations(alloc, &guide, grammar.decls.as_slice(), checked);
    drop(guide);
    with_start(alloc, grammar, decls?)
}

/// The declarations, with the start and the width of tabs of the grammar.
fn with_start(alloc: Global, grammar: &Grammar, decls: Decls) -> Result<Grammar, AllocError>
    ensures { IfOk result (λ r. r ≡ record {
      start = grammar.now.start;
      tabs = grammar.now.tabs;
      decls = decls;
    }) }
{
    match copy_of_start(alloc, &grammar.start) {
        Ok(start) => Ok(Grammar {
            start,
            tabs: grammar.tabs,
            decls,
        }),
        Err(refused) => {
            drop(decls);
            Err(refused)
        }
    }
}

/// The declarations, without marks.
fn lower_declarations(
    alloc: Global,
    guide: &Guide<'_>,
    decls: &[Decl],
    checked: &Checked,
) -> Result<Decls, AllocError>
    requires beside { length checked.now.shapes ≡ length decls.now }
    ensures { IfOk result (λ r. r ≡
        lowered_declarations (setting_by guide.now) checked.now.shapes decls.now) }
{
    let mut all = Decls::new(alloc);
    for (index, decl) in decls.iter().enumerate() {
        let shape = checked.shape_behind(index);
        push_declaration(&mut all, lower_declaration(alloc, guide, shape, decl)?)?;
    }
    Ok(all)
}

/// A declaration of the shape, without marks.
fn lower_declaration(
    alloc: Global,
    guide: &Guide<'_>,
    shape: Shape,
    decl: &Decl,
) -> Result<Decl, AllocError>
    ensures { IfOk result (λ r. r ≡ lowered_declaration (setting_by guide.now) shape decl.now) }
{
    let paired = has_pair(guide, shape, decl.kind);
    let name = decl.name.copy(alloc)?;
    let params = parameters_of(alloc, guide, paired, decl)?;
    let levels = lower_levels(alloc, guide, paired, &decl.levels)?;
    Ok(Decl {
        kind: decl.kind,
        name,
        params,
        levels,
    })
}

/// Whether a declaration of the shape and the kind gets the pair.
fn has_pair(guide: &Guide<'_>, shape: Shape, kind: DeclKind) -> bool
    ensures { result ≡ has_pair (setting_by guide.now) shape kind }
{
    !is_root(shape) && is_paired(guide, kind)
}

/// The parameters of a declaration, with those of the pair where it gets it.
fn parameters_of(
    alloc: Global,
    guide: &Guide<'_>,
    paired: bool,
    decl: &Decl,
) -> Result<Params, AllocError>
    ensures { IfOk result (λ r. r ≡ decl.now.params ++
        extra_by paired (int_param guide.now.margin) (int_param guide.now.first)) }
{
    let mut params = decl.params.copy(alloc)?;
    if paired {
        push_names(alloc, guide, &mut params)?;
    }
    Ok(params)
}

/// Adds the parameters of the pair.
fn push_names(alloc: Global, guide: &Guide<'_>, params: &mut Params) -> Result<(), AllocError>
    ensures { OnOk result (params.new ≡ params.old ++
        int_param guide.now.margin ∷ int_param guide.now.first ∷ []) }
{
    push_integer(params, guide.margin.copy(alloc)?)?;
    push_integer(params, guide.first.copy(alloc)?)
}

/// The levels of a declaration with the pair or without one, without marks.
fn lower_levels(
    alloc: Global,
    guide: &Guide<'_>,
    paired: bool,
    levels: &Levels,
) -> Result<Levels, AllocError>
    ensures { IfOk result (λ r. r ≡
        map (level_by (setting_by guide.now) (pair_by paired)) levels.now) }
{
    let mut all = Levels::new(alloc);
    for level in levels.as_slice() {
        let alts = lower_alternatives(alloc, guide, paired, &level.alts)?;
        push_level(
            &mut all,
            Level {
                assoc: level.assoc,
                alts,
            },
        )?;
    }
    Ok(all)
}

/// The alternatives of a declaration with the pair or without one, without marks.
fn lower_alternatives(
    alloc: Global,
    guide: &Guide<'_>,
    paired: bool,
    alternatives: &Alts,
) -> Result<Alts, AllocError>
    ensures { IfOk result (λ r. r ≡
        map (alternative_by (setting_by guide.now) (pair_by paired)) alternatives.now) }
{
    if paired {
        choices(alternatives, alloc, guide, &Pair::Carried)
    } else {
        choices(alternatives, alloc, guide, &Pair::Lacking)
    }
}
