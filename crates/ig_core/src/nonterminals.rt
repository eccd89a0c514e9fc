//! The nonterminals of declarations.
ghost use Rattle.std.specs.Prelude.{◌≡◌, ◌+◌, ◌≤◌, ◌++◌, length, map, IfOk, OnOk, Contains, suc};
ghost use Rattle.ig_grammar.specs.Numbering.{alternatives, tag_of, tag_among};
ghost use Rattle.ig_grammar.specs.declared.declaration.Decl.{Decl};
ghost use Rattle.ig_grammar.specs.declared.place.Shape.TheVariants.{Rule};
ghost use Rattle.ig_item.specs.Limits.{most_dots};
ghost use Rattle.ig_core.specs.CoreOf.{alternatives_of, nonterminal_of, nonterminals_of};
ghost use Rattle.ig_core.specs.CoreOf.{shaped, unrooted};
ghost use Rattle.ig_core.specs.Limits.{most_declarations};
ghost use Rattle.ig_core.specs.Tables.{number_by};

use crate::roots::is_root;
use crate::steps::build_steps;
use ig_expr::Kinds;
use ig_grammar::{Alt, Checked, Decl, Level, Param, Shape};
use ig_item::{CoreAlt, CoreAlts, Nonterminal};
use ig_text::{Copied, Sequence, Tag, Words};
use std::alloc::{AllocError, Global};
use std::collections::BTreeMap;

/// The names of parameters.
fn names_of(alloc: Global, params: &[Param]) -> Result<Words, AllocError>
    ensures { IfOk result (λ r. r ≡ map (λ p. p.name) params.now) }
{
    let mut names = Vec::new(alloc);
    for param in params {
        names.push(param.name.copy(alloc)?)?;
    }
    Ok(Sequence::from_vec(names))
}

/// The kinds of parameters.
fn kinds_of(alloc: Global, params: &[Param]) -> Result<Kinds, AllocError>
    ensures { IfOk result (λ r. r ≡ map (λ p. p.kind) params.now) }
{
    let mut kinds = Vec::new(alloc);
    for param in params {
        kinds.push(param.kind)?;
    }
    Ok(Sequence::from_vec(kinds))
}

/// The first tag for the first alternative, and the second one for the others.
fn tag_among(first: Tag, second: Tag, alternative: u32) -> Tag
    ensures { result ≡ tag_among first second alternative }
{
    if alternative == 1 { first } else { second }
}

/// The tag of an alternative of a rule.
fn rule_tag(nonterminal: u32, alternative: u32) -> Tag
    ensures { result ≡ tag_of Rule nonterminal alternative }
{
    Tag::Rule {
        nonterminal,
        alternative,
    }
}

/// The tag of an alternative of a nonterminal of this shape.
fn tag_of(shape: Shape, nonterminal: u32, alternative: u32) -> Tag
    ensures { result ≡ tag_of shape nonterminal alternative }
{
    match shape {
        Shape::Rule => rule_tag(nonterminal, alternative),
        Shape::Opt => tag_among(Tag::Absent, Tag::Present, alternative),
        Shape::Star => tag_among(Tag::Nil, Tag::Snoc, alternative),
        Shape::Plus => tag_among(Tag::One, Tag::More, alternative),
        Shape::SepPlus => tag_among(Tag::One, Tag::More, alternative),
        Shape::SepStar => tag_among(Tag::Absent, Tag::Present, alternative),
        Shape::Group => Tag::GroupAlt {
            number: alternative,
        },
        Shape::Root => Tag::Root,
    }
}

/// Adds the alternatives behind those that are built. Each has the number of its place.
fn add_alternatives(
    alloc: Global,
    numbers: &BTreeMap<&str, u32>,
    missing: u32,
    shape: Shape,
    number: u32,
    alts: &[Alt],
    built: &mut Vec<CoreAlt>,
) -> Result<(), AllocError>
    requires few { length built.old.items + length alts.now ≤ most_dots }
    ensures { OnOk result (built.new.items ≡ built.old.items ++
        alternatives_of (number_by numbers.now missing) shape number
        (suc (length built.old.items)) alts.now) }
{
    for alt in alts {
        let steps = build_steps(alloc, numbers, missing, alt.symbols.as_slice())?;
        let tag = tag_of(shape, number, built.len() as u32 + 1);
        built.push(CoreAlt { tag, steps })?;
    }
    Ok(())
}

/// The alternatives of all levels.
fn build_levels(
    alloc: Global,
    numbers: &BTreeMap<&str, u32>,
    missing: u32,
    shape: Shape,
    number: u32,
    levels: &[Level],
) -> Result<CoreAlts, AllocError>
    requires few { length (alternatives levels.now) ≤ most_dots }
    ensures { IfOk result (λ a. a ≡
        alternatives_of (number_by numbers.now missing) shape number 1 (alternatives levels.now)) }
{
    let mut built = Vec::new(alloc);
    for level in levels {
        add_alternatives(
            alloc,
            numbers,
            missing,
            shape,
            number,
            level.alts.as_slice(),
            &mut built,
        )?;
    }
    Ok(Sequence::from_vec(built))
}

/// The nonterminal of a declaration that has this number and this shape.
pub(crate) fn build_nonterminal(
    alloc: Global,
    numbers: &BTreeMap<&str, u32>,
    missing: u32,
    shape: Shape,
    number: u32,
    decl: &Decl,
) -> Result<Nonterminal, AllocError>
    requires few { length (alternatives decl.now.levels) ≤ most_dots }
    ensures { IfOk result (λ n. n ≡
        nonterminal_of (number_by numbers.now missing) number (shaped decl.now shape)) }
{
    let alternatives = build_levels(
        alloc,
        numbers,
        missing,
        shape,
        number,
        decl.levels.as_slice(),
    )?;
    let params = names_of(alloc, decl.params.as_slice())?;
    let kinds = kinds_of(alloc, decl.params.as_slice())?;
    let name = decl.name.copy(alloc)?;
    Ok(Nonterminal {
        name,
        params,
        kinds,
        alternatives,
    })
}

/// Adds the nonterminals of the declarations that don't stand for the root. A name that the table
/// lacks has the number `missing`. Refused for want of memory alone.
pub fn add_nonterminals(
    alloc: Global,
    numbers: &BTreeMap<&str, u32>,
    missing: u32,
    decls: &[Decl],
    checked: &Checked,
    built: &mut Vec<Nonterminal>,
) -> Result<(), AllocError>
    requires beside { length checked.now.shapes ≡ length decls.now }
    requires few { length built.old.items + length decls.now ≤ most_declarations }
    requires few_alternatives { (decl : Decl) → Contains decls.now decl →
        length (alternatives decl.levels) ≤ most_dots }
    ensures { OnOk result (built.new.items ≡ built.old.items ++
        nonterminals_of (number_by numbers.now missing) (length built.old.items)
        (unrooted decls.now checked.now.shapes)) }
{
    for (index, decl) in decls.iter().enumerate() {
        let shape = checked.shape_behind(index);
        if !is_root(shape) {
            let number = built.len() as u32;
            let nonterminal = build_nonterminal(alloc, numbers, missing, shape, number, decl)?;
            built.push(nonterminal)?;
        }
    }
    Ok(())
}
