//! The declaration that is added for a list, an option or a group.
ghost use Rattle.std.specs.Prelude.{◌≡◌, suc, [], ◌∷◌, map, IfOk, OnOk};
ghost use Rattle.ig_grammar.specs.View.{symbol_of};
ghost use Rattle.ig_grammar.specs.Visible.{parameters};
ghost use Rattle.ig_pass.specs.Added.{added_name};
ghost use Rattle.ig_pass.specs.Needs.{needs};
ghost use Rattle.ig_ebnf_variables.specs.Lists.{made, params_for, arguments, new_alts};
ghost use Rattle.ig_ebnf.specs.Made.{Grows, option_made, star_made, plus_made};
ghost use Rattle.ig_ebnf.specs.Made.{sep_star_made, sep_plus_made};
ghost use Rattle.ig_grammar.specs.Symbol.{Call};
ghost use Rattle.ig_grammar.specs.declared.place.Shape.TheVariants as shape;

use crate::placing::{new_alternatives, new_part, push_copies, push_new};
use ig_ebnf_variables::{added_name, call, count, groups_are_gathered, params_for, successor, sum};
use ig_grammar::{
    Alt, Alts, Assoc, Decl, DeclKind, Decls, Inner, Lets, Level, Levels, Params, Shape, Shapes,
    Symbol, Symbols, Variables,
};
use ig_pass::{push_alternative, push_declaration, push_level, push_shape, push_symbol};
use ig_text::{Copied, Word};
use std::alloc::{AllocError, Global};

/// The declarations of the lowered grammar so far, with a shape for each.
#[derive(Drop)]
pub struct Lowered {
    /// The declarations.
    pub decls: Decls,
    /// The shape of each, in the same order.
    pub shapes: Shapes,
}

/// Which declaration is added: the k-th one for the declaration of this name, of the shape.
#[derive(Clone, Copy)]
struct Head<'a> {
    of: &'a Word,
    k: u64,
    shape: Shape,
}

/// A separated list, with its item and its separator.
#[derive(Clone, Copy)]
pub struct Separated<'a> {
    /// The list itself.
    pub whole: &'a Symbol,
    /// Its item.
    pub item: &'a Inner,
    /// Its separator.
    pub separator: &'a Inner,
}

/// Adds the declaration for `X?`, the k-th one: nothing, or the item. Refused for want of memory
/// alone.
pub fn push_option(
    alloc: Global,
    of: &Word,
    variables: &Variables,
    k: u64,
    symbol: &Symbol,
    item: &Inner,
    all: &mut Lowered,
) -> Result<(), AllocError>
    ensures { OnOk result (Grows all.old all.new
        (option_made of.now variables.now k (symbol_of symbol.now) item.now ∷ [])) }
{
    let inside = successor(k)?;
    let params = params_for(alloc, variables, symbol)?;
    let one = new_part(alloc, of, variables, inside, item.as_symbol())?;
    let none = Symbols::new(alloc);
    let shape = Shape::Opt;
    push_two(alloc, &Head { of, k, shape }, params, none, one, all)
}

/// Adds the declaration for `X*`, the k-th one: nothing, or the list and one more item. Refused for
/// want of memory alone.
pub fn push_star(
    alloc: Global,
    of: &Word,
    variables: &Variables,
    k: u64,
    symbol: &Symbol,
    item: &Inner,
    all: &mut Lowered,
) -> Result<(), AllocError>
    ensures { OnOk result (Grows all.old all.new
        (star_made of.now variables.now k (symbol_of symbol.now) item.now ∷ [])) }
{
    let inside = successor(k)?;
    let params = params_for(alloc, variables, symbol)?;
    let mut more = call_alone(alloc, of, k, &params)?;
    push_new(alloc, of, variables, inside, item.as_symbol(), &mut more)?;
    let none = Symbols::new(alloc);
    let shape = Shape::Star;
    push_two(alloc, &Head { of, k, shape }, params, none, more, all)
}

/// Adds the declaration for `X+`, the k-th one: one item, or the list and one more. Refused for
/// want of memory alone.
pub fn push_plus(
    alloc: Global,
    of: &Word,
    variables: &Variables,
    k: u64,
    symbol: &Symbol,
    item: &Inner,
    all: &mut Lowered,
) -> Result<(), AllocError>
    ensures { OnOk result (Grows all.old all.new
        (plus_made of.now variables.now k (symbol_of symbol.now) item.now ∷ [])) }
{
    let inside = successor(k)?;
    let params = params_for(alloc, variables, symbol)?;
    let one = new_part(alloc, of, variables, inside, item.as_symbol())?;
    let mut more = call_alone(alloc, of, k, &params)?;
    push_copies(alloc, &mut more, &one)?;
    let shape = Shape::Plus;
    push_two(alloc, &Head { of, k, shape }, params, one, more, all)
}

/// Adds the declaration for `{X S}*`, the k-th one: nothing, or the list that isn't empty, whose
/// declaration is the next one. Refused for want of memory alone.
pub fn push_sep_star(
    alloc: Global,
    of: &Word,
    variables: &Variables,
    k: u64,
    symbol: &Symbol,
    all: &mut Lowered,
) -> Result<(), AllocError>
    ensures { OnOk result (Grows all.old all.new
        (sep_star_made of.now variables.now k (symbol_of symbol.now) ∷ [])) }
{
    let next = successor(k)?;
    let params = params_for(alloc, variables, symbol)?;
    let more = call_alone(alloc, of, next, &params)?;
    let none = Symbols::new(alloc);
    let shape = Shape::SepStar;
    push_two(alloc, &Head { of, k, shape }, params, none, more, all)
}

/// Adds the declaration for `{X S}+`, the k-th one: one item, or the list, a separator and one more
/// item. Refused for want of memory alone.
pub fn push_sep_plus(
    alloc: Global,
    of: &Word,
    variables: &Variables,
    k: u64,
    list: &Separated,
    all: &mut Lowered,
) -> Result<(), AllocError>
    ensures { OnOk result (Grows all.old all.new
        (sep_plus_made of.now variables.now k (symbol_of list.now.whole.now) list.now.item.now
        list.now.separator.now ∷ [])) }
{
    let inside = successor(k)?;
    let behind = sum(inside, count(list.item.as_symbol())?)?;
    let params = params_for(alloc, variables, list.whole)?;
    let one = new_part(alloc, of, variables, inside, list.item.as_symbol())?;
    let mut longer = call_alone(alloc, of, k, &params)?;
    let separator = list.separator.as_symbol();
    push_new(alloc, of, variables, behind, separator, &mut longer)?;
    push_copies(alloc, &mut longer, &one)?;
    let shape = Shape::SepPlus;
    push_two(alloc, &Head { of, k, shape }, params, one, longer, all)
}

/// Adds the declaration for a group, the k-th one, with its alternatives. Refused for want of
/// memory alone.
pub fn push_group(
    alloc: Global,
    of: &Word,
    variables: &Variables,
    k: u64,
    symbol: &Symbol,
    choices: &Alts,
    all: &mut Lowered,
) -> Result<(), AllocError>
    ensures { OnOk result (Grows all.old all.new
        (made (added_name of.now k)
        (params_for variables.now (λ n. needs n (symbol_of symbol.now))) shape.Group
        (map (λ a. a.symbols) (new_alts of.now variables.now (suc k) choices.now)) ∷ [])) }
{
    let params = params_for(alloc, variables, symbol)?;
    let alts = new_alternatives(alloc, of, variables, successor(k)?, choices)?;
    let shape = Shape::Group;
    push_made(alloc, &Head { of, k, shape }, params, alts, all)
}

/// The call of the k-th declaration, with its own parameters, as a list of one symbol.
fn call_alone(alloc: Global, of: &Word, k: u64, params: &Params) -> Result<Symbols, AllocError>
    ensures { IfOk result (λ r.
        r ≡ Call (added_name of.now k) (arguments [] (parameters params.now)) ∷ []) }
{
    let mut all = Symbols::new(alloc);
    let call = call(alloc, of, k, &Lets::new(alloc), params.as_slice())?;
    push_symbol(&mut all, call)?;
    Ok(all)
}

/// Two alternatives.
fn alternatives(alloc: Global, first: Symbols, second: Symbols) -> Result<Alts, AllocError>
    ensures { IfOk result (λ r.
        r ≡ record { symbols = first } ∷ record { symbols = second } ∷ []) }
{
    let mut alts = Alts::new(alloc);
    push_alternative(&mut alts, Alt { symbols: first })?;
    push_alternative(&mut alts, Alt { symbols: second })?;
    Ok(alts)
}

/// Adds the declaration, with two alternatives.
fn push_two(
    alloc: Global,
    head: &Head,
    params: Params,
    first: Symbols,
    second: Symbols,
    all: &mut Lowered,
) -> Result<(), AllocError>
    ensures { OnOk result (Grows all.old all.new
        (made (added_name head.now.of.now head.now.k) (parameters params) head.now.shape
        (first ∷ second ∷ []) ∷ [])) }
{
    let alts = alternatives(alloc, first, second)?;
    push_made(alloc, head, params, alts, all)
}

/// Adds the declaration: a plain one of one level.
fn push_made(
    alloc: Global,
    head: &Head,
    params: Params,
    alts: Alts,
    all: &mut Lowered,
) -> Result<(), AllocError>
    ensures { OnOk result (Grows all.old all.new
        (made (added_name head.now.of.now head.now.k) (parameters params) head.now.shape
        (map (λ a. a.symbols) alts) ∷ [])) }
{
    groups_are_gathered();
    let name = added_name(alloc, head.of, head.k)?;
    let decl = Decl {
        kind: DeclKind::Plain,
        name,
        params,
        levels: one_level(alloc, alts)?,
    };
    push_declaration(&mut all.decls, decl)?;
    push_shape(&mut all.shapes, head.shape)
}

/// A level without operators.
fn one_level(alloc: Global, alts: Alts) -> Result<Levels, AllocError>
    ensures { IfOk result (λ r. r ≡ record { assoc = Assoc.Free; alts = alts } ∷ []) }
{
    let mut levels = Levels::new(alloc);
    push_level(
        &mut levels,
        Level {
            assoc: Assoc::Free,
            alts,
        },
    )?;
    Ok(levels)
}
