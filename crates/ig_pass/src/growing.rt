//! Lists that grow at their end, and copies. A call lets go of what a refused push hands back: at
//! the end of a block its proof would go through all forms of it.
ghost use Rattle.std.specs.Prelude.{◌≡◌, [], ◌∷◌, ◌++◌, IfOk, OnOk};
ghost use Rattle.ig_expr.specs.View.{expression_of};
ghost use Rattle.ig_expr.specs.declared.kind.Kind.TheVariants as kind;
ghost use Rattle.ig_grammar.specs.View.{symbol_of};

use ig_expr::{Expr, Exprs, Kind};
use ig_grammar::{
    Alt, Alts, Decl, Decls, Level, Levels, Param, Params, Shape, Shapes, Symbol, Symbols,
};
use ig_text::{Copied, Word};
use std::alloc::{AllocError, Global};

/// An equal start line. Refused for want of memory alone.
pub fn copy_of_start(alloc: Global, start: &Option<Word>) -> Result<Option<Word>, AllocError>
    ensures { IfOk result (λ r. r ≡ start.now) }
{
    match start {
        Some(name) => Ok(Some(name.copy(alloc)?)),
        None => Ok(None),
    }
}

/// Adds the expression at the end. Refused for want of memory alone.
pub fn push_expression(all: &mut Exprs, expression: Expr) -> Result<(), AllocError>
    ensures { OnOk result (all.new ≡ all.old ++ expression_of expression ∷ []) }
{
    match all.push(expression) {
        Ok(()) => Ok(()),
        Err((refused, reason)) => {
            drop(refused);
            Err(reason)
        }
    }
}

/// Adds the symbol at the end. Refused for want of memory alone.
pub fn push_symbol(all: &mut Symbols, symbol: Symbol) -> Result<(), AllocError>
    ensures { OnOk result (all.new ≡ all.old ++ symbol_of symbol ∷ []) }
{
    match all.push(symbol) {
        Ok(()) => Ok(()),
        Err((refused, reason)) => {
            drop(refused);
            Err(reason)
        }
    }
}

/// Adds the alternative at the end. Refused for want of memory alone.
pub fn push_alternative(all: &mut Alts, alternative: Alt) -> Result<(), AllocError>
    ensures { OnOk result (all.new ≡ all.old ++ alternative ∷ []) }
{
    match all.push(alternative) {
        Ok(()) => Ok(()),
        Err((refused, reason)) => {
            drop(refused);
            Err(reason)
        }
    }
}

/// Adds the level at the end. Refused for want of memory alone.
pub fn push_level(all: &mut Levels, level: Level) -> Result<(), AllocError>
    ensures { OnOk result (all.new ≡ all.old ++ level ∷ []) }
{
    match all.push(level) {
        Ok(()) => Ok(()),
        Err((refused, reason)) => {
            drop(refused);
            Err(reason)
        }
    }
}

/// Adds a parameter of the name, whose values are integers, at the end. Refused for want of memory
/// alone.
pub fn push_integer(all: &mut Params, name: Word) -> Result<(), AllocError>
    ensures { OnOk result (all.new ≡ all.old ++ record { name = name; kind = kind.Int } ∷ []) }
{
    let kind = Kind::Int;
    match all.push(Param { name, kind }) {
        Ok(()) => Ok(()),
        Err((refused, reason)) => {
            drop(refused);
            Err(reason)
        }
    }
}

/// Adds the declaration at the end. Refused for want of memory alone.
pub fn push_declaration(all: &mut Decls, decl: Decl) -> Result<(), AllocError>
    ensures { OnOk result (all.new ≡ all.old ++ decl ∷ []) }
{
    match all.push(decl) {
        Ok(()) => Ok(()),
        Err((refused, reason)) => {
            drop(refused);
            Err(reason)
        }
    }
}

/// Adds the shape at the end. Refused for want of memory alone.
pub fn push_shape(all: &mut Shapes, shape: Shape) -> Result<(), AllocError>
    ensures { OnOk result (all.new ≡ all.old ++ shape ∷ []) }
{
    match all.push(shape) {
        Ok(()) => Ok(()),
        Err((refused, reason)) => {
            drop(refused);
            Err(reason)
        }
    }
}
