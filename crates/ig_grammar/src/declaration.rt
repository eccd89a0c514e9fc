use crate::symbol::Alts;
use ig_expr::Kind;
use ig_text::{Copied, Sequence, Word};
use std::alloc::{AllocError, Global};

/// What a declaration is.
#[derive(Clone, Copy, PartialEq, Eq, Debug)]
pub enum DeclKind {
    /// Its rules have layout between tokens.
    Syntax,
    /// A call of it in a syntax rule is a token.
    Lexical,
    /// What may stand between tokens.
    Layout,
    /// It has no layout of its own, and its tokens are not exposed. Only passes make it.
    Plain,
}

/// A parameter of a declaration.
#[derive(Drop)]
pub struct Param {
    pub name: Word,
    pub kind: Kind,
}

/// A list of parameters.
pub type Params = Sequence<Param>;

/// To which side the alternatives of a level group.
#[derive(Clone, Copy, PartialEq, Eq, Debug)]
pub enum Assoc {
    /// To either side.
    Free,
    /// To the left: no right operand is of the level itself.
    Left,
    /// To the right: no left operand is of the level itself.
    Right,
    /// To neither side: no operand is of the level itself.
    Nonassoc,
}

/// Alternatives that bind equally tight. The first level of a declaration binds tightest.
#[derive(Drop)]
pub struct Level {
    pub assoc: Assoc,
    pub alts: Alts,
}

/// A list of levels.
pub type Levels = Sequence<Level>;

/// A declaration of a nonterminal. Declarations are numbered from 1.
#[derive(Drop)]
pub struct Decl {
    pub kind: DeclKind,
    pub name: Word,
    pub params: Params,
    pub levels: Levels,
}

/// A list of declarations.
pub type Decls = Sequence<Decl>;

impl Copied for Param {
    fn copy(&self, alloc: Global) -> Result<Param, AllocError> {
        let name = self.name.copy(alloc)?;
        Ok(Param {
            name,
            kind: self.kind,
        })
    }
}

impl Copied for Level {
    fn copy(&self, alloc: Global) -> Result<Level, AllocError> {
        let alts = self.alts.copy(alloc)?;
        Ok(Level {
            assoc: self.assoc,
            alts,
        })
    }
}

impl Copied for Decl {
    fn copy(&self, alloc: Global) -> Result<Decl, AllocError> {
        let name = self.name.copy(alloc)?;
        let params = self.params.copy(alloc)?;
        let levels = self.levels.copy(alloc)?;
        Ok(Decl {
            kind: self.kind,
            name,
            params,
            levels,
        })
    }
}
