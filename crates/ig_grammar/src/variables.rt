ghost use Rattle.std.specs.Prelude.{◌≡◌, ◌∷◌, [], ◌++◌, ◌↔◌, length, take};
ghost use Rattle.std.specs.Prelude.{IsTrue, Contains, Some, IfOk, OnOk, OnErr};
ghost use Rattle.ig_expr.specs.View.{expression_of};
ghost use Rattle.ig_expr.specs.Names.{place_of};
ghost use Rattle.ig_grammar.specs.Visible.{names, kinds, kind_at, parameters, replaced, with_kind};

use crate::declaration::Param;
use crate::lets::Lets;
use ig_expr::{Expr, Kind, kind_of};
use ig_text::{Copied, Word};
use std::alloc::{AllocError, Global};
use std::marker::Model;

/// The variables that are visible somewhere with the kinds of their values, in order of binding.
#[derive(Drop)]
pub struct Variables {
    names: Vec<Word>,
    /// The kind of each, in the same order.
    kinds: Vec<Kind>,
}

impl Model for Variables {
    ghost use Rattle.std.specs.Prelude.{◌≡◌, length};
    ghost use Rattle.std.specs.List.{zip};
    ghost use Rattle.ig_grammar.specs.Visible.{Visible};

    ghost Value = { Visible };

    ghost view = { λ v. zip v.names.items v.kinds.items };

    ghost invariant = { λ v. length v.names.items ≡ length v.kinds.items };
}

impl Variables {
    /// The parameters of a declaration, which are visible in each of its alternatives. It is
    /// refused for want of memory alone.
    pub fn of(alloc: Global, params: &[Param]) -> Result<Variables, AllocError>
        ensures { IfOk result (λ v. v ≡ parameters params.now) }
    {
        let mut variables = Variables {
            names: Vec::new(alloc),
            kinds: Vec::new(alloc),
        };
        for param in params {
            variables.bind(alloc, &param.name, param.kind)?;
        }
        Ok(variables)
    }

    /// Adds a variable at the end. It is refused for want of memory alone; the variables are then
    /// as before.
    pub fn bind(&mut self, alloc: Global, name: &Word, kind: Kind) -> Result<(), AllocError>
        ensures ok { OnOk result (self.new ≡ self.old ++ (name.now, kind) ∷ []) }
        ensures err { OnErr result (self.new ≡ self.old) }
    {
        let name = name.copy(alloc)?;
        self.kinds.push(kind)?;
        match self.names.push(name) {
            Ok(()) => Ok(()),
            Err(_) => {
                self.kinds.truncate(self.names.len());
                Err(AllocError)
            }
        }
    }

    /// How many there are. Takes no memory.
    pub fn len(&self) -> usize
        ensures { result ≡ length self.now }
    {
        self.names.as_slice().len()
    }

    /// The names, in order. Takes no memory.
    pub fn names(&self) -> &[Word]
        ensures { result.now ≡ names self.now }
    {
        self.names.as_slice()
    }

    /// The kinds, in the same order. Takes no memory.
    pub fn kinds(&self) -> &[Kind]
        ensures { result.now ≡ kinds self.now }
    {
        self.kinds.as_slice()
    }

    /// Keeps so many, the first ones. Takes no memory.
    pub fn truncate(&mut self, len: usize)
        ensures { self.new ≡ take len self.old }
    {
        self.names.truncate(len);
        self.kinds.truncate(len);
    }

    /// Whether the name is visible. Takes no memory.
    pub fn sees(&self, name: &Word) -> bool
        ensures { IsTrue result ↔ Contains (names self.now) name.now }
    {
        place_of(self.names(), name).is_some()
    }

    /// The kind of the expression; `None` exactly where it has none. Takes no memory.
    pub fn kind_of(&self, e: &Expr) -> Option<Kind>
        ensures { result ≡ kind_at self.now (expression_of e.now) }
    {
        kind_of(e, self.names(), self.kinds())
    }

    /// The variables with those of the bindings in place of the same names: each expression sees
    /// these variables, and a name whose expression has no kind stays as it is. It is refused for
    /// want of memory alone.
    pub fn replaced(&self, alloc: Global, bindings: &Lets) -> Result<Variables, AllocError>
        ensures { IfOk result (λ v. v ≡ replaced self.now self.now bindings.now) }
    {
        let mut variables = self.copy(alloc)?;
        for (name, value) in bindings.as_slice() {
            if let Some(kind) = self.kind_of(value) {
                variables.replace(alloc, name, kind)?;
            }
        }
        Ok(variables)
    }

    /// Gives the variable of this name the kind, or adds it where the name is new.
    fn replace(&mut self, alloc: Global, name: &Word, kind: Kind) -> Result<(), AllocError>
        ensures { OnOk result (self.new ≡ with_kind self.old name.now (Some kind)) }
    {
        match place_of(self.names.as_slice(), name) {
            Some(place) => {
                self.kinds[place] = kind;
                Ok(())
            }
            None => self.bind(alloc, name, kind),
        }
    }
}

impl Copied for Variables {
    fn copy(&self, alloc: Global) -> Result<Variables, AllocError> {
        let mut names = Vec::with_capacity(alloc, self.names.len())?;
        for name in &self.names {
            names.push(name.copy(alloc)?)?;
        }
        let kinds = Vec::from_slice(alloc, self.kinds.as_slice())?;
        Ok(Variables { names, kinds })
    }
}

/// The first place of the name in the list, from 0.
fn place_of(names: &[Word], name: &Word) -> Option<usize>
    ensures { result ≡ place_of names.now name.now }
{
    names.iter().position(|n| n == name)
}
