ghost use Rattle.std.specs.Prelude.{◌≡◌, [], ◌∷◌, ◌++◌, map, OnOk, OnErr, IfErr};
ghost use Rattle.ig_grammar.specs.Binding.{binding_of};

use ig_expr::Expr;
use ig_text::{Copied, Word};
use std::alloc::{AllocError, Global};
use std::marker::Model;

/// A list of bindings: of a name, and of the expression whose value it is bound to.
#[derive(Drop)]
pub struct Lets {
    cells: Vec<(Word, Expr)>,
}

impl Model for Lets {
    ghost use Rattle.std.specs.Prelude.{List, map};
    ghost use Rattle.ig_grammar.specs.Binding.{Binding, binding_of};
    ghost use Rattle.ig_grammar.specs.CodingBindings.{binding_code};
    ghost use Rattle.std.specs.Coded.{coded_list};

    ghost Value = { List Binding };

    ghost coded = { coded_list binding_code };

    ghost view = { λ s. map binding_of s.cells.items };
}

impl Lets {
    /// The empty list. Takes no memory.
    pub fn new(alloc: Global) -> Lets
        ensures { result ≡ [] }
    {
        Lets {
            cells: Vec::new(alloc),
        }
    }

    /// Adds the binding at the end. Refused for want of memory, it hands the binding back, and the
    /// list is as before.
    pub fn push(&mut self, binding: (Word, Expr)) -> Result<(), ((Word, Expr), AllocError)>
        ensures ok { OnOk result (self.new ≡ self.old ++ binding_of binding ∷ []) }
        ensures err { OnErr result (self.new ≡ self.old) }
        ensures value_returned { IfErr result (λ e. e.0 ≡ binding) }
    {
        match self.cells.push(binding) {
            Ok(()) => Ok(()),
            Err(full) => Err((full.value, AllocError)),
        }
    }

    /// The bindings, in order. Takes no memory.
    pub fn as_slice(&self) -> &[(Word, Expr)]
        ensures { map binding_of result.now ≡ self.now }
    {
        self.cells.as_slice()
    }
}

impl Copied for Lets {
    fn copy(&self, alloc: Global) -> Result<Lets, AllocError> {
        let mut cells = Vec::with_capacity(alloc, self.cells.len())?;
        for cell in &self.cells {
            let name = cell.0.copy(alloc)?;
            cells.push((name, cell.1.copy(alloc)?))?;
        }
        Ok(Lets { cells })
    }
}
