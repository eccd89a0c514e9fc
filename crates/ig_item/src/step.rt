ghost use Rattle.std.specs.Prelude.{◌≡◌, [], ◌∷◌, ◌++◌, map, OnOk, OnErr, IfErr};
ghost use Rattle.std.specs.Option.{option_copied};
ghost use Rattle.ig_item.specs.Step.{names_of, labels};
ghost use Rattle.ig_item.specs.View.{step_of};

use ig_expr::{Expr, Exprs};
use ig_text::{Pattern, Patterns, Word};
use std::alloc::{AllocError, Global};
use std::marker::Model;

/// A step of an alternative. Between the steps stand its dots, numbered from 0.
#[derive(Drop)]
pub enum Step {
    /// A condition.
    Test(Expr),
    /// A name that is bound to the value of the expression.
    Bind(Word, Expr),
    /// A match of the pattern, whose text is a match of no pattern of `not`. A label binds its
    /// span.
    Term {
        what: Pattern,
        label: Option<Word>,
        not: Patterns,
    },
    /// A call of the nonterminal of that number, with its arguments. The text that it covers is a
    /// match of no pattern of `not`. A label binds its span.
    Call {
        nonterminal: u32,
        args: Exprs,
        label: Option<Word>,
        not: Patterns,
    },
}

impl Step {
    /// The name that the step binds, by itself or by a label; `None` exactly where it binds none.
    /// Takes no memory.
    pub fn binds(&self) -> Option<&Word>
        ensures { labels (option_copied result) ≡ names_of (step_of self.now) }
    {
        match self {
            Step::Test(_) => None,
            Step::Bind(name, _) => Some(name),
            Step::Term { label, .. } => label.as_ref(),
            Step::Call { label, .. } => label.as_ref(),
        }
    }
}

/// A list of steps.
#[derive(Drop)]
pub struct Steps {
    cells: Vec<Step>,
}

impl Model for Steps {
    ghost use Rattle.std.specs.Prelude.{List, map};
    ghost use Rattle.std.specs.Coded.{coded_list};
    ghost use Rattle.ig_item.specs.Step as tree;
    ghost use Rattle.ig_item.specs.CodingStep.{step_code};

    ghost Value = { List tree.Step };

    ghost coded = { coded_list step_code };

    ghost use Rattle.ig_item.specs.View.{step_of};

    ghost view = { λ s. map step_of s.cells.items };
}

impl Steps {
    /// The empty list. Takes no memory.
    pub fn new(alloc: Global) -> Steps
        ensures { result ≡ [] }
    {
        Steps {
            cells: Vec::new(alloc),
        }
    }

    /// Adds the step at the end. Refused for want of memory, it hands the step back, and the list
    /// is as before.
    pub fn push(&mut self, step: Step) -> Result<(), (Step, AllocError)>
        ensures ok { OnOk result (self.new ≡ self.old ++ step_of step ∷ []) }
        ensures err { OnErr result (self.new ≡ self.old) }
        ensures value_returned { IfErr result (λ e. e.0 ≡ step) }
    {
        match self.cells.push(step) {
            Ok(()) => Ok(()),
            Err(full) => Err((full.value, AllocError)),
        }
    }

    /// The list of the steps. Takes no memory.
    pub fn from_vec(cells: Vec<Step>) -> Steps
        ensures { result ≡ map step_of cells.items }
    {
        Steps { cells }
    }

    /// The steps, in order. Takes no memory.
    pub fn as_slice(&self) -> &[Step]
        ensures { map step_of result.now ≡ self.now }
    {
        self.cells.as_slice()
    }
}
