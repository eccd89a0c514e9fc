ghost use Rattle.std.specs.Prelude.{◌≡◌, ◌<◌, MatchOption, length, slice_get, slice_index_or};
ghost use Rattle.ig_text.specs.Input.{IsTabWidth};
ghost use Rattle.ig_grammar.specs.declared.place.Shape.{Shape};
ghost use Rattle.ig_grammar.specs.declared.place.Shape.TheVariants.{Rule};
ghost use Rattle.ig_grammar.specs.Numbering.{HasShape};
ghost use Rattle.ig_grammar.specs.Tabs.{tab_width};
ghost use Rattle.ig_grammar.specs.WellScoped.{IsWellScoped};
ghost use Rattle.ig_grammar.specs.Checked.{rules, FitShapes};

use crate::grammar::Grammar;
use crate::place::{Shape, Shapes};
use std::marker::Model;

/// A well-scoped grammar, with a shape for each of its declarations.
#[derive(Drop)]
pub struct Checked {
    grammar: Grammar,
    /// Without a list every declaration has the shape `Rule`.
    shapes: Option<Shapes>,
}

impl Model for Checked {
    ghost use Rattle.ig_grammar.specs.Checked.{CheckedGrammar, given_or_rules, FitShapes};
    ghost use Rattle.ig_grammar.specs.CodingChecked.{checked_code};
    ghost use Rattle.ig_grammar.specs.WellScoped.{IsWellScoped};

    ghost Value = { CheckedGrammar };

    ghost coded = { checked_code };

    ghost view = { λ c.
        record { grammar = c.grammar; shapes = given_or_rules c.grammar c.shapes } };

    ghost invariant = { λ c. IsWellScoped c.grammar ×
        FitShapes c.grammar (given_or_rules c.grammar c.shapes) };
}

impl Checked {
    /// The grammar, every declaration of which has the shape `Rule`. The grammar is well scoped.
    /// Takes no memory.
    pub fn of(grammar: Grammar) -> Checked
        requires { IsWellScoped grammar }
        ensures grammar { result.grammar ≡ grammar }
        ensures shapes { result.shapes ≡ rules grammar }
    {
        Checked {
            grammar,
            shapes: None,
        }
    }

    /// The grammar, with these shapes of its declarations, as passes give them. The grammar is well
    /// scoped. There are as many shapes as declarations. A declaration of the shape `Rule` or
    /// `Group` has any number of alternatives, one of the shape `Root` has one, and one of any
    /// other shape two. Every declaration of another shape than `Rule` has one level, neither
    /// `left` nor `right` nor `nonassoc`. One of the shape `Root` is the start, is no layout
    /// declaration, stands after each of the shape `Rule`, and is named by no call; each of its
    /// symbols is a call or a `Seq` of calls. Takes no memory.
    pub fn with_shapes(grammar: Grammar, shapes: Shapes) -> Checked
        requires scoped { IsWellScoped grammar }
        requires fit { FitShapes grammar shapes }
        ensures grammar { result.grammar ≡ grammar }
        ensures shapes { result.shapes ≡ shapes }
    {
        Checked {
            grammar,
            shapes: Some(shapes),
        }
    }

    /// The grammar. Takes no memory.
    pub fn grammar(&self) -> &Grammar
        ensures same { result.now ≡ self.now.grammar }
        ensures scoped { IsWellScoped self.now.grammar }
        ensures fit { FitShapes self.now.grammar self.now.shapes }
    {
        &self.grammar
    }

    /// The width of tabs that the grammar says, from 1 to 16; 1 where it says none. Takes no
    /// memory.
    pub fn tab_width(&self) -> u32
        ensures width { result ≡ tab_width self.now.grammar.tabs }
        ensures allowed { IsTabWidth result }
    {
        match self.grammar.tabs {
            Some(tabs) => tabs as u32,
            None => 1,
        }
    }

    /// The shape of the declaration of this number, counted from 1; `None` exactly where no
    /// declaration has the number. Takes no memory.
    pub fn shape(&self, decl: u32) -> Option<Shape>
        ensures { MatchOption result ((shape : Shape) → HasShape self.now.shapes decl shape → ⊥)
            (HasShape self.now.shapes decl) }
    {
        self.shape_at(decl.checked_sub(1)? as usize)
    }

    /// The shape of the declaration at this index of the grammar's list, counted from 0; `None`
    /// exactly where the list ends before it. Takes no memory.
    pub fn shape_at(&self, index: usize) -> Option<Shape>
        ensures { result ≡ slice_get self.now.shapes index }
    {
        match &self.shapes {
            Some(shapes) => shapes.as_slice().get(index).copied(),
            None => {
                if index < self.grammar.decls.as_slice().len() {
                    Some(Shape::Rule)
                } else {
                    None
                }
            }
        }
    }

    /// The shape of the declaration that has so many before it. Takes no memory.
    pub fn shape_behind(&self, before: usize) -> Shape
        requires { before < length self.now.shapes }
        ensures { result ≡ slice_index_or self.now.shapes before Rule }
    {
        match &self.shapes {
            Some(shapes) => shapes.as_slice()[before],
            None => Shape::Rule,
        }
    }
}
