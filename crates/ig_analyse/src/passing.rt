//! Which steps can be empty, or have a tree, as far as marks tell.
ghost use Rattle.std.specs.Prelude.{◌≡◌};
ghost use Rattle.ig_item.specs.View.{step_of};
ghost use Rattle.ig_analyse.specs.Marks.{is_marked, passes};

use ig_item::Step;

/// Whether the step calls a marked nonterminal, or none; where it is bare, it must be no terminal.
pub fn passes(step: &Step, bare: bool, marks: &[bool]) -> bool
    ensures { result ≡ passes bare marks.now (step_of step.now) }
{
    match step {
        Step::Test(_) => true,
        Step::Bind(_, _) => true,
        Step::Term { .. } => !bare,
        Step::Call { nonterminal, .. } => is_marked(marks, *nonterminal),
    }
}

/// Whether the nonterminal is marked.
fn is_marked(marks: &[bool], number: u32) -> bool
    ensures { result ≡ is_marked marks.now number }
{
    let Some(mark) = marks.get(number as usize) else {
        return false;
    };
    *mark
}
