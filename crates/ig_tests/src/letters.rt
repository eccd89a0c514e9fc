//! A core grammar that is made by hand: a root of one terminal.
ghost use Rattle.std.specs.Prelude.{◌≡◌, [], ◌∷◌, IfOk};
ghost use Rattle.ig_item.specs.View.{step_of};
ghost use Rattle.ig_tests.specs.LoneRoot.{IsUnlabelled, lone_alternative};

use ig_expr::Kinds;
use ig_item::{Core, CoreAlt, CoreAlts, Nonterminal, Nonterminals, Step, Steps};
use ig_text::{Class, Pattern, Patterns, Tag, Word, Words};
use std::alloc::{AllocError, Global};

/// The core grammar of a root of one letter from `a` to `z` that isn't `b`.
pub(crate) fn letter_core(alloc: Global) -> Result<Core, AllocError> {
    let alternatives = lone_alternative(alloc, letter_but_b(alloc)?)?;
    let core = Core::of(lone_root(alloc, Word::new(alloc, "$root")?, alternatives)?);
    Ok(core)
}

/// A root of that name with these alternatives.
fn lone_root(alloc: Global, name: Word, alternatives: CoreAlts) -> Result<Nonterminals, AllocError>
    ensures { IfOk result (λ core. core ≡
        record { name = name; params = []; kinds = []; alternatives = alternatives } ∷ []) }
{
    let root = Nonterminal {
        name,
        params: Words::new(alloc),
        kinds: Kinds::new(alloc),
        alternatives,
    };
    Ok(Nonterminals::from_vec(vec![in alloc; root]?))
}

/// The root's alternative of that step.
fn lone_alternative(alloc: Global, step: Step) -> Result<CoreAlts, AllocError>
    ensures { IfOk result (λ alternatives. alternatives ≡ lone_alternative (step_of step) ∷ []) }
{
    let alternative = CoreAlt {
        tag: Tag::Root,
        steps: Steps::from_vec(vec![in alloc; step]?),
    };
    Ok(CoreAlts::from_vec(vec![in alloc; alternative]?))
}

/// The terminal of a letter that isn't `b`.
fn letter_but_b(alloc: Global) -> Result<Step, AllocError>
    ensures { IfOk result (λ step. IsUnlabelled (step_of step)) }
{
    let not = only_b(alloc)?;
    let what = letter(alloc)?;
    let label = None;
    Ok(Step::Term { what, label, not })
}

/// A letter from `a` to `z`.
fn letter(alloc: Global) -> Result<Pattern, AllocError> {
    let class = Class::ranges(alloc, false, &[('a', 'z')])?;
    Ok(Pattern::OneOf(class))
}

/// The list of `"b"` alone.
fn only_b(alloc: Global) -> Result<Patterns, AllocError> {
    let word = Word::new(alloc, "b")?;
    Ok(Patterns::from_vec(vec![in alloc; Pattern::Literal(word)]?))
}
