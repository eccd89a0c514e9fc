//! The facts of all nonterminals.
ghost use Rattle.std.specs.Prelude.{length, ◌<◌, IfOk};
ghost use Rattle.ig_analyse.specs.Marks.{MarkFacts};
ghost use Rattle.ig_analyse.specs.Told.{AreFactsOf, SaysOf, TellOfTrees};

use crate::laws::{heights_are_bounded, others_have_no_empty_tree, unproductive_have_no_tree};
use crate::marks::{Marks, marks_of};
use ig_item::Core;
use ig_text::Sequence;
use std::alloc::{AllocError, Global};

/// What holds of a nonterminal, by the terminals and calls of alternatives alone. That A leads to B
/// is said of a call of B in an alternative of A.
#[derive(Clone, Copy, PartialEq, Eq, Debug)]
pub struct Fact {
    /// Some alternative has no terminal, and calls nullable nonterminals alone.
    pub nullable: bool,
    /// Some alternative calls productive nonterminals alone.
    pub productive: bool,
    /// It is the root, or a reachable nonterminal calls it.
    pub reachable: bool,
    /// It leads back to itself by calls before which there are only calls of nullable nonterminals.
    pub left_recursive: bool,
    /// It leads back to itself by calls beside which there are only calls of nullable nonterminals.
    pub cyclic: bool,
}

/// A list of facts.
pub type Facts = Sequence<Fact>;

/// The facts of all nonterminals, in the order of their numbers. Refused for want of memory alone.
pub fn analyse(alloc: Global, core: &Core) -> Result<Facts, AllocError>
    ensures exact { IfOk result (AreFactsOf core.now) }
    ensures trees { IfOk result (TellOfTrees core.now) }
{
    unproductive_have_no_tree();
    others_have_no_empty_tree();
    heights_are_bounded();
    let marks = marks_of(alloc, core)?;
    let facts = facts_by(alloc, core, &marks)?;
    Ok(facts)
}

/// The facts that the marks say.
fn facts_by(alloc: Global, core: &Core, marks: &Marks) -> Result<Facts, AllocError>
    requires { MarkFacts core.now marks.now }
    ensures { IfOk result (AreFactsOf core.now) }
{
    let mut facts = Vec::new(alloc);
    for number in 0..marks.nullable.len() {
        let fact = fact_at(core, marks, number);
        facts.push(fact)?;
    }
    Ok(Sequence::from_vec(facts))
}

/// The fact of the nonterminal of that number.
fn fact_at(core: &Core, marks: &Marks, number: usize) -> Fact
    requires exact { MarkFacts core.now marks.now }
    requires number { number < length core.now }
    ensures { SaysOf core.now number result }
{
    Fact {
        nullable: marks.nullable[number],
        productive: marks.productive[number],
        reachable: marks.reachable[number],
        left_recursive: marks.left_recursive[number],
        cyclic: marks.cyclic[number],
    }
}
