//! The rules of a core grammar: which nonterminal each alternative makes of which.
ghost use Rattle.std.specs.Prelude.{◌≡◌, ◌++◌, IfOk, OnOk};
ghost use Rattle.ig_analyse.specs.Rules.{rule_of, rules_from, rules_of};
ghost use Rattle.ig_analyse.specs.Steps.{callees, has_terminal};
ghost use Rattle.ig_item.specs.View.{step_of};

use crate::edges::push_callees;
use crate::walk::Row;
use ig_item::{Core, CoreAlt, Nonterminal, Step};
use ig_text::Sequence;
use std::alloc::{AllocError, Global};

/// Where all callees are made, the head is.
#[derive(Drop)]
pub struct Rule {
    pub head: usize,
    pub callees: Row,
}

/// The rules of all alternatives; where it is bare, of those without a terminal. Refused for want
/// of memory.
pub fn rules_of(alloc: Global, core: &Core, bare: bool) -> Result<Vec<Rule>, AllocError>
    ensures { IfOk result (λ rules. rules.items ≡ rules_from bare 0 core.now) }
{
    let mut rules = Vec::new(alloc);
    for (number, nonterminal) in core.as_slice().iter().enumerate() {
        push_rules(alloc, nonterminal, number, bare, &mut rules)?;
    }
    Ok(rules)
}

/// Adds the rules of a nonterminal of that number.
fn push_rules(
    alloc: Global,
    nonterminal: &Nonterminal,
    number: usize,
    bare: bool,
    rules: &mut Vec<Rule>,
) -> Result<(), AllocError>
    ensures { OnOk result (rules.new.items ≡
        rules.old.items ++ rules_of bare number nonterminal.now) }
{
    for alternative in nonterminal.alternatives.as_slice() {
        push_rule(alloc, alternative, number, bare, rules)?;
    }
    Ok(())
}

/// Adds the rule of an alternative of the nonterminal of that number.
fn push_rule(
    alloc: Global,
    alternative: &CoreAlt,
    number: usize,
    bare: bool,
    rules: &mut Vec<Rule>,
) -> Result<(), AllocError>
    ensures { OnOk result
        (rules.new.items ≡ rules.old.items ++ rule_of bare number alternative.now) }
{
    if bare && has_terminal(alternative) {
        return Ok(());
    }
    let callees = callees_of(alloc, alternative)?;
    rules.push(Rule {
        head: number,
        callees,
    })?;
    Ok(())
}

/// Whom the alternative calls.
fn callees_of(alloc: Global, alternative: &CoreAlt) -> Result<Row, AllocError>
    ensures { IfOk result (λ row. row ≡ callees alternative.now.steps) }
{
    let mut row = Vec::new(alloc);
    push_callees(alternative, &mut row)?;
    Ok(Sequence::from_vec(row))
}

/// Whether the alternative has a terminal.
fn has_terminal(alternative: &CoreAlt) -> bool
    ensures { result ≡ has_terminal alternative.now.steps }
{
    for step in alternative.steps.as_slice() {
        if let Step::Term { .. } = step {
            return true;
        }
    }
    false
}
