//! Rules by which a part is made once the sources of all its rules are.
ghost use Rattle.std.specs.Prelude.{◌≡◌, ◌<◌, [], suc, IfOk, OnOk, length};
ghost use Rattle.ig_heights.specs.Fits.{bottom_end};
ghost use Rattle.ig_heights.specs.Table.{AreLasts, AreLinks, IsWholeTable, Linked, Links};

use crate::rule::{Rule, Table};
use std::alloc::{AllocError, Global};

/// One rule for each part. The sources of a part's rules form a chain of new parts, and the part
/// needs its end.
pub(crate) fn whole_rules(alloc: Global, least: &Table) -> Result<Table, AllocError>
    requires parts { least.now.parts ≡ suc least.now.bottom }
    ensures { IfOk result (IsWholeTable least.now) }
{
    let count = least
        .rules
        .len()
        .saturating_mul(2)
        .saturating_add(least.bottom);
    let mut rules = Vec::with_capacity(alloc, count)?;
    let last = add_links(alloc, &mut rules, least)?;
    let parts = least.bottom + 1 + rules.len();
    add_lasts(&mut rules, last.as_slice(), least.bottom)?;
    Ok(Table {
        nodes: least.nodes,
        bottom: least.bottom,
        parts,
        rules,
    })
}

/// Adds two links for each rule to the chain of its target, and gives the ends of the chains.
fn add_links(alloc: Global, links: &mut Vec<Rule>, least: &Table) -> Result<Vec<usize>, AllocError>
    requires parts { least.now.parts ≡ suc least.now.bottom }
    requires none { links.old.items ≡ [] }
    ensures { IfOk result (λ last. AreLinks least.now.bottom least.now.rules.items
        links.new.items last.items) }
{
    let mut last = vec![in alloc; least.bottom; least.bottom]?;
    for rule in &least.rules {
        add_rule(links, &mut last, least.bottom, *rule)?;
    }
    Ok(last)
}

/// Adds the sources of a rule to the chain of its target.
fn add_rule(
    links: &mut Vec<Rule>,
    last: &mut Vec<usize>,
    bottom: usize,
    rule: Rule,
) -> Result<(), AllocError>
    requires bottom { bottom < bottom_end }
    requires last { length last.old.items ≡ bottom }
    ensures { OnOk result (Linked bottom rule links.old.items last.old.items
        links.new.items last.new.items) }
{
    if rule.target >= bottom {
        return Ok(());
    }
    let middle = add_link(links, bottom, last[rule.target], rule.left)?;
    let end = add_link(links, bottom, middle, rule.right)?;
    last[rule.target] = end;
    Ok(())
}

/// Adds a link to the end of a chain, and gives the new end.
fn add_link(
    links: &mut Vec<Rule>,
    bottom: usize,
    end: usize,
    part: usize,
) -> Result<usize, AllocError>
    requires bottom { bottom < bottom_end }
    ensures { IfOk result (λ new. Links bottom end part links.old.items links.new.items new) }
{
    let target = bottom + 1 + links.len();
    links.push(Rule {
        target,
        left: end,
        right: part,
    })?;
    Ok(target)
}

/// Adds the rule of each part: it needs the end of its chain.
fn add_lasts(rules: &mut Vec<Rule>, last: &[usize], bottom: usize) -> Result<(), AllocError>
    ensures { OnOk result (AreLasts bottom rules.old.items rules.new.items last.now
        (length last.now)) }
{
    for part in 0..last.len() {
        rules.push(Rule {
            target: part,
            left: last[part],
            right: bottom,
        })?;
    }
    Ok(())
}
