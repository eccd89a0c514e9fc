//! The rules of a forest: one for each entry and each alternative.
ghost use Rattle.std.specs.Prelude.{◌≡◌, IfOk, OnOk, length};
ghost use Rattle.ig_heights.specs.Table.{Adds, IsLeastTable, IsRuleBy, IsRuleOf};
ghost use Rattle.ig_heights.specs.Table.{choice_rule, choices_at, entries_at, entry_rule};
ghost use Rattle.ig_heights.specs.Table.{bottom_of};

use crate::rule::{Rule, Table};
use ig_forest::{Child, Choice, Entry, Forest};
use std::alloc::{AllocError, Global};

/// The rules of the forest. A node has its own number, an item node one behind those of the nodes.
pub(crate) fn least_rules(alloc: Global, forest: &Forest) -> Result<Table, AllocError>
    ensures { IfOk result (IsLeastTable forest.now) }
{
    let _ = forest.root();
    let nodes = forest.nodes();
    let bottom = nodes as usize + forest.items() as usize;
    let mut rules = Vec::with_capacity(alloc, bottom)?;
    add_nodes(&mut rules, forest, bottom)?;
    add_items(&mut rules, forest, nodes, bottom)?;
    Ok(Table {
        nodes: nodes as usize,
        bottom,
        parts: bottom + 1,
        rules,
    })
}

/// Adds the rules of all alternatives.
fn add_nodes(rules: &mut Vec<Rule>, forest: &Forest, bottom: usize) -> Result<(), AllocError>
    requires bottom { bottom ≡ bottom_of forest.now }
    ensures { OnOk result (Adds rules.old.items rules.new.items
        (IsRuleOf forest.now (length forest.now.nodes) 0)) }
{
    let nodes = forest.nodes();
    for v in 0..nodes {
        add_node(rules, forest, v, nodes, bottom)?;
    }
    Ok(())
}

/// Adds the rules of the alternatives of a node.
fn add_node(
    rules: &mut Vec<Rule>,
    forest: &Forest,
    v: u32,
    nodes: u32,
    bottom: usize,
) -> Result<(), AllocError>
    ensures { OnOk result (Adds rules.old.items rules.new.items
        (IsRuleBy (choice_rule nodes bottom v) (choices_at forest.now v))) }
{
    match forest.node(v) {
        Some(node) => add_choices(rules, node.alternatives, v, nodes, bottom),
        None => Ok(()),
    }
}

/// Adds the rules of these alternatives of a node.
fn add_choices(
    rules: &mut Vec<Rule>,
    choices: &[Choice],
    v: u32,
    nodes: u32,
    bottom: usize,
) -> Result<(), AllocError>
    ensures { OnOk result (Adds rules.old.items rules.new.items
        (IsRuleBy (choice_rule nodes bottom v) choices.now)) }
{
    for choice in choices {
        rules.push(choice_rule(nodes, bottom, v, *choice))?;
    }
    Ok(())
}

/// Adds the rules of all entries.
fn add_items(
    rules: &mut Vec<Rule>,
    forest: &Forest,
    nodes: u32,
    bottom: usize,
) -> Result<(), AllocError>
    requires nodes { nodes ≡ length forest.now.nodes }
    requires bottom { bottom ≡ bottom_of forest.now }
    ensures { OnOk result (Adds rules.old.items rules.new.items
        (IsRuleOf forest.now 0 (length forest.now.items))) }
{
    for k in 0..forest.items() {
        add_item(rules, forest, k, nodes, bottom)?;
    }
    Ok(())
}

/// Adds the rules of the entries of an item node.
fn add_item(
    rules: &mut Vec<Rule>,
    forest: &Forest,
    k: u32,
    nodes: u32,
    bottom: usize,
) -> Result<(), AllocError>
    ensures { OnOk result (Adds rules.old.items rules.new.items
        (IsRuleBy (entry_rule nodes bottom k) (entries_at forest.now k))) }
{
    match forest.item(k) {
        Some(item) => add_entries(rules, item.entries, k, nodes, bottom),
        None => Ok(()),
    }
}

/// Adds the rules of these entries of an item node.
fn add_entries(
    rules: &mut Vec<Rule>,
    entries: &[Entry],
    k: u32,
    nodes: u32,
    bottom: usize,
) -> Result<(), AllocError>
    ensures { OnOk result (Adds rules.old.items rules.new.items
        (IsRuleBy (entry_rule nodes bottom k) entries.now)) }
{
    for entry in entries {
        rules.push(entry_rule(nodes, bottom, k, *entry))?;
    }
    Ok(())
}

/// The rule of an alternative.
fn choice_rule(nodes: u32, bottom: usize, v: u32, choice: Choice) -> Rule
    ensures { result ≡ choice_rule nodes bottom v choice }
{
    Rule {
        target: v as usize,
        left: nodes as usize + choice.item as usize,
        right: bottom,
    }
}

/// The rule of an entry.
fn entry_rule(nodes: u32, bottom: usize, k: u32, entry: Entry) -> Rule
    ensures { result ≡ entry_rule nodes bottom k entry }
{
    let nodes = nodes as usize;
    let target = nodes + k as usize;
    match entry {
        Entry::Begin => Rule {
            target,
            left: bottom,
            right: bottom,
        },
        Entry::Pass { prev } => Rule {
            target,
            left: nodes + prev as usize,
            right: bottom,
        },
        Entry::Take {
            prev,
            child: Child::Leaf(_),
        } => Rule {
            target,
            left: nodes + prev as usize,
            right: bottom,
        },
        Entry::Take {
            prev,
            child: Child::Node(v),
        } => Rule {
            target,
            left: nodes + prev as usize,
            right: v as usize,
        },
    }
}
