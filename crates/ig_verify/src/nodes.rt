//! The rules of nodes: the root's place, and the alternatives.
ghost use Rattle.std.specs.Prelude.{◌≡◌, ◌↔◌, IsTrue, MatchOption, Some, option_map};
ghost use Rattle.ig_forest_tables.specs.Views.{item_node_view, node_view};
ghost use Rattle.ig_item.specs.Core.{alternative_at};
ghost use Rattle.ig_item.specs.Gives.{Completes};
ghost use Rattle.ig_item.specs.Items.{IsComplete};
ghost use Rattle.ig_verify.specs.Code.{shown, shown_key};
ghost use Rattle.ig_verify.specs.Flaws.{BreaksAtNode, NodeBreaks, NodesHold};
ghost use Rattle.ig_verify.specs.Sound.{ChoiceFits, ChoicesFit, IsWhole, NodeHolds};

use crate::draft::Draft;
use crate::flaw::Flaw;
use crate::steps::are_same;
use ig_forest_tables::{Choice, ItemNode, Node};
use ig_item::{Behind, Core, behind_is_looked_up};
use ig_text::{Tag, Text};

/// Whether the node is of nonterminal 0 without values, over the whole text.
fn is_whole(node: &Node<'_>, text: &Text) -> bool
    ensures { IsTrue result ↔ IsWhole text.now (node_view node.now) }
{
    node.nonterminal == 0
        && node.values.is_empty()
        && node.span.begin == 0
        && node.span.end == text.len()
}

/// Whether the item stands behind the last step of its alternative.
fn is_complete(core: &Core, it: &ItemNode<'_>) -> bool
    ensures { IsTrue result ↔ IsComplete core.now (shown it.now) }
{
    behind_is_looked_up();
    match core.behind(it.nonterminal, it.alternative, it.dot) {
        Some(Behind::End) => true,
        Some(Behind::Next(_)) => false,
        None => false,
    }
}

/// Whether the item is a complete one of the node.
fn completes(core: &Core, it: &ItemNode<'_>, node: &Node<'_>) -> bool
    ensures { IsTrue result ↔ Completes core.now (shown it.now) (shown_key node.now) }
{
    if it.nonterminal != node.nonterminal || it.start != node.span.begin {
        return false;
    }
    if it.position != node.span.end || !are_same(it.values, node.values) {
        return false;
    }
    is_complete(core, it)
}

/// Whether the item of an alternative is a complete one of the node, with that tag.
fn choice_fits(draft: &Draft, core: &Core, node: &Node<'_>, choice: Choice) -> bool
    ensures { IsTrue result ↔ ChoiceFits core.now draft.now (node_view node.now) choice }
{
    let Some(it) = draft.item(choice.item) else {
        return false;
    };
    if !completes(core, &it, node) {
        return false;
    }
    has_tag(core, &it, choice.tag)
}

/// Whether the item's alternative has that tag.
fn has_tag(core: &Core, it: &ItemNode<'_>, tag: Tag) -> bool
    ensures { IsTrue result ↔ (option_map (λ a. a.tag)
        (alternative_at core.now it.now.nonterminal it.now.alternative) ≡ Some tag) }
{
    match core.tag(it.nonterminal, it.alternative) {
        Some(other) => other == tag,
        None => false,
    }
}

/// Whether this is so of each alternative of the node.
fn choices_fit(draft: &Draft, core: &Core, node: &Node<'_>) -> bool
    ensures { IsTrue result ↔ ChoicesFit core.now draft.now (node_view node.now) }
{
    let choices = node.alternatives;
    for choice in choices {
        if !choice_fits(draft, core, node, *choice) {
            return false;
        }
    }
    true
}

/// The first rule that is broken at the node of that number, if any.
fn node_rule(draft: &Draft, core: &Core, text: &Text, number: u32, node: &Node<'_>) -> Option<u32>
    ensures { MatchOption result
        (NodeHolds core.now text.now draft.now number (node_view node.now))
        (NodeBreaks core.now text.now draft.now number (node_view node.now)) }
{
    if number == draft.root() && !is_whole(node, text) {
        return Some(1);
    }
    if !choices_fit(draft, core, node) {
        return Some(2);
    }
    None
}

/// The first rule that is broken at a node, if any, with the node.
pub(crate) fn node_flaw(draft: &Draft, core: &Core, text: &Text) -> Option<Flaw>
    ensures { MatchOption result (NodesHold core.now text.now draft.now)
        (BreaksAtNode core.now text.now draft.now) }
{
    for number in 0..draft.nodes() {
        let Some(node) = draft.node(number) else {
            unreachable!()
        };
        if let Some(rule) = node_rule(draft, core, text, number, &node) {
            return Some(Flaw {
                item: false,
                number,
                rule,
            });
        }
    }
    None
}
