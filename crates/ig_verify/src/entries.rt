//! The rules of entries: what begins an alternative, and what follows by a step.
ghost use Rattle.std.specs.Prelude.{◌≡◌, ◌↔◌, IfNone, IfSome, IsTrue, List, MatchOption, map, ℕ};
ghost use Rattle.ig_forest_tables.specs.Views.{item_node_view, node_view};
ghost use Rattle.ig_item.specs.Gives.{leaf, nothing, tree};
ghost use Rattle.ig_item.specs.Items.{StandsBefore};
ghost use Rattle.ig_item.specs.Step as step;
ghost use Rattle.ig_item.specs.View.{step_of};
ghost use Rattle.ig_run_tables.specs.Compiled.{expressions_of, form_of};
ghost use Rattle.ig_run_tables.specs.Names.{all_dots};
ghost use Rattle.ig_verify.specs.Code.{shown, shown_key};
ghost use Rattle.ig_verify.specs.Flaws.{AllEntriesHold, BreaksAtEntries, EntriesBreak};
ghost use Rattle.ig_verify.specs.Sound.{ComesFrom, EntriesFollow, EntriesHold, EntryFollows};
ghost use Rattle.ig_verify.specs.Sound.{IsFirst};
ghost use Rattle.ig_verify.specs.Takes.{Takes};

use crate::draft::Draft;
use crate::flaw::Flaw;
use crate::steps::{are_same, bind_leads, call_leads, terminal_leads, test_leads};
use ig_forest_tables::{Child, Entry, ItemNode, Node};
use ig_item::{Behind, Core, Item, Step, behind_is_looked_up, stands_before_one};
use ig_run_tables::{Dots, Known, Qualifiers, known_at};
use ig_text::{Sequence, Span, Text};

/// What entries are looked at with: the forest, the core grammar and the text, and what is known
/// at all dots.
#[derive(Clone, Copy)]
pub(crate) struct Setting<'a> {
    pub draft: &'a Draft,
    pub core: &'a Core,
    pub text: &'a Text,
    pub dots: &'a [Sequence<Dots>],
}

/// The step before which an item stands, and what is known there.
#[derive(Clone, Copy)]
struct Stands<'a> {
    step: &'a Step,
    known: Known<'a>,
}

impl<'a> Setting<'a> {
    /// The step before which the item stands; `None` exactly where it stands before none.
    fn stands(&self, it: &ItemNode<'_>) -> Option<Stands<'a>>
        requires { self.now.dots.now ≡ all_dots self.now.core.now }
        ensures none { IfNone result ((names : List (List ℕ)) (next : step.Step) →
            StandsBefore self.now.core.now (shown it.now) names next → ⊥) }
        ensures before { IfSome result (λ r. StandsBefore self.now.core.now (shown it.now)
            r.known.names.now (step_of r.step.now)) }
        ensures forms { IfSome result (λ r. r.known.forms.now ≡
            map (form_of r.known.names.now) (expressions_of (step_of r.step.now))) }
    {
        behind_is_looked_up();
        match self.core.behind(it.nonterminal, it.alternative, it.dot) {
            Some(Behind::Next(step)) => {
                let place = Item {
                    instance: 0,
                    alternative: it.alternative,
                    dot: it.dot,
                    env: 0,
                    position: 0,
                };
                let Some(known) = known_at(self.dots, it.nonterminal, place) else {
                    unreachable!()
                };
                Some(Stands { step, known })
            }
            Some(Behind::End) => None,
            None => None,
        }
    }

    /// Whether the step behind the first item's dot takes nothing, and leads to the second item.
    fn takes_nothing(&self, it: &ItemNode<'_>, to: &ItemNode<'_>) -> bool
        requires { self.now.dots.now ≡ all_dots self.now.core.now }
        ensures { IsTrue result ↔
            Takes self.now.core.now self.now.text.now (shown it.now) nothing (shown to.now) }
    {
        stands_before_one();
        let Some(Stands { step, known }) = self.stands(it) else {
            return false;
        };
        match step {
            Step::Test(condition) => test_leads(&known, condition, it, to, self.text),
            Step::Bind(name, expression) => bind_leads(&known, name, expression, it, to, self.text),
            Step::Term { .. } => false,
            Step::Call { .. } => false,
        }
    }

    /// Whether the step behind the first item's dot takes the leaf, and leads to the second item.
    fn takes_leaf(&self, it: &ItemNode<'_>, to: &ItemNode<'_>, span: Span) -> bool
        requires { self.now.dots.now ≡ all_dots self.now.core.now }
        ensures { IsTrue result ↔
            Takes self.now.core.now self.now.text.now (shown it.now) (leaf span) (shown to.now) }
    {
        stands_before_one();
        let Some(Stands { step, known }) = self.stands(it) else {
            return false;
        };
        match step {
            Step::Test(_) => false,
            Step::Bind(_, _) => false,
            Step::Term { what, label, not } => {
                let qualifiers = Qualifiers {
                    label,
                    not: not.as_slice(),
                };
                terminal_leads(&known, what, &qualifiers, it, to, span, self.text)
            }
            Step::Call { .. } => false,
        }
    }

    /// Whether the step behind the first item's dot takes the node, and leads to the second item.
    fn takes_node(&self, it: &ItemNode<'_>, to: &ItemNode<'_>, node: &Node<'_>) -> bool
        requires { self.now.dots.now ≡ all_dots self.now.core.now }
        ensures { IsTrue result ↔ Takes self.now.core.now self.now.text.now (shown it.now)
            (tree (shown_key node.now)) (shown to.now) }
    {
        stands_before_one();
        let Some(stands) = self.stands(it) else {
            return false;
        };
        match stands.step {
            Step::Test(_) => false,
            Step::Bind(_, _) => false,
            Step::Term { .. } => false,
            Step::Call {
                nonterminal,
                args,
                label,
                not,
            } => {
                let qualifiers = Qualifiers {
                    label,
                    not: not.as_slice(),
                };
                let callee = *nonterminal;
                let args = args.as_slice();
                call_leads(
                    &stands.known,
                    callee,
                    args,
                    &qualifiers,
                    it,
                    to,
                    node,
                    self.text,
                )
            }
        }
    }

    /// Whether the item follows from the one of that number by a step that takes nothing.
    fn passes(&self, it: &ItemNode<'_>, prev: u32) -> bool
        requires { self.now.dots.now ≡ all_dots self.now.core.now }
        ensures { IsTrue result ↔ ComesFrom self.now.core.now self.now.text.now self.now.draft.now
            (item_node_view it.now) prev nothing }
    {
        match self.draft.item(prev) {
            Some(before) => self.takes_nothing(&before, it),
            None => false,
        }
    }

    /// Whether the item follows from the one of that number by a step that takes the leaf.
    fn takes_span(&self, it: &ItemNode<'_>, prev: u32, span: Span) -> bool
        requires { self.now.dots.now ≡ all_dots self.now.core.now }
        ensures { IsTrue result ↔ ComesFrom self.now.core.now self.now.text.now self.now.draft.now
            (item_node_view it.now) prev (leaf span) }
    {
        match self.draft.item(prev) {
            Some(before) => self.takes_leaf(&before, it, span),
            None => false,
        }
    }

    /// Whether the item follows from the one of that number by a step that takes the node.
    fn takes_tree(&self, it: &ItemNode<'_>, prev: u32, node: &Node<'_>) -> bool
        requires { self.now.dots.now ≡ all_dots self.now.core.now }
        ensures { IsTrue result ↔ ComesFrom self.now.core.now self.now.text.now self.now.draft.now
            (item_node_view it.now) prev (tree (shown_key node.now)) }
    {
        match self.draft.item(prev) {
            Some(before) => self.takes_node(&before, it, node),
            None => false,
        }
    }

    /// Whether the item follows by that entry.
    fn entry_follows(&self, it: &ItemNode<'_>, entry: Entry) -> bool
        requires { self.now.dots.now ≡ all_dots self.now.core.now }
        ensures { IsTrue result ↔ EntryFollows self.now.core.now self.now.text.now
            self.now.draft.now (item_node_view it.now) entry }
    {
        match entry {
            Entry::Begin => it.dot == 0,
            Entry::Pass { prev } => self.passes(it, prev),
            Entry::Take {
                prev,
                child: Child::Leaf(span),
            } => self.takes_span(it, prev, span),
            Entry::Take {
                prev,
                child: Child::Node(v),
            } => match self.draft.node(v) {
                Some(node) => self.takes_tree(it, prev, &node),
                None => false,
            },
        }
    }

    /// Whether the item follows by each of its entries.
    fn entries_follow(&self, it: &ItemNode<'_>) -> bool
        requires { self.now.dots.now ≡ all_dots self.now.core.now }
        ensures { IsTrue result ↔ EntriesFollow self.now.core.now self.now.text.now
            self.now.draft.now (item_node_view it.now) }
    {
        let entries = it.entries;
        for entry in entries {
            if !self.entry_follows(it, *entry) {
                return false;
            }
        }
        true
    }

    /// The rule of entries that is broken at the item, if any.
    fn entries_rule(&self, it: &ItemNode<'_>) -> Option<u32>
        requires { self.now.dots.now ≡ all_dots self.now.core.now }
        ensures { MatchOption result
            (EntriesHold self.now.core.now self.now.text.now self.now.draft.now
            (item_node_view it.now))
            (EntriesBreak self.now.core.now self.now.text.now self.now.draft.now
            (item_node_view it.now)) }
    {
        if it.dot == 0 {
            return if is_first(it) { None } else { Some(4) };
        }
        if self.entries_follow(it) {
            None
        } else {
            Some(5)
        }
    }

    /// The first rule of entries that is broken at an item, if any, with the item.
    pub(crate) fn entries_flaw(&self) -> Option<Flaw>
        requires { self.now.dots.now ≡ all_dots self.now.core.now }
        ensures { MatchOption result
            (AllEntriesHold self.now.core.now self.now.text.now self.now.draft.now)
            (BreaksAtEntries self.now.core.now self.now.text.now self.now.draft.now) }
    {
        for number in 0..self.draft.items() {
            let Some(it) = self.draft.item(number) else {
                unreachable!()
            };
            if let Some(rule) = self.entries_rule(&it) {
                return Some(Flaw {
                    item: true,
                    number,
                    rule,
                });
            }
        }
        None
    }
}

/// Whether the item stands at its start with nothing bound, and begins its alternative.
fn is_first(it: &ItemNode<'_>) -> bool
    ensures { IsTrue result ↔ IsFirst (item_node_view it.now) }
{
    if it.position != it.start || !are_same(it.env, it.values) {
        return false;
    }
    match it.entries {
        [Entry::Begin] => true,
        _ => false,
    }
}
