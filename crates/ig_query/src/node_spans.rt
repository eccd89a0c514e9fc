//! The spans of a declaration's nodes.
ghost use Rattle.std.specs.Prelude.{◌≡◌, ◌↔◌, Contains, IfOk, IsTrue, chars};
ghost use Rattle.ig_forest_tables.specs.Views.{node_view};
ghost use Rattle.ig_forest_tables.specs.declared.entry.Choice.{Choice};
ghost use Rattle.ig_query.specs.Spans.{AreSpansOf, HasSpan, IsOfDeclaration, IsRule};
ghost use Rattle.ig_text.specs.declared.text.Span.{Span};

use ig_forest::{Choice, Forest, Node};
use ig_text::{Sequence, Span, Tag, Word};
use std::alloc::{AllocError, Global};

/// A list of spans.
pub type Spans = Sequence<Span>;

/// The spans of the nodes that have that name and whose alternatives have `Rule` tags, by their
/// begin and then their end, each once. So the root and added nonterminals have none. Refuses only
/// for want of memory.
pub fn spans(alloc: Global, forest: &Forest, name: &str) -> Result<Spans, AllocError>
    ensures { IfOk result (AreSpansOf forest.now (chars name.now)) }
{
    let mut spans = spans_of(alloc, forest, name)?;
    spans.sort_unstable();
    spans.dedup();
    Ok(Spans::from_vec(spans))
}

/// The spans of those nodes, in the order of the nodes.
fn spans_of(alloc: Global, forest: &Forest, name: &str) -> Result<Vec<Span>, AllocError>
    ensures { IfOk result (λ spans. (span : Span) →
        Contains spans.items span ↔ HasSpan forest.now (chars name.now) span) }
{
    let mut spans = Vec::new(alloc);
    for number in 0..forest.nodes() {
        let Some(node) = forest.node(number) else {
            unreachable!()
        };
        if is_of_declaration(&node, name) {
            spans.push(node.span)?;
        }
    }
    Ok(spans)
}

/// Whether the node has that name, and all its alternatives have `Rule` tags.
fn is_of_declaration(node: &Node<'_>, name: &str) -> bool
    ensures { IsTrue result ↔ IsOfDeclaration (chars name.now) (node_view node.now) }
{
    if !spells(node.name, name) {
        return false;
    }
    are_rules(node.alternatives)
}

/// Whether the word is this text.
fn spells(word: &Word, text: &str) -> bool
    ensures { IsTrue result ↔ (word.now ≡ chars text.now) }
{
    word.as_str() == text
}

/// Whether all alternatives have `Rule` tags.
fn are_rules(alternatives: &[Choice]) -> bool
    ensures { IsTrue result ↔
        ((choice : Choice) → Contains alternatives.now choice → IsRule choice.tag) }
{
    for choice in alternatives {
        if !is_rule(choice.tag) {
            return false;
        }
    }
    true
}

/// Whether it is a `Rule` tag.
fn is_rule(tag: Tag) -> bool
    ensures { IsTrue result ↔ IsRule tag }
{
    match tag {
        Tag::Rule { .. } => true,
        Tag::Nil => false,
        Tag::Snoc => false,
        Tag::One => false,
        Tag::More => false,
        Tag::Absent => false,
        Tag::Present => false,
        Tag::GroupAlt { .. } => false,
        Tag::Root => false,
    }
}
