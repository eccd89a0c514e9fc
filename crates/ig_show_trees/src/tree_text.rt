//! The text of a tree: a part after the other, and a bracket closed once all children of its node
//! are written. What is still to come of each open node is kept on a stack.

ghost use Rattle.std.specs.Prelude.{◌≡◌, ◌++◌, ◌<◌, ℕ, Some, OnOk, IfOk, length, reverse};
ghost use Rattle.std.specs.Prelude.{string_bytes, vec_items};
ghost use Rattle.ig_text.specs.Tree.{Tree};
ghost use Rattle.ig_text.specs.declared.tag.Tag.TheVariants.{Rule};
ghost use Rattle.ig_forest.specs.Flat.{flat};
ghost use Rattle.ig_forest.specs.Tags.{TagsAreNamed};
ghost use Rattle.ig_show_texts.specs.TagText.{tag_text};
ghost use Rattle.ig_show_texts.specs.ValueText.{places_text};
ghost use Rattle.ig_show_trees.specs.TreeText.{head_text, name_for, tree_text};
ghost use Rattle.ig_show_trees.specs.Nesting.{closing, opened, left_open, part_text};

use ig_forest::{Part, Tree};
use ig_item::Core;
use ig_show_texts::{push_nameless, push_number, push_tag};
use ig_text::{Span, Tag};
use std::alloc::{AllocError, Global};

/// Adds a tag, with the name of the nonterminal of which it has the number.
fn push_core_tag(out: &mut String, core: &Core, tag: Tag) -> Result<(), AllocError>
    requires { (n k : ℕ) → tag ≡ Rule n k → n < length core.now }
    ensures { OnOk result (string_bytes out.new ≡ string_bytes out.old ++
        tag_text (name_for core.now tag) tag) }
{
    let Tag::Rule { nonterminal, .. } = tag else {
        return push_nameless(out, tag);
    };
    let Some(name) = core.name(nonterminal) else {
        unreachable!()
    };
    push_tag(out, name, tag)
}

/// Adds two positions, as those where a span begins and ends.
#[inline(always)]
fn push_places(out: &mut String, begin: u32, end: u32) -> Result<(), AllocError>
    ensures { OnOk result (string_bytes out.new ≡ string_bytes out.old ++ places_text begin end) }
{
    push_number(out, begin)?;
    out.push_str("..")?;
    push_number(out, end)
}

/// Adds a bracket, the tag and the span of a node.
fn push_head(out: &mut String, core: &Core, tag: Tag, span: Span) -> Result<(), AllocError>
    requires { (n k : ℕ) → tag ≡ Rule n k → n < length core.now }
    ensures { OnOk result (string_bytes out.new ≡ string_bytes out.old ++
        head_text core.now tag span.begin span.end) }
{
    out.push_str("(")?;
    push_core_tag(out, core, tag)?;
    out.push_str(" ")?;
    push_places(out, span.begin, span.end)
}

/// Adds a part without its children, which are still to come.
fn push_part(
    out: &mut String,
    counts: &mut Vec<u32>,
    core: &Core,
    part: Part,
) -> Result<(), AllocError>
    requires { (n k : ℕ) → part.tag ≡ Some (Rule n k) → n < length core.now }
    ensures text { OnOk result (string_bytes out.new ≡ string_bytes out.old ++
        part_text core.now part) }
    ensures stack { OnOk result (reverse (vec_items counts.new) ≡
        opened part (reverse (vec_items counts.old))) }
{
    let Some(tag) = part.tag else {
        return push_places(out, part.span.begin, part.span.end);
    };
    push_head(out, core, tag, part.span)?;
    counts.push(part.children)?;
    Ok(())
}

/// Closes the nodes of which no child is still to come, up to one that has a next child.
fn close(out: &mut String, counts: &mut Vec<u32>) -> Result<(), AllocError>
    ensures text { OnOk result (string_bytes out.new ≡ string_bytes out.old ++
        closing (reverse (vec_items counts.old))) }
    ensures stack { OnOk result (reverse (vec_items counts.new) ≡
        left_open (reverse (vec_items counts.old))) }
{
    while let Some(children) = counts.pop() {
        if children > 0 {
            counts.push(children - 1)?;
            return out.push_str(" ");
        }
        out.push_str(")")?;
    }
    Ok(())
}

/// Adds the text of a tree, as UTF-8: of a leaf its span, of a node in parentheses its tag, its
/// span and its children. A span is printed as the positions where it begins and ends, in
/// characters from 0; the tag of a declaration's alternative has the name of its nonterminal in the
/// core grammar. Refuses only for want of memory.
pub fn push_tree(
    alloc: Global,
    out: &mut String,
    tree: &Tree,
    core: &Core,
) -> Result<(), AllocError>
    requires named { TagsAreNamed core.now tree.now }
    ensures { (t : Tree) → tree.now ≡ flat t →
        OnOk result (string_bytes out.new ≡ string_bytes out.old ++ tree_text core.now t) }
{
    let mut counts = Vec::new(alloc);
    for part in tree.as_slice() {
        push_part(out, &mut counts, core, *part)?;
        close(out, &mut counts)?;
    }
    Ok(())
}

/// The text of a tree, as UTF-8, as `push_tree` adds it. Refuses only for want of memory.
pub fn show_tree(alloc: Global, tree: &Tree, core: &Core) -> Result<Vec<u8>, AllocError>
    requires named { TagsAreNamed core.now tree.now }
    ensures { (t : Tree) → tree.now ≡ flat t →
        IfOk result (λ bytes. bytes.items ≡ tree_text core.now t) }
{
    let mut out = String::new(alloc);
    push_tree(alloc, &mut out, tree, core)?;
    Ok(out.into_bytes())
}
