//! The texts of what queries answer, in lines.

ghost use Rattle.std.specs.Prelude.{◌≡◌, ◌++◌, IfOk, OnOk, slice_get};
ghost use Rattle.ig_forest_tables.specs.Views.{node_view};
ghost use Rattle.ig_show_trees.specs.QueryText.{IsFurthestLine, ambiguous_text, cyclic_text};
ghost use Rattle.ig_show_trees.specs.QueryText.{key_line};
ghost use Rattle.ig_show_trees.specs.QueryText.{line_if_there, node_lines, spans_text};

use crate::report::{Report, push_place};
use ig_forest::{Forest, Node};
use ig_show_texts::{push_name, push_places, push_values};
use ig_text::Span;
use std::alloc::{AllocError, Global};

/// Whether a forest is ambiguous, and the nodes of these numbers, which are its ambiguous ones, as
/// UTF-8: the line `ambiguous no` where there are none; else the line `ambiguous yes`, then a line
/// for each node, with its name, its values and its span. A number that isn't there has no line.
/// Refuses only for want of memory.
pub fn show_ambiguous(alloc: Global, forest: &Forest, nodes: &[u32]) -> Result<Vec<u8>, AllocError>
    ensures { IfOk result (λ bytes. bytes.items ≡ ambiguous_text forest.now nodes.now) }
{
    let mut out = Vec::new(alloc);
    push_ambiguous(&mut out, forest, nodes)?;
    Ok(out)
}

/// Adds whether there are ambiguous nodes, and their lines.
fn push_ambiguous(out: &mut Vec<u8>, forest: &Forest, nodes: &[u32]) -> Result<(), AllocError>
    ensures { OnOk result (out.new.items ≡ out.old.items ++
        ambiguous_text forest.now nodes.now) }
{
    if nodes.is_empty() {
        return out.extend_from_slice(b"ambiguous no\n");
    }
    out.extend_from_slice(b"ambiguous yes\n")?;
    push_nodes(out, forest, nodes)
}

/// Adds the lines of the nodes of these numbers.
fn push_nodes(out: &mut Vec<u8>, forest: &Forest, nodes: &[u32]) -> Result<(), AllocError>
    ensures { OnOk result (out.new.items ≡ out.old.items ++
        node_lines forest.now nodes.now) }
{
    for number in nodes {
        push_node(out, forest, *number)?;
    }
    Ok(())
}

/// Adds the line of the node of that number, where it is there.
fn push_node(out: &mut Vec<u8>, forest: &Forest, number: u32) -> Result<(), AllocError>
    ensures { OnOk result (out.new.items ≡ out.old.items ++
        line_if_there (slice_get forest.now.nodes number)) }
{
    match forest.node(number) {
        Some(node) => push_key(out, &node),
        None => Ok(()),
    }
}

/// Adds the line of a node: its name, its values and its span.
fn push_key(out: &mut Vec<u8>, node: &Node<'_>) -> Result<(), AllocError>
    ensures { OnOk result (out.new.items ≡ out.old.items ++
        key_line (node_view node.now)) }
{
    push_name(out, node.name)?;
    push_values(out, node.values)?;
    push_places(out, node.span.begin, node.span.end)?;
    out.extend_from_slice(b"\n")
}

/// The line `cyclic yes` or `cyclic no`, as UTF-8. Refuses only for want of memory.
pub fn show_cyclic(alloc: Global, cyclic: bool) -> Result<Vec<u8>, AllocError>
    ensures { IfOk result (λ bytes. bytes.items ≡ cyclic_text cyclic) }
{
    let mut out = Vec::new(alloc);
    if cyclic {
        out.extend_from_slice(b"cyclic yes\n")?;
    } else {
        out.extend_from_slice(b"cyclic no\n")?;
    }
    Ok(out)
}

/// A line for each span, as UTF-8: the positions where it begins and ends, in characters from 0.
/// Refuses only for want of memory.
pub fn show_spans(alloc: Global, spans: &[Span]) -> Result<Vec<u8>, AllocError>
    ensures { IfOk result (λ bytes. bytes.items ≡ spans_text spans.now) }
{
    let mut out = Vec::new(alloc);
    push_spans(&mut out, spans)?;
    Ok(out)
}

/// Adds the lines of spans.
fn push_spans(out: &mut Vec<u8>, spans: &[Span]) -> Result<(), AllocError>
    ensures { OnOk result (out.new.items ≡ out.old.items ++ spans_text spans.now) }
{
    for span in spans {
        push_places(out, span.begin, span.end)?;
        out.extend_from_slice(b"\n")?;
    }
    Ok(())
}

/// The line `furthest at ` and the text of the report, as UTF-8. Refuses only for want of memory.
pub fn show_furthest(alloc: Global, report: &Report) -> Result<Vec<u8>, AllocError>
    ensures { IfOk result (λ bytes. IsFurthestLine report.now bytes.items) }
{
    let mut out = String::new(alloc);
    out.push_str("furthest at ")?;
    push_place(alloc, &mut out, report)?;
    out.push_str("\n")?;
    Ok(out.into_bytes())
}
