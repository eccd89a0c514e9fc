//! The text of a forest: `forest`, then its nodes with their alternatives, then its items with
//! their entries, one line for each. Each function adds one piece, which is written from its end to
//! its begin, so that numbers go to the output without a copy of their own.

ghost use Rattle.std.specs.Prelude.{◌≡◌, ◌++◌, ◌≤◌, OnOk, encode_utf8_all, codes, length};
ghost use Rattle.std.specs.Prelude.{[], IfOk, flat_map};
ghost use Rattle.std.specs.Fmt.{decimal};
ghost use Rattle.ig_text.specs.Lines.{line_end};
ghost use Rattle.ig_show_texts.specs.Listed.{numbered_texts};
ghost use Rattle.ig_show_texts.specs.ValueText.{places_text, span_text, values_text};
ghost use Rattle.ig_forest_tables.specs.Views.{node_view, item_node_view};
ghost use Rattle.ig_show_texts.specs.ForestText.{choice_text, entry_text};
ghost use Rattle.ig_show_texts.specs.ForestText.{node_line, node_text, place_text, item_line};
ghost use Rattle.ig_show_texts.specs.ForestText.{item_text, heading, forest_text};

use crate::piece::Piece;
use crate::value_lists::{push_environment, push_name, push_values};
use ig_forest_tables::{Child, Choice, Entry, ForestTables, ItemNode, Node};
use ig_text::{Span, Tag, Word};
use std::alloc::{AllocError, Global};

/// The bytes that mostly suffice for a node with one alternative.
const BYTES_OF_NODE: usize = 48;

/// The bytes that mostly suffice for the line of an item.
const BYTES_OF_ITEM: usize = 48;

/// The bytes that mostly suffice for the line of an entry.
const BYTES_OF_ENTRY: usize = 24;

/// Of so many items, one is looked at to tell how many entries there are. The number is odd, since
/// items with few entries often alternate with those that have many.
const ITEMS_OF_SAMPLE: usize = 17;

/// Adds what stands before the values of a node or an item: what it is, its number, and its
/// nonterminal's name.
fn push_head(out: &mut Vec<u8>, what: &[u8], number: u32, name: &Word) -> Result<(), AllocError>
    requires short { length what.now ≤ 8 }
    ensures { OnOk result (out.new.items ≡ out.old.items ++
        (what.now ++ (decimal number ++ (codes " " ++ encode_utf8_all name.now)))) }
{
    let mut piece = Piece::new();
    piece.put_text(b" ");
    piece.put_number(number);
    piece.put_text(what);
    piece.push_to(out)?;
    push_name(out, name)
}

/// Adds the end of the line of an alternative: what stands behind the name or the begin of its tag,
/// and the item.
fn push_numbered(out: &mut Vec<u8>, number: u32, item: u32) -> Result<(), AllocError>
    ensures { OnOk result (out.new.items ≡ out.old.items ++
        (decimal number ++ (codes " " ++ (decimal item ++ line_end)))) }
{
    let mut piece = Piece::new();
    piece.put_text(b"\n");
    piece.put_number(item);
    piece.put_text(b" ");
    piece.put_number(number);
    piece.push_to(out)
}

/// Adds the end of the line of an alternative whose tag has a name alone.
fn push_named(out: &mut Vec<u8>, tag: &[u8], item: u32) -> Result<(), AllocError>
    requires short { length tag.now ≤ 8 }
    ensures { OnOk result (out.new.items ≡ out.old.items ++
        (tag.now ++ (codes " " ++ (decimal item ++ line_end)))) }
{
    let mut piece = Piece::new();
    piece.put_text(b"\n");
    piece.put_number(item);
    piece.put_text(b" ");
    piece.put_text(tag);
    piece.push_to(out)
}

/// Adds the line of an alternative of a node of a nonterminal of that name.
fn push_choice(out: &mut Vec<u8>, name: &Word, choice: Choice) -> Result<(), AllocError>
    ensures { OnOk result (out.new.items ≡ out.old.items ++ choice_text name.now choice) }
{
    out.extend_from_slice(b"alt ")?;
    match choice.tag {
        Tag::Rule { alternative, .. } => {
            push_name(out, name)?;
            out.extend_from_slice(b".")?;
            push_numbered(out, alternative, choice.item)
        }
        Tag::Nil => push_named(out, b"$nil", choice.item),
        Tag::Snoc => push_named(out, b"$snoc", choice.item),
        Tag::One => push_named(out, b"$one", choice.item),
        Tag::More => push_named(out, b"$more", choice.item),
        Tag::Absent => push_named(out, b"$none", choice.item),
        Tag::Present => push_named(out, b"$some", choice.item),
        Tag::GroupAlt { number } => {
            out.extend_from_slice(b"$group.")?;
            push_numbered(out, number, choice.item)
        }
        Tag::Root => push_named(out, b"$root", choice.item),
    }
}

/// Adds the line of an entry whose step took no tree.
fn push_pass(out: &mut Vec<u8>, prev: u32) -> Result<(), AllocError>
    ensures { OnOk result (out.new.items ≡ out.old.items ++
        (codes "pass " ++ (decimal prev ++ line_end))) }
{
    let mut piece = Piece::new();
    piece.put_text(b"\n");
    piece.put_number(prev);
    piece.put_text(b"pass ");
    piece.push_to(out)
}

/// Adds the line of an entry whose step took a node.
fn push_node_taken(out: &mut Vec<u8>, prev: u32, node: u32) -> Result<(), AllocError>
    ensures { OnOk result (out.new.items ≡ out.old.items ++
        (codes "take " ++ (decimal prev ++ (codes " node " ++ (decimal node ++ line_end))))) }
{
    let mut piece = Piece::new();
    piece.put_text(b"\n");
    piece.put_number(node);
    piece.put_text(b" node ");
    piece.put_number(prev);
    piece.put_text(b"take ");
    piece.push_to(out)
}

/// Adds the line of an entry whose step took a leaf.
fn push_leaf_taken(out: &mut Vec<u8>, prev: u32, leaf: Span) -> Result<(), AllocError>
    ensures { OnOk result (out.new.items ≡ out.old.items ++
        (codes "take " ++ (decimal prev ++ (codes " leaf " ++ (span_text leaf ++ line_end))))) }
{
    let mut piece = Piece::new();
    piece.put_text(b"\n");
    piece.put_places(leaf.begin, leaf.end);
    piece.put_text(b" leaf ");
    piece.put_number(prev);
    piece.put_text(b"take ");
    piece.push_to(out)
}

/// Adds the line of an entry.
fn push_entry(out: &mut Vec<u8>, entry: Entry) -> Result<(), AllocError>
    ensures { OnOk result (out.new.items ≡ out.old.items ++ entry_text entry) }
{
    match entry {
        Entry::Begin => out.extend_from_slice(b"begin\n"),
        Entry::Pass { prev } => push_pass(out, prev),
        Entry::Take {
            prev,
            child: Child::Node(node),
        } => push_node_taken(out, prev, node),
        Entry::Take {
            prev,
            child: Child::Leaf(leaf),
        } => push_leaf_taken(out, prev, leaf),
    }
}

/// Adds the lines of the alternatives of a node of a nonterminal of that name.
fn push_choices(out: &mut Vec<u8>, name: &Word, choices: &[Choice]) -> Result<(), AllocError>
    ensures { OnOk result (out.new.items ≡ out.old.items ++
        flat_map (choice_text name.now) choices.now) }
{
    for choice in choices {
        push_choice(out, name, *choice)?;
    }
    Ok(())
}

/// Adds the end of a line: the positions where a span begins and ends.
fn push_last_places(out: &mut Vec<u8>, begin: u32, end: u32) -> Result<(), AllocError>
    ensures { OnOk result (out.new.items ≡ out.old.items ++
        (places_text begin end ++ line_end)) }
{
    let mut piece = Piece::new();
    piece.put_text(b"\n");
    piece.put_places(begin, end);
    piece.push_to(out)
}

/// Adds the line of the node of that number.
fn push_node_line(out: &mut Vec<u8>, number: u32, node: &Node<'_>) -> Result<(), AllocError>
    ensures { OnOk result (out.new.items ≡ out.old.items ++
        node_line number (node_view node.now)) }
{
    push_head(out, b"node ", number, node.name)?;
    push_values(out, node.values)?;
    push_last_places(out, node.span.begin, node.span.end)
}

/// Adds the line of the node of that number, and a line for each of its alternatives. Refuses only
/// for want of memory.
pub fn push_node(out: &mut Vec<u8>, number: u32, node: &Node<'_>) -> Result<(), AllocError>
    ensures { OnOk result (out.new.items ≡ out.old.items ++
        node_text number (node_view node.now)) }
{
    push_node_line(out, number, node)?;
    push_choices(out, node.name, node.alternatives)
}

/// Adds the lines of entries.
fn push_entries(out: &mut Vec<u8>, entries: &[Entry]) -> Result<(), AllocError>
    ensures { OnOk result (out.new.items ≡ out.old.items ++ flat_map entry_text entries.now) }
{
    for entry in entries {
        push_entry(out, *entry)?;
    }
    Ok(())
}

/// Adds an alternative and a dot.
fn push_dotted(out: &mut Vec<u8>, alternative: u32, dot: u32) -> Result<(), AllocError>
    ensures { OnOk result (out.new.items ≡ out.old.items ++
        (decimal alternative ++ (codes " " ++ decimal dot))) }
{
    let mut piece = Piece::new();
    piece.put_number(dot);
    piece.put_text(b" ");
    piece.put_number(alternative);
    piece.push_to(out)
}

/// Adds the end of the line of an item without values.
fn push_plain_place(
    out: &mut Vec<u8>,
    alternative: u32,
    dot: u32,
    start: u32,
    position: u32,
) -> Result<(), AllocError>
    ensures { OnOk result (out.new.items ≡ out.old.items ++
        (codes " () " ++ (decimal alternative ++ (codes " " ++ (decimal dot ++ (codes " [] " ++
        (places_text start position ++ line_end))))))) }
{
    let mut piece = Piece::new();
    piece.put_text(b"\n");
    piece.put_places(start, position);
    piece.put_text(b" [] ");
    piece.put_number(dot);
    piece.put_text(b" ");
    piece.put_number(alternative);
    piece.put_text(b" () ");
    piece.push_to(out)
}

/// Adds the end of the line of an item, behind its nonterminal's name.
fn push_place(out: &mut Vec<u8>, item: &ItemNode<'_>) -> Result<(), AllocError>
    ensures { OnOk result (out.new.items ≡ out.old.items ++
        (codes " " ++ (values_text item.now.values.now ++ (codes " " ++
        (place_text (item_node_view item.now) ++ line_end))))) }
{
    if item.env.is_empty() && item.values.is_empty() {
        return push_plain_place(out, item.alternative, item.dot, item.start, item.position);
    }
    push_values(out, item.values)?;
    push_dotted(out, item.alternative, item.dot)?;
    push_environment(out, item.values, item.env)?;
    push_last_places(out, item.start, item.position)
}

/// Adds the line of the item of that number.
fn push_item_line(out: &mut Vec<u8>, number: u32, item: &ItemNode<'_>) -> Result<(), AllocError>
    ensures { OnOk result (out.new.items ≡ out.old.items ++
        item_line number (item_node_view item.now)) }
{
    push_head(out, b"item ", number, item.name)?;
    push_place(out, item)
}

/// Adds the line of the item of that number, and a line for each of its entries. Refuses only for
/// want of memory.
pub fn push_item(out: &mut Vec<u8>, number: u32, item: &ItemNode<'_>) -> Result<(), AllocError>
    ensures { OnOk result (out.new.items ≡ out.old.items ++
        item_text number (item_node_view item.now)) }
{
    push_item_line(out, number, item)?;
    push_entries(out, item.entries)
}

/// Adds the first line, with the numbers of nodes and items. Refuses only for want of memory.
pub fn push_heading(out: &mut Vec<u8>, forest: &ForestTables) -> Result<(), AllocError>
    ensures { OnOk result (out.new.items ≡ out.old.items ++ heading forest.now) }
{
    let nodes = forest.nodes();
    let items = forest.items();
    let mut piece = Piece::new();
    piece.put_text(b"\n");
    piece.put_number(items);
    piece.put_text(b" ");
    piece.put_number(nodes);
    piece.put_text(b"forest ");
    piece.push_to(out)
}

/// Adds the nodes, which are numbered from 0.
fn push_nodes(out: &mut Vec<u8>, forest: &ForestTables) -> Result<(), AllocError>
    ensures { OnOk result (out.new.items ≡ out.old.items ++
        numbered_texts node_text 0 forest.now.nodes) }
{
    for number in 0..forest.nodes() {
        let Some(node) = forest.node(number) else {
            unreachable!()
        };
        push_node(out, number, &node)?;
    }
    Ok(())
}

/// Adds the items, which are numbered from 0.
fn push_items(out: &mut Vec<u8>, forest: &ForestTables) -> Result<(), AllocError>
    ensures { OnOk result (out.new.items ≡ out.old.items ++
        numbered_texts item_text 0 forest.now.items) }
{
    for number in 0..forest.items() {
        let Some(item) = forest.item(number) else {
            unreachable!()
        };
        push_item(out, number, &item)?;
    }
    Ok(())
}

/// How many bytes mostly suffice for the text of a forest. Only time and memory rest on it: where
/// they don't suffice, the output grows.
fn room_for(forest: &ForestTables) -> usize {
    let nodes = (forest.nodes() as usize).saturating_mul(BYTES_OF_NODE);
    let items = (forest.items() as usize).saturating_mul(BYTES_OF_ITEM);
    let entries = sampled_entries(forest).saturating_mul(BYTES_OF_ENTRY);
    nodes.saturating_add(items).saturating_add(entries)
}

/// About how many entries the items of a forest have.
fn sampled_entries(forest: &ForestTables) -> usize {
    let mut entries: usize = 0;
    for number in (0..forest.items()).step_by(ITEMS_OF_SAMPLE) {
        if let Some(item) = forest.item(number) {
            entries = entries.saturating_add(item.entries.len());
        }
    }
    entries.saturating_mul(ITEMS_OF_SAMPLE)
}

/// An output with so much room, or with none where memory hasn't that much at once: it then grows.
fn output_of(alloc: Global, room: usize) -> Vec<u8>
    ensures { result.items ≡ [] }
{
    match Vec::with_capacity(alloc, room) {
        Ok(out) => out,
        Err(_) => Vec::new(alloc),
    }
}

/// The text of a forest, as UTF-8: the numbers of its nodes and items, then a line for each node
/// and for each of its alternatives, then a line for each item and for each of its entries. Nodes
/// and items are numbered from 0, and a span is printed as the positions where it begins and ends,
/// in characters from 0. Refuses only for want of memory.
pub fn show_forest(alloc: Global, forest: &ForestTables) -> Result<Vec<u8>, AllocError>
    ensures { IfOk result (λ bytes. bytes.items ≡ forest_text forest.now) }
{
    let mut out = output_of(alloc, room_for(forest));
    push_heading(&mut out, forest)?;
    push_nodes(&mut out, forest)?;
    push_items(&mut out, forest)?;
    Ok(out)
}
