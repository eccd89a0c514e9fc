//! Answers to questions on a forest.
ghost use Rattle.std.specs.Prelude.{◌≡◌, IfOk, chars};
ghost use Rattle.std.specs.Option.{option_copied};
ghost use Rattle.ig_parse.specs.Parses.{AreReachable};
ghost use Rattle.ig_show_trees.specs.QueryText.{spans_text};
ghost use Rattle.ig_command.specs.Commands.{stored_question};
ghost use Rattle.ig_command_answers.specs.Questions.{IsWanted, Tells, TellsAmbiguous, TellsCyclic};
ghost use Rattle.ig_command_answers.specs.Questions.{TellsReport, TellsSpans};

use ig_command::Question;
use ig_forest::Forest;
use ig_grammar::Checked;
use ig_heights::Heights;
use ig_item::Items;
use ig_parse::Parser;
use ig_query::{Spans, ambiguous_nodes, spans};
use ig_show_trees::{show_ambiguous, show_cyclic, show_furthest, show_spans};
use ig_text::Text;
use std::alloc::{AllocError, Global};

/// The text of the answer to a question on the forest of the parser's grammar and the input, whose
/// reachable items these are. Refuses only for want of memory.
pub fn answer_text(
    alloc: Global,
    parser: &Parser<'_>,
    input: &Text,
    items: &Items,
    forest: &Forest,
    question: Question<'_>,
) -> Result<Vec<u8>, AllocError>
    requires reachable { AreReachable parser.now input.now items.now }
    ensures { IfOk result (λ text. Tells parser.now input.now forest.now
        (stored_question question.entry) text.items) }
{
    match question {
        Question::Ambiguous => tell_ambiguous(alloc, forest),
        Question::Cyclic => tell_cyclic(alloc, forest),
        Question::Spans { name } => tell_spans(alloc, parser.grammar(), forest, name),
        Question::Report => tell_report(alloc, parser, input, items),
    }
}

/// The lines of the ambiguous nodes.
fn tell_ambiguous(alloc: Global, forest: &Forest) -> Result<Vec<u8>, AllocError>
    ensures { IfOk result (λ text. TellsAmbiguous forest.now text.items) }
{
    let nodes = ambiguous_nodes(alloc, forest)?;
    show_ambiguous(alloc, forest, nodes.as_slice())
}

/// Whether the forest has a higher tree than each.
fn tell_cyclic(alloc: Global, forest: &Forest) -> Result<Vec<u8>, AllocError>
    ensures { IfOk result (λ text. TellsCyclic forest.now text.items) }
{
    let heights = Heights::of(alloc, forest)?;
    show_cyclic(alloc, heights.is_cyclic())
}

/// The spans of the declaration of that name, or of the start symbol.
fn tell_spans(
    alloc: Global,
    checked: &Checked,
    forest: &Forest,
    name: Option<&str>,
) -> Result<Vec<u8>, AllocError>
    ensures { IfOk result (λ text. TellsSpans checked.now forest.now (option_copied name.entry)
        text.items) }
{
    let found = spans(alloc, forest, wanted_name(checked, name))?;
    span_lines(alloc, &found)
}

/// The lines of these spans.
fn span_lines(alloc: Global, found: &Spans) -> Result<Vec<u8>, AllocError>
    ensures { IfOk result (λ text. text.items ≡ spans_text found.now) }
{
    show_spans(alloc, found.as_slice())
}

/// The name, or that of the start symbol where none is given.
fn wanted_name<'a>(checked: &'a Checked, name: Option<&'a str>) -> &'a str
    ensures { IsWanted checked.now (option_copied name.entry) (chars result.now) }
{
    if let Some(name) = name {
        return name;
    }
    let grammar = checked.grammar();
    let Some(start) = &grammar.start else {
        unreachable!()
    };
    start.as_str()
}

/// How far the items came in the input.
fn tell_report(
    alloc: Global,
    parser: &Parser<'_>,
    input: &Text,
    items: &Items,
) -> Result<Vec<u8>, AllocError>
    requires reachable { AreReachable parser.now input.now items.now }
    ensures { IfOk result (λ text. TellsReport parser.now input.now text.items) }
{
    let report = parser.report(alloc, items, input)?;
    show_furthest(alloc, &report)
}
