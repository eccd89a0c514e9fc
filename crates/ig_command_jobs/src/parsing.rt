//! Running a grammar on an input.
ghost use Rattle.std.specs.Prelude.{◌≡◌, ℕ};
ghost use Rattle.ig_core.specs.Lowered.{CoreOf, IsBuildable};
ghost use Rattle.ig_core.specs.Notation.{unchanged};
ghost use Rattle.ig_parse.specs.Parses.{IsOver};
ghost use Rattle.ig_command_jobs.specs.Jobs.{stored_job};
ghost use Rattle.ig_command_jobs.specs.Texts.{ParsesText, Prepares, TellsPlace};

use crate::finish::finish;
use crate::job::Job;
use ig_command_endings::{Stop, no_parse, over_budget, refuse};
use ig_core::CoreFault;
use ig_forest::{cursors_are_short, tags_name_nonterminals};
use ig_grammar::Checked;
use ig_heights::depths_are_heights;
use ig_item::{Recorded, RunFault};
use ig_parse::{
    Parser, ambiguity_is_two_permitted, cyclic_is_without_highest, spans_are_of_declarations,
};
use ig_queue::Order;
use ig_show_trees::{Report, show_report};
use ig_text::Text;
use std::alloc::Global;

/// The parser of the grammar, which no pass has changed.
///
/// Stops with the status `Grammar` exactly where its core grammar has more dots than one may have,
/// or for want of memory.
pub fn parser_of(alloc: Global, checked: &Checked) -> Result<Parser<'_>, Stop>
    requires as_it_is { checked.now ≡ unchanged checked.now.grammar }
    requires buildable { IsBuildable checked.now }
    ensures { Prepares checked.now.grammar result }
{
    match Parser::of(alloc, checked) {
        Ok(parser) => Ok(parser),
        Err(CoreFault::TooManyDots) => Err(refuse(alloc, b"too many dots")),
        Err(CoreFault::Memory) => Err(Stop::Memory),
    }
}

/// What comes of a job by the forest of the parser's grammar, which no pass has changed, and the
/// input. The items are taken in that order, which changes nothing.
///
/// Stops with the status `Budget` exactly where more items are reachable than the budget; with
/// `NoParse` exactly where no tree is permitted; with `DepthNeeded` or `BadCursor` where a listing
/// has no text; or for want of memory.
pub fn parse(
    alloc: Global,
    parser: &Parser<'_>,
    input: &Text,
    budget: u32,
    order: Order,
    job: Job<'_>,
) -> Result<Vec<u8>, Stop>
    requires as_it_is { parser.now ≡ unchanged parser.now.grammar }
    ensures { ParsesText parser.now input.now budget (stored_job job.entry) result }
{
    match parser.run(alloc, input, budget, order) {
        Ok(recorded) => parse_recorded(alloc, parser, input, recorded, job),
        Err(RunFault::Budget) => Err(over_budget(alloc, budget)),
        Err(RunFault::Memory) => Err(Stop::Memory),
    }
}

/// The same, from what was recorded of the parser's core grammar and the input, under each budget
/// that suffices. Stops as [`parse`] does, but never with the status `Budget`.
pub fn parse_recorded(
    alloc: Global,
    parser: &Parser<'_>,
    input: &Text,
    recorded: Recorded<'_>,
    job: Job<'_>,
) -> Result<Vec<u8>, Stop>
    requires as_it_is { parser.now ≡ unchanged parser.now.grammar }
    requires core { recorded.core ≡ CoreOf parser.now }
    requires text { recorded.text ≡ input.now }
    ensures { (budget : ℕ) → (IsOver parser.now input.now budget → ⊥) →
        ParsesText parser.now input.now budget (stored_job job.entry) result }
{
    ambiguity_is_two_permitted();
    cyclic_is_without_highest();
    spans_are_of_declarations();
    depths_are_heights();
    tags_name_nonterminals();
    let core = parser.core();
    let _nonterminals = core.nonterminals();
    let Some(forest) = parser.forest(alloc, &recorded)? else {
        let report = parser.report(alloc, recorded.items(), input)?;
        return Err(unparsed(alloc, &report));
    };
    let _root = forest.root();
    cursors_are_short(&forest);
    finish(alloc, parser, input, recorded.into_items(), &forest, job)
}

/// No tree is permitted, as far as the report tells.
fn unparsed(alloc: Global, report: &Report) -> Stop
    ensures { TellsPlace report.now result }
{
    match show_report(alloc, report) {
        Ok(place) => no_parse(alloc, place.as_slice()),
        Err(error) => Stop::from(error),
    }
}
