//! What comes of a job by a forest.
ghost use Rattle.ig_core.specs.Lowered.{CoreOf};
ghost use Rattle.ig_parse.specs.Parses.{AreReachable};
ghost use Rattle.ig_command.specs.Commands.{stored_listing, stored_question};
ghost use Rattle.ig_command_answers.specs.Pages.{IsPrintable};
ghost use Rattle.ig_command_jobs.specs.Jobs.{stored_job};
ghost use Rattle.ig_command_jobs.specs.Pages.{ComesOf, GivesAnswer, ListsPage};
ghost use Rattle.ig_command_jobs.specs.Texts.{ShowsForest};

use crate::job::Job;
use ig_command::{Listing, Question};
use ig_command_answers::{ListFault, answer_text, list};
use ig_command_endings::{Stop, depth_needed, no_cursor};
use ig_forest::Forest;
use ig_item::{Core, Items};
use ig_parse::Parser;
use ig_show_texts::show_forest;
use ig_text::Text;
use std::alloc::Global;

/// What comes of a job by the forest of the parser's grammar and the input, whose reachable items
/// these are. They are many, so they go before a text is made that doesn't tell of them.
pub(crate) fn finish(
    alloc: Global,
    parser: &Parser<'_>,
    input: &Text,
    items: Items,
    forest: &Forest,
    job: Job<'_>,
) -> Result<Vec<u8>, Stop>
    requires reachable { AreReachable parser.now input.now items }
    requires printable { IsPrintable (CoreOf parser.now) forest.now }
    ensures { ComesOf parser.now input.now forest.now (stored_job job.entry) result }
{
    match job {
        Job::Print => {
            drop(items);
            show(alloc, forest)
        }
        Job::List(listing) => list_page(alloc, parser.core(), forest, listing),
        Job::Ask(question) => answer(alloc, parser, input, &items, forest, question),
    }
}

/// The text of the forest.
fn show(alloc: Global, forest: &Forest) -> Result<Vec<u8>, Stop>
    ensures { ShowsForest forest.now result }
{
    let text = show_forest(alloc, forest.tables())?;
    Ok(text)
}

/// The text of a listing of the forest's trees. Without a depth, one is wanted where there is no
/// highest tree; the word of a cursor has to be that of a tree that may be listed.
fn list_page(
    alloc: Global,
    core: &Core,
    forest: &Forest,
    listing: Listing<'_>,
) -> Result<Vec<u8>, Stop>
    requires printable { IsPrintable core.now forest.now }
    ensures { ListsPage core.now forest.now (stored_listing listing.entry) result }
{
    match list(alloc, core, forest, listing) {
        Ok(text) => Ok(text),
        Err(ListFault::DepthNeeded) => Err(depth_needed(alloc)),
        Err(ListFault::NoCursor) => Err(no_cursor(alloc)),
        Err(ListFault::Memory) => Err(Stop::Memory),
    }
}

/// The answer to a question on the forest of the parser's grammar and the input, whose reachable
/// items these are.
fn answer(
    alloc: Global,
    parser: &Parser<'_>,
    input: &Text,
    items: &Items,
    forest: &Forest,
    question: Question<'_>,
) -> Result<Vec<u8>, Stop>
    requires reachable { AreReachable parser.now input.now items.now }
    ensures { GivesAnswer parser.now input.now forest.now (stored_question question.entry)
        result }
{
    let told = answer_text(alloc, parser, input, items, forest, question)?;
    Ok(told)
}
