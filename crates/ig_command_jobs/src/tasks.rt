//! What comes of a task with a grammar.
ghost use Rattle.std.specs.Prelude.{◌≡◌};
ghost use Rattle.ig_core.specs.Notation.{unchanged};
ghost use Rattle.ig_command.specs.declared.command.Notation.TheVariants.{Own, W3c};
ghost use Rattle.ig_w3c_syntax.specs.Notation.{HasReading};
ghost use Rattle.ig_command_jobs.specs.Tasks.{DoesTask, IsSayable, SaysFacts, SaysOk, ShowsCore};
ghost use Rattle.ig_command_jobs.specs.Tasks.{ShowsGrammar};

use crate::job::Task;
use ig_analyse::analyse;
use ig_command::Notation;
use ig_command_endings::Stop;
use ig_grammar::Grammar;
use ig_parse::Parser;
use ig_show::show_grammar;
use ig_show_texts::{show_core, show_facts};
use ig_w3c::show_w3c;
use std::alloc::Global;

/// What comes of a task with the parser's grammar, which no pass has changed and which was read in
/// this notation. Stops for want of memory alone.
pub fn do_task(
    alloc: Global,
    parser: &Parser<'_>,
    notation: Notation,
    task: Task,
) -> Result<Vec<u8>, Stop>
    requires as_it_is { parser.now ≡ unchanged parser.now.grammar }
    requires sayable { IsSayable notation parser.now.grammar }
    ensures { DoesTask parser.now.grammar notation task result }
{
    match task {
        Task::Check => say_ok(alloc),
        Task::Show => show(alloc, parser.grammar().grammar(), notation),
        Task::Core => shown_core(alloc, parser),
        Task::Analyse => facts(alloc, parser),
    }
}

/// The text that says that a grammar is accepted.
fn say_ok(alloc: Global) -> Result<Vec<u8>, Stop>
    ensures { SaysOk result }
{
    let text = Vec::from_slice(alloc, b"ok\n")?;
    Ok(text)
}

/// The text of the grammar in this notation.
fn show(alloc: Global, grammar: &Grammar, notation: Notation) -> Result<Vec<u8>, Stop>
    requires { IsSayable notation grammar.now }
    ensures { ShowsGrammar notation grammar.now result }
{
    match notation {
        Notation::Own => show_in_own(alloc, grammar),
        Notation::W3c => show_in_w3c(alloc, grammar),
    }
}

/// Its canonical text.
fn show_in_own(alloc: Global, grammar: &Grammar) -> Result<Vec<u8>, Stop>
    ensures { ShowsGrammar Own grammar.now result }
{
    let text = show_grammar(alloc, grammar)?;
    Ok(text)
}

/// Its text in the notation of the XML recommendation.
fn show_in_w3c(alloc: Global, grammar: &Grammar) -> Result<Vec<u8>, Stop>
    requires { HasReading grammar.now }
    ensures { ShowsGrammar W3c grammar.now result }
{
    let text = show_w3c(alloc, grammar)?;
    Ok(text)
}

/// The text of the parser's core grammar.
fn shown_core(alloc: Global, parser: &Parser<'_>) -> Result<Vec<u8>, Stop>
    ensures { ShowsCore parser.now result }
{
    let text = show_core(alloc, parser.core())?;
    Ok(text)
}

/// The text of the facts of the parser's core grammar.
fn facts(alloc: Global, parser: &Parser<'_>) -> Result<Vec<u8>, Stop>
    ensures { SaysFacts parser.now result }
{
    let facts = analyse(alloc, parser.core())?;
    let text = show_facts(alloc, &parser.grammar().grammar().decls, &facts)?;
    Ok(text)
}
