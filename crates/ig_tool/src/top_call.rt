//! The top call.
ghost use Rattle.std.specs.Prelude.{◌≡◌, ℕ, List, map, string_bytes};
ghost use Rattle.ig_core.specs.Notation.{unchanged};
ghost use Rattle.ig_command.specs.Commands.{IsCommand, stored_source, verify};
ghost use Rattle.ig_command_endings.specs.Change.{change, ByFetches, Fetched, OnlyFetches};
ghost use Rattle.ig_command_jobs.specs.Jobs.{request_for, stored_job, task_request};
ghost use Rattle.ig_command_jobs.specs.Verifying.{IsTaken};
ghost use Rattle.ig_tool.specs.Outcome.{Answers};
ghost use Rattle.ig_tool.specs.Decisions.{Decides, RunsCheck, RunsJob};
ghost use Rattle.ig_tool.specs.Held.{AnswersOutcome};
ghost use Rattle.ig_tool.specs.Headline.{Completeness, GrammarCommands, Headline};
ghost use Rattle.ig_tool.specs.Headline.{BatchCommands, Certification, LoadCommands, Verification};

use crate::run::batch;
use ig_command::{Source, batch_numbers_are_some, command_of, load_sizes_are_few};
use ig_command_endings::{Status, Stop, end, usage};
use ig_command_jobs::{
    Files, Job, Task, Work, do_task, parse, parser_of, summary_line, verify_text, work_of,
};
use ig_command_sources::{
    load_forest, load_grammar, load_input, one_reading, read_grammars_are_buildable,
    read_grammars_have_readings, texts_are_read_or_refused,
};
use ig_outside::{Shelf, Sink};
use ig_parse::Parser;
use ig_queue::Order;
use ig_text::Text;
use std::alloc::Global;

/// Does all that the program does: reads the words of a command, fetches the files that they name
/// from the shelf, puts the output on out, or one line on notes, and answers how that ended. An
/// empty output isn't put.
///
/// `check G` puts `ok`, `show G` the canonical text of the grammar, `core G` the text of its core
/// grammar, `analyse G` a line of facts for each declaration, and `forest G I` the text of the
/// reduced forest of the grammar and the input, where no more items are reachable than the option
/// `--budget` says, or 1,000,000. `trees G I` puts a line for each tree of that forest in the order
/// of their cursors: its cursor, a space and the tree.
/// `--depth` is the greatest height that a tree may have; without it a forest that has no highest
/// tree is refused. `--count` is the greatest number of lines, 20 without it, and `--after` the
/// cursor of a tree, behind which the listing goes on.
///
/// `query G I` puts the answer to a question on that forest, which `--what` names: `ambiguous`, the
/// one that is meant without it, whether two different trees are permitted, with a line for each
/// node that has two ways; `cyclic`, whether a higher tree than each is; `spans`, a line for each
/// span of the declaration `--name`, or of the start symbol; `report`, how far the items came in
/// the input, and what they expected there.
///
/// `load SIZE NUMBER` fetches nothing: it puts the line of
/// [`show_summary`](ig_load::show_summary) for the load of that size and number.
///
/// `verify G I F` puts the line `verified` where F is the text of a forest that keeps to the rules
/// of one of the grammar and the input, so that each of its trees is permitted; it need not have
/// all of them.
///
/// `batch F` parses many inputs in one run: the file F has a line for each job, with the names of
/// its grammar and its input and a space between them. It puts, for each job in order, the line
/// `job K status S out B notes C`, and then the B bytes that `forest` with these files and the same
/// budget puts on out, and the C bytes that it puts on notes. The jobs take turns of as many events
/// as the option `--turn` says, or 1,000; that changes nothing of what they give. A job whose
/// grammar or input is refused ends with its own status; where one of its files isn't there, so
/// does the command.
///
/// The option `--notation` of each of these but `load` and `batch` says in which notation the
/// grammar text is: `own`, which is meant without it, or `w3c`, that of section 6 of the XML
/// recommendation; `show` puts the text in the same notation.
///
/// The option `--order` of `forest`, `trees`, `query`, `load` and `batch` says in which order the
/// items are taken: `fifo`, which is meant without it, `lifo`, `lowest` or, but for `batch`,
/// `plain`. It changes no byte of the output.
///
/// The words come without the program's name. All memory is taken before the first put.
///
/// The contract speaks of the bytes that this call read: each clause on the shelf holds by whatever
/// may be told of the names that agrees with what each fetch of the call gave. What the shelf tells
/// beforehand is one of these.
pub fn iguana<F: Shelf, O: Sink, N: Sink>(
    alloc: Global,
    words: &[String],
    shelf: &mut F,
    out: &mut O,
    notes: &mut N,
) -> Status
    ensures answer { ByFetches (λ call. Answers (map string_bytes words.now) call
        (change (O.state out.old) (O.state out.new))
        (change (N.state notes.old) (N.state notes.new)) result)
        (change (F.state shelf.old) (F.state shelf.new)) }
    ensures outcome { ByFetches (λ call. AnswersOutcome (map string_bytes words.now) call
        (change (O.state out.old) (O.state out.new))
        (change (N.state notes.old) (N.state notes.new)) result)
        (change (F.state shelf.old) (F.state shelf.new)) }
    ensures headline { ByFetches (λ call. Headline (map string_bytes words.now) call
        (change (O.state out.old) (O.state out.new))
        (change (N.state notes.old) (N.state notes.new)) result)
        (change (F.state shelf.old) (F.state shelf.new)) }
    ensures completeness { ByFetches (λ call. Completeness (map string_bytes words.now) call
        (change (O.state out.old) (O.state out.new))
        (change (N.state notes.old) (N.state notes.new)) result)
        (change (F.state shelf.old) (F.state shelf.new)) }
    ensures grammar_commands { ByFetches (λ call. GrammarCommands (map string_bytes words.now) call
        (change (O.state out.old) (O.state out.new))
        (change (N.state notes.old) (N.state notes.new)) result)
        (change (F.state shelf.old) (F.state shelf.new)) }
    ensures verification { ByFetches (λ call. Verification (map string_bytes words.now) call
        (change (O.state out.old) (O.state out.new))
        (change (N.state notes.old) (N.state notes.new)) result)
        (change (F.state shelf.old) (F.state shelf.new)) }
    ensures certification { ByFetches (λ call. Certification (map string_bytes words.now) call
        (change (O.state out.old) (O.state out.new))
        (change (N.state notes.old) (N.state notes.new)) result)
        (change (F.state shelf.old) (F.state shelf.new)) }
    ensures loads { LoadCommands (map string_bytes words.now)
        (change (O.state out.old) (O.state out.new))
        (change (N.state notes.old) (N.state notes.new)) result }
    ensures batches { ByFetches (λ call. BatchCommands (map string_bytes words.now) call
        (change (O.state out.old) (O.state out.new))
        (change (N.state notes.old) (N.state notes.new)) result)
        (change (F.state shelf.old) (F.state shelf.new)) }
    ensures fetches { OnlyFetches (change (F.state shelf.old) (F.state shelf.new)) }
{
    one_reading();
    texts_are_read_or_refused();
    let decided = decide(alloc, words, shelf);
    end(decided, out, notes)
}

/// The text for out, or why there is none. Writes nothing.
fn decide<F: Shelf>(alloc: Global, words: &[String], shelf: &mut F) -> Result<Vec<u8>, Stop>
    ensures answer { ByFetches (λ call. Decides (map string_bytes words.now) call result)
        (change (F.state shelf.old) (F.state shelf.new)) }
    ensures fetches { OnlyFetches (change (F.state shelf.old) (F.state shelf.new)) }
{
    batch_numbers_are_some();
    load_sizes_are_few();
    let Some(command) = command_of(alloc, words)? else {
        return Err(usage(alloc));
    };
    match work_of(command) {
        Work::OnGrammar(grammar, task) => on_grammar(alloc, shelf, grammar, task),
        Work::OnInput(files, budget, order, job) => {
            on_input(alloc, shelf, files, budget, order, job)
        }
        Work::OnForest(files, text) => on_forest(alloc, shelf, files, text),
        Work::OfLoad {
            size,
            number,
            budget,
            order,
        } => summary_line(alloc, size, number, budget, order),
        Work::OnList {
            list,
            budget,
            order,
            turn,
        } => batch(alloc, shelf, list, budget, order, turn),
    }
}

/// What comes of a task with the grammar in that file.
fn on_grammar<F: Shelf>(
    alloc: Global,
    shelf: &mut F,
    source: Source<'_>,
    task: Task,
) -> Result<Vec<u8>, Stop>
    ensures answer { (words : List (List ℕ)) →
        IsCommand words (task_request task (stored_source source.entry)) →
        ByFetches (λ call. Decides words call result)
        (change (F.state shelf.old) (F.state shelf.new)) }
    ensures fetches { OnlyFetches (change (F.state shelf.old) (F.state shelf.new)) }
{
    read_grammars_are_buildable();
    read_grammars_have_readings();
    let checked = load_grammar(alloc, shelf, source.name, source.notation)?;
    let parser = parser_of(alloc, &checked)?;
    do_task(alloc, &parser, source.notation, task)
}

/// What comes of a job with the grammar and the input in these files.
fn on_input<F: Shelf>(
    alloc: Global,
    shelf: &mut F,
    files: Files<'_>,
    budget: u32,
    order: Order,
    job: Job<'_>,
) -> Result<Vec<u8>, Stop>
    ensures answer { (words : List (List ℕ)) →
        IsCommand words (request_for (stored_job job.entry) (stored_source files.entry.grammar)
        files.entry.input.now budget) →
        ByFetches (λ call. Decides words call result)
        (change (F.state shelf.old) (F.state shelf.new)) }
    ensures fetches { OnlyFetches (change (F.state shelf.old) (F.state shelf.new)) }
{
    read_grammars_are_buildable();
    let checked = load_grammar(alloc, shelf, files.grammar.name, files.grammar.notation)?;
    let parser = parser_of(alloc, &checked)?;
    run(alloc, shelf, &parser, files.input, budget, order, job)
}

/// What comes of a job with the parser's grammar, which no pass has changed, and the input in the
/// file of that name.
fn run<F: Shelf>(
    alloc: Global,
    shelf: &mut F,
    parser: &Parser<'_>,
    name: &str,
    budget: u32,
    order: Order,
    job: Job<'_>,
) -> Result<Vec<u8>, Stop>
    requires as_it_is { parser.now ≡ unchanged parser.now.grammar }
    ensures answer { ByFetches (λ call.
        RunsJob parser.now budget (stored_job job.entry) call name.now result)
        (change (F.state shelf.old) (F.state shelf.new)) }
    ensures counted { Fetched (change (F.state shelf.old) (F.state shelf.new)) 1 }
    ensures fetches { OnlyFetches (change (F.state shelf.old) (F.state shelf.new)) }
{
    let input = load_input(alloc, shelf, name, parser.tab_width())?;
    parse(alloc, parser, &input, budget, order, job)
}

/// What comes of a check of the forest whose text has that name, with the grammar and the input in
/// these files.
fn on_forest<F: Shelf>(
    alloc: Global,
    shelf: &mut F,
    files: Files<'_>,
    name: &str,
) -> Result<Vec<u8>, Stop>
    ensures answer { (words : List (List ℕ)) →
        IsCommand words (verify (stored_source files.entry.grammar) files.entry.input.now
        name.now) →
        ByFetches (λ call. Decides words call result)
        (change (F.state shelf.old) (F.state shelf.new)) }
    ensures fetches { OnlyFetches (change (F.state shelf.old) (F.state shelf.new)) }
{
    read_grammars_are_buildable();
    let checked = load_grammar(alloc, shelf, files.grammar.name, files.grammar.notation)?;
    let parser = parser_of(alloc, &checked)?;
    let input = load_input(alloc, shelf, files.input, parser.tab_width())?;
    check_forest(alloc, shelf, &parser, &input, name)
}

/// What comes of the text of a forest in the file of that name, with the parser's grammar and the
/// input.
fn check_forest<F: Shelf>(
    alloc: Global,
    shelf: &mut F,
    parser: &Parser<'_>,
    input: &Text,
    name: &str,
) -> Result<Vec<u8>, Stop>
    requires taken { IsTaken parser.now }
    ensures answer { ByFetches (λ call. RunsCheck parser.now input.now call name.now result)
        (change (F.state shelf.old) (F.state shelf.new)) }
    ensures counted { Fetched (change (F.state shelf.old) (F.state shelf.new)) 1 }
    ensures fetches { OnlyFetches (change (F.state shelf.old) (F.state shelf.new)) }
{
    let bytes = load_forest(alloc, shelf, name)?;
    verify_text(alloc, parser, input, bytes)
}
