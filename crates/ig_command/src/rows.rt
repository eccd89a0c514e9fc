//! The rows of the table of commands, each as a command of `clap`.
ghost use Rattle.std.specs.Prelude.{◌≡◌, ◌≢◌, ◌∷◌, [], IfOk, None, OnErr, OnOk, codes};
ghost use Rattle.std.specs.Prelude.{map, string_bytes, true};
ghost use Rattle.std.specs.List.{list_all};
ghost use Rattle.clap.specs.Words.{app_of, with_rule};
ghost use Rattle.ig_command.specs.Rows.{Answers, app_for, app_with, may_stand, option, place};
ghost use Rattle.ig_command.specs.Rows.{row_of};
ghost use Rattle.ig_command.specs.Words.{parts_of};

use clap::error::ErrorKind;
use clap::{Arg, ArgMatches, Command};
use std::alloc::{AllocError, Global};

/// A row of the table of commands.
#[derive(Clone, Copy)]
pub(crate) enum Row {
    Check,
    Show,
    Core,
    Forest,
    Trees,
    Query,
    Load,
    Batch,
    Verify,
    Analyse,
}

/// The row of the command of this name.
pub(crate) fn row_named(name: &str) -> Option<Row>
    ensures { result ≡ row_of name.now }
{
    if name == "check" {
        return Some(Row::Check);
    }
    if name == "show" {
        return Some(Row::Show);
    }
    if name == "core" {
        return Some(Row::Core);
    }
    if name == "forest" {
        return Some(Row::Forest);
    }
    if name == "trees" {
        return Some(Row::Trees);
    }
    if name == "query" {
        return Some(Row::Query);
    }
    if name == "load" {
        return Some(Row::Load);
    }
    if name == "batch" {
        return Some(Row::Batch);
    }
    if name == "verify" {
        return Some(Row::Verify);
    }
    if name == "analyse" {
        return Some(Row::Analyse);
    }
    None
}

/// What the words are by `clap`, as the row says; `None` exactly where `clap` refuses them.
pub(crate) fn matches_of<'a>(
    alloc: Global,
    row: Row,
    words: &'a [String],
) -> Result<Option<ArgMatches<'a>>, AllocError>
    requires { list_all may_stand (map string_bytes words.now) ≡ true }
    ensures { IfOk result (Answers row (parts_of (map string_bytes words.now))) }
{
    let command = command_for(alloc, row)?;
    match command.try_get_matches_from(words) {
        Ok(matches) => Ok(Some(matches)),
        Err(error) => refused(error.kind()),
    }
}

/// No matches, but where memory ran out.
fn refused<'a>(kind: ErrorKind) -> Result<Option<ArgMatches<'a>>, AllocError>
    ensures none { IfOk result (λ r. r ≡ None) }
    ensures memory { OnOk result (kind ≢ ErrorKind.OutOfMemory) }
    ensures out_of_memory { OnErr result (kind ≡ ErrorKind.OutOfMemory) }
{
    match kind {
        ErrorKind::OutOfMemory => Err(AllocError),
        _ => Ok(None),
    }
}

/// The command of `clap` for the row.
fn command_for<'a>(alloc: Global, row: Row) -> Result<Command<'a>, AllocError>
    ensures { IfOk result (λ c. app_of c ≡ app_for row) }
{
    match row {
        Row::Check => one_file(alloc),
        Row::Show => one_file(alloc),
        Row::Core => one_file(alloc),
        Row::Forest => forest(alloc),
        Row::Trees => trees(alloc),
        Row::Query => query(alloc),
        Row::Load => load(alloc),
        Row::Batch => batch(alloc),
        Row::Verify => verify(alloc),
        Row::Analyse => one_file(alloc),
    }
}

/// A command for the file of a grammar.
fn one_file<'a>(alloc: Global) -> Result<Command<'a>, AllocError>
    ensures { IfOk result (λ c. app_of c
        ≡ app_with (place (codes "G") ∷ option (codes "notation") ∷ [])) }
{
    let grammar = with_place(alloc, bare(alloc), "G")?;
    with_option(alloc, grammar, "notation")
}

/// A command with the files of a grammar and of an input.
fn both_files<'a>(alloc: Global) -> Result<Command<'a>, AllocError>
    ensures { IfOk result (λ c. app_of c ≡ app_with (place (codes "G") ∷ place (codes "I") ∷ [])) }
{
    let grammar = with_place(alloc, bare(alloc), "G")?;
    with_place(alloc, grammar, "I")
}

/// The command for the forest of two files.
fn forest<'a>(alloc: Global) -> Result<Command<'a>, AllocError>
    ensures { IfOk result (λ c. app_of c
        ≡ app_with (place (codes "G") ∷ place (codes "I") ∷ option (codes "notation")
        ∷ option (codes "budget") ∷ option (codes "order") ∷ [])) }
{
    let both = both_files(alloc)?;
    let with_notation = with_option(alloc, both, "notation")?;
    with_run(alloc, with_notation)
}

/// The command for the forest, with two more options.
fn forest_with<'a>(
    alloc: Global,
    first: &'a str,
    second: &'a str,
) -> Result<Command<'a>, AllocError>
    ensures { IfOk result (λ c. app_of c
        ≡ app_with (place (codes "G") ∷ place (codes "I") ∷ option (codes "notation")
        ∷ option (codes "budget") ∷ option (codes "order") ∷ option first.entry.now
        ∷ option second.entry.now ∷ [])) }
{
    let of_forest = forest(alloc)?;
    let with_first = with_option(alloc, of_forest, first)?;
    with_option(alloc, with_first, second)
}

/// The command for its trees.
fn trees<'a>(alloc: Global) -> Result<Command<'a>, AllocError>
    ensures { IfOk result (λ c. app_of c
        ≡ app_with (place (codes "G") ∷ place (codes "I") ∷ option (codes "notation")
        ∷ option (codes "budget") ∷ option (codes "order") ∷ option (codes "depth")
        ∷ option (codes "count") ∷ option (codes "after") ∷ [])) }
{
    let with_numbers = forest_with(alloc, "depth", "count")?;
    with_option(alloc, with_numbers, "after")
}

/// The command for an answer from it.
fn query<'a>(alloc: Global) -> Result<Command<'a>, AllocError>
    ensures { IfOk result (λ c. app_of c
        ≡ app_with (place (codes "G") ∷ place (codes "I") ∷ option (codes "notation")
        ∷ option (codes "budget") ∷ option (codes "order") ∷ option (codes "what")
        ∷ option (codes "name") ∷ [])) }
{
    forest_with(alloc, "what", "name")
}

/// The command for a load.
fn load<'a>(alloc: Global) -> Result<Command<'a>, AllocError>
    ensures { IfOk result (λ c. app_of c ≡ app_with (place (codes "SIZE")
        ∷ place (codes "NUMBER") ∷ option (codes "budget") ∷ option (codes "order") ∷ [])) }
{
    let size = with_place(alloc, bare(alloc), "SIZE")?;
    let both = with_place(alloc, size, "NUMBER")?;
    with_run(alloc, both)
}

/// The command for a list of jobs.
fn batch<'a>(alloc: Global) -> Result<Command<'a>, AllocError>
    ensures { IfOk result (λ c. app_of c ≡ app_with (place (codes "F")
        ∷ option (codes "budget") ∷ option (codes "order") ∷ option (codes "turn") ∷ [])) }
{
    let list = with_place(alloc, bare(alloc), "F")?;
    let with_both = with_run(alloc, list)?;
    with_option(alloc, with_both, "turn")
}

/// The command that checks a forest.
fn verify<'a>(alloc: Global) -> Result<Command<'a>, AllocError>
    ensures { IfOk result (λ c. app_of c ≡ app_with (place (codes "G") ∷ place (codes "I")
        ∷ place (codes "F") ∷ option (codes "notation") ∷ [])) }
{
    let both = both_files(alloc)?;
    let three = with_place(alloc, both, "F")?;
    with_option(alloc, three, "notation")
}

/// A command with no arguments. It has no help flag: `--help` is an option as any other.
fn bare<'a>(alloc: Global) -> Command<'a>
    ensures { app_of result ≡ app_with [] }
{
    Command::new(alloc, "iguana")
        .no_binary_name(true)
        .disable_help_flag(true)
}

/// The command with a positional word that has to stand.
fn with_place<'a>(
    alloc: Global,
    command: Command<'a>,
    id: &'a str,
) -> Result<Command<'a>, AllocError>
    ensures { IfOk result (λ c. app_of c ≡ with_rule (app_of command.entry) (place id.entry.now)) }
{
    let argument = Arg::new(alloc, id).required(true);
    command.arg(argument)
}

/// The command with an option that has a value.
fn with_option<'a>(
    alloc: Global,
    command: Command<'a>,
    name: &'a str,
) -> Result<Command<'a>, AllocError>
    ensures { IfOk result (λ c. app_of c
        ≡ with_rule (app_of command.entry) (option name.entry.now)) }
{
    let argument = Arg::new(alloc, name).long(name);
    command.arg(argument)
}

/// The command with the options of a run.
fn with_run<'a>(alloc: Global, command: Command<'a>) -> Result<Command<'a>, AllocError>
    ensures { IfOk result (λ c. app_of c ≡ with_rule (with_rule (app_of command.entry)
        (option (codes "budget"))) (option (codes "order"))) }
{
    let with_budget = with_option(alloc, command, "budget")?;
    with_option(alloc, with_budget, "order")
}
