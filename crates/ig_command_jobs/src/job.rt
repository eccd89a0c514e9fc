//! What a command asks for: a task with a grammar, a job by a forest, a check of a forest, a load,
//! or a list of jobs.
ghost use Rattle.std.specs.Prelude.{◌≡◌};
ghost use Rattle.ig_command.specs.Commands.{stored_order, stored_request};
ghost use Rattle.ig_command_jobs.specs.Jobs.{work_order, work_request};

use ig_command::{Command, Listing, Question, Source, WorkList};
use ig_queue::Order;

/// What is done with a grammar alone.
#[derive(Clone, Copy)]
pub enum Task {
    /// It is checked.
    Check,
    /// Its canonical text is printed.
    Show,
    /// The text of its core grammar is printed.
    Core,
    /// The facts of its declarations are told.
    Analyse,
}

/// What is done with the forest of a grammar and an input.
#[derive(Clone, Copy)]
pub enum Job<'a> {
    /// It is printed.
    Print,
    /// Its trees are listed.
    List(Listing<'a>),
    /// A question is answered.
    Ask(Question<'a>),
}

/// The files of a job, or of a check of a forest.
#[derive(Clone, Copy)]
pub struct Files<'a> {
    /// That of the grammar.
    pub grammar: Source<'a>,
    /// The name of that of the input.
    pub input: &'a str,
}

/// What a command asks for.
#[derive(Clone, Copy)]
pub enum Work<'a> {
    /// A task with the grammar in that file.
    OnGrammar(Source<'a>, Task),
    /// A job with a grammar and an input, where no more items are reachable than that many, and are
    /// taken in that order.
    OnInput(Files<'a>, u32, Order, Job<'a>),
    /// The forest is checked that the text in the file of that name tells.
    OnForest(Files<'a>, &'a str),
    /// The line of a load of this size and number, where no more items are reachable than the
    /// budget, and are taken in that order.
    OfLoad {
        size: u32,
        number: u64,
        budget: u32,
        order: Order,
    },
    /// What comes of each job of the list in the file of that name, where no more items are
    /// reachable in it than the budget, and are taken in that order; the jobs take turns of so many
    /// events.
    OnList {
        list: &'a str,
        budget: u32,
        order: WorkList,
        turn: u32,
    },
}

/// What the command asks for. Takes no memory.
pub fn work_of(command: Command<'_>) -> Work<'_>
    ensures request { work_request result ≡ stored_request command.entry }
    ensures order { work_order result ≡ stored_order command.entry }
{
    match command {
        Command::Check { grammar } => Work::OnGrammar(grammar, Task::Check),
        Command::Show { grammar } => Work::OnGrammar(grammar, Task::Show),
        Command::Core { grammar } => Work::OnGrammar(grammar, Task::Core),
        Command::Forest {
            grammar,
            input,
            budget,
            order,
        } => Work::OnInput(Files { grammar, input }, budget, order, Job::Print),
        Command::Trees {
            grammar,
            input,
            budget,
            order,
            listing,
        } => Work::OnInput(Files { grammar, input }, budget, order, Job::List(listing)),
        Command::Query {
            grammar,
            input,
            budget,
            order,
            question,
        } => Work::OnInput(Files { grammar, input }, budget, order, Job::Ask(question)),
        Command::Load {
            size,
            number,
            budget,
            order,
        } => Work::OfLoad {
            size,
            number,
            budget,
            order,
        },
        Command::Batch {
            list,
            budget,
            order,
            turn,
        } => Work::OnList {
            list,
            budget,
            order,
            turn,
        },
        Command::Verify {
            grammar,
            input,
            forest,
        } => Work::OnForest(Files { grammar, input }, forest),
        Command::Analyse { grammar } => Work::OnGrammar(grammar, Task::Analyse),
    }
}
