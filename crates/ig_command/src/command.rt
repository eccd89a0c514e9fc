//! What a command asks for, and how its words are read.
ghost use Rattle.std.specs.Prelude.{◌≡◌, IfOk, IfSome, None, Some, map, option_map};
ghost use Rattle.std.specs.Prelude.{string_bytes};
ghost use Rattle.std.specs.Option.{option_copied};
ghost use Rattle.clap.specs.Words.{first_value, found_of};
ghost use Rattle.ig_command.specs.Commands.{Orders, Reads, number_if, number_of, number_or};
ghost use Rattle.ig_command.specs.Commands.{question_with, stored_listing, stored_question};
ghost use Rattle.ig_command.specs.Commands.{notation_with, stored_request, stored_source};
ghost use Rattle.ig_command.specs.Commands.{listed, order_of_list, order_with, stored_order};
ghost use Rattle.ig_command.specs.Rows.{budget_found, count_found, found_request, listing_found};
ghost use Rattle.ig_command.specs.Rows.{list_order_found, notation_found, order_for, order_found};
ghost use Rattle.ig_command.specs.Rows.{source_found, turn_found};

use crate::rows::{Row, matches_of, row_named};
use crate::words::{all_may_stand, read_number};
use clap::ArgMatches;
use ig_queue::Order;
use std::alloc::{AllocError, Global};

/// The budget where none is given.
const USUAL_BUDGET: u32 = 1_000_000;

/// The greatest budget.
const MOST_BUDGET: u32 = 4_000_000;

/// The greatest depth.
const MOST_DEPTH: u32 = 1_000_000;

/// How many trees are listed where no number is given.
const USUAL_COUNT: u32 = 20;

/// How many trees may be asked for.
const MOST_COUNT: u32 = 100_000;

/// How many events a turn has where no number is given.
const USUAL_TURN: u32 = 1000;

/// How many events a turn may have.
const MOST_TURN: u32 = 1_000_000;

/// The greatest size of a load.
pub const MOST_SIZE: u32 = 4000;

/// Which trees are listed.
#[derive(Clone, Copy, PartialEq, Eq, Debug)]
pub struct Listing<'a> {
    /// The height that they have at most, where there is a bound.
    pub depth: Option<u32>,
    /// How many at most.
    pub count: u32,
    /// The cursor that they stand behind, where they don't begin with the first.
    pub after: Option<&'a str>,
}

/// What is asked of a forest.
#[derive(Clone, Copy, PartialEq, Eq, Debug)]
pub enum Question<'a> {
    /// Whether there are two trees, and where they differ.
    Ambiguous,
    /// Whether there is a higher tree than each.
    Cyclic,
    /// The spans of the declaration of this name, or of the start symbol.
    Spans { name: Option<&'a str> },
    /// How far the input was read.
    Report,
}

/// The notation of a grammar text.
#[derive(Clone, Copy, PartialEq, Eq, Debug)]
pub enum Notation {
    /// The program's own.
    Own,
    /// That of section 6 of the XML recommendation.
    W3c,
}

/// The file of a grammar.
#[derive(Clone, Copy, PartialEq, Eq, Debug)]
pub struct Source<'a> {
    /// Its name.
    pub name: &'a str,
    /// The notation of its text.
    pub notation: Notation,
}

/// An order that keeps a work list.
#[derive(Clone, Copy, PartialEq, Eq, Debug)]
pub enum WorkList {
    /// The oldest first.
    Fifo,
    /// The newest first.
    Lifo,
    /// The one at the lowest position first.
    Lowest,
}

/// What the words of a command ask for, with the names of its files.
#[derive(Clone, Copy, PartialEq, Eq, Debug)]
pub enum Command<'a> {
    /// That the grammar is checked.
    Check {
        grammar: Source<'a>,
    },
    /// The canonical text of the grammar.
    Show {
        grammar: Source<'a>,
    },
    /// The text of its core grammar.
    Core {
        grammar: Source<'a>,
    },
    /// The forest of the grammar and the input, where no more items than the budget are reachable.
    /// The items are taken in that order.
    Forest {
        grammar: Source<'a>,
        input: &'a str,
        budget: u32,
        order: Order,
    },
    /// Its trees.
    Trees {
        grammar: Source<'a>,
        input: &'a str,
        budget: u32,
        order: Order,
        listing: Listing<'a>,
    },
    /// An answer from it.
    Query {
        grammar: Source<'a>,
        input: &'a str,
        budget: u32,
        order: Order,
        question: Question<'a>,
    },
    /// The numbers of the forest of a grammar and an input that are made.
    Load {
        size: u32,
        number: u64,
        budget: u32,
        order: Order,
    },
    /// What comes of each job of a list, where no more items are reachable in it than the budget.
    /// The jobs take turns of so many events, and their items are taken in that order.
    Batch {
        list: &'a str,
        budget: u32,
        order: WorkList,
        turn: u32,
    },
    /// That a forest of the grammar and the input, which its text tells, is checked.
    Verify {
        grammar: Source<'a>,
        input: &'a str,
        forest: &'a str,
    },
    /// The facts of the grammar's nonterminals.
    Analyse {
        grammar: Source<'a>,
    },
}

/// The command that the words are, as the table of commands says: a name, then positional words and
/// options in any order.
pub fn command_of(alloc: Global, words: &[String]) -> Result<Option<Command<'_>>, AllocError>
    ensures reads { IfOk result (Reads (map string_bytes words.now)) }
    ensures order { IfOk result (Orders (map string_bytes words.now)) }
{
    let Some((name, others)) = words.split_first() else {
        return Ok(None);
    };
    let Some(row) = row_named(name.as_str()) else {
        return Ok(None);
    };
    if !all_may_stand(others) {
        return Ok(None);
    }
    match matches_of(alloc, row, others)? {
        Some(matches) => Ok(command_in(row, &matches)),
        None => Ok(None),
    }
}

/// The command of the row with the values that were found.
fn command_in<'a>(row: Row, matches: &ArgMatches<'a>) -> Option<Command<'a>>
    ensures request { option_map stored_request result
        ≡ found_request row (first_value (found_of matches.now)) }
    ensures order { IfSome result (λ c. stored_order c
        ≡ order_for row (first_value (found_of matches.now))) }
{
    match row {
        Row::Check => check_command(matches),
        Row::Show => show_command(matches),
        Row::Core => core_command(matches),
        Row::Forest => forest_command(matches),
        Row::Trees => trees_command(matches),
        Row::Query => query_command(matches),
        Row::Load => load_command(matches),
        Row::Batch => batch_command(matches),
        Row::Verify => verify_command(matches),
        Row::Analyse => analyse_command(matches),
    }
}

/// The command that checks the grammar.
fn check_command<'a>(matches: &ArgMatches<'a>) -> Option<Command<'a>>
    ensures request { option_map stored_request result
        ≡ found_request Row.Check (first_value (found_of matches.now)) }
    ensures order { IfSome result (λ c. stored_order c ≡ None) }
{
    let grammar = source_of(matches)?;
    Some(Command::Check { grammar })
}

/// The command for its text.
fn show_command<'a>(matches: &ArgMatches<'a>) -> Option<Command<'a>>
    ensures request { option_map stored_request result
        ≡ found_request Row.Show (first_value (found_of matches.now)) }
    ensures order { IfSome result (λ c. stored_order c ≡ None) }
{
    let grammar = source_of(matches)?;
    Some(Command::Show { grammar })
}

/// The command for the text of its core grammar.
fn core_command<'a>(matches: &ArgMatches<'a>) -> Option<Command<'a>>
    ensures request { option_map stored_request result
        ≡ found_request Row.Core (first_value (found_of matches.now)) }
    ensures order { IfSome result (λ c. stored_order c ≡ None) }
{
    let grammar = source_of(matches)?;
    Some(Command::Core { grammar })
}

/// The command for the forest of two files.
fn forest_command<'a>(matches: &ArgMatches<'a>) -> Option<Command<'a>>
    ensures request { option_map stored_request result
        ≡ found_request Row.Forest (first_value (found_of matches.now)) }
    ensures order { IfSome result (λ c. stored_order c
        ≡ order_found (first_value (found_of matches.now))) }
{
    let grammar = source_of(matches)?;
    let input = matches.get_str("I")?;
    let budget = budget_of(matches)?;
    let order = order_of(matches)?;
    Some(Command::Forest {
        grammar,
        input,
        budget,
        order,
    })
}

/// The command for the trees of two files.
fn trees_command<'a>(matches: &ArgMatches<'a>) -> Option<Command<'a>>
    ensures request { option_map stored_request result
        ≡ found_request Row.Trees (first_value (found_of matches.now)) }
    ensures order { IfSome result (λ c. stored_order c
        ≡ order_found (first_value (found_of matches.now))) }
{
    let grammar = source_of(matches)?;
    let input = matches.get_str("I")?;
    let budget = budget_of(matches)?;
    let order = order_of(matches)?;
    let listing = listing_of(matches)?;
    Some(Command::Trees {
        grammar,
        input,
        budget,
        order,
        listing,
    })
}

/// The command for an answer from the forest of two files.
fn query_command<'a>(matches: &ArgMatches<'a>) -> Option<Command<'a>>
    ensures request { option_map stored_request result
        ≡ found_request Row.Query (first_value (found_of matches.now)) }
    ensures order { IfSome result (λ c. stored_order c
        ≡ order_found (first_value (found_of matches.now))) }
{
    let grammar = source_of(matches)?;
    let input = matches.get_str("I")?;
    let budget = budget_of(matches)?;
    let order = order_of(matches)?;
    let question = question_named(matches.get_str("what"), matches.get_str("name"))?;
    Some(Command::Query {
        grammar,
        input,
        budget,
        order,
        question,
    })
}

/// The command for a load.
fn load_command<'a>(matches: &ArgMatches<'a>) -> Option<Command<'a>>
    ensures request { option_map stored_request result
        ≡ found_request Row.Load (first_value (found_of matches.now)) }
    ensures order { IfSome result (λ c. stored_order c
        ≡ order_found (first_value (found_of matches.now))) }
{
    let size = matches.get_str("SIZE")?;
    let number = matches.get_str("NUMBER")?;
    let size = read_small(size, 1, MOST_SIZE)?;
    let number = read_number(number, 0, u64::MAX)?;
    let budget = budget_of(matches)?;
    let order = order_of(matches)?;
    Some(Command::Load {
        size,
        number,
        budget,
        order,
    })
}

/// The command for the jobs of a list.
fn batch_command<'a>(matches: &ArgMatches<'a>) -> Option<Command<'a>>
    ensures request { option_map stored_request result
        ≡ found_request Row.Batch (first_value (found_of matches.now)) }
    ensures order { IfSome result (λ c. stored_order c
        ≡ list_order_found (first_value (found_of matches.now))) }
{
    let list = matches.get_str("F")?;
    let budget = budget_of(matches)?;
    let order = list_order_of(matches)?;
    let turn = turn_of(matches)?;
    Some(Command::Batch {
        list,
        budget,
        order,
        turn,
    })
}

/// The command that checks a forest.
fn verify_command<'a>(matches: &ArgMatches<'a>) -> Option<Command<'a>>
    ensures request { option_map stored_request result
        ≡ found_request Row.Verify (first_value (found_of matches.now)) }
    ensures order { IfSome result (λ c. stored_order c ≡ None) }
{
    let grammar = source_of(matches)?;
    let input = matches.get_str("I")?;
    let forest = matches.get_str("F")?;
    Some(Command::Verify {
        grammar,
        input,
        forest,
    })
}

/// The command for the facts of the grammar's nonterminals.
fn analyse_command<'a>(matches: &ArgMatches<'a>) -> Option<Command<'a>>
    ensures request { option_map stored_request result
        ≡ found_request Row.Analyse (first_value (found_of matches.now)) }
    ensures order { IfSome result (λ c. stored_order c ≡ None) }
{
    let grammar = source_of(matches)?;
    Some(Command::Analyse { grammar })
}

/// The file of the grammar.
fn source_of<'a>(matches: &ArgMatches<'a>) -> Option<Source<'a>>
    ensures { option_map stored_source result
        ≡ source_found (first_value (found_of matches.now)) }
{
    let name = matches.get_str("G")?;
    let notation = notation_of(matches)?;
    Some(Source { name, notation })
}

/// The notation of the grammar's text.
fn notation_of(matches: &ArgMatches<'_>) -> Option<Notation>
    ensures { result ≡ notation_found (first_value (found_of matches.now)) }
{
    notation_or_own(matches.get_str("notation"))
}

/// The notation that `--notation` names, or the own one.
fn notation_or_own(value: Option<&str>) -> Option<Notation>
    ensures { result ≡ notation_with (option_copied value.entry) }
{
    match value {
        Some(word) => notation_named(word),
        None => Some(Notation::Own),
    }
}

/// The notation of that name.
fn notation_named(word: &str) -> Option<Notation>
    ensures { result ≡ notation_with (Some word.now) }
{
    if word == "own" {
        return Some(Notation::Own);
    }
    if word == "w3c" {
        return Some(Notation::W3c);
    }
    None
}

/// The order of a run.
fn order_of(matches: &ArgMatches<'_>) -> Option<Order>
    ensures { result ≡ order_found (first_value (found_of matches.now)) }
{
    order_or_fifo(matches.get_str("order"))
}

/// The order that `--order` names, or oldest first.
fn order_or_fifo(value: Option<&str>) -> Option<Order>
    ensures { result ≡ order_with (option_copied value.entry) }
{
    match value {
        Some(word) => order_named(word),
        None => Some(Order::Fifo),
    }
}

/// The order of that name.
fn order_named(word: &str) -> Option<Order>
    ensures { result ≡ order_with (Some word.now) }
{
    if word == "fifo" {
        return Some(Order::Fifo);
    }
    if word == "lifo" {
        return Some(Order::Lifo);
    }
    if word == "lowest" {
        return Some(Order::Lowest);
    }
    if word == "plain" {
        return Some(Order::Plain);
    }
    None
}

/// The order of the runs of a batch.
fn list_order_of(matches: &ArgMatches<'_>) -> Option<WorkList>
    ensures { option_map order_of_list result
        ≡ list_order_found (first_value (found_of matches.now)) }
{
    let order = order_of(matches)?;
    listed(order)
}

/// The order, where it keeps a work list.
fn listed(order: Order) -> Option<WorkList>
    ensures { option_map order_of_list result ≡ listed order }
{
    match order {
        Order::Fifo => Some(WorkList::Fifo),
        Order::Lifo => Some(WorkList::Lifo),
        Order::Lowest => Some(WorkList::Lowest),
        Order::Plain => None,
    }
}

/// The budget.
fn budget_of(matches: &ArgMatches<'_>) -> Option<u32>
    ensures { result ≡ budget_found (first_value (found_of matches.now)) }
{
    small_or(USUAL_BUDGET, 1, MOST_BUDGET, matches.get_str("budget"))
}

/// How many trees are listed.
fn count_of(matches: &ArgMatches<'_>) -> Option<u32>
    ensures { result ≡ count_found (first_value (found_of matches.now)) }
{
    small_or(USUAL_COUNT, 1, MOST_COUNT, matches.get_str("count"))
}

/// How many events a turn has.
fn turn_of(matches: &ArgMatches<'_>) -> Option<u32>
    ensures { result ≡ turn_found (first_value (found_of matches.now)) }
{
    small_or(USUAL_TURN, 1, MOST_TURN, matches.get_str("turn"))
}

/// Which trees are listed.
fn listing_of<'a>(matches: &ArgMatches<'a>) -> Option<Listing<'a>>
    ensures { option_map stored_listing result
        ≡ listing_found (first_value (found_of matches.now)) }
{
    let depth = small_if(0, MOST_DEPTH, matches.get_str("depth"))?;
    let count = count_of(matches)?;
    let after = matches.get_str("after");
    Some(Listing {
        depth,
        count,
        after,
    })
}

/// The question that `--what` names, or the usual one.
fn question_named<'a>(what: Option<&str>, name: Option<&'a str>) -> Option<Question<'a>>
    ensures { option_map stored_question result
        ≡ question_with (option_copied name.entry) (option_copied what.entry) }
{
    match what {
        Some(what) => question_of(what, name),
        None => Some(Question::Ambiguous),
    }
}

/// The question of that word.
fn question_of<'a>(what: &str, name: Option<&'a str>) -> Option<Question<'a>>
    ensures { option_map stored_question result
        ≡ question_with (option_copied name.entry) (Some what.now) }
{
    if what == "ambiguous" {
        return Some(Question::Ambiguous);
    }
    if what == "cyclic" {
        return Some(Question::Cyclic);
    }
    if what == "spans" {
        return Some(Question::Spans { name });
    }
    if what == "report" {
        return Some(Question::Report);
    }
    None
}

/// The number of an option that has no usual one.
fn small_if(least: u32, most: u32, value: Option<&str>) -> Option<Option<u32>>
    ensures { result ≡ number_if least most (option_copied value.entry) }
{
    match value {
        Some(digits) => {
            let number = read_small(digits, least, most)?;
            Some(Some(number))
        }
        None => Some(None),
    }
}

/// The number of an option, or the usual one.
fn small_or(usual: u32, least: u32, most: u32, value: Option<&str>) -> Option<u32>
    ensures { result ≡ number_or usual least most (option_copied value.entry) }
{
    match value {
        Some(digits) => read_small(digits, least, most),
        None => Some(usual),
    }
}

/// The number that the digits spell, from the least to the most.
fn read_small(digits: &str, least: u32, most: u32) -> Option<u32>
    ensures { result ≡ number_of least most digits.now }
{
    let number = read_number(digits, u64::from(least), u64::from(most))?;
    u32::try_from(number).ok()
}
