//! Runs over a work list, by the schedules of the library and by some of these tests' own.
ghost use Rattle.std.specs.Prelude.{◌≡◌, ◌<◌, [], ◌∷◌, Contains, IfNone, IfSome, OnErr, OnOk};
ghost use Rattle.std.specs.List.Sorted.{IsPermutation};
ghost use Rattle.ig_core.specs.Lowered.{IsBuildable};

use crate::parsing::{LETTER, LETTER_FOREST, checked};
use ig_engine::run;
use ig_forest::Forest;
use ig_grammar::Checked;
use ig_item::{Core, Recorded, RunFault};
use ig_parse::Parser;
use ig_queue::{Fifo, Lifo, Lowest, Order, Schedule, Ticket};
use ig_show_texts::show_forest;
use ig_text::Text;
use std::alloc::{AllocError, Global};
use std::process::Abort;
use std::test::Fail;

/// More items than any text of these tests has.
const BUDGET: u32 = 10_000;

/// How many schedules that go by random numbers are tried.
const DRAWN: u64 = 20;

/// A schedule that gives a ticket by a random number.
#[derive(Drop)]
struct Drawn {
    tickets: Vec<Ticket>,
    seed: u64,
}

/// The number that follows in a sequence of random ones.
fn next_seed(seed: u64) -> u64 {
    seed.wrapping_mul(6_364_136_223_846_793_005)
        .wrapping_add(1_442_695_040_888_963_407)
}

/// A place of as many as `count`, by a random number.
fn place_by(seed: u64, count: usize) -> usize
    requires { 0 < count }
    ensures { result < count }
{
    (seed >> 33) as usize % count
}

impl Schedule for Drawn {
    ghost waiting = { λ s. s.tickets.items };

    fn put(&mut self, ticket: Ticket) -> Result<(), AllocError>
        requires { Contains self.old.tickets.items ticket → ⊥ }
        ensures ok { OnOk result
            (IsPermutation (ticket ∷ self.old.tickets.items) self.new.tickets.items) }
        ensures err { OnErr result (self.new.tickets.items ≡ self.old.tickets.items) }
    {
        self.tickets.push(ticket)?;
        Ok(())
    }

    fn take(&mut self) -> Option<Ticket>
        ensures some { IfSome result
            (λ t. IsPermutation self.old.tickets.items (t ∷ self.new.tickets.items)) }
        ensures none { IfNone result (self.old.tickets.items ≡ []) }
        ensures still_none { IfNone result (self.new.tickets.items ≡ []) }
    {
        if self.tickets.is_empty() {
            return None;
        }
        self.seed = next_seed(self.seed);
        let place = place_by(self.seed, self.tickets.len());
        let ticket = self.tickets.swap_remove(place);
        Some(ticket)
    }
}

/// A schedule that refuses a ticket once none is left of those that it may take.
#[derive(Drop)]
struct Refusing {
    tickets: Lifo,
    left: u32,
}

impl Schedule for Refusing {
    ghost waiting = { λ s. s.tickets };

    fn put(&mut self, ticket: Ticket) -> Result<(), AllocError>
        requires { Contains self.old.tickets ticket → ⊥ }
        ensures ok { OnOk result (IsPermutation (ticket ∷ self.old.tickets) self.new.tickets) }
        ensures err { OnErr result (self.new.tickets ≡ self.old.tickets) }
    {
        if self.left == 0 {
            return Err(AllocError);
        }
        self.left -= 1;
        self.tickets.put(ticket)
    }

    fn take(&mut self) -> Option<Ticket>
        ensures some { IfSome result (λ t. IsPermutation self.old.tickets (t ∷ self.new.tickets)) }
        ensures none { IfNone result (self.old.tickets ≡ []) }
        ensures still_none { IfNone result (self.new.tickets ≡ []) }
    {
        self.tickets.take()
    }
}

/// A schedule without tickets that takes so many.
fn refuses_from(alloc: Global, left: u32) -> Refusing
    ensures { result.tickets ≡ [] }
{
    let tickets = Lifo::new(alloc);
    Refusing { tickets, left }
}

/// How many items a run by that schedule finds.
fn found_by<S: Schedule + Drop>(
    alloc: Global,
    core: &Core,
    text: &Text,
    budget: u32,
    schedule: S,
) -> Result<u32, RunFault>
    requires { S.waiting schedule ≡ [] }
{
    let recorded = run(alloc, core, text, budget, schedule)?;
    Ok(recorded.items().len())
}

/// The text of the forest of what was recorded.
fn shown(alloc: Global, recorded: &Recorded<'_>) -> Result<Vec<u8>, Fail> {
    let Some(forest) = Forest::of_recorded(alloc, recorded)? else {
        return Err(Fail::new("no forest"));
    };
    let shown = show_forest(alloc, forest.tables())?;
    Ok(shown)
}

/// The text of the forest that a run by that schedule gives.
fn shown_by<S: Schedule + Drop>(
    alloc: Global,
    core: &Core,
    text: &Text,
    schedule: S,
) -> Result<Vec<u8>, Fail>
    requires { S.waiting schedule ≡ [] }
{
    let recorded = run(alloc, core, text, BUDGET, schedule)?;
    shown(alloc, &recorded)
}

/// Asserts that a run gives that forest by each schedule.
fn expect_forest(
    rt: &impl Abort,
    alloc: Global,
    core: &Core,
    text: &Text,
    forest: &[u8],
) -> Result<(), Fail> {
    let fifo = shown_by(alloc, core, text, Fifo::new(alloc))?;
    assert_eq!(rt; fifo.as_slice(), forest);
    let lifo = shown_by(alloc, core, text, Lifo::new(alloc))?;
    assert_eq!(rt; lifo.as_slice(), forest);
    let lowest = shown_by(alloc, core, text, Lowest::new(alloc))?;
    assert_eq!(rt; lowest.as_slice(), forest);
    Ok(())
}

/// Asserts that a run gives that forest, whatever ticket it is given.
fn expect_forest_of_any(
    rt: &impl Abort,
    alloc: Global,
    core: &Core,
    text: &Text,
    forest: &[u8],
) -> Result<(), Fail> {
    for seed in 0..DRAWN {
        let tickets = Vec::new(alloc);
        let drawn = shown_by(alloc, core, text, Drawn { tickets, seed })?;
        assert_eq!(rt; drawn.as_slice(), forest);
    }
    Ok(())
}

/// The text of the forest that the parser's run without a work list gives.
fn shown_plainly(alloc: Global, parser: &Parser<'_>, text: &Text) -> Result<Vec<u8>, Fail> {
    let recorded = parser.run(alloc, text, BUDGET, Order::Plain)?;
    shown(alloc, &recorded)
}

/// Asserts that runs by all these schedules give that forest, too.
fn expect_same(
    rt: &impl Abort,
    alloc: Global,
    parser: &Parser<'_>,
    text: &Text,
) -> Result<(), Fail> {
    let plain = shown_plainly(alloc, parser, text)?;
    expect_forest(rt, alloc, parser.core(), text, plain.as_slice())?;
    expect_forest_of_any(rt, alloc, parser.core(), text, plain.as_slice())
}

/// The same for the parser of a grammar.
fn expect_same_under(
    rt: &impl Abort,
    alloc: Global,
    grammar: &Checked,
    text: &[u8],
) -> Result<(), Fail>
    requires { IsBuildable grammar.now }
{
    let text = Text::decode(alloc, text)?;
    let parser = Parser::of(alloc, grammar)?;
    expect_same(rt, alloc, &parser, &text)
}

/// Grammars, each with a text that has trees: ambiguous, cyclic, with values, left and right
/// recursive behind what may be nothing.
const TEXTS: &[(&str, &str)] = &[
    ("start S; syntax S = S S | \"a\";", "aaaaa"),
    ("start S; syntax S = S S | S | \"a\" | ;", "aa"),
    (
        "start S; syntax S = \"{\" n: Num \"}\" B(number(n)); lexical Num = [0-9]+ !>> [0-9]; \
            syntax B(k: int) = when (k == 0) | when (k > 0) [a-z] B(k - 1);",
        "{3}abc",
    ),
    (
        "start S; syntax S = N S \"a\" | \"b\" | \"b\" S N; syntax N = | N \"c\";",
        "bcbbccaa",
    ),
];

#[test]
fn any_order_gives_the_same_forest(rt: HostRuntime) -> Result<(), Fail> {
    let alloc = rt.alloc();
    for (grammar, text) in TEXTS {
        let grammar = checked(alloc, grammar)?;
        expect_same_under(&rt, alloc, &grammar, text.as_bytes())?;
    }
    Ok(())
}

/// Asserts what comes of the text `a`, which has four items by that core grammar.
fn expect_four(rt: &impl Abort, alloc: Global, core: &Core, text: &Text) -> Result<(), Fail> {
    expect_forest(rt, alloc, core, text, LETTER_FOREST.as_bytes())?;
    let enough = found_by(alloc, core, text, 4, Fifo::new(alloc));
    assert_eq!(rt; enough, Ok(4));
    let over = found_by(alloc, core, text, 3, Fifo::new(alloc));
    assert_eq!(rt; over, Err(RunFault::Budget));
    Ok(())
}

/// Asserts what comes of that text by schedules that refuse their third ticket, and their fifth.
fn expect_refusal(rt: &impl Abort, alloc: Global, core: &Core, text: &Text) {
    let refused = found_by(alloc, core, text, 4, refuses_from(alloc, 2));
    assert_eq!(rt; refused, Err(RunFault::Memory));
    let taken = found_by(alloc, core, text, 4, refuses_from(alloc, 4));
    assert_eq!(rt; taken, Ok(4));
}

/// Both for the text `a` under the letter's grammar.
fn expect_of_letter(rt: &impl Abort, alloc: Global, grammar: &Checked) -> Result<(), Fail>
    requires { IsBuildable grammar.now }
{
    let text = Text::decode(alloc, b"a")?;
    let parser = Parser::of(alloc, grammar)?;
    expect_refusal(rt, alloc, parser.core(), &text);
    expect_four(rt, alloc, parser.core(), &text)
}

#[test]
fn each_item_is_put_once(rt: HostRuntime) -> Result<(), Fail> {
    let alloc = rt.alloc();
    let grammar = checked(alloc, LETTER)?;
    expect_of_letter(&rt, alloc, &grammar)
}
