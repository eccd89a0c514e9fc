//! Two parses that take turns.
ghost use Rattle.std.specs.Prelude.{◌≡◌, ◌++◌, ◌∷◌, [], OnOk};
ghost use Rattle.ig_core.specs.Lowered.{IsBuildable};
ghost use Rattle.ig_core.specs.Notation.{unchanged};

use crate::parsing::{LETTER, checked};
use ig_command::WorkList;
use ig_command_jobs::ParseJob;
use ig_grammar::Checked;
use ig_parse::Parser;
use ig_text::Text;
use ig_turns::{Jobs, Turn, Turns};
use std::alloc::{AllocError, Global};
use std::process::Abort;
use std::test::Fail;

/// More items than any text of these tests has.
const BUDGET: u32 = 10_000;

/// Adds the job at the end.
fn add<'a>(jobs: &mut Jobs<ParseJob<'a>>, job: ParseJob<'a>) -> Result<(), AllocError>
    ensures { OnOk result (jobs.new ≡ jobs.old ++ job.entry ∷ []) }
{
    match jobs.push(job) {
        Ok(()) => Ok(()),
        Err(refused) => Err(refused.1),
    }
}

/// A parse of the one text, and one of the other.
fn two<'a>(
    alloc: Global,
    first: (&'a Parser<'a>, &'a Text),
    second: (&'a Parser<'a>, &'a Text),
) -> Result<Turns<ParseJob<'a>>, AllocError>
    requires first { first.0.now ≡ unchanged first.0.now.grammar }
    requires second { second.0.now ≡ unchanged second.0.now.grammar }
{
    let mut jobs = Jobs::new(alloc);
    let job = ParseJob::of(alloc, first.0, first.1, BUDGET, WorkList::Fifo)?;
    add(&mut jobs, job)?;
    let job = ParseJob::of(alloc, second.0, second.1, BUDGET, WorkList::Fifo)?;
    add(&mut jobs, job)?;
    Ok(Turns::new(jobs))
}

/// Asserts that five events are enough for one letter, which has four items and ends with an event
/// of its own, and aren't enough for four letters in pairs.
fn expect_turns(rt: &impl Abort, alloc: Global, letter: Checked, pairs: Checked) -> Result<(), Fail>
    requires letter { IsBuildable letter }
    requires letter_as_it_is { letter ≡ unchanged letter.grammar }
    requires pairs { IsBuildable pairs }
    requires pairs_as_they_are { pairs ≡ unchanged pairs.grammar }
{
    let one = Text::decode(alloc, b"a")?;
    let four = Text::decode(alloc, b"aaaa")?;
    let letter = Parser::of(alloc, &letter)?;
    let pairs = Parser::of(alloc, &pairs)?;
    let mut turns = two(alloc, (&letter, &one), (&pairs, &four))?;
    let played = turns.play(&[Turn { job: 0, events: 5 }, Turn { job: 1, events: 5 }]);
    assert_eq!(rt; played, Ok(()));
    assert!(rt; turns.finished(0));
    assert!(rt; !turns.finished(1));
    Ok(())
}

#[test]
fn parses_take_turns(rt: HostRuntime) -> Result<(), Fail> {
    let alloc = rt.alloc();
    let letter = checked(alloc, LETTER)?;
    let pairs = checked(alloc, "start S; syntax S = S S | \"a\";")?;
    expect_turns(&rt, alloc, letter, pairs)
}
