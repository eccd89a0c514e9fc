//! A parse that goes on by single events.
ghost use Rattle.std.specs.Prelude.{◌≡◌, ◌≢◌, ◌↔◌, ◌+◌, ◌<◌, [], ℕ, None};
ghost use Rattle.std.specs.Prelude.{IsTrue, IfErr, IfOk, OnOk};
ghost use Rattle.ig_core.specs.Lowered.{CoreOf};
ghost use Rattle.ig_core.specs.Notation.{unchanged};
ghost use Rattle.ig_item.specs.declared.run_fault.RunFault.TheVariants.{Budget};
ghost use Rattle.ig_parse.specs.Parses.{IsOver};
ghost use Rattle.ig_command_jobs.specs.Asked.{parse_asked};
ghost use Rattle.ig_command_jobs.specs.Underway.{IsAt};
ghost use Rattle.ig_command_jobs.specs.declared.stage.Stage.TheVariants.{Going};

use crate::ended::{Asked, Ended};
use crate::job::Job;
use crate::parsing::parse_recorded;
use crate::stage::{Stage, stage_behind};
use crate::tickets::Tickets;
use ig_command::WorkList;
use ig_engine::Run;
use ig_item::RunFault;
use ig_plain::budgets_suffice;
use std::alloc::{AllocError, Global};
use std::marker::Model;

/// A parse that goes on by single events, each of which takes an item of a run. The last event
/// finds that none waits any more, or that more are reachable than the budget allows.
#[derive(Drop)]
pub(crate) struct Parsing<'a> {
    asked: Asked<'a>,
    run: Run<'a, Tickets>,
    events: u64,
    stage: Stage,
}

impl<'a> Model for Parsing<'a> {
    ghost use Rattle.ig_command_jobs.specs.Underway.{Underway, IsUnderway, left_at, underway};

    ghost Value = { Underway };

    ghost use Rattle.ig_command_jobs.specs.Coding.{underway_code};

    ghost coded = { underway_code };

    ghost use Rattle.ig_command_jobs.specs.Asked.{parse_asked};

    ghost view = { λ p. underway (parse_asked p.asked) p.events
        (left_at p.stage p.asked.budget p.events) };

    ghost invariant = { λ p. IsUnderway p.asked.parser.now p.asked.input.now p.asked.budget
        p.events p.stage p.run };
}

impl<'a> Parsing<'a> {
    /// The parse before its first event. `Budget` comes exactly where the budget is 0, if memory
    /// doesn't run out before.
    pub(crate) fn start(
        alloc: Global,
        asked: Asked<'a>,
        order: WorkList,
    ) -> Result<Parsing<'a>, RunFault>
        requires as_it_is { asked.parser.now ≡ unchanged asked.parser.now.grammar }
        ensures question { IfOk result (λ p. p.question ≡ parse_asked asked.entry) }
        ensures fresh { IfOk result (λ p. p.taken ≡ 0) }
        ensures over { IfErr result (λ fault. fault ≡ Budget →
            IsOver asked.entry.parser.now asked.entry.input.now asked.entry.budget) }
    {
        let tickets = Tickets::new(alloc, order);
        let core = asked.parser.core();
        match Run::start(alloc, core, asked.input, asked.budget, tickets) {
            Ok(run) => Ok(Parsing {
                asked,
                run,
                events: 0,
                stage: Stage::Going,
            }),
            Err(fault) => Err(fault),
        }
    }

    /// Whether the last event was taken. Takes no memory.
    pub(crate) fn is_finished(&self) -> bool
        ensures { IsTrue result ↔ (self.now.left ≡ 0) }
    {
        self.stage.is_last()
    }

    /// Takes an event, unless the last one was taken, and answers whether that is so afterwards.
    pub(crate) fn step(&mut self) -> Result<bool, AllocError>
        ensures question { self.new.question ≡ self.old.question }
        ensures taken { self.old.left ≢ 0 → OnOk result (self.new.taken ≡ self.old.taken + 1) }
        ensures left { self.old.left ≢ 0 → OnOk result (self.new.left < self.old.left) }
        ensures same { self.old.left ≡ 0 → self.new ≡ self.old }
        ensures answer { IfOk result (λ done. IsTrue done ↔ (self.new.left ≡ 0)) }
    {
        if self.stage.is_last() {
            return Ok(true);
        }
        let stage = take_event(&mut self.run)?;
        self.events += 1;
        self.stage = stage;
        Ok(stage.is_last())
    }

    /// What comes of the parse, of which the last event was taken. Refused only for want of memory.
    pub(crate) fn answer(self, alloc: Global) -> Result<Ended<'a>, AllocError>
        requires { self.left ≡ 0 }
        ensures { IfOk result (λ ended. ended ≡ self.entry.question) }
    {
        let Parsing {
            asked,
            run,
            stage,
            ..
        } = self;
        match stage {
            Stage::Going => unreachable!(),
            Stage::Whole => finish(alloc, asked, run),
            Stage::Over => Ended::over(alloc, asked),
        }
    }
}

/// Takes an event of a run that goes on.
fn take_event(run: &mut Run<'_, Tickets>) -> Result<Stage, AllocError>
    ensures core { run.new.core ≡ run.old.core }
    ensures text { run.new.text ≡ run.old.text }
    ensures budget { run.new.budget ≡ run.old.budget }
    ensures ok { (events : ℕ) → IsAt Going events run.old →
        IfOk result (λ stage. IsAt stage (events + 1) run.new) }
    ensures err { (events : ℕ) → IsAt Going events run.old →
        IfErr result (λ _. IsAt Going events run.new) }
{
    stage_behind(run.step())
}

/// What comes of a parse whose run took all items. Refused only for want of memory.
fn finish<'a>(
    alloc: Global,
    asked: Asked<'a>,
    run: Run<'a, Tickets>,
) -> Result<Ended<'a>, AllocError>
    requires as_it_is { asked.parser.now ≡ unchanged asked.parser.now.grammar }
    requires core { run.core ≡ CoreOf asked.parser.now }
    requires text { run.text ≡ asked.input.now }
    requires budget { run.budget ≡ asked.budget }
    requires going { run.refused ≡ None }
    requires ended { run.state.found.waiting ≡ [] }
    ensures { IfOk result (λ ended. ended ≡ parse_asked asked.entry) }
{
    budgets_suffice();
    let recorded = run.finish()?;
    let told = parse_recorded(alloc, asked.parser, asked.input, recorded, Job::Print);
    Ended::told(alloc, asked, told)
}
