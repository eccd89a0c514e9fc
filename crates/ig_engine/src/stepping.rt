//! A run, one ticket at a time.
ghost use Rattle.std.specs.Prelude.{◌≡◌, ◌<◌, [], List, MatchResult, None, Some, Err, Ok};
ghost use Rattle.std.specs.Prelude.{◌≤◌, IfErr, IfOk, length};
ghost use Rattle.ig_text.specs.Input.{Input};
ghost use Rattle.ig_engine.specs.Adding.{Events};
ghost use Rattle.ig_engine.specs.Reached.{Taking, reached};
ghost use Rattle.ig_engine.specs.Running.{IsBetween};
ghost use Rattle.ig_engine.specs.Stepping.{IsBegun, IsEmpty, IsUnbegun, Steps};
ghost use Rattle.ig_item.specs.Recorded.{IsRecorded};
ghost use Rattle.ig_item.specs.declared.core_grammar.Nonterminal as tree;
ghost use Rattle.ig_item.specs.declared.run_fault.RunFault as fault;
ghost use Rattle.ig_run_tables.specs.Names.{all_dots};

use crate::ending::recorded;
use crate::events::take;
use crate::laws::laws;
use crate::progress::Progress;
use crate::state::State;
use ig_expr::Values;
use ig_gss::Stacks;
use ig_item::{Core, InstanceKey, Item, Recorded, RunFault, Way};
use ig_queue::Schedule;
use ig_run_moves::{Context, Found, first_item};
use ig_run_tables::{Dots, dots_of_core, enter_values};
use ig_text::{Sequence, Text};
use indexmap::IndexSet;
use std::alloc::{AllocError, Global};
use std::marker::Model;

/// A run over a work list. Between two steps without a refusal exactly those items are found that
/// follow from the ones taken, in exactly the ways that the rules give, and its stacks are those of
/// the items taken.
#[derive(Drop)]
pub struct Run<'a, S: Schedule + Drop> {
    alloc: Global,
    core: &'a Core,
    text: &'a Text,
    dots: Sequence<Sequence<Dots>>,
    budget: u32,
    state: State<S>,
    refused: Option<RunFault>,
}

impl<'a, S: Schedule + Drop> Model for Run<'a, S> {
    ghost use Rattle.std.specs.Prelude.{◌≡◌};
    ghost use Rattle.ig_engine.specs.Reached.{reached};
    ghost use Rattle.ig_engine.specs.Running.{IsBetween, Running, running};
    ghost use Rattle.ig_run_tables.specs.Names.{all_dots};

    ghost Value = { Running };

    ghost use Rattle.ig_engine.specs.CodingRunning.{running_code};

    ghost coded = { running_code };

    ghost view = { λ r. running r.core.now r.text.now r.budget
        (reached r.state.envs.keys r.state.stacks r.state.found) r.refused };

    ghost invariant = { λ r. (r.dots ≡ all_dots r.core.now) ×
        IsBetween (running r.core.now r.text.now r.budget
        (reached r.state.envs.keys r.state.stacks r.state.found) r.refused) };
}

/// Finds the first root item, in a state in which nothing is there. `Budget` exactly where the
/// budget is 0.
fn begin<S: Schedule + Drop>(
    alloc: Global,
    state: &mut State<S>,
    budget: u32,
) -> Result<(), RunFault>
    requires { IsEmpty (reached state.old.envs.keys state.old.stacks state.old.found) }
    ensures { (core : List tree.Nonterminal) (text : Input) → MatchResult result
        (λ _. IsBegun core text budget
        (reached state.new.envs.keys state.new.stacks state.new.found))
        (IsUnbegun core text budget) }
{
    laws();
    let env = enter_values(&mut state.envs, Values::new(alloc))?;
    let key = InstanceKey {
        nonterminal: 0,
        env,
        start: 0,
    };
    let (root, _) = state.stacks.node(key)?;
    let first = first_item(root, key, 1);
    state.found.push(first, Way::Begin, budget)
}

/// A state in which the first root item is found.
fn begun<S: Schedule + Drop>(alloc: Global, budget: u32, schedule: S) -> Result<State<S>, RunFault>
    requires { S.waiting schedule ≡ [] }
    ensures { (core : List tree.Nonterminal) (text : Input) → MatchResult result
        (λ state. IsBegun core text budget (reached state.envs.keys state.stacks state.found))
        (IsUnbegun core text budget) }
{
    let mut state = State {
        envs: IndexSet::new(alloc),
        found: Found::new(alloc, schedule)?,
        stacks: Stacks::new(alloc),
    };
    begin(alloc, &mut state, budget)?;
    Ok(state)
}

/// Takes the item of that number, by what a run goes by.
fn take_in<S: Schedule + Drop>(
    alloc: Global,
    core: &Core,
    text: &Text,
    dots: &[Sequence<Dots>],
    budget: u32,
    state: &mut State<S>,
    item: Item,
    number: u32,
) -> Result<(), RunFault>
    requires known { dots.now ≡ all_dots core.now }
    requires taking { Taking core.now text.now budget item number
        (reached state.old.envs.keys state.old.stacks state.old.found) }
    ensures { Events core.now text.now budget
        (reached state.old.envs.keys state.old.stacks state.old.found)
        (reached state.new.envs.keys state.new.stacks state.new.found) result }
{
    let context = Context {
        alloc,
        core,
        text,
        dots,
        budget,
    };
    take(&context, state, item, number)
}

impl<'a, S: Schedule + Drop> Run<'a, S> {
    /// A run that has found the first root item. `Budget` exactly where the budget is 0, if memory
    /// doesn't run out before; refused, it drops the schedule.
    pub fn start(
        alloc: Global,
        core: &'a Core,
        text: &'a Text,
        budget: u32,
        schedule: S,
    ) -> Result<Run<'a, S>, RunFault>
        requires { S.waiting schedule ≡ [] }
        ensures core { IfOk result (λ r. r.core ≡ core.now) }
        ensures text { IfOk result (λ r. r.text ≡ text.now) }
        ensures budget { IfOk result (λ r. r.budget ≡ budget) }
        ensures going { IfOk result (λ r. r.refused ≡ None) }
        ensures begun { IfOk result (λ r. IsBegun core.now text.now budget r.state) }
        ensures fault { IfErr result (IsUnbegun core.now text.now budget) }
    {
        let dots = dots_of_core(alloc, core)?;
        let state = begun(alloc, budget, schedule)?;
        Ok(Run {
            alloc,
            core,
            text,
            dots,
            budget,
            state,
            refused: None,
        })
    }

    /// Takes the ticket that the schedule gives and finds all that follows from its item and those
    /// taken before; `Done` exactly where no ticket waits, and then nothing changes. `Budget`
    /// exactly where more items than the budget follow from those taken, if memory doesn't run out
    /// before. After a refusal each later step answers the same and changes nothing.
    pub fn step(&mut self) -> Result<Progress, RunFault>
        ensures core { self.new.core ≡ self.old.core }
        ensures text { self.new.text ≡ self.old.text }
        ensures budget { self.new.budget ≡ self.old.budget }
        ensures again { (f : fault.RunFault) → self.old.refused ≡ Some f → result ≡ Err f }
        ensures still { (f : fault.RunFault) → self.old.refused ≡ Some f → self.new ≡ self.old }
        ensures steps { self.old.refused ≡ None → Steps self.old.core self.old.text
            self.old.budget self.old.state self.new.state result }
        ensures between { IsBetween self.new }
        ensures refused { IfErr result (λ f. self.new.refused ≡ Some f) }
        ensures going { IfOk result (λ _. self.new.refused ≡ None) }
    {
        if let Some(fault) = self.refused {
            return Err(fault);
        }
        let Some((number, item)) = self.state.found.take() else {
            return Ok(Progress::Done);
        };
        let taken = take_in(
            self.alloc,
            self.core,
            self.text,
            self.dots.as_slice(),
            self.budget,
            &mut self.state,
            item,
            number,
        );
        match taken {
            Ok(()) => Ok(Progress::More),
            Err(fault) => {
                self.refused = Some(fault);
                Err(fault)
            }
        }
    }

    /// How many items are found. Takes no memory.
    pub fn len(&self) -> usize
        ensures { result ≡ length self.now.state.found.items }
    {
        self.state.found.items().len()
    }

    /// What a run found whose last step answered `Done`: the items that are reachable, each once,
    /// and exactly the ways in which they come about. Refused for want of memory alone, which a
    /// table of 4,294,967,296 members is, too.
    pub fn finish(self) -> Result<Recorded<'a>, AllocError>
        requires going { self.refused ≡ None }
        requires ended { self.state.found.waiting ≡ [] }
        ensures core { IfOk result (λ r. r.core ≡ self.entry.core) }
        ensures text { IfOk result (λ r. r.text ≡ self.entry.text) }
        ensures items { IfOk result (λ r. r.tables.items ≡ self.entry.state.found.items) }
        ensures within { IfOk result (λ r. length r.tables.items ≤ self.entry.budget) }
        ensures recorded { IfOk result IsRecorded }
    {
        let Run {
            alloc,
            core,
            text,
            state,
            ..
        } = self;
        recorded(alloc, core, text, state)
    }
}
