//! The laws. The functions do nothing: each contract is proved for all core grammars and texts.
ghost use Rattle.ig_run_laws.specs.Laws.{AllFollowsInSomeWay, BeginsAreOne, BindsPass};
ghost use Rattle.ig_run_laws.specs.Laws.{BudgetsSuffice};
ghost use Rattle.ig_run_laws.specs.Laws.{CallersMeetPops, EndedRunsAreComplete, EndedRunsHaveWays};
ghost use Rattle.ig_run_laws.specs.Laws.{EndsKeep, EndsMeetEdges, EventsKeep, EventsTakeOne};
ghost use Rattle.ig_run_laws.specs.Laws.{FirstReturnsAreNew, FirstsAreNew, FirstsAreRecorded};
ghost use Rattle.ig_run_laws.specs.Laws.{NoneIsCalled};
ghost use Rattle.ig_run_laws.specs.Laws.{RefusedBudgetsAreExceeded, ReturnsArePastCalls};
ghost use Rattle.ig_run_laws.specs.Laws.{ReturnsComeByNodes, RunsBegin, StepsComeOnce};
ghost use Rattle.ig_run_laws.specs.Laws.{TerminalsTakeLeaves, TestsPass};

use ig_item::reachable_is_closed;

/// A run begins with the first root item, which waits, and the root's node. This law computes
/// nothing.
pub fn runs_begin()
    ensures { RunsBegin }
{
    reachable_is_closed();
}

/// Behind an event, in which a ticket was taken, its item met the stacks and all that follows was
/// recorded, the run, its stacks and its ways are as before, with one more item that is taken. This
/// law computes nothing.
pub fn events_keep()
    ensures { EventsKeep }
{
    reachable_is_closed();
}

/// The same where the item is complete and its node had a complete item before: it is listed beside
/// that one, and nothing more follows. This law computes nothing.
pub fn ends_keep()
    ensures { EndsKeep }
{
    reachable_is_closed();
}

/// Behind an event exactly the items are taken that were so when its ticket was taken. This law
/// computes nothing.
pub fn events_take_one()
    ensures { EventsTakeOne }
{}

/// What follows from an item that is taken, alone or with one that was taken before, follows in
/// some way. This law computes nothing.
pub fn all_follows_in_some_way()
    ensures { AllFollowsInSomeWay }
{}

/// What follows from an item, and in which way, by the form of the step before which it stands, or
/// where it is complete. This law computes nothing.
pub fn steps_are_followed()
    ensures test { TestsPass }
    ensures bind { BindsPass }
    ensures terminal { TerminalsTakeLeaves }
    ensures call { CallersMeetPops }
    ensures no_call { NoneIsCalled }
    ensures end { EndsMeetEdges }
{}

/// What a return gives by the label and the excluded patterns of the call before which the item
/// stands. This law computes nothing.
pub fn returns_are_past_calls()
    ensures { ReturnsArePastCalls }
{}

/// The first items of an instance that has a node are recorded. This law computes nothing.
pub fn firsts_are_recorded()
    ensures { FirstsAreRecorded }
{}

/// The first items of an instance that has no node aren't found. This law computes nothing.
pub fn firsts_are_new()
    ensures { FirstsAreNew }
{}

/// What follows over a test, a binding or a terminal isn't found before its item is taken. This law
/// computes nothing.
pub fn steps_come_once()
    ensures { StepsComeOnce }
{}

/// What stands behind the first call of its alternative and follows by a node isn't found before,
/// either. This law computes nothing.
pub fn first_returns_are_new()
    ensures { FirstReturnsAreNew }
{}

/// No two items stand at one dot of an alternative of one instance, up to its first call. This law
/// computes nothing.
pub fn begins_are_one()
    ensures { BeginsAreOne }
{}

/// What follows and stands behind a call follows by a node. This law computes nothing.
pub fn returns_come_by_nodes()
    ensures { ReturnsComeByNodes }
{}

/// Where an event finds more items than the budget, more follow from those that are taken, and more
/// are reachable. This law computes nothing.
pub fn refused_budgets_are_exceeded()
    ensures { RefusedBudgetsAreExceeded }
{
    reachable_is_closed();
}

/// Where a run has found no more items than the budget, no more follow from those that are taken.
/// This law computes nothing.
pub fn budgets_suffice()
    ensures { BudgetsSuffice }
{}

/// At the empty schedule the found items are exactly the reachable ones. This law computes nothing.
pub fn ended_runs_are_complete()
    ensures { EndedRunsAreComplete }
{}

/// And with the least number of a complete item as the name of its node, each of them came about in
/// exactly the ways that the rules give. This law computes nothing.
pub fn ended_runs_have_ways()
    ensures { EndedRunsHaveWays }
{}
