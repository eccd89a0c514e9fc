//! The laws of the crates below that a run rests on.
ghost use Rattle.ig_engine.specs.Given.{Given, Runs, Tables};

use ig_run_laws::{
    begins_are_one, ends_keep, events_keep, first_returns_are_new, firsts_are_new,
    firsts_are_recorded, refused_budgets_are_exceeded, returns_come_by_nodes, runs_begin,
    steps_are_followed, steps_come_once,
};
use ig_run_moves::{
    before_binds, before_calls, before_terminals, before_tests, calls_are_one, complete_items_end,
    ends_are_complete, firsts_are_named, instances_are_kept, instances_are_one, items_are_one,
    names_are_kept, steps_are_behind,
};

/// What stored items stand for, and what comes of one. This computes nothing.
fn of_tables()
    ensures { Tables }
{
    names_are_kept();
    instances_are_kept();
    instances_are_one();
    items_are_one();
    firsts_are_named();
    calls_are_one();
    before_calls();
    before_tests();
    before_binds();
    before_terminals();
    complete_items_end();
    steps_are_behind();
    ends_are_complete();
}

/// What an event does. This computes nothing.
fn of_runs()
    ensures { Runs }
{
    runs_begin();
    events_keep();
    ends_keep();
    steps_are_followed();
    firsts_are_new();
    firsts_are_recorded();
    steps_come_once();
    first_returns_are_new();
    begins_are_one();
    returns_come_by_nodes();
    refused_budgets_are_exceeded();
}

/// All of them. This computes nothing.
pub(crate) fn laws()
    ensures { Given }
{
    of_tables();
    of_runs();
}
