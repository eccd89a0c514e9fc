//! What a run has come to.

use ig_expr::Values;
use ig_gss::Stacks;
use ig_queue::Schedule;
use ig_run_moves::Found;
use indexmap::IndexSet;

/// What a run has come to: the environments and the stacks that its items name by number, and what
/// it has found.
#[derive(Drop)]
pub(crate) struct State<S: Schedule + Drop> {
    pub(crate) envs: IndexSet<Values>,
    pub(crate) found: Found<S>,
    pub(crate) stacks: Stacks,
}
