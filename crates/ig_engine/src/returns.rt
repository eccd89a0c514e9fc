//! Items behind calls: callers and callees meet in the stacks, whichever came first.
ghost use Rattle.std.specs.Prelude.{◌≡◌, ◌<◌, length, slice_get, slice_index_or};
ghost use Rattle.std.specs.Prelude.{Contains, IsTrue, OnOk, Some, false};
ghost use Rattle.ig_engine.specs.Adding.{Adds, AreApart, AreNew, IsReturnAtOne, IsReturnBy};
ghost use Rattle.ig_engine.specs.Adding.{IsReturnByOne, ReturnsIn};
ghost use Rattle.ig_engine.specs.Reached.{AreIndexed, AreTables, IsCalling, IsEdge, Says, means};
ghost use Rattle.ig_engine.specs.Reached.{reached, seen};
ghost use Rattle.ig_gss.specs.Nodes.{edges_at, keys_of, pops_at};
ghost use Rattle.ig_gss.specs.declared.marks.Edge as marks;
ghost use Rattle.ig_run_moves.specs.Tables.{no_key};

use crate::laws::laws;
use ig_expr::Values;
use ig_gss::{Edge, Stacks};
use ig_item::{Item, RunFault, Way};
use ig_queue::Schedule;
use ig_run_moves::{Context, Found, behind_return, past_bare};
use indexmap::IndexSet;

/// The item of that number.
pub(crate) fn item_at<S: Schedule + Drop>(found: &Found<S>, number: u32) -> Item
    requires { number < length found.now.items }
    ensures { slice_get found.now.items number ≡ Some result }
{
    found.items()[number as usize]
}

/// The nonterminal of an item.
pub(crate) fn nonterminal_of(stacks: &Stacks, item: Item) -> u32
    requires { item.instance < length (keys_of stacks.now) }
    ensures { result ≡ (slice_index_or (keys_of stacks.now) item.instance no_key).nonterminal }
{
    stacks.keys()[item.instance as usize].nonterminal
}

/// Adds an item behind the call before which the item of the edge stands. It isn't there where the
/// call is the first of its alternative, and is looked up elsewhere.
#[inline(always)]
fn add_behind_call<S: Schedule + Drop>(
    found: &mut Found<S>,
    item: Item,
    edge: Edge,
    done: u32,
    budget: u32,
) -> Result<(), RunFault>
    requires new { IsTrue edge.is_first → Contains found.old.items item → ⊥ }
    requires indexed { edge.is_first ≡ false → Contains found.old.items item →
        Contains found.old.indexed item }
    ensures { ReturnsIn found.old found.new item edge.item done edge.is_first budget result }
{
    let prev = edge.item;
    if edge.is_first {
        return found.push(item, Way::Node { prev, done }, budget);
    }
    found.add_returned(item, prev, done, budget)
}

/// Adds the item behind the call before which the item of the edge stands, for a callee that ended
/// at `end` and is named by the complete item `done`. Inlined into both walks, since an ambiguous
/// text has far more pairs of an edge and a pop than items.
#[inline(always)]
fn return_to<S: Schedule + Drop>(
    context: &Context<'_>,
    envs: &mut IndexSet<Values>,
    found: &mut Found<S>,
    stacks: &Stacks,
    edge: Edge,
    done: u32,
    end: u32,
) -> Result<(), RunFault>
    requires tables { AreTables (reached envs.old.keys stacks.now found.old) }
    requires indexed { AreIndexed context.now.core.now (keys_of stacks.now) found.old }
    requires edge { IsEdge context.now.core.now context.now.text.now
        (reached envs.old.keys stacks.now found.old) edge }
    requires new { IsTrue edge.is_first → AreNew (reached envs.old.keys stacks.now found.old)
        (IsReturnBy context.now.core.now context.now.text.now
        (seen (reached envs.old.keys stacks.now found.old)).items edge.item done end) }
    ensures adds { Adds (IsReturnBy context.now.core.now context.now.text.now
        (seen (reached envs.old.keys stacks.now found.old)).items edge.item done end)
        context.now.budget (reached envs.old.keys stacks.now found.old)
        (reached envs.new.keys stacks.now found.new) result }
    ensures indexed { OnOk result
        (AreIndexed context.now.core.now (keys_of stacks.now) found.new) }
{
    laws();
    let item = item_at(found, edge.item);
    if edge.is_bare {
        let behind = past_bare(item, end)?;
        // By `?`, so that the walk over the edges goes on without a second test.
        add_behind_call(found, behind, edge, done, context.budget)?;
        return Ok(());
    }
    return_qualified(context, envs, found, stacks, item, edge, done, end)
}

/// The same for a call with a label or excluded patterns, before which this item stands.
#[inline(never)]
fn return_qualified<S: Schedule + Drop>(
    context: &Context<'_>,
    envs: &mut IndexSet<Values>,
    found: &mut Found<S>,
    stacks: &Stacks,
    item: Item,
    edge: Edge,
    done: u32,
    end: u32,
) -> Result<(), RunFault>
    requires tables { AreTables (reached envs.old.keys stacks.now found.old) }
    requires indexed { AreIndexed context.now.core.now (keys_of stacks.now) found.old }
    requires there { slice_get found.old.items edge.item ≡ Some item }
    requires calls { IsCalling context.now.core.now context.now.text.now
        (means (reached envs.old.keys stacks.now found.old) item) }
    requires says { Says context.now.core.now context.now.text.now edge
        (means (reached envs.old.keys stacks.now found.old) item) }
    requires new { IsTrue edge.is_first → AreNew (reached envs.old.keys stacks.now found.old)
        (IsReturnBy context.now.core.now context.now.text.now
        (seen (reached envs.old.keys stacks.now found.old)).items edge.item done end) }
    ensures adds { Adds (IsReturnBy context.now.core.now context.now.text.now
        (seen (reached envs.old.keys stacks.now found.old)).items edge.item done end)
        context.now.budget (reached envs.old.keys stacks.now found.old)
        (reached envs.new.keys stacks.now found.new) result }
    ensures indexed { OnOk result
        (AreIndexed context.now.core.now (keys_of stacks.now) found.new) }
{
    laws();
    let nonterminal = nonterminal_of(stacks, item);
    let Some(behind) = behind_return(context, envs, nonterminal, item, end)? else {
        return Ok(());
    };
    add_behind_call(found, behind, edge, done, context.budget)
}

/// The item of the edge meets each pop of the node, which came before it.
pub(crate) fn meet_pops<S: Schedule + Drop>(
    context: &Context<'_>,
    envs: &mut IndexSet<Values>,
    found: &mut Found<S>,
    stacks: &Stacks,
    node: u32,
    edge: Edge,
) -> Result<(), RunFault>
    requires node { node < length stacks.now }
    requires tables { AreTables (reached envs.old.keys stacks.now found.old) }
    requires edge { IsEdge context.now.core.now context.now.text.now
        (reached envs.old.keys stacks.now found.old) edge }
    requires indexed { AreIndexed context.now.core.now (keys_of stacks.now) found.old }
    requires new { IsTrue edge.is_first → AreNew (reached envs.old.keys stacks.now found.old)
        (IsReturnAtOne context.now.core.now context.now.text.now
        (seen (reached envs.old.keys stacks.now found.old)).items edge.item
        (pops_at stacks.now node)) }
    ensures adds { Adds (IsReturnAtOne context.now.core.now context.now.text.now
        (seen (reached envs.old.keys stacks.now found.old)).items edge.item
        (pops_at stacks.now node)) context.now.budget
        (reached envs.old.keys stacks.now found.old)
        (reached envs.new.keys stacks.now found.new) result }
    ensures indexed { OnOk result
        (AreIndexed context.now.core.now (keys_of stacks.now) found.new) }
{
    laws();
    stacks.once();
    for pop in stacks.pops(node) {
        return_to(context, envs, found, stacks, edge, pop.done, pop.end)?;
    }
    Ok(())
}

/// The complete item of number `done`, which stands at `end`, meets each edge of the node, which
/// came before it.
pub(crate) fn meet_edges<S: Schedule + Drop>(
    context: &Context<'_>,
    envs: &mut IndexSet<Values>,
    found: &mut Found<S>,
    stacks: &Stacks,
    node: u32,
    done: u32,
    end: u32,
) -> Result<(), RunFault>
    requires node { node < length stacks.now }
    requires tables { AreTables (reached envs.old.keys stacks.now found.old) }
    requires edges { (e : marks.Edge) → Contains (edges_at stacks.now node) e →
        IsEdge context.now.core.now context.now.text.now
        (reached envs.old.keys stacks.now found.old) e }
    requires indexed { AreIndexed context.now.core.now (keys_of stacks.now) found.old }
    requires new { (e : marks.Edge) → Contains (edges_at stacks.now node) e → IsTrue e.is_first →
        AreNew (reached envs.old.keys stacks.now found.old)
        (IsReturnBy context.now.core.now context.now.text.now
        (seen (reached envs.old.keys stacks.now found.old)).items e.item done end) }
    requires apart { AreApart context.now.core.now context.now.text.now
        (seen (reached envs.old.keys stacks.now found.old)).items (edges_at stacks.now node) done
        end }
    ensures adds { Adds (IsReturnByOne context.now.core.now context.now.text.now
        (seen (reached envs.old.keys stacks.now found.old)).items (edges_at stacks.now node)
        done end) context.now.budget (reached envs.old.keys stacks.now found.old)
        (reached envs.new.keys stacks.now found.new) result }
    ensures indexed { OnOk result
        (AreIndexed context.now.core.now (keys_of stacks.now) found.new) }
{
    laws();
    stacks.once();
    for edge in stacks.edges(node) {
        return_to(context, envs, found, stacks, *edge, done, end)?;
    }
    Ok(())
}
