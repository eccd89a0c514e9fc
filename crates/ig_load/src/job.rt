//! The whole of a load.
ghost use Rattle.std.specs.Prelude.{◌≡◌, ◌↔◌, ◌≤◌, length, IfOk, IsTrue};
ghost use Rattle.ig_core.specs.Lowered.{CoreOf};
ghost use Rattle.ig_core.specs.Notation.{unchanged};
ghost use Rattle.ig_item.specs.Tables.{items_of};
ghost use Rattle.ig_item.specs.WellKinded.{NoneTwice};
ghost use Rattle.ig_parse.specs.Parses.{AreReachable, IsParsed};
ghost use Rattle.ig_query.specs.Ambiguity.{IsAmbiguous};
ghost use Rattle.ig_load.specs.Grammar.{LoadGrammar};
ghost use Rattle.ig_load.specs.Summary.{IsSummaryOf, Loads};

use crate::grammar::{load_grammar, load_parser};
use crate::input::{MOST_OPERANDS, load_input};
use crate::laws::load_inputs_are_permitted;
use crate::summary::Summary;
use ig_forest::Forest;
use ig_grammar::Checked;
use ig_heights::Heights;
use ig_item::{Items, Recorded, RunFault};
use ig_parse::{Parser, ambiguity_is_two_permitted, cyclic_is_without_highest};
use ig_query::is_ambiguous;
use ig_queue::Order;
use std::alloc::{AllocError, Global};

/// What the forest of the load's grammar and the input of this size and number has, where no more
/// items than the budget are reachable, in whatever order they are taken. The size is the number of
/// operands, from 1 to [`MOST_OPERANDS`]; 0 is taken for 1. `Budget` comes exactly where more items
/// are reachable, if memory doesn't run out before.
pub fn load(
    alloc: Global,
    size: u32,
    number: u64,
    budget: u32,
    order: Order,
) -> Result<Summary, RunFault>
    requires { size ≤ MOST_OPERANDS }
    ensures { Loads size number budget result }
{
    let grammar = load_grammar(alloc)?;
    load_under(alloc, &grammar, size, number, budget, order)
}

/// The same under that grammar, which is lent, so that no fault behind it has to drop it.
fn load_under(
    alloc: Global,
    grammar: &Checked,
    size: u32,
    number: u64,
    budget: u32,
    order: Order,
) -> Result<Summary, RunFault>
    requires own { grammar.now ≡ unchanged LoadGrammar }
    requires few { size ≤ MOST_OPERANDS }
    ensures { Loads size number budget result }
{
    load_inputs_are_permitted();
    let input = load_input(alloc, size, number)?;
    let parser = load_parser(alloc, grammar)?;
    let recorded = parser.run(alloc, &input, budget, order)?;
    let summary = summarize(alloc, &parser, &recorded)?;
    Ok(summary)
}

/// What the forest of the parser's grammar and the input has, of which this was recorded. A tree
/// has to be permitted.
fn summarize(
    alloc: Global,
    parser: &Parser<'_>,
    recorded: &Recorded<'_>,
) -> Result<Summary, AllocError>
    requires own { recorded.now.core ≡ CoreOf parser.now }
    requires reachable { AreReachable parser.now recorded.now.text recorded.now.tables }
    requires once { NoneTwice (items_of recorded.now.tables) }
    requires parsed { IsParsed parser.now recorded.now.text }
    ensures { IfOk result (IsSummaryOf parser.now recorded.now.text) }
{
    ambiguity_is_two_permitted();
    cyclic_is_without_highest();
    let Some(forest) = parser.forest(alloc, recorded)? else {
        unreachable!()
    };
    let _root = forest.root();
    let heights = Heights::of(alloc, &forest)?;
    Ok(summary_of(recorded.items(), &forest, &heights))
}

/// What these items and this forest with its heights have.
fn summary_of(items: &Items, forest: &Forest, heights: &Heights) -> Summary
    ensures items { result.items ≡ length items.now.items }
    ensures nodes { result.nodes ≡ length forest.now.nodes }
    ensures ambiguous { IsTrue result.ambiguous ↔ IsAmbiguous forest.now }
    ensures cyclic { result.cyclic ≡ heights.now.cyclic }
{
    Summary {
        items: items.len(),
        nodes: forest.nodes(),
        ambiguous: is_ambiguous(forest),
        cyclic: heights.is_cyclic(),
    }
}
