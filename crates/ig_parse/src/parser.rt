//! Parsers of one grammar.
ghost use Rattle.std.specs.Prelude.{◌≡◌, ◌≢◌, ◌<◌, ◌≤◌, IfErr, IfOk};
ghost use Rattle.ig_core.specs.Lowered.{CoreOf, IsBuildable, IsNumbered};
ghost use Rattle.ig_text.specs.Input.{IsTabWidth};
ghost use Rattle.ig_grammar.specs.Tabs.{tab_width};
ghost use Rattle.ig_item.specs.Core.{dots};
ghost use Rattle.ig_item.specs.Limits.{most_dots};
ghost use Rattle.ig_core.specs.declared.fault.CoreFault.TheVariants as core_fault;
ghost use Rattle.ig_parse.specs.Parses.{AreReachable, Finds, IsTooMany, MayHaveForest, Parses};
ghost use Rattle.ig_query.specs.Report.{IsReport};
ghost use Rattle.ig_parse.specs.declared.fault.ParseFault.TheVariants.{NoParse, TooManyDots};

use crate::fault::ParseFault;
use crate::run::run_in;
use ig_core::{
    CoreFault, build, core_trees_are_permitted_trees, tags_rise_in_cores, values_are_those_of_core,
};
use ig_forest::{
    Forest, cursors_are_ordered_as_trees, reduced_forest_has_root, reduced_forest_is_unique,
    reduced_forest_unfolds_to_core_trees, tree_has_one_cursor,
};
use ig_grammar::Checked;
use ig_item::{Core, Items, Recorded, RunFault, complete_root_items_are_trees};
use ig_meaning::derivations_are_annotated;
use ig_query::report;
use ig_queue::Order;
use ig_show_trees::Report;
use ig_text::Text;
use std::alloc::{AllocError, Global};
use std::marker::Model;

/// A parser of one grammar. It keeps the grammar's core grammar.
#[derive(Drop)]
pub struct Parser<'g> {
    grammar: &'g Checked,
    core: Core,
}

impl<'g> Model for Parser<'g> {
    ghost use Rattle.std.specs.Prelude.{◌≡◌};
    ghost use Rattle.ig_core.specs.Lowered.{CoreOf, IsBuildable, IsNumbered};
    ghost use Rattle.ig_grammar.specs.Checked.{CheckedGrammar};
    ghost use Rattle.ig_grammar.specs.CodingChecked.{checked_code};

    ghost Value = { CheckedGrammar };

    ghost coded = { checked_code };

    ghost view = { λ p. p.grammar.now };

    ghost invariant = { λ p. IsBuildable p.grammar.now × IsNumbered p.grammar.now ×
        (p.core ≡ CoreOf p.grammar.now) };
}

impl<'g> Parser<'g> {
    /// The parser of a grammar that the passes take. `TooManyDots` comes only where its core
    /// grammar has more than `MOST_DOTS` dots, and then no parser comes. `Memory` also stands for
    /// what [`build`](ig_core::build) names beside it.
    pub fn of(alloc: Global, grammar: &'g Checked) -> Result<Parser<'g>, CoreFault>
        requires buildable { IsBuildable grammar.now }
        ensures same { IfOk result (λ parser. parser ≡ grammar.now) }
        ensures few { IfOk result (λ parser. dots (CoreOf grammar.now) ≤ most_dots) }
        ensures exact { IfErr result (λ fault. fault ≡ core_fault.TooManyDots →
            most_dots < dots (CoreOf grammar.now)) }
    {
        let core = build(alloc, grammar)?;
        Ok(Parser::with_core(grammar, core))
    }

    /// The parser of a grammar that the passes take, whose core grammar was built before. Takes no
    /// memory.
    pub fn with_core(grammar: &'g Checked, core: Core) -> Parser<'g>
        requires buildable { IsBuildable grammar.now }
        requires numbered { IsNumbered grammar.now }
        requires core { core ≡ CoreOf grammar.now }
        ensures { result ≡ grammar.now }
    {
        Parser { grammar, core }
    }

    /// The grammar. Takes no memory.
    pub fn grammar(&self) -> &Checked
        ensures { result.now ≡ self.now }
    {
        self.grammar
    }

    /// The width of tabs that the grammar says, from 1 to 16; 1 where it says none. Takes no
    /// memory.
    pub fn tab_width(&self) -> u32
        ensures width { result ≡ tab_width self.now.grammar.tabs }
        ensures allowed { IsTabWidth result }
    {
        self.grammar.tab_width()
    }

    /// The core grammar. Takes no memory.
    pub fn core(&self) -> &Core
        ensures { result.now ≡ CoreOf self.now }
    {
        &self.core
    }

    /// The reachable items of the core grammar and the text, each once, and how they come about;
    /// they are taken in that order, and are the same in each. `Budget` comes exactly where there
    /// are more than `budget`, if memory doesn't run out before.
    pub fn run<'p>(
        &'p self,
        alloc: Global,
        text: &'p Text,
        budget: u32,
        order: Order,
    ) -> Result<Recorded<'p>, RunFault>
        ensures { Finds self.now text.now budget result }
    {
        let _nonterminals = self.core.nonterminals();
        run_in(alloc, order, &self.core, text, budget)
    }

    /// The reduced forest of exactly the permitted trees of the whole text that was recorded with
    /// the parser's core grammar; `None` exactly where no tree is permitted. Refuses only for want
    /// of memory.
    pub fn forest(
        &self,
        alloc: Global,
        recorded: &Recorded<'_>,
    ) -> Result<Option<Forest>, AllocError>
        requires own { recorded.now.core ≡ CoreOf self.now }
        ensures { IfOk result (MayHaveForest self.now recorded.now.text) }
    {
        core_trees_are_permitted_trees();
        complete_root_items_are_trees();
        reduced_forest_has_root();
        reduced_forest_unfolds_to_core_trees();
        reduced_forest_is_unique();
        tree_has_one_cursor();
        cursors_are_ordered_as_trees();
        tags_rise_in_cores();
        derivations_are_annotated();
        values_are_those_of_core();
        let _nonterminals = self.core.nonterminals();
        Forest::of_recorded(alloc, recorded)
    }

    /// How far the items came in the text, whose reachable items these have to be, and what they
    /// expected there. Refuses only for want of memory.
    pub fn report(&self, alloc: Global, items: &Items, text: &Text) -> Result<Report, AllocError>
        requires reachable { AreReachable self.now text.now items.now }
        ensures { IfOk result (IsReport (CoreOf self.now) text.now) }
    {
        let _nonterminals = self.core.nonterminals();
        report(alloc, items, &self.core, text)
    }

    /// The reduced forest of exactly the permitted trees of the whole text. `Budget` comes exactly
    /// where more than `budget` items are reachable, else `NoParse`, with the report, exactly where
    /// no tree is permitted; `TooManyDots` never comes.
    pub fn parse(&self, alloc: Global, text: &Text, budget: u32) -> Result<Forest, ParseFault>
        ensures parses { Parses self.now text.now budget result }
        ensures dots { IfErr result (λ fault. fault ≢ TooManyDots) }
    {
        let recorded = self.run(alloc, text, budget, Order::Fifo)?;
        match self.forest(alloc, &recorded)? {
            Some(forest) => Ok(forest),
            None => {
                let report = self.report(alloc, recorded.items(), text)?;
                Err(no_parse(report))
            }
        }
    }
}

/// No tree is permitted, as the report tells.
fn no_parse(report: Report) -> ParseFault
    ensures { result ≡ NoParse report }
{
    ParseFault::NoParse(report)
}

/// The reduced forest of exactly the trees that the grammar permits for the whole text. But for
/// want of memory the faults come exactly as these: `TooManyDots` where the grammar's core grammar
/// has more than `MOST_DOTS` dots, else `Budget` where more than `budget` items are reachable, else
/// `NoParse`, with the report, where no tree is permitted.
pub fn parse(
    alloc: Global,
    grammar: &Checked,
    text: &Text,
    budget: u32,
) -> Result<Forest, ParseFault>
    requires buildable { IsBuildable grammar.now }
    ensures parses { Parses grammar.now text.now budget result }
    ensures many { most_dots < dots (CoreOf grammar.now) → IsTooMany result }
{
    Parser::of(alloc, grammar)?.parse(alloc, text, budget)
}
