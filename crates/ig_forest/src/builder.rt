//! How the reduced forest is made of what was recorded.
ghost use Rattle.std.specs.Prelude.{◌≡◌, ◌∷◌, [], ◌++◌, IfOk, OnOk, map, length};
ghost use Rattle.ig_forest_live.specs.FirstRoot.{IsFirstRoot};
ghost use Rattle.ig_forest.specs.CodeLiveItems.{AreFound, AreLiveItems, recording_in};
ghost use Rattle.ig_forest.specs.Reduced.{IsReduced};

use crate::forest::Forest;
use crate::item_nodes::{Sources, numbers_of};
use crate::laws::reduced_forest_is_trim;
use crate::nodes::{Nodes, nodes_of};
use ig_expr::Value;
use ig_forest_live::{Found, Links, Mark, lists_of, marks_of, order_of, places_of};
use ig_forest_tables::ForestTables;
use ig_item::{Core, EnvironmentTable, Recorded, environments_fit, stands_before_one};
use ig_text::{Copied, Text, Word, Words};
use std::alloc::{AllocError, Global};

/// The live items of what was recorded, with the tables that they are read from.
#[derive(Clone, Copy)]
pub(crate) struct LiveItems<'a, 'v> {
    pub core: &'a Core,
    pub text: &'a Text,
    pub links: &'a Links<'a>,
    pub found: Found<'a>,
    pub lists: &'a [&'v [Value]],
    pub marks: &'a [Mark],
    /// The numbers of the live items, in the order of their rows.
    pub order: &'a [u32],
}

/// The reduced forest of what was recorded, where that is the number of the first complete item of
/// the root over the whole text.
pub(crate) fn from_recorded(
    alloc: Global,
    recorded: &Recorded,
    root: u32,
) -> Result<Forest, AllocError>
    requires { IsFirstRoot recorded.now root }
    ensures { IfOk result (IsReduced recorded.now.core recorded.now.text) }
{
    let items = recorded.items();
    let list_table = lists_of(alloc, items)?;
    let lists = list_table.as_slice();
    let places = places_of(alloc, items, lists)?;
    let found = Found {
        items: items.items(),
        keys: items.instance_keys(),
        places: places.as_slice(),
    };
    from_found(alloc, recorded, found, lists, root)
}

/// The same, where the lists of values are in order.
fn from_found(
    alloc: Global,
    recorded: &Recorded,
    found: Found,
    lists: &[&[Value]],
    root: u32,
) -> Result<Forest, AllocError>
    requires root { IsFirstRoot recorded.now root }
    requires found { AreFound recorded.now.tables (map (λ l. l.now) lists.now) found }
    ensures { IfOk result (IsReduced recorded.now.core recorded.now.text) }
{
    let links = Links::of(alloc, recorded)?;
    let mark_table = marks_of(alloc, &links, root)?;
    let marks = mark_table.as_slice();
    let order = order_of(alloc, &found, marks, recorded.text().len())?;
    let live = LiveItems {
        core: recorded.core(),
        text: recorded.text(),
        links: &links,
        found,
        lists,
        marks,
        order: order.as_slice(),
    };
    live.forest(alloc, root)
}

impl<'a, 'v> LiveItems<'a, 'v> {
    /// The reduced forest, where that is the number of the first complete item of the root over the
    /// whole text.
    fn forest(&self, alloc: Global, root: u32) -> Result<Forest, AllocError>
        requires live { AreLiveItems self.now }
        requires root { IsFirstRoot (recording_in self.now) root }
        ensures { IfOk result (IsReduced self.now.core.now self.now.text.now) }
    {
        reduced_forest_is_trim();
        environments_fit();
        stands_before_one();
        let nonterminals = self.core.nonterminals();
        let Nodes { table, numbers } = nodes_of(
            alloc,
            self.core,
            &self.found,
            self.marks,
            self.order,
        )?;
        let places = numbers_of(alloc, self.marks.len(), self.order)?;
        let sources = Sources {
            found: self.found,
            links: self.links,
            order: self.order,
            numbers: places.as_slice(),
            nodes: numbers.as_slice(),
        };
        let items = sources.item_nodes(alloc)?;
        let root = sources.node(root);
        let names = copied_names(alloc, self.core, nonterminals)?;
        let lists = copied_lists(alloc, self.lists)?;
        let tables = ForestTables::of(root, names, lists, table, items);
        Ok(Forest::of(tables))
    }
}

/// The names of the nonterminals.
fn copied_names(alloc: Global, core: &Core, nonterminals: u32) -> Result<Words, AllocError>
    requires { nonterminals ≡ length core.now }
    ensures { IfOk result (λ names. names ≡ map (λ n. n.name) core.now) }
{
    let mut names = Words::new(alloc);
    for nt in 0..nonterminals {
        let Some(name) = core.name(nt) else {
            unreachable!()
        };
        let name = name.copy(alloc)?;
        push_name(&mut names, name)?;
    }
    Ok(names)
}

/// Adds a name.
fn push_name(names: &mut Words, name: Word) -> Result<(), AllocError>
    ensures { OnOk result (names.new ≡ names.old ++ name ∷ []) }
{
    names.push(name).map_err(|(_, error)| error)
}

/// The lists, in one table.
fn copied_lists(alloc: Global, lists: &[&[Value]]) -> Result<EnvironmentTable, AllocError>
    ensures { IfOk result (λ table. table ≡ map (λ l. l.now) lists.now) }
{
    let mut table = EnvironmentTable::new(alloc);
    for list in lists {
        table.push(list)?;
    }
    Ok(table)
}
