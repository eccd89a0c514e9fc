//! Rule 3: whether the core grammar and the text have room for an item.
ghost use Rattle.std.specs.Prelude.{◌≡◌, ◌↔◌, IsTrue, MatchOption};
ghost use Rattle.ig_forest_tables.specs.Views.{item_node_view};
ghost use Rattle.ig_item.specs.Laws.{EnvironmentFits};
ghost use Rattle.ig_verify.specs.Code.{shown};
ghost use Rattle.ig_verify.specs.Flaws.{BreaksAtItem, ItemsFit};
ghost use Rattle.ig_verify.specs.Kinds.{all_kinds};
ghost use Rattle.ig_verify.specs.Sound.{ItemFits};

use crate::draft::Draft;
use crate::flaw::Flaw;
use crate::kind_table::{KindRow, kinds_at};
use crate::kinds::have_kinds;
use ig_forest_tables::ItemNode;
use ig_item::{Core, alternatives_are_one};
use ig_text::{Sequence, Text};

/// Whether the item's alternative and dot are there, and its values have the kinds that they ask.
fn environment_fits(core: &Core, table: &[Sequence<KindRow>], it: &ItemNode<'_>) -> bool
    requires { table.now ≡ all_kinds core.now }
    ensures { IsTrue result ↔ EnvironmentFits core.now (shown it.now) }
{
    alternatives_are_one();
    let _number = core.nonterminals();
    let Some(kinds) = kinds_at(table, it.nonterminal, it.alternative, it.dot) else {
        return false;
    };
    let Some(params) = core.kinds(it.nonterminal) else {
        return false;
    };
    if !have_kinds(it.values, params.as_slice()) {
        return false;
    }
    have_kinds(it.env, kinds)
}

/// Whether the core grammar and the text have room for the item.
fn item_fits(core: &Core, text: &Text, table: &[Sequence<KindRow>], it: &ItemNode<'_>) -> bool
    requires { table.now ≡ all_kinds core.now }
    ensures { IsTrue result ↔ ItemFits core.now text.now (item_node_view it.now) }
{
    if it.position < it.start || text.len() < it.position {
        return false;
    }
    environment_fits(core, table, it)
}

/// The first item for which they have no room, if any.
pub(crate) fn item_flaw(
    draft: &Draft,
    core: &Core,
    text: &Text,
    table: &[Sequence<KindRow>],
) -> Option<Flaw>
    requires { table.now ≡ all_kinds core.now }
    ensures { MatchOption result (ItemsFit core.now text.now draft.now)
        (BreaksAtItem core.now text.now draft.now) }
{
    for number in 0..draft.items() {
        let Some(it) = draft.item(number) else {
            unreachable!()
        };
        if !item_fits(core, text, table, &it) {
            return Some(Flaw {
                item: true,
                number,
                rule: 3,
            });
        }
    }
    None
}
