//! What a run records of a core grammar and a text.
ghost use Rattle.std.specs.Prelude.{◌≡◌};
ghost use Rattle.ig_item.specs.Recorded.{IsRecorded, recording};
ghost use Rattle.ig_item.specs.Tables.{AreTables};

use crate::core_grammar::Core;
use crate::items::Items;
use crate::ways::Ways;
use ig_text::Text;
use std::marker::Model;

/// The reachable items of a core grammar and a text, each once, and exactly the ways in which they
/// come about.
#[derive(Drop)]
pub struct Recorded<'a> {
    core: &'a Core,
    text: &'a Text,
    items: Items,
    ways: Ways,
}

impl<'a> Model for Recorded<'a> {
    ghost use Rattle.ig_item.specs.Recorded.{Recording, IsRecorded, recording};

    ghost Value = { Recording };

    ghost use Rattle.ig_item.specs.CodingRecorded.{recording_code};
    ghost use Rattle.ig_item.specs.contracts.core_grammar.Core as grammar;
    ghost use Rattle.ig_item.specs.contracts.items.Items as tables;
    ghost use Rattle.ig_item.specs.contracts.ways.Ways as lists;

    ghost coded = { recording_code grammar.the_row.coded tables.the_row.coded lists.the_row.coded };

    ghost view = { λ r. recording r.core.now r.text.now r.items r.ways };

    ghost invariant = { λ r. IsRecorded (recording r.core.now r.text.now r.items r.ways) };
}

impl<'a> Recorded<'a> {
    /// What was recorded: the items have to be the reachable ones of the core grammar and the text,
    /// nothing may stand twice in a table, and the ways have to be those of the items. Takes no
    /// memory.
    pub fn of(core: &'a Core, text: &'a Text, items: Items, ways: Ways) -> Recorded<'a>
        requires { IsRecorded (recording core.now text.now items ways) }
        ensures { result ≡ recording core.now text.now items ways }
    {
        Recorded {
            core,
            text,
            items,
            ways,
        }
    }

    /// The core grammar. Takes no memory.
    pub fn core(&self) -> &Core
        ensures { result.now ≡ self.now.core }
    {
        self.core
    }

    /// The text. Takes no memory.
    pub fn text(&self) -> &Text
        ensures { result.now ≡ self.now.text }
    {
        self.text
    }

    /// The items. Takes no memory.
    pub fn items(&self) -> &Items
        ensures items { result.now ≡ self.now.tables }
        ensures tables { AreTables self.now.tables }
        ensures recorded { IsRecorded self.now }
    {
        let _number = self.items.len();
        &self.items
    }

    /// How the items came about. Takes no memory.
    pub fn ways(&self) -> &Ways
        ensures ways { result.now ≡ self.now.ways }
        ensures recorded { IsRecorded self.now }
    {
        &self.ways
    }

    /// The items alone. Takes no memory.
    pub fn into_items(self) -> Items
        ensures items { result ≡ self.entry.tables }
        ensures recorded { IsRecorded self.entry }
    {
        self.items
    }
}
