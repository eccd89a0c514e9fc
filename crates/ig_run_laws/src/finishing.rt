//! The answer of a run.
ghost use Rattle.std.specs.Prelude.{◌≡◌, ◌<◌, ℕ, Contains, IfOk, length};
ghost use Rattle.ig_item.specs.Recorded.{IsRecorded, recording};
ghost use Rattle.ig_item.specs.Tables.{HaveValues, tables_by};
ghost use Rattle.ig_item.specs.declared.items.Item.{Item as item};
ghost use Rattle.ig_run_laws.specs.Renamed.{IsRenamed};
ghost use Rattle.ig_run_laws.specs.Renaming.{GivesLeast, renamed};

use crate::renaming::rename;
use crate::tables::items_of;
use ig_expr::Values;
use ig_item::{Core, InstanceKey, Item, Recorded, Ways};
use ig_text::Text;
use indexmap::IndexSet;
use std::alloc::{AllocError, Global};

/// What a run over the core grammar and the text recorded: its items, over the tables that they
/// name, and their ways, in which each node is named by its least complete item. With these names
/// they have to be the reachable items and exactly their ways. Refused for want of memory alone,
/// which a table of 4,294,967,296 members is, too.
pub fn finish<'a>(
    alloc: Global,
    core: &'a Core,
    text: &'a Text,
    envs: &IndexSet<Values>,
    keys: Vec<InstanceKey>,
    items: Vec<Item>,
    ways: Ways,
) -> Result<Recorded<'a>, AllocError>
    requires values { HaveValues envs.now.keys keys.items }
    requires instances { (x : item) → Contains items.items x → x.instance < length keys.items }
    requires environments { (x : item) → Contains items.items x → x.env < length envs.now.keys }
    requires recorded { (least : ℕ → ℕ) → GivesLeast ways.ends least → IsRecorded
        (recording core.now text.now (tables_by keys.items envs.now.keys items.items)
        (renamed least ways)) }
    ensures core { IfOk result (λ r. r.core ≡ core.now) }
    ensures text { IfOk result (λ r. r.text ≡ text.now) }
    ensures tables { IfOk result (λ r.
        r.tables ≡ tables_by keys.items envs.now.keys items.items) }
    ensures ways { IfOk result (λ r. IsRenamed ways r.ways) }
    ensures recorded { IfOk result IsRecorded }
{
    let ways = rename(alloc, ways)?;
    let items = items_of(alloc, envs, keys, items)?;
    Ok(Recorded::of(core, text, items, ways))
}
