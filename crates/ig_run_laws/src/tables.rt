//! The items of a run over their tables.
ghost use Rattle.std.specs.Prelude.{◌≡◌, ◌<◌, Contains, IfOk, OnOk, length};
ghost use Rattle.ig_text.specs.Limits.{numbers_end};
ghost use Rattle.ig_item.specs.Tables.{HaveValues, tables_by};
ghost use Rattle.ig_item.specs.declared.items.Item.{Item as item};

use ig_expr::Values;
use ig_item::{EnvironmentTable, InstanceKey, Item, Items, number};
use indexmap::IndexSet;
use std::alloc::{AllocError, Global};

/// The items over their tables. Each item's instance and environment have to be in them, as has
/// each instance's environment. Refused for want of memory alone, which a table of 4,294,967,296
/// members is, too.
pub fn items_of(
    alloc: Global,
    envs: &IndexSet<Values>,
    keys: Vec<InstanceKey>,
    items: Vec<Item>,
) -> Result<Items, AllocError>
    requires values { HaveValues envs.now.keys keys.items }
    requires instances { (x : item) → Contains items.items x → x.instance < length keys.items }
    requires environments { (x : item) → Contains items.items x → x.env < length envs.now.keys }
    ensures { IfOk result (λ t. t ≡ tables_by keys.items envs.now.keys items.items) }
{
    let envs = envs.as_slice();
    number(envs.len())?;
    number(keys.len())?;
    number(items.len())?;
    let table = table_of(alloc, envs)?;
    Ok(Items::of(keys, table, items))
}

/// The environments, in a table.
fn table_of(alloc: Global, envs: &[Values]) -> Result<EnvironmentTable, AllocError>
    ensures { IfOk result (λ t. t ≡ envs.now) }
{
    let mut table = EnvironmentTable::new(alloc);
    for values in envs {
        table.push(values.as_slice())?;
    }
    Ok(table)
}
