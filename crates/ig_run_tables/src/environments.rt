//! Environments by number.
ghost use Rattle.std.specs.Prelude.{IfOk};
ghost use Rattle.ig_item.specs.WellKinded.{NoneTwice};
ghost use Rattle.ig_run_tables.specs.Extends.{Enters, Extends};

use ig_expr::{Values, equal_values_are_one};
use ig_item::number;
use indexmap::IndexSet;
use std::alloc::AllocError;

/// The number of the environment, which is added at the end if it isn't there. Refused where
/// memory lacks, or 32 bits don't hold the number.
pub fn enter_values(envs: &mut IndexSet<Values>, values: Values) -> Result<u32, AllocError>
    ensures extends { Extends envs.old.keys envs.new.keys }
    ensures once { NoneTwice envs.new.keys }
    ensures enters { IfOk result (Enters envs.old.keys envs.new.keys values) }
{
    equal_values_are_one();
    let (k, _) = envs.insert_full(values)?;
    Ok(number(k)?)
}
