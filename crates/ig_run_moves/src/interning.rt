//! The environments of called instances.
ghost use Rattle.std.specs.Prelude.{◌≡◌, ◌↔◌, ◌<◌, [], length, slice_get};
ghost use Rattle.std.specs.Prelude.{IfOk, IsTrue, Some, slice_index_or};
ghost use Rattle.ig_item.specs.WellKinded.{NoneTwice};
ghost use Rattle.ig_run_tables.specs.Compiled.{values_in};
ghost use Rattle.ig_run_tables.specs.Extends.{Enters, Extends};

use ig_expr::Values;
use ig_run_tables::{Arguments, enter_values};
use indexmap::IndexSet;
use std::alloc::AllocError;

/// The number of the environment that has the arguments' values, where the caller's is `env`. It is
/// added if it isn't there.
pub fn enter_arguments(
    envs: &mut IndexSet<Values>,
    arguments: Arguments,
    env: u32,
) -> Result<u32, AllocError>
    requires there { env < length envs.old.keys }
    ensures extends { Extends envs.old.keys envs.new.keys }
    ensures once { NoneTwice envs.old.keys → NoneTwice envs.new.keys }
    ensures enters { IfOk result (Enters envs.old.keys envs.new.keys
        (values_in (slice_index_or envs.old.keys env []) arguments)) }
{
    match arguments {
        Arguments::Own => Ok(env),
        Arguments::Listed(values) => enter_list(envs, values),
    }
}

/// The number of the environment, which is added if it isn't there. The one without values mostly
/// is the first; then no look-up is needed.
fn enter_list(envs: &mut IndexSet<Values>, values: Values) -> Result<u32, AllocError>
    requires some { 0 < length envs.old.keys }
    ensures extends { Extends envs.old.keys envs.new.keys }
    ensures once { NoneTwice envs.old.keys → NoneTwice envs.new.keys }
    ensures enters { IfOk result (Enters envs.old.keys envs.new.keys values) }
{
    if values.as_slice().is_empty() && first_is_empty(envs) {
        return Ok(0);
    }
    enter_values(envs, values)
}

/// Whether the first environment has no values.
fn first_is_empty(envs: &IndexSet<Values>) -> bool
    requires { 0 < length envs.now.keys }
    ensures { IsTrue result ↔ (slice_get envs.now.keys 0 ≡ Some []) }
{
    envs.as_slice()[0].as_slice().is_empty()
}
