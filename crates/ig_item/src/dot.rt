ghost use Rattle.std.specs.Prelude.{◌≡◌, map, option_map, slice_get};
ghost use Rattle.std.specs.Option.{option_copied};
ghost use Rattle.ig_item.specs.View.{step_of};
ghost use Rattle.ig_item.specs.Behind.{behind_of, behind_dot};

use crate::step::Step;

/// What stands behind a dot.
#[derive(Clone, Copy)]
pub enum Behind<'a> {
    /// This step.
    Next(&'a Step),
    /// Nothing: it is the last dot of the alternative.
    End,
}

/// What stands behind that dot of the steps; `None` exactly where there is no such dot.
pub(crate) fn behind_dot(steps: &[Step], dot: u32) -> Option<Behind<'_>>
    ensures { option_map behind_of result ≡ behind_dot (map step_of steps.now) dot }
{
    if dot as usize == steps.len() {
        return Some(Behind::End);
    }
    let step = step_at(steps, dot)?;
    Some(Behind::Next(step))
}

/// The step behind that dot; `None` exactly where none stands there.
fn step_at(steps: &[Step], dot: u32) -> Option<&Step>
    ensures { option_copied result ≡ slice_get steps.now dot }
{
    steps.get(dot as usize)
}
