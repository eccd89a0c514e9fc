//! Tables that are filled row by row.
ghost use Rattle.std.specs.Prelude.{◌≡◌, [], ◌∷◌, ◌++◌, OnOk};

use ig_text::Sequence;
use std::alloc::AllocError;

/// Adds a row.
pub fn push_row<T: Drop>(rows: &mut Sequence<T>, row: T) -> Result<(), AllocError>
    ensures { OnOk result (rows.new ≡ rows.old ++ row ∷ []) }
{
    rows.push(row).map_err(|(_, error)| error)
}
