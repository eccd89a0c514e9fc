//! Columns that were worked out by hand.
ghost use Rattle.ig_text.specs.Examples.{WorkedColumns};

/// The columns of some texts with tabs are those that were worked out by hand. This computes
/// nothing.
pub fn columns_are_worked()
    ensures { WorkedColumns }
{}
