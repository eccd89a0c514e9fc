//! How many items there may be.
ghost use Rattle.std.specs.Prelude.{◌≡◌, ◌<◌, ◌≤◌, IfErr, OnErr, OnOk};
ghost use Rattle.ig_item.specs.declared.run_fault.RunFault.TheVariants.{Budget};

use ig_item::RunFault;

/// `Budget` exactly where there are more items than the budget.
pub fn within_budget(items: usize, budget: u32) -> Result<(), RunFault>
    ensures within { OnOk result (items ≤ budget) }
    ensures over { OnErr result (budget < items) }
    ensures fault { IfErr result (λ fault. fault ≡ Budget) }
{
    if items > budget as usize {
        return Err(RunFault::Budget);
    }
    Ok(())
}
