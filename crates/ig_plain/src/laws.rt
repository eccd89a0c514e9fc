//! Which budgets are enough. The functions do nothing: their contracts are the laws, each proved
//! for all core grammars and texts that it speaks of.
ghost use Rattle.ig_plain.specs.Examples.{DoubledBudgetsSuffice, DoubledNeedsBudgets};
ghost use Rattle.ig_plain.specs.Laws.{BudgetsSuffice, PlainBudgetsSuffice};

use ig_item::{environments_fit, items_are_in_text, reachable_is_closed};

/// A budget of as many items as a list has that contains all reachable ones is never exceeded. This
/// law computes nothing.
pub fn budgets_suffice()
    ensures { BudgetsSuffice }
{}

/// In a well-kinded core grammar that has no parameters, and whose steps bind nothing, at most
/// D (n + 1) (n + 2) / 2 items are reachable for a text with n characters, where D is the number of
/// dots: a budget of so many is never exceeded. This law computes nothing.
pub fn plain_budgets_suffice()
    ensures { PlainBudgetsSuffice }
{
    items_are_in_text();
    environments_fit();
}

/// Of the core grammar of `start S; syntax S = S S | "a";`, which has seven dots, at most
/// 7 (n + 1) (n + 2) / 2 items are reachable for a text with n characters, and at least
/// n (n + 1) / 2 for n letters `a`. This law computes nothing.
pub fn doubled_budgets()
    ensures suffice { DoubledBudgetsSuffice }
    ensures needed { DoubledNeedsBudgets }
{
    plain_budgets_suffice();
    reachable_is_closed();
}
