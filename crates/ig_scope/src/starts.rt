//! What holds at the start line and the line of the width of tabs.

ghost use Rattle.std.specs.Prelude.{◌≡◌, if◌then◌else◌, Some, None};
ghost use Rattle.ig_grammar.specs.Condition.{StartMeets};
ghost use Rattle.ig_grammar.specs.Tabs.{says_bad_width};
ghost use Rattle.ig_scope.specs.Causes.{Tells};

use crate::cause::ScopeCause;
use ig_grammar::{Declarations, Grammar};

/// Of the conditions that hold at these lines the one of the least number; `None` exactly where
/// none holds there. The declarations are those of the grammar.
pub fn start_cause(declarations: &Declarations, grammar: &Grammar) -> Option<ScopeCause>
    requires { declarations.now ≡ grammar.now.decls }
    ensures { Tells (StartMeets grammar.now) result }
{
    match &grammar.start {
        Some(name) => match declarations.find(name) {
            Some(decl) => {
                if decl.params.as_slice().is_empty() {
                    tabs_cause(grammar.tabs)
                } else {
                    Some(ScopeCause::StartHasParameters)
                }
            }
            None => Some(ScopeCause::UnknownName),
        },
        None => Some(ScopeCause::NoStart),
    }
}

/// The widest that tabs may be.
const MOST_TABS: i64 = 16;

/// `BadTabs` where the width isn't one that tabs may have.
fn tabs_cause(tabs: Option<i64>) -> Option<ScopeCause>
    ensures { result ≡ (if says_bad_width tabs then Some ScopeCause.BadTabs else None) }
{
    match tabs {
        Some(width) => {
            if 1 <= width && width <= MOST_TABS {
                None
            } else {
                Some(ScopeCause::BadTabs)
            }
        }
        None => None,
    }
}
