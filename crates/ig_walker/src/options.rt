//! The options of a goal, and which of them lead on.
ghost use Rattle.std.specs.Prelude.{◌≡◌, ◌↔◌, [], ◌∷◌, IsTrue, MatchOption};
ghost use Rattle.std.specs.Prelude.{length, map, option_map, slice_get};
ghost use Rattle.ig_walker.specs.Behind.{listed};
ghost use Rattle.ig_heights.specs.Table.{choices_in, entries_in};
ghost use Rattle.ig_walker.specs.Options.{behind_choice, behind_entry};
ghost use Rattle.ig_walker.specs.Options.{options};
ghost use Rattle.ig_walker.specs.States.{FirstOption, LeadsOn, LeadsNowhere};
ghost use Rattle.ig_walker.specs.Walks.{Opens, Passed};
ghost use Rattle.ig_walker.specs.declared.goal.Goal.TheVariants.{Node};

use crate::goal::{Behind, Goal};
use crate::measured::Measured;
use ig_forest::{Child, Choice, Entry};

/// The alternatives of a node; none where it isn't there.
pub fn alternatives_of<'f>(forest: &Measured<'f>, node: u32) -> &'f [Choice]
    ensures { result.now ≡ choices_in (slice_get forest.now.nodes node) }
{
    match forest.node(node) {
        Some(found) => found.alternatives,
        None => &[],
    }
}

/// The entries of an item node; none where it isn't there.
pub fn entries_of<'f>(forest: &Measured<'f>, item: u32) -> &'f [Entry]
    ensures { result.now ≡ entries_in (slice_get forest.now.items item) }
{
    match forest.item(item) {
        Some(found) => found.entries,
        None => &[],
    }
}

/// The number of options of a goal.
pub fn count_options(forest: &Measured, goal: Goal) -> usize
    ensures { result ≡ length (options forest.now goal) }
{
    match goal {
        Goal::Node { node, depth } => {
            if depth == 0 {
                0
            } else {
                alternatives_of(forest, node).len()
            }
        }
        Goal::Item { item, depth: _ } => entries_of(forest, item).len(),
        Goal::Leaf(_) => 1,
    }
}

/// The goals behind an alternative: its item, from which the walk goes back to the first step.
fn behind_choice(choice: Choice, depth: u32) -> Behind
    ensures { listed result ≡ behind_choice depth choice }
{
    Behind::One(Goal::Item {
        item: choice.item,
        depth,
    })
}

/// The goals behind an entry: the previous item, then the child.
fn behind_entry(entry: Entry, depth: u32) -> Behind
    ensures { listed result ≡ behind_entry depth entry }
{
    match entry {
        Entry::Begin => Behind::Nothing,
        Entry::Pass { prev } => Behind::One(Goal::Item { item: prev, depth }),
        Entry::Take {
            prev,
            child: Child::Node(node),
        } => Behind::Two(Goal::Item { item: prev, depth }, Goal::Node { node, depth }),
        Entry::Take {
            prev,
            child: Child::Leaf(span),
        } => Behind::Two(Goal::Item { item: prev, depth }, Goal::Leaf(span)),
    }
}

/// The goals behind an alternative by its number; `None` exactly where the number isn't there.
fn alternative_at(choices: &[Choice], number: usize, depth: u32) -> Option<Behind>
    ensures { option_map listed result ≡ slice_get (map (behind_choice depth) choices.now) number }
{
    match choices.get(number) {
        Some(choice) => Some(behind_choice(*choice, depth)),
        None => None,
    }
}

/// The goals behind an entry by its number; `None` exactly where the number isn't there.
fn entry_at(entries: &[Entry], number: usize, depth: u32) -> Option<Behind>
    ensures { option_map listed result ≡ slice_get (map (behind_entry depth) entries.now) number }
{
    match entries.get(number) {
        Some(entry) => Some(behind_entry(*entry, depth)),
        None => None,
    }
}

/// The goals behind an alternative of a node, by its number; `None` exactly where the number isn't
/// there, or no depth is left.
fn node_option(forest: &Measured, node: u32, depth: u32, number: usize) -> Option<Behind>
    ensures { option_map listed result ≡ slice_get (options forest.now (Node node depth)) number }
{
    if depth == 0 {
        return None;
    }
    alternative_at(alternatives_of(forest, node), number, depth - 1)
}

/// The goals behind an option of a goal, by its number; `None` exactly where the number isn't
/// there.
pub fn option_at(forest: &Measured, goal: Goal, number: usize) -> Option<Behind>
    ensures { option_map listed result ≡ slice_get (options forest.now goal) number }
{
    match goal {
        Goal::Node { node, depth } => node_option(forest, node, depth, number),
        Goal::Item { item, depth } => entry_at(entries_of(forest, item), number, depth),
        Goal::Leaf(_) => {
            if number == 0 {
                Some(Behind::Nothing)
            } else {
                None
            }
        }
    }
}

/// Whether a walk leads through the goal.
fn goal_opens(forest: &Measured, goal: Goal) -> bool
    ensures { IsTrue result ↔ Opens (options forest.now) (goal ∷ []) }
{
    match goal {
        Goal::Node { node, depth } => forest.node_opens(node, depth),
        Goal::Item { item, depth } => forest.item_opens(item, depth),
        Goal::Leaf(_) => true,
    }
}

/// Whether a walk leads through the goals.
fn behind_opens(forest: &Measured, behind: Behind) -> bool
    ensures { IsTrue result ↔ Opens (options forest.now) (listed behind) }
{
    match behind {
        Behind::Nothing => true,
        Behind::One(goal) => goal_opens(forest, goal),
        Behind::Two(first, second) => goal_opens(forest, first) && goal_opens(forest, second),
    }
}

/// The goals behind the option of that number; `None` exactly where no walk leads through it.
pub fn opening_option(forest: &Measured, goal: Goal, number: usize) -> Option<Behind>
    ensures { MatchOption result (LeadsNowhere forest.now goal number)
        (λ behind. LeadsOn forest.now goal number (listed behind)) }
{
    let behind = option_at(forest, goal, number)?;
    if behind_opens(forest, behind) {
        Some(behind)
    } else {
        None
    }
}

/// The first option of a goal from this one on through which a walk leads, and the goals behind it.
pub fn first_option(forest: &Measured, goal: Goal, from: usize) -> Option<(usize, Behind)>
    ensures { MatchOption result
        (Passed (options forest.now) goal from (length (options forest.now goal)))
        (λ found. FirstOption forest.now goal from found.0 (listed found.1)) }
{
    for number in from..count_options(forest, goal) {
        if let Some(behind) = opening_option(forest, goal, number) {
            return Some((number, behind));
        }
    }
    None
}
