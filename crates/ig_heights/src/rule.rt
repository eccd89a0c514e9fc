//! Rules between numbered parts.
ghost use Rattle.std.specs.Prelude.{◌<◌, ◌≤◌};
ghost use Rattle.ig_text.specs.Limits.{numbers_end};
ghost use Rattle.ig_heights.specs.Fits.{FitAll, bottom_end};

/// The target has trees where both sources have some.
#[derive(Clone, Copy, PartialEq, Eq, Debug)]
pub(crate) struct Rule {
    pub target: usize,
    pub left: usize,
    pub right: usize,
}

/// Rules between parts that are numbered from 0: first the nodes, and among the others the bottom,
/// which needs nothing. All parts of the rules are there.
#[derive(Drop)]
pub(crate) struct Table {
    pub nodes: usize,
    pub bottom: usize,
    pub parts: usize,
    pub rules: Vec<Rule>,
    ghost first: { nodes ≤ bottom },
    ghost there: { bottom < parts },
    ghost few: { nodes < numbers_end },
    ghost small: { bottom < bottom_end },
    ghost fit: { FitAll parts rules.items },
}
