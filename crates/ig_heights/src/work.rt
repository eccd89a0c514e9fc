//! Least heights by a work list.
ghost use Rattle.std.specs.Prelude.{◌≡◌, ◌<◌, ◌≤◌, ◌↔◌, suc, IfOk, IsTrue, OnOk, length};
ghost use Rattle.ig_text.specs.Limits.{numbers_end};
ghost use Rattle.ig_heights.specs.Fits.{FitsRule};
ghost use Rattle.ig_heights.specs.Rules.{AreLeast, height_at};
ghost use Rattle.ig_heights.specs.Uses.{AreUsesOf, HasSource};
ghost use Rattle.ig_heights.specs.Work.{Fires, Looks, NoRule, Pops, Takes, Works, weight};

use crate::rule::{Rule, Table};
use crate::uses::{Uses, uses_of};
use std::alloc::{AllocError, Global};

/// The heights so far, by part; one above the number of nodes stands for none. The parts in
/// `current` have the height of the round and are still to be looked at; those in `next` have one
/// more.
#[derive(Drop)]
pub(crate) struct Work {
    pub heights: Vec<usize>,
    pub current: Vec<usize>,
    pub next: Vec<usize>,
    pub height: usize,
}

/// The least heights that the rules give, by part; one above the number of nodes where they give
/// none. Each part is taken once.
pub(crate) fn least_heights(alloc: Global, table: &Table) -> Result<Vec<usize>, AllocError>
    ensures { IfOk result (λ heights. AreLeast table.now heights.items) }
{
    let uses = uses_of(alloc, table)?;
    let mut work = begun(alloc, table)?;
    while let Some(part) = work.take() {
        work.visit(table, &uses, part)?;
    }
    Ok(work.heights)
}

/// Nothing has a height but the bottom.
fn begun(alloc: Global, table: &Table) -> Result<Work, AllocError>
    ensures { IfOk result (λ work. Works table.now work NoRule) }
{
    let mut heights = vec![in alloc; table.nodes + 1; table.parts]?;
    heights[table.bottom] = 0;
    let mut current = Vec::new(alloc);
    current.push(table.bottom)?;
    Ok(Work {
        heights,
        current,
        next: Vec::new(alloc),
        height: 0,
    })
}

/// Takes the last number, where there is one.
fn pop(numbers: &mut Vec<usize>) -> Option<usize>
    ensures { Pops numbers.old.items numbers.new.items result }
{
    numbers.pop()
}

impl Work {
    /// Takes a part that waits; those of the next round come once none of this one waits.
    fn take(&mut self) -> Option<usize>
        requires few { self.old.height < numbers_end }
        ensures { Takes self.old self.new result }
    {
        if let Some(part) = pop(&mut self.current) {
            return Some(part);
        }
        self.turn();
        pop(&mut self.current)
    }

    /// Begins the next round.
    fn turn(&mut self)
        requires few { self.old.height < numbers_end }
        ensures heights { self.new.heights.items ≡ self.old.heights.items }
        ensures current { self.new.current.items ≡ self.old.next.items }
        ensures next { self.new.next.items ≡ self.old.current.items }
        ensures height { self.new.height ≡ suc self.old.height }
    {
        std::mem::swap(&mut self.current, &mut self.next);
        self.height += 1;
    }

    /// Looks at each rule that uses the part.
    fn visit(&mut self, table: &Table, uses: &Uses, part: usize) -> Result<(), AllocError>
        requires uses { AreUsesOf table.now uses.now }
        requires there { part < table.now.parts }
        requires part { height_at self.old.heights.items part ≡ self.old.height }
        requires work { Works table.now self.old (HasSource part) }
        ensures work { OnOk result (Works table.now self.new NoRule) }
        ensures less { OnOk result (weight table.now self.new ≤ weight table.now self.old) }
    {
        let mut behind = uses.last(part);
        while behind > 0 {
            let number = behind - 1;
            let rule = table.rules[number];
            self.look(table.nodes, rule)?;
            behind = uses.before(number, rule, part);
        }
        Ok(())
    }

    /// Gives the target of the rule the height of the round, or one more if it is a node, where
    /// both sources have heights up to this and it has none.
    fn look(&mut self, nodes: usize, rule: Rule) -> Result<(), AllocError>
        requires fits { FitsRule (length self.old.heights.items) rule }
        requires few { self.old.height < numbers_end }
        ensures { OnOk result (Looks nodes rule self.old self.new) }
    {
        if !self.fires(nodes, rule) {
            return Ok(());
        }
        if rule.target < nodes {
            self.heights[rule.target] = self.next_height();
            self.next.push(rule.target)?;
        } else {
            self.heights[rule.target] = self.height;
            self.current.push(rule.target)?;
        }
        Ok(())
    }

    /// The height of the next round.
    fn next_height(&self) -> usize
        requires few { self.now.height < numbers_end }
        ensures { result ≡ suc self.now.height }
    {
        self.height + 1
    }

    /// Whether both sources have heights up to that of the round, and the target has none.
    fn fires(&self, nodes: usize, rule: Rule) -> bool
        requires fits { FitsRule (length self.now.heights.items) rule }
        ensures { IsTrue result ↔ Fires nodes rule self.now }
    {
        self.heights[rule.left] <= self.height
            && self.heights[rule.right] <= self.height
            && self.heights[rule.target] > nodes
    }
}
