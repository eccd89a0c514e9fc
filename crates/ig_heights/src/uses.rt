//! The rules that use a part.
ghost use Rattle.std.specs.Prelude.{◌≡◌, ◌<◌, IfOk, OnOk, get_or, length};
ghost use Rattle.ig_heights.specs.Fits.{FitsRule};
ghost use Rattle.ig_heights.specs.Uses.{AreUsesOf, IsAdded, IsBefore};

use crate::rule::{Rule, Table};
use std::alloc::{AllocError, Global};

/// For each part the rules that use it, as a chain from the last one to the first. A rule of a
/// chain is told by the number behind its own; 0 stands for none.
#[derive(Drop)]
pub(crate) struct Uses {
    last: Vec<u32>,
    earlier: Vec<Earlier>,
}

/// Of a rule, the last rules before it that use its left and its right source.
#[derive(Clone, Copy)]
struct Earlier {
    left: u32,
    right: u32,
}

/// The rules of the table that use a part, for each part. Refused for want of memory, or of a
/// number of 32 bits.
pub(crate) fn uses_of(alloc: Global, table: &Table) -> Result<Uses, AllocError>
    ensures { IfOk result (AreUsesOf table.now) }
{
    let last = vec![in alloc; 0; table.parts]?;
    let earlier = Vec::with_capacity(alloc, table.rules.len())?;
    let mut uses = Uses { last, earlier };
    for rule in &table.rules {
        uses.add(*rule)?;
    }
    Ok(uses)
}

impl Uses {
    /// Adds the next rule to the chains of both its sources.
    fn add(&mut self, rule: Rule) -> Result<(), AllocError>
        requires { FitsRule (length self.old.last.items) rule }
        ensures { OnOk result (IsAdded rule self.old self.new) }
    {
        self.earlier.push(Earlier {
            left: self.last[rule.left],
            right: self.last[rule.right],
        })?;
        let Ok(behind) = u32::try_from(self.earlier.len()) else {
            return Err(AllocError);
        };
        self.last[rule.left] = behind;
        self.last[rule.right] = behind;
        Ok(())
    }

    /// The number behind the last rule that uses the part.
    pub fn last(&self, part: usize) -> usize
        requires { part < length self.now.last.items }
        ensures { result ≡ get_or self.now.last.items part 0 }
    {
        self.last[part] as usize
    }

    /// Of the rule of that number, which uses the part: the number behind the last rule before it
    /// that does, too.
    pub fn before(&self, number: usize, rule: Rule, part: usize) -> usize
        requires { number < length self.now.earlier.items }
        ensures { IsBefore self.now.earlier.items number rule part result }
    {
        let earlier = self.earlier[number];
        if rule.left == part {
            earlier.left as usize
        } else {
            earlier.right as usize
        }
    }
}
