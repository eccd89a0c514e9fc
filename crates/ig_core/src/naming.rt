//! The numbers of nonterminals.
ghost use Rattle.std.specs.Prelude.{◌≡◌, ◌<◌, ◌≤◌, length, IfOk};
ghost use Rattle.ig_grammar.specs.Names.{AreDistinct, names};
ghost use Rattle.ig_core.specs.CoreOf.{unrooted};
ghost use Rattle.ig_core.specs.Limits.{most_declarations};
ghost use Rattle.ig_core.specs.Tables.{Numbers};

use crate::roots::is_root;
use ig_grammar::{Checked, Decl};
use std::alloc::{AllocError, Global};
use std::collections::BTreeMap;

/// The number of each name of a declaration that doesn't stand for the root, counted from 1.
/// Refused for want of memory alone.
pub fn number_names<'a>(
    alloc: Global,
    decls: &'a [Decl],
    checked: &Checked,
) -> Result<BTreeMap<&'a str, u32>, AllocError>
    requires beside { length checked.now.shapes ≡ length decls.now }
    requires distinct { AreDistinct (names decls.now) }
    requires few { length decls.now < most_declarations }
    ensures { IfOk result (λ m. Numbers m (unrooted decls.now checked.now.shapes)) }
{
    let mut numbers = BTreeMap::new(alloc);
    let mut next = 1_u32;
    for (index, decl) in decls.iter().enumerate() {
        if !is_root(checked.shape_behind(index)) {
            numbers.insert(decl.name.as_str(), next)?;
            next += 1;
        }
    }
    Ok(numbers)
}

/// How many declarations don't stand for the root.
pub fn count(decls: &[Decl], checked: &Checked) -> u32
    requires beside { length checked.now.shapes ≡ length decls.now }
    requires few { length decls.now < most_declarations }
    ensures counted { result ≡ length (unrooted decls.now checked.now.shapes) }
    ensures few { result ≤ length decls.now }
{
    let mut number = 0;
    for (index, _) in decls.iter().enumerate() {
        if !is_root(checked.shape_behind(index)) {
            number += 1;
        }
    }
    number
}
