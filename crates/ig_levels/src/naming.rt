//! The names of bounds, and which declarations are levelled, by their names.
ghost use Rattle.std.specs.Prelude.{◌≡◌, IfOk};
ghost use Rattle.ig_pass.specs.Added.{left_name, right_name};
ghost use Rattle.ig_levels.specs.Levels.{is_free, is_levelled};
ghost use Rattle.ig_levels.specs.Tables.{lookup, levelled_by, Tells};

use ig_grammar::{Assoc, Decl, Level};
use ig_text::Word;
use std::alloc::{AllocError, Global};
use std::collections::BTreeMap;

/// The name of the bound for the left spine. Refused for want of memory alone.
pub fn left_word(alloc: Global) -> Result<Word, AllocError>
    ensures { IfOk result (λ w. w ≡ left_name) }
{
    Word::new(alloc, ".l")
}

/// The name of the bound for the right spine. Refused for want of memory alone.
pub fn right_word(alloc: Global) -> Result<Word, AllocError>
    ensures { IfOk result (λ w. w ≡ right_name) }
{
    Word::new(alloc, ".r")
}

/// Whether it is neither `left` nor `right` nor `nonassoc`.
fn is_free(assoc: Assoc) -> bool
    ensures { result ≡ is_free assoc }
{
    match assoc {
        Assoc::Free => true,
        Assoc::Left => false,
        Assoc::Right => false,
        Assoc::Nonassoc => false,
    }
}

/// Whether there is more than one level, or an associativity.
pub fn is_levelled(levels: &[Level]) -> bool
    ensures { result ≡ is_levelled levels.now }
{
    match levels {
        [] => false,
        [level] => !is_free(level.assoc),
        _ => true,
    }
}

/// Whether each declaration is levelled, by its name: of several declarations with one name the
/// first decides, since they are entered from the last one on. Refused for want of memory alone.
pub fn levelled_names<'a>(
    alloc: Global,
    decls: &'a [Decl],
) -> Result<BTreeMap<&'a str, bool>, AllocError>
    ensures { IfOk result (λ m. Tells m decls.now) }
{
    let mut table = BTreeMap::new(alloc);
    for index in (0..decls.len()).rev() {
        let decl = &decls[index];
        let levelled = is_levelled(decl.levels.as_slice());
        table.insert(decl.name.as_str(), levelled)?;
    }
    Ok(table)
}

/// What the table has at a name.
fn find(table: &BTreeMap<&str, bool>, name: &Word) -> Option<bool>
    ensures { result ≡ lookup table.now name.now }
{
    table.get(name.as_str()).copied()
}

/// Whether the declaration of that name is levelled.
pub(crate) fn names_levelled(table: &BTreeMap<&str, bool>, name: &Word) -> bool
    ensures { result ≡ levelled_by table.now name.now }
{
    match find(table, name) {
        Some(levelled) => levelled,
        None => false,
    }
}
