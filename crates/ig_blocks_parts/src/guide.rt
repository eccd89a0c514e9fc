//! What the pass goes by: the names that it adds, whether the grammar is marked, and the kinds of
//! its declarations.
ghost use Rattle.std.specs.Prelude.{◌≡◌, ℕ, List, true, length, IfOk};
ghost use Rattle.ig_pass.specs.Added.{margin_name, first_name, column_name};
ghost use Rattle.ig_pass.specs.Rooted.{is_root};
ghost use Rattle.ig_blocks_parts.specs.Blocks.{kind_called, paired_by, setting_of};
ghost use Rattle.ig_blocks_parts.specs.ColumnCode.{kind_by, setting_by};

use crate::marks::is_marked;
use ig_grammar::{Checked, Decl, DeclKind, Shape};
use ig_text::Word;
use std::alloc::{AllocError, Global};
use std::collections::BTreeMap;

/// The names that the pass adds, whether some declaration has an `offside`, and the kind of each
/// name that may be called.
#[derive(Drop)]
pub struct Guide<'a> {
    /// The name of the parameter for the margin.
    pub margin: Word,
    /// The name of the parameter for the first position.
    pub first: Word,
    pub(crate) column: Word,
    marked: bool,
    kinds: BTreeMap<&'a str, DeclKind>,
}

/// What the pass goes by in this grammar. Refused for want of memory alone.
pub fn guide_of<'a>(
    alloc: Global,
    decls: &'a [Decl],
    checked: &Checked,
) -> Result<Guide<'a>, AllocError>
    requires beside { length checked.now.shapes ≡ length decls.now }
    ensures { IfOk result (λ r. setting_by r ≡ setting_of decls.now checked.now.shapes) }
{
    let margin = margin_word(alloc)?;
    let first = first_word(alloc)?;
    let column = column_word(alloc)?;
    let kinds = kinds_of(alloc, decls, checked)?;
    Ok(Guide {
        margin,
        first,
        column,
        marked: is_marked(decls),
        kinds,
    })
}

/// The kind of the first declaration of each name that doesn't stand for the root.
fn kinds_of<'a>(
    alloc: Global,
    decls: &'a [Decl],
    checked: &Checked,
) -> Result<BTreeMap<&'a str, DeclKind>, AllocError>
    requires beside { length checked.now.shapes ≡ length decls.now }
    ensures { IfOk result (λ m. (name : List ℕ) →
        kind_by m name ≡ kind_called decls.now checked.now.shapes name) }
{
    let mut kinds = BTreeMap::new(alloc);
    for index in (0..decls.len()).rev() {
        if !is_root(checked.shape_behind(index)) {
            let decl = &decls[index];
            kinds.insert(decl.name.as_str(), decl.kind)?;
        }
    }
    Ok(kinds)
}

/// Whether the shape is that of a declaration that stands for the root.
pub fn is_root(shape: Shape) -> bool
    ensures { result ≡ is_root shape }
{
    matches!(shape, Shape::Root)
}

/// The kind of the declaration of a name, where one may be called by it.
pub fn kind_of(guide: &Guide<'_>, name: &Word) -> Option<DeclKind>
    ensures { result ≡ (setting_by guide.now).kind_of name.now }
{
    guide.kinds.get(name.as_str()).copied()
}

/// Whether declarations of the kind get the pair.
pub fn is_paired(guide: &Guide<'_>, kind: DeclKind) -> bool
    ensures { result ≡ (setting_by guide.now).paired kind }
{
    guide.marked && may_be_paired(kind)
}

/// Whether declarations of the kind get the pair in a grammar that is marked.
fn may_be_paired(kind: DeclKind) -> bool
    ensures { result ≡ paired_by true kind }
{
    match kind {
        DeclKind::Lexical => false,
        DeclKind::Syntax => true,
        DeclKind::Layout => false,
        DeclKind::Plain => false,
    }
}

/// The name of the parameter for the margin.
fn margin_word(alloc: Global) -> Result<Word, AllocError>
    ensures { IfOk result (λ w. w ≡ margin_name) }
{
    Word::new(alloc, ".m")
}

/// The name of the parameter for the first position.
fn first_word(alloc: Global) -> Result<Word, AllocError>
    ensures { IfOk result (λ w. w ≡ first_name) }
{
    Word::new(alloc, ".f")
}

/// The name of the column of an aligned list.
fn column_word(alloc: Global) -> Result<Word, AllocError>
    ensures { IfOk result (λ w. w ≡ column_name) }
{
    Word::new(alloc, ".c")
}
