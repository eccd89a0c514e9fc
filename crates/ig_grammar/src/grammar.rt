use crate::declaration::Decls;
use ig_text::Word;

/// A grammar: the name of its start symbol where there is a start line, the width of tabs where it
/// says one, and its declarations.
#[derive(Drop)]
pub struct Grammar {
    pub start: Option<Word>,
    pub tabs: Option<i64>,
    pub decls: Decls,
}
