//! Source grammars, and which of them are well scoped.
//!
//! Contracts see a symbol as the syntax tree of `specs/Symbol.antt`, and a grammar as records and
//! lists over such trees: equal grammars are equal there, and no clause sees a pointer. Each list
//! adds at its end or hands the value back, and each `copy` gives an equal value.
//! `specs/Regular.antt` says what a grammar that was read keeps to, and each one that a pass makes
//! of it, `specs/WellScoped.antt` which ones are well scoped; a [`Checked`] grammar is one, with a
//! shape for each declaration.
//!
//! [`Declarations`] finds the first declaration of a name, or that there is none, in a time that
//! doesn't grow with their number; it is the list of declarations to whoever reads its contracts.
#![tactic(auto)]

mod checked;
mod declaration;
mod declarations;
mod filter;
mod grammar;
mod keywords;
mod laws;
mod lets;
mod place;
mod symbol;
mod variables;

pub use checked::Checked;
pub use declaration::{Assoc, Decl, DeclKind, Decls, Level, Levels, Param, Params};
pub use declarations::Declarations;
pub use filter::{Filter, Filters};
pub use grammar::Grammar;
pub use keywords::{is_keyword, is_name};
pub use laws::counts_by_form;
pub use lets::Lets;
pub use place::{Place, Shape, Shapes};
pub use symbol::{Alt, Alts, Inner, Symbol, Symbols};
pub use variables::Variables;
