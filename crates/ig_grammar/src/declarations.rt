//! Declarations found by their names.
ghost use Rattle.std.specs.Prelude.{◌≡◌, IfOk, MatchOption, None, Some};
ghost use Rattle.ig_expr.specs.Names.{place_of};
ghost use Rattle.ig_grammar.specs.Names.{names};
ghost use Rattle.ig_grammar.specs.Condition.{declaration_of};

use crate::declaration::Decl;
use ig_text::Word;
use indexmap::IndexMap;
use std::alloc::{AllocError, Global};
use std::marker::Model;

/// The declarations of a grammar, found by their names.
#[derive(Drop)]
pub struct Declarations<'a> {
    decls: &'a [Decl],
    /// The place of the first declaration of each name.
    places: IndexMap<&'a [char], usize>,
}

impl<'a> Model for Declarations<'a> {
    ghost use Rattle.std.specs.Prelude.{List};
    ghost use Rattle.ig_grammar.specs.declared.declaration.Decl.{Decl};
    ghost use Rattle.ig_grammar.specs.Tables.{HasPlaces};

    ghost Value = { List Decl };

    ghost use Rattle.std.specs.Coded.{coded_list};
    ghost use Rattle.ig_grammar.specs.contracts.declaration.Decl as decl;

    ghost coded = { coded_list decl.the_row.coded };

    ghost view = { λ d. d.decls.now };

    ghost invariant = { λ d. HasPlaces d.places d.decls.now };
}

impl<'a> Declarations<'a> {
    /// The declarations. Refused for want of memory alone.
    pub fn new(alloc: Global, decls: &'a [Decl]) -> Result<Declarations<'a>, AllocError>
        ensures { IfOk result (λ d. d ≡ decls.now) }
    {
        let mut places = IndexMap::with_capacity(alloc, decls.len())?;
        for (place, decl) in decls.iter().enumerate() {
            let name = decl.name.as_chars();
            if !places.contains_key(name) {
                places.insert(name, place)?;
            }
        }
        Ok(Declarations { decls, places })
    }

    /// The declarations, in order.
    pub fn as_slice(&self) -> &'a [Decl]
        ensures { result.now ≡ self.now }
    {
        self.decls
    }

    /// How many declarations stand before the first of this name; `None` exactly where there is
    /// none.
    pub fn place_of(&self, name: &Word) -> Option<usize>
        ensures { result ≡ place_of (names self.now) name.now }
    {
        self.places.get(name.as_chars()).copied()
    }

    /// The declaration of the name, the first with it; `None` exactly where there is none.
    pub fn find(&self, name: &Word) -> Option<&'a Decl>
        ensures { MatchOption result (declaration_of self.now name.now ≡ None)
            (λ d. declaration_of self.now name.now ≡ Some d.now) }
    {
        self.decls.get(self.place_of(name)?)
    }
}
