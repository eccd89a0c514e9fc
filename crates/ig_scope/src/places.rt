ghost use Rattle.std.specs.Prelude.{◌≡◌, ◌+◌, ◌<◌};
ghost use Rattle.ig_text.specs.Limits.{numbers_end};
ghost use Rattle.ig_scope.specs.AlternativesTold.{fault_at};

use crate::cause::ScopeCause;
use crate::fault::ScopeFault;
use ig_grammar::{DeclKind, Declarations, Place};

/// The alternative in which symbols stand, and the declarations that they call.
#[derive(Clone, Copy)]
pub(crate) struct Surroundings<'d, 'g> {
    pub(crate) declarations: &'d Declarations<'g>,
    /// What the declaration of the alternative is.
    pub(crate) kind: DeclKind,
    /// The number of that declaration.
    pub(crate) decl: u32,
    /// The number of the alternative.
    pub(crate) alt: u32,
}

impl Surroundings<'_, '_> {
    /// The fault at the symbol that has so many before it in the alternative.
    pub(crate) fn fault(&self, cause: ScopeCause, before: u32) -> ScopeFault
        requires { before + 1 < numbers_end }
        ensures { result ≡ fault_at self.now cause before }
    {
        let place = Place {
            decl: self.decl,
            alt: self.alt,
            symbol: before + 1,
        };
        ScopeFault::Broken { cause, place }
    }
}
