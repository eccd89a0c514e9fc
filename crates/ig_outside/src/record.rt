//! A history that only proofs read. It takes no memory, and its methods do nothing at run time.
ghost use Rattle.std.specs.Prelude.{◌≡◌, ℕ, List, [], ◌∷◌, ◌++◌};
ghost use Rattle.std.specs.Borrow.{ftrue};

use std::fmt;
use std::marker::{Model, PhantomData};

/// What was asked of each name, and what was answered, in order.
#[derive(Drop)]
pub struct Record<A, B> {
    of: PhantomData<(A, B)>,
    pub ghost entries: { List (List ℕ × (A × B)) },
}

impl<A, B> Model for Record<A, B> {
    ghost also_owns = { λ _. ftrue };
}

impl<A, B> Record<A, B> {
    /// A record of nothing.
    pub fn new() -> Record<A, B>
        ensures { result.entries ≡ [] }
    {
        Record { of: PhantomData }
    }

    /// The record with one more entry, at its end.
    pub fn and(&self, name: &str, asked: &A, answer: &B) -> Record<A, B>
        ensures { result.entries ≡
            self.now.entries ++ (name.now, (asked.now, answer.now)) ∷ [] }
    {
        Record { of: PhantomData }
    }
}

impl<A, B> fmt::Debug for Record<A, B> {
    fn fmt<W: fmt::Write>(&self, f: &mut fmt::Formatter<W>) -> fmt::Result {
        f.write_str("Record")
    }
}
