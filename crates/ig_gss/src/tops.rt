//! Where the chains of a node begin.
ghost use Rattle.std.specs.Prelude.{◌≡◌, ◌<◌, false, IfSome, IsTrue};

use crate::marks::Pop;

/// The places + 1 of the latest edge and of the latest pop of a node, and 0 where there is none;
/// and whether all its pops are in the table of ends.
#[derive(Clone, Copy)]
pub struct Tops {
    pub edge: u32,
    pub pop: u32,
    pub is_indexed: bool,
}

impl Tops {
    /// Those of a node without edges and pops.
    pub fn none() -> Tops
        ensures edge { result.edge ≡ 0 }
        ensures pop { result.pop ≡ 0 }
        ensures is_indexed { result.is_indexed ≡ false }
    {
        Tops {
            edge: 0,
            pop: 0,
            is_indexed: false,
        }
    }

    /// Whether an end is the highest of the node, whose latest pop is given, and the table isn't
    /// asked for it.
    pub fn rise(self, last: Option<Pop>, end: u32) -> bool
        ensures is_indexed { IsTrue result → self.is_indexed ≡ false }
        ensures higher { IsTrue result → IfSome last (λ p. p.end < end) }
    {
        if self.is_indexed {
            return false;
        }
        match last {
            Some(last) => last.end < end,
            None => true,
        }
    }
}
