//! What is known of an item while the live ones are looked for.
ghost use Rattle.std.specs.Prelude.{◌≡◌};
ghost use Rattle.ig_forest_live.specs.Marks.{is_live};

/// What is known of an item.
#[derive(Clone, Copy, PartialEq, Eq)]
pub enum Mark {
    /// No way from the root was found that leads to it.
    Dead,
    /// It is live, and comes before a step.
    Open,
    /// It is live and complete.
    Complete,
}

impl Mark {
    /// Whether the item is live. Takes no memory.
    pub fn is_live(self) -> bool
        ensures { result ≡ is_live self }
    {
        match self {
            Mark::Dead => false,
            Mark::Open => true,
            Mark::Complete => true,
        }
    }
}
