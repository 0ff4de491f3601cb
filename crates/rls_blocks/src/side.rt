//! Sides.
//! Why: CHOICES.md, 190.

ghost use Rattle.std.specs.Prelude.{◌≡◌};
ghost use Rattle.rls_blocks.specs.Edits.{opposite};

/// A side of a character, or of a block.
#[derive(Clone, Copy)]
pub(crate) enum Side {
    /// In front of it.
    Front,
    /// After it.
    Behind,
}

impl Side {
    /// The other one.
    pub(crate) fn other(self) -> Side
        ensures other { result ≡ opposite self }
    {
        match self {
            Side::Front => Side::Behind,
            Side::Behind => Side::Front,
        }
    }
}
