//! How far identifiers go.

ghost use Rattle.std.specs.Prelude.{◌≡◌, ℕ, ℤ, IsTrue, IsFalse};
ghost use Rattle.rls_steps.specs.Heights.{GoesOver, GoesTo};

use rls_ident::Spot;

/// How far identifiers go: the last tuple of each has a lesser seq, or this one and at most this offset.
#[derive(Clone, Copy)]
pub(crate) struct Height {
    pub(crate) seq: u32,
    pub(crate) offset: i32,
}

impl Height {
    // That of no identifiers.
    pub(crate) fn least() -> Height {
        Height {
            seq: 0,
            offset: i32::MIN,
        }
    }

    // That of an identifier with this last tuple.
    pub(crate) fn of(last: Spot) -> Height
        ensures height { result ≡ record { seq = last.seq; offset = last.offset } }
    {
        Height {
            seq: last.seq,
            offset: last.offset,
        }
    }

    // The greater one of two.
    pub(crate) fn max(self, other: Height) -> Height
        ensures own { (s : ℕ) (o : ℤ) → GoesTo self s o → GoesTo result s o }
        ensures other { (s : ℕ) (o : ℤ) → GoesTo other s o → GoesTo result s o }
    {
        if self.is_under(other) {
            return other;
        }
        self
    }

    // Whether another one is greater.
    pub(crate) fn is_under(&self, other: Height) -> bool
        ensures over { IsTrue result → GoesOver self.now other.seq other.offset }
        ensures not_over { IsFalse result → GoesTo self.now other.seq other.offset }
    {
        self.seq < other.seq || (self.seq == other.seq && self.offset < other.offset)
    }
}
