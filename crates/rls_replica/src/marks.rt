//! What tells an identifier from the others of a text: its last tuple, but for its position.

ghost use Rattle.std.specs.Prelude.{◌≡◌, pos};
ghost use Rattle.rls_ident.specs.Tuples.{at_spot};
ghost use Rattle.rls_replica.specs.Bounds.{later, mark_in};

use rls_ident::Spot;

/// The last tuple of an identifier, but for its position: who made the identifier, in which of its operations, and the offset. Among
/// the identifiers that a text had in one epoch no two have the same.
#[derive(Clone, Copy, PartialEq, Eq, PartialOrd, Ord, Drop)]
pub(crate) struct Mark {
    pub(crate) replica: u32,
    pub(crate) seq: u32,
    pub(crate) offset: i64,
}

impl Mark {
    // The mark of an identifier that ends so.
    pub(crate) fn of(last: Spot) -> Mark
        ensures mark { result ≡ mark_in (at_spot last) }
    {
        Mark {
            replica: last.replica,
            seq: last.seq,
            offset: last.offset as i64,
        }
    }

    // The mark past so many identifiers of a run, of which the first one ends so.
    pub(crate) fn past(first: Spot, count: u32) -> Mark
        ensures mark { result ≡ later (pos count) (mark_in (at_spot first)) }
    {
        Mark {
            offset: first.offset as i64 + count as i64,
            ..Mark::of(first)
        }
    }

    // Whether the two differ at most in their offsets.
    pub(crate) fn is_beside(&self, other: &Mark) -> bool {
        self.replica == other.replica && self.seq == other.seq
    }
}
