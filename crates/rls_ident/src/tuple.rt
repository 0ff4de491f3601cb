//! Tuples, of which identifiers consist (LogootSplit: André and others, 2013).
//! Why: CHOICES.md, 166.

ghost use Rattle.std.specs.Prelude.{◌≡◌, ◌+ℤ◌, ◌-ℤ◌, ◌≤ℤ◌, pos, IsTrue};
ghost use Rattle.rls_ident.specs.Tuples.{at_spot, spot_cmp, tuple_cmp, tuple_eq};
ghost use Rattle.rls_ident.specs.Identifiers.{least_offset, greatest_offset, is_inner_bounded, is_last_bounded};

use crate::limits::{GREATEST_OFFSET, LEAST_OFFSET};
use std::cmp::Ordering;

/// One tuple of an identifier.
#[derive(Clone, Copy, Debug, PartialEq, Eq)]
pub enum Tuple {
    /// Below each other tuple.
    Low,
    At {
        pos: u32,
        replica: u32,
        seq: u32,
        offset: i32,
    },
    /// Above each other tuple.
    High,
}

impl Tuple {
    /// Which of two tuples is less: `Low` is less than each `At`, and each `At` less than `High`.
    /// Two `At` tuples compare by pos, replica, seq and offset in this order.
    #[tactic(auto, unfolding(crate::specs::Tuples::tuple_cmp, crate::specs::Tuples::spot_cmp))]
    pub fn compare(&self, other: &Tuple) -> Ordering
        ensures order { result ≡ tuple_cmp self.now other.now }
    {
        match (self, other) {
            (
                Tuple::At {
                    pos,
                    replica,
                    seq,
                    offset,
                },
                Tuple::At {
                    pos: other_pos,
                    replica: other_replica,
                    seq: other_seq,
                    offset: other_offset,
                },
            ) => pos.cmp(other_pos).then(
                replica
                    .cmp(other_replica)
                    .then(seq.cmp(other_seq).then(offset.cmp(other_offset))),
            ),
            (Tuple::Low, Tuple::Low) | (Tuple::High, Tuple::High) => Ordering::Equal,
            (Tuple::Low, _) | (_, Tuple::High) => Ordering::Less,
            (Tuple::High, _) | (_, Tuple::Low) => Ordering::Greater,
        }
    }

    /// Whether two tuples are the same, which takes half of what `compare` takes.
    #[tactic(auto, unfolding(crate::specs::Tuples::tuple_cmp, crate::specs::Tuples::spot_cmp))]
    pub fn same(&self, other: &Tuple) -> bool
        ensures same { result ≡ tuple_eq self.now other.now }
    {
        self == other
    }

    /// Whether it may stand before another tuple: it is no `At`, or its offset is from
    /// -1,073,741,825 to 1,073,741,823.
    pub fn is_inner(&self) -> bool
        ensures inner { result ≡ is_inner_bounded self.now }
    {
        match self {
            Tuple::At { offset, .. } => LEAST_OFFSET - 1 <= *offset && *offset <= GREATEST_OFFSET,
            _ => true,
        }
    }

    /// Whether it may stand last: it is an `At` whose offset is from -1,073,741,824 to 1,073,741,823.
    pub fn is_last(&self) -> bool
        ensures last { result ≡ is_last_bounded self.now }
    {
        match self {
            Tuple::At { offset, .. } => LEAST_OFFSET <= *offset && *offset <= GREATEST_OFFSET,
            _ => false,
        }
    }

    /// What it holds, of a tuple that may stand last.
    pub fn as_spot(&self) -> Spot
        requires last { IsTrue (is_last_bounded self.now) }
        ensures spot { at_spot result ≡ self.now }
    {
        match self {
            Tuple::At {
                pos,
                replica,
                seq,
                offset,
            } => Spot {
                pos: *pos,
                replica: *replica,
                seq: *seq,
                offset: *offset,
            },
            _ => unreachable!(),
        }
    }
}

/// What an `At` tuple holds.
#[derive(Clone, Copy, Debug, PartialEq, Eq)]
pub struct Spot {
    pub pos: u32,
    pub replica: u32,
    pub seq: u32,
    pub offset: i32,
}

impl Spot {
    /// The tuple that holds it.
    pub fn as_tuple(&self) -> Tuple
        ensures { result ≡ at_spot self.now }
    {
        Tuple::At {
            pos: self.pos,
            replica: self.replica,
            seq: self.seq,
            offset: self.offset,
        }
    }

    /// The same with a greater offset.
    pub fn raised(&self, by: u32) -> Spot
        requires least { least_offset ≤ℤ self.now.offset }
        requires greatest { (self.now.offset +ℤ pos by) ≤ℤ greatest_offset }
        ensures spot { result ≡ record self.now { offset = self.now.offset +ℤ pos by } }
    {
        Spot {
            offset: self.offset + by as i32,
            ..*self
        }
    }

    /// The same with a lesser offset.
    pub fn lowered(&self, by: u32) -> Spot
        requires least { least_offset ≤ℤ (self.now.offset -ℤ pos by) }
        requires greatest { self.now.offset ≤ℤ greatest_offset }
        ensures spot { result ≡ record self.now { offset = self.now.offset -ℤ pos by } }
    {
        Spot {
            offset: self.offset - by as i32,
            ..*self
        }
    }
}
