//! What stands beside the place of an insertion.
//! Why: CHOICES.md, 197.

ghost use Rattle.std.specs.Prelude.{◌≡◌, pos, ◌+ℤ◌, ◌-ℤ◌, ◌≤ℤ◌, IfOk, IfSome, option_map};
ghost use Rattle.rls_ident.specs.Tuples.{at_spot, offset_of};
ghost use Rattle.rls_ident.specs.Identifiers.{ident_cmp, last_of, shifted, least_offset, greatest_offset};

use rls_ident::{Ident, Spot, rely};
use std::alloc::AllocError;
use std::cmp::Ordering;
use std::marker::Model;

/// An identifier of a run, told by the first one of the run, which is lent, and how far it is from that. It is seen as its list of tuples,
/// as an `Ident` is, and takes no memory.
#[derive(Drop)]
pub struct Neighbour<'a> {
    first: &'a Ident,
    by: u32,
}

impl<'a> Model for Neighbour<'a> {
    ghost use Rattle.std.specs.Prelude.{List, pos, ◌+ℤ◌, ◌≤ℤ◌};
    ghost use Rattle.rls_ident.specs.declared.tuple.Tuple.{Tuple};
    ghost use Rattle.rls_ident.specs.Tuples.{offset_of};
    ghost use Rattle.rls_ident.specs.Identifiers.{last_of, shifted, greatest_offset};

    ghost Value = { List Tuple };

    ghost view = { λ n. shifted (pos n.by) n.first.now };

    ghost invariant = { λ n. (offset_of (last_of n.first.now) +ℤ pos n.by) ≤ℤ greatest_offset };
}

impl<'a> Neighbour<'a> {
    /// This identifier with a last offset greater by this much. It takes no memory.
    pub fn new(first: &'a Ident, by: u32) -> Neighbour<'a>
        requires greatest { (offset_of (last_of first.now) +ℤ pos by) ≤ℤ greatest_offset }
        ensures ident { result ≡ shifted (pos by) first.now }
    {
        Neighbour { first, by }
    }

    /// The same where there may be none, as at the ends of a text.
    pub fn of(place: Option<(&'a Ident, u32)>) -> Option<Neighbour<'a>>
        requires greatest { IfSome place (λ p. (offset_of (last_of p.0.now) +ℤ pos p.1) ≤ℤ greatest_offset) }
        ensures ident { result ≡ option_map (λ p. shifted (pos p.1) p.0.now) place.entry }
    {
        let (first, by) = place?;
        Some(Neighbour::new(first, by))
    }

    // The last tuple.
    pub(crate) fn last(&self) -> Spot
        ensures last { last_of self.now ≡ at_spot result }
    {
        let first = self.first;
        first.last().raised(self.by)
    }

    // Its order and that of another identifier. It takes no memory.
    pub(crate) fn compare(&self, other: &Ident) -> Ordering
        ensures order { result ≡ ident_cmp self.now other.now }
    {
        let first = self.first;
        first.compare_shifted(self.by, other)
    }

    // The same of the identifier with the last offset greater by this much.
    pub(crate) fn compare_shifted(&self, by: u32, other: &Ident) -> Ordering
        requires greatest { (offset_of (last_of self.now) +ℤ pos by) ≤ℤ greatest_offset }
        ensures order { result ≡ ident_cmp (shifted (pos by) self.now) other.now }
    {
        let first = self.first;
        rely!(let _last = first.last());
        first.compare_shifted(self.by + by, other)
    }

    // The same of another neighbour. It takes memory only if that isn't the first one of its run.
    pub(crate) fn compare_shifted_to(
        &self,
        by: u32,
        other: &Neighbour<'_>,
    ) -> Result<Ordering, AllocError>
        requires greatest { (offset_of (last_of self.now) +ℤ pos by) ≤ℤ greatest_offset }
        ensures order { IfOk result (λ o. o ≡ ident_cmp (shifted (pos by) self.now) other.now) }
    {
        let first = other.first;
        if other.by == 0 {
            return Ok(self.compare_shifted(by, first));
        }
        Ok(self.compare_shifted(by, &other.copy()?))
    }

    // The same as an identifier of its own.
    pub(crate) fn copy(&self) -> Result<Ident, AllocError>
        ensures copy { IfOk result (λ ident. ident ≡ self.now) }
    {
        let first = self.first;
        first.shifted(self.by)
    }

    // The identifier with the last offset greater by this much.
    pub(crate) fn shifted(&self, by: u32) -> Result<Ident, AllocError>
        requires greatest { (offset_of (last_of self.now) +ℤ pos by) ≤ℤ greatest_offset }
        ensures shifted { IfOk result (λ ident. ident ≡ shifted (pos by) self.now) }
    {
        let first = self.first;
        rely!(let _last = first.last());
        first.shifted(self.by + by)
    }

    // The identifier with the last offset less by this much.
    pub(crate) fn lowered(&self, by: u32) -> Result<Ident, AllocError>
        requires least { least_offset ≤ℤ (offset_of (last_of self.now) -ℤ pos by) }
        ensures lowered { IfOk result (λ ident. ident ≡ shifted (pos 0 -ℤ pos by) self.now) }
    {
        let first = self.first;
        rely!(let _last = first.last());
        if by <= self.by {
            first.shifted(self.by - by)
        } else {
            first.lowered(by - self.by)
        }
    }
}
