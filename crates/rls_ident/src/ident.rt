//! Identifiers: nonempty lists of tuples, in lexicographic order (LogootSplit: André and others, 2013).
//! Why: CHOICES.md, 10, 18.

ghost use Rattle.std.specs.Prelude.{◌≡◌, ℕ, ◌+◌, ◌<◌, ◌≤◌, pos, ◌+ℤ◌, ◌-ℤ◌, ◌≤ℤ◌, length, slice_get, Some, None, [], ◌∷◌, ◌++◌, ◌↔◌, drop, IfOk, OnOk, IsErrOf, IsTrue};
ghost use Rattle.std.specs.List.{All};
ghost use Rattle.rls_ident.specs.Tuples.{at_spot, offset_of, raised, tuple_cmp};
ghost use Rattle.rls_ident.specs.Maps.{under};
ghost use Rattle.rls_ident.specs.Identifiers.{is_ident, is_bounded, last_of, ident_cmp, ident_eq, shifted, follows, first_fault, least_offset, greatest_offset, is_inner_bounded, is_last_bounded};

use crate::tuple::{Spot, Tuple};
use std::alloc::{AllocError, Global};
use std::cmp::Ordering;
use std::marker::Model;

/// An identifier, seen as its list of tuples. The last tuple stands apart, so that one tuple alone takes no memory.
#[derive(Drop)]
pub struct Ident {
    front: Vec<Tuple>,
    last: Spot,
}

impl Model for Ident {
    ghost use Rattle.std.specs.Prelude.{List, ◌∷◌, ◌++◌, [], IsTrue};
    ghost use Rattle.std.specs.List.{All};
    ghost use Rattle.rls_ident.specs.declared.tuple.Tuple.{Tuple};
    ghost use Rattle.rls_ident.specs.Tuples.{at_spot};
    ghost use Rattle.rls_ident.specs.Identifiers.{is_inner_bounded, is_last_bounded};

    ghost Value = { List Tuple };

    ghost view = { λ a. a.front.items ++ at_spot a.last ∷ [] };

    ghost invariant = { λ a. All (λ t. IsTrue (is_inner_bounded t)) a.front.items × IsTrue (is_last_bounded (at_spot a.last)) };
}

/// Why tuples are no identifier.
#[derive(Clone, Copy, Debug, PartialEq, Eq)]
pub enum IdentError {
    /// There is no tuple.
    Empty,
    /// The place of the first tuple that may not stand where it stands, counted from 0.
    Shape { index: u64 },
    OutOfMemory,
}

impl Ident {
    /// The identifier with these tuples. The last of them has to be an `At` with an offset from
    /// -1,073,741,824 to 1,073,741,823, and an `At` before it has one from -1,073,741,825 on.
    ///
    /// # Errors
    ///
    /// `Empty` exactly where there is no tuple, and `Shape` exactly where one may not stand in its place.
    pub fn from_tuples(alloc: Global, tuples: &[Tuple]) -> Result<Ident, IdentError>
        ensures ok { IfOk result (λ ident. ident ≡ tuples.now) }
        ensures fits { OnOk result (first_fault 0 tuples.now ≡ None) }
        ensures empty { IsErrOf result IdentError.Empty ↔ (tuples.now ≡ []) }
        ensures shape { (i : ℕ) → (IsErrOf result (IdentError.Shape i) ↔ (first_fault 0 tuples.now ≡ Some i)) }
    {
        let Some((last, front)) = tuples.split_last() else {
            return Err(IdentError::Empty);
        };
        if let Some(index) = find_fault(tuples) {
            return Err(IdentError::Shape {
                index: index as u64,
            });
        }
        let Ok(front) = Vec::from_slice(alloc, front) else {
            return Err(IdentError::OutOfMemory);
        };
        Ok(Ident {
            front,
            last: last.as_spot(),
        })
    }

    /// These tuples, and one more at the end. It takes no memory.
    pub fn ending(front: Vec<Tuple>, last: Spot) -> Ident
        requires front { All (λ t. IsTrue (is_inner_bounded t)) front.items }
        requires last { IsTrue (is_last_bounded (at_spot last)) }
        ensures ident { result ≡ front.items ++ at_spot last ∷ [] }
    {
        Ident { front, last }
    }

    /// The number of tuples.
    #[tactic(auto, using(crate::proofs::Ends::ident_of_ending))]
    pub fn len(&self) -> usize
        ensures len { result ≡ length self.now }
        ensures some { 0 < result }
        ensures ident { IsTrue (is_ident self.now) }
    {
        self.front.len() + 1
    }

    /// The tuple at a place.
    pub fn tuple(&self, i: usize) -> Tuple
        requires place { i < length self.now }
        ensures found { slice_get self.now i ≡ Some result }
        ensures inner { IsTrue (is_inner_bounded result) }
        ensures last { i + 1 ≡ length self.now → IsTrue (is_last_bounded result) }
    {
        if i < self.front.len() {
            self.front[i]
        } else {
            self.last.as_tuple()
        }
    }

    /// All tuples but the last.
    #[tactic(auto, using(crate::proofs::Ends::last_of_pushed))]
    pub fn front(&self) -> &[Tuple]
        ensures front { self.now ≡ result.now ++ last_of self.now ∷ [] }
        ensures bounded { All (λ t. IsTrue (is_inner_bounded t)) result.now }
    {
        &self.front
    }

    /// The last tuple. Each identifier ends in an `At`, and its offsets are in the program's range.
    #[tactic(auto, using(crate::proofs::Ends::last_of_pushed, crate::proofs::Ends::ident_of_ending, crate::proofs::Ends::bounded_of_ending))]
    pub fn last(&self) -> Spot
        ensures last { last_of self.now ≡ at_spot result }
        ensures last_bounded { IsTrue (is_last_bounded (at_spot result)) }
        ensures ident { IsTrue (is_ident self.now) }
        ensures bounded { IsTrue (is_bounded self.now) }
    {
        self.last
    }

    /// In lexicographic order, in which a proper prefix is less.
    pub fn compare(&self, other: &Ident) -> Ordering
        ensures order { result ≡ ident_cmp self.now other.now }
    {
        compare_ending(&self.front, self.last, other)
    }

    /// The order of the identifier with the last offset greater by this much, and another one. It takes no memory.
    #[tactic(auto, using(crate::proofs::Ends::offset_of_ending, crate::proofs::Ends::shifted_of_ending))]
    pub fn compare_shifted(&self, by: u32, other: &Ident) -> Ordering
        requires greatest { (offset_of (last_of self.now) +ℤ pos by) ≤ℤ greatest_offset }
        ensures order { result ≡ ident_cmp (shifted (pos by) self.now) other.now }
    {
        compare_ending(&self.front, self.last.raised(by), other)
    }

    /// The same again.
    pub fn copy(&self) -> Result<Ident, AllocError>
        ensures copy { IfOk result (λ ident. ident ≡ self.now) }
    {
        Ok(Ident {
            front: copied(&self.front)?,
            last: self.last,
        })
    }

    /// Whether it has the base of the other identifier and the next offset.
    pub fn follows(&self, other: &Ident) -> bool
        ensures follows { result ≡ follows self.now other.now }
    {
        self.follows_by(other, 1)
    }

    /// Whether it has the base of the other identifier and an offset greater by this much.
    pub fn follows_by(&self, other: &Ident, by: u32) -> bool
        ensures follows { result ≡ ident_eq self.now (shifted (pos by) other.now) }
    {
        is_further(self.last, other.last, by) && same_tuples(&self.front, &other.front)
    }

    /// Whether it is a prefix of the pattern repeated without end, or is less at the first place
    /// where it differs from that. The pattern isn't empty.
    pub fn under(&self, pattern: &[Tuple]) -> bool
        requires pattern { 0 < length pattern.now }
        ensures under { result ≡ under tuple_cmp self.now pattern.now }
    {
        let mut place = 0;
        for i in 0..self.len() {
            match self.tuple(i).compare(&pattern[place]) {
                Ordering::Less => return true,
                Ordering::Greater => return false,
                Ordering::Equal => place = next_place(place, pattern.len()),
            }
        }
        true
    }

    /// The identifier with the last offset greater by this much.
    #[tactic(auto, using(crate::proofs::Ends::offset_of_ending, crate::proofs::Ends::shifted_of_ending))]
    pub fn shifted(&self, by: u32) -> Result<Ident, AllocError>
        requires greatest { (offset_of (last_of self.now) +ℤ pos by) ≤ℤ greatest_offset }
        ensures shifted { IfOk result (λ ident. ident ≡ shifted (pos by) self.now) }
    {
        Ok(Ident {
            front: copied(&self.front)?,
            last: self.last.raised(by),
        })
    }

    /// The identifier with the last offset less by this much.
    #[tactic(auto, using(crate::proofs::Ends::offset_of_ending, crate::proofs::Ends::shifted_of_ending))]
    pub fn lowered(&self, by: u32) -> Result<Ident, AllocError>
        requires least { least_offset ≤ℤ (offset_of (last_of self.now) -ℤ pos by) }
        ensures lowered { IfOk result (λ ident. ident ≡ shifted (pos 0 -ℤ pos by) self.now) }
    {
        Ok(Ident {
            front: copied(&self.front)?,
            last: self.last.lowered(by),
        })
    }

    /// Has a last offset less by this much. It takes no memory.
    #[tactic(auto, using(crate::proofs::Ends::offset_of_ending, crate::proofs::Ends::shifted_of_ending))]
    pub fn lower(&mut self, by: u32)
        requires least { least_offset ≤ℤ (offset_of (last_of self.old) -ℤ pos by) }
        ensures lowered { self.new ≡ shifted (pos 0 -ℤ pos by) self.old }
    {
        self.last = self.last.lowered(by);
    }

    /// The identifier after these tuples.
    pub fn prefixed(&self, front: &[Tuple]) -> Result<Ident, AllocError>
        requires bounded { All (λ t. IsTrue (is_inner_bounded t)) front.now }
        ensures prefixed { IfOk result (λ ident. ident ≡ front.now ++ self.now) }
    {
        let mut tuples = Vec::from_slice(*self.front.allocator(), front)?;
        tuples.extend_from_slice(&self.front)?;
        Ok(Ident {
            front: tuples,
            last: self.last,
        })
    }

    /// The identifier without its first n tuples.
    pub fn stripped(&self, n: usize) -> Result<Ident, AllocError>
        requires rest { n < length self.now }
        ensures stripped { IfOk result (λ ident. ident ≡ drop n self.now) }
    {
        let (_, rest) = self.front.as_slice().split_at(n);
        Ok(Ident {
            front: Vec::from_slice(*self.front.allocator(), rest)?,
            last: self.last,
        })
    }
}

// The order of the identifier of these tuples and one more, and another one.
fn compare_ending(front: &[Tuple], last: Spot, other: &Ident) -> Ordering
    ensures order { result ≡ ident_cmp (front.now ++ at_spot last ∷ []) other.now }
{
    let other_front = other.front();
    let end = front.len().min(other_front.len());
    for i in 0..end {
        // Two identifiers that are compared mostly begin alike, and to see that two tuples are equal costs half of their order.
        if !front[i].same(&other_front[i]) {
            return front[i].compare(&other_front[i]);
        }
    }
    match tuple_at(front, last, end).compare(&other.tuple(end)) {
        Ordering::Equal => front.len().cmp(&other_front.len()),
        order => order,
    }
}

// The tuple at a place of these tuples and one more.
fn tuple_at(front: &[Tuple], last: Spot, i: usize) -> Tuple
    requires place { i ≤ length front.now }
    ensures found { slice_get (front.now ++ at_spot last ∷ []) i ≡ Some result }
{
    if i < front.len() {
        front[i]
    } else {
        last.as_tuple()
    }
}

// Whether the first spot is the second but for its offset, which is greater by this much.
fn is_further(spot: Spot, before: Spot, by: u32) -> bool
    ensures further { IsTrue result ↔ (at_spot spot ≡ raised (pos by) (at_spot before)) }
{
    spot.pos == before.pos
        && spot.replica == before.replica
        && spot.seq == before.seq
        && spot.offset as i64 == before.offset as i64 + by as i64
}

fn same_tuples(tuples: &[Tuple], others: &[Tuple]) -> bool
    ensures same { result ≡ ident_eq tuples.now others.now }
{
    if tuples.len() != others.len() {
        return false;
    }
    for i in 0..tuples.len() {
        if !tuples[i].same(&others[i]) {
            return false;
        }
    }
    true
}

// The place after this one in a list that is repeated without end.
fn next_place(place: usize, len: usize) -> usize
    requires place { place < len }
    ensures within { result < len }
    ensures behind { place + 1 < len → result ≡ place + 1 }
    ensures again { place + 1 ≡ len → result ≡ 0 }
{
    if place + 1 < len { place + 1 } else { 0 }
}

fn copied(tuples: &Vec<Tuple>) -> Result<Vec<Tuple>, AllocError>
    ensures items { IfOk result (λ copy. copy.items ≡ tuples.now.items) }
{
    Vec::from_slice(*tuples.allocator(), tuples)
}

// The place of the first tuple that may not stand where it stands.
fn find_fault(tuples: &[Tuple]) -> Option<usize>
    ensures fault { result ≡ first_fault 0 tuples.now }
{
    for (i, tuple) in tuples.iter().enumerate() {
        let fits = if i + 1 < tuples.len() {
            tuple.is_inner()
        } else {
            tuple.is_last()
        };
        if !fits {
            return Some(i);
        }
    }
    None
}
