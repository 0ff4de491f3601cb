//! Runs.

ghost use Rattle.std.specs.Prelude.{◌≡◌, ℕ, ◌+◌, ◌<◌, ◌≤◌, ◌⊎◌, List, ◌∷◌, ◌++◌, [], length, take, ◌+ℤ◌, ◌-ℤ◌, ◌<ℤ◌, ◌≤ℤ◌, pos, ◌↔◌, IfOk, IfErr, IsErrOf, IsTrue};
ghost use Rattle.rls_ident.specs.declared.tuple.Tuple.{Tuple};
ghost use Rattle.rls_ident.specs.Tuples.{at_spot, offset_of};
ghost use Rattle.rls_ident.specs.Identifiers.{last_of, ident_lt, shifted, follows};
ghost use Rattle.rls_runs.specs.Runs.{run_idents, run_last, place_of, is_run, past_offsets};
ghost use Rattle.rls_runs.specs.Places.{find_ident};
ghost use Rattle.rls_runs.specs.Fronts.{front_of, shared};

use rls_ident::limits::OFFSETS_END;
use rls_ident::{Ident, Spot, Tuple, rely};
use std::alloc::AllocError;
use std::cmp::Ordering;
use std::marker::Model;

/// Identifiers of one base with consecutive offsets, seen as the first and their number.
#[derive(Drop)]
pub struct Run {
    first: Ident,
    len: u32,
}

impl Model for Run {
    ghost use Rattle.std.specs.Prelude.{List, ℕ, IsTrue};
    ghost use Rattle.rls_ident.specs.declared.tuple.Tuple.{Tuple};
    ghost use Rattle.rls_runs.specs.Runs.{is_run};

    ghost Value = { List Tuple × ℕ };

    ghost view = { λ r. (r.first, r.len) };

    ghost invariant = { λ r. IsTrue (is_run (r.first, r.len)) };
}

/// Why there is no such run.
#[derive(Clone, Copy, Debug, PartialEq, Eq)]
pub enum RunError {
    /// It has no identifier.
    Empty,
    /// Its last identifier has an offset above the greatest one.
    OffsetEnd,
}

impl Run {
    /// The run of this many identifiers from this one on. It takes no memory.
    ///
    /// # Errors
    ///
    /// `Empty` exactly where the length is 0, and `OffsetEnd` exactly where the last offset and the
    /// length together pass 1,073,741,824. The identifier is given up then.
    pub fn new(first: Ident, len: u32) -> Result<Run, RunError>
        ensures ok { IfOk result (λ run. run ≡ (first, len)) }
        ensures empty { IsErrOf result RunError.Empty ↔ (len ≡ 0) }
        ensures offset_end { IsErrOf result RunError.OffsetEnd ↔ (past_offsets <ℤ (offset_of (last_of first) +ℤ pos len)) }
    {
        let end = first.last().offset as i64 + len as i64;
        if len == 0 {
            return Err(RunError::Empty);
        }
        if end > OFFSETS_END as i64 {
            return Err(RunError::OffsetEnd);
        }
        Ok(Run { first, len })
    }

    /// The first identifier.
    pub fn first(&self) -> &Ident
        ensures first { result.now ≡ self.now.0 }
        ensures run { IsTrue (is_run self.now) }
    {
        &self.first
    }

    /// How many identifiers there are.
    pub fn len(&self) -> u32
        ensures len { result ≡ self.now.1 }
        ensures run { IsTrue (is_run self.now) }
    {
        self.len
    }

    /// The identifier's place in the run, or where it isn't there the number of the run's
    /// identifiers less than it. It takes no memory, and costs a comparison of two identifiers.
    pub fn find(&self, id: &Ident) -> Result<u32, u32>
        ensures place { result ≡ place_of id.now (run_idents self.now.0 self.now.1) }
        ensures find { result ≡ find_ident (run_idents self.now.0 self.now.1) id.now }
    {
        self.find_from(id, 0).0
    }

    /// What `find` answers, and how many first tuples the run and the identifier share, their last ones
    /// aside. The first `from` tuples are known to be shared: it doesn't look at them. It takes no memory.
    pub fn find_from(&self, id: &Ident, from: usize) -> (Result<u32, u32>, usize)
        requires from { take from self.now.0 ≡ take from id.now }
        ensures place { result.0 ≡ place_of id.now (run_idents self.now.0 self.now.1) }
        ensures find { result.0 ≡ find_ident (run_idents self.now.0 self.now.1) id.now }
        ensures shared { result.1 ≡ shared (front_of self.now.0) (front_of id.now) }
    {
        let shared = count_shared(&self.first, id, from);
        let place = find_behind(self.first.front(), self.first.last(), self.len, id, shared);
        (place, shared)
    }

    /// Whether its last identifier is less than this one. It takes no memory.
    pub fn ends_below(&self, id: &Ident) -> bool
        ensures below { result ≡ ident_lt (run_last self.now) id.now }
    {
        match self.find(id) {
            Ok(_) => false,
            Err(below) => below == self.len,
        }
    }

    /// Whether this identifier has the base of its last one and the next offset. It takes no memory.
    pub fn touches(&self, id: &Ident) -> bool
        ensures touches { result ≡ follows id.now (run_last self.now) }
    {
        id.follows_by(&self.first, self.len)
    }

    /// `len` of its identifiers, from a place on.
    pub fn part(&self, from: u32, len: u32) -> Result<Run, AllocError>
        requires some { 0 < len }
        requires within { from + len ≤ self.now.1 }
        ensures part { IfOk result (λ part. part ≡ (shifted (pos from) self.now.0, len)) }
    {
        rely!(let _len = self.len());
        match Run::new(self.first().shifted(from)?, len) {
            Ok(part) => Ok(part),
            Err(RunError::Empty) => unreachable!(),
            Err(RunError::OffsetEnd) => unreachable!(),
        }
    }

    /// Has this many more identifiers at its end, none of which has an offset above the greatest one. It takes no memory.
    pub fn grow(&mut self, by: u32)
        requires fits { IsTrue (is_run (self.old.0, self.old.1 + by)) }
        ensures longer { self.new ≡ (self.old.0, self.old.1 + by) }
    {
        self.len += by;
    }

    /// Has this many more identifiers in front of its first one, none of which has an offset below the least one. It takes no memory.
    pub fn grow_front(&mut self, by: u32)
        requires fits { IsTrue (is_run (shifted (pos 0 -ℤ pos by) self.old.0, self.old.1 + by)) }
        ensures longer { self.new ≡ (shifted (pos 0 -ℤ pos by) self.old.0, self.old.1 + by) }
    {
        self.first.lower(by);
        self.len += by;
    }

    /// Keeps this many of its first identifiers. It takes no memory.
    #[tactic(auto, using(crate::proofs::RunEnds::shorter_is))]
    pub fn shorten(&mut self, len: u32)
        requires some { 0 < len }
        requires within { len ≤ self.old.1 }
        ensures shorter { self.new ≡ (self.old.0, len) }
    {
        self.len = len;
    }

    /// The same again.
    pub fn copy(&self) -> Result<Run, AllocError>
        ensures copy { IfOk result (λ run. run ≡ self.now) }
    {
        Ok(Run {
            first: self.first.copy()?,
            len: self.len,
        })
    }
}

// How many first tuples two identifiers share, their last ones aside, where the first `from` are known to be shared.
fn count_shared(first: &Ident, id: &Ident, from: usize) -> usize
    requires from { take from first.now ≡ take from id.now }
    ensures shared { result ≡ shared (front_of first.now) (front_of id.now) }
{
    let (front, own) = (first.front(), id.front());
    let end = front.len().min(own.len());
    for i in from.min(end)..end {
        if !front[i].same(&own[i]) {
            return i;
        }
    }
    end
}

// The place among so many identifiers, of which the first is this front and this spot, by the first tuple that isn't shared.
fn find_behind(front: &[Tuple], first: Spot, len: u32, id: &Ident, at: usize) -> Result<u32, u32>
    requires at { at ≡ shared front.now (front_of id.now) }
    ensures find { result ≡ find_ident (run_idents (front.now ++ at_spot first ∷ []) len) id.now }
{
    let longer = at < id.front().len();
    let tuple = id.tuple(at);
    if front.len() <= at {
        return find_by_tuple(first, len, tuple, longer);
    }
    match tuple.compare(&front[at]) {
        Ordering::Less => Err(0),
        // It is the identifier's last one.
        Ordering::Equal => Err(0),
        Ordering::Greater => Err(len),
    }
}

// The place among so many identifiers of one tuple, by the first tuple and whether more stand after it.
fn find_by_tuple(first: Spot, len: u32, tuple: Tuple, longer: bool) -> Result<u32, u32>
    ensures find { (rest : List Tuple) → (IsTrue longer ↔ (0 < length rest)) → result ≡ find_ident (run_idents (at_spot first ∷ []) len) (tuple ∷ rest) }
{
    match tuple {
        Tuple::Low => Err(0),
        Tuple::High => Err(len),
        Tuple::At {
            pos,
            replica,
            seq,
            offset,
        } => {
            let order = pos
                .cmp(&first.pos)
                .then(replica.cmp(&first.replica).then(seq.cmp(&first.seq)));
            match order {
                Ordering::Less => Err(0),
                Ordering::Equal => find_by_offset(first.offset, len, offset, longer),
                Ordering::Greater => Err(len),
            }
        }
    }
}

// The place among so many identifiers of one tuple, by the offset alone.
fn find_by_offset(first: i32, len: u32, offset: i32, longer: bool) -> Result<u32, u32>
    ensures find { (pos replica seq : ℕ) (rest : List Tuple) → (IsTrue longer ↔ (0 < length rest)) → result ≡ find_ident (run_idents (Tuple.At pos replica seq first ∷ []) len) (Tuple.At pos replica seq offset ∷ rest) }
{
    match offset_place(first, len, offset) {
        Err(below) => Err(below),
        Ok(place) => { if longer { Err(place + 1) } else { Ok(place) } }
    }
}

// The place of an offset among so many that go on from the first one, or where it isn't there the number of
// those below it.
fn offset_place(first: i32, len: u32, offset: i32) -> Result<u32, u32>
    ensures there { IfOk result (λ place. (place < len) × ((first +ℤ pos place) ≡ offset)) }
    ensures not_there { IfErr result (λ below. ((below ≡ 0) × (offset <ℤ first)) ⊎ ((below ≡ len) × ((first +ℤ pos len) ≤ℤ offset))) }
{
    if offset < first {
        return Err(0);
    }
    let place = (offset as i64 - first as i64) as u32;
    if len <= place {
        return Err(len);
    }
    Ok(place)
}
