//! Vectors: one count for each member.
//! Why: CHOICES.md, 208.

ghost use Rattle.std.specs.Prelude.{◌≡◌, ◌<◌, ◌≤◌, ◌-◌, ◌^◌, ◌++◌, ◌∷◌, [], IfOk, OnOk, OnErr, length, slice_index, replicate};
ghost use Rattle.std.specs.List.{All};
ghost use Rattle.rls_ident.specs.Vectors.{at_most, join, meet, raise};

use crate::rely;
use std::alloc::{AllocError, Global};
use std::marker::Model;

// How many counts a vector has places for in itself.
const PLACES: usize = 4;

/// One count for each member, seen as the list of the counts. Up to four stand in the vector itself and take no other memory.
#[derive(Drop)]
pub struct Vector {
    alloc: Global,
    counts: Counts,
}

// How the counts of a vector stand.
#[derive(Drop)]
enum Counts {
    // In the vector itself. They take no memory.
    Few(Few),
    // In a list.
    Many(Vec<u32>),
}

// Up to four counts, in the first places.
#[derive(Clone, Copy)]
struct Few {
    len: usize,
    places: [u32; PLACES],
}

impl Model for Vector {
    ghost use Rattle.std.specs.Prelude.{List, ℕ};

    ghost Value = { List ℕ };

    ghost use Rattle.rls_ident.specs.Counts.{counts_of, FitPlaces};

    ghost view = { λ a. counts_of a.counts };

    ghost invariant = { λ a. FitPlaces a.counts };
}

impl Vector {
    /// The vector of no member. It takes no memory.
    pub fn new(alloc: Global) -> Vector
        ensures empty { result ≡ [] }
    {
        Vector {
            alloc,
            counts: Counts::Few(Few {
                len: 0,
                places: [0; PLACES],
            }),
        }
    }

    // The vector of these counts, which stand in itself. It takes no memory.
    fn of_few(alloc: Global, counts: &[u32]) -> Vector
        requires few { length counts.now ≤ 4 }
        ensures counts { result ≡ counts.now }
    {
        let len = counts.len();
        let mut places = [0; PLACES];
        places[..len].copy_from_slice(counts);
        Vector {
            alloc,
            counts: Counts::Few(Few { len, places }),
        }
    }

    /// The vector of this many members that counts nothing.
    pub fn zero(alloc: Global, members: u32) -> Result<Vector, AllocError>
        ensures zero { IfOk result (λ v. v ≡ replicate members 0) }
    {
        Ok(Vector::from_vec(Vec::from_elem(alloc, 0, members as usize)?))
    }

    /// The vector of these counts.
    pub fn from_counts(alloc: Global, counts: &[u32]) -> Result<Vector, AllocError>
        ensures counts { IfOk result (λ v. v ≡ counts.now) }
    {
        Ok(Vector::from_vec(Vec::from_slice(alloc, counts)?))
    }

    /// The vector of these counts. It takes no memory, and gives the list's back if the counts are at most four.
    pub fn from_vec(counts: Vec<u32>) -> Vector
        ensures counts { result ≡ counts.items }
    {
        let alloc = *counts.allocator();
        if counts.len() <= PLACES {
            return Vector::of_few(alloc, &counts);
        }
        Vector {
            alloc,
            counts: Counts::Many(counts),
        }
    }

    fn as_slice(&self) -> &[u32]
        ensures counts { result.now ≡ self.now }
    {
        match &self.counts {
            Counts::Few(few) => &few.places[..few.len],
            Counts::Many(list) => list.as_slice(),
        }
    }

    /// The counts.
    pub fn counts(&self) -> &[u32]
        ensures counts { result.now ≡ self.now }
        ensures bounded { All (λ n. n < 2 ^ 32) self.now }
    {
        in_width(self.as_slice())
    }

    /// The same again. It takes no memory if the counts are at most four.
    pub fn copy(&self) -> Result<Vector, AllocError>
        ensures copy { IfOk result (λ v. v ≡ self.now) }
    {
        let counts = match &self.counts {
            Counts::Few(few) => Counts::Few(*few),
            Counts::Many(list) => Counts::Many(Vec::from_slice(self.alloc, list)?),
        };
        Ok(Vector {
            alloc: self.alloc,
            counts,
        })
    }

    /// The number of members.
    pub fn len(&self) -> usize
        ensures len { result ≡ length self.now }
        ensures bounded { All (λ n. n < 2 ^ 32) self.now }
    {
        in_width(self.as_slice()).len()
    }

    /// The count of a member.
    pub fn get(&self, i: u32) -> u32
        requires member { i < length self.now }
        ensures count { result ≡ slice_index self.now i }
    {
        self.as_slice()[i as usize]
    }

    /// Whether each count is at most the other's.
    pub fn at_most(&self, other: &Vector) -> bool
        ensures at_most { result ≡ at_most self.now other.now }
    {
        counts_at_most(self.as_slice(), other.as_slice())
    }

    /// Puts the count of one more member after the last one. It takes memory from the fifth on. After an error the vector is as it was.
    pub fn push(&mut self, count: u32) -> Result<(), AllocError>
        ensures ok { OnOk result (self.new ≡ self.old ++ count ∷ []) }
        ensures err { OnErr result (self.new ≡ self.old) }
    {
        match &mut self.counts {
            Counts::Few(few) => {
                if few.len < PLACES {
                    few.places[few.len] = count;
                    few.len += 1;
                    return Ok(());
                }
                let list = list_of(self.alloc, &few.places, count)?;
                self.counts = Counts::Many(list);
            }
            Counts::Many(list) => list.push(count)?,
        }
        Ok(())
    }

    /// Takes the greater count, member by member.
    pub fn join_in(&mut self, other: &Vector)
        requires members { length self.old ≡ length other.now }
        ensures join { self.new ≡ join self.old other.now }
    {
        match &mut self.counts {
            Counts::Few(few) => join_counts(&mut few.places[..few.len], other.as_slice()),
            Counts::Many(list) => join_counts(list, other.as_slice()),
        }
    }

    /// Takes the lesser count, member by member.
    pub fn meet_in(&mut self, other: &Vector)
        requires members { length self.old ≡ length other.now }
        ensures meet { self.new ≡ meet self.old other.now }
    {
        match &mut self.counts {
            Counts::Few(few) => meet_counts(&mut few.places[..few.len], other.as_slice()),
            Counts::Many(list) => meet_counts(list, other.as_slice()),
        }
    }

    /// Counts one more of a member.
    pub fn raise(&mut self, i: u32)
        requires member { i < length self.old }
        requires room { slice_index self.old i < 2 ^ 32 - 1 }
        ensures raise { self.new ≡ raise self.old i }
    {
        match &mut self.counts {
            Counts::Few(few) => raise_count(&mut few.places[..few.len], i),
            Counts::Many(list) => raise_count(list, i),
        }
    }
}

// The list of these counts and one more, with room for others.
fn list_of(alloc: Global, counts: &[u32], count: u32) -> Result<Vec<u32>, AllocError>
    ensures list { IfOk result (λ list. list.items ≡ counts.now ++ count ∷ []) }
{
    let mut list = Vec::with_capacity(alloc, 2 * PLACES)?;
    list.extend_from_slice(counts)?;
    list.push(count)?;
    Ok(list)
}

fn raise_count(counts: &mut [u32], i: u32)
    requires member { i < length counts.old }
    requires room { slice_index counts.old i < 2 ^ 32 - 1 }
    ensures raise { counts.new ≡ raise counts.old i }
{
    counts[i as usize] += 1;
}

// The same numbers, each of which fits its width.
fn in_width(counts: &[u32]) -> &[u32]
    ensures same { result.now ≡ counts.now }
    ensures bounded { All (λ n. n < 2 ^ 32) counts.now }
{
    rely!(let _len = counts.len());
    counts
}

fn counts_at_most(counts: &[u32], others: &[u32]) -> bool
    ensures at_most { result ≡ at_most counts.now others.now }
{
    if counts.len() > others.len() {
        return false;
    }
    for i in 0..counts.len() {
        if counts[i] > others[i] {
            return false;
        }
    }
    true
}

fn join_counts(counts: &mut [u32], others: &[u32])
    requires members { length counts.old ≡ length others.now }
    ensures join { counts.new ≡ join counts.old others.now }
{
    for i in 0..counts.len() {
        counts[i] = counts[i].max(others[i]);
    }
}

fn meet_counts(counts: &mut [u32], others: &[u32])
    requires members { length counts.old ≡ length others.now }
    ensures meet { counts.new ≡ meet counts.old others.now }
{
    for i in 0..counts.len() {
        counts[i] = counts[i].min(others[i]);
    }
}
