//! The greatest number of each author, which tells how many operations a vector leaves uncovered at most.
//! Why: CHOICES.md, 179.

ghost use Rattle.std.specs.Prelude.{◌≡◌, ◌-◌, ◌^◌, ◌≤◌, ◌++◌, ◌∷◌, [], ℕ, List, min, length, slice_index, IfOk};
ghost use Rattle.rls_ops.specs.declared.op.Op.{Op as OpSeen};
ghost use Rattle.rls_ops.specs.Rows.{missing_for};
ghost use Rattle.rls_log.specs.Encoded.{AreEntries, ops_in};
ghost use Rattle.rls_log.specs.Heads.{IsHeadOf};
ghost use Rattle.rls_log.specs.Latest.{Bounds, excess};

use crate::entry::Entry;
use crate::head::OpHead;
use rls_ident::Vector;
use std::alloc::{AllocError, Global};

/// The greatest number of each author among some operations, as long as each of them has a greater one than those of its author before
/// it. Where one had not, nothing is told of them any more.
#[derive(Drop)]
pub(crate) struct Latest {
    /// One for each author, by its number.
    counts: Vec<u32>,
    is_rising: bool,
}

impl Latest {
    // Of no operation. It takes no memory.
    pub(crate) fn new(alloc: Global) -> Latest
        ensures none { Bounds result [] }
    {
        Latest {
            counts: Vec::new(alloc),
            is_rising: true,
        }
    }

    // Of the operations of these entries.
    pub(crate) fn of(alloc: Global, entries: &[Entry]) -> Result<Latest, AllocError>
        ensures bounds { IfOk result (λ latest. (bytes : List ℕ) → AreEntries bytes entries.now → Bounds latest (ops_in bytes entries.now)) }
    {
        let mut latest = Latest::new(alloc);
        for entry in entries {
            latest.reserve(entry.head.members)?;
            latest.note(&entry.head);
        }
        Ok(latest)
    }

    // Makes room for this many authors. It tells the same as before.
    pub(crate) fn reserve(&mut self, members: u32) -> Result<(), AllocError>
        ensures same { (os : List OpSeen) → Bounds self.old os → Bounds self.new os }
    {
        if members as usize > self.counts.len() {
            self.counts.resize(members as usize, 0)?;
        }
        Ok(())
    }

    // Notes the operation of this head, which comes after the others.
    pub(crate) fn note(&mut self, head: &OpHead)
        ensures noted { (os : List OpSeen) (o : OpSeen) → IsHeadOf head.now o → Bounds self.old os → Bounds self.new (os ++ o ∷ []) }
    {
        let author = head.author as usize;
        if author < self.counts.len() && self.counts[author] < head.seq {
            self.counts[author] = head.seq;
        } else {
            self.is_rising = false;
        }
    }

    // How many of the operations a vector doesn't cover, at most. There are so many.
    pub(crate) fn uncovered(&self, vector: &Vector, count: usize) -> usize
        ensures bound { (os : List OpSeen) → length os ≡ count → Bounds self.now os → length (missing_for vector.now os) ≤ result }
    {
        if !self.is_rising {
            return count;
        }
        excess(&self.counts, vector.counts())
    }
}

// How far these counts are below the numbers, in sum, or the greatest usize where they are more.
fn excess(numbers: &[u32], counts: &[u32]) -> usize
    ensures excess { result ≡ min (excess numbers.now counts.now) (2 ^ 64 - 1) }
{
    let mut total: usize = 0;
    for a in 0..numbers.len() {
        let below = numbers[a].saturating_sub(count_of(counts, a));
        total = total.saturating_add(below as usize);
    }
    total
}

// The count of an author, or 0 where there is none.
fn count_of(counts: &[u32], author: usize) -> u32
    ensures count { result ≡ slice_index counts.now author }
{
    match counts.get(author) {
        Some(count) => *count,
        None => 0,
    }
}
