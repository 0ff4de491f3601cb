//! What a disk in memory holds, and the records of its calls.

ghost use Rattle.std.specs.Prelude.{◌≡◌, ◌+◌, ◌<◌, ◌≤◌, ℕ, length, IfOk, vec_capacity};
ghost use Rattle.rls_journal.specs.Areas.{area_of, with_area, spliced};
ghost use Rattle.rls_journal.specs.Records.{areas_of, len_of, HasRoom};

use std::alloc::{AllocError, Global};

/// The record of a call. The bytes of the writes stand elsewhere, one after another.
#[derive(Clone, Copy)]
pub enum Entry {
    Looked,
    Wrote { area: u8, at: u64, len: usize },
    Synced { area: u8 },
}

/// The bytes of the three areas.
#[derive(Drop)]
pub struct Contents {
    pub slot0: Vec<u8>,
    pub slot1: Vec<u8>,
    pub gate: Vec<u8>,
}

// A copy of the bytes, with memory for so many more.
fn with_room(alloc: Global, bytes: &[u8], room: usize) -> Result<Vec<u8>, AllocError>
    ensures items { IfOk result (λ v. v.items ≡ bytes.now) }
    ensures room { IfOk result (λ v. length v.items + room ≤ vec_capacity v) }
{
    let mut copy = Vec::from_slice(alloc, bytes)?;
    copy.reserve(room)?;
    Ok(copy)
}

/// Puts bytes at a place of a vector that has memory for them.
pub fn splice(content: &mut Vec<u8>, at: usize, bytes: &[u8])
    requires within { at ≤ length content.old.items }
    requires room { length content.old.items + length bytes.now ≤ vec_capacity content.old }
    ensures items { content.new.items ≡ spliced content.old.items at bytes.now }
    ensures longer { length content.new.items ≤ length content.old.items + length bytes.now }
    ensures capacity { vec_capacity content.old ≤ vec_capacity content.new }
{
    let n = bytes.len().min(content.len() - at);
    let (over, behind) = bytes.split_at(n);
    content[at..at + n].copy_from_slice(over);
    content.extend_from_slice(behind).unwrap();
}

impl Entry {
    /// How many bytes were written.
    pub fn len(&self) -> usize
        ensures len { result ≡ len_of self.now }
    {
        match *self {
            Entry::Wrote { len, .. } => len,
            _ => 0,
        }
    }
}

impl Contents {
    /// A copy of the areas, with memory for this many bytes more in each.
    pub fn new(
        alloc: Global,
        slot0: &[u8],
        slot1: &[u8],
        gate: &[u8],
        room: usize,
    ) -> Result<Contents, AllocError>
        ensures areas { IfOk result (λ c. areas_of c ≡ record { slot0 = slot0.now; slot1 = slot1.now; gate = gate.now }) }
        ensures room { IfOk result (λ c. HasRoom c room) }
    {
        Ok(Contents {
            slot0: with_room(alloc, slot0, room)?,
            slot1: with_room(alloc, slot1, room)?,
            gate: with_room(alloc, gate, room)?,
        })
    }

    /// An area, which is below 3.
    pub fn area(&self, area: u8) -> &[u8]
        requires area { area < 3 }
        ensures area { result.now ≡ area_of (areas_of self.now) area }
    {
        match area {
            0 => &self.slot0,
            1 => &self.slot1,
            _ => &self.gate,
        }
    }

    /// Puts bytes at a place of an area that has memory for them.
    pub fn put(&mut self, area: u8, at: usize, bytes: &[u8])
        requires area { area < 3 }
        requires within { at ≤ length (area_of (areas_of self.old) area) }
        requires room { HasRoom self.old (length bytes.now) }
        ensures areas { areas_of self.new ≡ with_area (areas_of self.old) area (spliced (area_of (areas_of self.old) area) at bytes.now) }
        ensures room { (left : ℕ) → HasRoom self.old (left + length bytes.now) → HasRoom self.new left }
    {
        match area {
            0 => splice(&mut self.slot0, at, bytes),
            1 => splice(&mut self.slot1, at, bytes),
            _ => splice(&mut self.gate, at, bytes),
        }
    }
}
