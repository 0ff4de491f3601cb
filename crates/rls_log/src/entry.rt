//! Where the bytes of an operation stand.
//! Why: docs/DECISIONS.md, 142.

ghost use Rattle.std.specs.Prelude.{◌≡◌, ◌+◌, ◌≤◌, length, IfOk};
ghost use Rattle.rls_log.specs.Encoded.{part_of};

use crate::head::OpHead;

/// Where the bytes of an operation stand, and what is known of it without its body.
#[derive(Clone, Copy)]
pub(crate) struct Entry {
    pub(crate) start: usize,
    pub(crate) len: u32,
    pub(crate) head: OpHead,
}

impl Entry {
    // The same operation, whose bytes stand from another place on.
    pub(crate) fn moved_to(&self, start: usize) -> Entry
        ensures start { result.start ≡ start }
        ensures len { result.len ≡ self.now.len }
        ensures head { result.head ≡ self.now.head }
    {
        Entry { start, ..*self }
    }

    // The bytes of the operation, of these.
    pub(crate) fn part<'a>(&self, bytes: &'a [u8]) -> &'a [u8]
        requires within { self.now.start + self.now.len ≤ length bytes.now }
        ensures part { result.now ≡ part_of bytes.now self.now }
    {
        let (_, rest) = bytes.split_at(self.start);
        rest.split_at(self.len as usize).0
    }
}

// The place from which on the bytes of the entry at a place stand, or the greatest usize if there is none.
pub(crate) fn start_of(entries: &[Entry], i: usize) -> usize {
    match entries.get(i) {
        Some(entry) => entry.start,
        None => usize::MAX,
    }
}
