//! A disk in memory, which tells all that it holds, and what a crash would have left of it.
//! Why: CHOICES.md, 37.

ghost use Rattle.std.specs.Prelude.{◌≡◌, ◌+◌, ◌<◌, ◌≤◌, ◌↔◌, [], length, take, Some, false, IsTrue, IsErr, IfOk, OnOk, OnErr};
ghost use Rattle.rls_journal.specs.Disk.{CountsFaults};
ghost use Rattle.rls_journal.specs.Areas.{area_of};
ghost use Rattle.rls_journal.specs.Memory.{Gives, IsQuiet, Looked, Wrote, Synced, MayLeave, written_at, seen_step, image_step, image_after, filled_after, bytes_written, reading, can_leave, might_have_left, Refuses, done, recorded, refused};
ghost use Rattle.rls_journal.specs.Records.{WritesNothing, call_of, calls_of, bytes_in};
ghost use Rattle.rls_journal.specs.MemoryLaws.{reads_left, now_counts, now_only};

use crate::contents::{Contents, Entry, splice};
use crate::disk::Disk;
use rls_io::Failed;
use std::alloc::{AllocError, Global};
use std::marker::Model;

/// A disk in memory. It counts its calls from 0, records each, and fails at the calls that it was told to fail at. Its count
/// of faults starts at 0. No call takes memory.
#[derive(Drop)]
pub struct MemoryDisk {
    alloc: Global,
    first: Contents,
    current: Contents,
    entries: Vec<Entry>,
    written: Vec<u8>,
    most: usize,
    left: usize,
    room: usize,
    failing: Vec<u64>,
    faults: u64,
}

impl Model for MemoryDisk {
    ghost use Rattle.rls_journal.specs.Memory.{DiskState};
    ghost use Rattle.rls_journal.specs.Records.{areas_of, calls_of, IsKept};

    ghost Value = { DiskState };

    ghost view = { λ d. record { first = areas_of d.first; calls = calls_of d.entries.items d.written.items; most = d.most; room = d.room; failing = d.failing.items; faults = d.faults } };

    ghost invariant = { λ d. IsKept d.first d.current d.entries d.written d.most d.left d.room };
}

impl MemoryDisk {
    /// A disk with copies of these areas and nothing pending, at which the calls with these numbers fail. It takes the memory
    /// for the records of `calls` calls and of `room` written bytes.
    pub fn new(
        alloc: Global,
        slot0: &[u8],
        slot1: &[u8],
        gate: &[u8],
        calls: usize,
        room: usize,
        failing: &[u64],
    ) -> Result<MemoryDisk, AllocError>
        ensures fresh { IfOk result (λ disk. disk ≡ record { first = record { slot0 = slot0.now; slot1 = slot1.now; gate = gate.now }; calls = []; most = calls; room = room; failing = failing.now; faults = 0 }) }
    {
        Ok(MemoryDisk {
            alloc,
            entries: Vec::with_capacity(alloc, calls)?,
            written: Vec::with_capacity(alloc, room)?,
            failing: Vec::from_slice(alloc, failing)?,
            first: Contents::new(alloc, slot0, slot1, gate, 0)?,
            current: Contents::new(alloc, slot0, slot1, gate, room)?,
            most: calls,
            left: room,
            room,
            faults: 0,
        })
    }

    /// How many calls are recorded.
    pub fn calls(&self) -> u64
        ensures count { result ≡ length self.now.calls }
        ensures most { result ≤ self.now.most }
    {
        self.entries.len() as u64
    }

    /// The disk after a crash after this many of the recorded calls, in which each byte that was pending is the filler, and
    /// each size the greatest. It has nothing pending, no record, and the same room for both, and no call fails.
    pub fn crashed(&self, calls: u64, filler: u8) -> Result<MemoryDisk, AllocError>
        requires calls { calls ≤ length self.now.calls }
        ensures fresh { IfOk result (λ disk. disk ≡ record { first = filled_after filler self.now.first (take calls self.now.calls); calls = []; most = self.now.most; room = self.now.room; failing = []; faults = 0 }) }

        // It is one of the images that a crash may leave there.
        ensures image { MayLeave self.now.first (take calls self.now.calls) (filled_after filler self.now.first (take calls self.now.calls)) }
    {
        let slot0 = self.image(0, calls as usize, filler)?;
        let slot1 = self.image(1, calls as usize, filler)?;
        let gate = self.image(2, calls as usize, filler)?;
        MemoryDisk::new(self.alloc, &slot0, &slot1, &gate, self.most, self.room, &[])
    }

    // An area after such a crash.
    fn image(&self, area: u8, calls: usize, filler: u8) -> Result<Vec<u8>, AllocError>
        requires area { area < 3 }
        requires calls { calls ≤ length self.now.calls }
        ensures image { IfOk result (λ v. v.items ≡ image_after filler area (area_of self.now.first area) (area_of self.now.first area) (take calls self.now.calls)) }
    {
        let (entries, _) = self.entries.split_at(calls);
        image_of(
            self.alloc,
            area,
            filler,
            self.first.area(area),
            entries,
            &self.written,
        )
    }

    // Records a call that fails, where there is a record left.
    fn note_refused(&mut self)
        ensures recorded { self.new ≡ recorded self.old }
    {
        if self.calls() < self.most as u64 {
            self.note(Entry::Looked);
        }
    }

    // Counts a call that fails.
    fn fail(&mut self)
        ensures refused { self.new ≡ refused self.old }
        ensures never_falls { self.old.faults ≤ self.new.faults }
    {
        self.note_refused();
        self.faults = self.faults.saturating_add(1);
    }

    // How many bytes may still be written.
    fn room_left(&self) -> usize
        ensures left { bytes_written self.now.calls + result ≡ self.now.room }
    {
        self.left
    }

    // Tells whether the next call, with so many bytes, fails.
    fn refuses(&self, count: usize) -> bool
        ensures refuses { IsTrue result ↔ Refuses self.now count }
        ensures few { result ≡ false → length self.now.calls < self.now.most }
    {
        let number = self.calls();
        if self.failing.contains(&number) {
            return true;
        }
        if number == self.most as u64 {
            return true;
        }
        self.room_left() < count
    }

    // Begins a call with so many bytes.
    fn enter(&mut self, count: usize) -> Result<(), Failed>
        ensures exact { IsErr result ↔ Refuses self.old count }
        ensures ok { OnOk result (self.new ≡ self.old) }
        ensures few { OnOk result (length self.old.calls < self.old.most) }
        ensures room { OnOk result (bytes_written self.old.calls + count ≤ self.old.room) }
        ensures refused { OnErr result (self.new ≡ refused self.old) }
        ensures quiet { OnErr result (IsQuiet self.old self.new) }
        ensures never_falls { self.old.faults ≤ self.new.faults }
    {
        if self.refuses(count) {
            self.fail();
            return Err(Failed);
        }
        Ok(())
    }

    // What is read of an area.
    fn area(&self, area: u8) -> &[u8]
        requires area { area < 3 }
        ensures area { result.now ≡ area_of (reading self.now) area }
    {
        self.current.area(area)
    }

    // Records a call that writes nothing.
    fn note(&mut self, entry: Entry)
        requires few { length self.old.calls < self.old.most }
        requires nothing { WritesNothing entry }
        ensures done { self.new ≡ done self.old (call_of entry []) }
    {
        self.entries.push(entry).unwrap();
    }

    // A call that changes nothing.
    fn quiet(&mut self) -> Result<(), Failed>
        ensures quiet { IsQuiet self.old self.new }
        ensures counted { CountsFaults result self.old.faults self.new.faults }
        ensures exact { IsErr result ↔ Refuses self.old 0 }
        ensures done { OnOk result (self.new ≡ done self.old Looked) }
        ensures refused { OnErr result (self.new ≡ refused self.old) }
    {
        self.enter(0)?;
        self.note(Entry::Looked);
        Ok(())
    }

    // Writes, and records it.
    fn put(&mut self, area: u8, at: u64, bytes: &[u8])
        requires area { area < 3 }
        requires few { length self.old.calls < self.old.most }
        requires room { bytes_written self.old.calls + length bytes.now ≤ self.old.room }
        requires within { at ≤ length (area_of (reading self.old) area) }
        ensures done { self.new ≡ done self.old (Wrote area at bytes.now) }
    {
        self.written.extend_from_slice(bytes).unwrap();
        self.current.put(area, at as usize, bytes);
        self.left -= bytes.len();
        let len = bytes.len();
        self.entries.push(Entry::Wrote { area, at, len }).unwrap();
    }
}

// Puts bytes at a place within those that are there.
fn overwrite(content: &mut Vec<u8>, at: u64, bytes: &[u8]) -> Result<(), AllocError>
    ensures written { OnOk result (content.new.items ≡ written_at content.old.items at bytes.now) }
{
    if at as usize <= content.len() {
        content.reserve(bytes.len())?;
        splice(content, at as usize, bytes);
    }
    Ok(())
}

// What is read of an area after one more call.
fn replay_seen(area: u8, entry: &Entry, bytes: &[u8], seen: &mut Vec<u8>) -> Result<(), AllocError>
    ensures seen { OnOk result (seen.new.items ≡ seen_step area (call_of entry.now bytes.now) seen.old.items) }
{
    match *entry {
        Entry::Wrote {
            area: written,
            at,
            ..
        } if written == area => overwrite(seen, at, bytes),
        _ => Ok(()),
    }
}

// What a crash with this filler leaves of an area after one more call.
fn replay_image(
    alloc: Global,
    area: u8,
    filler: u8,
    entry: &Entry,
    bytes: &[u8],
    seen: &[u8],
    image: &mut Vec<u8>,
) -> Result<(), AllocError>
    ensures image { OnOk result (image.new.items ≡ image_step filler area (call_of entry.now bytes.now) seen.now image.old.items) }
{
    match *entry {
        Entry::Wrote {
            area: written,
            at,
            ..
        } if written == area => {
            let pending = vec![in alloc; filler; bytes.len()]?;
            overwrite(image, at, &pending)
        }
        Entry::Synced { area: synced } if synced == area => {
            *image = Vec::from_slice(alloc, seen)?;
            Ok(())
        }
        _ => Ok(()),
    }
}

// What a crash with this filler leaves of an area behind these calls.
fn image_of(
    alloc: Global,
    area: u8,
    filler: u8,
    first: &[u8],
    entries: &[Entry],
    written: &[u8],
) -> Result<Vec<u8>, AllocError>
    requires fits { bytes_in entries.now ≤ length written.now }
    ensures image { IfOk result (λ v. v.items ≡ image_after filler area first.now first.now (calls_of entries.now written.now)) }
{
    let mut seen = Vec::from_slice(alloc, first)?;
    let mut image = Vec::from_slice(alloc, first)?;
    let mut rest = written;
    for entry in entries {
        let (bytes, behind) = rest.split_at(entry.len());
        replay_image(alloc, area, filler, entry, bytes, &seen, &mut image)?;
        replay_seen(area, entry, bytes, &mut seen)?;
        rest = behind;
    }
    Ok(image)
}

impl Disk for MemoryDisk {
    ghost retries = { Unit {0} };

    ghost seen = { λ d. Some (reading d) };

    ghost may_leave = { λ d. can_leave d };

    ghost is_dirty = { λ _ _ _ _. Unit {0} };

    ghost moment = { λ d. length d.calls };

    ghost left_since = { λ d. might_have_left d };

    ghost faults = { λ d. d.faults };

    // A call fails exactly where it is to fail, where no record is left, or where its bytes pass what is left of the room.
    ghost gives = { Gives };

    ghost reads_now = { λ d s is. reads_left d s is };

    ghost counts_now = { λ d t c le now. now_counts d t c le now };

    ghost only_now = { λ d c left. now_only d c left };

    fn size(&mut self, area: u8) -> Result<u64, Failed> {
        self.quiet()?;
        Ok(self.area(area).len() as u64)
    }

    fn read(&mut self, area: u8, at: u64, buf: &mut [u8]) -> Result<(), Failed> {
        self.quiet()?;
        let (_, rest) = self.area(area).split_at(at as usize);
        let (front, _) = rest.split_at(buf.len());
        buf.copy_from_slice(front);
        Ok(())
    }

    fn write(&mut self, area: u8, at: u64, bytes: &[u8]) -> Result<(), Failed> {
        self.enter(bytes.len())?;
        self.put(area, at, bytes);
        Ok(())
    }

    // It does nothing.
    fn renew_gate(&mut self) -> Result<(), Failed> {
        self.quiet()
    }

    fn sync(&mut self, area: u8) -> Result<(), Failed> {
        self.enter(0)?;
        self.note(Entry::Synced { area });
        Ok(())
    }
}
