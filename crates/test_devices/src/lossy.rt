//! A disk in memory that doesn't retry: what a sync that failed hasn't written, no later one writes, unless it is written again. It tells
//! what it holds, and what a crash leaves of it.

ghost use Rattle.std.specs.Prelude.{◌≡◌, ◌+◌, ◌<◌, ◌≤◌, ◌++◌, ◌∷◌, [], ℕ, true, length, take, drop, Some, IsErr, IfOk, OnOk, OnErr};
ghost use Rattle.rls_journal.specs.Areas.{area_of};
ghost use Rattle.rls_journal.specs.Disk.{CountsFaults};
ghost use Rattle.test_devices.specs.Lossy.{changed, marked, state_of, with_state, wrote, synced, reading, Leaves, HasLeft, IsDirty};
ghost use Rattle.test_devices.specs.LossyLaws.{reads_left, now_counts, now_only};

use rls_io::Failed;
use rls_journal::Disk;
use std::alloc::{AllocError, Global};
use std::marker::Model;

/// An area: what is read of it, what a stop leaves if nothing that is pending has reached the disk, and whether the next sync writes what
/// is read.
#[derive(Drop)]
struct Area {
    read: Vec<u8>,
    left: Vec<u8>,
    is_dirty: bool,
}

impl Model for Area {
    ghost use Rattle.test_devices.specs.Lossy.{AreaState};
    ghost use Rattle.std.specs.Prelude.{length, ◌≤◌};

    ghost Value = { AreaState };

    ghost view = { λ a. record { read = a.read.items; left = a.left.items; dirty = a.is_dirty } };

    ghost invariant = { λ a. length a.left.items ≤ length a.read.items };
}

/// The areas of a disk.
#[derive(Drop)]
struct Areas {
    slot0: Area,
    slot1: Area,
    gate: Area,
}

impl Model for Areas {
    ghost use Rattle.test_devices.specs.Lossy.{AreaStates};

    ghost Value = { AreaStates };

    ghost view = { λ a. record { slot0 = a.slot0; slot1 = a.slot1; gate = a.gate } };
}

/// The areas of a disk now and before each call that changed something, and which of its calls fail, which are counted from 0: one of
/// them, and all from another one on, which do nothing, since there the machine stopped.
#[derive(Drop)]
struct Moments {
    alloc: Global,
    areas: Areas,
    past: Vec<Areas>,
    calls: u64,
    failing: u64,
    stop: u64,
}

impl Model for Moments {
    ghost use Rattle.test_devices.specs.Lossy.{Moments as MomentsSeen};

    ghost Value = { MomentsSeen };

    ghost view = { λ m. record { areas = m.areas; past = m.past.items } };
}

/// A disk in memory that doesn't retry.
#[derive(Drop)]
pub struct LossyDisk {
    moments: Moments,
    faults: u64,
}

// Bytes with others at a place.
fn splice(alloc: Global, old: &[u8], at: usize, bytes: &[u8]) -> Result<Vec<u8>, AllocError>
    requires within { at ≤ length old.now }
    ensures items { IfOk result (λ v. v.items ≡ take at old.now ++ bytes.now ++ drop (at + length bytes.now) old.now) }
{
    let (front, rest) = old.split_at(at);
    let (_, behind) = rest.split_at(bytes.len().min(rest.len()));
    let mut new = Vec::from_slice(alloc, front)?;
    new.extend_from_slice(bytes)?;
    new.extend_from_slice(behind)?;
    Ok(new)
}

impl Area {
    fn new(alloc: Global, bytes: &[u8]) -> Result<Area, AllocError> {
        Ok(Area {
            read: Vec::from_slice(alloc, bytes)?,
            left: Vec::from_slice(alloc, bytes)?,
            is_dirty: false,
        })
    }

    fn copy(&self, alloc: Global) -> Result<Area, AllocError>
        ensures same { IfOk result (λ a. a ≡ self.now) }
    {
        Ok(Area {
            read: Vec::from_slice(alloc, &self.read)?,
            left: Vec::from_slice(alloc, &self.left)?,
            is_dirty: self.is_dirty,
        })
    }

    fn bytes(&self) -> &[u8]
        ensures bytes { result.now ≡ self.now.read }
    {
        &self.read
    }

    fn write(&mut self, alloc: Global, at: usize, bytes: &[u8]) -> Result<(), AllocError>
        requires within { at ≤ length self.old.read }
        ensures wrote { OnOk result (self.new ≡ wrote self.old at bytes.now) }
        ensures same { OnErr result (self.new ≡ self.old) }
    {
        self.read = splice(alloc, &self.read, at, bytes)?;
        self.is_dirty = true;
        Ok(())
    }

    fn sync(&mut self, alloc: Global) -> Result<(), AllocError>
        ensures synced { OnOk result (self.new ≡ synced self.old) }
        ensures no_longer { OnOk result (length self.new.left ≤ length self.new.read) }
        ensures same { OnErr result (self.new ≡ self.old) }
    {
        if self.is_dirty {
            self.left = Vec::from_slice(alloc, &self.read)?;
        }
        self.is_dirty = false;
        Ok(())
    }

    // What is dirty is taken for written, or is to be written again.
    fn mark(&mut self, is_dirty: bool)
        ensures marked { self.new ≡ record { read = self.old.read; left = self.old.left; dirty = is_dirty } }
    {
        self.is_dirty = is_dirty;
    }
}

impl Areas {
    fn new(alloc: Global, contents: [&[u8]; 3]) -> Result<Areas, AllocError> {
        let [slot0, slot1, gate] = contents;
        Ok(Areas {
            slot0: Area::new(alloc, slot0)?,
            slot1: Area::new(alloc, slot1)?,
            gate: Area::new(alloc, gate)?,
        })
    }

    fn copy(&self, alloc: Global) -> Result<Areas, AllocError>
        ensures same { IfOk result (λ a. a ≡ self.now) }
    {
        Ok(Areas {
            slot0: self.slot0.copy(alloc)?,
            slot1: self.slot1.copy(alloc)?,
            gate: self.gate.copy(alloc)?,
        })
    }

    fn bytes(&self, area: u8) -> &[u8]
        requires area { area < 3 }
        ensures bytes { result.now ≡ area_of (reading self.now) area }
    {
        match area {
            0 => self.slot0.bytes(),
            1 => self.slot1.bytes(),
            _ => self.gate.bytes(),
        }
    }

    fn write(&mut self, alloc: Global, area: u8, at: usize, bytes: &[u8]) -> Result<(), AllocError>
        requires area { area < 3 }
        requires within { at ≤ length (area_of (reading self.old) area) }
        ensures wrote { OnOk result (self.new ≡ with_state self.old area (wrote (state_of self.old area) at bytes.now)) }
        ensures same { OnErr result (self.new ≡ self.old) }
    {
        match area {
            0 => self.slot0.write(alloc, at, bytes),
            1 => self.slot1.write(alloc, at, bytes),
            _ => self.gate.write(alloc, at, bytes),
        }
    }

    fn sync(&mut self, alloc: Global, area: u8) -> Result<(), AllocError>
        requires area { area < 3 }
        ensures synced { OnOk result (self.new ≡ with_state self.old area (synced (state_of self.old area))) }
        ensures no_longer { OnOk result (length (state_of self.new area).left ≤ length (state_of self.new area).read) }
        ensures same { OnErr result (self.new ≡ self.old) }
    {
        match area {
            0 => self.slot0.sync(alloc),
            1 => self.slot1.sync(alloc),
            _ => self.gate.sync(alloc),
        }
    }

    fn mark(&mut self, area: u8, is_dirty: bool)
        requires area { area < 3 }
        ensures marked { self.new ≡ with_state self.old area (record { read = (state_of self.old area).read; left = (state_of self.old area).left; dirty = is_dirty }) }
    {
        match area {
            0 => self.slot0.mark(is_dirty),
            1 => self.slot1.mark(is_dirty),
            _ => self.gate.mark(is_dirty),
        }
    }
}

impl Moments {
    fn new(
        alloc: Global,
        contents: [&[u8]; 3],
        failing: u64,
        stop: u64,
    ) -> Result<Moments, AllocError> {
        Ok(Moments {
            alloc,
            areas: Areas::new(alloc, contents)?,
            past: Vec::new(alloc),
            calls: 0,
            failing,
            stop,
        })
    }

    // Counts a call. Nothing where it fails; `false` where it does what a call does that fails.
    fn enter(&mut self) -> Option<bool>
        ensures same { self.new ≡ self.old }
    {
        let number = self.calls;
        self.calls = number.saturating_add(1);
        if number < self.stop {
            Some(number != self.failing)
        } else {
            None
        }
    }

    // Counts a call, and tells whether it is done.
    fn works(&mut self) -> bool
        ensures same { self.new ≡ self.old }
    {
        matches!(self.enter(), Some(true))
    }

    fn bytes(&self, area: u8) -> &[u8]
        requires area { area < 3 }
        ensures bytes { result.now ≡ area_of (reading self.now.areas) area }
    {
        self.areas.bytes(area)
    }

    fn write(&mut self, area: u8, at: u64, bytes: &[u8]) -> Result<(), AllocError>
        requires area { area < 3 }
        requires within { at ≤ length (area_of (reading self.old.areas) area) }
        ensures wrote { OnOk result (self.new ≡ changed self.old area (wrote (state_of self.old.areas area) at bytes.now)) }
        ensures same { OnErr result (self.new ≡ self.old) }
    {
        let before = self.areas.copy(self.alloc)?;
        self.past.reserve(1)?;
        self.areas.write(self.alloc, area, at as usize, bytes)?;
        self.past.push(before).unwrap();
        Ok(())
    }

    fn sync(&mut self, area: u8) -> Result<(), AllocError>
        requires area { area < 3 }
        ensures synced { OnOk result (self.new ≡ changed self.old area (synced (state_of self.old.areas area))) }
        ensures no_longer { OnOk result (length (state_of self.new.areas area).left ≤ length (state_of self.new.areas area).read) }
        ensures same { OnErr result (self.new ≡ self.old) }
    {
        let before = self.areas.copy(self.alloc)?;
        self.past.reserve(1)?;
        self.areas.sync(self.alloc, area)?;
        self.past.push(before).unwrap();
        Ok(())
    }

    fn mark(&mut self, area: u8, is_dirty: bool)
        requires area { area < 3 }
        ensures marked { self.new ≡ marked self.old area (record { read = (state_of self.old.areas area).read; left = (state_of self.old.areas area).left; dirty = is_dirty }) }
    {
        self.areas.mark(area, is_dirty);
    }
}

// Counts a failure.
fn fail<T>(faults: &mut u64) -> Result<T, Failed>
    ensures failed { IsErr result }
    ensures counted { CountsFaults result faults.old faults.new }
{
    *faults = faults.saturating_add(1);
    Err(Failed)
}

impl LossyDisk {
    /// A disk without a file.
    pub fn new(alloc: Global, failing: u64, stop: u64) -> Result<LossyDisk, AllocError> {
        Ok(LossyDisk {
            moments: Moments::new(alloc, [&[], &[], &[]], failing, stop)?,
            faults: 0,
        })
    }

    /// What the stop left, as a disk of which no call fails.
    pub fn left(&self) -> Result<LossyDisk, AllocError> {
        let areas = &self.moments.areas;
        let contents = [
            areas.slot0.left.as_slice(),
            areas.slot1.left.as_slice(),
            areas.gate.left.as_slice(),
        ];
        Ok(LossyDisk {
            moments: Moments::new(self.moments.alloc, contents, u64::MAX, u64::MAX)?,
            faults: 0,
        })
    }
}

impl Disk for LossyDisk {
    ghost retries = { ⊥ };

    ghost seen = { λ d. Some (reading d.moments.areas) };

    ghost may_leave = { λ d. Leaves d.moments.areas };

    ghost is_dirty = { λ d area _ _. IsDirty d.moments area };

    ghost moment = { λ d. length d.moments.past };

    ghost left_since = { λ d. HasLeft d.moments };

    ghost faults = { λ d. d.faults };

    ghost reads_now = { λ d s is. reads_left d.moments s is };

    ghost counts_now = { λ d t c le now. now_counts d.moments t c le now };

    ghost only_now = { λ d c left. now_only d.moments c left };

    fn size(&mut self, area: u8) -> Result<u64, Failed> {
        if !self.moments.works() {
            return fail(&mut self.faults);
        }
        Ok(self.moments.bytes(area).len() as u64)
    }

    fn read(&mut self, area: u8, at: u64, buf: &mut [u8]) -> Result<(), Failed> {
        if !self.moments.works() {
            return fail(&mut self.faults);
        }
        let (_, rest) = self.moments.bytes(area).split_at(at as usize);
        let (bytes, _) = rest.split_at(buf.len());
        buf.copy_from_slice(bytes);
        Ok(())
    }

    fn write(&mut self, area: u8, at: u64, bytes: &[u8]) -> Result<(), Failed> {
        if !self.moments.works() {
            return fail(&mut self.faults);
        }
        match self.moments.write(area, at, bytes) {
            Ok(()) => Ok(()),
            Err(_) => fail(&mut self.faults),
        }
    }

    fn renew_gate(&mut self) -> Result<(), Failed> {
        if !self.moments.works() {
            return fail(&mut self.faults);
        }
        self.moments.mark(2, true);
        Ok(())
    }

    // A sync that fails has what is dirty taken for written.
    fn sync(&mut self, area: u8) -> Result<(), Failed> {
        match self.moments.enter() {
            None => fail(&mut self.faults),
            Some(false) => {
                self.moments.mark(area, false);
                fail(&mut self.faults)
            }
            Some(true) => match self.moments.sync(area) {
                Ok(()) => Ok(()),
                Err(_) => fail(&mut self.faults),
            },
        }
    }
}
