//! The three areas as files of a folder, in the calls of the system that read, write and sync them.
//! Why: docs/DECISIONS.md, 155; CHOICES.md, 38, 156.

ghost use Rattle.std.specs.Prelude.{◌≡◌, ◌<◌, length, None, is_ok};
ghost use Rattle.rls_io.specs.Calls.{done, gave, told};
ghost use Rattle.rls_journal.specs.Calls.{Read, Renew, Size, Sync, Write};
ghost use Rattle.rls_journal.specs.Disk.{CountsFaults};
ghost use Rattle.rls_journal.specs.Files.{AnswersBy, Did, FileGives, IsFresh, IsSame, MakesFile, OpensBy, SyncsFile, SyncsFolder, all_steps, disk_faults, files_of, found_at, is_read_only, opening_steps, with_made};

use crate::calls::{AreaCalls, Opening};
use crate::disk::{Disk, GATE};
use rls_io::Failed;
use std::io;
use std::io::ErrorKind;

/// What is found of a file that is to be opened.
#[derive(Clone, Copy)]
struct Presence {
    is_there: bool,
    is_read_only: bool,
}

/// What is found of the three files.
#[derive(Clone, Copy)]
struct Presences {
    slot0: Presence,
    slot1: Presence,
    gate: Presence,
}

const MADE: Presence = Presence {
    is_there: true,
    is_read_only: false,
};

impl Presences {
    fn of(&self, area: u8) -> Presence
        requires area { area < 3 }
        ensures found { result ≡ found_at self.now area }
    {
        match area {
            0 => self.slot0,
            1 => self.slot1,
            _ => self.gate,
        }
    }

    fn is_read_only(&self) -> bool
        ensures any { result ≡ is_read_only self.now }
    {
        self.slot0.is_read_only || self.slot1.is_read_only || self.gate.is_read_only
    }

    fn with_made(self, area: u8) -> Presences
        requires area { area < 3 }
        ensures made { result ≡ with_made self area }
    {
        match area {
            0 => Presences {
                slot0: MADE,
                ..self
            },
            1 => Presences {
                slot1: MADE,
                ..self
            },
            _ => Presences { gate: MADE, ..self },
        }
    }
}

// Opens a file, where there is one. A file that may not be written is opened to be read.
fn find<C: AreaCalls>(calls: &mut C, area: u8) -> io::Result<Presence>
    ensures calls { AnswersBy C.gives (opening_steps area) result calls.old calls.new }
{
    match calls.open(area)? {
        Opening::Opened => Ok(MADE),
        Opening::Missing => Ok(Presence {
            is_there: false,
            is_read_only: false,
        }),
        Opening::Forbidden => Ok(Presence {
            is_there: calls.open_to_read(area)?,
            is_read_only: true,
        }),
    }
}

// Opens the files that are there.
fn find_all<C: AreaCalls>(calls: &mut C) -> io::Result<Presences>
    ensures calls { AnswersBy C.gives all_steps result calls.old calls.new }
{
    let slot0 = find(calls, 0)?;
    let slot1 = find(calls, 1)?;
    let gate = find(calls, 2)?;
    Ok(Presences { slot0, slot1, gate })
}

/// The files that are there.
#[derive(Drop)]
struct AreaFiles<C> {
    calls: C,
    // what was found when they were opened, and those that were made since
    found: Option<Presences>,
    // no file was made since this process has synced the folder
    is_folder_synced: bool,
}

impl<C: AreaCalls> AreaFiles<C> {
    // Opens the files that are there, at the first call.
    fn open(&mut self) -> io::Result<Presences>
        ensures opens { OpensBy C.gives result self.old self.new }
    {
        if let Some(found) = self.found {
            return Ok(found);
        }
        let found = find_all(&mut self.calls)?;
        self.found = Some(found);
        Ok(found)
    }

    // A file that is missing has no bytes. The gate has no more than one.
    fn size(&mut self, area: u8) -> io::Result<u64>
        requires area { area < 3 }
        ensures did { Did C.gives (Size area) (told result) self.old self.new }
    {
        let found = self.open()?;
        if !found.of(area).is_there {
            return Ok(0);
        }
        let len = self.calls.size(area)?;
        Ok(if area == GATE { len.min(1) } else { len })
    }

    fn read(&mut self, area: u8, at: u64, buf: &mut [u8]) -> io::Result<()>
        requires area { area < 3 }
        ensures did { Did C.gives (Read area at (length buf.old)) (gave result buf.new) self.old self.new }
    {
        let found = self.open()?;
        if found.of(area).is_there {
            return self.calls.read(area, at, buf);
        }
        if buf.is_empty() {
            return Ok(());
        }
        Err(io::Error::from(ErrorKind::UnexpectedEof))
    }

    // Makes a file that is missing.
    fn make(&mut self, found: Presences, area: u8) -> io::Result<()>
        requires area { area < 3 }
        ensures made { MakesFile C.gives found area (is_ok result) self.old self.new }
    {
        if found.of(area).is_there {
            return Ok(());
        }
        self.is_folder_synced = false;
        self.calls.make(area)?;
        self.found = Some(found.with_made(area));
        Ok(())
    }

    // Writes some bytes, and makes a file that is missing. Where one may only be read, none is written: the gate wasn't renewed then.
    fn write(&mut self, area: u8, at: u64, bytes: &[u8]) -> io::Result<()>
        requires area { area < 3 }
        ensures did { Did C.gives (Write area at bytes.now) (done result) self.old self.new }
    {
        let found = self.open()?;
        if bytes.is_empty() {
            return Ok(());
        }
        if found.is_read_only() {
            return Err(io::Error::from(ErrorKind::PermissionDenied));
        }
        self.make(found, area)?;
        self.calls.write(area, at, bytes)
    }

    // Has the system take the gate's first byte for changed, by a second byte beside it: the first isn't written, since another
    // process may just have named the other slot.
    fn renew_gate(&mut self) -> io::Result<()>
        ensures did { Did C.gives Renew (done result) self.old self.new }
    {
        let found = self.open()?;
        if found.is_read_only() {
            return Ok(());
        }
        self.make(found, GATE)?;
        self.calls.write(GATE, 1, &[0])
    }

    // Has the system write a file to the disk, where it is there.
    fn sync_file(&mut self, found: Presences, area: u8) -> io::Result<()>
        requires area { area < 3 }
        ensures syncs { SyncsFile C.gives (found_at found area).is_there (is_ok result) area self.old self.new }
    {
        if found.of(area).is_there {
            self.calls.sync(area)?;
        }
        Ok(())
    }

    // Has the system write the names of the files to the disk, unless this process has done so since the last was made: the
    // process that made one may have been stopped right after.
    fn sync_folder(&mut self) -> io::Result<()>
        ensures syncs { SyncsFolder C.gives (is_ok result) self.old self.new }
    {
        if !self.is_folder_synced {
            self.calls.sync_folder()?;
            self.is_folder_synced = true;
        }
        Ok(())
    }

    // Has the system write a file to the disk, and the names of the files too.
    fn sync(&mut self, area: u8) -> io::Result<()>
        requires area { area < 3 }
        ensures did { Did C.gives (Sync area) (done result) self.old self.new }
    {
        let found = self.open()?;
        self.sync_file(found, area)?;
        self.sync_folder()
    }
}

/// The files `replica.0` and `replica.1` of a folder as the areas 0 and 1, and the first byte of `replica.gate` as the area 2. They
/// are opened at the first call. A file that is missing reads as empty, and is made by the first write of some bytes, so that what
/// only reads leaves an empty folder empty. A sync reaches the disk as far as the system's `fsync` does, of the file, and of the
/// folder where a file was made. The gate is renewed by a second byte, which the system writes with the first; where one of the
/// files may only be read, it isn't renewed, and no file is written. Each failure of the system is counted, up to the greatest u64.
///
/// It says of each of its calls which calls of the system it makes, in which order, with which bytes and places, and that it
/// answers what these answered. It tells no content: no clause of std says what a file holds.
#[derive(Drop)]
pub struct FileDisk<C> {
    files: AreaFiles<C>,
    faults: u64,
}

// Counts a failure.
fn count<T>(faults: &mut u64, answer: io::Result<T>) -> Result<T, Failed>
    ensures counted { CountsFaults result faults.old faults.new }
    ensures same { IsSame answer result }
{
    match answer {
        Ok(value) => Ok(value),
        Err(_) => {
            *faults = faults.saturating_add(1);
            Err(Failed)
        }
    }
}

impl<C: AreaCalls> FileDisk<C> {
    /// A disk of the files that these calls reach, with no fault. It opens nothing yet.
    pub fn new(calls: C) -> FileDisk<C>
        ensures faults { disk_faults result ≡ 0 }
        ensures fresh { IsFresh calls (files_of result) }
    {
        FileDisk {
            files: AreaFiles {
                calls,
                found: None,
                is_folder_synced: false,
            },
            faults: 0,
        }
    }
}

impl<C: AreaCalls> Disk for FileDisk<C> {
    ghost retries = { ⊥ };

    ghost seen = { λ _. None };

    ghost may_leave = { λ _ _. Unit {0} };

    ghost is_dirty = { λ _ _ _ _. Unit {0} };

    ghost moment = { λ _. 0 };

    ghost left_since = { λ _ _ _. Unit {0} };

    ghost faults = { disk_faults };

    ghost answers = { FileGives C.gives };

    ghost reads_now = { λ d s is. tt };

    ghost counts_now = { λ d t c le now. tt };

    ghost only_now = { λ d c left. tt };

    fn size(&mut self, area: u8) -> Result<u64, Failed> {
        let answer = self.files.size(area);
        count(&mut self.faults, answer)
    }

    fn read(&mut self, area: u8, at: u64, buf: &mut [u8]) -> Result<(), Failed> {
        let answer = self.files.read(area, at, buf);
        count(&mut self.faults, answer)
    }

    fn write(&mut self, area: u8, at: u64, bytes: &[u8]) -> Result<(), Failed> {
        let answer = self.files.write(area, at, bytes);
        count(&mut self.faults, answer)
    }

    fn renew_gate(&mut self) -> Result<(), Failed> {
        let answer = self.files.renew_gate();
        count(&mut self.faults, answer)
    }

    fn sync(&mut self, area: u8) -> Result<(), Failed> {
        let answer = self.files.sync(area);
        count(&mut self.faults, answer)
    }
}
