//! The calls of the system that a disk of three files makes: the trusted edge.

ghost use Rattle.std.specs.Prelude.{◌<◌, ⊤, length};
ghost use Rattle.rls_io.specs.Calls.{Answer, done, gave, told};
ghost use Rattle.rls_journal.specs.Files.{FileCall, OpenToWrite, OpenToRead, MakeFile, FileSize, ReadFile, WriteFile, SyncFile, SyncFolder, opening_answer, presence};

use std::fs::{File, OpenFile};
use std::io;
use std::io::{ErrorKind, Read, Seek, SeekFrom, Write};
use std::rt::Files;

/// What comes of opening a file to write it.
#[derive(Clone, Copy)]
pub enum Opening {
    /// It is open.
    Opened,
    /// It isn't there.
    Missing,
    /// It may not be written.
    Forbidden,
}

/// What `FileDisk` asks of the system: each method is one call, on the file of an area, or on the folder of the files. The areas 0 and 1 are the
/// slots, and 2 is the gate. A file that was opened or made stays open, and the calls that read, write and sync are for such a file.
///
/// It may say what a call makes of it. A caller's contract that says the same for all of them tells which calls the caller makes, in which
/// order, with which bytes, and in which places.
pub trait AreaCalls {
    /// What a call with this answer makes of it.
    ghost gives: { Self → FileCall → Answer → Self → Type 0 } = { λ _ _ _ _. ⊤ };

    /// Opens a file to read and to write it.
    fn open(&mut self, area: u8) -> io::Result<Opening>
        ensures gives { gives self.old (OpenToWrite area) (opening_answer result) self.new };

    /// Opens a file to read it, and answers whether it is there.
    fn open_to_read(&mut self, area: u8) -> io::Result<bool>
        ensures gives { gives self.old (OpenToRead area) (presence result) self.new };

    /// Makes a file, and opens it.
    fn make(&mut self, area: u8) -> io::Result<()>
        ensures gives { gives self.old (MakeFile area) (done result) self.new };

    /// The count of bytes in a file.
    fn size(&mut self, area: u8) -> io::Result<u64>
        ensures gives { gives self.old (FileSize area) (told result) self.new };

    /// Fills `buf` with the bytes of a file from a place on.
    fn read(&mut self, area: u8, at: u64, buf: &mut [u8]) -> io::Result<()>
        ensures gives { gives self.old (ReadFile area at (length buf.old)) (gave result buf.new) self.new };

    /// Writes all of the bytes to a file, from a place on.
    fn write(&mut self, area: u8, at: u64, bytes: &[u8]) -> io::Result<()>
        ensures gives { gives self.old (WriteFile area at bytes.now) (done result) self.new };

    /// Has a file written to the disk.
    fn sync(&mut self, area: u8) -> io::Result<()>
        ensures gives { gives self.old (SyncFile area) (done result) self.new };

    /// Has the names of the folder written to the disk.
    fn sync_folder(&mut self) -> io::Result<()>
        ensures gives { gives self.old SyncFolder (done result) self.new };
}

fn name_of(area: u8) -> &'static str {
    match area {
        0 => "replica.0",
        1 => "replica.1",
        _ => "replica.gate",
    }
}

// Whether a file is there, but may not be opened to be written.
fn is_forbidden(error: &io::Error) -> bool {
    matches!(
        error.kind(),
        ErrorKind::PermissionDenied | ErrorKind::ReadOnlyFilesystem
    )
}

/// The files `replica.0`, `replica.1` and `replica.gate` of the current folder. What its calls do is trusted: each is the call of std that it
/// names, and a read or a write sets the place before.
#[derive(Drop)]
pub struct CurrentFiles<R: Files> {
    rt: R,
    slot0: Option<R::File>,
    slot1: Option<R::File>,
    gate: Option<R::File>,
}

impl<R: Files> CurrentFiles<R> {
    /// The files of the current folder. It opens none yet.
    pub fn new(rt: R) -> CurrentFiles<R> {
        CurrentFiles {
            rt,
            slot0: None,
            slot1: None,
            gate: None,
        }
    }

    fn slot(&mut self, area: u8) -> &mut Option<R::File> {
        match area {
            0 => &mut self.slot0,
            1 => &mut self.slot1,
            _ => &mut self.gate,
        }
    }

    // A file that is open.
    fn file(&mut self, area: u8) -> io::Result<&mut R::File> {
        match self.slot(area) {
            Some(file) => Ok(file),
            None => Err(io::Error::from(ErrorKind::NotFound)),
        }
    }
}

impl<R: Files> AreaCalls for CurrentFiles<R> {
    fn open(&mut self, area: u8) -> io::Result<Opening> {
        let file = File::options()
            .read(true)
            .write(true)
            .open(&self.rt, name_of(area));
        match file {
            Ok(file) => {
                *self.slot(area) = Some(file);
                Ok(Opening::Opened)
            }
            Err(e) if is_forbidden(&e) => Ok(Opening::Forbidden),
            Err(e) if e.kind() == ErrorKind::NotFound => Ok(Opening::Missing),
            Err(e) => Err(e),
        }
    }

    fn open_to_read(&mut self, area: u8) -> io::Result<bool> {
        match File::open(&self.rt, name_of(area)) {
            Ok(file) => {
                *self.slot(area) = Some(file);
                Ok(true)
            }
            Err(e) if e.kind() == ErrorKind::NotFound => Ok(false),
            Err(e) => Err(e),
        }
    }

    fn make(&mut self, area: u8) -> io::Result<()> {
        let file = File::options()
            .read(true)
            .write(true)
            .create(true)
            .open(&self.rt, name_of(area))?;
        *self.slot(area) = Some(file);
        Ok(())
    }

    fn size(&mut self, area: u8) -> io::Result<u64> {
        Ok(self.file(area)?.metadata()?.len())
    }

    fn read(&mut self, area: u8, at: u64, buf: &mut [u8]) -> io::Result<()> {
        let file = self.file(area)?;
        file.seek(SeekFrom::Start(at))?;
        file.read_exact(buf)
    }

    fn write(&mut self, area: u8, at: u64, bytes: &[u8]) -> io::Result<()> {
        let file = self.file(area)?;
        file.seek(SeekFrom::Start(at))?;
        file.write_all(bytes)
    }

    fn sync(&mut self, area: u8) -> io::Result<()> {
        self.file(area)?.sync_all()
    }

    fn sync_folder(&mut self) -> io::Result<()> {
        File::open(&self.rt, ".")?.sync_all()
    }
}
