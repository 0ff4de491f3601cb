//! The calls of the system that the keeper of a file makes: the trusted edge.

ghost use Rattle.std.specs.Prelude.{◌≡◌, ⊤, take, IfOk, IfSome};
ghost use Rattle.rls_io.specs.Calls.{Answer, done, opened};
ghost use Rattle.rls_io.specs.Folder.{FileCall, SyncFolder, OpenFile, ReadFile, MakeFresh, WriteFresh, SyncFresh, Rename, read_answer};

use std::alloc::Global;
use std::fs::{File, OpenFile};
use std::io::{ErrorKind, Read, Write};
use std::rt::Files;
use std::{fs, io};

const KEPT: &str = "replica.rls";

const FRESH: &str = "replica.rls.new";

const FOLDER: &str = ".";

/// What `FileKeeper` asks of the system: each method is one call, on the file `replica.rls` of a folder, on a fresh file `replica.rls.new`
/// beside it, or on the folder.
///
/// It may say what a call makes of it. A caller's contract that says the same for all of them tells which calls the caller makes, in which
/// order, and with which bytes.
pub trait FileCalls {
    /// A file that is open. It is closed when it is dropped.
    type File: Drop;

    /// What a call with this answer makes of it.
    ghost gives: { Self → FileCall → Answer → Self → Type 0 } = { λ _ _ _ _. ⊤ };

    /// Has the names of the folder written to the disk.
    fn sync_folder(&mut self) -> io::Result<()>
        ensures gives { gives self.old SyncFolder (done result) self.new };

    /// Opens `replica.rls` to be read, where it is there.
    fn open(&mut self) -> io::Result<Option<Self::File>>
        ensures gives { gives self.old OpenFile (opened result) self.new };

    /// The next bytes of a file, at most so many, and fewer only where it has no more.
    fn read(&mut self, alloc: Global, file: Self::File, most: u64) -> io::Result<Vec<u8>>
        ensures gives { gives self.old (ReadFile most) (read_answer result) self.new };

    /// Makes `replica.rls.new`, or empties it.
    fn make(&mut self) -> io::Result<Self::File>
        ensures gives { gives self.old MakeFresh (done result) self.new };

    /// Writes all of the bytes to the fresh file.
    fn write(&mut self, file: &mut Self::File, bytes: &[u8]) -> io::Result<()>
        ensures gives { gives self.old (WriteFresh bytes.now) (done result) self.new };

    /// Has the fresh file written to the disk.
    fn sync(&mut self, file: &mut Self::File) -> io::Result<()>
        ensures gives { gives self.old SyncFresh (done result) self.new };

    /// Puts the fresh file in the place of `replica.rls`.
    fn rename(&mut self) -> io::Result<()>
        ensures gives { gives self.old Rename (done result) self.new };
}

/// The current folder of the system. What its calls do is trusted: each is the call of std that it names.
#[derive(Drop)]
pub struct CurrentFolder<R> {
    rt: R,
}

impl<R: Files> CurrentFolder<R> {
    /// The current folder. It opens nothing yet.
    pub fn new(rt: R) -> CurrentFolder<R> {
        CurrentFolder { rt }
    }
}

// The next bytes of a reader, at most so many.
fn read_up_to<F: Read + Drop>(alloc: Global, file: F, most: u64) -> io::Result<Vec<u8>>
    ensures read { IfOk result (λ bytes. IfSome (F.remaining file) (λ left. bytes.items ≡ take most left)) }
{
    let mut bytes = Vec::new(alloc);
    file.take(most).read_to_end(&mut bytes)?;
    Ok(bytes)
}

impl<R: Files> FileCalls for CurrentFolder<R> {
    type File = R::File;

    fn sync_folder(&mut self) -> io::Result<()> {
        File::open(&self.rt, FOLDER)?.sync_all()
    }

    fn open(&mut self) -> io::Result<Option<R::File>> {
        match File::open(&self.rt, KEPT) {
            Ok(file) => Ok(Some(file)),
            Err(e) if e.kind() == ErrorKind::NotFound => Ok(None),
            Err(e) => Err(e),
        }
    }

    fn read(&mut self, alloc: Global, file: R::File, most: u64) -> io::Result<Vec<u8>> {
        read_up_to(alloc, file, most)
    }

    fn make(&mut self) -> io::Result<R::File> {
        File::create(&self.rt, FRESH)
    }

    fn write(&mut self, file: &mut R::File, bytes: &[u8]) -> io::Result<()> {
        file.write_all(bytes)
    }

    fn sync(&mut self, file: &mut R::File) -> io::Result<()> {
        file.sync_all()
    }

    fn rename(&mut self) -> io::Result<()> {
        fs::rename(&self.rt, FRESH, KEPT)
    }
}
