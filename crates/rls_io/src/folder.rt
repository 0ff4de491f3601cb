//! A file of a folder, in the calls of the system that keep it.
//! Why: CHOICES.md, 33, 64.

ghost use Rattle.std.specs.Prelude.{◌≡◌, is_ok, IfOk, None};
ghost use Rattle.rls_io.specs.Calls.{Runs};
ghost use Rattle.rls_io.specs.Device.{IsWithin};
ghost use Rattle.rls_io.specs.Folder.{LoadGives, LoadsBy, StoreGives, calls_of, fresh_steps, keeper_faults, store_steps};

use crate::calls::FileCalls;
use crate::devices::{Found, Keeper, LoadError, StoreError};
use std::alloc::Global;
use std::io;
use std::io::ErrorKind;

/// The file `replica.rls` of a folder. It is stored by writing `replica.rls.new`, syncing it, renaming it, and syncing the folder,
/// and the folder is synced before it is loaded: in these calls of the system it says what a `load` and a `store` make of it. So,
/// on a file system that renames as a whole, a stop leaves the file from before or the new one; after an Ok of `store` it leaves
/// the new one. After `Failed` of `store` the file may be either, and `replica.rls.new` may stay; the next `store` writes over it.
#[derive(Drop)]
pub struct FileKeeper<C> {
    calls: C,
    faults: u64,
}

impl<C: FileCalls> FileKeeper<C> {
    /// A keeper that makes these calls of the system, with no fault. It makes none yet.
    pub fn new(calls: C) -> FileKeeper<C>
        ensures calls { calls_of result ≡ calls }
        ensures faults { keeper_faults result ≡ 0 }
    {
        FileKeeper { calls, faults: 0 }
    }
}

// Reads the file, of which at most `limit` bytes are wanted. The folder is synced before, since the file that is read may
// have got its name right before a stop.
fn read_kept<C: FileCalls>(calls: &mut C, alloc: Global, limit: u64) -> io::Result<Found>
    ensures within { IfOk result (IsWithin limit) }
    ensures calls { LoadsBy C.gives result calls.old calls.new }
{
    calls.sync_folder()?;
    let Some(file) = calls.open()? else {
        return Ok(Found::Missing);
    };
    let bytes = calls.read(alloc, file, limit.saturating_add(1))?;
    if bytes.len() as u64 > limit {
        return Ok(Found::Longer);
    }
    Ok(Found::Bytes(bytes))
}

// Writes the bytes beside the file, and has the system write them to the disk.
fn write_fresh<C: FileCalls>(calls: &mut C, bytes: &[u8]) -> io::Result<()>
    ensures calls { Runs C.gives (fresh_steps bytes.now) (is_ok result) calls.old calls.new }
{
    let mut file = calls.make()?;
    calls.write(&mut file, bytes)?;
    calls.sync(&mut file)
}

// Writes the bytes beside the file, and puts them in its place.
fn replace_kept<C: FileCalls>(calls: &mut C, bytes: &[u8]) -> io::Result<()>
    ensures calls { Runs C.gives (store_steps bytes.now) (is_ok result) calls.old calls.new }
{
    write_fresh(calls, bytes)?;
    calls.rename()?;
    calls.sync_folder()
}

impl<C: FileCalls> Keeper for FileKeeper<C> {
    ghost file = { λ _. None };

    ghost faults = { keeper_faults };

    ghost load_gives = { LoadGives C.gives };

    ghost store_gives = { StoreGives C.gives };

    fn load(&mut self, alloc: Global, limit: u64) -> Result<Found, LoadError> {
        match read_kept(&mut self.calls, alloc, limit) {
            Ok(found) => Ok(found),
            Err(e) if e.kind() == ErrorKind::OutOfMemory => Err(LoadError::OutOfMemory),
            Err(_) => {
                self.faults = self.faults.saturating_add(1);
                Err(LoadError::Failed)
            }
        }
    }

    fn store(&mut self, _alloc: Global, bytes: &[u8]) -> Result<(), StoreError> {
        match replace_kept(&mut self.calls, bytes) {
            Ok(()) => Ok(()),
            Err(_) => {
                self.faults = self.faults.saturating_add(1);
                Err(StoreError::Failed)
            }
        }
    }
}
