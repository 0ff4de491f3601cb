//! The kept file, loaded and opened.

ghost use Rattle.std.specs.Prelude.{◌≡◌, ◌≢◌, ◌≤◌, Err, IfErr, IfOk, IfSome};
ghost use Rattle.rls_io.specs.Device.{Rose, Keeps, LoadsWith};
ghost use Rattle.rls_io.specs.Memory.{bytes_of};
ghost use Rattle.rls_file.specs.ReadingFiles.{file_of};
ghost use Rattle.rls_seen.specs.Sane.{IsSane};
ghost use Rattle.rls_file.specs.Stored.{AreWritable};
ghost use Rattle.rls_stages.specs.Calls.{FindsUnlessFailed, HasLoaded};
ghost use Rattle.rls_stages.specs.KeptFile.{loaded, replica_of, replica_in};
ghost use Rattle.rls_stages.specs.Errors.{Gives, IsOpenError, of_open};

use crate::errors::OpenError;
use rls_file::{FileError, load_file};
use rls_ident::limits::FILE_BYTES;
use rls_ident::rely;
use rls_io::{Found, Keeper, LoadError};
use rls_replica::Replica;
use rls_report::CommandError;
use std::alloc::Global;

/// The bytes of the kept file, if there is one. It is too large with more than 268,435,456 bytes. The keeper's file stays as it is.
pub fn load<K: Keeper>(alloc: Global, keeper: &mut K) -> Result<Option<Vec<u8>>, OpenError>
    ensures loaded { IfSome (K.file keeper.old) (λ kept. Gives of_open bytes_of result (loaded kept)) }
    ensures keeper { result ≡ Err OpenError.KeeperFault → Rose (K.faults keeper.old) (K.faults keeper.new) }
    ensures uncounted { result ≢ Err OpenError.KeeperFault → K.faults keeper.new ≡ K.faults keeper.old }
    ensures never_falls { K.faults keeper.old ≤ K.faults keeper.new }
    ensures kept { Keeps (K.file keeper.old) (K.file keeper.new) }
    ensures errors { IfErr result IsOpenError }
    ensures calls { HasLoaded (LoadsWith K.load_gives) result keeper.old keeper.new }
    // Also if the keeper doesn't tell its file: these are the bytes of the file that the load found.
    ensures found { FindsUnlessFailed K.load_gives (λ kept. Gives of_open bytes_of result (loaded kept)) result keeper.old keeper.new }
{
    match keeper.load(alloc, FILE_BYTES) {
        Err(LoadError::Failed) => Err(OpenError::KeeperFault),
        Err(LoadError::OutOfMemory) => Err(OpenError::OutOfMemory),
        Ok(Found::Missing) => Ok(None),
        Ok(Found::Longer) => Err(OpenError::Command {
            error: CommandError::TooLarge,
        }),
        Ok(Found::Bytes(bytes)) => Ok(Some(bytes)),
    }
}

/// The replica that the kept file says, which may be written again. There is none without a file, nor if the file is too large or
/// isn't in the grammar. The keeper's file stays as it is.
///
/// The cost is that of reading the file; one of form 1 is read by receiving its operations one after another.
pub fn open<K: Keeper>(alloc: Global, keeper: &mut K) -> Result<Replica, OpenError>
    ensures opened { IfSome (K.file keeper.old) (λ kept. Gives of_open (λ replica. replica) result (replica_in (loaded kept))) }
    ensures sane { IfOk result IsSane }
    ensures writable { IfOk result AreWritable }
    ensures keeper { result ≡ Err OpenError.KeeperFault → Rose (K.faults keeper.old) (K.faults keeper.new) }
    ensures uncounted { result ≢ Err OpenError.KeeperFault → K.faults keeper.new ≡ K.faults keeper.old }
    ensures never_falls { K.faults keeper.old ≤ K.faults keeper.new }
    ensures kept { Keeps (K.file keeper.old) (K.file keeper.new) }
    ensures errors { IfErr result IsOpenError }
    ensures calls { HasLoaded (LoadsWith K.load_gives) result keeper.old keeper.new }
    // Also if the keeper doesn't tell its file: this is the replica of the file that the load found.
    ensures found { FindsUnlessFailed K.load_gives (λ kept. Gives of_open (λ replica. replica) result (replica_in (loaded kept))) result keeper.old keeper.new }
{
    match load(alloc, keeper) {
        Err(error) => Err(error),
        Ok(None) => Err(OpenError::Command {
            error: CommandError::NoReplica,
        }),
        Ok(Some(bytes)) => decoded(alloc, bytes),
    }
}

// The replica that these bytes say. They are given up as soon as they are read.
fn decoded(alloc: Global, bytes: Vec<u8>) -> Result<Replica, OpenError>
    ensures replica { Gives of_open (λ replica. replica) result (replica_of (file_of bytes.items)) }
    ensures sane { IfOk result IsSane }
    ensures writable { IfOk result AreWritable }
    ensures memory { result ≢ Err OpenError.KeeperFault }
    ensures errors { IfErr result IsOpenError }
{
    match load_file(alloc, bytes) {
        Ok(replica) => {
            rely!(replica.sane());
            Ok(replica)
        }
        Err(FileError::Damaged { at }) => Err(OpenError::Command {
            error: CommandError::Damaged { at },
        }),
        Err(FileError::OutOfMemory) => Err(OpenError::OutOfMemory),
    }
}
