//! The file that is to be stored.

ghost use Rattle.std.specs.Prelude.{◌≡◌, IfOk, OnOk};
ghost use Rattle.rls_stages.specs.KeptFile.{IsReadBack, bytes_over, saved};
ghost use Rattle.rls_file.specs.Stored.{AreWritable};
ghost use Rattle.rls_stages.specs.Errors.{Gives, of_work};

use crate::errors::WorkError;
use rls_file::{SaveError, encode_file};
use rls_replica::Replica;
use rls_report::CommandError;
use std::alloc::Global;

/// The file of a replica, in the newest form. It is too large with more than 268,435,456 bytes. The file of a replica that may be
/// written is read back with the replica's parts.
///
/// The cost is linear in the file's length.
pub fn file_of(alloc: Global, replica: &Replica) -> Result<Vec<u8>, WorkError>
    ensures saved { Gives of_work (λ _. replica.now) result (saved replica.now) }
    ensures bytes { IfOk result (λ bytes. bytes.items ≡ bytes_over replica.now) }
    ensures read_back { OnOk result (AreWritable replica.now → IsReadBack replica.now) }
{
    match encode_file(alloc, replica) {
        Ok(bytes) => Ok(bytes),
        Err(SaveError::TooLarge { .. }) => Err(WorkError::Command {
            error: CommandError::TooLarge,
        }),
        Err(SaveError::OutOfMemory) => Err(WorkError::OutOfMemory),
    }
}
