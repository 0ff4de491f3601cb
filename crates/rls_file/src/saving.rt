//! Storing a replica.
//! Why: docs/DECISIONS.md, 43.

ghost use Rattle.std.specs.Prelude.{◌≡◌, ◌<◌, ◌≤◌, ◌-◌, ◌^◌, ℕ, length, min, IfOk, Err};
ghost use Rattle.rls_ident.specs.declared.limits.TheConstants.{FILE_BYTES};
ghost use Rattle.rls_model.specs.Parts.{parts};
ghost use Rattle.rls_model.specs.Receiving.{State};
ghost use Rattle.rls_seen.specs.Kept.{parts_over};
ghost use Rattle.rls_seen.specs.Stands.{StandsFor};
ghost use Rattle.rls_fields.specs.Fields.{file_bytes};
ghost use Rattle.rls_file.specs.Files.{Snapshot, newest_form};
ghost use Rattle.rls_file.specs.FileLaws.{IsFile};
ghost use Rattle.rls_file.specs.Stored.{AreWritable};

use crate::lengths::stored_len;
use crate::puts::put_file;
use rls_ident::limits::FILE_BYTES;
use rls_ident::rely;
use rls_parts::Places;
use rls_replica::Replica;
use std::alloc::{AllocError, Global};

/// Why a replica isn't written as a file.
#[derive(Clone, Copy, Debug, PartialEq, Eq)]
pub enum SaveError {
    /// It would have more bytes than a file may have; so many, or the greatest u64 where there would be more.
    TooLarge { bytes: u64 },
    OutOfMemory,
}

impl From<AllocError> for SaveError {
    ghost use Rattle.std.specs.Prelude.{◌≡◌};
    ghost use Rattle.rls_file.specs.declared.saving.SaveError.TheVariants.{OutOfMemory};

    ghost from_gives = { λ _ e. e ≡ OutOfMemory };

    fn from(_: AllocError) -> SaveError {
        SaveError::OutOfMemory
    }
}

/// The file of a replica, of the newest form: exactly its parts, that is the epochs that must stay and the operations that aren't
/// stable, whether or not anything was dropped. It is one buffer of known size, and nothing of the replica is copied: the cost is
/// that of its runs, characters and operations, and a few passes over its epochs, with a logarithm of how many there are for each.
///
/// # Errors
///
/// `TooLarge` exactly where the file would have more than 268,435,456 bytes, and `OutOfMemory` for want of memory alone.
pub fn encode_file(alloc: Global, replica: &Replica) -> Result<Vec<u8>, SaveError>
    ensures bytes { IfOk result (λ b. b.items ≡ file_bytes (parts_over replica.now)) }
    ensures small { IfOk result (λ b. length b.items ≤ FILE_BYTES) }
    // If its operations are within the limit and what waits may wait, it is read back with exactly these parts.
    ensures file { IfOk result (λ b. AreWritable replica.now → IsFile b.items (Snapshot newest_form (parts_over replica.now))) }
    ensures too_large { (n : ℕ) → result ≡ Err (SaveError.TooLarge n) → (FILE_BYTES < length (file_bytes (parts_over replica.now))) × (n ≡ min (length (file_bytes (parts_over replica.now))) (2 ^ 64 - 1)) }

    // For every history and waiting operations that the replica stands for.
    ensures stands { IfOk result (λ b. (t : State) → StandsFor replica.now t → b.items ≡ file_bytes (parts t)) }
{
    rely!(replica.sane());
    let names = replica.retained()?;
    let places = Places::of(alloc, &names)?;
    let bytes = stored_len(replica, &places);
    if bytes > FILE_BYTES {
        return Err(SaveError::TooLarge { bytes });
    }
    let mut out = Vec::with_capacity(alloc, bytes as usize)?;
    put_file(&mut out, replica, &places)?;
    Ok(out)
}
