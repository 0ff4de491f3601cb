//! What members send each other.

ghost use Rattle.std.specs.Prelude.{◌≡◌, ◌<◌, ◌≤◌, ◌^◌, ◌++◌, ◌↔◌, ◌⊎◌, ℕ, Ok, Err, length, take, IfOk, OnOk, IsErrOf};
ghost use Rattle.rls_ident.specs.declared.limits.TheConstants.{OPERATION_BYTES};
ghost use Rattle.rls_ident.specs.Lists.{IsIn};
ghost use Rattle.rls_ops.specs.declared.message.Message.{Message};
ghost use Rattle.rls_ops.specs.declared.op.Op.{Op};
ghost use Rattle.rls_ops.specs.Sizes.{op_size};
ghost use Rattle.rls_ops.specs.Rows.{missing_for};
ghost use Rattle.rls_ops.specs.Spelling.{counted, message_bytes, op_bytes};
ghost use Rattle.rls_codec.specs.CodecLaws.{IsMessage};
ghost use Rattle.rls_codec.specs.Reading.{message_of};
ghost use Rattle.rls_model.specs.Receiving.{State};
ghost use Rattle.rls_model.specs.Taking.{message_for, message_told, take_message};
ghost use Rattle.rls_model.specs.Taking as model;
ghost use Rattle.rls_seen.specs.Messages.{message_beyond, message_over, message_told_over, taken_over, taken_of, IsPartTaken};
ghost use Rattle.rls_seen.specs.Seen.{members};
ghost use Rattle.rls_sync.specs.Heads.{start_of};
ghost use Rattle.rls_seen.specs.Stands.{StandsFor};
ghost use Rattle.rls_replica.specs.Faults.{IsForeign};
ghost use Rattle.rls_replica.specs.Names.{KeepsNames};
ghost use Rattle.rls_replica.specs.Watching.{taken_told, IsTold};

use rls_codec::{DecodeError, decode_message, put_head, put_u32};
use rls_ident::limits::INPUT_BYTES;
use rls_ident::{Vector, rely};
use rls_log::Log;
use rls_ops::size::head_len;
use rls_replica::{Nobody, Replica, SendError, TakeError, Taken, Watcher};
use std::alloc::{AllocError, Global};

/// Why bytes aren't taken as a message, or not to its end.
#[derive(Clone, Copy, Debug, PartialEq, Eq)]
pub enum TakeBytesError {
    /// They are no message; the place of the first field that is cut off or breaks its rule. Nothing was taken.
    Malformed { at: u64 },
    /// The message comes from another group, or one with another count of members; its numbers. Nothing was taken.
    OtherGroup { group: u64, members: u32 },
    /// Some of the steps were made.
    OutOfMemory,
}

/// The bytes of the message for a member, in the newest form.
///
/// # Errors
///
/// `NotMember` exactly where the number isn't below the count of members.
pub fn message_bytes(alloc: Global, replica: &Replica, to: u32) -> Result<Vec<u8>, SendError>
    ensures bytes { IfOk result (λ bytes. bytes.items ≡ message_bytes (message_over replica.now to)) }
    ensures not_member { IsErrOf result SendError.NotMember ↔ (members replica.now ≤ to) }

    // They are a message, which others can read, where no kept operation has more bytes than one may have.
    ensures message { IfOk result (λ bytes. ((o : Op) → IsIn o replica.now.log → op_size o ≤ OPERATION_BYTES) → IsMessage bytes.items (message_over replica.now to)) }

    // For every history and waiting operations that the replica stands for.
    ensures stands { IfOk result (λ bytes. (t : State) → StandsFor replica.now t → bytes.items ≡ message_bytes (message_for t.history to)) }
{
    rely!(replica.sane());
    if to >= replica.members() {
        return Err(SendError::NotMember);
    }
    let known = replica.known_to(to)?;
    Ok(spelled(alloc, replica, &known)?)
}

/// The bytes of the message for a member that told these counts, one for each member, in the newest form.
///
/// # Errors
///
/// `NotMember` exactly where the number isn't below the count of members.
pub fn message_bytes_told(
    alloc: Global,
    replica: &Replica,
    to: u32,
    told: &[u32],
) -> Result<Vec<u8>, SendError>
    requires counts { length told.now ≡ members replica.now }
    ensures bytes { IfOk result (λ bytes. bytes.items ≡ message_bytes (message_told_over replica.now to told.now)) }
    ensures not_member { IsErrOf result SendError.NotMember ↔ (members replica.now ≤ to) }

    // They are a message, which others can read, where no kept operation has more bytes than one may have.
    ensures message { IfOk result (λ bytes. ((o : Op) → IsIn o replica.now.log → op_size o ≤ OPERATION_BYTES) → IsMessage bytes.items (message_told_over replica.now to told.now)) }

    // For every history and waiting operations that the replica stands for.
    ensures stands { IfOk result (λ bytes. (t : State) → StandsFor replica.now t → bytes.items ≡ message_bytes (message_told t.history to told.now)) }
{
    rely!(replica.sane());
    if to >= replica.members() {
        return Err(SendError::NotMember);
    }
    let known = replica.known_to_told(to, told)?;
    Ok(spelled(alloc, replica, &known)?)
}

// The message of what these counts don't cover. Its operations are copied byte by byte, and none is made.
fn spelled(alloc: Global, replica: &Replica, known: &Vector) -> Result<Vec<u8>, AllocError>
    ensures bytes { IfOk result (λ bytes. bytes.items ≡ message_bytes (message_beyond replica.now known.now)) }
    ensures message { IfOk result (λ bytes. ((o : Op) → IsIn o replica.now.log → op_size o ≤ OPERATION_BYTES) → IsMessage bytes.items (message_beyond replica.now known.now)) }
{
    rely!(replica.sane());
    let log = replica.logged();
    rely!(log.fits());
    let room = INPUT_BYTES - head_len(replica.members());
    let end = log.reach(known, room);
    let mut out = Vec::with_capacity(alloc, log.missing_len(known).min(room) as usize)?;
    put_start(&mut out, replica)?;
    put_ops(&mut out, log, known, end)?;
    Ok(out)
}

// Those of the first `end` operations of a log that a vector doesn't cover, after their number.
fn put_ops(out: &mut Vec<u8>, log: &Log, known: &Vector, end: usize) -> Result<(), AllocError>
    requires within { end ≤ length log.now }
    requires few { length (missing_for known.now (take end log.now)) < 2 ^ 32 }
    ensures ok { OnOk result (out.new.items ≡ out.old.items ++ counted op_bytes (missing_for known.now (take end log.now))) }
{
    put_u32(out, log.missing_count(known, end) as u32)?;
    log.put_missing(out, known, end)?;
    Ok(())
}

// What stands in a message of this replica before its operations.
fn put_start(out: &mut Vec<u8>, replica: &Replica) -> Result<(), AllocError>
    ensures ok { OnOk result (out.new.items ≡ out.old.items ++ start_of replica.now) }
{
    put_head(
        out,
        replica.group(),
        replica.members(),
        replica.me(),
        replica.acks().mine(),
    )?;
    Ok(())
}

/// Takes the message that the bytes are: receives each of its operations in turn, releases after each what is ready, and at last
/// notes how much its sender has accepted.
///
/// # Errors
///
/// `Malformed` exactly where the bytes are no message, and `OtherGroup` exactly where they are one of another group or of one with
/// another count of members; then nothing changes. After `OutOfMemory` some of the steps were made.
pub fn take_bytes(
    alloc: Global,
    replica: &mut Replica,
    bytes: &[u8],
) -> Result<Taken, TakeBytesError>
    ensures taken { IfOk result (λ taken. (m : Message) × (message_of bytes.now ≡ Ok m) × (IsForeign replica.old m → ⊥)
        × (taken ≡ taken_of (taken_over replica.old m)) × (replica.new ≡ (taken_over replica.old m).state)) }
    ensures malformed { (at : ℕ) → IsErrOf result (TakeBytesError.Malformed at) → (message_of bytes.now ≡ Err at) × (replica.new ≡ replica.old) }
    ensures other_group { (g n : ℕ) → IsErrOf result (TakeBytesError.OtherGroup g n)
        → (m : Message) × (message_of bytes.now ≡ Ok m) × IsForeign replica.old m × (g ≡ m.group) × (n ≡ m.members) × (replica.new ≡ replica.old) }
    ensures cut { IsErrOf result TakeBytesError.OutOfMemory
        → (replica.new ≡ replica.old) ⊎ ((m : Message) × (message_of bytes.now ≡ Ok m) × IsPartTaken replica.old m replica.new) }

    // Each epoch that the replica kept it still keeps.
    ensures names { KeepsNames replica.old replica.new }

    // For every history and waiting operations that the replica stands for.
    ensures stands { IfOk result (λ taken. (t : State) → StandsFor replica.old t → (m : Message) × (message_of bytes.now ≡ Ok m)
        × (taken ≡ model.taken (take_message t m)) × StandsFor replica.new (take_message t m).state) }
{
    take_bytes_watched(alloc, replica, bytes, &mut Nobody)
}

/// Does the same, and shows each operation to a watcher before it is accepted. After `OutOfMemory` what was told is of the steps that were
/// made.
///
/// # Errors
///
/// Those of `take_bytes`. After `Malformed` and `OtherGroup` nothing more was told.
pub fn take_bytes_watched<W: Watcher>(
    alloc: Global,
    replica: &mut Replica,
    bytes: &[u8],
    watcher: &mut W,
) -> Result<Taken, TakeBytesError>
    ensures taken { IfOk result (λ taken. (m : Message) × (message_of bytes.now ≡ Ok m) × (IsForeign replica.old m → ⊥)
        × (taken ≡ taken_of (taken_over replica.old m)) × (replica.new ≡ (taken_over replica.old m).state)) }
    ensures told { OnOk result ((m : Message) → message_of bytes.now ≡ Ok m → W.told watcher.new ≡ W.told watcher.old ++ taken_told W.tells replica.old m) }
    ensures malformed { (at : ℕ) → IsErrOf result (TakeBytesError.Malformed at) → (message_of bytes.now ≡ Err at) × (replica.new ≡ replica.old) }
    ensures other_group { (g n : ℕ) → IsErrOf result (TakeBytesError.OtherGroup g n)
        → (m : Message) × (message_of bytes.now ≡ Ok m) × IsForeign replica.old m × (g ≡ m.group) × (n ≡ m.members) × (replica.new ≡ replica.old) }
    ensures untold { (at : ℕ) → IsErrOf result (TakeBytesError.Malformed at) → W.told watcher.new ≡ W.told watcher.old }
    ensures untold_foreign { (g n : ℕ) → IsErrOf result (TakeBytesError.OtherGroup g n) → W.told watcher.new ≡ W.told watcher.old }
    ensures cut { IsErrOf result TakeBytesError.OutOfMemory
        → (replica.new ≡ replica.old) ⊎ ((m : Message) × (message_of bytes.now ≡ Ok m) × IsPartTaken replica.old m replica.new) }

    // Each epoch that the replica kept it still keeps.
    ensures names { KeepsNames replica.old replica.new }

    // Also after an error.
    ensures steps { IsTold W.tells replica.old replica.new (W.told watcher.old) (W.told watcher.new) }

    // For every history and waiting operations that the replica stands for.
    ensures stands { IfOk result (λ taken. (t : State) → StandsFor replica.old t → (m : Message) × (message_of bytes.now ≡ Ok m)
        × (taken ≡ model.taken (take_message t m)) × StandsFor replica.new (take_message t m).state) }
{
    match decode_message(alloc, bytes) {
        Ok(message) => match replica.take_watched(message, watcher) {
            Ok(taken) => Ok(taken),
            Err(TakeError::OtherGroup { group, members }) => {
                Err(TakeBytesError::OtherGroup { group, members })
            }
            Err(TakeError::OutOfMemory) => Err(TakeBytesError::OutOfMemory),
        },
        Err(DecodeError::Malformed { at }) => Err(TakeBytesError::Malformed { at }),
        Err(DecodeError::OutOfMemory) => Err(TakeBytesError::OutOfMemory),
    }
}
