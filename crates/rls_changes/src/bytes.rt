//! Messages by bytes, with what they change.

ghost use Rattle.std.specs.Prelude.{◌≡◌, ◌++◌, ◌⊎◌, ℕ, Ok, Err, IfOk, IsErrOf};
ghost use Rattle.rls_ops.specs.declared.message.Message.{Message};
ghost use Rattle.rls_codec.specs.Reading.{message_of};
ghost use Rattle.rls_model.specs.Receiving.{State};
ghost use Rattle.rls_model.specs.Taking.{take_message};
ghost use Rattle.rls_model.specs.Taking as model;
ghost use Rattle.rls_seen.specs.Messages.{taken_over, taken_of, IsPartTaken};
ghost use Rattle.rls_seen.specs.Seen.{text_over};
ghost use Rattle.rls_seen.specs.Stands.{StandsFor};
ghost use Rattle.rls_replica.specs.Faults.{IsForeign};
ghost use Rattle.rls_replica.specs.Names.{KeepsNames};
ghost use Rattle.rls_changes.specs.Telling.{taken_changes};
ghost use Rattle.rls_changes.specs.ChangesLaws.{Lead};

use crate::change::Change;
use crate::telling::Telling;
use rls_replica::{Replica, Taken};
use rls_sync::{TakeBytesError, take_bytes_watched};
use std::alloc::Global;

/// Takes the message that the bytes are, as `take_bytes` of `rls_sync` does, and puts what that changes in the text after the other
/// changes: of the operations that were applied and of those that were released, in that order.
///
/// It costs what taking it does, and about as much again for each operation that is accepted, to find its changes.
///
/// # Errors
///
/// `Malformed` exactly where the bytes are no message, and `OtherGroup` exactly where they are one of another group or of one with
/// another count of members; then nothing changes. After `OutOfMemory` some of the steps were made, and the changes are those of these
/// steps.
pub fn take_bytes(
    alloc: Global,
    replica: &mut Replica,
    bytes: &[u8],
    changes: &mut Vec<Change>,
) -> Result<Taken, TakeBytesError>
    ensures taken { IfOk result (λ taken. (m : Message) × (message_of bytes.now ≡ Ok m) × (IsForeign replica.old m → ⊥)
        × (taken ≡ taken_of (taken_over replica.old m)) × (replica.new ≡ (taken_over replica.old m).state)
        × (changes.new.items ≡ changes.old.items ++ taken_changes replica.old m)) }
    ensures malformed { (at : ℕ) → IsErrOf result (TakeBytesError.Malformed at)
        → (message_of bytes.now ≡ Err at) × (replica.new ≡ replica.old) × (changes.new.items ≡ changes.old.items) }
    ensures other_group { (g n : ℕ) → IsErrOf result (TakeBytesError.OtherGroup g n)
        → (m : Message) × (message_of bytes.now ≡ Ok m) × IsForeign replica.old m × (g ≡ m.group) × (n ≡ m.members)
        × (replica.new ≡ replica.old) × (changes.new.items ≡ changes.old.items) }
    ensures cut { IsErrOf result TakeBytesError.OutOfMemory
        → (replica.new ≡ replica.old) ⊎ ((m : Message) × (message_of bytes.now ≡ Ok m) × IsPartTaken replica.old m replica.new) }

    // Each epoch that the replica kept it still keeps.
    ensures names { KeepsNames replica.old replica.new }

    // Played one after another, what is added leads from the text before to the text now, also after an error.
    ensures lead { Lead changes.old.items changes.new.items (text_over replica.old) (text_over replica.new) }

    // For every history and waiting operations that the replica stands for.
    ensures stands { IfOk result (λ taken. (t : State) → StandsFor replica.old t → (m : Message) × (message_of bytes.now ≡ Ok m)
        × (taken ≡ model.taken (take_message t m)) × StandsFor replica.new (take_message t m).state) }
{
    let mut telling = Telling::after(changes);
    let taken = take_bytes_watched(alloc, replica, bytes, &mut telling);
    *changes = telling.changes;
    taken
}
