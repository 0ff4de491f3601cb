//! Messages that are taken, and releases until none is ready, with what they change.
//! Why: docs/DECISIONS.md, 120.

ghost use Rattle.std.specs.Prelude.{◌≡◌, ◌<◌, ◌↔◌, ◌++◌, ℕ, length, IfOk, OnOk, OnErr, IsErrOf};
ghost use Rattle.rls_model.specs.Machine.{release_all_on};
ghost use Rattle.rls_model.specs.Receiving.{State};
ghost use Rattle.rls_model.specs.Taking.{take_message, take_within};
ghost use Rattle.rls_model.specs.Taking as model;
ghost use Rattle.rls_seen.specs.Seen.{text_over};
ghost use Rattle.rls_seen.specs.Over.{released_all, IsPartReleased};
ghost use Rattle.rls_seen.specs.Messages.{with_releases, taken_over, taken_of, IsPartTaken};
ghost use Rattle.rls_seen.specs.Stands.{StandsFor};
ghost use Rattle.rls_replica.specs.Steps.{course, CountsReleased, AreFew};
ghost use Rattle.rls_replica.specs.Names.{KeepsNames};
ghost use Rattle.rls_replica.specs.Faults.{IsForeign};
ghost use Rattle.rls_replica.specs.Watching.{told_course};
ghost use Rattle.rls_changes.specs.Telling.{all_released_changes, taken_changes, tells_parts};
ghost use Rattle.rls_changes.specs.ChangesLaws.{Lead};

use crate::change::Change;
use crate::telling::Telling;
use rls_ops::Message;
use rls_replica::{Replica, TakeError, Taken};
use std::alloc::AllocError;

/// Releases until no waiting operation is ready, as `Replica::release_all` does, and puts what that changes in the text after the other
/// changes. After an error some were released, and of these the last one may not be counted; the changes are those of all of them.
pub fn release_all(
    replica: &mut Replica,
    taken: &mut Taken,
    changes: &mut Vec<Change>,
) -> Result<(), AllocError>
    requires counted { CountsReleased replica.old taken.old }
    ensures counted { CountsReleased replica.new taken.new }
    ensures told { OnOk result (told_course replica.new taken.new changes.new.items ≡ release_all_on tells_parts (told_course replica.old taken.old changes.old.items)) }
    ensures ok { OnOk result (course replica.new taken.new ≡ with_releases (course replica.old taken.old)) }
    ensures after { OnOk result (replica.new ≡ released_all replica.old) }
    ensures changes { OnOk result (changes.new.items ≡ changes.old.items ++ all_released_changes replica.old) }
    ensures err { OnErr result (IsPartReleased replica.old replica.new) }
    ensures names { KeepsNames replica.old replica.new }
    ensures arrived { (n : ℕ) → AreFew n taken.old → AreFew n taken.new }

    // Played one after another, what is added leads from the text before to the text now, also after an error.
    ensures lead { Lead changes.old.items changes.new.items (text_over replica.old) (text_over replica.new) }
{
    let mut telling = Telling::after(changes);
    let released = replica.release_all_watched(taken, &mut telling);
    *changes = telling.changes;
    released
}

/// Takes a message as `Replica::take` does, and puts what that changes in the text after the other changes.
///
/// It costs what `Replica::take` does, and about as much again for each operation that is accepted, to find its changes.
///
/// # Errors
///
/// `OtherGroup` exactly where the message comes from another group or one with another count of members; then nothing changes.
/// After `OutOfMemory` some of the steps were made, and the changes are those of these steps.
pub fn take(
    replica: &mut Replica,
    message: Message,
    changes: &mut Vec<Change>,
) -> Result<Taken, TakeError>
    requires from { message.from < message.members }
    requires vector { length message.vector ≡ message.members }
    ensures taken { IfOk result (λ taken. taken ≡ taken_of (taken_over replica.old message)) }
    ensures after { OnOk result (replica.new ≡ (taken_over replica.old message).state) }
    ensures changes { OnOk result (changes.new.items ≡ changes.old.items ++ taken_changes replica.old message) }
    ensures other_group { (g n : ℕ) → (IsErrOf result (TakeError.OtherGroup g n) ↔ ((g ≡ message.group) × (n ≡ message.members) × IsForeign replica.old message)) }
    ensures foreign { (g n : ℕ) → IsErrOf result (TakeError.OtherGroup g n) → (replica.new ≡ replica.old) × (changes.new.items ≡ changes.old.items) }
    ensures cut { IsErrOf result TakeError.OutOfMemory → IsPartTaken replica.old message replica.new }
    ensures names { KeepsNames replica.old replica.new }

    // Played one after another, what is added leads from the text before to the text now, also after an error.
    ensures lead { Lead changes.old.items changes.new.items (text_over replica.old) (text_over replica.new) }

    // For every history and waiting operations that the replica stands for.
    ensures stands { IfOk result (λ taken. (t : State) → StandsFor replica.old t → (taken ≡ model.taken (take_message t message)) × StandsFor replica.new (take_message t message).state) }
    ensures part { IsErrOf result TakeError.OutOfMemory → (t : State) → StandsFor replica.old t → (n : ℕ) × StandsFor replica.new (take_within (Some n) t message).state }
{
    let mut telling = Telling::after(changes);
    let taken = replica.take_watched(message, &mut telling);
    *changes = telling.changes;
    taken
}
