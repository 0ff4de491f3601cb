//! What is done at a replica, with what it changes in the text, if that is told.
//! Why: docs/DECISIONS.md, 132.

ghost use Rattle.std.specs.Prelude.{◌≡◌, ◌++◌, ◌↔◌, [], ℕ, Bool, List, Some, None, Ok, Err, IfOk, OnOk, OnErr, IsErrOf, IsTrue, IsFalse};
ghost use Rattle.rls_ident.specs.declared.epoch_name.EpochName.{EpochName};
ghost use Rattle.rls_ops.specs.declared.message.Message.{Message};
ghost use Rattle.rls_codec.specs.CodecLaws.{IsBytes};
ghost use Rattle.rls_codec.specs.Reading.{message_of};
ghost use Rattle.rls_model.specs.declared.edit.EditError as edits;
ghost use Rattle.rls_seen.specs.Messages.{taken_of, taken_over};
ghost use Rattle.rls_replica.specs.Faults.{IsForeign};
ghost use Rattle.rls_replica.specs.Names.{KeepsNames, keeps};
ghost use Rattle.rls_undo.specs.Undoing.{epoch_of, last_of, performed_over, plan_over, refusal_over, undone_by, without_last};
ghost use Rattle.rls_changes.specs.Telling.{taken_changes};
ghost use Rattle.rls_steps.specs.Recorded.{Recorded};
ghost use Rattle.rls_session.specs.Answering.{IsAnswered};
ghost use Rattle.rls_session.specs.Answers.{undone, undone_changes};
ghost use Rattle.rls_session.specs.declared.cursors.Cursor.{Cursor};
ghost use Rattle.rls_session.specs.Desks.{AreUndoable, TellsFault, planned_changes, sitting_of};
ghost use Rattle.rls_session.specs.Sessions.{by_parts};

use crate::replies;
use rls_changes::Change;
use rls_model::{EditError, Taken};
use rls_replica::Replica;
use rls_stages::LineError;
use rls_sync::TakeBytesError;
use rls_undo::{Undo, UndoError, Undone};
use std::alloc::{AllocError, Global};

/// Takes the message that these bytes are, and puts what it changes after these changes, if that is told.
pub(crate) fn take_message(
    alloc: Global,
    replica: &mut Replica,
    bytes: &[u8],
    tells: bool,
    changes: &mut Vec<Change>,
) -> Result<Taken, TakeBytesError>
    ensures taken { IfOk result (λ taken. (m : Message) × (message_of bytes.now ≡ Ok m) × (IsForeign replica.old m → ⊥)
        × (taken ≡ taken_of (taken_over replica.old m)) × (replica.new ≡ (taken_over replica.old m).state)
        × (IsTrue tells → changes.new.items ≡ changes.old.items ++ taken_changes replica.old m)) }
    ensures malformed { (at : ℕ) → IsErrOf result (TakeBytesError.Malformed at)
        → (message_of bytes.now ≡ Err at) × (replica.new ≡ replica.old) × (changes.new.items ≡ changes.old.items) }
    ensures other_group { (g n : ℕ) → IsErrOf result (TakeBytesError.OtherGroup g n)
        → (m : Message) × (message_of bytes.now ≡ Ok m) × IsForeign replica.old m × (g ≡ m.group) × (n ≡ m.members)
        × (replica.new ≡ replica.old) × (changes.new.items ≡ changes.old.items) }
    ensures names { KeepsNames replica.old replica.new }
    ensures bytes { IsBytes bytes.now }
{
    if tells {
        return rls_changes::take_bytes(alloc, replica, bytes, changes);
    }
    rls_sync::take_bytes(alloc, replica, bytes)
}

/// Undoes the last entry, and puts what that changes after these changes, if that is told.
pub(crate) fn undo_last(
    alloc: Global,
    undo: &mut Undo,
    replica: &mut Replica,
    tells: bool,
    changes: &mut Vec<Change>,
) -> Result<Vec<u8>, AllocError>
    requires undoable { AreUndoable replica.old undo.old }
    ensures answered { IfOk result (λ reply. (a : List Cursor) (r : Recorded) (t : Bool) → IsAnswered (undone by_parts (sitting_of replica.old undo.old a r t) (last_of undo.old)) reply.items (sitting_of replica.new undo.new a r t)) }
    ensures undoable { AreUndoable replica.new undo.new }
    ensures names { KeepsNames replica.old replica.new }
    ensures changes { IsTrue tells → OnOk result (changes.new.items ≡ changes.old.items ++ undone_changes by_parts replica.old (last_of undo.old)) }
{
    match undo_entry(undo, replica, tells, changes) {
        Ok(Undone { edits, chars }) => replies::undone(alloc, edits, chars),
        Err(UndoError::Nothing) => replies::nothing(alloc),
        Err(UndoError::Edit(error)) => refused(alloc, error),
        // A session drops nothing.
        Err(UndoError::Dropped { epoch: _epoch }) => unreachable!(),
        Err(UndoError::OutOfMemory) => Err(AllocError),
    }
}

// Undoes the last entry, and puts what that changes after these changes, if that is told.
fn undo_entry(
    undo: &mut Undo,
    replica: &mut Replica,
    tells: bool,
    changes: &mut Vec<Change>,
) -> Result<Undone, UndoError>
    ensures nothing { IsErrOf result UndoError.Nothing ↔ (undo.old ≡ []) }
    ensures dropped { (e : EpochName) → (IsErrOf result (UndoError.Dropped e) ↔ ((epoch_of (last_of undo.old) ≡ Some e) × IsFalse (keeps replica.old e))) }
    ensures refused { (f : edits.EditError) → IsErrOf result (UndoError.Edit f) → (refusal_over replica.old (plan_over replica.old (last_of undo.old)) ≡ Some f)
        × (replica.new ≡ performed_over replica.old (plan_over replica.old (last_of undo.old)))
        × (IsTrue tells → changes.new.items ≡ changes.old.items ++ planned_changes replica.old (last_of undo.old)) }
    ensures fits { OnOk result (refusal_over replica.old (plan_over replica.old (last_of undo.old)) ≡ None) }
    ensures undone { IfOk result (λ u. u ≡ undone_by (plan_over replica.old (last_of undo.old))) }
    ensures after { OnOk result (replica.new ≡ performed_over replica.old (plan_over replica.old (last_of undo.old))) }
    ensures changes { IsTrue tells → OnOk result (changes.new.items ≡ changes.old.items ++ planned_changes replica.old (last_of undo.old)) }
    ensures entries { OnOk result (undo.new ≡ without_last undo.old) }
    ensures stays { OnErr result (undo.new ≡ undo.old) }
    ensures none { IsErrOf result UndoError.Nothing → (replica.new ≡ replica.old) × (IsTrue tells → changes.new.items ≡ changes.old.items) }
    ensures names { KeepsNames replica.old replica.new }
{
    if tells {
        return rls_changes::undo(undo, replica, changes);
    }
    undo.undo(replica)
}

/// The reply to an edit that is refused for this reason.
pub(crate) fn refused(alloc: Global, error: EditError) -> Result<Vec<u8>, AllocError>
    ensures reply { IfOk result (λ reply. TellsFault error reply.items) }
{
    match LineError::from(error) {
        LineError::Refused { fault } => replies::refused(alloc, fault),
        LineError::OutOfMemory => Err(AllocError),
    }
}
