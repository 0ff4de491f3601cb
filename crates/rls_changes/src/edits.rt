//! What own edits change, and an undo.
//! Why: docs/DECISIONS.md, 127.

ghost use Rattle.std.specs.Prelude.{◌≡◌, ◌+◌, ◌-◌, ◌++◌, ◌∷◌, ◌↔◌, ◌≤◌, [], ℕ, List, length, take, Some, None, IfOk, IfErr, OnOk, OnErr, IsErrOf, IsFalse};
ghost use Rattle.rls_ident.specs.declared.epoch_name.EpochName.{EpochName};
ghost use Rattle.rls_ident.specs.declared.tuple.Tuple.{Tuple};
ghost use Rattle.rls_model.specs.declared.edit.EditError.{EditError};
ghost use Rattle.rls_model.specs.Receiving.{State};
ghost use Rattle.rls_model.specs.WellFormed.{IsEdit};
ghost use Rattle.rls_model.specs.Laws.{AreEdits};
ghost use Rattle.rls_seen.specs.Seen.{own_count, text_over};
ghost use Rattle.rls_seen.specs.Stands.{StandsFor};
ghost use Rattle.rls_replica.specs.Names.{keeps, KeepsNames};
ghost use Rattle.rls_undo.specs.declared.entry.Entry.{Entry};
ghost use Rattle.rls_undo.specs.declared.entry.Entry.TheVariants.{Removed};
ghost use Rattle.rls_undo.specs.Undoing.{planned, planned_over, plan_over, performed, performed_over, refusal_over, undone_by, last_of, without_last, epoch_of, IsPart};
ghost use Rattle.rls_undo.specs.UndoLaws.{IsUndone};
ghost use Rattle.rls_changes.specs.ChangesLaws.{own_changes, Lead};
ghost use Rattle.rls_changes.specs.Edits.{edit_changes, performed_edits, IsToldPart};

use crate::change::Change;
use rls_ident::{EpochName, rely};
use rls_replica::{Edit, EditError, PastError, Replica};
use rls_undo::{Undo, UndoError, Undone};
use std::alloc::AllocError;

/// Puts the change of an own edit after the other changes: an insertion or a deletion is its own change, and the other edits have none.
/// After an error all is as before. It costs a copy of the text that is inserted.
pub fn push_own(changes: &mut Vec<Change>, edit: &Edit) -> Result<(), AllocError>
    ensures ok { OnOk result (changes.new.items ≡ changes.old.items ++ own_changes edit.now) }
    ensures err { OnErr result (changes.new.items ≡ changes.old.items) }
    ensures whole { IsEdit edit.now }
{
    rely!(edit.fits());
    match edit {
        Edit::Insert { at, text } => {
            let text = text.copy()?;
            changes.push(Change::Insert { at: *at, text })?;
            Ok(())
        }
        Edit::Delete { at, count } => {
            changes.push(Change::Delete {
                at: *at,
                count: *count,
            })?;
            Ok(())
        }
        Edit::Rename | Edit::Leave => Ok(()),
    }
}

// The changes of these edits after the others. After an error those of some of them stand there.
fn push_edits(changes: &mut Vec<Change>, edits: &[Edit]) -> Result<(), AllocError>
    ensures ok { OnOk result (changes.new.items ≡ changes.old.items ++ edit_changes edits.now) }
    ensures whole { OnOk result (AreEdits edits.now) }
    ensures stays { take (length changes.old.items) changes.new.items ≡ changes.old.items }
{
    'edits: for i in 0..edits.len() {
        push_own(changes, &edits[i])?;
    }
    Ok(())
}

/// Performs the edits that undo the last entry as `Undo::undo` does, and puts what they change in the text after the other changes, one
/// change for each edit.
///
/// It costs what `Undo::plan` and `Undo::undo` do.
///
/// # Errors
///
/// Those of `Undo::undo`. After each of them the changes are those of the edits that were performed.
pub fn undo(
    entries: &mut Undo,
    replica: &mut Replica,
    changes: &mut Vec<Change>,
) -> Result<Undone, UndoError>
    ensures nothing { IsErrOf result UndoError.Nothing ↔ (entries.old ≡ []) }
    ensures dropped { (e : EpochName) → (IsErrOf result (UndoError.Dropped e) ↔ ((epoch_of (last_of entries.old) ≡ Some e) × IsFalse (keeps replica.old e))) }
    ensures refused { (f : EditError) → IsErrOf result (UndoError.Edit f) → (refusal_over replica.old (plan_over replica.old (last_of entries.old)) ≡ Some f)
        × (replica.new ≡ performed_over replica.old (plan_over replica.old (last_of entries.old)))
        × (changes.new.items ≡ changes.old.items ++ edit_changes (performed_edits replica.old (plan_over replica.old (last_of entries.old)))) }
    ensures fits { OnOk result (refusal_over replica.old (plan_over replica.old (last_of entries.old)) ≡ None) }
    ensures undone { IfOk result (λ u. u ≡ undone_by (plan_over replica.old (last_of entries.old))) }
    ensures after { OnOk result (replica.new ≡ performed_over replica.old (plan_over replica.old (last_of entries.old))) }
    ensures changes { OnOk result (changes.new.items ≡ changes.old.items ++ edit_changes (plan_over replica.old (last_of entries.old))) }
    ensures entries { OnOk result (entries.new ≡ without_last entries.old) }
    ensures stays { OnErr result (entries.new ≡ entries.old) }
    ensures part { OnErr result (IsToldPart replica.old (plan_over replica.old (last_of entries.old)) replica.new changes.old.items changes.new.items) }
    ensures untouched { (e : EpochName) → IsErrOf result (UndoError.Dropped e) → (replica.new ≡ replica.old) × (changes.new.items ≡ changes.old.items) }
    ensures memory { IsErrOf result (UndoError.Edit EditError.OutOfMemory) → ⊥ }

    // What undoes a deletion is one edit, so an error leaves the replica as before.
    ensures removed { OnErr result ((e : EpochName) (first : List Tuple) (cs : List ℕ) → last_of entries.old ≡ Some (Removed e first cs) → replica.new ≡ replica.old) }
    ensures names { KeepsNames replica.old replica.new }

    // An insertion's characters are gone, a deletion's stand at their place, and nothing else changed.
    ensures gone { OnOk result ((entry : Entry) → last_of entries.old ≡ Some entry → IsUndone replica.old entry replica.new) }

    // Played one after another, what is added leads from the text before to the text now, also after an error.
    ensures lead { Lead changes.old.items changes.new.items (text_over replica.old) (text_over replica.new) }

    // For every history and waiting operations that the replica stands for.
    ensures stands { OnOk result ((t : State) (entry : Entry) → StandsFor replica.old t → last_of entries.old ≡ Some entry
        → (planned_over replica.old entry ≡ planned t.history entry) × StandsFor replica.new (performed t (planned t.history entry))) }
{
    rely!(replica.sane());
    let before = changes.len();
    if let Err(error) = push_plan(entries, replica, changes) {
        return Err(error);
    }
    let first = own_number(replica);
    match entries.undo(replica) {
        Ok(undone) => Ok(undone),
        Err(error) => {
            let performed = own_number(replica) - first;
            changes.truncate(before + performed as usize);
            Err(error)
        }
    }
}

// What the edits that undo the last entry change, after the other changes. After an error all is as before.
fn push_plan(entries: &Undo, replica: &Replica, changes: &mut Vec<Change>) -> Result<(), UndoError>
    ensures ok { OnOk result (changes.new.items ≡ changes.old.items ++ edit_changes (plan_over replica.now (last_of entries.now))) }
    ensures whole { OnOk result (AreEdits (plan_over replica.now (last_of entries.now))) }
    ensures err { OnErr result (changes.new.items ≡ changes.old.items) }
    ensures nothing { IsErrOf result UndoError.Nothing ↔ (entries.now ≡ []) }
    ensures dropped { (e : EpochName) → (IsErrOf result (UndoError.Dropped e) ↔ ((epoch_of (last_of entries.now) ≡ Some e) × IsFalse (keeps replica.now e))) }
    ensures edit { (f : EditError) → IsErrOf result (UndoError.Edit f) → ⊥ }
{
    if entries.len() == 0 {
        return Err(UndoError::Nothing);
    }
    let before = changes.len();
    match entries.plan(replica) {
        Err(PastError::Dropped { epoch }) => Err(UndoError::Dropped { epoch }),
        Err(PastError::OutOfMemory) => Err(UndoError::OutOfMemory),
        Ok(plan) => match push_edits(changes, &plan) {
            Ok(()) => Ok(()),
            Err(_) => {
                changes.truncate(before);
                Err(UndoError::OutOfMemory)
            }
        },
    }
}

// How many operations the member itself has made.
fn own_number(replica: &Replica) -> u32
    ensures count { result ≡ own_count replica.now }
{
    rely!(replica.sane());
    replica.vector().get(replica.me())
}
