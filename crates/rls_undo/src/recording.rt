//! Entries of edits.

ghost use Rattle.std.specs.Prelude.{◌≡◌, ◌++◌, [], List, ℕ, ◌↔◌, Some, None, OnOk, OnErr, IsErrOf};
ghost use Rattle.rls_ident.specs.declared.epoch_name.EpochName.{EpochName};
ghost use Rattle.rls_ident.specs.declared.tuple.Tuple.{Tuple};
ghost use Rattle.rls_ops.specs.declared.op.Body.TheVariants as body;
ghost use Rattle.rls_seen.specs.Edits.{edit_fault_over, made_over};
ghost use Rattle.rls_replica.specs.Names.{keeps};
ghost use Rattle.rls_undo.specs.Plans.{entries_by};
ghost use Rattle.rls_undo.specs.UndoLaws.{AreWhole};
ghost use Rattle.rls_undo.specs.Undoing.{entries_over, first_dropped};

use crate::kept::KeptEntries;
use rls_ident::rely;
use rls_ops::{Body, Op};
use rls_replica::{Edit, PastError, Replica};
use rls_runs::{Run, Text};
use std::alloc::AllocError;

/// Puts the entry of an edit after the others, if it leaves one. The edit has no fault here and makes this operation. After an error all
/// is as before.
pub(crate) fn put_own(
    entries: &mut KeptEntries,
    replica: &Replica,
    edit: &Edit,
    op: &Op,
) -> Result<(), AllocError>
    requires fits { edit_fault_over replica.now edit.now ≡ None }
    requires op { op.now ≡ made_over replica.now edit.now }
    ensures ok { OnOk result (entries.new ≡ entries.old ++ entries_over replica.now edit.now) }
    ensures whole { OnOk result (AreWhole (entries_over replica.now edit.now)) }
    ensures err { OnErr result (entries.new ≡ entries.old) }
{
    match edit {
        Edit::Insert { .. } => put_insertion(entries, op),
        Edit::Delete { at, count } => {
            let gone = replica.text_of(*at, *count)?;
            rely!(let _len = gone.len());
            put_deletion(entries, op, gone)
        }
        Edit::Rename => Ok(()),
        Edit::Leave => Ok(()),
    }
}

// That of an operation that inserts.
fn put_insertion(entries: &mut KeptEntries, op: &Op) -> Result<(), AllocError>
    ensures ok { OnOk result ((first : List Tuple) (cs : List ℕ) → op.now.body ≡ body.Insert first cs → entries.new ≡ entries.old ++ entries_by op.now.epoch op.now.body []) }
    ensures err { OnErr result (entries.new ≡ entries.old) }
{
    let Body::Insert { first, text } = &op.body else {
        return Ok(());
    };
    // The identifiers of an insertion are a run, so there is always one.
    let Ok(len) = u32::try_from(text.len()) else {
        return Err(AllocError);
    };
    let Ok(run) = Run::new(first.copy()?, len) else {
        return Err(AllocError);
    };
    entries.push_run(op.epoch, &run)
}

// That of an operation that deletes these characters.
fn put_deletion(entries: &mut KeptEntries, op: &Op, gone: Text) -> Result<(), AllocError>
    ensures ok { OnOk result ((targets : List (List Tuple)) → op.now.body ≡ body.Delete targets → entries.new ≡ entries.old ++ entries_by op.now.epoch op.now.body gone) }
    ensures err { OnErr result (entries.new ≡ entries.old) }
{
    let Body::Delete { targets } = &op.body else {
        return Ok(());
    };
    if targets.total() == 0 {
        return Ok(());
    }
    let first = targets.get(0)?;
    entries.push_removed(op.epoch, &first, gone)
}

/// Whether the replica keeps the epoch of each entry.
///
/// # Errors
///
/// `Dropped` exactly where it doesn't; the first such epoch.
pub(crate) fn all_kept(replica: &Replica, entries: &KeptEntries) -> Result<(), PastError>
    ensures ok { OnOk result (first_dropped replica.now entries.now ≡ None) }
    ensures dropped { (e : EpochName) → (IsErrOf result (PastError.Dropped e) ↔ (first_dropped replica.now entries.now ≡ Some e)) }
{
    'entries: for i in 0..entries.len() {
        let epoch = entries.epoch(i);
        if !replica.keeps(epoch) {
            return Err(PastError::Dropped { epoch });
        }
    }
    Ok(())
}
