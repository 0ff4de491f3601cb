//! How an operation is accepted: first all that may want memory, of which the change of the text is the last step, and then the rest.
//! Why: docs/DECISIONS.md, 47, 143.

ghost use Rattle.std.specs.Prelude.{◌≡◌, ◌+◌, ◌-◌, ◌<◌, ◌≤◌, ◌^◌, ◌++◌, ◌∷◌, [], pos, ◌+ℤ◌, ◌≤ℤ◌, IsSome, IfSome, IfOk, OnOk, OnErr, IsTrue, List, length, map, slice_index, zip, Some, None, IsSomeAnd};
ghost use Rattle.rls_ident.specs.declared.limits.TheConstants.{IDENTIFIERS};
ghost use Rattle.rls_ident.specs.Identifiers.{last_of};
ghost use Rattle.rls_ident.specs.Tuples.{offset_of};
ghost use Rattle.rls_runs.specs.Entries.{put_all, without_all};
ghost use Rattle.rls_runs.specs.Runs.{run_idents, past_offsets};
ghost use Rattle.rls_rename.specs.Tree.{is_kept, greatest, translate};
ghost use Rattle.rls_ops.specs.declared.op.Body.TheVariants.{Rename};
ghost use Rattle.rls_ops.specs.declared.op.Op.{Op as OpSeen};
ghost use Rattle.rls_model.specs.Epochs.{renaming_of};
ghost use Rattle.rls_model.specs.Stems.{stems_after};
ghost use Rattle.rls_seen.specs.Over.{accepted, acks_after, epochs_after, first_ready, logged, refusal_over, released};
ghost use Rattle.rls_seen.specs.Sane.{MayApply};
ghost use Rattle.rls_epoch.specs.Seen.{former_sum};
ghost use Rattle.rls_blocks.specs.Trees.{entries_of};
ghost use Rattle.rls_ops.specs.Waiting.{without};
ghost use Rattle.rls_replica.specs.declared.known.Known.{Known as KnownSeen};
ghost use Rattle.rls_replica.specs.Known.{KeepsKnown};
ghost use Rattle.rls_replica.specs.Changing.{former_in, renaming_in, MayPrepare, IsPlaceOf, IsTextAfter, MayFinish, GoesTo, MayInsert, MayRename};

use crate::known::{Known, kept_known};
use crate::renaming_box::RenamingBox;
use crate::renaming_text::RenamingText;
use crate::replica::Replica;
use rls_causal::Held;
use rls_doc::Document;
use rls_epoch::Epochs;
use rls_ident::{EpochName, Ident, Vector, rely};
use rls_log::Log;
use rls_ops::{Body, Op, covers};
use rls_parts::StemTable;
use rls_rename::{Renaming, RenamingError};
use rls_runs::{Run, Runs, Text};
use rls_stable::Acks;
use rls_tree::BlockTree;
use std::alloc::{AllocError, Global};

impl Replica {
    // Accepts an operation that fits. After an error the replica is as before. If a place is told, an insertion goes there, and a
    // deletion's characters are looked for there before they are searched.
    pub(crate) fn apply(&mut self, op: &Op, place: Option<u64>) -> Result<(), AllocError>
        requires may { MayApply self.old op.now }
        requires place { IfSome place (λ i. IsPlaceOf self.old.epochs self.old.text op.now.epoch op.now.body i) }
        ensures ok { OnOk result (self.new ≡ accepted self.old op.now) }
        ensures err { OnErr result (self.new ≡ self.old) }
    {
        rely!(op.fits());
        let count = self.log.len();
        let renaming = prepare(
            self.alloc,
            &mut self.document,
            &mut self.stems,
            &mut self.epochs,
            &mut self.log,
            op,
            place,
        )?;
        forget(&mut self.held, op.author, op.seq);
        finish(
            &mut self.acks,
            &mut self.stems,
            &mut self.epochs,
            op,
            renaming,
        );
        keep_unstable(&mut self.log, count, op, self.acks.stable());
        keep_known(
            self.alloc,
            &mut self.known,
            &self.epochs,
            op,
            self.acks.stable(),
        );
        Ok(())
    }

    // Accepts the first ready operation, which fits. After an error the replica is as before.
    pub(crate) fn apply_ready(&mut self) -> Result<(), AllocError>
        requires fits { IsSomeAnd (first_ready self.old) (λ w. refusal_over self.old w ≡ None) }
        ensures ok { OnOk result (self.new ≡ released self.old) }
        ensures err { OnErr result (self.new ≡ self.old) }
    {
        let Some(op) = self.held.first_ready(self.acks.mine()) else {
            unreachable!()
        };
        let count = self.log.len();
        let renaming = prepare(
            self.alloc,
            &mut self.document,
            &mut self.stems,
            &mut self.epochs,
            &mut self.log,
            op,
            None,
        )?;
        let (author, seq) = (op.author, op.seq);
        let Some(op) = self.held.remove(author, seq) else {
            unreachable!()
        };
        finish(
            &mut self.acks,
            &mut self.stems,
            &mut self.epochs,
            &op,
            renaming,
        );
        keep_unstable(&mut self.log, count, &op, self.acks.stable());
        keep_known(
            self.alloc,
            &mut self.known,
            &self.epochs,
            &op,
            self.acks.stable(),
        );
        Ok(())
    }
}

// Takes out what waits under this number. Mostly nothing waits at all.
fn forget(held: &mut Held, author: u32, seq: u32)
    ensures others { held.new ≡ without author seq held.old }
{
    if held.len() == 0 {
        return;
    }
    take_out(held, author, seq);
}

fn take_out(held: &mut Held, author: u32, seq: u32)
    ensures others { held.new ≡ without author seq held.old }
{
    let _op = held.remove(author, seq);
}

// Keeps of what is remembered what holds after an operation was accepted. Mostly nothing is remembered.
fn keep_known(alloc: Global, known: &mut Option<Known>, epochs: &Epochs, op: &Op, stable: &Vector)
    ensures kept { IfSome known.new (λ k. (was : KnownSeen) × (known.old ≡ Some was) × KeepsKnown epochs.now.epochs stable.now op.now op.now.body was k) }
{
    if known.is_none() {
        return;
    }
    pass_known(alloc, known, epochs, op, stable);
}

fn pass_known(alloc: Global, known: &mut Option<Known>, epochs: &Epochs, op: &Op, stable: &Vector)
    ensures kept { IfSome known.new (λ k. (was : KnownSeen) × (known.old ≡ Some was) × KeepsKnown epochs.now.epochs stable.now op.now op.now.body was k) }
{
    let was = known.take();
    *known = kept_known(alloc, was, epochs, op, stable);
}

// Makes all the room that the operation needs, and the renaming of a rename, and changes the text last.
fn prepare(
    alloc: Global,
    document: &mut BlockTree,
    stems: &mut StemTable,
    epochs: &mut Epochs,
    log: &mut Log,
    op: &Op,
    place: Option<u64>,
) -> Result<Option<RenamingBox>, AllocError>
    requires may { MayPrepare epochs.old.epochs (entries_of document.old.blocks) op.now }
    requires place { IfSome place (λ i. IsPlaceOf epochs.old.epochs (entries_of document.old.blocks) op.now.epoch op.now.body i) }
    requires author { op.now.author < stems.old.members }
    ensures renaming { IfOk result (λ renaming. renaming ≡ renaming_in op.now op.now.body) }
    ensures text { OnOk result (IsTextAfter epochs.old.epochs (entries_of document.old.blocks) op.now op.now.body (entries_of document.new.blocks)) }
    ensures err { OnErr result (entries_of document.new.blocks ≡ entries_of document.old.blocks) }
    ensures stems { stems.new.stems ≡ stems.old.stems }
    ensures members { stems.new.members ≡ stems.old.members }
    ensures stem_room { OnOk result (0 < slice_index stems.new.spare op.now.author) }
    ensures epochs { epochs.new.epochs ≡ epochs.old.epochs }
    ensures epoch_room { IfOk result (λ renaming. IsSome renaming → 0 < epochs.new.spare) }
    ensures log { OnOk result (log.new ≡ log.old ++ op.now ∷ []) }
    ensures log_err { OnErr result (log.new ≡ log.old) }
{
    stems.reserve(op.author)?;
    let count = log.len();
    log.push(op)?;
    match change(alloc, document, epochs, op, place) {
        Ok(renaming) => Ok(renaming),
        Err(e) => {
            log.truncate(count);
            Err(e)
        }
    }
}

// Changes the text, and makes the renaming of a rename with room for its epoch.
fn change(
    alloc: Global,
    document: &mut BlockTree,
    epochs: &mut Epochs,
    op: &Op,
    place: Option<u64>,
) -> Result<Option<RenamingBox>, AllocError>
    requires may { MayPrepare epochs.old.epochs (entries_of document.old.blocks) op.now }
    requires place { IfSome place (λ i. IsPlaceOf epochs.old.epochs (entries_of document.old.blocks) op.now.epoch op.now.body i) }
    ensures renaming { IfOk result (λ renaming. renaming ≡ renaming_in op.now op.now.body) }
    ensures text { OnOk result (IsTextAfter epochs.old.epochs (entries_of document.old.blocks) op.now op.now.body (entries_of document.new.blocks)) }
    ensures err { OnErr result (entries_of document.new.blocks ≡ entries_of document.old.blocks) }
    ensures epochs { epochs.new.epochs ≡ epochs.old.epochs }
    ensures room { IfOk result (λ renaming. IsSome renaming → 0 < epochs.new.spare) }
{
    match &op.body {
        Body::Insert { first, text } => {
            insert(document, epochs, op.epoch, first, text, place)?;
            Ok(None)
        }
        Body::Delete { targets } => {
            delete(document, epochs, op.epoch, targets, place)?;
            Ok(None)
        }
        Body::Rename { former } => {
            let renaming = rename(alloc, document, epochs, op, former)?;
            Ok(Some(renaming))
        }
        Body::Leave => Ok(None),
    }
}

// Adds the characters of an insertion, at the place that is told, if one is.
fn insert(
    document: &mut BlockTree,
    epochs: &Epochs,
    epoch: EpochName,
    first: &Ident,
    text: &Text,
    place: Option<u64>,
) -> Result<(), AllocError>
    requires may { MayInsert epochs.now.epochs (entries_of document.old.blocks) epoch first.now text.now }
    requires place { IfSome place (λ i. GoesTo epochs.now.epochs (entries_of document.old.blocks) epoch first.now text.now i) }
    ensures ok { OnOk result (entries_of document.new.blocks ≡ put_all (zip (map (translate epochs.now.epochs.nodes epoch (greatest epochs.now.epochs.top epochs.now.epochs.nodes)) (run_idents first.now (length text.now))) text.now) (entries_of document.old.blocks)) }
    ensures err { OnErr result (entries_of document.new.blocks ≡ entries_of document.old.blocks) }
{
    rely!(let _last = first.last());
    if let Some(i) = place {
        return document.insert_between(i, first, text);
    }
    let greatest = epochs.greatest();
    if epoch.same(&greatest) {
        return document.insert_run(first, text);
    }
    let run = run_of(first, text.len() as u32)?;
    let runs = epochs.translate_run(epoch, greatest, &run)?;
    document.insert_runs(&runs, text)
}

fn run_of(first: &Ident, len: u32) -> Result<Run, AllocError>
    requires some { 0 < len }
    requires end { (offset_of (last_of first.now) +ℤ pos len) ≤ℤ past_offsets }
    ensures run { IfOk result (λ run. run ≡ (first.now, len)) }
{
    match Run::new(first.copy()?, len) {
        Ok(run) => Ok(run),
        Err(_) => unreachable!(),
    }
}

// Takes out the characters of a deletion.
fn delete(
    document: &mut BlockTree,
    epochs: &Epochs,
    epoch: EpochName,
    targets: &Runs,
    near: Option<u64>,
) -> Result<(), AllocError>
    requires kept { IsTrue (is_kept epochs.now.epochs.top epochs.now.epochs.nodes epoch) }
    ensures ok { OnOk result (entries_of document.new.blocks ≡ without_all (map (translate epochs.now.epochs.nodes epoch (greatest epochs.now.epochs.top epochs.now.epochs.nodes)) targets.now) (entries_of document.old.blocks)) }
    ensures err { OnErr result (entries_of document.new.blocks ≡ entries_of document.old.blocks) }
{
    let greatest = epochs.greatest();
    if epoch.same(&greatest) {
        let _removed = document.remove_near(near, targets)?;
        return Ok(());
    }
    let images = epochs.translate_runs(epoch, greatest, targets)?;
    let _removed = document.remove_all(&images)?;
    Ok(())
}

// Makes the renaming of a rename and room for its epoch, and renames the text where the epoch becomes the greatest.
fn rename(
    alloc: Global,
    document: &mut BlockTree,
    epochs: &mut Epochs,
    op: &Op,
    former: &Runs,
) -> Result<RenamingBox, AllocError>
    requires may { MayRename epochs.old.epochs op.now former.now }
    ensures renaming { IfOk result (λ renaming. renaming ≡ renaming_of op.now former.now) }
    ensures text { OnOk result (IsTextAfter epochs.old.epochs (entries_of document.old.blocks) op.now (Rename former.now) (entries_of document.new.blocks)) }
    ensures err { OnErr result (entries_of document.new.blocks ≡ entries_of document.old.blocks) }
    ensures epochs { epochs.new.epochs ≡ epochs.old.epochs }
    ensures room { OnOk result (0 < epochs.new.spare) }
{
    let renaming = RenamingBox::new(alloc, renaming_of(alloc, op, former)?)?;
    epochs.reserve()?;
    rename_text(document, epochs, op, renaming.renaming())?;
    Ok(renaming)
}

fn renaming_of(alloc: Global, op: &Op, former: &Runs) -> Result<Renaming, AllocError>
    requires some { 0 < length former.now }
    requires few { length former.now ≤ IDENTIFIERS }
    ensures renaming { IfOk result (λ renaming. renaming ≡ renaming_of op.now former.now) }
{
    match Renaming::new(alloc, former.copy()?, op.author, op.seq) {
        Ok(renaming) => Ok(renaming),
        Err(RenamingError::EmptyList) => unreachable!(),
        Err(RenamingError::TooMany { .. }) => unreachable!(),
    }
}

// Gives each character its identifier of the epoch that the rename opens, where that becomes the greatest.
fn rename_text(
    document: &mut BlockTree,
    epochs: &Epochs,
    op: &Op,
    renaming: &Renaming,
) -> Result<(), AllocError>
    requires may { MayRename epochs.now.epochs op.now renaming.now.former }
    requires renaming { renaming.now ≡ renaming_of op.now renaming.now.former }
    ensures text { OnOk result (IsTextAfter epochs.now.epochs (entries_of document.old.blocks) op.now (Rename renaming.now.former) (entries_of document.new.blocks)) }
    ensures err { OnErr result (entries_of document.new.blocks ≡ entries_of document.old.blocks) }
{
    if !epochs.opens_greatest(op.author, op.seq, op.epoch) {
        return Ok(());
    }
    let map = RenamingText::new(epochs, epochs.greatest(), op.epoch, renaming);
    document.map_runs(&map)
}

// Does what takes no memory: all but the text and what waits.
fn finish(
    acks: &mut Acks,
    stems: &mut StemTable,
    epochs: &mut Epochs,
    op: &Op,
    renaming: Option<RenamingBox>,
)
    requires may { MayFinish acks.old stems.old.stems epochs.old.epochs op.now }
    requires members { stems.old.members ≡ length acks.old.mine }
    requires renaming { renaming ≡ renaming_in op.now op.now.body }
    requires stem_room { 0 < slice_index stems.old.spare op.now.author }
    requires epoch_room { IsSome renaming → 0 < epochs.old.spare }
    ensures acks { acks.new ≡ acks_after acks.old op.now.author op.now.body }
    ensures stems { stems.new.stems ≡ stems_after stems.old.stems op.now.author op.now.seq op.now.body }
    ensures members { stems.new.members ≡ stems.old.members }
    ensures epochs { epochs.new.epochs ≡ epochs_after epochs.old.epochs op.now }
{
    stems.note(op.author, op.seq, &op.body);
    add_epoch(epochs, op, renaming);
    count(acks, op);
}

// Takes the operation that was put there after so many others off the log again, if there are none and every member has it at once. So
// the log of a member who is alone stays empty.
fn keep_unstable(log: &mut Log, count: usize, op: &Op, stable: &Vector)
    ensures log { (os : List OpSeen) → log.old ≡ os ++ op.now ∷ [] → count ≡ length os → log.new ≡ logged stable.now os op.now }
{
    if count == 0 && covers(stable, op.author, op.seq) {
        log.truncate(0);
    }
}

// Adds the epoch of a rename.
fn add_epoch(epochs: &mut Epochs, op: &Op, renaming: Option<RenamingBox>)
    requires may { IsSome renaming → MayRename epochs.old.epochs op.now (former_in op.now.body) }
    requires total { IsSome renaming → former_sum epochs.old.epochs.nodes + length (former_in op.now.body) < 2 ^ 64 }
    requires renaming { renaming ≡ renaming_in op.now op.now.body }
    requires room { IsSome renaming → 0 < epochs.old.spare }
    ensures epochs { epochs.new.epochs ≡ epochs_after epochs.old.epochs op.now }
{
    let Some(renaming) = renaming else {
        return;
    };
    epochs.add(op.author, op.seq, op.epoch, renaming.into_renaming());
}

// Counts the operation in its author's row, and marks the author of a leave.
fn count(acks: &mut Acks, op: &Op)
    requires member { op.now.author < length acks.old.mine }
    requires room { slice_index acks.old.mine op.now.author < 2 ^ 32 - 1 }
    ensures acks { acks.new ≡ acks_after acks.old op.now.author op.now.body }
{
    acks.raise(op.author);
    let Body::Leave = &op.body else {
        return;
    };
    acks.leave(op.author);
}
