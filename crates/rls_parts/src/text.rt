//! The text.

ghost use Rattle.std.specs.Prelude.{◌≡◌, pos, drop, [], None, IfOk, IsTrue};
ghost use Rattle.std.specs.List.{list_all};
ghost use Rattle.rls_ident.specs.declared.epoch_name.EpochName.{EpochName};
ghost use Rattle.rls_ident.specs.Identifiers.{last_of};
ghost use Rattle.rls_ident.specs.Lists.{IsIn};
ghost use Rattle.rls_rename.specs.Tree.{is_kept};
ghost use Rattle.rls_runs.specs.Runs.{run_idents, idents_of};
ghost use Rattle.rls_model.specs.declared.parts.Parts.{Parts as PartsSeen};
ghost use Rattle.rls_parts.specs.Given.{AreGiven};
ghost use Rattle.rls_parts.specs.Reading.{epochs_of, in_epoch, names_of};
ghost use Rattle.rls_parts.specs.Used.{covers, covers_new, is_used_renaming};
ghost use Rattle.rls_parts.specs.Rules.{epoch_fault, is_used_tuple, is_text_of, text_fault};

use crate::StemTable;
use rls_epoch::Epochs;
use rls_ident::{EpochName, Spot, rely};
use rls_model::{EpochPart, Parts, Stem, TextRun};
use rls_runs::{Run, Runs};
use std::alloc::{AllocError, Global};

// Whether the last tuple of each identifier of the run was used.
fn is_used_run(stems: &StemTable, run: &Run) -> bool
    ensures used { (p : PartsSeen) → p.stems ≡ stems.now.stems → result ≡ list_all (λ x. is_used_tuple p (last_of x)) (run_idents run.now.0 run.now.1) }
{
    let last = run.first().last();
    let len = run.len();
    covers(stems.get(last.replica, last.seq), last, len)
}

// Whether so many offsets from this tuple's on were used.
fn covers(stem: Option<Stem>, last: Spot, len: u32) -> bool
    ensures covers { result ≡ covers stem last.offset len }
{
    match stem {
        None => false,
        Some(stem) => {
            stem.low <= last.offset && last.offset as i64 + len as i64 <= stem.next as i64
        }
    }
}

// The same for each of these identifiers.
fn are_used(stems: &StemTable, ids: &Runs) -> bool
    ensures used { (p : PartsSeen) → p.stems ≡ stems.now.stems → result ≡ list_all (λ x. is_used_tuple p (last_of x)) ids.now }
{
    are_used_runs(stems, ids.as_slice())
}

// The same for each of these runs.
fn are_used_runs(stems: &StemTable, runs: &[Run]) -> bool
    ensures used { (p : PartsSeen) → p.stems ≡ stems.now.stems → result ≡ list_all (λ x. is_used_tuple p (last_of x)) (idents_of runs.now) }
{
    for i in 0..runs.len() {
        if !is_used_run(stems, &runs[i]) {
            return false;
        }
    }
    true
}

// Whether the first n offsets of a stem, from 0 on, were used.
fn covers_first(stem: Option<Stem>, count: u64) -> bool
    ensures covers { result ≡ covers stem (pos 0) count }
{
    match stem {
        None => false,
        Some(stem) => stem.low <= 0 && count <= stem.next as u64,
    }
}

// Whether the last tuples of the first n new identifiers of an epoch's renaming were used.
fn covers_new(stems: &StemTable, name: EpochName, count: u64) -> bool
    ensures covers { result ≡ covers_new stems.now.stems name count }
{
    match name {
        EpochName::Origin => false,
        EpochName::Of { replica, seq } => covers_first(stems.get(replica, seq), count),
    }
}

// Whether the last tuple of each former and of each new identifier of an epoch's renaming was used.
fn is_used_renaming(stems: &StemTable, epoch: &EpochPart) -> bool
    ensures used { (p : PartsSeen) → p.stems ≡ stems.now.stems → result ≡ is_used_renaming p epoch.now }
{
    covers_new(stems, epoch.name, epoch.former.total()) && are_used(stems, &epoch.former)
}

// The same for each of these epochs but the first, which is kept without its renaming.
fn are_used_renamings(stems: &StemTable, list: &[EpochPart]) -> bool
    ensures used { (p : PartsSeen) → p.stems ≡ stems.now.stems → result ≡ list_all (is_used_renaming p) (drop 1 list.now) }
{
    for i in 1..list.len() {
        if !is_used_renaming(stems, &list[i]) {
            return false;
        }
    }
    true
}

// Whether in each of these epochs the last tuple of each of these identifiers, which are of the greatest epoch, was used. It goes
// from the last of these epochs to the first, from each to the one before it. Since they stand in the order of their paths, these ways
// have no more than two steps for each epoch in all.
fn are_used_everywhere(
    stems: &StemTable,
    epochs: &Epochs,
    list: &[EpochPart],
    ids: Runs,
) -> Result<bool, AllocError>
    requires kept { (f : EpochName) → IsIn f (names_of list.now) → IsTrue (is_kept epochs.now.epochs.top epochs.now.epochs.nodes f) }
    ensures used { (p : PartsSeen) → p.stems ≡ stems.now.stems → epochs_of p ≡ epochs.now.epochs
        → IfOk result (λ b. b ≡ list_all (λ f. list_all (λ x. is_used_tuple p (last_of (in_epoch p f x))) ids) (names_of list.now)) }
{
    rely!(let (_count, _total) = (epochs.count(), ids.total()));
    let (mut here, mut images, mut left) = (epochs.greatest(), ids, list.len());
    while 0 < left {
        left -= 1;
        let name = list[left].name;
        images = epochs.translate_runs(here, name, &images)?;
        here = name;
        if !are_used(stems, &images) {
            return Ok(false);
        }
    }
    Ok(true)
}

// Whether in each epoch of the list the last tuple of each identifier of the run was used. A renaming changes the last tuples of its
// former identifiers alone, to those of its new ones. So if all of these were used, what was used in the greatest epoch was used in
// every epoch, and nothing has to be renamed.
fn is_text_of(
    alloc: Global,
    parts: &Parts,
    stems: &StemTable,
    epochs: &Epochs,
    run: &TextRun,
    are_all_used: bool,
) -> Result<bool, AllocError>
    requires given { AreGiven parts.now }
    requires stems_are { stems.now.stems ≡ parts.now.stems }
    requires epochs_are { epochs.now.epochs ≡ epochs_of parts.now }
    requires rule { epoch_fault parts.now [] parts.now.epochs ≡ None }
    requires all { are_all_used ≡ list_all (is_used_renaming parts.now) (drop 1 parts.now.epochs) }
    ensures used { IfOk result (λ b. b ≡ is_text_of parts.now run.now) }
{
    rely!(let (_count, _len) = (epochs.count(), run.run.len()));
    if are_all_used {
        return Ok(is_used_run(stems, &run.run));
    }
    let ids = Runs::from_run(alloc, run.run.copy()?)?;
    are_used_everywhere(stems, epochs, parts.epochs.as_slice(), ids)
}

/// Rule 4: the place of the first run of which some identifier has, in some epoch of the list, a last tuple that wasn't used. It costs
/// a search among the stems of one author for each run of the text and each former run. Only if some former identifier has a last tuple
/// that wasn't used, as after a rename of identifiers that nobody inserted, each run of the text is also renamed from each epoch of the
/// list to the one before it, which are at most two steps for each epoch.
pub fn text_fault(
    alloc: Global,
    parts: &Parts,
    stems: &StemTable,
    epochs: &Epochs,
) -> Result<Option<u64>, AllocError>
    requires given { AreGiven parts.now }
    requires stems_are { stems.now.stems ≡ parts.now.stems }
    requires epochs_are { epochs.now.epochs ≡ epochs_of parts.now }
    requires rule { epoch_fault parts.now [] parts.now.epochs ≡ None }
    ensures fault { IfOk result (λ fault. fault ≡ text_fault parts.now 0 parts.now.text) }
{
    let are_all_used = are_used_renamings(stems, parts.epochs.as_slice());
    let runs = parts.text.as_slice();
    for i in 0..runs.len() {
        if !is_text_of(alloc, parts, stems, epochs, &runs[i], are_all_used)? {
            return Ok(Some(i as u64));
        }
    }
    Ok(None)
}
