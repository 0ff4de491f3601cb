//! Entries at the greatest epoch. What somebody types leaves many entries, whose identifiers go on with one another. So these are translated
//! as one run, and each entry gets its part.

ghost use Rattle.std.specs.Prelude.{◌≡◌, ◌<◌, ◌≤◌, ◌+◌, List, length, map, IfOk, IfSome};
ghost use Rattle.rls_ident.specs.declared.tuple.Tuple.{Tuple};
ghost use Rattle.rls_runs.specs.Runs.{run_idents};
ghost use Rattle.rls_seen.specs.Over.{placed_over};
ghost use Rattle.rls_undo.specs.Translations.{IsKnown, IsRight, LiesAt};
ghost use Rattle.rls_undo.specs.Undoing.{settled_over};

use crate::entry::Entry;
use crate::kept::{KeptEntries, only_run};
use rls_ident::{EpochName, Ident, rely};
use rls_replica::Replica;
use rls_runs::{Run, Runs};
use std::alloc::{AllocError, Global};

// A run of identifiers of an epoch, and where these are in the greatest one.
#[derive(Drop)]
struct Translation {
    epoch: EpochName,
    run: Run,
    there: Runs,
}

impl Translation {
    // The place of a run of an epoch in this one, if it lies in it.
    fn place(&self, epoch: EpochName, run: &Run) -> Option<u32>
        ensures epoch { IfSome result (λ place. epoch ≡ self.now.epoch) }
        ensures lies { IfSome result (λ place. LiesAt self.now.run run.now.0 run.now.1 place) }
    {
        if !epoch.same(&self.epoch) {
            return None;
        }
        let Ok(place) = self.run.find(run.first()) else {
            return None;
        };
        if self.run.len() - place < run.len() {
            return None;
        }
        Some(place)
    }

    // Where so many identifiers from a place on are, if they are one run there, too.
    fn part(&self, replica: &Replica, place: u32, len: u32) -> Result<Option<Run>, AllocError>
        requires right { IsRight replica.now self.now }
        requires some { 0 < len }
        requires within { place + len ≤ self.now.run.1 }
        ensures part { IfOk result (λ part. IfSome part (λ r. (x : List Tuple) → LiesAt self.now.run x len place → run_idents r.0 r.1 ≡ map (placed_over replica.now self.now.epoch) (run_idents x len))) }
    {
        let (run, from) = self.there.locate(place as u64);
        if run.len() - from < len {
            return Ok(None);
        }
        let part = run.part(from, len)?;
        Ok(Some(part))
    }
}

/// The entries at the greatest epoch, where their own are kept.
pub(crate) fn settled(replica: &Replica, entries: &KeptEntries) -> Result<KeptEntries, AllocError>
    ensures settled { IfOk result (λ there. there ≡ map (settled_over replica.now) entries.now) }
{
    let alloc = entries.alloc();
    let mut there = KeptEntries::new(alloc);
    let mut known = None;
    for i in 0..entries.len() {
        known = translation_for(alloc, replica, entries, i, known)?;
        let entry = entries.get(i)?;
        there.push(settled_entry(alloc, replica, entry, &known)?)?;
    }
    Ok(there)
}

// One entry.
fn settled_entry(
    alloc: Global,
    replica: &Replica,
    entry: Entry,
    known: &Option<Translation>,
) -> Result<Entry, AllocError>
    requires known { IsKnown replica.now known.now }
    ensures settled { IfOk result (λ e. e ≡ settled_over replica.now entry) }
{
    let greatest = replica.greatest();
    match entry {
        Entry::Inserted { epoch, ids } => {
            let ids = ids_there(alloc, replica, known, epoch, &ids)?;
            Ok(Entry::Inserted {
                epoch: greatest,
                ids,
            })
        }
        Entry::Removed { epoch, first, text } => {
            let first = ident_there(replica, known, epoch, &first)?;
            Ok(Entry::Removed {
                epoch: greatest,
                first,
                text,
            })
        }
    }
}

// Identifiers of an epoch in the greatest one.
fn ids_there(
    alloc: Global,
    replica: &Replica,
    known: &Option<Translation>,
    epoch: EpochName,
    ids: &Runs,
) -> Result<Runs, AllocError>
    requires known { IsKnown replica.now known.now }
    ensures there { IfOk result (λ xs. xs ≡ map (placed_over replica.now epoch) ids.now) }
{
    if let Some(run) = only_run(ids)
        && let Some(part) = part_known(replica, known, epoch, run)?
    {
        return Runs::from_run(alloc, part);
    }
    match replica.to_greatest(epoch, ids) {
        Err(_) => Err(AllocError),
        Ok(there) => Ok(there),
    }
}

// An identifier of an epoch in the greatest one.
fn ident_there(
    replica: &Replica,
    known: &Option<Translation>,
    epoch: EpochName,
    id: &Ident,
) -> Result<Ident, AllocError>
    requires known { IsKnown replica.now known.now }
    ensures there { IfOk result (λ x. x ≡ placed_over replica.now epoch id.now) }
{
    if let Ok(run) = Run::new(id.copy()?, 1)
        && let Some(part) = part_known(replica, known, epoch, &run)?
    {
        let there = part.first().copy()?;
        return Ok(there);
    }
    match replica.ident_to_greatest(epoch, id) {
        Err(_) => Err(AllocError),
        Ok(there) => Ok(there),
    }
}

// Where a run of an epoch is in the greatest one, if it lies in a known run and is one run there, too.
fn part_known(
    replica: &Replica,
    known: &Option<Translation>,
    epoch: EpochName,
    run: &Run,
) -> Result<Option<Run>, AllocError>
    requires known { IsKnown replica.now known.now }
    ensures part { IfOk result (λ part. IfSome part (λ r. run_idents r.0 r.1 ≡ map (placed_over replica.now epoch) (run_idents run.now.0 run.now.1))) }
{
    let Some(translation) = known else {
        return Ok(None);
    };
    let Some(place) = translation.place(epoch, run) else {
        return Ok(None);
    };
    translation.part(replica, place, run.len())
}

// ---- runs that are translated

// The known translation, if it holds the identifiers of this entry; else a new one, of these and of those of the entries after it.
fn translation_for(
    alloc: Global,
    replica: &Replica,
    entries: &KeptEntries,
    at: usize,
    known: Option<Translation>,
) -> Result<Option<Translation>, AllocError>
    requires at { at < length entries.now }
    requires known { IsKnown replica.now known }
    ensures known { IfOk result (λ known. IsKnown replica.now known) }
{
    rely!(let _len = entries.len());
    let Some(run) = entries.run(at)? else {
        return Ok(known);
    };
    let epoch = entries.epoch(at);
    if is_held(&known, epoch, &run) {
        return Ok(known);
    }
    let whole = with_next(run, epoch, entries, at + 1)?;
    let next = translated(alloc, replica, epoch, whole)?;
    Ok(Some(next))
}

// The translation of a run.
fn translated(
    alloc: Global,
    replica: &Replica,
    epoch: EpochName,
    run: Run,
) -> Result<Translation, AllocError>
    ensures right { IfOk result (λ translation. IsRight replica.now translation) }
{
    let ids = Runs::from_run(alloc, run.copy()?)?;
    match replica.to_greatest(epoch, &ids) {
        Err(_) => Err(AllocError),
        Ok(there) => Ok(Translation { epoch, run, there }),
    }
}

// Whether a run of an epoch lies in the known one.
fn is_held(known: &Option<Translation>, epoch: EpochName, run: &Run) -> bool {
    match known {
        None => false,
        Some(translation) => translation.place(epoch, run).is_some(),
    }
}

// A run of an epoch, and those of the entries from a place on, as far as these are of that epoch and lie in it or go on with it at one of its ends.
fn with_next(
    run: Run,
    epoch: EpochName,
    entries: &KeptEntries,
    from: usize,
) -> Result<Run, AllocError> {
    let mut whole = run;
    for at in from..entries.len() {
        let Some(longer) = with_entry(&whole, epoch, entries, at)? else {
            return Ok(whole);
        };
        whole = longer;
    }
    Ok(whole)
}

// A run and that of an entry as one, if they are.
fn with_entry(
    run: &Run,
    epoch: EpochName,
    entries: &KeptEntries,
    at: usize,
) -> Result<Option<Run>, AllocError>
    requires at { at < length entries.now }
{
    if !epoch.same(&entries.epoch(at)) {
        return Ok(None);
    }
    match entries.run(at)? {
        None => Ok(None),
        Some(next) => with_run(run, &next),
    }
}

fn with_run(run: &Run, next: &Run) -> Result<Option<Run>, AllocError> {
    if run.find(next.first()).is_ok() {
        return some_of(run.copy());
    }
    let Some(len) = run.len().checked_add(next.len()) else {
        return Ok(None);
    };
    if run.touches(next.first()) {
        return run_if(run.first().copy()?, len);
    }
    if next.touches(run.first()) {
        return run_if(next.first().copy()?, len);
    }
    Ok(None)
}

// The run from this identifier on, unless its offsets pass the greatest one.
fn run_if(first: Ident, len: u32) -> Result<Option<Run>, AllocError> {
    match Run::new(first, len) {
        Ok(run) => Ok(Some(run)),
        Err(_) => Ok(None),
    }
}

fn some_of(run: Result<Run, AllocError>) -> Result<Option<Run>, AllocError> {
    let run = run?;
    Ok(Some(run))
}
