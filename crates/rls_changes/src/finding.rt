//! What an operation would change, looked for before it is accepted.

ghost use Rattle.std.specs.Prelude.{◌≡◌, ◌+◌, ◌-◌, ◌<◌, ◌≤◌, List, [], length, map, take, drop, zip, slice_get, Some, None, Ok, Err, IfOk, IsTrue, IsFalse, true};
ghost use Rattle.rls_ident.specs.declared.limits.TheConstants.{CHARACTERS};
ghost use Rattle.rls_ident.specs.declared.tuple.Tuple.{Tuple};
ghost use Rattle.rls_ops.specs.Shapes.{shape_fault};
ghost use Rattle.rls_runs.specs.Places.{below_count};
ghost use Rattle.rls_runs.specs.Runs.{place_of, run_idents};
ghost use Rattle.rls_seen.specs.Over.{placed_over};
ghost use Rattle.rls_seen.specs.Sane.{MayApply};
ghost use Rattle.rls_seen.specs.Seen.{Seen, idents_over, members};
ghost use Rattle.rls_replica.specs.Names.{keeps};
ghost use Rattle.rls_changes.specs.Changes.{changes_over, changes_by, cuts, puts, with_changes};
ghost use Rattle.rls_changes.specs.Places.{AreAt, AreMissing};
ghost use Rattle.rls_ops.specs.declared.op.Body.TheVariants as body;

use crate::change::{Change, push_deletion, push_insertion};
use rls_blocks::part_of_text;
use rls_doc::Document;
use rls_ident::{EpochName, Ident, rely};
use rls_ops::{Body, Op};
use rls_replica::Replica;
use rls_runs::{Run, Runs, Text};
use std::alloc::{AllocError, Global};

/// What accepting an operation changes.
///
/// It costs about what accepting it costs: the translation of its identifiers, and a few ways down the tree for each stretch of
/// characters that goes in between two neighbours, or of targets that are adjacent in the text or gone.
#[tactic(auto, unfolding(crate::specs::Changes::changes_over))]
pub(crate) fn changes_of(
    alloc: Global,
    replica: &Replica,
    op: &Op,
) -> Result<Vec<Change>, AllocError>
    requires may { MayApply replica.now op.now }
    ensures changes { IfOk result (λ changes. changes.items ≡ changes_over replica.now op.now) }
{
    rely!(replica.sane());
    match &op.body {
        Body::Insert { first, text } => {
            let changes = inserting(alloc, replica, op.epoch, first, text)?;
            Ok(changes)
        }
        Body::Delete { targets } => {
            let changes = deleting(alloc, replica, op.epoch, targets)?;
            Ok(changes)
        }
        Body::Rename { .. } => Ok(Vec::new(alloc)),
        Body::Leave => Ok(Vec::new(alloc)),
    }
}

// An insertion of these characters.
fn inserting(
    alloc: Global,
    replica: &Replica,
    epoch: EpochName,
    first: &Ident,
    text: &Text,
) -> Result<Vec<Change>, AllocError>
    requires few { length text.now ≤ CHARACTERS }
    requires kept { IsTrue (keeps replica.now epoch) }
    ensures changes { IfOk result (λ changes. changes.items ≡ changes_by (placed_over replica.now) (idents_over replica.now) epoch (body.Insert first.now text.now)) }
{
    let ids = run_of(alloc, first, text.len() as u32)?;
    let Ok(there) = replica.to_greatest(epoch, &ids) else {
        return Err(AllocError);
    };
    let changes = pieces(alloc, replica, &there, text)?;
    Ok(changes)
}

// The identifiers from this one on, so many. There is none for a run that isn't one.
fn run_of(alloc: Global, first: &Ident, len: u32) -> Result<Runs, AllocError>
    ensures runs { IfOk result (λ ids. ids ≡ run_idents first.now len) }
{
    let Ok(run) = Run::new(first.copy()?, len) else {
        return Err(AllocError);
    };
    let ids = Runs::from_run(alloc, run)?;
    Ok(ids)
}

// A deletion of these targets.
fn deleting(
    alloc: Global,
    replica: &Replica,
    epoch: EpochName,
    targets: &Runs,
) -> Result<Vec<Change>, AllocError>
    requires kept { IsTrue (keeps replica.now epoch) }
    ensures changes { IfOk result (λ changes. changes.items ≡ changes_by (placed_over replica.now) (idents_over replica.now) epoch (body.Delete targets.now)) }
{
    let Ok(there) = replica.to_greatest(epoch, targets) else {
        return Err(AllocError);
    };
    let changes = stretches(alloc, replica, &there)?;
    Ok(changes)
}

// ---- insertions

// The characters with these identifiers of the greatest epoch, put in.
fn pieces(
    alloc: Global,
    replica: &Replica,
    ids: &Runs,
    text: &Text,
) -> Result<Vec<Change>, AllocError>
    requires as_many { length ids.now ≡ length text.now }
    requires few { length text.now ≤ CHARACTERS }
    ensures changes { IfOk result (λ changes. changes.items ≡ with_changes [] (puts 0 (idents_over replica.now) (zip ids.now text.now))) }
{
    let total = ids.total();
    let mut changes = Vec::new(alloc);
    let mut at = 0;
    'pieces: while at < total {
        at = put_next(replica, ids, text, at, &mut changes)?;
    }
    Ok(changes)
}

// One piece more, and the place after it.
fn put_next(
    replica: &Replica,
    ids: &Runs,
    text: &Text,
    at: u64,
    changes: &mut Vec<Change>,
) -> Result<u64, AllocError>
    requires as_many { length ids.now ≡ length text.now }
    requires few { length text.now ≤ CHARACTERS }
    requires place { at < length ids.now }
    requires so_far { changes.old.items ≡ with_changes [] (puts 0 (idents_over replica.now) (take at (zip ids.now text.now))) }
    ensures later { IfOk result (λ end. at < end) }
    ensures within { IfOk result (λ end. end ≤ length ids.now) }
    ensures so_far { IfOk result (λ end. changes.new.items ≡ with_changes [] (puts 0 (idents_over replica.now) (take end (zip ids.now text.now)))) }
{
    rely!(replica.sane());
    let id = ids.get(at)?;
    let place = replica.count_below(&id);
    let end = end_of_gap(replica, ids, at, &id, place)?;
    let alloc = *changes.allocator();
    let piece = part_of_text(alloc, text, at as usize, (end - at) as usize)?;
    push_insertion(changes, place + at, piece)?;
    Ok(end)
}

// The place after those of the identifiers, from one on, that go in between the same two neighbours of the text.
fn end_of_gap(
    replica: &Replica,
    ids: &Runs,
    at: u64,
    id: &Ident,
    place: u64,
) -> Result<u64, AllocError>
    requires there { slice_get ids.now at ≡ Some id.now }
    requires place { below_count (idents_over replica.now) id.now ≡ place }
    requires within { place ≤ length (idents_over replica.now) }
    ensures later { IfOk result (λ end. at < end) }
    ensures within { IfOk result (λ end. end ≤ length ids.now) }
    ensures same { IfOk result (λ end. AreAt place (idents_over replica.now) (take (end - at) (drop at ids.now))) }
{
    rely!(replica.sane());
    let total = ids.total();
    if place == replica.total() {
        return Ok(total);
    }
    let limit = replica.ident_at(place)?;
    let behind = ids.count_below(&limit);
    Ok(behind.max(at + 1))
}

// ---- deletions

// The characters with these identifiers of the greatest epoch, taken out, as far as they are there.
fn stretches(alloc: Global, replica: &Replica, targets: &Runs) -> Result<Vec<Change>, AllocError>
    ensures changes { IfOk result (λ changes. changes.items ≡ with_changes [] (cuts 0 targets.now (idents_over replica.now))) }
{
    let total = targets.total();
    let mut changes = Vec::new(alloc);
    let mut at = 0;
    let mut gone = 0;
    'stretches: while at < total {
        let (end, cut) = cut_next(replica, targets, at, gone, &mut changes)?;
        at = end;
        gone = cut;
    }
    Ok(changes)
}

// One stretch more, of targets that stand one right behind another or of such that are gone: the place after it, and how many characters
// are taken out so far.
fn cut_next(
    replica: &Replica,
    targets: &Runs,
    at: u64,
    gone: u64,
    changes: &mut Vec<Change>,
) -> Result<(u64, u64), AllocError>
    requires place { at < length targets.now }
    requires so_far { changes.old.items ≡ with_changes [] (cuts 0 (take at targets.now) (idents_over replica.now)) }
    requires gone { gone ≡ length (cuts 0 (take at targets.now) (idents_over replica.now)) }
    ensures later { IfOk result (λ r. at < r.0) }
    ensures within { IfOk result (λ r. r.0 ≤ length targets.now) }
    ensures so_far { IfOk result (λ r. changes.new.items ≡ with_changes [] (cuts 0 (take r.0 targets.now) (idents_over replica.now))) }
    ensures gone { IfOk result (λ r. r.1 ≡ length (cuts 0 (take r.0 targets.now) (idents_over replica.now))) }
{
    rely!(replica.sane());
    rely!(let _total = targets.total());
    let id = targets.get(at)?;
    match replica.find(&id) {
        Ok(place) => {
            let count = stretch(replica, targets, at, place)?;
            push_deletion(changes, place - gone, count)?;
            Ok((at + count, gone + count))
        }
        Err(place) => {
            let end = end_of_missing(replica, targets, at, &id, place)?;
            Ok((end, gone))
        }
    }
}

// How many targets from one on stand one right behind another in the text, as far as that is seen at once.
fn stretch(replica: &Replica, targets: &Runs, at: u64, place: u64) -> Result<u64, AllocError>
    requires at { at < length targets.now }
    requires place { place < length (idents_over replica.now) }
    requires there { slice_get targets.now at ≡ slice_get (idents_over replica.now) place }
    ensures some { IfOk result (λ n. 0 < n) }
    ensures within { IfOk result (λ n. at + n ≤ length targets.now) }
    ensures room { IfOk result (λ n. place + n ≤ length (idents_over replica.now)) }
    ensures same { IfOk result (λ n. take n (drop at targets.now) ≡ take n (drop place (idents_over replica.now))) }
{
    let (run, from) = targets.locate(at);
    let standing = replica.tree().standing(run, from)? as u64;
    let most = standing.max(1).min(replica.total() - place);
    let there = replica.tree().runs_of(place, most)?;
    let count = targets.count_common(at, &there, 0);
    Ok(count)
}

// The place after those of the targets, from one that isn't in the text on, that go in front of the same identifier of the text.
fn end_of_missing(
    replica: &Replica,
    targets: &Runs,
    at: u64,
    id: &Ident,
    place: u64,
) -> Result<u64, AllocError>
    requires there { slice_get targets.now at ≡ Some id.now }
    requires missing { place_of id.now (idents_over replica.now) ≡ Err place }
    ensures later { IfOk result (λ end. at < end) }
    ensures within { IfOk result (λ end. end ≤ length targets.now) }
    ensures missing { IfOk result (λ end. AreMissing (take (end - at) (drop at targets.now)) (idents_over replica.now)) }
{
    rely!(replica.sane());
    let total = targets.total();
    if place >= replica.total() {
        return Ok(total);
    }
    let limit = replica.ident_at(place)?;
    let end = targets.count_below(&limit);
    Ok(end)
}
