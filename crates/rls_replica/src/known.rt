//! Which identifiers are known: what was found once needn't be looked for again.

ghost use Rattle.std.specs.Prelude.{◌≡◌, ◌+◌, ◌<◌, ◌≤◌, ◌⊎◌, ℕ, true, List, Some, IfOk, IfSome, IsTrue, length, map, slice_get};
ghost use Rattle.rls_ident.specs.declared.tuple.Tuple.{Tuple};
ghost use Rattle.rls_ident.specs.Lists.{IsIn};
ghost use Rattle.rls_runs.specs.Runs.{joined};
ghost use Rattle.rls_rename.specs.Tree.{is_kept, greatest, translate};
ghost use Rattle.rls_model.specs.Answers.{reason_of};
ghost use Rattle.rls_seen.specs.Over.{is_known_over, refusal_over};
ghost use Rattle.rls_replica.specs.Lookups.{AreTargets, AreKnown};
ghost use Rattle.rls_replica.specs.Known.{AllKnown, IsKnown, FrontKnown, KeepsKnown};
ghost use Rattle.rls_replica.specs.Unions.{Stands};

use crate::gone::add;
use crate::naming::Targets;
use crate::replica::Replica;
use crate::uniting::{below, put_part};
use rls_epoch::Epochs;
use rls_ident::{EpochName, Ident, Vector, rely};
use rls_model::Refusal;
use rls_ops::{Body, Op, covers};
use rls_runs::Runs;
use std::alloc::{AllocError, Global};

// From so many runs on in the first list, what is remembered is forgotten before more is.
const MOST_KNOWN: u64 = 4096;

/// Identifiers of the greatest epoch that are known, in a few lists: they are in the text, or an unstable deletion names them. But for
/// those that were lost since, as targets of deletions that were stable at once.
#[derive(Drop)]
pub(crate) struct Known {
    pub(crate) lists: Vec<Runs>,
    pub(crate) lost: Vec<Runs>,
}

impl Known {
    // How many identifiers of a list from a place on, within their run, are remembered in a row in one list, and weren't lost. It takes a
    // few searches in each list.
    fn count_from(&self, ids: &Runs, at: u64) -> Result<u64, AllocError>
        requires place { at < length ids.now }
        ensures within { IfOk result (λ n. at + n ≤ length ids.now) }
        ensures there { IfOk result (λ n. (k : ℕ) (x : List Tuple) → k < n → slice_get ids.now (at + k) ≡ Some x → IsIn x (joined self.now.lists.items)) }
        ensures clear { IfOk result (λ n. (k : ℕ) (x : List Tuple) → k < n → slice_get ids.now (at + k) ≡ Some x → IsIn x (joined self.now.lost.items) → ⊥) }
    {
        rely!(let _total = ids.total());
        let first = ids.get(at)?;
        let count = most_shared(&self.lists, &first, ids, at);
        let clear = least_clear(&self.lost, &first, ids, at, count)?;
        Ok(clear)
    }
}

// Whether lists have so many runs that they are to be forgotten. The first one has at least as many as all others together.
fn are_full(lists: &[Runs]) -> bool {
    match lists.first() {
        Some(ids) => ids.run_count() >= MOST_KNOWN,
        None => false,
    }
}

impl Replica {
    // How many targets from a place on are remembered as known in a row.
    pub(crate) fn remembered_from(&self, targets: &Targets<'_>) -> Result<u64, AllocError>
        requires targets { AreTargets self.now targets.now }
        ensures known { IfOk result (λ n. AreKnown self.now targets.now n) }
    {
        rely!(let _total = targets.ids.total());
        let Some(known) = &self.known else {
            return Ok(0);
        };
        let count = known.count_from(targets.images, targets.at)?;
        Ok(count)
    }

    // Remembers the targets before the one for which an operation is refused. If memory runs out, nothing is remembered any more.
    pub(crate) fn remember(&mut self, op: &Op, refusal: &Refusal)
        requires refused { refusal_over self.old op.now ≡ Some (reason_of refusal.now) }
        ensures same { self.new ≡ self.old }
    {
        let known = self.known.take();
        if let Ok(known) = self.with_refused(known, op, refusal) {
            self.known = known;
        }
    }

    // What is remembered, with the targets before the one for which an operation is refused. It costs a translation of these and a few
    // searches for each of their runs, times a logarithm.
    fn with_refused(
        &self,
        known: Option<Known>,
        op: &Op,
        refusal: &Refusal,
    ) -> Result<Option<Known>, AllocError>
        requires known { IfSome known (λ k. IsKnown self.now k) }
        requires refused { refusal_over self.now op.now ≡ Some (reason_of refusal.now) }
        ensures known { IfOk result (λ r. IfSome r (λ k. IsKnown self.now k)) }
    {
        let Body::Delete { targets } = &op.body else {
            return Ok(known);
        };
        let Refusal::UnknownTarget { id } = refusal else {
            return Ok(known);
        };
        rely!(let _total = targets.total());
        let Ok(place) = targets.find(id) else {
            return Ok(known);
        };
        if place == 0 {
            return Ok(known);
        }
        let known = self.with_known(known, op.epoch, targets, place)?;
        Ok(Some(known))
    }

    // What is remembered, with so many targets, the first ones, which are known.
    fn with_known(
        &self,
        known: Option<Known>,
        epoch: EpochName,
        targets: &Runs,
        count: u64,
    ) -> Result<Known, AllocError>
        requires known { IfSome known (λ k. IsKnown self.now k) }
        requires kept { IsTrue (is_kept self.now.epochs.top self.now.epochs.nodes epoch) }
        requires within { count ≤ length targets.now }
        requires front { FrontKnown self.now epoch targets.now count }
        ensures known { IfOk result (λ k. IsKnown self.now k) }
    {
        let front = front_of(self.alloc, targets, count)?;
        let ids = self.images_of_known(epoch, &front)?;
        let Known { mut lists, lost } = self.with_room(known);
        add(self.alloc, &mut lists, ids)?;
        Ok(Known { lists, lost })
    }

    // These identifiers, which are known, in the greatest epoch.
    fn images_of_known(&self, epoch: EpochName, ids: &Runs) -> Result<Runs, AllocError>
        requires kept { IsTrue (is_kept self.now.epochs.top self.now.epochs.nodes epoch) }
        requires known { (x : List Tuple) → IsIn x ids.now → is_known_over self.now epoch x ≡ true }
        ensures known { IfOk result (λ images. AllKnown self.now images) }
    {
        rely!(let _total = ids.total());
        let images = self
            .epochs
            .translate_runs(epoch, self.epochs.greatest(), ids)?;
        Ok(images)
    }

    // What is remembered, or nothing if there is no room for more.
    fn with_room(&self, known: Option<Known>) -> Known
        requires known { IfSome known (λ k. IsKnown self.now k) }
        ensures known { IsKnown self.now result }
    {
        match known {
            Some(known) if !are_full(&known.lists) => known,
            _ => Known {
                lists: Vec::new(self.alloc),
                lost: Vec::new(self.alloc),
            },
        }
    }
}

// What is remembered after an operation was accepted, where a vector tells what is stable by now. With an insertion nothing is lost, nor
// with a deletion that isn't stable at once, since it names its targets.
pub(crate) fn kept_known(
    alloc: Global,
    known: Option<Known>,
    epochs: &Epochs,
    op: &Op,
    stable: &Vector,
) -> Option<Known>
    ensures kept { IfSome result (λ k. (was : Known) × (known ≡ Some was) × KeepsKnown epochs.now.epochs stable.now op.now op.now.body was k) }
{
    let known = known?;
    match &op.body {
        Body::Insert { .. } => Some(known),
        Body::Delete { targets } => {
            if covers(stable, op.author, op.seq) {
                return without(alloc, known, epochs, op.epoch, targets);
            }
            Some(known)
        }
        Body::Rename { .. } | Body::Leave => None,
    }
}

// What is remembered, of which these targets are lost. Nothing, if memory runs out or so many were lost that all is to be forgotten.
fn without(
    alloc: Global,
    known: Known,
    epochs: &Epochs,
    epoch: EpochName,
    targets: &Runs,
) -> Option<Known>
    ensures lists { IfSome result (λ k. k.lists ≡ known.lists) }
    ensures lost { IfSome result (λ k. (x : List Tuple) → IsIn x (joined known.lost.items) ⊎ IsIn x (map (translate epochs.now.epochs.nodes epoch (greatest epochs.now.epochs.top epochs.now.epochs.nodes)) targets.now) → IsIn x (joined k.lost.items)) }
{
    rely!(let _total = targets.total());
    let Known { lists, mut lost } = known;
    if are_full(&lost) || !epochs.kept(epoch) {
        return None;
    }
    let Ok(ids) = epochs.translate_runs(epoch, epochs.greatest(), targets) else {
        return None;
    };
    match add(alloc, &mut lost, ids) {
        Ok(()) => Some(Known { lists, lost }),
        Err(_) => None,
    }
}

// How many identifiers of a list from a place on, of which the first is given, stand in one of these lists in a row, within their runs.
fn most_shared(lists: &[Runs], first: &Ident, ids: &Runs, at: u64) -> u64
    requires place { at < length ids.now }
    requires first { slice_get ids.now at ≡ Some first.now }
    ensures within { at + result ≤ length ids.now }
    ensures there { (k : ℕ) (x : List Tuple) → k < result → slice_get ids.now (at + k) ≡ Some x → IsIn x (joined lists.now) }
{
    let mut most = 0;
    for list in lists {
        let count = shared_from(list, first, ids, at);
        if count > most {
            most = count;
        }
    }
    most
}

// How many identifiers of a list from a place on, of which the first is given, are in none of these lists, at most so many.
fn least_clear(
    lists: &[Runs],
    first: &Ident,
    ids: &Runs,
    at: u64,
    count: u64,
) -> Result<u64, AllocError>
    requires place { at < length ids.now }
    requires first { slice_get ids.now at ≡ Some first.now }
    ensures within { IfOk result (λ n. n ≤ count) }
    ensures clear { IfOk result (λ n. (k : ℕ) (x : List Tuple) → k < n → slice_get ids.now (at + k) ≡ Some x → IsIn x (joined lists.now) → ⊥) }
{
    let mut least = count;
    for list in lists {
        let clear = clear_from(list, first, ids, at)?;
        if clear < least {
            least = clear;
        }
    }
    Ok(least)
}

// How many identifiers of a list from a place on, of which the first is given, are less than the next one that another list has.
fn clear_from(list: &Runs, first: &Ident, ids: &Runs, at: u64) -> Result<u64, AllocError>
    requires place { at < length ids.now }
    requires first { slice_get ids.now at ≡ Some first.now }
    ensures clear { IfOk result (λ n. (k : ℕ) (x : List Tuple) → k < n → slice_get ids.now (at + k) ≡ Some x → IsIn x list.now → ⊥) }
{
    rely!(let (_list, _ids) = (list.total(), ids.total()));
    let end = below(ids, list, list.count_below(first))?;
    Ok(end.saturating_sub(at))
}

// How many identifiers of a list from a place on, of which the first is given, stand in another list in a row, within their runs.
fn shared_from(list: &Runs, first: &Ident, ids: &Runs, at: u64) -> u64
    requires place { at < length ids.now }
    requires first { slice_get ids.now at ≡ Some first.now }
    ensures within { at + result ≤ length ids.now }
    ensures there { (k : ℕ) (x : List Tuple) → k < result → slice_get ids.now (at + k) ≡ Some x → IsIn x list.now }
{
    rely!(let _total = list.total());
    match list.find(first) {
        Ok(i) => ids.count_common(at, list, i),
        Err(_) => 0,
    }
}

// So many identifiers of a list, the first ones.
fn front_of(alloc: Global, ids: &Runs, count: u64) -> Result<Runs, AllocError>
    requires within { count ≤ length ids.now }
    ensures front { IfOk result (λ front. (x : List Tuple) → IsIn x front → Stands ids.now 0 count x) }
{
    rely!(let _total = ids.total());
    let mut front = Runs::new(alloc);
    let mut at = 0;
    while at < count {
        at = put_part(&mut front, ids, at, count)?;
    }
    Ok(front)
}
