//! Which targets unstable deletions name, run by run.

ghost use Rattle.std.specs.Prelude.{◌≡◌, ℕ, pos, List, ◌+◌, ◌<◌, ◌≤◌, ◌&&◌, not, false, true, Some, IfOk, IfSome, IfNone, IsTrue, length, slice_get};
ghost use Rattle.rls_ident.specs.declared.tuple.Tuple.{Tuple};
ghost use Rattle.rls_ident.specs.Identifiers.{shifted};
ghost use Rattle.rls_ident.specs.Lists.{IsIn};
ghost use Rattle.rls_rename.specs.Tree.{is_kept};
ghost use Rattle.rls_ops.specs.declared.op.Op.{Op as OpSeen};
ghost use Rattle.rls_ops.specs.Rows.{is_covered};
ghost use Rattle.rls_seen.specs.Seen.{stable_over};
ghost use Rattle.rls_seen.specs.Over.{is_known_over};
ghost use Rattle.rls_replica.specs.Gone.{AreNamed, NamesNothing};
ghost use Rattle.rls_replica.specs.Lookups.{is_named_by, is_named_over, AreTargets, AreKnown};

use crate::hints::{Hint, Hints, Namings, note};
use crate::replica::Replica;
use rls_ident::{EpochName, Ident, Spot, rely};
use rls_log::OpKind;
use rls_ops::{Body, Op, covers};
use rls_runs::Runs;
use std::alloc::{AllocError, Global};

/// Targets of a deletion from a place on: identifiers of an epoch, and what these are in the greatest one.
#[derive(Clone, Copy)]
pub(crate) struct Targets<'a> {
    pub(crate) epoch: EpochName,
    pub(crate) ids: &'a Runs,
    pub(crate) images: &'a Runs,
    pub(crate) at: u64,
}

impl Replica {
    // How many targets from a place on unstable deletions are found to name at once: none exactly where none names the first one.
    pub(crate) fn named_from(&self, targets: &Targets<'_>) -> Result<u64, AllocError>
        requires targets { AreTargets self.now targets.now }
        ensures known { IfOk result (λ n. AreKnown self.now targets.now n) }
        ensures none { IfOk result (λ n. n ≡ 0 → (x : List Tuple) → slice_get targets.now.ids.now targets.now.at ≡ Some x → is_named_over self.now targets.now.epoch x self.now.log ≡ false) }
    {
        let target = targets.ids.get(targets.at)?;
        let hinted = self.hinted_from(targets, &target)?;
        if hinted > 0 {
            return Ok(hinted);
        }
        if self.is_named(targets.epoch, &target)? {
            return Ok(1);
        }
        Ok(0)
    }

    // How many targets from a place on, of which the first is given, the deletion names at which a hint points.
    fn hinted_from(&self, targets: &Targets<'_>, target: &Ident) -> Result<u64, AllocError>
        requires targets { AreTargets self.now targets.now }
        ensures known { IfOk result (λ n. AreKnown self.now targets.now n) }
    {
        let Some(hint) = self.hint(targets.epoch, target)? else {
            return Ok(0);
        };
        self.names_run(hint, targets)
    }

    // Which unstable operation of the log the hints tell for a target.
    fn hint(&self, epoch: EpochName, target: &Ident) -> Result<Option<Hint>, AllocError>
        requires kept { IsTrue (is_kept self.now.epochs.top self.now.epochs.nodes epoch) }
        ensures within { IfOk result (λ found. IfSome found (λ hint. hint.place < length self.now.log)) }
    {
        let hints = self.hints_up_to_date(epoch)?;
        let there = self.epochs.translate(epoch, hints.epoch, target)?;
        let found = self.longest(&hints.namings, there.last());
        self.hints.set(Some(hints));
        Ok(found)
    }

    // Of the unstable deletions that name the identifier that ends so, each the last one of its author, that which names most from
    // there on. Those that are stable by now are passed over, so nothing is made anew for their sake.
    fn longest(&self, namings: &[Namings], last: Spot) -> Option<Hint>
        ensures within { IfSome result (λ hint. hint.place < length self.now.log) }
    {
        let mut longest = None;
        for of_author in namings {
            longest = self.longer(longest, of_author.find(last));
        }
        longest
    }

    // The longer one of two hints, of which the second one counts only if it tells an unstable operation.
    fn longer(&self, one: Option<Hint>, other: Option<Hint>) -> Option<Hint>
        requires within { IfSome one (λ hint. hint.place < length self.now.log) }
        ensures within { IfSome result (λ hint. hint.place < length self.now.log) }
    {
        let Some(hint) = other else {
            return one;
        };
        if hint.place >= self.log.len() {
            return one;
        }
        if self.log.head(hint.place).is_covered(self.acks.stable()) {
            return one;
        }
        match one {
            Some(before) if before.count >= hint.count => Some(before),
            _ => Some(hint),
        }
    }

    // The hints, taken out, with the operations that were accepted since. Where there are none they are in this epoch.
    fn hints_up_to_date(&self, epoch: EpochName) -> Result<Hints, AllocError>
        requires kept { IsTrue (is_kept self.now.epochs.top self.now.epochs.nodes epoch) }
        ensures kept { IfOk result (λ hints. IsTrue (is_kept self.now.epochs.top self.now.epochs.nodes hints.epoch)) }
    {
        let Hints {
            epoch: to,
            noted,
            mut namings,
        } = self.hints_taken(epoch);
        for i in noted..self.log.len() {
            let Some(op) = self.logged_deletion(i)? else {
                continue;
            };
            if let Some(ids) = self.named_ids(&op, to)? {
                note(self.alloc, &mut namings, op.author, &ids, i)?;
            }
        }
        Ok(Hints {
            epoch: to,
            noted: self.log.len(),
            namings,
        })
    }

    // The hints, taken out, or new ones in this epoch.
    fn hints_taken(&self, epoch: EpochName) -> Hints
        requires kept { IsTrue (is_kept self.now.epochs.top self.now.epochs.nodes epoch) }
        ensures kept { IsTrue (is_kept self.now.epochs.top self.now.epochs.nodes result.epoch) }
    {
        if let Some(hints) = self.hints.replace(None) {
            if self.epochs.kept(hints.epoch) {
                return hints;
            }
        }
        Hints::new(self.alloc, epoch)
    }

    // The operation at a place of the log, if it is an unstable deletion. Only then it is made of its bytes.
    pub(crate) fn logged_deletion(&self, place: usize) -> Result<Option<Op>, AllocError>
        requires place { place < length self.now.log }
        ensures some { IfOk result (λ found. IfSome found (λ op. slice_get self.now.log place ≡ Some op)) }
        ensures none { IfOk result (λ found. IfNone found ((o : OpSeen) → slice_get self.now.log place ≡ Some o → NamesNothing self.now o)) }
    {
        let head = self.log.head(place);
        if head.is_covered(self.acks.stable()) {
            return Ok(None);
        }
        let OpKind::Delete = head.kind else {
            return Ok(None);
        };
        let op = self.log.op(place)?;
        Ok(Some(op))
    }

    // The identifiers in an epoch that this operation of the log names, if it is an unstable deletion.
    pub(crate) fn named_ids(&self, op: &Op, to: EpochName) -> Result<Option<Runs>, AllocError>
        requires logged { IsIn op.now self.now.log }
        requires kept { IsTrue (is_kept self.now.epochs.top self.now.epochs.nodes to) }
        ensures named { IfOk result (λ found. AreNamed self.now to op.now found) }
    {
        if self.is_stable(op) {
            return Ok(None);
        }
        let Body::Delete { targets } = &op.body else {
            return Ok(None);
        };
        rely!(let _total = targets.total());
        let ids = self.epochs.translate_runs(op.epoch, to, targets)?;
        Ok(Some(ids))
    }

    // Whether an operation is stable.
    fn is_stable(&self, op: &Op) -> bool
        ensures covered { result ≡ is_covered (stable_over self.now) op.now }
    {
        covers(self.acks.stable(), op.author, op.seq)
    }

    // How many targets from a place on, within their run, the operation names that a hint tells. If the log has it as a value, it isn't
    // made of its bytes.
    fn names_run(&self, hint: Hint, targets: &Targets<'_>) -> Result<u64, AllocError>
        requires logged { hint.place < length self.now.log }
        requires targets { AreTargets self.now targets.now }
        ensures known { IfOk result (λ n. AreKnown self.now targets.now n) }
    {
        if let Some(op) = self.log.large_deletion(hint.place) {
            return self.names_most(op, hint.count, targets);
        }
        let op = self.log.op(hint.place)?;
        self.names_most(&op, hint.count, targets)
    }

    // How many targets from a place on, within their run and at most so many, an operation names. If it is of another epoch, those that
    // follow may be elsewhere there: so it tries one, two, four and so on.
    fn names_most(&self, op: &Op, limit: u32, targets: &Targets<'_>) -> Result<u64, AllocError>
        requires logged { IsIn op.now self.now.log }
        requires targets { AreTargets self.now targets.now }
        ensures known { IfOk result (λ n. AreKnown self.now targets.now n) }
    {
        let (run, from) = targets.ids.locate(targets.at);
        let most = limit.min(run.len() - from);
        if op.epoch.same(&targets.epoch) {
            return self.names_count(op, targets, most);
        }
        let mut named = 0;
        for doublings in 0..32u32 {
            let count = most.min(1 << doublings);
            named = self.names_count(op, targets, count)?;
            if named < count as u64 || count == most {
                break;
            }
        }
        Ok(named)
    }

    // How many of `count` targets from a place on, all of one run, it names from the first one on.
    fn names_count(&self, op: &Op, targets: &Targets<'_>, count: u32) -> Result<u64, AllocError>
        requires logged { IsIn op.now self.now.log }
        requires targets { AreTargets self.now targets.now }
        ensures known { IfOk result (λ n. AreKnown self.now targets.now n) }
    {
        let part = part_of(self.alloc, targets.ids, targets.at, count)?;
        let named = self.names_front(op, targets.epoch, &part)?;
        Ok(named)
    }

    // How many of these identifiers it names from the first one on, at most those of one run.
    fn names_front(&self, op: &Op, epoch: EpochName, ids: &Runs) -> Result<u64, AllocError>
        requires logged { IsIn op.now self.now.log }
        requires kept { IsTrue (is_kept self.now.epochs.top self.now.epochs.nodes epoch) }
        requires some { 0 < length ids.now }
        ensures within { IfOk result (λ n. n ≤ length ids.now) }
        ensures known { IfOk result (λ n. (k : ℕ) (x : List Tuple) → k < n → slice_get ids.now k ≡ Some x → is_known_over self.now epoch x ≡ true) }
    {
        if self.is_stable(op) {
            return Ok(0);
        }
        let Body::Delete { targets } = &op.body else {
            return Ok(0);
        };
        rely!(let (_ids, _targets) = (ids.total(), targets.total()));
        let there = self.epochs.translate_runs(epoch, op.epoch, ids)?;
        let first = there.get(0)?;
        match targets.find(&first) {
            Ok(i) => Ok(there.count_common(0, targets, i)),
            Err(_) => Ok(0),
        }
    }

    // Whether an unstable deletion names the target. If operations are looked at and none does, identifiers shall be noted as gone.
    fn is_named(&self, epoch: EpochName, target: &Ident) -> Result<bool, AllocError>
        requires kept { IsTrue (is_kept self.now.epochs.top self.now.epochs.nodes epoch) }
        ensures named { IfOk result (λ b. b ≡ is_named_over self.now epoch target.now self.now.log) }
    {
        let from = self.cleared(epoch, target)?;
        for i in from..self.log.len() {
            if self.names_at(i, epoch, target)? {
                return Ok(true);
            }
        }
        self.wanted.set(from < self.log.len());
        Ok(false)
    }

    // Whether the operation at a place of the log is an unstable deletion that names the target. If the log has it as a value, it isn't
    // made of its bytes.
    fn names_at(&self, place: usize, epoch: EpochName, target: &Ident) -> Result<bool, AllocError>
        requires place { place < length self.now.log }
        requires kept { IsTrue (is_kept self.now.epochs.top self.now.epochs.nodes epoch) }
        ensures names { IfOk result (λ b. (o : OpSeen) → slice_get self.now.log place ≡ Some o → b ≡ (not (is_covered (stable_over self.now) o) && is_named_by self.now epoch target.now o)) }
    {
        if let Some(op) = self.log.large_deletion(place) {
            let named = self.names(op, epoch, target)?;
            return Ok(named);
        }
        let Some(op) = self.logged_deletion(place)? else {
            return Ok(false);
        };
        let named = self.names(&op, epoch, target)?;
        Ok(named)
    }

    // Whether this operation of the log is an unstable deletion that names the target.
    fn names(&self, op: &Op, epoch: EpochName, target: &Ident) -> Result<bool, AllocError>
        requires logged { IsIn op.now self.now.log }
        requires kept { IsTrue (is_kept self.now.epochs.top self.now.epochs.nodes epoch) }
        ensures names { IfOk result (λ b. b ≡ (not (is_covered (stable_over self.now) op.now) && is_named_by self.now epoch target.now op.now)) }
    {
        if self.is_stable(op) {
            return Ok(false);
        }
        let Body::Delete { targets } = &op.body else {
            return Ok(false);
        };
        rely!(let (_total, _last) = (targets.total(), target.last()));
        let there = self.epochs.translate(epoch, op.epoch, target)?;
        Ok(targets.find(&there).is_ok())
    }
}

// `count` identifiers from a place on, or as many as their run has, but at least one.
fn part_of(alloc: Global, ids: &Runs, at: u64, count: u32) -> Result<Runs, AllocError>
    requires place { at < length ids.now }
    ensures some { IfOk result (λ part. 0 < length part) }
    ensures within { IfOk result (λ part. at + length part ≤ length ids.now) }
    ensures part { IfOk result (λ part. (k : ℕ) → k < length part → slice_get part k ≡ slice_get ids.now (at + k)) }
{
    let (run, from) = ids.locate(at);
    let len = count.max(1).min(run.len() - from);
    let piece = run.part(from, len)?;
    let part = Runs::from_run(alloc, piece)?;
    Ok(part)
}
