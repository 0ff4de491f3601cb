//! What is answered to an operation, before anything changes.
//! Why: docs/DECISIONS.md, 5.

ghost use Rattle.std.specs.Prelude.{◌≡◌, ◌+◌, ◌<◌, ◌&&◌, not, Some, None, IfOk, IsTrue, is_some, length, if◌then◌else◌};
ghost use Rattle.rls_ident.specs.declared.epoch_name.EpochName.{EpochName};
ghost use Rattle.rls_ident.specs.EpochNames.{is_of_member};
ghost use Rattle.rls_ident.specs.Tuples.{at_spot};
ghost use Rattle.rls_ident.specs.Lists.{IsIn};
ghost use Rattle.rls_ident.specs.Vectors.{at_most};
ghost use Rattle.rls_rename.specs.Tree.{is_kept};
ghost use Rattle.rls_ops.specs.declared.op.Op.{Op as OpSeen};
ghost use Rattle.rls_ops.specs.Rows.{is_covered};
ghost use Rattle.rls_ops.specs.Shapes.{shape_fault};
ghost use Rattle.rls_ops.specs.Waiting.{waiting_under};
ghost use Rattle.rls_model.specs.Answers.{answer_of, reason_in, Waits, Refuses, Forked, WrongStem, UnknownTarget};
ghost use Rattle.rls_model.specs.Receiving.{verdict_of, answer_beside, answer_by};
ghost use Rattle.rls_model.specs.Stems.{may_use, due_offset};
ghost use Rattle.rls_seen.specs.Seen.{members, vector, count_over, stable_over};
ghost use Rattle.rls_seen.specs.Over.{first_unknown_over, body_refusal_over, refusal_over, answer_over};
ghost use Rattle.rls_replica.specs.Lookups.{unknown_in, is_named_by, is_named_over, AreTargets, AreKnown, IsUnknown};

use crate::naming::Targets;
use crate::replica::Replica;
use rls_doc::Document;
use rls_epoch::Epochs;
use rls_ident::{EpochName, Ident, Spot};
use rls_model::{Receipt, Refusal};
use rls_ops::{Body, Op};
use rls_runs::Runs;
use std::alloc::AllocError;

impl Replica {
    // The answer to an operation that arrives, where `own` says whether the replica's own operations are taken too.
    #[tactic(auto, unfolding(rls_seen::specs::Over::answer_over))]
    pub(crate) fn look(&mut self, op: &Op, own: bool) -> Result<Receipt, AllocError>
        ensures answer { IfOk result (λ r. answer_of r ≡ answer_over own self.old op.now) }
        ensures same { self.new ≡ self.old }
    {
        match op.check_shape(self.members()) {
            Err(shape) => Ok(Receipt::Refused(Refusal::Shape(shape))),
            Ok(()) => self.look_at_number(op, own),
        }
    }

    // The answer to one of the right shape.
    fn look_at_number(&mut self, op: &Op, own: bool) -> Result<Receipt, AllocError>
        requires shape { shape_fault (members self.old) op.now ≡ None }
        ensures answer { IfOk result (λ r. answer_of r ≡ answer_by own (vector self.old) self.old.acks.me self.old.waiting (refusal_over self.old op.now) op.now None) }
        ensures same { self.new ≡ self.old }
    {
        if op.seq <= self.accepted(op.author) {
            return Ok(Receipt::Repeated);
        }
        if !own && op.author == self.me() {
            return Ok(Receipt::Refused(Refusal::Own { seq: op.seq }));
        }
        self.look_beside(op)
    }

    // How many operations of a member were accepted.
    pub(crate) fn accepted(&self, member: u32) -> u32
        requires member { member < members self.now }
        ensures count { result ≡ count_over self.now member }
    {
        self.acks.mine().get(member)
    }

    // The answer to one with a new number, by what waits under it.
    fn look_beside(&mut self, op: &Op) -> Result<Receipt, AllocError>
        requires shape { shape_fault (members self.old) op.now ≡ None }
        ensures answer { IfOk result (λ r. answer_of r ≡ answer_beside (vector self.old) (refusal_over self.old op.now) op.now (waiting_under self.old.waiting op.now.author op.now.seq)) }
        ensures same { self.new ≡ self.old }
    {
        match self.held.get(op.author, op.seq) {
            None => self.look_at_causes(op),
            Some(held) => {
                if held.same(op) {
                    self.look_at_causes(op)
                } else {
                    self.forked(op.author, op.seq)
                }
            }
        }
    }

    // It is refused for the sake of the one that waits under this number.
    fn forked(&mut self, author: u32, seq: u32) -> Result<Receipt, AllocError>
        requires waits { IsTrue (is_some (waiting_under self.old.waiting author seq)) }
        ensures answer { IfOk result (λ r. (w : OpSeen) → waiting_under self.old.waiting author seq ≡ Some w → answer_of r ≡ Refuses (Forked w)) }
        ensures same { self.new ≡ self.old }
    {
        match self.held.share(author, seq)? {
            Some(held) => Ok(Receipt::Refused(Refusal::Forked { held })),
            None => unreachable!(),
        }
    }

    // The answer to one that is alone under its number.
    fn look_at_causes(&mut self, op: &Op) -> Result<Receipt, AllocError>
        requires shape { shape_fault (members self.old) op.now ≡ None }
        ensures answer { IfOk result (λ r. answer_of r ≡ (if not (at_most op.now.context (vector self.old)) then Waits else verdict_of (refusal_over self.old op.now))) }
        ensures same { self.new ≡ self.old }
    {
        if !op.context.at_most(self.acks.mine()) {
            return Ok(Receipt::Held);
        }
        learn_targets(&mut self.epochs, op)?;
        match self.refusal(op)? {
            None => Ok(Receipt::Applied),
            Some(refusal) => {
                self.remember(op, &refusal);
                Ok(Receipt::Refused(refusal))
            }
        }
    }

    // Why an operation is refused whose causes are there, if it is.
    #[tactic(auto, unfolding(rls_seen::specs::Over::refusal_over))]
    pub(crate) fn refusal(&self, op: &Op) -> Result<Option<Refusal>, AllocError>
        requires shape { shape_fault (members self.now) op.now ≡ None }
        ensures refusal { IfOk result (λ r. reason_in r ≡ refusal_over self.now op.now) }
    {
        if self.acks.left(op.author) {
            return Ok(Some(Refusal::Left {
                seq: self.accepted(op.author),
            }));
        }
        let row = self.acks.row(op.author);
        if !row.at_most(&op.context) {
            return Ok(Some(Refusal::Backward { known: row.copy()? }));
        }
        let due = self.epochs.greatest_in(&op.context);
        if !op.epoch.same(&due) {
            return Ok(Some(Refusal::WrongEpoch { due }));
        }
        self.body_refusal(op)
    }

    // The reason that lies in the body.
    fn body_refusal(&self, op: &Op) -> Result<Option<Refusal>, AllocError>
        requires kept { IsTrue (is_kept self.now.epochs.top self.now.epochs.nodes op.now.epoch) }
        ensures refusal { IfOk result (λ r. reason_in r ≡ body_refusal_over self.now op.now op.now.body) }
    {
        match &op.body {
            Body::Insert { first, text } => {
                Ok(self.stem_refusal(op.author, op.seq, first.last(), text.len()))
            }
            Body::Delete { targets } => match self.first_unknown(op.epoch, targets)? {
                None => Ok(None),
                Some(id) => Ok(Some(Refusal::UnknownTarget { id })),
            },
            Body::Rename { .. } | Body::Leave => Ok(None),
        }
    }

    // That of an insertion of so many characters whose first identifier ends so.
    fn stem_refusal(&self, author: u32, seq: u32, last: Spot, count: usize) -> Option<Refusal>
        ensures refusal { reason_in result ≡ (if may_use self.now.stems author seq (at_spot last) count then None else Some (WrongStem (due_offset self.now.stems author seq (at_spot last)))) }
    {
        if self.stems.may_use(author, seq, last, count) {
            return None;
        }
        Some(Refusal::WrongStem {
            due: self.stems.due(author, seq, last),
        })
    }

    // The first of these targets that isn't known. It takes as one those that are adjacent in the text, or that one deletion names.
    fn first_unknown(&self, epoch: EpochName, targets: &Runs) -> Result<Option<Ident>, AllocError>
        requires kept { IsTrue (is_kept self.now.epochs.top self.now.epochs.nodes epoch) }
        ensures unknown { IfOk result (λ id. unknown_in id ≡ first_unknown_over self.now epoch targets.now) }
    {
        let images = self
            .epochs
            .translate_runs(epoch, self.epochs.greatest(), targets)?;
        let mut at = 0;
        while at < targets.total() {
            let rest = Targets {
                epoch,
                ids: targets,
                images: &images,
                at,
            };
            let known = self.known_from(&rest)?;
            if known == 0 {
                let target = targets.get(at)?;
                return Ok(Some(target));
            }
            at += known;
        }
        Ok(None)
    }

    // How many targets from a place on are known at once: those that are remembered, or those that are found, whichever are more. The
    // others of a run that is remembered aren't looked for.
    fn known_from(&self, targets: &Targets<'_>) -> Result<u64, AllocError>
        requires targets { AreTargets self.now targets.now }
        ensures known { IfOk result (λ n. AreKnown self.now targets.now n) }
        ensures unknown { IfOk result (λ n. n ≡ 0 → IsUnknown self.now targets.now) }
    {
        let remembered = self.remembered_from(targets)?;
        let (run, from) = targets.images.locate(targets.at);
        if remembered == (run.len() - from) as u64 {
            return Ok(remembered);
        }
        let found = self.found_from(targets)?;
        if found < remembered {
            return Ok(remembered);
        }
        Ok(found)
    }

    // How many of them are found to be so: those that are adjacent in the text, or else those that an unstable deletion names.
    fn found_from(&self, targets: &Targets<'_>) -> Result<u64, AllocError>
        requires targets { AreTargets self.now targets.now }
        ensures known { IfOk result (λ n. AreKnown self.now targets.now n) }
        ensures unknown { IfOk result (λ n. n ≡ 0 → IsUnknown self.now targets.now) }
    {
        let (run, from) = targets.images.locate(targets.at);
        let standing = self.document.standing(run, from)?;
        if standing > 0 {
            return Ok(standing as u64);
        }
        let named = self.named_from(targets)?;
        Ok(named)
    }
}

// Of a deletion of an older epoch, learns where the targets are now, so that looking at them and taking them out cost a search for each of
// their runs. Not where the epoch alone has it refused.
pub(crate) fn learn_targets(epochs: &mut Epochs, op: &Op) -> Result<(), AllocError>
    requires members { (e : EpochName) → IsTrue (is_kept epochs.old.epochs.top epochs.old.epochs.nodes e) → IsTrue (is_of_member (length op.now.context) e) }
    ensures same { epochs.new ≡ epochs.old }
{
    let Body::Delete { targets } = &op.body else {
        return Ok(());
    };
    let greatest = epochs.greatest();
    if op.epoch.same(&greatest) {
        return Ok(());
    }
    let due = epochs.greatest_in(&op.context);
    if op.epoch.same(&due) {
        epochs.prepare(due, greatest, targets)?;
    }
    Ok(())
}
