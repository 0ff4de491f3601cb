//! What becomes of operations that arrive or wait.

ghost use Rattle.std.specs.Prelude.{◌≡◌, ◌++◌, ◌⊎◌, [], ℕ, false, true, Some, None, IfOk, OnOk, OnErr, IsTrue, IsSomeAnd, is_some};
ghost use Rattle.rls_ops.specs.Waiting.{waiting_under, with_waiting, without};
ghost use Rattle.rls_model.specs.Answers.{answer_of};
ghost use Rattle.rls_model.specs.Receiving.{State, receive, receive_after, replay, replay_after, release, release_after};
ghost use Rattle.rls_model.specs.WellFormed.{IsOp};
ghost use Rattle.rls_seen.specs.Over.{accepted, answer_over, after_answer, first_ready, received, refusal_over, replayed, holding, release_over, released};
ghost use Rattle.rls_seen.specs.Sane.{MayApply, MayWait};
ghost use Rattle.rls_seen.specs.Stands.{StandsFor};
ghost use Rattle.rls_replica.specs.Names.{KeepsNames};
ghost use Rattle.rls_replica.specs.Releases.{release_in};
ghost use Rattle.rls_replica.specs.Watching.{if_applied, received_told, released_told, IsTold};

use crate::looking::learn_targets;
use crate::replica::Replica;
use crate::watching::{Nobody, Watcher};
use rls_ident::rely;
use rls_model::{Receipt, Release};
use rls_ops::Op;
use std::alloc::AllocError;

impl Replica {
    /// Looks at an operation that arrives, and accepts it, lets it wait or refuses it. After an error the replica is as before, and
    /// the operation is given up.
    ///
    /// It costs a few look-ups, and where it is accepted the change of the text: a deletion also a look-up for each stretch of its
    /// targets that are adjacent in the text or gone; a rename that becomes the greatest epoch a pass over the runs of the text. At the
    /// first gone target, and again at the first that no unstable deletion names, each unstable deletion is translated once.
    pub fn receive(&mut self, op: Op) -> Result<Receipt, AllocError>
        ensures answer { IfOk result (λ r. answer_of r ≡ answer_over false self.old op) }
        ensures after { OnOk result (self.new ≡ received self.old op) }
        ensures err { OnErr result (self.new ≡ self.old) }
        ensures names { KeepsNames self.old self.new }

        // For every history and waiting operations that the replica stands for.
        ensures stands { IfOk result (λ r. (t : State) → StandsFor self.old t → (answer_of r ≡ receive t op) × StandsFor self.new (receive_after t op)) }
    {
        self.receive_watched(op, &mut Nobody)
    }

    /// Does the same, and shows the operation to a watcher before it accepts it. After an error nothing more was told.
    pub fn receive_watched<W: Watcher>(
        &mut self,
        op: Op,
        watcher: &mut W,
    ) -> Result<Receipt, AllocError>
        ensures answer { IfOk result (λ r. answer_of r ≡ answer_over false self.old op) }
        ensures after { OnOk result (self.new ≡ received self.old op) }
        ensures err { OnErr result (self.new ≡ self.old) }
        ensures told { OnOk result (W.told watcher.new ≡ W.told watcher.old ++ received_told W.tells self.old op) }
        ensures untold { OnErr result (W.told watcher.new ≡ W.told watcher.old) }
        ensures steps { IsTold W.tells self.old self.new (W.told watcher.old) (W.told watcher.new) }
        ensures names { KeepsNames self.old self.new }

        // For every history and waiting operations that the replica stands for.
        ensures stands { IfOk result (λ r. (t : State) → StandsFor self.old t → (answer_of r ≡ receive t op) × StandsFor self.new (receive_after t op)) }
    {
        rely!(self.sane());
        let receipt = self.receive_exactly(op, false, watcher)?;
        Ok(receipt)
    }

    /// Does the same, but takes the replica's own operations too, as they come back from where they were kept. After an error the
    /// replica is as before, and the operation is given up.
    pub fn replay(&mut self, op: Op) -> Result<Receipt, AllocError>
        ensures answer { IfOk result (λ r. answer_of r ≡ answer_over true self.old op) }
        ensures after { OnOk result (self.new ≡ replayed self.old op) }
        ensures err { OnErr result (self.new ≡ self.old) }
        ensures names { KeepsNames self.old self.new }

        // For every history and waiting operations that the replica stands for.
        ensures stands { IfOk result (λ r. (t : State) → StandsFor self.old t → (answer_of r ≡ replay t op) × StandsFor self.new (replay_after t op)) }
    {
        let receipt = self.receive_exactly(op, true, &mut Nobody)?;
        Ok(receipt)
    }

    // By what the replica consists of, where `own` says whether its own operations are taken too.
    fn receive_exactly<W: Watcher>(
        &mut self,
        op: Op,
        own: bool,
        watcher: &mut W,
    ) -> Result<Receipt, AllocError>
        ensures answer { IfOk result (λ r. answer_of r ≡ answer_over own self.old op) }
        ensures after { OnOk result (self.new ≡ after_answer (answer_over own self.old op) self.old op) }
        ensures err { OnErr result (self.new ≡ self.old) }
        ensures told { OnOk result (W.told watcher.new ≡ W.told watcher.old ++ if_applied (answer_over own self.old op) (W.tells self.old op)) }
        ensures untold { OnErr result (W.told watcher.new ≡ W.told watcher.old) }
        ensures whole { IsOp op }
    {
        rely!(op.fits());
        self.note_gone();
        match self.look(&op, own)? {
            Receipt::Applied => {
                watcher.show(self, &op)?;
                self.apply_shown(&op, watcher)?;
                Ok(Receipt::Applied)
            }
            Receipt::Held => {
                self.hold(op)?;
                Ok(Receipt::Held)
            }
            Receipt::Repeated => Ok(Receipt::Repeated),
            Receipt::Refused(refusal) => Ok(Receipt::Refused(refusal)),
        }
    }

    // Accepts an operation that fits, and that the watcher was shown.
    fn apply_shown<W: Watcher>(&mut self, op: &Op, watcher: &mut W) -> Result<(), AllocError>
        requires may { MayApply self.old op.now }
        ensures ok { OnOk result (self.new ≡ accepted self.old op.now) }
        ensures err { OnErr result (self.new ≡ self.old) }
        ensures told { OnOk result (W.told watcher.new ≡ W.told watcher.old) }
        ensures untold { OnErr result (W.told watcher.new ≡ W.before watcher.old) }
    {
        if let Err(error) = self.apply(op, None) {
            watcher.take_back();
            return Err(error);
        }
        Ok(())
    }

    // Lets an operation wait, which may wait already.
    fn hold(&mut self, op: Op) -> Result<(), AllocError>
        requires may { MayWait self.old op }
        requires alone { (waiting_under self.old.waiting op.author op.seq ≡ None) ⊎ (waiting_under self.old.waiting op.author op.seq ≡ Some op) }
        ensures ok { OnOk result (self.new ≡ holding self.old (with_waiting op (without op.author op.seq self.old.waiting))) }
        ensures err { OnErr result (self.new ≡ self.old) }
    {
        rely!(op.fits());
        let _put = self.held.put(op)?;
        Ok(())
    }

    /// Looks at the first waiting operation whose context is at most the vector, of the least author and of these of the least
    /// number, and accepts or refuses it; it waits no longer. `None` exactly where none is ready. After an error the replica is as
    /// before.
    ///
    /// For each author it looks at the context of one waiting operation, which a few steps for each level of their tree find, and then
    /// it costs what `receive` does.
    pub fn release(&mut self) -> Result<Option<Release>, AllocError>
        ensures answer { IfOk result (λ r. release_in r ≡ release_over self.old) }
        ensures after { OnOk result (self.new ≡ released self.old) }
        ensures err { OnErr result (self.new ≡ self.old) }
        ensures names { KeepsNames self.old self.new }

        // For every history and waiting operations that the replica stands for.
        ensures stands { IfOk result (λ r. (t : State) → StandsFor self.old t → (release_in r ≡ release t) × StandsFor self.new (release_after t)) }
    {
        self.release_watched(&mut Nobody)
    }

    /// Does the same, and shows the operation to a watcher before it accepts it. After an error nothing more was told.
    pub fn release_watched<W: Watcher>(
        &mut self,
        watcher: &mut W,
    ) -> Result<Option<Release>, AllocError>
        ensures answer { IfOk result (λ r. release_in r ≡ release_over self.old) }
        ensures after { OnOk result (self.new ≡ released self.old) }
        ensures err { OnErr result (self.new ≡ self.old) }
        ensures told { OnOk result (W.told watcher.new ≡ W.told watcher.old ++ released_told W.tells self.old) }
        ensures untold { OnErr result (W.told watcher.new ≡ W.told watcher.old) }
        ensures steps { IsTold W.tells self.old self.new (W.told watcher.old) (W.told watcher.new) }
        ensures names { KeepsNames self.old self.new }

        // For every history and waiting operations that the replica stands for.
        ensures stands { IfOk result (λ r. (t : State) → StandsFor self.old t → (release_in r ≡ release t) × StandsFor self.new (release_after t)) }
    {
        rely!(self.sane());
        let release = self.release_exactly(watcher)?;
        Ok(release)
    }

    // By what the replica consists of.
    fn release_exactly<W: Watcher>(
        &mut self,
        watcher: &mut W,
    ) -> Result<Option<Release>, AllocError>
        ensures answer { IfOk result (λ r. release_in r ≡ release_over self.old) }
        ensures after { OnOk result (self.new ≡ released self.old) }
        ensures err { OnErr result (self.new ≡ self.old) }
        ensures told { OnOk result (W.told watcher.new ≡ W.told watcher.old ++ released_told W.tells self.old) }
        ensures untold { OnErr result (W.told watcher.new ≡ W.told watcher.old) }
    {
        if self.none_waits() {
            return Ok(None);
        }
        self.note_gone();
        self.learn_ready()?;
        let Some(release) = self.look_ready(watcher)? else {
            return Ok(None);
        };
        match &release.refusal {
            None => {
                self.apply_ready_shown(watcher)?;
                Ok(Some(release))
            }
            Some(_) => {
                self.forget(release.author, release.seq);
                Ok(Some(release))
            }
        }
    }

    // Whether no operation waits.
    pub(crate) fn none_waits(&self) -> bool
        ensures none { IsTrue result → self.now.waiting ≡ [] }
    {
        self.held.len() == 0
    }

    // Learns where the targets of the first ready operation are now.
    fn learn_ready(&mut self) -> Result<(), AllocError>
        ensures same { self.new ≡ self.old }
    {
        let Some(op) = self.held.first_ready(self.acks.mine()) else {
            return Ok(());
        };
        learn_targets(&mut self.epochs, op)
    }

    // What is answered where the first ready operation is looked at. If it fits, the watcher is shown it.
    #[tactic(auto, unfolding(rls_seen::specs::Over::release_over))]
    fn look_ready<W: Watcher>(&self, watcher: &mut W) -> Result<Option<Release>, AllocError>
        ensures answer { IfOk result (λ r. release_in r ≡ release_over self.now) }
        ensures told { OnOk result (W.told watcher.new ≡ W.told watcher.old ++ released_told W.tells self.now) }
        ensures before { IfOk result (λ r. (a q : ℕ) → release_in r ≡ Some (record { author = a; seq = q; refusal = None }) → W.before watcher.new ≡ W.told watcher.old) }
        ensures untold { OnErr result (W.told watcher.new ≡ W.told watcher.old) }
    {
        let Some(op) = self.held.first_ready(self.acks.mine()) else {
            return Ok(None);
        };
        let (author, seq) = (op.author, op.seq);
        let refusal = self.refusal(op)?;
        if refusal.is_none() {
            watcher.show(self, op)?;
        }
        Ok(Some(Release {
            author,
            seq,
            refusal,
        }))
    }

    // Accepts the first ready operation, which fits, and which the watcher was shown.
    fn apply_ready_shown<W: Watcher>(&mut self, watcher: &mut W) -> Result<(), AllocError>
        requires fits { IsSomeAnd (first_ready self.old) (λ w. refusal_over self.old w ≡ None) }
        ensures ok { OnOk result (self.new ≡ released self.old) }
        ensures err { OnErr result (self.new ≡ self.old) }
        ensures told { OnOk result (W.told watcher.new ≡ W.told watcher.old) }
        ensures untold { OnErr result (W.told watcher.new ≡ W.before watcher.old) }
    {
        if let Err(error) = self.apply_ready() {
            watcher.take_back();
            return Err(error);
        }
        Ok(())
    }

    // Lets what waits under this number wait no longer.
    fn forget(&mut self, author: u32, seq: u32)
        ensures after { self.new ≡ holding self.old (without author seq self.old.waiting) }
    {
        let _op = self.held.remove(author, seq);
    }
}
