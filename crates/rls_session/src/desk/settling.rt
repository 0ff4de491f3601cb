//! How what a session goes back to is settled, and what every member has is dropped.
//! Why: docs/DECISIONS.md, 129.

ghost use Rattle.std.specs.Prelude.{◌≡◌, map, OnOk};
ghost use Rattle.rls_seen.specs.Kept.{dropped};
ghost use Rattle.rls_seen.specs.Sane.{IsSane};
ghost use Rattle.rls_anchor.specs.Anchors.{settled_over};
ghost use Rattle.rls_session.specs.Answers.{settled_sitting, with_cursors, with_state};
ghost use Rattle.rls_session.specs.Cursors.{moved};
ghost use Rattle.rls_session.specs.Desks.{IsWhole};
ghost use Rattle.rls_session.specs.Sessions.{by_parts};

use super::{Desk, KEPT_ENTRIES, unsettled};
use rls_ident::rely;
use std::alloc::AllocError;

impl Desk {
    /// Takes what the session goes back to to the greatest epoch, as is needed before `drop_stable`, and lets go of what undoes edits but for
    /// the last `KEPT_ENTRIES` of them. The replica stays as it is.
    pub(crate) fn settle(&mut self) -> Result<(), AllocError>
        ensures settled { OnOk result (self.new ≡ settled_sitting by_parts self.old) }
        ensures state { self.new.state ≡ self.old.state }
        ensures sane { IsSane self.old.state }
    {
        rely!(self.replica.sane());
        self.undo.keep_last(KEPT_ENTRIES);
        if let Err(error) = self.undo.settle(&self.replica) {
            return Err(unsettled(error));
        }
        self.begin();
        if self.steps.settle(&self.replica).is_err() {
            // A session drops nothing that it goes back to.
            return Err(AllocError);
        }
        self.settle_cursors()
    }

    // Takes the cursors to the greatest epoch.
    fn settle_cursors(&mut self) -> Result<(), AllocError>
        ensures settled { OnOk result (self.new ≡ with_cursors self.old (map (moved (settled_over self.old.state)) self.old.cursors)) }
        ensures state { self.new.state ≡ self.old.state }
    {
        match self.cursors.settle_all(&self.replica) {
            Ok(()) => Ok(()),
            Err(error) => Err(unsettled(error)),
        }
    }

    /// Drops what every member has.
    pub(crate) fn drop_stable(&mut self)
        requires lasts { IsWhole (dropped self.old.state) self.old.entries self.old.cursors }
        ensures dropped { self.new ≡ with_state self.old (dropped self.old.state) }
    {
        self.replica.drop_stable();
    }
}
