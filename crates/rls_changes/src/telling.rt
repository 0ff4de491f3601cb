//! A watcher that tells what changes in the text.

ghost use Rattle.std.specs.Prelude.{◌≡◌, take};
ghost use Rattle.rls_changes.specs.declared.change.Change.{Change as ChangeSeen};
ghost use Rattle.rls_changes.specs.Changes.{changes_over};

use crate::change::{Change, push_all};
use crate::finding::changes_of;
use rls_ops::Op;
use rls_replica::{Replica, Watcher};
use std::alloc::AllocError;
use std::mem;

/// Changes, and how many there were before an operation was shown.
#[derive(Drop)]
pub(crate) struct Telling {
    pub(crate) changes: Vec<Change>,
    before: usize,
}

impl Telling {
    /// Tells after these changes, which are taken out of their place meanwhile.
    pub(crate) fn after(changes: &mut Vec<Change>) -> Telling
        ensures changes { result.changes.items ≡ changes.old.items }
    {
        let none = Vec::new(*changes.allocator());
        Telling {
            changes: mem::replace(changes, none),
            before: 0,
        }
    }
}

impl Watcher for Telling {
    ghost Item = { ChangeSeen };

    ghost told = { λ t. t.changes.items };

    ghost tells = { changes_over };

    ghost before = { λ t. take t.before t.changes.items };

    fn show(&mut self, replica: &Replica, op: &Op) -> Result<(), AllocError> {
        let fresh = changes_of(*self.changes.allocator(), replica, op)?;
        self.before = self.changes.len();
        push_all(&mut self.changes, fresh)?;
        Ok(())
    }

    fn take_back(&mut self) {
        self.changes.truncate(self.before);
    }
}
