//! Who is shown operations while they are accepted.

ghost use Rattle.std.specs.Prelude.{◌≡◌, ◌++◌, [], List, OnOk, OnErr};
ghost use Rattle.rls_ops.specs.declared.op.Op.{Op as OpSeen};
ghost use Rattle.rls_seen.specs.Sane.{MayApply};
ghost use Rattle.rls_seen.specs.Seen.{Seen};

use crate::replica::Replica;
use rls_ops::Op;
use std::alloc::AllocError;

/// Who is shown each operation that arrived or waited, right before it is accepted, and tells something of it. An operation that is
/// refused, that waits or that was accepted before isn't shown.
pub trait Watcher {
    // What is told.
    ghost Item: { Type 0 };

    // All that was told so far, the newest last.
    ghost told: { Self → List Item };

    // What is told of an operation that is accepted.
    ghost tells: { Seen → OpSeen → List Item };

    // What had been told before the last operation was shown.
    ghost before: { Self → List Item };

    /// This operation may be accepted, and is accepted next. After an error nothing more was told.
    fn show(&mut self, replica: &Replica, op: &Op) -> Result<(), AllocError>
        requires may { MayApply replica.now op.now }
        ensures ok { OnOk result (told self.new ≡ told self.old ++ tells replica.now op.now) }
        ensures before { OnOk result (before self.new ≡ told self.old) }
        ensures err { OnErr result (told self.new ≡ told self.old) };

    /// There was no memory to accept the operation that was shown last: it is as if it hadn't been shown.
    fn take_back(&mut self)
        ensures back { told self.new ≡ before self.old };
}

/// Nobody looks on, and nothing is told.
#[derive(Drop)]
pub struct Nobody;

impl Watcher for Nobody {
    ghost Item = { Unit {0} };

    ghost told = { λ _. [] };

    ghost tells = { λ _ _. [] };

    ghost before = { λ _. [] };

    fn show(&mut self, _replica: &Replica, _op: &Op) -> Result<(), AllocError> {
        Ok(())
    }

    fn take_back(&mut self) {}
}
