//! Operations that arrive or wait, with what they change.

ghost use Rattle.std.specs.Prelude.{◌≡◌, ◌++◌, false, IfOk, OnOk, OnErr};
ghost use Rattle.rls_model.specs.Answers.{answer_of};
ghost use Rattle.rls_seen.specs.Over.{answer_over, received, release_over, released};
ghost use Rattle.rls_seen.specs.Seen.{text_over};
ghost use Rattle.rls_replica.specs.Names.{KeepsNames};
ghost use Rattle.rls_replica.specs.Releases.{release_in};
ghost use Rattle.rls_changes.specs.Telling.{received_changes, released_changes};
ghost use Rattle.rls_changes.specs.ChangesLaws.{Lead};

use crate::change::Change;
use crate::telling::Telling;
use rls_ops::Op;
use rls_replica::{Receipt, Release, Replica};
use std::alloc::AllocError;

/// Receives an operation as `Replica::receive` does, and puts what that changes in the text after the other changes: nothing if the
/// operation isn't accepted. After an error both are as before, and the operation is given up.
///
/// It costs what `Replica::receive` does, and about as much again to find the changes if the operation is accepted.
pub fn receive(
    replica: &mut Replica,
    op: Op,
    changes: &mut Vec<Change>,
) -> Result<Receipt, AllocError>
    ensures answer { IfOk result (λ r. answer_of r ≡ answer_over false replica.old op) }
    ensures after { OnOk result (replica.new ≡ received replica.old op) }
    ensures changes { OnOk result (changes.new.items ≡ changes.old.items ++ received_changes replica.old op) }
    ensures err { OnErr result (replica.new ≡ replica.old) }
    ensures stays { OnErr result (changes.new.items ≡ changes.old.items) }
    ensures names { KeepsNames replica.old replica.new }

    // Played one after another, what is added leads from the text before to the text now.
    ensures lead { Lead changes.old.items changes.new.items (text_over replica.old) (text_over replica.new) }
{
    let mut telling = Telling::after(changes);
    let receipt = replica.receive_watched(op, &mut telling);
    *changes = telling.changes;
    receipt
}

/// Releases the first ready operation as `Replica::release` does, and puts what that changes in the text after the other changes:
/// nothing if none is ready or it is refused. After an error both are as before.
///
/// It costs what `Replica::release` does, and about as much again to find the changes if the operation is accepted.
pub fn release(
    replica: &mut Replica,
    changes: &mut Vec<Change>,
) -> Result<Option<Release>, AllocError>
    ensures answer { IfOk result (λ r. release_in r ≡ release_over replica.old) }
    ensures after { OnOk result (replica.new ≡ released replica.old) }
    ensures changes { OnOk result (changes.new.items ≡ changes.old.items ++ released_changes replica.old) }
    ensures err { OnErr result (replica.new ≡ replica.old) }
    ensures stays { OnErr result (changes.new.items ≡ changes.old.items) }
    ensures names { KeepsNames replica.old replica.new }

    // Played one after another, what is added leads from the text before to the text now.
    ensures lead { Lead changes.old.items changes.new.items (text_over replica.old) (text_over replica.new) }
{
    let mut telling = Telling::after(changes);
    let release = replica.release_watched(&mut telling);
    *changes = telling.changes;
    release
}
