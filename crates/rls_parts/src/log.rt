//! Unstable operations.

ghost use Rattle.std.specs.Prelude.{◌≡◌, ℕ, List, ◌-◌, ◌^◌, ◌<◌, [], None, length, slice_index, IfOk, IfSome, IsTrue};
ghost use Rattle.rls_ident.specs.Vectors.{at_most};
ghost use Rattle.rls_ops.specs.Same.{numbers_eq};
ghost use Rattle.rls_parts.specs.Given.{AreEpochParts, AreGiven};
ghost use Rattle.rls_parts.specs.Reading.{epochs_of, has_member, stable_of_parts};
ghost use Rattle.rls_parts.specs.Rules.{epoch_fault, is_kept_name};
ghost use Rattle.rls_parts.specs.Tested.{is_head_last, is_head_next, IsLogTested};

use rls_epoch::Epochs;
use rls_ident::{EpochName, Vector};
use rls_log::{OpHead, OpKind};
use rls_model::{Members, Parts};
use std::alloc::AllocError;

/// Whether the member is one of these.
pub(crate) fn has_member(members: &Members, member: u32) -> bool
    ensures has { result ≡ has_member members.now member }
{
    members.as_slice().contains(&member)
}

// Whether the operation isn't a leave, or its author's last, and its author has left.
fn is_last(parts: &Parts, head: &OpHead) -> bool
    requires author { head.now.author < length parts.now.vector }
    ensures last { result ≡ is_head_last parts.now head.now }
{
    match head.kind {
        OpKind::Insert => true,
        OpKind::Delete => true,
        OpKind::Rename => true,
        OpKind::Leave => {
            has_member(&parts.left, head.author) && head.seq == parts.vector.get(head.author)
        }
    }
}

// Whether the operation with this head comes next after those that the vector counts, where it was tested whether its context counts no
// more of them.
fn is_next(
    parts: &Parts,
    epochs: &Epochs,
    running: &Vector,
    found: Option<EpochName>,
    head: &OpHead,
    is_counted: bool,
) -> bool
    requires counts { length parts.now.vector ≡ parts.now.members }
    requires running { length running.now ≡ parts.now.members }
    requires found { IfSome found (λ e. IsTrue (is_kept_name parts.now e)) }
    requires epochs_are { epochs.now.epochs ≡ epochs_of parts.now }
    requires rule { epoch_fault parts.now [] parts.now.epochs ≡ None }
    requires given { AreEpochParts parts.now.epochs }
    ensures next { (context : List ℕ) → is_counted ≡ at_most context running.now → result ≡ is_head_next parts.now running.now head.now context }
    ensures author { IsTrue result → head.now.author < parts.now.members }
    ensures room { IsTrue result → slice_index running.now head.now.author < 2 ^ 32 - 1 }
    ensures kept { IsTrue result → IsTrue (is_kept_name parts.now head.now.epoch) }
{
    if head.author >= parts.members || head.members != parts.members || !head.is_shaped {
        return false;
    }
    head.seq as u64 == running.get(head.author) as u64 + 1
        && is_counted
        && is_kept_name(parts, epochs, found, head.epoch)
        && is_last(parts, head)
}

// Whether the epoch is one of the list. It isn't searched if it is the one that was found last.
fn is_kept_name(parts: &Parts, epochs: &Epochs, found: Option<EpochName>, name: EpochName) -> bool
    requires found { IfSome found (λ e. IsTrue (is_kept_name parts.now e)) }
    requires epochs_are { epochs.now.epochs ≡ epochs_of parts.now }
    requires rule { epoch_fault parts.now [] parts.now.epochs ≡ None }
    requires given { AreEpochParts parts.now.epochs }
    ensures kept { result ≡ is_kept_name parts.now name }
{
    match found {
        Some(before) if before.same(&name) => true,
        _ => epochs.kept(name),
    }
}

// Whether both have equal counts.
fn same_counts(vector: &Vector, other: &Vector) -> bool
    ensures same { result ≡ numbers_eq vector.now other.now }
{
    vector.counts().cmp(other.counts()).is_eq()
}

/// Rules 5 and 6: whether the unstable operations, each of which comes next, lead from the stable vector to the own one, or the place
/// of the first that doesn't come next.
pub fn log_fault(
    parts: &Parts,
    epochs: &Epochs,
    stable: &Vector,
) -> Result<Result<bool, u64>, AllocError>
    requires given { AreGiven parts.now }
    requires epochs_are { epochs.now.epochs ≡ epochs_of parts.now }
    requires rule { epoch_fault parts.now [] parts.now.epochs ≡ None }
    requires stable_is { stable.now ≡ stable_of_parts parts.now }
    ensures tested { IfOk result (IsLogTested parts.now) }
{
    let mut running = stable.copy()?;
    let mut found = None;
    for i in 0..parts.log.len() {
        let head = parts.log.head(i);
        let is_counted = parts.log.context_at_most(i, &running);
        if !is_next(parts, epochs, &running, found, &head, is_counted) {
            return Ok(Err(i as u64));
        }
        running.raise(head.author);
        found = Some(head.epoch);
    }
    Ok(Ok(same_counts(&running, &parts.vector)))
}
