//! Places of the text that stay with a character.

ghost use Rattle.std.specs.Prelude.{◌≡◌, ℕ, ◌<◌, ◌≤◌, ◌↔◌, length, IfOk, OnOk, IsErrOf};
ghost use Rattle.rls_session.specs.Answers.{spelled};
ghost use Rattle.rls_session.specs.Replies.{located_text};
ghost use Rattle.rls_session.specs.Sessions.{by_parts};

use crate::orders::Side;
use crate::replies;
use rls_anchor::{Anchor, AnchorError};
use rls_replica::Replica;
use rls_report::LineFault;
use std::alloc::{AllocError, Global};

/// The anchor at a place, of the character on this side.
pub(crate) fn anchor_of(replica: &Replica, side: Side, at: u64) -> Result<Anchor, AnchorError>
    ensures anchor { IfOk result (λ a. a ≡ by_parts.anchor replica.now side at) }
    ensures within { OnOk result (at ≤ length replica.now.text) }
    ensures range { (n m : ℕ) → (IsErrOf result (AnchorError.Range n m) ↔ ((n ≡ at) × (m ≡ length replica.now.text) × (length replica.now.text < at))) }
{
    match side {
        Side::Before => Anchor::at(replica, at),
        Side::After => Anchor::before(replica, at),
    }
}

/// A place as a word.
pub(crate) fn spell(alloc: Global, replica: &Replica, at: u64) -> Result<Vec<u8>, AllocError>
    ensures reply { IfOk result (λ reply. reply.items ≡ spelled by_parts replica.now at) }
{
    match anchor_of(replica, Side::Before, at) {
        Err(AnchorError::OutOfMemory) => Err(AllocError),
        Err(AnchorError::Range { at, total }) => {
            replies::refused(alloc, LineFault::Range { at, total })
        }
        Ok(place) => replies::anchor(alloc, &place),
    }
}

/// Where a place is.
pub(crate) fn locate(
    alloc: Global,
    replica: &Replica,
    place: &Anchor,
) -> Result<Vec<u8>, AllocError>
    ensures reply { IfOk result (λ reply. reply.items ≡ located_text (by_parts.located replica.now place.now)) }
{
    match place.locate(replica)? {
        Some(at) => replies::cursor(alloc, at),
        None => replies::no_epoch(alloc),
    }
}
