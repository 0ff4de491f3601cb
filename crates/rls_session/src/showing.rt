//! What is told of a replica, which stays as it is.

ghost use Rattle.std.specs.Prelude.{◌≡◌, IfOk, OnOk};
ghost use Rattle.rls_session.specs.Answers.{sent, sent_told, stat_reply, text_reply};
ghost use Rattle.rls_session.specs.Sent.{CanSend, CanSendTold};
ghost use Rattle.rls_session.specs.Sessions.{by_parts};
ghost use Rattle.rls_file.specs.Stored.{AreWritable};

use crate::replies;
use rls_ident::Vector;
use rls_replica::{Replica, SendError};
use rls_report::{CommandError, stat_text};
use rls_sync::{message_bytes, message_bytes_told};
use std::alloc::{AllocError, Global};

/// The text.
pub(crate) fn text(alloc: Global, replica: &Replica) -> Result<Vec<u8>, AllocError>
    ensures reply { IfOk result (λ reply. reply.items ≡ text_reply by_parts replica.now) }
{
    let text = replica.utf8()?;
    replies::counted(alloc, "text", text.as_bytes())
}

/// The numbers.
pub(crate) fn stat(alloc: Global, replica: &Replica) -> Result<Vec<u8>, AllocError>
    ensures reply { IfOk result (λ reply. reply.items ≡ stat_reply by_parts replica.now) }
{
    let lines = stat_text(alloc, replica)?;
    replies::counted(alloc, "stat", lines.as_bytes())
}

/// The message for a member.
pub(crate) fn message(alloc: Global, replica: &Replica, to: u32) -> Result<Vec<u8>, AllocError>
    ensures reply { IfOk result (λ reply. reply.items ≡ sent by_parts replica.now to) }
    ensures message { AreWritable replica.now → OnOk result (CanSend replica.now to) }
{
    match message_bytes(alloc, replica, to) {
        Err(SendError::OutOfMemory) => Err(AllocError),
        Err(SendError::NotMember) => replies::failed(alloc, CommandError::NotMember { to }),
        Ok(bytes) => replies::counted(alloc, "message", &bytes),
    }
}

/// The message for a member that told these counts.
pub(crate) fn message_told(
    alloc: Global,
    replica: &Replica,
    to: u32,
    told: &Vector,
) -> Result<Vec<u8>, AllocError>
    ensures reply { IfOk result (λ reply. reply.items ≡ sent_told by_parts replica.now to told.now) }
    ensures message { AreWritable replica.now → OnOk result (CanSendTold replica.now to told.now) }
{
    if told.len() != replica.members() as usize {
        return replies::bad(alloc);
    }
    match message_bytes_told(alloc, replica, to, told.counts()) {
        Err(SendError::OutOfMemory) => Err(AllocError),
        Err(SendError::NotMember) => replies::failed(alloc, CommandError::NotMember { to }),
        Ok(bytes) => replies::counted(alloc, "message", &bytes),
    }
}
