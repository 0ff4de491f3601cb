//! Messages that are taken.
//! Why: CHOICES.md, 206.

ghost use Rattle.std.specs.Prelude.{◌≡◌, length, string_bytes, IfOk, IsSome};
ghost use Rattle.rls_codec.specs.CodecLaws.{IsMessage};
ghost use Rattle.rls_codec.specs.Gives.{Decodes};
ghost use Rattle.rls_codec.specs.Reading.{message_of};
ghost use Rattle.rls_report.specs.Reports.{take_text};
ghost use Rattle.rls_stages.specs.KeptFile.{saved};
ghost use Rattle.rls_seen.specs.Sane.{IsSane};
ghost use Rattle.rls_file.specs.Stored.{AreWritable};
ghost use Rattle.rls_top.specs.Due.{due_of_message, stores};
ghost use Rattle.rls_stages.specs.Errors.{of_work};
ghost use Rattle.rls_top.specs.Stages.{IsDue};

use crate::made::{Made, saving};
use rls_codec::{DecodeError, decode_message, give_back};
use rls_model::Taken;
use rls_ops::Message;
use rls_replica::{Replica, TakeError};
use rls_report::{CommandError, taken_report};
use rls_stages::WorkError;
use std::alloc::Global;

/// Takes the message that these bytes are. They are given up as soon as it is read.
pub(crate) fn take(alloc: Global, replica: &mut Replica, bytes: Vec<u8>) -> Result<Made, WorkError>
    requires sane { IsSane replica.old }
    requires writable { AreWritable replica.old }
    ensures due { IsDue of_work result (due_of_message replica.old (message_of bytes.items)) }
    ensures stored { IfOk result (λ made. IsSome made.stored) }
{
    match read_message(alloc, bytes) {
        Err(DecodeError::Malformed { at }) => Err(WorkError::Command {
            error: CommandError::Malformed { at },
        }),
        Err(DecodeError::OutOfMemory) => Err(WorkError::OutOfMemory),
        Ok(message) => match replica.take(message) {
            Err(TakeError::OtherGroup { group, members }) => Err(WorkError::Command {
                error: CommandError::OtherGroup { group, members },
            }),
            Err(TakeError::OutOfMemory) => Err(WorkError::OutOfMemory),
            Ok(taken) => report_taken(alloc, replica, &taken),
        },
    }
}

// The message that these bytes are, which are given up.
fn read_message(alloc: Global, bytes: Vec<u8>) -> Result<Message, DecodeError>
    ensures decoded { Decodes result (message_of bytes.items) }
    ensures message { IfOk result (IsMessage bytes.items) }
{
    let found = decode_message(alloc, &bytes);
    give_back(bytes);
    found
}

// The report of a message that was taken, the lines of what was refused, and the file.
fn report_taken(alloc: Global, replica: &Replica, taken: &Taken) -> Result<Made, WorkError>
    requires writable { AreWritable replica.now }
    ensures due { IsDue of_work result (stores (saved replica.now) (take_text taken.now.applied taken.now.released taken.now.repeated taken.now.held (length taken.now.refused)) taken.now.refused) }
    ensures stored { IfOk result (λ made. IsSome made.stored) }
{
    match taken_report(alloc, taken) {
        Err(_) => Err(WorkError::OutOfMemory),
        Ok(report) => saving(alloc, replica, report, &taken.refused),
    }
}
