//! Commands that write something of the replica, and store nothing; and the trial.

ghost use Rattle.std.specs.Prelude.{◌≡◌, ◌≤◌, None, IfOk, OnOk, encode_utf8_all, string_bytes};
ghost use Rattle.rls_seen.specs.Seen.{text_over};
ghost use Rattle.rls_world.specs.Trial.{trial};
ghost use Rattle.rls_file.specs.Stored.{AreWritable};
ghost use Rattle.rls_top.specs.Due.{due_of_text, due_of_ids, due_of_stat, due_of_send, shows, summary_text};
ghost use Rattle.rls_stages.specs.Errors.{of_work};
ghost use Rattle.rls_top.specs.Endings.{IsSent};
ghost use Rattle.rls_top.specs.Stages.{IsDue};

use crate::made::{Made, showing};
use rls_replica::{Replica, SendError};
use rls_report::{CommandError, ids_json, stat_text, trial_report};
use rls_stages::WorkError;
use rls_sync::message_bytes;
use rls_world::{Summary, trial};
use std::alloc::{AllocError, Global};

/// Shows the text.
pub(crate) fn show_text(alloc: Global, replica: &Replica) -> Result<Made, WorkError>
    ensures due { IsDue of_work result (due_of_text replica.now) }
    ensures unstored { IfOk result (λ made. made.stored ≡ None) }
{
    let text = replica.utf8()?;
    Ok(showing(alloc, text.into_bytes()))
}

/// Shows the greatest epoch and the maximal runs of the identifiers of the text.
pub(crate) fn show_ids(alloc: Global, replica: &Replica) -> Result<Made, WorkError>
    ensures due { IsDue of_work result (due_of_ids replica.now) }
    ensures unstored { IfOk result (λ made. made.stored ≡ None) }
{
    let line = ids_json(alloc, replica)?;
    Ok(showing(alloc, line.into_bytes()))
}

/// Shows the replica's numbers.
pub(crate) fn show_stat(alloc: Global, replica: &Replica) -> Result<Made, WorkError>
    ensures due { IsDue of_work result (due_of_stat replica.now) }
    ensures unstored { IfOk result (λ made. made.stored ≡ None) }
{
    let lines = stat_text(alloc, replica)?;
    Ok(showing(alloc, lines.into_bytes()))
}

/// Shows the message for a member.
pub(crate) fn show_message(alloc: Global, replica: &Replica, to: u32) -> Result<Made, WorkError>
    requires writable { AreWritable replica.now }
    ensures due { IsDue of_work result (due_of_send replica.now to) }
    ensures sent { OnOk result (IsSent to replica.now) }
    ensures unstored { IfOk result (λ made. made.stored ≡ None) }
{
    match message_bytes(alloc, replica, to) {
        Ok(bytes) => Ok(showing(alloc, bytes)),
        Err(SendError::NotMember) => Err(WorkError::Command {
            error: CommandError::NotMember { to },
        }),
        Err(SendError::OutOfMemory) => Err(WorkError::OutOfMemory),
    }
}

/// Shows the summary of a trial.
pub(crate) fn show_trial(alloc: Global, seed: u32, steps: u32) -> Result<Made, WorkError>
    ensures due { IsDue of_work result (shows (summary_text seed steps (trial seed steps))) }
    ensures unstored { IfOk result (λ made. made.stored ≡ None) }
{
    let text = summary_text(alloc, seed, steps)?;
    Ok(showing(alloc, text.into_bytes()))
}

// The summary of a trial.
fn summary_text(alloc: Global, seed: u32, steps: u32) -> Result<String, AllocError>
    ensures text { IfOk result (λ text. string_bytes text ≡ summary_text seed steps (trial seed steps)) }
{
    let Summary {
        accepted,
        totals,
        runs,
        epochs,
        former,
    } = trial(alloc, seed, steps)?;
    let members = [
        (totals[0], runs[0]),
        (totals[1], runs[1]),
        (totals[2], runs[2]),
    ];
    trial_report(alloc, seed, steps, &accepted, &members, epochs, former)
}
