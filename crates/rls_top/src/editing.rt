//! Edits.

ghost use Rattle.std.specs.Prelude.{◌≡◌, ℕ, [], length, IfOk, IfErr, IsSome};
ghost use Rattle.rls_report.specs.Reports.{edit_text};
ghost use Rattle.rls_script.specs.Scripts.{script_of};
ghost use Rattle.rls_stages.specs.Errors.{of_work};
ghost use Rattle.rls_stages.specs.KeptFile.{saved};
ghost use Rattle.rls_seen.specs.Sane.{IsSane};
ghost use Rattle.rls_file.specs.Stored.{AreWritable};
ghost use Rattle.rls_top.specs.Due.{due_of_run, due_of_script, stores};
ghost use Rattle.rls_top.specs.Scripts.{run_script, run_leave};
ghost use Rattle.rls_top.specs.Stages.{EndsAs, IsDue, IsRun};

use crate::made::{Made, saving};
use crate::stages::at_line;
use rls_model::{Edit, Taken};
use rls_replica::Replica;
use rls_report::{CommandError, edit_report};
use rls_script::{Lines, ScriptError, parse};
use rls_stages::{WorkError, perform_edit, perform_line};
use std::alloc::Global;

/// Performs a script. Its bytes are given up once they are read, and each line once it is performed.
///
/// The time is that of the edits, and for each line `b` that of the characters before its position that it reads (`perform_line`).
pub(crate) fn edit(alloc: Global, replica: &mut Replica, script: Vec<u8>) -> Result<Made, WorkError>
    requires sane { IsSane replica.old }
    requires writable { AreWritable replica.old }
    ensures due { IsDue of_work result (due_of_script replica.old (script_of script.items)) }
    ensures stored { IfOk result (λ made. IsSome made.stored) }
{
    let parsed = parse(alloc, &script);
    drop(script);
    match parsed {
        Err(ScriptError::BadLine { line }) => Err(WorkError::Command {
            error: CommandError::BadLine { line },
        }),
        Err(ScriptError::OutOfMemory) => Err(WorkError::OutOfMemory),
        Ok(lines) => {
            let edits = lines.len();
            let taken = perform_lines(alloc, replica, lines)?;
            report_edits(alloc, replica, edits, &taken)
        }
    }
}

/// Performs the one edit by which a member leaves.
pub(crate) fn leave(alloc: Global, replica: &mut Replica) -> Result<Made, WorkError>
    requires sane { IsSane replica.old }
    requires writable { AreWritable replica.old }
    ensures due { IsDue of_work result (due_of_run 1 (run_leave replica.old)) }
    ensures stored { IfOk result (λ made. IsSome made.stored) }
{
    let mut taken = Taken::new(alloc);
    match perform_edit(replica, Edit::Leave) {
        Err(error) => Err(at_line(1, error)),
        Ok(()) => match replica.release_all(&mut taken) {
            Err(_) => Err(WorkError::OutOfMemory),
            Ok(()) => report_edits(alloc, replica, 1, &taken),
        },
    }
}

// The report of so many edits, the lines of what was refused, and the file.
fn report_edits(
    alloc: Global,
    replica: &Replica,
    edits: usize,
    taken: &Taken,
) -> Result<Made, WorkError>
    requires writable { AreWritable replica.now }
    ensures due { IsDue of_work result (stores (saved replica.now) (edit_text edits taken.now.released (length taken.now.refused)) taken.now.refused) }
    ensures stored { IfOk result (λ made. IsSome made.stored) }
{
    let refused = taken.refused.len() as u64;
    match edit_report(alloc, edits as u64, taken.released, refused) {
        Err(_) => Err(WorkError::OutOfMemory),
        Ok(report) => saving(alloc, replica, report, &taken.refused),
    }
}

// Performs the lines, one after another, and releases what is ready after each.
fn perform_lines(alloc: Global, replica: &mut Replica, lines: Lines) -> Result<Taken, WorkError>
    ensures run { IfOk result (λ taken. IsRun taken replica.new (run_script replica.old lines)) }
    ensures refused { IfErr result (λ e. (n : ℕ) → EndsAs (of_work e) (due_of_run n (run_script replica.old lines))) }
{
    let mut taken = Taken::new(alloc);
    for (i, line) in lines.into_vec().into_iter().enumerate() {
        match perform_line(replica, line) {
            Err(error) => return Err(at_line(i as u64 + 1, error)),
            Ok(()) => replica.release_all(&mut taken)?,
        }
    }
    Ok(taken)
}
