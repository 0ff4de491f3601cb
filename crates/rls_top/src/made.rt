//! What a command has made before anything of it is stored or written.

ghost use Rattle.std.specs.Prelude.{◌≡◌, ◌++◌, [], None, IfOk, IsSome, take, string_bytes};
ghost use Rattle.rls_model.specs.Answers.{reason_of};
ghost use Rattle.rls_report.specs.Refused.{refused_line};
ghost use Rattle.rls_stages.specs.Errors.{of_work};
ghost use Rattle.rls_stages.specs.KeptFile.{saved};
ghost use Rattle.rls_file.specs.Stored.{AreWritable};
ghost use Rattle.rls_top.specs.Due.{stores, refused_lines};
ghost use Rattle.rls_top.specs.Stages.{IsDue, IsMade};

use rls_model::Refusals;
use rls_replica::Replica;
use rls_report::refusal_line;
use rls_stages::{WorkError, file_of};
use std::alloc::{AllocError, Global};

/// What a command has made, before anything of it is stored or written.
#[derive(Drop)]
pub(crate) struct Made {
    /// The file that is to be stored, if the command stores one.
    pub(crate) stored: Option<Vec<u8>>,
    /// What is to be written to the output.
    pub(crate) report: Vec<u8>,
    /// The lines that tell refused operations.
    pub(crate) lines: String,
    /// How many operations were refused.
    pub(crate) refused: usize,
}

/// This report, with nothing to store.
pub(crate) fn showing(alloc: Global, report: Vec<u8>) -> Made
    ensures made { IsMade result None report.items [] }
    ensures unstored { result.stored ≡ None }
{
    Made {
        stored: None,
        report,
        lines: String::new(alloc),
        refused: 0,
    }
}

/// The file of a replica, with this report and the lines that tell the refused operations.
pub(crate) fn saving(
    alloc: Global,
    replica: &Replica,
    report: String,
    refused: &Refusals,
) -> Result<Made, WorkError>
    requires writable { AreWritable replica.now }
    ensures due { IsDue of_work result (stores (saved replica.now) (string_bytes report) refused.now) }
    ensures stored { IfOk result (λ made. IsSome made.stored) }
{
    match lines_of(alloc, refused) {
        Err(_) => Err(WorkError::OutOfMemory),
        Ok(lines) => match file_of(alloc, replica) {
            Err(error) => Err(error),
            Ok(bytes) => Ok(Made {
                stored: Some(bytes),
                report: report.into_bytes(),
                lines,
                refused: refused.len(),
            }),
        },
    }
}

// The lines that tell refused operations, in order.
fn lines_of(alloc: Global, refused: &Refusals) -> Result<String, AllocError>
    ensures lines { IfOk result (λ text. string_bytes text ≡ refused_lines refused.now) }
{
    let mut text = String::new(alloc);
    for i in 0..refused.len() {
        let (author, seq, refusal) = refused.get(i);
        let line = refusal_line(alloc, author, seq, refusal)?;
        text.push_str(line.as_str())?;
    }
    Ok(text)
}
