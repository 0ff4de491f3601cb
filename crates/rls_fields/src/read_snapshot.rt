//! A snapshot after its head.
//! Why: CHOICES.md, 205.

ghost use Rattle.std.specs.Prelude.{◌<◌};
ghost use Rattle.rls_codec.specs.Gives.{Gives};
ghost use Rattle.rls_fields.specs.ReadingFields.{snapshot_at};

use crate::read_epochs::{epoch_count, epoch_list};
use crate::read_rows::{left_members, rows};
use crate::read_stems::stems;
use crate::read_text::text_runs;
use rls_codec::{ReadError, ops, vector};
use rls_log::read_log;
use rls_model::Parts;
use std::alloc::Global;

/// The parts of a replica, as they stand after the head of a snapshot of this form: after the group, the count of members and the
/// own number. It takes them from the front of the bytes, in one pass, and answers the bytes after them. Which rules the parts keep
/// with one another isn't looked at.
///
/// # Errors
///
/// `Fault` with how many bytes were left at the first byte of the first field that is cut off or breaks its own rule. A run of the
/// text that isn't above the one before has the place of its first byte, and characters that are more or fewer than the run's
/// identifiers have the place of their number of bytes. `OutOfMemory` for want of memory alone.
#[tactic(auto, unfolding(crate::specs::ReadingFields::snapshot_at))]
pub fn snapshot(
    alloc: Global,
    form: u8,
    group: u64,
    members: u32,
    me: u32,
    bytes: &[u8],
) -> Result<(Parts, &[u8]), ReadError>
    requires some { 0 < members }
    ensures read { Gives (λ x. (x.0, x.1.now)) result (snapshot_at form group members me bytes.now) }
{
    let (vector, rest) = vector(alloc, members, bytes)?;
    let (rows, rest) = rows(alloc, members, members - 1, rest)?;
    let (left, rest) = left_members(alloc, form, members, rest)?;
    let (stems, rest) = stems(alloc, form, members, rest)?;
    let (count, rest) = epoch_count(rest)?;
    let (epochs, rest) = epoch_list(alloc, count, rest)?;
    let (text, rest) = text_runs(alloc, rest)?;
    let (log, rest) = read_log(alloc, members, rest)?;
    let (held, rest) = ops(alloc, members, rest)?;
    let parts = Parts {
        group,
        members,
        me,
        vector,
        rows,
        stems,
        epochs,
        text,
        log,
        held,
        left,
    };
    Ok((parts, rest))
}
