//! Lines as edits.

ghost use Rattle.std.specs.Prelude.{◌≡◌, IfOk, IfErr, OnErr, OnOk};
ghost use Rattle.rls_script.specs.Clusters.{cluster_before};
ghost use Rattle.rls_seen.specs.Edits.{edit_fault_over};
ghost use Rattle.rls_seen.specs.Seen.{text_over};
ghost use Rattle.rls_stages.specs.Lines.{allowed, backward_by, read_line};
ghost use Rattle.rls_stages.specs.Errors.{IsEdited, IsRefused};

use crate::errors::{LineError, refused};
use rls_model::Edit;
use rls_replica::Replica;
use rls_report::LineFault;
use rls_script::{ClusterError, Line, cluster_in};
use std::alloc::AllocError;

/// How far before a position its grapheme cluster is looked for first, in characters.
const FIRST_REACH: u64 = 8;

/// Performs a line: makes the edit that it means. After an error the replica is as before. The text of an insertion is moved, and
/// isn't copied.
///
/// The time is that of the edit. A line `b` also reads the text before its position, at most four times as far as to the last
/// character before the cluster past which no rule on clusters looks, and a few characters more; each costs a step for each level
/// of the tree.
pub fn perform_line(replica: &mut Replica, line: Line) -> Result<(), LineError>
    ensures made { OnOk result (IsEdited replica.old (read_line replica.old line) replica.new) }
    ensures refused { IfErr result (λ e. IsRefused e (read_line replica.old line)) }
    ensures err { OnErr result (replica.new ≡ replica.old) }
{
    match edit_of(replica, line) {
        Err(error) => Err(error),
        Ok(edit) => perform_edit(replica, edit),
    }
}

/// The edit that a line means, whether or not it is allowed. It has the line's text itself. A line `b` that deletes no grapheme cluster
/// is refused here, with the place at fault.
pub fn edit_of(replica: &Replica, line: Line) -> Result<Edit, LineError>
    ensures meant { IfOk result (λ edit. read_line replica.now line ≡ allowed replica.now edit) }
    ensures refused { IfErr result (λ e. IsRefused e (read_line replica.now line)) }
{
    match line {
        Line::Insert { at, text } => Ok(Edit::Insert { at, text }),
        Line::Delete { at, count } => Ok(Edit::Delete { at, count }),
        Line::Back { at } => backward(replica, at),
        Line::Rename => Ok(Edit::Rename),
    }
}

// The deletion of the grapheme cluster that ends at this position.
fn backward(replica: &Replica, at: u64) -> Result<Edit, LineError>
    ensures meant { IfOk result (λ edit. backward_by edit_fault_over replica.now at (cluster_before (text_over replica.now) at) ≡ allowed replica.now edit) }
    ensures refused { IfErr result (λ e. IsRefused e (backward_by edit_fault_over replica.now at (cluster_before (text_over replica.now) at))) }
{
    match cluster_at(replica, at) {
        Err(_) => Err(LineError::OutOfMemory),
        Ok(found) => match found {
            Ok(from) => Ok(Edit::Delete {
                at: from,
                count: at - from,
            }),
            Err(ClusterError::Range { at, total }) => Err(refused(LineFault::Range { at, total })),
            Err(ClusterError::NotBoundary { at }) => Err(refused(LineFault::NotBoundary { at })),
        },
    }
}

// Where the grapheme cluster that ends at this position begins. A window of the text is read, from a few characters before the
// position to the one after it, and then one that reaches twice as far back, until the window tells it.
fn cluster_at(replica: &Replica, at: u64) -> Result<Result<u64, ClusterError>, AllocError>
    ensures found { IfOk result (λ found. found ≡ cluster_before (text_over replica.now) at) }
{
    let total = replica.total();
    if at == 0 || at > total {
        return Ok(Err(ClusterError::Range { at, total }));
    }
    let end = total.min(at + 1);
    let mut reach = FIRST_REACH;
    loop {
        let from = at.saturating_sub(reach);
        let window = replica.text_of(from, end - from)?;
        if let Some(found) = cluster_in(window, from, at)? {
            return Ok(found);
        }
        reach = reach.saturating_mul(2);
    }
}

/// Makes an edit, whose text is moved and isn't copied. After an error the replica is as before.
pub fn perform_edit(replica: &mut Replica, edit: Edit) -> Result<(), LineError>
    ensures made { OnOk result (IsEdited replica.old (allowed replica.old edit) replica.new) }
    ensures refused { IfErr result (λ e. IsRefused e (allowed replica.old edit)) }
    ensures err { OnErr result (replica.new ≡ replica.old) }
{
    match replica.perform(edit) {
        Ok(_) => Ok(()),
        Err(error) => Err(LineError::from(error)),
    }
}
