//! The report of a replica's numbers.

ghost use Rattle.std.specs.Prelude.{◌≡◌, IfOk, string_bytes};
ghost use Rattle.rls_model.specs.Receiving.{State};
ghost use Rattle.rls_seen.specs.Stands.{StandsFor};
ghost use Rattle.rls_report.specs.Stat.{stat_of, stat_over};

use crate::reports::stat_report;
use rls_replica::Replica;
use std::alloc::{AllocError, Global};

/// The ten lines that tell a replica's group, number and count of members, how many operations of each member it has accepted, and
/// its numbers.
///
/// The time is that of `Replica::counts`.
///
/// # Errors
///
/// Running out of memory alone.
pub fn stat_text(alloc: Global, replica: &Replica) -> Result<String, AllocError>
    ensures text { IfOk result (λ text. string_bytes text ≡ stat_over replica.now) }

    // For every history and waiting operations that the replica stands for.
    ensures stands { IfOk result (λ text. (t : State) → StandsFor replica.now t → string_bytes text ≡ stat_of t) }
{
    let counts = replica.counts()?;
    stat_report(
        alloc,
        replica.group(),
        replica.me(),
        replica.members(),
        replica.vector(),
        &counts,
    )
}
