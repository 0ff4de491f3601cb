//! A session over the keeper with two slots.

ghost use Rattle.std.specs.Prelude.{◌≡◌, ◌≢◌, IfSome};
ghost use Rattle.rls_journal.specs.Areas.{kept};
ghost use Rattle.rls_journal.specs.Keeper.{IsAtRest, StoreGives, disk_of, file_told};
ghost use Rattle.rls_journal.specs.Slots.{IsSound};
ghost use Rattle.rls_session.specs.Calls.{IsLastDue};
ghost use Rattle.rls_session.specs.Due.{due};
ghost use Rattle.rls_groups.specs.Stops.{HasDue, LeavesOldOrStores};

use rls_io::{Sink, Source};
use rls_journal::{Disk, DiskKeeper};
use rls_session::serve;
use std::alloc::Global;

/// Holds a session by `rls_session::serve`, on the file that the keeper with two slots has, and answers the program's exit status. The
/// clauses of `serve` hold of it too.
///
/// If the keeper was at rest, as one over a disk on which nothing is pending, then whatever the moment of a stop, the kept file is the one of
/// the last store that was answered, or while one is being made that or the new one; until the first store begins it is the one from before the
/// session (`in_turn`). So the next command finds one of them, and never a torn one. With status 0 each later stop leaves the last file, until
/// the next `store`. After the statuses 7, 9 and 10 the file may be either. With every status but 7 and 10 the keeper is at rest again, if the
/// disk retries or held one of two files.
pub fn serve_on_disk<D: Disk, S: Source, W: Sink, E: Sink>(
    alloc: Global,
    keeper: &mut DiskKeeper<D>,
    input: &mut S,
    output: &mut W,
    errors: &mut E,
) -> u8
    // Within the session and after it.
    ensures any_moment { IsAtRest D.retries D.seen D.may_leave (disk_of keeper.old) → IfSome (D.seen (disk_of keeper.old)) (λ s.
        LeavesOldOrStores D.moment D.left_since (StoreGives D.retries D.seen D.may_leave D.moment D.left_since) (due (file_told D.seen keeper.old) (S.left input.old)) (kept s) (disk_of keeper.old) (disk_of keeper.new)) }

    // After it.
    ensures stored { result ≡ 0 → HasDue D.seen D.may_leave (IsLastDue (due (file_told D.seen keeper.old) (S.left input.old))) (disk_of keeper.old) (disk_of keeper.new) }
    ensures rest { result ≢ 7 → result ≢ 10 → IsSound D.retries D.seen D.may_leave (disk_of keeper.old) → IsAtRest D.retries D.seen D.may_leave (disk_of keeper.new) }
{
    serve(alloc, keeper, input, output, errors)
}
