//! Commands over the keeper with two slots.

ghost use Rattle.std.specs.Prelude.{◌≢◌, map, string_bytes, IfSome, IsTrue};
ghost use Rattle.rls_journal.specs.Areas.{kept};
ghost use Rattle.rls_journal.specs.Keeper.{IsAtRest, disk_of, file_told};
ghost use Rattle.rls_journal.specs.Slots.{IsSound};
ghost use Rattle.rls_top.specs.Calls.{IsDueOf};
ghost use Rattle.rls_top.specs.Due.{calls_keeper, due, may_store};
ghost use Rattle.rls_top.specs.Endings.{IsStored};
ghost use Rattle.rls_top.specs.Words.{command_of};
ghost use Rattle.rls_groups.specs.Stops.{HasDue, LeavesOldOrDue};

use rls_io::{Sink, Source};
use rls_journal::{Disk, DiskKeeper};
use rls_top::run;
use std::alloc::Global;

/// Performs a command by `rls_top::run`, on the file that the keeper with two slots has, and answers the program's exit status. The
/// clauses of `run` hold of it too.
///
/// If the keeper was at rest, as one over a disk on which nothing is pending, a stop at any moment of the command leaves a disk whose
/// kept file is the one from before or the one that the command is to store, so that the next command finds the one or the other. A
/// command that stores nothing leaves the one from before. With the statuses 0, 5 and 9 of a command that stores, each later stop
/// leaves the new file. After the statuses 7 and 10 the file may be either. After any other one of a command that calls the keeper it is
/// at rest again, if the disk retries or held one of two files.
pub fn run_on_disk<D: Disk, S: Source, W: Sink, E: Sink>(
    alloc: Global,
    words: &[String],
    keeper: &mut DiskKeeper<D>,
    input: &mut S,
    output: &mut W,
    errors: &mut E,
) -> u8
    // Within the command and after it.
    ensures any_moment { IsAtRest D.retries D.seen D.may_leave (disk_of keeper.old) → IfSome (D.seen (disk_of keeper.old)) (λ s.
        LeavesOldOrDue D.moment D.left_since (may_store (command_of (map string_bytes words.now))) (IsDueOf (due (map string_bytes words.now) (file_told D.seen keeper.old) (S.left input.old))) (kept s) (disk_of keeper.old) (disk_of keeper.new)) }

    // After it.
    ensures stored { IsTrue (may_store (command_of (map string_bytes words.now))) → IsStored result
        → HasDue D.seen D.may_leave (IsDueOf (due (map string_bytes words.now) (file_told D.seen keeper.old) (S.left input.old))) (disk_of keeper.old) (disk_of keeper.new) }
    ensures rest { IsTrue (calls_keeper (command_of (map string_bytes words.now))) → result ≢ 7 → result ≢ 10 → IsSound D.retries D.seen D.may_leave (disk_of keeper.old) → IsAtRest D.retries D.seen D.may_leave (disk_of keeper.new) }
{
    run(alloc, words, keeper, input, output, errors)
}
