//! The choice between a session and a command.
//! Why: CHOICES.md, 182.

ghost use Rattle.std.specs.Prelude.{◌≡◌, None, map, string_bytes, IfOk, IsErr, IsFalse, IsTrue};
ghost use Rattle.rls_io.specs.Device.{LoadsWith};
ghost use Rattle.rls_session.specs.AsTold.{SessionPerforms, faults};
ghost use Rattle.rls_session.specs.Words.{begins_session};
ghost use Rattle.rls_top.specs.Answered.{Performs};
ghost use Rattle.rls_top.specs.Due.{due};
ghost use Rattle.rls_cli.specs.Folder.{CountsWith, LoadGives, StoreGives, faults_of};
ghost use Rattle.rls_cli.specs.Performing.{ProgramEnds};

use crate::folder::FolderKeeper;
use rls_io::{Keeper, Sink, Source};
use rls_session::{begins_session, serve};
use rls_top::run;
use std::alloc::{AllocError, Global};

/// The status if there is no memory for the words.
const OUT_OF_MEMORY: u8 = 10;

/// Does what the words ask for over these devices, and answers the program's exit status: a session if the only word is `session`, and
/// otherwise a command.
pub(crate) fn perform<K: Keeper, S: Source, W: Sink, E: Sink>(
    alloc: Global,
    words: &[String],
    keeper: &mut K,
    input: &mut S,
    output: &mut W,
    errors: &mut E,
) -> u8
    // How it ends, what it leaves, and which calls it makes of which devices, of which the one of the status has failed.
    ensures ends { ProgramEnds K.file K.faults (LoadsWith K.load_gives) K.store_gives S.left S.faults W.told W.faults (map string_bytes words.now) result keeper.old keeper.new input.old input.new output.old output.new }
    // A command stores and writes what is called for by the file that the load found and by the bytes that the reads gave.
    ensures performs { IsFalse (begins_session (map string_bytes words.now)) → Performs K.load_gives K.store_gives S.read_gives W.write_gives (due (map string_bytes words.now)) result keeper.old keeper.new input.old input.new output.old output.new }
    // So does a session, store by store and reply by reply: it ends as over devices that tell these.
    ensures serves { IsTrue (begins_session (map string_bytes words.now)) → SessionPerforms K.load_gives K.store_gives S.read_gives W.write_gives result keeper.old keeper.new input.old input.new output.old output.new
        (faults K.faults S.faults W.faults keeper.old input.old output.old) (faults K.faults S.faults W.faults keeper.new input.new output.new) }
{
    if begins_session(words) {
        return serve(alloc, keeper, input, output, errors);
    }
    run(alloc, words, keeper, input, output, errors)
}

/// The same over the keeper of the current folder, which doesn't tell its file, as the program does it: in the words of the two keepers, whatever
/// they are, so each call is one of the keeper that was chosen. With status 7 the keeper has failed
/// at one call, the last; with every other status but 10 it hasn't failed, so another device that failed was the first.
pub(crate) fn perform_in_folder<A: Keeper, B: Keeper, S: Source, W: Sink, E: Sink>(
    alloc: Global,
    words: &[String],
    keeper: &mut FolderKeeper<A, B>,
    input: &mut S,
    output: &mut W,
    errors: &mut E,
) -> u8
    ensures ends { ProgramEnds (λ _. None) (faults_of A.faults B.faults) (LoadsWith (LoadGives A.load_gives B.load_gives A.faults B.faults)) (StoreGives A.store_gives B.store_gives A.faults B.faults) S.left S.faults W.told W.faults (map string_bytes words.now) result keeper.old keeper.new input.old input.new output.old output.new }
    ensures performs { IsFalse (begins_session (map string_bytes words.now)) → Performs (LoadGives A.load_gives B.load_gives A.faults B.faults) (StoreGives A.store_gives B.store_gives A.faults B.faults) S.read_gives W.write_gives (due (map string_bytes words.now)) result keeper.old keeper.new input.old input.new output.old output.new }
    ensures serves { IsTrue (begins_session (map string_bytes words.now)) → SessionPerforms (LoadGives A.load_gives B.load_gives A.faults B.faults) (StoreGives A.store_gives B.store_gives A.faults B.faults) S.read_gives W.write_gives result keeper.old keeper.new input.old input.new output.old output.new
        (faults (faults_of A.faults B.faults) S.faults W.faults keeper.old input.old output.old) (faults (faults_of A.faults B.faults) S.faults W.faults keeper.new input.new output.new) }
    ensures keeper { CountsWith result (faults_of A.faults B.faults keeper.old) (faults_of A.faults B.faults keeper.new) }
{
    perform(alloc, words, keeper, input, output, errors)
}

/// The same, if there was memory for the words. If there wasn't, the status is 10, and no device is called.
pub(crate) fn perform_given<A: Keeper, B: Keeper, S: Source, W: Sink, E: Sink>(
    alloc: Global,
    words: Result<Vec<String>, AllocError>,
    keeper: &mut FolderKeeper<A, B>,
    input: &mut S,
    output: &mut W,
    errors: &mut E,
) -> u8
    ensures none { IsErr words → (result ≡ 10) × (keeper.new ≡ keeper.old) × (input.new ≡ input.old) × (output.new ≡ output.old) × (errors.new ≡ errors.old) }
    ensures ends { IfOk words (λ ws. ProgramEnds (λ _. None) (faults_of A.faults B.faults) (LoadsWith (LoadGives A.load_gives B.load_gives A.faults B.faults)) (StoreGives A.store_gives B.store_gives A.faults B.faults) S.left S.faults W.told W.faults (map string_bytes ws.items) result keeper.old keeper.new input.old input.new output.old output.new) }
    ensures performs { IfOk words (λ ws. IsFalse (begins_session (map string_bytes ws.items)) → Performs (LoadGives A.load_gives B.load_gives A.faults B.faults) (StoreGives A.store_gives B.store_gives A.faults B.faults) S.read_gives W.write_gives (due (map string_bytes ws.items)) result keeper.old keeper.new input.old input.new output.old output.new) }
    ensures serves { IfOk words (λ ws. IsTrue (begins_session (map string_bytes ws.items)) → SessionPerforms (LoadGives A.load_gives B.load_gives A.faults B.faults) (StoreGives A.store_gives B.store_gives A.faults B.faults) S.read_gives W.write_gives result keeper.old keeper.new input.old input.new output.old output.new
        (faults (faults_of A.faults B.faults) S.faults W.faults keeper.old input.old output.old) (faults (faults_of A.faults B.faults) S.faults W.faults keeper.new input.new output.new)) }
    ensures keeper { CountsWith result (faults_of A.faults B.faults keeper.old) (faults_of A.faults B.faults keeper.new) }
{
    match words {
        Ok(words) => perform_in_folder(alloc, &words, keeper, input, output, errors),
        Err(AllocError) => OUT_OF_MEMORY,
    }
}
