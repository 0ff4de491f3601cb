//! The commands.

ghost use Rattle.std.specs.Prelude.{◌≡◌, ◌≢◌, ◌≤◌, ℕ, map, string_bytes, None, IfSome, OnOk, OnErr, Err, is_ok};
ghost use Rattle.rls_io.specs.Device.{Rose, Keeps, LoadsWith};
ghost use Rattle.rls_io.specs.Memory.{bytes_of};
ghost use Rattle.rls_stages.specs.Endings.{Writes};
ghost use Rattle.rls_stages.specs.KeptFile.{LeavesFile};
ghost use Rattle.rls_top.specs.Answered.{HasStored, HasWritten, Performs, has_stored};
ghost use Rattle.rls_top.specs.Due.{due, due_of_words};
ghost use Rattle.rls_top.specs.Endings.{line_at};
ghost use Rattle.rls_top.specs.Headline.{CommandMeans};
ghost use Rattle.rls_top.specs.Running.{CommandEnds, FinishEnds, StageEnds};
ghost use Rattle.rls_top.specs.Stages.{IsStatusOf};
ghost use Rattle.rls_top.specs.Words.{command_of};

use crate::made::Made;
use crate::making::make;
use crate::stages::DeviceError;
use crate::telling::tell;
use crate::words::parsed;
use rls_io::{Keeper, Sink, Source, StoreError, write_all_of};
use rls_report::Failure;
use std::alloc::Global;

/// Performs the command that the words are, on the keeper's file, and answers the program's exit status.
///
/// | Status | Cause |
/// |---|---|
/// | 0 | done |
/// | 1 | the words are no command |
/// | 2 | there is no file, or for `new` there is one |
/// | 3 | the file isn't in the grammar |
/// | 4 | the numbers of `new`, the member of `send`, a line of a script, a message, or its group or count of members |
/// | 5 | done, but an operation of the message, or one that waited, was refused |
/// | 6 | the first line of a script whose edit is refused |
/// | 7, 8, 9 | the count of faults rose of the keeper, of the input, of the output |
/// | 10 | out of memory |
/// | 11 | the input has more than 67,108,864 bytes, or the file as kept or to be stored more than 268,435,456 |
///
/// The first clause says what the commands do to a replica with a history, and what they refuse: it holds for every history, with what
/// waits beside it, that the kept file stands for. The others speak of every file, whether or not a history stands behind it. They rest
/// on `due`, the specified outcome, if the kept file and the input are known as far as the command looks at them.
///
/// The steps are: parse the words, load the file, read the input (`edit` and `take` alone), do the work, make the report and the lines
/// for `errors`, store the file once, write the report, write the lines. The first step that fails gives the status, and no later step
/// runs; a failure to write the lines is ignored. A stored file has the newest form, so the first command that stores migrates a file
/// of an older form, and it is read back with the parts of its replica.
///
/// The file changes with the statuses 0, 5 and 9 alone. With 7 or 10 it may be impossible to say: a keeper whose `store` failed doesn't
/// tell its file until the next `load`. With every other status it is as before.
///
/// The cost is that of reading the file and of the work of the replica; a script's lines `b` each read the text around
/// the grapheme cluster that they delete (`perform_line` of `rls_stages`).
/// A file of form 1 is read by receiving its operations one after another. The file is written once, from one buffer.
pub fn run<K: Keeper, S: Source, W: Sink, E: Sink>(
    alloc: Global,
    words: &[String],
    keeper: &mut K,
    input: &mut S,
    output: &mut W,
    errors: &mut E,
) -> u8
    // For every history, with what waits, that the kept file stands for: it is shown, or changed and stored, or what is asked is refused.
    ensures means { CommandMeans (map string_bytes words.now) result (K.file keeper.old) (K.file keeper.new) (S.left input.old) (W.told output.old) (W.told output.new) (Rose (E.faults errors.old) (E.faults errors.new)) (E.told errors.old) (E.told errors.new) }

    // For every file, whether or not it is that of a history: the status, what is written and stored, which calls are made, of which devices, and which of them fail.
    ensures ends { CommandEnds K.file K.faults (LoadsWith K.load_gives) K.store_gives S.left S.faults W.told W.faults (map string_bytes words.now) result keeper.old keeper.new input.old input.new output.old output.new }
    // Also of devices that tell nothing: what was stored and written is what is called for by the file that the load found and by the bytes that
    // the reads gave.
    ensures performs { Performs K.load_gives K.store_gives S.read_gives W.write_gives (due (map string_bytes words.now)) result keeper.old keeper.new input.old input.new output.old output.new }
    // The line that goes with the status is written to `errors`, or the lines that tell refused operations.
    ensures line { IfSome (line_at (due (map string_bytes words.now) (K.file keeper.old) (S.left input.old)) result) (λ line.
        Writes (Rose (E.faults errors.old) (E.faults errors.new)) (E.told errors.old) (E.told errors.new) line) }
{
    let ending = perform(alloc, words, keeper, input, output);
    tell(alloc, ending, errors)
}

// Performs the command, but for what is written to the errors.
fn perform<K: Keeper, S: Source, W: Sink>(
    alloc: Global,
    words: &[String],
    keeper: &mut K,
    input: &mut S,
    output: &mut W,
) -> Result<Made, Failure>
    ensures ends { StageEnds K.file K.faults (LoadsWith K.load_gives) K.store_gives S.left S.faults W.told W.faults (command_of (map string_bytes words.now)) result keeper.old keeper.new input.old input.new output.old output.new }
    ensures performs { (n : ℕ) → IsStatusOf result n → Performs K.load_gives K.store_gives S.read_gives W.write_gives (due_of_words (command_of (map string_bytes words.now))) n keeper.old keeper.new input.old input.new output.old output.new }
{
    match parsed(words) {
        None => Err(Failure::NoCommand),
        Some(command) => match make(alloc, command, keeper, input) {
            Err(error) => Err(Failure::from(error)),
            Ok(made) => match finish(alloc, &made, keeper, output) {
                Err(error) => Err(Failure::from(error)),
                Ok(()) => Ok(made),
            },
        },
    }
}

// Stores and writes what was made.
fn finish<K: Keeper, W: Sink>(
    alloc: Global,
    made: &Made,
    keeper: &mut K,
    output: &mut W,
) -> Result<(), DeviceError>
    ensures ends { FinishEnds K.file K.faults K.store_gives W.told W.faults made.now result keeper.old keeper.new output.old output.new }
    ensures stores { HasStored K.store_gives (bytes_of made.now.stored) (has_stored result) keeper.old keeper.new }
    ensures wrote { HasWritten W.write_gives made.now.report.items result output.old output.new }
{
    match store(alloc, made, keeper) {
        Err(StoreError::Failed) => Err(DeviceError::KeeperFault),
        Err(StoreError::OutOfMemory) => Err(DeviceError::OutOfMemory),
        Ok(()) => match write_all_of(output, &made.report) {
            Ok(()) => Ok(()),
            Err(_) => Err(DeviceError::SinkFault),
        },
    }
}

// Stores the file that was made, if there is one.
fn store<K: Keeper>(alloc: Global, made: &Made, keeper: &mut K) -> Result<(), StoreError>
    ensures ok { OnOk result (LeavesFile (bytes_of made.now.stored) (K.file keeper.old) (K.file keeper.new)) }
    ensures err { OnErr result (Keeps (K.file keeper.new) (K.file keeper.old)) }
    ensures unstored { made.now.stored ≡ None → (keeper.new ≡ keeper.old) × (result ≢ Err StoreError.Failed) }
    ensures keeper { result ≡ Err StoreError.Failed → Rose (K.faults keeper.old) (K.faults keeper.new) }
    ensures uncounted { result ≢ Err StoreError.Failed → K.faults keeper.new ≡ K.faults keeper.old }
    ensures never_falls { K.faults keeper.old ≤ K.faults keeper.new }
    ensures calls { IfSome (bytes_of made.now.stored) (λ bytes. K.store_gives keeper.old bytes (is_ok result) keeper.new) }
    ensures stores { HasStored K.store_gives (bytes_of made.now.stored) (is_ok result) keeper.old keeper.new }
{
    match &made.stored {
        None => Ok(()),
        Some(bytes) => keeper.store(alloc, bytes),
    }
}
