//! A session over the kept file.
//! Why: docs/DECISIONS.md, 129.

ghost use Rattle.std.specs.Prelude.{◌≡◌, is_ok, ◌≤◌, ℕ, Bool, List, length, false, Some, Ok, IfSome, OnOk};
ghost use Rattle.rls_io.specs.Device.{LoadsWith, Rose};
ghost use Rattle.rls_codec.specs.CodecLaws.{IsBytes};
ghost use Rattle.rls_model.specs.Receiving.{State};
ghost use Rattle.rls_stages.specs.Endings.{Writes};
ghost use Rattle.rls_stages.specs.KeptFile.{IsFileFor};
ghost use Rattle.rls_session.specs.AsTold.{Exchanged, HasTold, SessionPerforms, StageAs, StretchAs, faults};
ghost use Rattle.rls_session.specs.Devices.{devices};
ghost use Rattle.rls_session.specs.Due.{due, line_at};
ghost use Rattle.rls_session.specs.Endings.{IsStatusOf, Serves, line_of};
ghost use Rattle.rls_session.specs.Intake.{known_come};
ghost use Rattle.rls_session.specs.Serving.{EndsOrGoesOn, SaveEnds, SessionEnds, StageEnds};
ghost use Rattle.rls_session.specs.Sessions.{by_parts, session_in};
ghost use Rattle.rls_session.specs.Answers.{resumed, sitting_at};
ghost use Rattle.rls_session.specs.declared.answering.Halt.TheVariants as Halt;
ghost use Rattle.rls_file.specs.Stored.{AreWritable};

use crate::answering::{Halt, answer_all, write};
use crate::desk::Desk;
use crate::draft::Draft;
use crate::intake::Intake;
use crate::seat;
use rls_io::{Keeper, Sink, Source, StoreError};
use rls_replica::Replica;
use rls_report::{Failure, Fault};
use rls_stages::{file_of, open, tell_failure};
use std::alloc::Global;

/// Answers the requests of the input on the keeper's file, one after another. At each line `w`, and at the line `q` or the input's end, it
/// stores the file and answers `saved`. It answers the program's exit status.
///
/// The replies are a function of the kept file and the input (`session`, `due`): the input is cut into requests from its beginning, and
/// the n-th reply is the one that the definition gives to the n-th request after those before it. So each request is answered once, in
/// order, and none is passed over. An undo is a request like any other: it takes back the last entry that isn't taken back yet, or is
/// refused and leaves that entry the last one, so that none is skipped. After a `w` the session goes on from the replica that was stored,
/// without what every member has; what undoes the last 10,000 edits, the cursors, and whether changes are told stay.
///
/// The keeper is called once to load, before the input is read, and then once for each store. A store that fails is the end. The first
/// device that fails ends the session, and gives the status: no device is called after it, but for the error line.
///
/// | Status | Cause |
/// |---|---|
/// | 0 | done |
/// | 2 | there is no file |
/// | 3 | the file isn't in the grammar |
/// | 7, 8, 9 | the count of faults rose of the keeper, of the input, of the output |
/// | 10 | out of memory |
/// | 11 | neither a line `w` or `q`, without its line feed, nor the end lies within the first 67,108,864 bytes of the input, or of what follows the last `w`; or the file as kept or to be stored has more than 268,435,456 bytes |
///
/// Whatever the status, the kept file is the one of the last store that was done, or as before if none was (`stays`, `kept`). With the status 0
/// that is the last file that is called for. With a 9 the output tells whether the next store was done: it was if all replies up to the
/// next `saved` were written, and then at least one byte of that `saved` wasn't; and it wasn't if at least one byte of these replies wasn't
/// written. With a 7 or a 10 it may be impossible to say, since a keeper whose `store` failed doesn't tell its file until the next `load`.
///
/// What a session keeps in memory follows the replica as of the last store, what came since, and what undoes its edits.
pub fn serve<K: Keeper, S: Source, W: Sink, E: Sink>(
    alloc: Global,
    keeper: &mut K,
    input: &mut S,
    output: &mut W,
    errors: &mut E,
) -> u8
    // For every history, with what waits, that the kept file stands for: the replies are those of the definition, in order, and so are the files.
    ensures session { (t : State) (bytes given : List ℕ) → K.file keeper.old ≡ Some (Some bytes) → IsFileFor bytes t → S.left input.old ≡ Some given → IsBytes given
        → Serves result bytes (session_in t given) (K.file keeper.new) (W.told output.old) (W.told output.new) }

    // The same for every file, whether or not it is that of a history, and which calls are made, of which devices, and which of them fail.
    ensures ends { SessionEnds (LoadsWith K.load_gives) K.store_gives ((input.new ≡ input.old) × (output.new ≡ output.old)) result keeper.old keeper.new
        (devices K.file K.faults S.left S.faults W.told W.faults keeper.old input.old output.old) (devices K.file K.faults S.left S.faults W.told W.faults keeper.new input.new output.new) }
    // Also of devices that tell nothing: it ends so as over devices that tell the file that the load found, the bytes that the reads gave, with any
    // rest after them, and the bytes that the writes took.
    ensures performs { SessionPerforms K.load_gives K.store_gives S.read_gives W.write_gives result keeper.old keeper.new input.old input.new output.old output.new
        (faults K.faults S.faults W.faults keeper.old input.old output.old) (faults K.faults S.faults W.faults keeper.new input.new output.new) }
    // The line that goes with the status is written to `errors`.
    ensures line { IfSome (line_at (due (K.file keeper.old) (S.left input.old)) result) (λ line.
        Writes (Rose (E.faults errors.old) (E.faults errors.new)) (E.told errors.old) (E.told errors.new) line) }
{
    let ending = perform(alloc, keeper, input, output);
    tell(alloc, ending, errors)
}

// Writes the line of a failure, if there is one, and answers the status.
fn tell<E: Sink>(alloc: Global, ending: Result<(), Failure>, errors: &mut E) -> u8
    ensures status { IsStatusOf ending result }
    ensures line { Writes (Rose (E.faults errors.old) (E.faults errors.new)) (E.told errors.old) (E.told errors.new) (line_of ending result) }
{
    match ending {
        Ok(()) => 0,
        Err(failure) => tell_failure(alloc, failure, errors),
    }
}

// Answers the input, and stores the file.
fn perform<K: Keeper, S: Source, W: Sink>(
    alloc: Global,
    keeper: &mut K,
    input: &mut S,
    output: &mut W,
) -> Result<(), Failure>
    ensures ends { (n : ℕ) → IsStatusOf result n → SessionEnds (LoadsWith K.load_gives) K.store_gives ((input.new ≡ input.old) × (output.new ≡ output.old)) n keeper.old keeper.new
        (devices K.file K.faults S.left S.faults W.told W.faults keeper.old input.old output.old) (devices K.file K.faults S.left S.faults W.told W.faults keeper.new input.new output.new) }
    ensures performs { (n : ℕ) → IsStatusOf result n → SessionPerforms K.load_gives K.store_gives S.read_gives W.write_gives n keeper.old keeper.new input.old input.new output.old output.new
        (faults K.faults S.faults W.faults keeper.old input.old output.old) (faults K.faults S.faults W.faults keeper.new input.new output.new) }
    ensures line { (n : ℕ) → IsStatusOf result n → IfSome (line_at (due (K.file keeper.old) (S.left input.old)) n) (λ line. line ≡ line_of result n) }
{
    match open(alloc, keeper) {
        Err(error) => Err(Failure::from(error)),
        Ok(replica) => answer_on(alloc, replica, keeper, input, output),
    }
}

// Answers the input on this replica, and stores its file.
fn answer_on<K: Keeper, S: Source, W: Sink>(
    alloc: Global,
    replica: Replica,
    keeper: &mut K,
    input: &mut S,
    output: &mut W,
) -> Result<(), Failure>
    requires writable { AreWritable replica }
    ensures ends { StageEnds K.store_gives (sitting_at replica) (S.left input.old) false result keeper.old keeper.new
        (devices K.file K.faults S.left S.faults W.told W.faults keeper.old input.old output.old) (devices K.file K.faults S.left S.faults W.told W.faults keeper.new input.new output.new) }
    ensures as_told { (ended : Bool) × Exchanged S.read_gives W.write_gives false (is_ok result) ended input.old input.new output.old output.new
        (StageAs K.store_gives (sitting_at replica) result keeper.old keeper.new (faults K.faults S.faults W.faults keeper.old input.old output.old) (faults K.faults S.faults W.faults keeper.new input.new output.new)) }
{
    let mut desk = Desk::new(alloc, replica);
    serve_desk(alloc, &mut desk, keeper, input, output)
}

// Answers the input at a desk, from store to store.
fn serve_desk<K: Keeper, S: Source, W: Sink>(
    alloc: Global,
    desk: &mut Desk,
    keeper: &mut K,
    input: &mut S,
    output: &mut W,
) -> Result<(), Failure>
    requires writable { AreWritable desk.old.state }
    ensures ends { StageEnds K.store_gives desk.old (S.left input.old) false result keeper.old keeper.new
        (devices K.file K.faults S.left S.faults W.told W.faults keeper.old input.old output.old) (devices K.file K.faults S.left S.faults W.told W.faults keeper.new input.new output.new) }
    ensures as_told { (ended : Bool) × Exchanged S.read_gives W.write_gives false (is_ok result) ended input.old input.new output.old output.new
        (StageAs K.store_gives desk.old result keeper.old keeper.new (faults K.faults S.faults W.faults keeper.old input.old output.old) (faults K.faults S.faults W.faults keeper.new input.new output.new)) }
{
    let mut intake = Intake::new(alloc);
    for _ in 0..u64::MAX {
        match serve_stretch(alloc, desk, &mut intake, keeper, input, output) {
            Err(failure) => return Err(failure),
            Ok(Halt::End) => return Ok(()),
            Ok(Halt::Store) => {}
        }
    }
    // No session comes to so many stores.
    Err(Failure::of_fault(Fault::Memory))
}

// Answers the requests up to the next order to store or to the end, and stores the file.
fn serve_stretch<K: Keeper, S: Source, W: Sink>(
    alloc: Global,
    desk: &mut Desk,
    intake: &mut Intake,
    keeper: &mut K,
    input: &mut S,
    output: &mut W,
) -> Result<Halt, Failure>
    requires writable { AreWritable desk.old.state }
    requires fresh { intake.old.used ≡ 0 }
    requires short { length intake.old.waiting ≤ 4096 }
    ensures ends { EndsOrGoesOn K.store_gives desk.old (known_come intake.old (S.left input.old)) intake.old.ended desk.new (known_come intake.new (S.left input.new)) intake.new.ended result keeper.old keeper.new
        (devices K.file K.faults S.left S.faults W.told W.faults keeper.old input.old output.old) (devices K.file K.faults S.left S.faults W.told W.faults keeper.new input.new output.new) }
    ensures writable { result ≡ Ok Halt.Store → AreWritable desk.new.state }
    ensures fresh { result ≡ Ok Halt.Store → intake.new.used ≡ 0 }
    ensures short { OnOk result (length intake.new.waiting ≤ 4096) }
    ensures as_told { Exchanged S.read_gives W.write_gives intake.old.ended (is_ok result) intake.new.ended input.old input.new output.old output.new
        (StretchAs K.store_gives desk.old desk.new intake.old intake.new result keeper.old keeper.new (faults K.faults S.faults W.faults keeper.old input.old output.old) (faults K.faults S.faults W.faults keeper.new input.new output.new)) }
{
    let mut draft = Draft::none(alloc);
    let halt = match answer_all(alloc, desk, &mut draft, intake, input, output) {
        Err(error) => return Err(Failure::from(error)),
        Ok(halt) => halt,
    };
    // What the editor changed last is stored as well.
    if let Err(_) = seat::make(alloc, desk, &mut draft) {
        return Err(Failure::of_fault(Fault::Memory));
    }
    match halt {
        Halt::End => match save(alloc, desk.replica(), keeper, output) {
            Err(failure) => Err(failure),
            Ok(()) => Ok(Halt::End),
        },
        Halt::Store => match store_and_go_on(alloc, desk, intake, keeper, output) {
            Err(failure) => Err(failure),
            Ok(()) => Ok(Halt::Store),
        },
    }
}

// Stores the file, and lets go of what a session that goes on doesn't need.
fn store_and_go_on<K: Keeper, W: Sink>(
    alloc: Global,
    desk: &mut Desk,
    intake: &mut Intake,
    keeper: &mut K,
    output: &mut W,
) -> Result<(), Failure>
    requires writable { AreWritable desk.old.state }
    ensures saves { SaveEnds K.store_gives desk.old.state result keeper.old keeper.new
        (K.file keeper.old) (K.file keeper.new) (K.faults keeper.old) (K.faults keeper.new) (W.told output.old) (W.told output.new) (W.faults output.old) (W.faults output.new) }
    ensures desk { OnOk result (desk.new ≡ resumed by_parts desk.old) }
    ensures writable { OnOk result (AreWritable desk.new.state) }
    ensures waiting { intake.new.waiting ≡ intake.old.waiting }
    ensures ended { intake.new.ended ≡ intake.old.ended }
    ensures fresh { OnOk result (intake.new.used ≡ 0) }
    ensures told { HasTold W.write_gives result output.old output.new }
{
    if let Err(_) = desk.settle() {
        return Err(Failure::of_fault(Fault::Memory));
    }
    match save(alloc, desk.replica(), keeper, output) {
        Err(failure) => Err(failure),
        Ok(()) => {
            desk.drop_stable();
            intake.restart();
            Ok(())
        }
    }
}

// Stores the file, and tells it.
fn save<K: Keeper, W: Sink>(
    alloc: Global,
    replica: &Replica,
    keeper: &mut K,
    output: &mut W,
) -> Result<(), Failure>
    requires writable { AreWritable replica.now }
    ensures saves { SaveEnds K.store_gives replica.now result keeper.old keeper.new
        (K.file keeper.old) (K.file keeper.new) (K.faults keeper.old) (K.faults keeper.new) (W.told output.old) (W.told output.new) (W.faults output.old) (W.faults output.new) }
    ensures told { HasTold W.write_gives result output.old output.new }
{
    match file_of(alloc, replica) {
        Err(error) => Err(Failure::from(error)),
        Ok(bytes) => match keeper.store(alloc, &bytes) {
            Err(StoreError::Failed) => Err(Failure::Fault {
                fault: Fault::Keeper,
            }),
            Err(StoreError::OutOfMemory) => Err(Failure::Fault {
                fault: Fault::Memory,
            }),
            Ok(()) => match write(output, b"saved\n") {
                Err(error) => Err(Failure::from(error)),
                Ok(()) => Ok(()),
            },
        },
    }
}
