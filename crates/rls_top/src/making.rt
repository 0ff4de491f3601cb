//! What a command makes.

ghost use Rattle.std.specs.Prelude.{◌≡◌, ◌≢◌, ◌≤◌, [], Some, Err, IfOk, IfErr, IfSome, IsErr, IsSome, IsTrue, IsFalse};
ghost use Rattle.rls_io.specs.Device.{Rose, Keeps, LoadsWith};
ghost use Rattle.rls_report.specs.Reports.{new_text};
ghost use Rattle.rls_seen.specs.Sane.{IsSane};
ghost use Rattle.rls_seen.specs.Seen.{fresh};
ghost use Rattle.rls_file.specs.Stored.{AreWritable};
ghost use Rattle.rls_stages.specs.Calls.{FindsUnlessFailed, HasLoaded};
ghost use Rattle.rls_stages.specs.Errors.{of_open, of_work};
ghost use Rattle.rls_stages.specs.KeptFile.{loaded, saved};
ghost use Rattle.rls_top.specs.Answered.{HasCome, ReadsUnlessFailed};
ghost use Rattle.rls_top.specs.declared.words.Command.TheVariants as commands;
ghost use Rattle.rls_top.specs.Due.{calls_keeper, due_at, due_of_command, due_of_fresh, due_of_new, error_of_numbers, reads_input, stores};
ghost use Rattle.rls_top.specs.Running.{MakeEnds, WorkEnds};
ghost use Rattle.rls_top.specs.Stages.{IsDue, of_input};

use crate::editing::{edit, leave};
use crate::made::{Made, saving};
use crate::reading::read;
use crate::showing::{show_ids, show_message, show_stat, show_text, show_trial};
use crate::stages::{InputError, MakeError};
use crate::taking::take;
use crate::words::{Command, FileCommand};
use rls_io::{Keeper, Source};
use rls_model::Refusals;
use rls_replica::{NewError, Replica};
use rls_report::{CommandError, new_report};
use rls_stages::{OpenError, WorkError, load, open};
use std::alloc::Global;

/// What the command makes, before anything is stored or written.
pub(crate) fn make<K: Keeper, S: Source>(
    alloc: Global,
    command: Command,
    keeper: &mut K,
    input: &mut S,
) -> Result<Made, MakeError>
    ensures ends { MakeEnds K.file K.faults (LoadsWith K.load_gives) S.left S.faults command result keeper.old keeper.new input.old input.new }
    ensures came { HasCome K.load_gives S.read_gives (due_of_command command) result keeper.old keeper.new input.old input.new }
{
    match command {
        Command::New { group, me, members } => {
            match make_new(alloc, group, me, members, keeper) {
                Ok(made) => Ok(made),
                Err(error) => Err(MakeError::from(error)),
            }
        }
        Command::Trial { seed, steps } => match show_trial(alloc, seed, steps) {
            Ok(made) => Ok(made),
            Err(error) => Err(MakeError::from(error)),
        },
        Command::OnFile { command } => make_on_file(alloc, command, keeper, input),
    }
}

// The file of a fresh replica, if there is no file.
fn make_new<K: Keeper>(
    alloc: Global,
    group: u64,
    me: u32,
    members: u32,
    keeper: &mut K,
) -> Result<Made, OpenError>
    ensures due { IfSome (due_of_new (error_of_numbers me members) group me members (K.file keeper.old)) (IsDue of_open result) }
    ensures uncalled { IsFalse (calls_keeper (Some (commands.New group me members))) → (keeper.new ≡ keeper.old) × IfErr result (λ e. e ≢ OpenError.KeeperFault) × IsErr result }
    ensures keeper { result ≡ Err OpenError.KeeperFault → Rose (K.faults keeper.old) (K.faults keeper.new) }
    ensures uncounted { result ≢ Err OpenError.KeeperFault → K.faults keeper.new ≡ K.faults keeper.old }
    ensures never_falls { K.faults keeper.old ≤ K.faults keeper.new }
    ensures kept { Keeps (K.file keeper.old) (K.file keeper.new) }
    ensures storing { IfOk result (λ made. IsSome made.stored) }
    ensures calls { IsTrue (calls_keeper (Some (commands.New group me members))) → HasLoaded (LoadsWith K.load_gives) result keeper.old keeper.new }
    ensures found { IsTrue (calls_keeper (Some (commands.New group me members))) → FindsUnlessFailed K.load_gives (λ kept. IsDue of_open result (due_of_fresh group me members (loaded kept))) result keeper.old keeper.new }
{
    match Replica::new(alloc, group, me, members) {
        Err(NewError::Members { members }) => Err(OpenError::Command {
            error: CommandError::BadMembers { members },
        }),
        Err(NewError::Me { me }) => Err(OpenError::Command {
            error: CommandError::BadMe { me },
        }),
        Err(NewError::OutOfMemory) => Err(OpenError::OutOfMemory),
        Ok(replica) => make_first(alloc, &replica, group, me, members, keeper),
    }
}

// The file of this fresh replica, if there is no file.
fn make_first<K: Keeper>(
    alloc: Global,
    replica: &Replica,
    group: u64,
    me: u32,
    members: u32,
    keeper: &mut K,
) -> Result<Made, OpenError>
    requires fresh { replica.now ≡ fresh group me members }
    requires writable { AreWritable replica.now }
    ensures due { IfSome (K.file keeper.old) (λ kept. IsDue of_open result (due_of_fresh group me members (loaded kept))) }
    ensures keeper { result ≡ Err OpenError.KeeperFault → Rose (K.faults keeper.old) (K.faults keeper.new) }
    ensures uncounted { result ≢ Err OpenError.KeeperFault → K.faults keeper.new ≡ K.faults keeper.old }
    ensures never_falls { K.faults keeper.old ≤ K.faults keeper.new }
    ensures kept { Keeps (K.file keeper.old) (K.file keeper.new) }
    ensures storing { IfOk result (λ made. IsSome made.stored) }
    ensures calls { HasLoaded (LoadsWith K.load_gives) result keeper.old keeper.new }
    ensures found { FindsUnlessFailed K.load_gives (λ kept. IsDue of_open result (due_of_fresh group me members (loaded kept))) result keeper.old keeper.new }
{
    match load(alloc, keeper) {
        Err(error) => Err(error),
        Ok(Some(_)) => Err(OpenError::Command {
            error: CommandError::ReplicaExists,
        }),
        Ok(None) => match saving_new(alloc, replica, group, me, members) {
            Ok(made) => Ok(made),
            Err(error) => Err(OpenError::from(error)),
        },
    }
}

// The file of a replica, with the report of a new one.
fn saving_new(
    alloc: Global,
    replica: &Replica,
    group: u64,
    me: u32,
    members: u32,
) -> Result<Made, WorkError>
    requires writable { AreWritable replica.now }
    ensures due { IsDue of_work result (stores (saved replica.now) (new_text group me members) []) }
    ensures stored { IfOk result (λ made. IsSome made.stored) }
{
    match new_report(alloc, group, me, members) {
        Err(_) => Err(WorkError::OutOfMemory),
        Ok(report) => saving(alloc, replica, report, &Refusals::new(alloc)),
    }
}

// What a command makes of the kept file.
fn make_on_file<K: Keeper, S: Source>(
    alloc: Global,
    command: FileCommand,
    keeper: &mut K,
    input: &mut S,
) -> Result<Made, MakeError>
    ensures ends { MakeEnds K.file K.faults (LoadsWith K.load_gives) S.left S.faults (commands.OnFile command) result keeper.old keeper.new input.old input.new }
    ensures came { HasCome K.load_gives S.read_gives (due_of_command (commands.OnFile command)) result keeper.old keeper.new input.old input.new }
{
    match open(alloc, keeper) {
        Err(error) => Err(MakeError::from(error)),
        Ok(mut replica) => match make_of(alloc, command, &mut replica, input) {
            Ok(made) => Ok(made),
            Err(error) => Err(MakeError::from(error)),
        },
    }
}

// What a command makes of the replica.
fn make_of<S: Source>(
    alloc: Global,
    command: FileCommand,
    replica: &mut Replica,
    input: &mut S,
) -> Result<Made, InputError>
    requires sane { IsSane replica.old }
    requires writable { AreWritable replica.old }
    ensures ends { WorkEnds S.left S.faults command replica.old result input.old input.new }
    ensures came { IsTrue (reads_input (Some (commands.OnFile command))) → ReadsUnlessFailed S.read_gives (λ given. IfSome (due_at command replica.old (Some given)) (IsDue of_input result)) result input.old input.new }
{
    let made = match command {
        FileCommand::Text => show_text(alloc, replica)?,
        FileCommand::Ids => show_ids(alloc, replica)?,
        FileCommand::Stat => show_stat(alloc, replica)?,
        FileCommand::Send { to } => show_message(alloc, replica, to)?,
        FileCommand::Leave => leave(alloc, replica)?,
        FileCommand::Edit => {
            let script = read(alloc, input)?;
            edit(alloc, replica, script)?
        }
        FileCommand::Take => {
            let message = read(alloc, input)?;
            take(alloc, replica, message)?
        }
    };
    Ok(made)
}
