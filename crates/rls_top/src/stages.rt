//! Why a command ends early, by the stage at which it ends: each error has only what may go wrong there.

ghost use Rattle.std.specs.Prelude.{◌≡◌};
ghost use Rattle.rls_top.specs.declared.stages.InputError.TheVariants as input;
ghost use Rattle.rls_top.specs.declared.stages.MakeError.TheVariants as make;
ghost use Rattle.rls_top.specs.Stages.{at_line, of_device, of_input, of_make};

use rls_report::{CommandError, Failure, Fault};
use rls_stages::{LineError, OpenError, WorkError};

/// While the input is read, or its content is worked on.
#[derive(Clone, Copy, Debug, PartialEq, Eq)]
pub(crate) enum InputError {
    Work { error: WorkError },
    SourceFault,
}

/// While the kept file or the input is read, or the replica is worked on: before anything is stored or written.
#[derive(Clone, Copy, Debug, PartialEq, Eq)]
pub(crate) enum MakeError {
    Open { error: OpenError },
    Input { error: InputError },
}

/// While the file is stored or the report is written.
#[derive(Clone, Copy, Debug, PartialEq, Eq)]
pub(crate) enum DeviceError {
    KeeperFault,
    SinkFault,
    OutOfMemory,
}

impl From<WorkError> for InputError {
    ghost from_gives = { λ error e. e ≡ input.Work error };

    fn from(error: WorkError) -> InputError {
        InputError::Work { error }
    }
}

impl From<WorkError> for MakeError {
    ghost from_gives = { λ error e. e ≡ make.Input (input.Work error) };

    fn from(error: WorkError) -> MakeError {
        MakeError::Input {
            error: InputError::Work { error },
        }
    }
}

impl From<InputError> for MakeError {
    ghost from_gives = { λ error e. e ≡ make.Input error };

    fn from(error: InputError) -> MakeError {
        MakeError::Input { error }
    }
}

impl From<OpenError> for MakeError {
    ghost from_gives = { λ error e. e ≡ make.Open error };

    fn from(error: OpenError) -> MakeError {
        MakeError::Open { error }
    }
}

impl From<InputError> for Failure {
    ghost from_gives = { λ error e. e ≡ of_input error };

    fn from(error: InputError) -> Failure {
        match error {
            InputError::Work { error } => Failure::from(error),
            InputError::SourceFault => Failure::of_fault(Fault::Source),
        }
    }
}

impl From<MakeError> for Failure {
    ghost from_gives = { λ error e. e ≡ of_make error };

    fn from(error: MakeError) -> Failure {
        match error {
            MakeError::Open { error } => Failure::from(error),
            MakeError::Input { error } => Failure::from(error),
        }
    }
}

impl From<DeviceError> for Failure {
    ghost from_gives = { λ error e. e ≡ of_device error };

    fn from(error: DeviceError) -> Failure {
        match error {
            DeviceError::KeeperFault => Failure::of_fault(Fault::Keeper),
            DeviceError::SinkFault => Failure::of_fault(Fault::Sink),
            DeviceError::OutOfMemory => Failure::of_fault(Fault::Memory),
        }
    }
}

/// Why the line of this number isn't performed.
pub(crate) fn at_line(number: u64, error: LineError) -> WorkError
    ensures error { result ≡ at_line number error }
{
    match error {
        LineError::Refused { fault } => WorkError::Command {
            error: CommandError::Edit {
                line: number,
                fault,
            },
        },
        LineError::OutOfMemory => WorkError::OutOfMemory,
    }
}
