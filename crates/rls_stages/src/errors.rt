//! Why a stage ends early: each error has only what may go wrong there.

ghost use Rattle.std.specs.Prelude.{◌≡◌};
ghost use Rattle.rls_stages.specs.declared.errors.WorkError.TheVariants as work;
ghost use Rattle.rls_stages.specs.Errors.{line_error, open_of_work, of_open, of_work};

use rls_model::EditError;
use rls_report::{CommandError, Failure, Fault, LineFault};
use std::alloc::AllocError;

/// Why a line isn't performed.
#[derive(Clone, Copy, Debug, PartialEq, Eq)]
pub enum LineError {
    Refused { fault: LineFault },
    OutOfMemory,
}

/// What goes wrong while a replica is worked on.
#[derive(Clone, Copy, Debug, PartialEq, Eq)]
pub enum WorkError {
    Command { error: CommandError },
    OutOfMemory,
}

/// What goes wrong while the kept file is read.
#[derive(Clone, Copy, Debug, PartialEq, Eq)]
pub enum OpenError {
    Command { error: CommandError },
    KeeperFault,
    OutOfMemory,
}

impl From<EditError> for LineError {
    ghost from_gives = { λ error e. e ≡ line_error error };

    fn from(error: EditError) -> LineError {
        match error {
            EditError::Left => refused(LineFault::Left),
            EditError::EmptyEdit => refused(LineFault::EmptyEdit),
            EditError::Range { at, total } => refused(LineFault::Range { at, total }),
            EditError::EmptyDocument => refused(LineFault::EmptyDocument),
            EditError::TooManyChars { total } => refused(LineFault::TooManyChars { total }),
            EditError::NumbersSpent => refused(LineFault::NumbersSpent),
            EditError::OpTooLarge { bytes } => refused(LineFault::OpTooLarge { bytes }),
            EditError::OutOfMemory => LineError::OutOfMemory,
        }
    }
}

impl From<AllocError> for WorkError {
    ghost from_gives = { λ _ e. e ≡ work.OutOfMemory };

    fn from(_: AllocError) -> WorkError {
        WorkError::OutOfMemory
    }
}

impl From<WorkError> for OpenError {
    ghost from_gives = { λ error e. e ≡ open_of_work error };

    fn from(error: WorkError) -> OpenError {
        match error {
            WorkError::Command { error } => OpenError::Command { error },
            WorkError::OutOfMemory => OpenError::OutOfMemory,
        }
    }
}

impl From<OpenError> for Failure {
    ghost from_gives = { λ error e. e ≡ of_open error };

    fn from(error: OpenError) -> Failure {
        match error {
            OpenError::Command { error } => Failure::Command { error },
            OpenError::KeeperFault => Failure::of_fault(Fault::Keeper),
            OpenError::OutOfMemory => Failure::of_fault(Fault::Memory),
        }
    }
}

impl From<WorkError> for Failure {
    ghost from_gives = { λ error e. e ≡ of_work error };

    fn from(error: WorkError) -> Failure {
        match error {
            WorkError::Command { error } => Failure::Command { error },
            WorkError::OutOfMemory => Failure::of_fault(Fault::Memory),
        }
    }
}

// The line is refused.
pub(crate) fn refused(fault: LineFault) -> LineError
    ensures refused { result ≡ LineError.Refused fault }
{
    LineError::Refused { fault }
}
