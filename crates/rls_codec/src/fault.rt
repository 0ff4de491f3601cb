//! Why a part could not be read.

ghost use Rattle.std.specs.Prelude.{◌≡◌};
ghost use Rattle.rls_codec.specs.declared.fault.ReadError.TheVariants.{OutOfMemory};

use std::alloc::{AllocError, AllocFailed};

/// The first fault from the left.
#[derive(Clone, Copy, Debug, PartialEq, Eq)]
pub enum ReadError {
    /// A field is cut off or breaks its rule; this many bytes were left at its first byte.
    Fault { left: usize },
    OutOfMemory,
}

impl From<AllocError> for ReadError {
    ghost from_gives = { λ _ e. e ≡ OutOfMemory };

    fn from(_: AllocError) -> ReadError {
        ReadError::OutOfMemory
    }
}

impl<T: Drop> From<AllocFailed<T>> for ReadError {
    ghost from_gives = { λ _ e. e ≡ OutOfMemory };

    fn from(_: AllocFailed<T>) -> ReadError {
        ReadError::OutOfMemory
    }
}

/// Why bytes aren't what they should be.
#[derive(Clone, Copy, Debug, PartialEq, Eq)]
pub enum DecodeError {
    /// The place of the first field that is cut off or breaks its rule.
    Malformed { at: u64 },
    OutOfMemory,
}
