//! Reading an input to its end.

ghost use Rattle.std.specs.Prelude.{◌≡◌, ◌≢◌, ◌+◌, ◌^◌, ◌<◌, ◌≤◌, ℕ, List, length, Err, IfOk, OnErr};
ghost use Rattle.rls_io.specs.Device.{Rose, Takes, TakesAll, Passes, PassesAll, PassesAndFails};
ghost use Rattle.rls_io.specs.declared.reading.ReadError.TheVariants as read;

use crate::devices::{Failed, Source};
use std::alloc::{AllocError, Global};

/// Why an input was not read to its end. The first bytes of it may have been taken.
#[derive(Clone, Copy, Debug, PartialEq, Eq)]
pub enum ReadError {
    /// The source has failed, and has counted it.
    Fault,
    /// The input has more bytes than were to be read.
    TooLarge,
    /// There was no memory for the bytes.
    OutOfMemory,
}

impl From<Failed> for ReadError {
    ghost from_gives = { λ _ e. e ≡ read.Fault };

    fn from(_: Failed) -> ReadError {
        ReadError::Fault
    }
}

impl From<AllocError> for ReadError {
    ghost from_gives = { λ _ e. e ≡ read.OutOfMemory };

    fn from(_: AllocError) -> ReadError {
        ReadError::OutOfMemory
    }
}

/// How many bytes one call asks the source for, at most.
const STEP: usize = 4096;

/// Reads the whole input, of which at most `limit` bytes are wanted; where the source tells its input, nothing of it is left
/// after an Ok. `Fault` comes only where the count of faults rose in this call, and `TooLarge` exactly where `limit + 1` bytes
/// were taken. More are never taken. The cost is that of the reads, and of growing one vector.
pub fn read_all<S: Source>(alloc: Global, source: &mut S, limit: u64) -> Result<Vec<u8>, ReadError>
    requires small { limit < 2 ^ 62 }
    ensures whole { IfOk result (λ bytes. TakesAll (S.left source.old) (S.left source.new) bytes.items) }
    ensures within { IfOk result (λ bytes. length bytes.items ≤ limit) }
    ensures too_large { result ≡ Err read.TooLarge → Takes (S.left source.old) (S.left source.new) (limit + 1) }
    ensures fault { result ≡ Err read.Fault → Rose (S.faults source.old) (S.faults source.new) }
    ensures err { OnErr result (result ≢ Err read.TooLarge → (n : ℕ) × (n ≤ limit) × Takes (S.left source.old) (S.left source.new) n) }
    ensures never_falls { S.faults source.old ≤ S.faults source.new }

    // What the calls of the source gave, also if it doesn't tell its input.
    ensures gives { IfOk result (λ bytes. PassesAll S.read_gives bytes.items source.old source.new) }
    ensures gives_more { result ≡ Err read.TooLarge → (bytes : List ℕ) × (length bytes ≡ limit + 1) × Passes S.read_gives bytes source.old source.new }
    ensures gives_part { result ≡ Err read.Fault → (bytes : List ℕ) × (length bytes ≤ limit) × PassesAndFails S.read_gives bytes source.old source.new }
    ensures gives_some { result ≡ Err read.OutOfMemory → (bytes : List ℕ) × (length bytes ≤ limit) × Passes S.read_gives bytes source.old source.new }
{
    let mut bytes = Vec::new(alloc);
    let mut buffer = [0; STEP];
    loop {
        let room = limit + 1 - bytes.len() as u64;
        let step = room.min(STEP as u64) as usize;
        let n = source.read(&mut buffer[..step])?;
        if n == 0 {
            return Ok(bytes);
        }
        if bytes.len() as u64 + n as u64 > limit {
            return Err(ReadError::TooLarge);
        }
        bytes.extend_from_slice(&buffer[..n])?;
    }
}
