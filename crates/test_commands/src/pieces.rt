//! An input that comes in pieces.

ghost use Rattle.std.specs.Prelude.{None};

use rls_io::{Failed, MemorySource, Source};
use std::alloc::{AllocError, Global};

/// An input in memory of which a read brings at most `step` bytes, or one if that is 0.
#[derive(Drop)]
pub struct Pieces {
    source: MemorySource,
    step: usize,
}

impl Pieces {
    /// An input of these bytes. The reads with these numbers fail.
    pub fn new(
        alloc: Global,
        bytes: &[u8],
        step: usize,
        failing: &[u64],
    ) -> Result<Pieces, AllocError> {
        Ok(Pieces {
            source: MemorySource::new(alloc, bytes, failing)?,
            step,
        })
    }

    /// How many bytes are left.
    pub fn left(&self) -> usize {
        self.source.left().len()
    }
}

/// It doesn't tell its content.
impl Source for Pieces {
    ghost left = { λ _. None };

    ghost faults = { λ s. s.source.faults };

    fn read(&mut self, buf: &mut [u8]) -> Result<usize, Failed> {
        let n = self.step.max(1).min(buf.len());
        self.source.read(&mut buf[..n])
    }
}
