//! Runs and lists of them, written by their parts.

use rls_ident::{Ident, Tuple};
use rls_runs::{Run, RunList, Runs};
use std::alloc::Global;
use std::cmp::Ordering;
use std::test::Fail;

/// The middle position.
pub const MIDDLE: u32 = 2_147_483_647;

/// A tuple of an operation of member 0.
pub fn own(seq: u32, offset: i32) -> Tuple {
    Tuple::At {
        pos: MIDDLE,
        replica: 0,
        seq,
        offset,
    }
}

/// A run: the tuples of its first identifier, and its length.
pub type Spelled<'a> = (&'a [Tuple], u32);

/// The run.
pub fn run_of(alloc: Global, run: Spelled<'_>) -> Result<Run, Fail> {
    Ok(Run::new(Ident::from_tuples(alloc, run.0)?, run.1)?)
}

/// The list of one run's identifiers.
pub fn list_of(alloc: Global, run: Spelled<'_>) -> Result<Runs, Fail> {
    let mut list = Runs::new(alloc);
    list.push(run_of(alloc, run)?)?;
    Ok(list)
}

/// Whether the identifier has these tuples.
pub fn is_ident(alloc: Global, id: &Ident, expected: &[Tuple]) -> Result<bool, Fail> {
    let expected = Ident::from_tuples(alloc, expected)?;
    Ok(id.compare(&expected) == Ordering::Equal)
}

/// Whether the run is this one.
pub fn is_run(alloc: Global, run: &Run, expected: Spelled<'_>) -> Result<bool, Fail> {
    let is_first = is_ident(alloc, run.first(), expected.0)?;
    Ok(is_first && run.len() == expected.1)
}

/// Whether these are the same runs.
pub fn are(alloc: Global, runs: &RunList, expected: &[Spelled<'_>]) -> Result<bool, Fail> {
    if runs.len() != expected.len() {
        return Ok(false);
    }
    for (i, spelled) in expected.iter().enumerate() {
        if !is_run(alloc, runs.get(i), *spelled)? {
            return Ok(false);
        }
    }
    Ok(true)
}
