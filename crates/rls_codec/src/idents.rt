//! Tuples, identifiers and runs.

ghost use Rattle.std.specs.Prelude.{◌≡◌, ◌+◌, ◌<◌, ◌≤◌, ◌^◌, length, nat_lt, None, IfOk, IfErr, IsTrue};
ghost use Rattle.rls_runs.specs.Runs.{runs_of, are_apart, run_before};
ghost use Rattle.std.specs.List.{All};
ghost use Rattle.rls_ident.specs.Tuples.{at_spot};
ghost use Rattle.rls_ident.specs.Identifiers.{is_inner_bounded, is_last_bounded};
ghost use Rattle.std.specs.Int.{w32};
ghost use Rattle.rls_codec.specs.Reading.{with_rule, number_at, is_offset, spot_at, inner_at, last_at, many_at, ident_at, run_at, next_run_at, chain_at, runs_at};
ghost use Rattle.rls_codec.specs.Gives.{Gives, Fails, PutsRun};

use crate::fault::ReadError;
use crate::fields::{byte, i32_at, u32_at};
use rls_ident::limits::{GREATEST_OFFSET, LEAST_OFFSET};
use rls_ident::{Ident, Spot, Tuple};
use rls_runs::{PushError, Run, Runs};
use std::alloc::Global;

/// How many bytes an `At` has: a kind and four numbers.
const AT_BYTES: usize = 17;

fn is_offset(least: i32, offset: i32) -> bool
    ensures offset { result ≡ is_offset least offset }
{
    least <= offset && offset <= GREATEST_OFFSET
}

/// An `At` after its kind, with an offset from `least` on.
#[tactic(auto, unfolding(crate::specs::Reading::spot_at))]
fn spot(least: i32, bytes: &[u8]) -> Result<(Spot, &[u8]), ReadError>
    ensures read { Gives (λ x. (at_spot x.0, x.1.now)) result (spot_at least bytes.now) }
    ensures bounded { IfOk result (λ x. IsTrue (is_offset least x.0.offset)) }
{
    let (pos, rest) = u32_at(bytes)?;
    let (replica, rest) = u32_at(rest)?;
    let (seq, rest) = u32_at(rest)?;
    let (offset, after) = i32_at(rest)?;
    if !is_offset(least, offset) {
        return Err(ReadError::Fault { left: rest.len() });
    }
    let spot = Spot {
        pos,
        replica,
        seq,
        offset,
    };
    Ok((spot, after))
}

/// A tuple that stands before another one in an identifier.
#[tactic(auto, unfolding(crate::specs::Reading::inner_at))]
pub fn inner(bytes: &[u8]) -> Result<(Tuple, &[u8]), ReadError>
    ensures read { Gives (λ x. (x.0, x.1.now)) result (inner_at bytes.now) }
    ensures bounded { IfOk result (λ x. IsTrue (is_inner_bounded x.0)) }
{
    let (kind, rest) = byte(bytes)?;
    match kind {
        0 => Ok((Tuple::Low, rest)),
        1 => {
            let (spot, after) = spot(LEAST_OFFSET - 1, rest)?;
            Ok((spot.as_tuple(), after))
        }
        2 => Ok((Tuple::High, rest)),
        _ => Err(ReadError::Fault { left: bytes.len() }),
    }
}

/// The last tuple of an identifier, which is an `At`.
#[tactic(auto, unfolding(crate::specs::Reading::last_at))]
pub fn last(bytes: &[u8]) -> Result<(Spot, &[u8]), ReadError>
    ensures read { Gives (λ x. (at_spot x.0, x.1.now)) result (last_at bytes.now) }
    ensures bounded { IfOk result (λ x. IsTrue (is_last_bounded (at_spot x.0))) }
{
    let (kind, rest) = byte(bytes)?;
    if kind != 1 {
        return Err(ReadError::Fault { left: bytes.len() });
    }
    spot(LEAST_OFFSET, rest)
}

// For how many of this many tuples memory is taken at once: for no more than the bytes hold if each is an `At`.
fn room_for(count: u32, bytes: &[u8]) -> usize {
    (count as usize).min(bytes.len() / AT_BYTES)
}

// This many tuples before the last one of an identifier.
fn inners(alloc: Global, count: u32, bytes: &[u8]) -> Result<(Vec<Tuple>, &[u8]), ReadError>
    ensures read { Gives (λ x. (x.0.items, x.1.now)) result (many_at inner_at count bytes.now) }
    ensures bounded { IfOk result (λ x. All (λ t. IsTrue (is_inner_bounded t)) x.0.items) }
{
    let mut tuples = Vec::with_capacity(alloc, room_for(count, bytes))?;
    let mut rest = bytes;
    for _ in 0..count {
        let (tuple, after) = inner(rest)?;
        tuples.push(tuple)?;
        rest = after;
    }
    Ok((tuples, rest))
}

/// The number of an identifier's tuples, from 1 on.
pub fn tuple_count(bytes: &[u8]) -> Result<(u32, &[u8]), ReadError>
    ensures read { Gives (λ x. (x.0, x.1.now)) result (with_rule (nat_lt 0) (number_at w32) bytes.now) }
    ensures some { IfOk result (λ x. 0 < x.0) }
{
    let (count, rest) = u32_at(bytes)?;
    if count == 0 {
        return Err(ReadError::Fault { left: bytes.len() });
    }
    Ok((count, rest))
}

/// An identifier: a number of tuples from 1 on, and the tuples, of which the last is an `At`.
#[tactic(auto, unfolding(crate::specs::Reading::ident_at))]
pub fn ident(alloc: Global, bytes: &[u8]) -> Result<(Ident, &[u8]), ReadError>
    ensures read { Gives (λ x. (x.0, x.1.now)) result (ident_at bytes.now) }
{
    let (count, rest) = tuple_count(bytes)?;
    let (front, rest) = inners(alloc, count - 1, rest)?;
    let (spot, rest) = last(rest)?;
    Ok((Ident::ending(front, spot), rest))
}

/// A run: its first identifier and its length, from 1 on, with which no offset passes the greatest one.
#[tactic(auto, unfolding(crate::specs::Reading::run_at))]
pub fn run(alloc: Global, bytes: &[u8]) -> Result<(Run, &[u8]), ReadError>
    ensures read { Gives (λ x. (x.0, x.1.now)) result (run_at bytes.now) }
    ensures len { IfOk result (λ x. IsTrue (nat_lt 0 x.0.1)) }
    ensures short { IfOk result (λ x. x.0.1 < 2 ^ 32) }
{
    let (first, rest) = ident(alloc, bytes)?;
    let (len, after) = u32_at(rest)?;
    match Run::new(first, len) {
        Ok(run) => Ok((run, after)),
        Err(_) => Err(ReadError::Fault { left: rest.len() }),
    }
}

/// The run after these, which is put after them. After an error they are as they were.
fn next_run<'a>(alloc: Global, runs: &mut Runs, bytes: &'a [u8]) -> Result<&'a [u8], ReadError>
    requires apart { IsTrue (are_apart None (runs_of runs.old)) }
    requires total { length runs.old + 2 ^ 32 ≤ 2 ^ 64 }
    ensures puts { IfOk result (λ rest. PutsRun runs.old runs.new bytes.now rest.now) }
    ensures fails { IfErr result (λ e. Fails e (next_run_at (run_before None (runs_of runs.old)) bytes.now)) }
{
    let (found, rest) = run(alloc, bytes)?;
    match runs.push(found) {
        Ok(()) => Ok(rest),
        Err(PushError::NotAbove) => Err(ReadError::Fault { left: bytes.len() }),
        Err(PushError::Touching) => Err(ReadError::Fault { left: bytes.len() }),
        Err(PushError::OutOfMemory) => Err(ReadError::OutOfMemory),
    }
}

fn run_list(alloc: Global, count: u32, bytes: &[u8]) -> Result<(Runs, &[u8]), ReadError>
    ensures read { Gives (λ x. (runs_of x.0, x.1.now)) result (chain_at next_run_at None count bytes.now) }
{
    let mut runs = Runs::new(alloc);
    let mut rest = bytes;
    for _ in 0..count {
        rest = next_run(alloc, &mut runs, rest)?;
    }
    Ok((runs, rest))
}

/// A number of runs, and the runs, each above the one before and apart from it.
pub fn runs(alloc: Global, bytes: &[u8]) -> Result<(Runs, &[u8]), ReadError>
    ensures read { Gives (λ x. (x.0, x.1.now)) result (runs_at bytes.now) }
{
    let (count, rest) = u32_at(bytes)?;
    let (runs, rest) = run_list(alloc, count, rest)?;
    Ok((runs, rest))
}
