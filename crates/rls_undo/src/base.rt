//! Identifiers that are told by their last offsets.

ghost use Rattle.std.specs.Prelude.{◌≡◌, ℕ, ◌+◌, ◌-◌, ◌<◌, ◌≤◌, ◌+ℤ◌, ◌≤ℤ◌, pos, length, slice_get, IfOk, OnOk, OnErr, IsTrue};
ghost use Rattle.rls_ident.specs.Tuples.{offset_of};
ghost use Rattle.rls_ident.specs.Identifiers.{last_of, least_offset, greatest_offset};
ghost use Rattle.rls_runs.specs.Runs.{past_offsets};
ghost use Rattle.rls_undo.specs.Keeping.{with_offset, IsOf, IsOfBase};

use rls_ident::{EpochName, Ident, rely};
use rls_runs::{Run, RunError};
use std::alloc::AllocError;

/// An epoch, and an identifier of it. Others of this epoch that differ from it in nothing but the last offset are told by this offset.
#[derive(Drop)]
pub(crate) struct Base {
    pub(crate) epoch: EpochName,
    pub(crate) id: Ident,
}

impl Base {
    /// Whether an identifier of an epoch is told by its last offset here.
    pub(crate) fn has(&self, epoch: EpochName, id: &Ident) -> bool
        ensures has { IsTrue result → IsOf self.now epoch id.now }
    {
        self.epoch.same(&epoch) && is_alike(&self.id, id)
    }

    /// The identifier with this last offset.
    pub(crate) fn ident(&self, offset: i32) -> Result<Ident, AllocError>
        requires least { least_offset ≤ℤ offset }
        requires greatest { offset ≤ℤ greatest_offset }
        ensures ident { IfOk result (λ x. x ≡ with_offset offset self.now.id) }
    {
        let own = self.id.last().offset;
        if own <= offset {
            return self.id.shifted((offset - own) as u32);
        }
        self.id.lowered((own - offset) as u32)
    }

    /// The run of so many identifiers from that with this last offset on.
    pub(crate) fn run(&self, offset: i32, len: u32) -> Result<Run, AllocError>
        requires least { least_offset ≤ℤ offset }
        requires some { 0 < len }
        requires within { (offset +ℤ pos len) ≤ℤ past_offsets }
        ensures run { IfOk result (λ run. run ≡ (with_offset offset self.now.id, len)) }
    {
        rely!(let _len = self.id.len());
        match Run::new(self.ident(offset)?, len) {
            Ok(run) => Ok(run),
            Err(RunError::Empty) => unreachable!(),
            Err(RunError::OffsetEnd) => unreachable!(),
        }
    }
}

// Whether two identifiers differ in nothing but the last offset, if at all.
fn is_alike(base: &Ident, id: &Ident) -> bool
    ensures alike { IsTrue result → with_offset (offset_of (last_of id.now)) base.now ≡ id.now }
{
    let (from, to) = (base.last().offset, id.last().offset);
    if from <= to {
        return id.follows_by(base, distance(from, to));
    }
    base.follows_by(id, distance(to, from))
}

// How much greater the second offset is.
fn distance(from: i32, to: i32) -> u32
    requires order { from ≤ℤ to }
    ensures distance { (from +ℤ pos result) ≡ to }
{
    (to as i64 - from as i64) as u32
}

/// The place of a base by which an identifier of an epoch is told: that of the last one, if this tells it, or else of a new one after it.
pub(crate) fn put_base(
    bases: &mut Vec<Base>,
    epoch: EpochName,
    id: &Ident,
) -> Result<u32, AllocError>
    ensures place { IfOk result (λ place. place + 1 ≡ length bases.new.items) }
    ensures base { IfOk result (λ place. IsOfBase (slice_get bases.new.items place) epoch id.now) }
    ensures longer { length bases.old.items ≤ length bases.new.items }
    ensures others { (i : ℕ) → i < length bases.old.items → slice_get bases.new.items i ≡ slice_get bases.old.items i }
{
    if is_last(bases, epoch, id) {
        return last_place(bases);
    }
    let id = id.copy()?;
    bases.push(Base { epoch, id })?;
    let place = last_place(bases)?;
    Ok(place)
}

// Whether an identifier of an epoch is told by the last base.
fn is_last(bases: &[Base], epoch: EpochName, id: &Ident) -> bool
    ensures last { IsTrue result → IsOfBase (slice_get bases.now (length bases.now - 1)) epoch id.now }
{
    match bases.last() {
        None => false,
        Some(base) => base.has(epoch, id),
    }
}

// The place of the last base.
fn last_place(bases: &[Base]) -> Result<u32, AllocError>
    requires some { 0 < length bases.now }
    ensures place { IfOk result (λ place. place + 1 ≡ length bases.now) }
{
    match u32::try_from(bases.len() - 1) {
        Ok(place) => Ok(place),
        Err(_) => Err(AllocError),
    }
}
