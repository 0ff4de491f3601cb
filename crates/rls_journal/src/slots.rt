//! Loading and storing, in the device calls of which they consist.
//! Why: docs/DECISIONS.md, 154; CHOICES.md, 36.

ghost use Rattle.std.specs.Prelude.{◌≡◌, ◌-◌, ◌<◌, ◌≤◌, [], ℕ, length, Option, Some, None, is_ok, IfOk, OnOk, IfSome, IsErrOf};
ghost use Rattle.rls_io.specs.Calls.{Runs};
ghost use Rattle.rls_io.specs.Device.{IsWithin, Rose, Loads, one_more};
ghost use Rattle.rls_io.specs.declared.devices.LoadError.TheVariants as load;
ghost use Rattle.rls_journal.specs.Areas.{Areas, area_of, named_by, file_of, kept};
ghost use Rattle.rls_journal.specs.Calls.{NamesBy, begin_steps, gate_steps, name_steps, put_steps, replace_steps, settle_steps};
ghost use Rattle.rls_journal.specs.Disk.{CountsFaults, Tears, IsDurable, IsDurableAt, IsUnchanged, Changes, StaysDirty};
ghost use Rattle.rls_journal.specs.Slots.{Strays, MayStray, IsSettled, IsSettledNow, IsSound, HoldsOn, Looks, Puts, Names, HasStored};

use crate::disk::{Disk, GATE};
use rls_io::{Failed, Found, LoadError};
use std::alloc::Global;

/// Renews the gate and syncs it, and answers the slot that it names, if it names one.
fn gate_slot<D: Disk>(disk: &mut D) -> Result<Option<u8>, Failed>
    ensures named { IfOk result (λ slot. IfSome (D.seen disk.old) (λ s. slot ≡ named_by s.gate)) }
    ensures small { IfOk result (λ slot. IfSome slot (λ n. n < 2)) }
    ensures durable { OnOk result (D.retries → IfSome (D.seen disk.old) (λ s. IsDurable 2 s (D.may_leave disk.new))) }
    ensures gate { OnOk result (IfSome (D.seen disk.old) (λ s. IsDurableAt 2 0 1 s (D.may_leave disk.new))) }
    ensures looks { Looks D.retries D.seen D.may_leave D.moment D.left_since disk.old disk.new }
    ensures calls { NamesBy D.answers gate_steps result disk.old disk.new }
    ensures counted { CountsFaults result (D.faults disk.old) (D.faults disk.new) }
{
    if disk.size(GATE)? == 0 {
        disk.sync(GATE)?;
        return Ok(None);
    }
    disk.renew_gate()?;
    disk.sync(GATE)?;
    let mut first = [0];
    disk.read(GATE, 0, &mut first)?;
    Ok(Some(first[0] % 2))
}

/// Renews the gate, syncs it and the slot that it names, and answers that slot, if it names one. From then on a crash leaves the
/// file that is read.
pub fn settle<D: Disk>(disk: &mut D) -> Result<Option<u8>, Failed>
    ensures named { IfOk result (λ slot. IfSome (D.seen disk.old) (λ s. slot ≡ named_by s.gate)) }
    ensures small { IfOk result (λ slot. IfSome slot (λ n. n < 2)) }
    ensures settled { OnOk result (IsSound D.retries D.seen D.may_leave disk.old → IfSome (D.seen disk.old) (λ s. IsSettled s (D.may_leave disk.new))) }
    ensures looks { Looks D.retries D.seen D.may_leave D.moment D.left_since disk.old disk.new }
    ensures calls { NamesBy D.answers settle_steps result disk.old disk.new }
    ensures counted { CountsFaults result (D.faults disk.old) (D.faults disk.new) }
{
    let Some(named) = gate_slot(disk)? else {
        return Ok(None);
    };
    disk.sync(named)?;
    Ok(Some(named))
}

/// The count of bytes of a slot's file.
fn file_size<D: Disk>(disk: &mut D, slot: u8) -> Result<u64, Failed>
    requires slot { slot < 2 }
    ensures count { IfOk result (λ n. IfSome (D.seen disk.old) (λ s. n ≡ length (file_of (area_of s slot)))) }
    ensures unchanged { IsUnchanged D.seen D.may_leave D.moment D.left_since disk.old disk.new }
    ensures counted { CountsFaults result (D.faults disk.old) (D.faults disk.new) }
{
    let size = disk.size(slot)?;
    if size < 8 {
        return Ok(0);
    }
    let mut number = [0; 8];
    disk.read(slot, 0, &mut number)?;
    Ok(u64::from_be_bytes(number).min(size - 8))
}

/// The file of a slot, of which at most `limit` bytes are wanted.
pub fn read_file<D: Disk>(
    alloc: Global,
    disk: &mut D,
    slot: u8,
    limit: u64,
) -> Result<Found, LoadError>
    requires slot { slot < 2 }
    ensures found { IfOk result (λ found. IfSome (D.seen disk.old) (λ s. Loads (Some (file_of (area_of s slot))) limit found)) }
    ensures within { IfOk result (IsWithin limit) }
    ensures unchanged { IsUnchanged D.seen D.may_leave D.moment D.left_since disk.old disk.new }
    ensures counted { IsErrOf result load.Failed → D.faults disk.new ≡ one_more (D.faults disk.old) }
    ensures uncounted { (IsErrOf result load.Failed → ⊥) → D.faults disk.new ≡ D.faults disk.old }
    ensures never_falls { D.faults disk.old ≤ D.faults disk.new }
    ensures cause { IsErrOf result load.Failed → Rose (D.faults disk.old) (D.faults disk.new) }
{
    let count = file_size(disk, slot)?;
    if count > limit {
        return Ok(Found::Longer);
    }
    let mut bytes = vec![in alloc; 0; count as usize]?;
    if count > 0 {
        disk.read(slot, 8, &mut bytes)?;
    }
    Ok(Found::Bytes(bytes))
}

/// Writes the file into a slot, without a sync.
fn put<D: Disk>(disk: &mut D, slot: u8, bytes: &[u8]) -> Result<(), Failed>
    requires slot { slot < 2 }
    ensures put { OnOk result (Puts slot bytes.now (D.seen disk.old) (D.seen disk.new)) }
    ensures strays { MayStray slot (D.seen disk.old) (D.seen disk.new) }
    ensures dirty { StaysDirty (D.is_dirty disk.old) (D.is_dirty disk.new) }
    ensures number { OnOk result (D.is_dirty disk.new slot 0 8) }
    ensures bytes { OnOk result (D.is_dirty disk.new slot 8 (length bytes.now)) }
    ensures changes { Changes D.may_leave D.moment D.left_since (Strays slot) disk.old disk.new }
    ensures calls { Runs D.answers (put_steps slot bytes.now) (is_ok result) disk.old disk.new }
    ensures counted { CountsFaults result (D.faults disk.old) (D.faults disk.new) }
{
    let number = (bytes.len() as u64).to_be_bytes();
    disk.write(slot, 0, &number)?;
    disk.write(slot, 8, bytes)
}

/// Names a slot by the gate, and syncs the gate.
fn name_slot<D: Disk>(disk: &mut D, slot: u8) -> Result<(), Failed>
    requires slot { slot < 2 }
    ensures names { OnOk result (Names slot (D.seen disk.old) (D.seen disk.new) (D.may_leave disk.new)) }
    ensures strays { MayStray 2 (D.seen disk.old) (D.seen disk.new) }
    ensures changes { Changes D.may_leave D.moment D.left_since (Tears 2 0 1) disk.old disk.new }
    ensures calls { Runs D.answers (name_steps slot) (is_ok result) disk.old disk.new }
    ensures counted { CountsFaults result (D.faults disk.old) (D.faults disk.new) }
{
    disk.write(GATE, 0, &[slot])?;
    disk.sync(GATE)
}

/// Writes the file into a slot that the gate doesn't name, and then names it.
pub fn replace<D: Disk>(disk: &mut D, slot: u8, bytes: &[u8]) -> Result<(), Failed>
    requires slot { slot < 2 }
    ensures stored { OnOk result (HasStored bytes.now (D.seen disk.old) (D.seen disk.new) (D.may_leave disk.new)) }

    // Each crash leaves the file from before or these bytes.
    ensures any_moment { IfSome (D.seen disk.old) (λ s. named_by s.gate ≡ Some (1 - slot) → IsSettled s (D.may_leave disk.old)
        → HoldsOn D.seen D.may_leave D.moment D.left_since (kept s) (Some bytes.now) disk.old disk.new) }
    ensures settled { OnOk result (IsSettledNow D.seen D.may_leave disk.new) }
    ensures calls { Runs D.answers (replace_steps slot bytes.now) (is_ok result) disk.old disk.new }
    ensures counted { CountsFaults result (D.faults disk.old) (D.faults disk.new) }
{
    put(disk, slot, bytes)?;
    disk.sync(slot)?;
    name_slot(disk, slot)
}

/// Writes the file into both slots, and then names the first, where the gate is empty: a torn gate may name either.
pub fn begin<D: Disk>(disk: &mut D, bytes: &[u8]) -> Result<(), Failed>
    ensures stored { OnOk result (HasStored bytes.now (D.seen disk.old) (D.seen disk.new) (D.may_leave disk.new)) }

    // Each crash leaves no file or these bytes.
    ensures any_moment { IfSome (D.seen disk.old) (λ s. named_by s.gate ≡ None → IsSettled s (D.may_leave disk.old)
        → HoldsOn D.seen D.may_leave D.moment D.left_since (kept s) (Some bytes.now) disk.old disk.new) }
    ensures settled { OnOk result (IsSettledNow D.seen D.may_leave disk.new) }
    ensures calls { Runs D.answers (begin_steps bytes.now) (is_ok result) disk.old disk.new }
    ensures counted { CountsFaults result (D.faults disk.old) (D.faults disk.new) }
{
    put(disk, 0, bytes)?;
    put(disk, 1, bytes)?;
    disk.sync(0)?;
    disk.sync(1)?;
    name_slot(disk, 0)
}
