//! Retained epochs.

ghost use Rattle.std.specs.Prelude.{◌≡◌, [], None, length, map, IfOk, IsTrue};
ghost use Rattle.std.specs.List.{list_any};
ghost use Rattle.rls_ident.specs.declared.epoch_name.EpochName.{EpochName as EpochNameSeen};
ghost use Rattle.rls_ident.specs.EpochNames.{is_of_member, is_within};
ghost use Rattle.rls_ident.specs.Lists.{IsIn};
ghost use Rattle.rls_parts.specs.Given.{AreGiven};
ghost use Rattle.rls_parts.specs.Reading.{epochs_of, names_of, stable_of_parts};
ghost use Rattle.rls_parts.specs.Rules.{epoch_fault, log_fault, names_eq, are_retained};

use rls_epoch::Epochs;
use rls_ident::{EpochName, Vector};
use rls_log::Log;
use rls_model::{EpochPart, Parts};
use std::alloc::{AllocError, Global};

// Whether some epoch of the list is stable.
fn has_stable(parts: &Parts, stable: &Vector) -> bool
    requires members { (e : EpochNameSeen) → IsIn e (names_of parts.now.epochs) → IsTrue (is_of_member (length stable.now) e) }
    ensures has { result ≡ list_any (λ e. is_within e stable.now) (names_of parts.now.epochs) }
{
    let list = parts.epochs.as_slice();
    for i in 0..list.len() {
        if list[i].name.within(stable) {
            return true;
        }
    }
    false
}

// Whether the names of the list are these.
fn names_eq(list: &[EpochPart], names: &[EpochName]) -> bool
    ensures equal { result ≡ names_eq (names_of list.now) names.now }
{
    if list.len() != names.len() {
        return false;
    }
    for i in 0..list.len() {
        if !list[i].name.same(&names[i]) {
            return false;
        }
    }
    true
}

// The epochs of these operations, in order.
fn epochs_of_ops(alloc: Global, ops: &Log) -> Result<Vec<EpochName>, AllocError>
    ensures epochs { IfOk result (λ names. names.items ≡ map (λ o. o.epoch) ops.now) }
{
    let mut names = Vec::with_capacity(alloc, ops.len())?;
    for i in 0..ops.len() {
        names.push(ops.head(i).epoch)?;
    }
    Ok(names)
}

/// Rule 7: whether the epochs are the retained ones, of which some is stable. It goes over the epochs a few times.
pub fn are_retained(
    alloc: Global,
    parts: &Parts,
    epochs: &Epochs,
    stable: &Vector,
) -> Result<bool, AllocError>
    requires given { AreGiven parts.now }
    requires epochs_are { epochs.now.epochs ≡ epochs_of parts.now }
    requires rule { epoch_fault parts.now [] parts.now.epochs ≡ None }
    requires log { log_fault parts.now (stable_of_parts parts.now) 0 parts.now.log ≡ None }
    requires stable_is { stable.now ≡ stable_of_parts parts.now }
    ensures retained { IfOk result (λ b. b ≡ are_retained parts.now) }
{
    if !has_stable(parts, stable) {
        return Ok(false);
    }
    let marked = epochs_of_ops(alloc, &parts.log)?;
    let part = epochs.retained(stable, marked.as_slice())?;
    Ok(names_eq(parts.epochs.as_slice(), part.names.as_slice()))
}
