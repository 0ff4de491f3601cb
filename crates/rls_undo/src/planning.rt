//! Where an entry's characters stand in a text, and the edits that undo it.

ghost use Rattle.std.specs.Prelude.{◌≡◌, ◌≤◌, ◌<◌, ◌-◌, ◌^◌, ◌∷◌, [], ◌↔◌, ℕ, List, length, map, reverse, IfOk, OnOk, IsErrOf, IsFalse};
ghost use Rattle.rls_ident.specs.declared.tuple.Tuple.{Tuple};
ghost use Rattle.rls_ident.specs.Lists.{IsIn};
ghost use Rattle.rls_runs.specs.Places.{below_count};
ghost use Rattle.rls_seen.specs.Seen.{idents_over};
ghost use Rattle.rls_undo.specs.Planning.{AreBehind};
ghost use Rattle.rls_ident.specs.declared.epoch_name.EpochName.{EpochName};
ghost use Rattle.rls_replica.specs.Names.{keeps};
ghost use Rattle.rls_model.specs.declared.edit.Edit.TheVariants.{Insert};
ghost use Rattle.rls_undo.specs.Plans.{deletion, deletions, epoch_in, places_from, put_place, ranges_of};
ghost use Rattle.rls_undo.specs.Undoing.{planned_over};

use crate::entry::Entry;
use rls_ident::{Ident, rely};
use rls_replica::{Edit, PastError, Replica};
use rls_runs::{Runs, Text};
use std::alloc::{AllocError, Global};

/// The edits that undo an entry.
pub(crate) fn plan_for(
    alloc: Global,
    replica: &Replica,
    entry: &Entry,
) -> Result<Vec<Edit>, PastError>
    ensures plan { IfOk result (λ plan. plan.items ≡ planned_over replica.now entry.now) }
    ensures dropped { (e : EpochName) → (IsErrOf result (PastError.Dropped e) ↔ ((e ≡ epoch_in entry.now) × IsFalse (keeps replica.now (epoch_in entry.now)))) }
{
    match entry {
        Entry::Inserted { epoch, ids } => match replica.to_greatest(*epoch, ids) {
            Err(error) => Err(error),
            Ok(there) => {
                let plan = plan_deletions(alloc, replica, &there)?;
                Ok(plan)
            }
        },
        Entry::Removed { epoch, first, text } => match replica.ident_to_greatest(*epoch, first) {
            Err(error) => Err(error),
            Ok(there) => {
                let plan = plan_insertion(alloc, replica, &there, text)?;
                Ok(plan)
            }
        },
    }
}

// What deletes these characters, as far as they are in the text.
fn plan_deletions(alloc: Global, replica: &Replica, ids: &Runs) -> Result<Vec<Edit>, AllocError>
    ensures plan { IfOk result (λ plan. plan.items ≡ deletions (ranges_of (places_from 0 ids.now (idents_over replica.now)))) }
{
    let ranges = ranges(alloc, replica, ids)?;
    let plan = deletions_of(alloc, &ranges)?;
    Ok(plan)
}

// A deletion of each of these ranges.
fn deletions_of(alloc: Global, ranges: &[(u64, u64)]) -> Result<Vec<Edit>, AllocError>
    ensures deletions { IfOk result (λ plan. plan.items ≡ map deletion ranges.now) }
{
    let mut plan = Vec::with_capacity(alloc, ranges.len())?;
    for range in ranges {
        let (at, count) = *range;
        plan.push(Edit::Delete { at, count })?;
    }
    Ok(plan)
}

// What inserts a text whose first character had this identifier.
fn plan_insertion(
    alloc: Global,
    replica: &Replica,
    first: &Ident,
    text: &Text,
) -> Result<Vec<Edit>, AllocError>
    ensures plan { IfOk result (λ plan. plan.items ≡ Insert (below_count (idents_over replica.now) first.now) text.now ∷ []) }
{
    let at = replica.count_below(first);
    let text = text.copy()?;
    let mut plan = Vec::new(alloc);
    plan.push(Edit::Insert { at, text })?;
    Ok(plan)
}

/// The maximal ranges of the places of these identifiers of the greatest epoch, as far as they are in the text: each as its first
/// place and its length, the last range first. It costs a way down the tree for each identifier.
pub(crate) fn ranges(
    alloc: Global,
    replica: &Replica,
    targets: &Runs,
) -> Result<Vec<(u64, u64)>, AllocError>
    ensures ranges { IfOk result (λ rs. rs.items ≡ reverse (ranges_of (places_from 0 targets.now (idents_over replica.now)))) }
{
    let mut ranges = Vec::new(alloc);
    let mut i = targets.total();
    'targets: while i > 0 {
        i -= 1;
        let id = targets.get(i)?;
        put_target(&mut ranges, replica, &id)?;
    }
    Ok(ranges)
}

// One more identifier, less than those whose ranges they are.
fn put_target(ranges: &mut Vec<(u64, u64)>, replica: &Replica, id: &Ident) -> Result<(), AllocError>
    requires short { (r : ℕ × ℕ) → IsIn r ranges.old.items → r.1 ≤ length (idents_over replica.now) }
    ensures ok { OnOk result ((ts : List (List Tuple)) → AreBehind id.now ts → ranges.old.items ≡ reverse (ranges_of (places_from 0 ts (idents_over replica.now)))
        → ranges.new.items ≡ reverse (ranges_of (places_from 0 (id.now ∷ ts) (idents_over replica.now)))) }
{
    rely!(replica.sane());
    match replica.find(id) {
        Err(_) => Ok(()),
        Ok(at) => {
            put_range(ranges, at)?;
            Ok(())
        }
    }
}

// One more place, before those of the last range of the list.
fn put_range(ranges: &mut Vec<(u64, u64)>, at: u64) -> Result<(), AllocError>
    requires place { at < 2 ^ 64 - 1 }
    requires short { (r : ℕ × ℕ) → IsIn r ranges.old.items → r.1 < 2 ^ 64 - 1 }
    ensures ok { OnOk result (ranges.new.items ≡ reverse (put_place at (reverse ranges.old.items))) }
{
    let Some((next, count)) = ranges.pop() else {
        ranges.push((at, 1))?;
        return Ok(());
    };
    if next == at + 1 {
        ranges.push((at, count + 1))?;
        return Ok(());
    }
    ranges.push((next, count))?;
    ranges.push((at, 1))?;
    Ok(())
}
