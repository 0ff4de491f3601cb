//! Groups of steps.
//! Why: docs/DECISIONS.md, 242.

ghost use Rattle.std.specs.Prelude.{◌≡◌, ℕ, suc, ◌-◌, ◌++◌, ◌<◌, ◌≤◌, length, take, replicate, slice_get, reverse, Some, None, IfOk, IfErr, OnOk, OnErr, IsTrue, ◌↔◌, if◌then◌else◌};
ghost use Rattle.rls_seen.specs.Edits.{IsFault};
ghost use Rattle.rls_seen.specs.Seen.{text_over};
ghost use Rattle.rls_steps.specs.declared.piece.Step.{Step};
ghost use Rattle.rls_steps.specs.Courses.{Back, moved, MayMove, course, MayRun};
ghost use Rattle.rls_steps.specs.Groups.{group_size, group_count, group_before, goes_on, in_front, stacked, IsStopped};
ghost use Rattle.rls_model.specs.declared.edit.EditError.{EditError};
ghost use Rattle.rls_changes.specs.Edits.{edit_changes};
ghost use Rattle.rls_steps.specs.Grounds.{over, held_at, steps_edits, steps_on};
ghost use Rattle.rls_steps.specs.Recorded.{held_by, pieces_of};
ghost use Rattle.rls_steps.specs.Returning.{back_fault, IsPartBack};
ghost use Rattle.rls_steps.specs.StepChanges.{back_changes, first_changes, AreTold};

use crate::names::Names;
use crate::piece::Step;
use crate::returning::take_back;
use rls_changes::Change;
use rls_replica::{EditError, Replica};

/// Takes the steps of the last group back, the last first, and answers how many these are. What they change in the text stands after
/// the other changes.
pub(crate) fn back(
    replica: &mut Replica,
    names: &mut Names,
    next: &mut u64,
    from: &mut Vec<Step>,
    to: &mut Vec<Step>,
    changes: &mut Vec<Change>,
) -> Result<usize, EditError>
    ensures size { IfOk result (λ n. n ≡ group_size from.old.items) }
    ensures fits { OnOk result (MayRun (stacked (held_by replica.old next.old names.old) from.old.items to.old.items) (replicate (group_size from.old.items) Back)) }
    ensures after { OnOk result (stacked (held_by replica.new next.new names.new) from.new.items to.new.items ≡ course (stacked (held_by replica.old next.old names.old) from.old.items to.old.items) (replicate (group_size from.old.items) Back)) }
    ensures left { OnOk result (from.new.items ≡ take (length from.old.items - group_size from.old.items) from.old.items) }
    ensures stopped { IfErr result (λ e. IsStopped e (held_by replica.old next.old names.old) from.old.items to.old.items (held_by replica.new next.new names.new) from.new.items to.new.items) }
    ensures exact { OnOk result (steps_on over (group_size from.old.items) (held_at replica.old next.old names.old) (reverse from.old.items) to.old.items ≡ record { held = held_at replica.new next.new names.new; from = reverse from.new.items; to = to.new.items; fault = None }) }
    ensures refused { IfErr result (λ e. (e ≡ EditError.OutOfMemory → ⊥) → steps_on over (group_size from.old.items) (held_at replica.old next.old names.old) (reverse from.old.items) to.old.items ≡ record { held = held_at replica.new next.new names.new; from = reverse from.new.items; to = to.new.items; fault = Some e }) }
    ensures epochs { replica.new.epochs ≡ replica.old.epochs }
    ensures changes { OnOk result (changes.new.items ≡ changes.old.items ++ back_changes (group_size from.old.items) (stacked (held_by replica.old next.old names.old) from.old.items to.old.items)) }
    ensures told { AreTold (back_changes (group_size from.old.items) (stacked (held_by replica.old next.old names.old) from.old.items to.old.items)) changes.old.items changes.new.items (text_over replica.old) (text_over replica.new) }
    ensures edits { OnOk result (changes.new.items ≡ changes.old.items ++ edit_changes (steps_edits over (group_size from.old.items) (held_at replica.old next.old names.old) (reverse from.old.items))) }
    ensures refused_edits { IfErr result (λ e. (e ≡ EditError.OutOfMemory → ⊥) → changes.new.items ≡ changes.old.items ++ edit_changes (steps_edits over (group_size from.old.items) (held_at replica.old next.old names.old) (reverse from.old.items))) }
{
    let mut done: usize = 0;
    if from.len() == 0 {
        return Ok(done);
    }
    let group = from[from.len() - 1].group;
    'steps: while ends_in(from, group) {
        if let Err(error) = back_one(replica, names, next, from, to, changes) {
            return Err(error);
        }
        done += 1;
    }
    Ok(done)
}

// Whether the last step belongs to this group.
fn ends_in(steps: &Vec<Step>, group: u64) -> bool
    ensures ends { IsTrue result ↔ (0 < in_front group (reverse steps.now.items)) }
{
    let n = steps.len();
    n > 0 && steps[n - 1].group == group
}

// Takes the last step back.
fn back_one(
    replica: &mut Replica,
    names: &mut Names,
    next: &mut u64,
    from: &mut Vec<Step>,
    to: &mut Vec<Step>,
    changes: &mut Vec<Change>,
) -> Result<(), EditError>
    requires some { 0 < length from.old.items }
    ensures fits { OnOk result (MayMove (stacked (held_by replica.old next.old names.old) from.old.items to.old.items) Back) }
    ensures after { OnOk result (stacked (held_by replica.new next.new names.new) from.new.items to.new.items ≡ moved (stacked (held_by replica.old next.old names.old) from.old.items to.old.items) Back) }
    ensures left { OnOk result (from.new.items ≡ take (length from.old.items - 1) from.old.items) }
    ensures stays { OnErr result (from.new.items ≡ from.old.items) }
    ensures fault { IfErr result (λ e. (step : Step) → slice_get (reverse from.old.items) 0 ≡ Some step → IsFault e (back_fault (held_by replica.old next.old names.old) step.piece)) }
    ensures part { IfErr result (λ e. (step : Step) × (slice_get (reverse from.old.items) 0 ≡ Some step) × IsPartBack e (held_by replica.old next.old names.old) step.piece (held_by replica.new next.new names.new) step.group to.old.items to.new.items) }
    ensures exact { OnOk result ((k : ℕ) → steps_on over (suc k) (held_at replica.old next.old names.old) (reverse from.old.items) to.old.items ≡ steps_on over k (held_at replica.new next.new names.new) (reverse from.new.items) to.new.items) }
    ensures refused { IfErr result (λ e. (e ≡ EditError.OutOfMemory → ⊥) → (k : ℕ) → steps_on over (suc k) (held_at replica.old next.old names.old) (reverse from.old.items) to.old.items ≡ record { held = held_at replica.new next.new names.new; from = reverse from.new.items; to = to.new.items; fault = Some e }) }
    ensures epochs { replica.new.epochs ≡ replica.old.epochs }
    ensures changes { OnOk result (changes.new.items ≡ changes.old.items ++ first_changes (held_by replica.old next.old names.old) (pieces_of from.old.items)) }
    ensures told { AreTold (first_changes (held_by replica.old next.old names.old) (pieces_of from.old.items)) changes.old.items changes.new.items (text_over replica.old) (text_over replica.new) }
    ensures edits { OnOk result ((k : ℕ) → changes.new.items ++ edit_changes (steps_edits over k (held_at replica.new next.new names.new) (reverse from.new.items)) ≡ changes.old.items ++ edit_changes (steps_edits over (suc k) (held_at replica.old next.old names.old) (reverse from.old.items))) }
    ensures refused_edits { IfErr result (λ e. (e ≡ EditError.OutOfMemory → ⊥) → (k : ℕ) → changes.new.items ≡ changes.old.items ++ edit_changes (steps_edits over (suc k) (held_at replica.old next.old names.old) (reverse from.old.items))) }
{
    let n = from.len();
    match take_back(replica, names, next, &from[n - 1], to, changes) {
        Err(error) => Err(error),
        Ok(()) => {
            from.truncate(n - 1);
            Ok(())
        }
    }
}

/// How many groups there are.
pub(crate) fn count(steps: &Vec<Step>) -> usize
    ensures count { result ≡ group_count steps.now.items }
{
    let mut count: usize = 0;
    'steps: for i in 0..steps.len() {
        count += opens(steps, i);
    }
    count
}

// 1 if the step at a place begins a group, else 0.
fn opens(steps: &Vec<Step>, i: usize) -> usize
    requires place { i < length steps.now.items }
    ensures opens { (x : Step) → slice_get steps.now.items i ≡ Some x → result ≡ (if goes_on (group_before steps.now.items i) x.group then 0 else 1) }
    ensures few { result ≤ 1 }
{
    if i > 0 && steps[i - 1].group == steps[i].group {
        return 0;
    }
    1
}
