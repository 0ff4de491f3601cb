//! Pieces that are taken back.
//! Why: docs/DECISIONS.md, 78.

ghost use Rattle.std.specs.Prelude.{◌≡◌, ◌+◌, ◌-◌, ◌++◌, ◌∷◌, [], ℕ, List, length, map, take, replicate, slice_get, Some, None, IfOk, IfErr, OnOk, OnErr, IfSome, IfNone};
ghost use Rattle.rls_seen.specs.Edits.{IsFault};
ghost use Rattle.rls_seen.specs.Seen.{text_over};
ghost use Rattle.rls_changes.specs.declared.change.Change.TheVariants.{Insert, Delete};
ghost use Rattle.rls_steps.specs.Marks.{Piece, Put, Cut};
ghost use Rattle.rls_steps.specs.Courses.{cut_ranges, taken_back, ranges_over, FitsBack, FitRanges};
ghost use Rattle.rls_steps.specs.Recorded.{held_by, steps_of};
ghost use Rattle.rls_steps.specs.Returning.{back_fault, ranges_fault, IsPartBack, IsPartCut};
ghost use Rattle.rls_changes.specs.Edits.{edit_changes};
ghost use Rattle.rls_model.specs.declared.edit.EditError.{EditError};
ghost use Rattle.rls_steps.specs.Grounds.{over, held_at, cut_edits, taken_edits};
ghost use Rattle.rls_steps.specs.StepChanges.{piece_changes, range_change, AreTold};

use crate::changing::{cut, put};
use crate::finding::{place, ranges};
use crate::names::Names;
use crate::piece::{Labels, Piece, Step};
use rls_changes::Change;
use rls_ident::rely;
use rls_replica::{EditError, Replica};
use rls_runs::Text;
use std::alloc::AllocError;

/// Takes the piece of a step back, and puts what this leaves on the other stack, and what it changes in the text after the other changes.
pub(crate) fn take_back(
    replica: &mut Replica,
    names: &mut Names,
    next: &mut u64,
    step: &Step,
    other: &mut Vec<Step>,
    changes: &mut Vec<Change>,
) -> Result<(), EditError>
    ensures fault { IfErr result (λ e. IsFault e (back_fault (held_by replica.old next.old names.old) step.now.piece)) }
    ensures fits { OnOk result (FitsBack (held_by replica.old next.old names.old) step.now.piece) }
    ensures held { OnOk result (held_by replica.new next.new names.new ≡ (taken_back (held_by replica.old next.old names.old) step.now.piece []).held) }
    ensures stack { OnOk result (other.new.items ≡ other.old.items ++ steps_of step.now.group (taken_back (held_by replica.old next.old names.old) step.now.piece []).other) }
    ensures part { IfErr result (λ e. IsPartBack e (held_by replica.old next.old names.old) step.now.piece (held_by replica.new next.new names.new) step.now.group other.old.items other.new.items) }
    ensures epochs { replica.new.epochs ≡ replica.old.epochs }
    ensures changes { OnOk result (changes.new.items ≡ changes.old.items ++ piece_changes (held_by replica.old next.old names.old) step.now.piece) }
    ensures told { AreTold (piece_changes (held_by replica.old next.old names.old) step.now.piece) changes.old.items changes.new.items (text_over replica.old) (text_over replica.new) }
    ensures edits { IfErr result (λ e. (e ≡ EditError.OutOfMemory → ⊥) → changes.new.items ≡ changes.old.items ++ edit_changes (taken_edits over (held_at replica.old next.old names.old) step.now.piece)) }
{
    match &step.piece {
        Piece::Put { labels } => take_out(
            replica,
            names,
            next,
            step.group,
            labels.as_slice(),
            other,
            changes,
        ),
        Piece::Cut {
            labels,
            text,
            left,
            right,
        } => put_back(
            replica, names, next, step.group, labels, text, *left, *right, other, changes,
        ),
    }
}

// The characters with these labels. Where none is left, an empty piece stands on the other stack.
fn take_out(
    replica: &mut Replica,
    names: &mut Names,
    next: &mut u64,
    group: u64,
    labels: &[u64],
    other: &mut Vec<Step>,
    changes: &mut Vec<Change>,
) -> Result<(), EditError>
    ensures fault { IfErr result (λ e. IsFault e (back_fault (held_by replica.old next.old names.old) (Put labels.now))) }
    ensures fits { OnOk result (FitsBack (held_by replica.old next.old names.old) (Put labels.now)) }
    ensures held { OnOk result (held_by replica.new next.new names.new ≡ (taken_back (held_by replica.old next.old names.old) (Put labels.now) []).held) }
    ensures stack { OnOk result (other.new.items ≡ other.old.items ++ steps_of group (taken_back (held_by replica.old next.old names.old) (Put labels.now) []).other) }
    ensures part { IfErr result (λ e. IsPartBack e (held_by replica.old next.old names.old) (Put labels.now) (held_by replica.new next.new names.new) group other.old.items other.new.items) }
    ensures epochs { replica.new.epochs ≡ replica.old.epochs }
    ensures changes { OnOk result (changes.new.items ≡ changes.old.items ++ piece_changes (held_by replica.old next.old names.old) (Put labels.now)) }
    ensures told { AreTold (piece_changes (held_by replica.old next.old names.old) (Put labels.now)) changes.old.items changes.new.items (text_over replica.old) (text_over replica.new) }
    ensures edits { IfErr result (λ e. (e ≡ EditError.OutOfMemory → ⊥) → changes.new.items ≡ changes.old.items ++ edit_changes (taken_edits over (held_at replica.old next.old names.old) (Put labels.now))) }
{
    let Ok(ranges) = ranges(replica, names, labels) else {
        return Err(EditError::OutOfMemory);
    };
    if ranges.len() == 0 {
        let Ok(()) = push_empty(other, group) else {
            return Err(EditError::OutOfMemory);
        };
        return Ok(());
    }
    match cut_all(replica, names, next, group, &ranges, other, changes) {
        Err(error) => Err(error),
        Ok(()) => Ok(()),
    }
}

// A step of which nothing is left. After an error all is as before.
fn push_empty(steps: &mut Vec<Step>, group: u64) -> Result<(), AllocError>
    ensures ok { OnOk result (steps.new.items ≡ steps.old.items ++ record { group = group; piece = Put [] } ∷ []) }
    ensures err { OnErr result (steps.new.items ≡ steps.old.items) }
{
    let labels = Labels::from_vec(Vec::new(*steps.allocator()));
    steps.push(Step {
        group,
        piece: Piece::Put { labels },
    })?;
    Ok(())
}

// Cuts these ranges out, one after another.
fn cut_all(
    replica: &mut Replica,
    names: &mut Names,
    next: &mut u64,
    group: u64,
    ranges: &Vec<(u64, u64)>,
    other: &mut Vec<Step>,
    changes: &mut Vec<Change>,
) -> Result<(), EditError>
    ensures fault { IfErr result (λ e. IsFault e (ranges_fault (held_by replica.old next.old names.old) ranges.now.items)) }
    ensures fits { OnOk result (FitRanges (held_by replica.old next.old names.old) ranges.now.items) }
    ensures held { OnOk result (held_by replica.new next.new names.new ≡ (cut_ranges (held_by replica.old next.old names.old) ranges.now.items []).held) }
    ensures stack { OnOk result (other.new.items ≡ other.old.items ++ steps_of group (cut_ranges (held_by replica.old next.old names.old) ranges.now.items []).other) }
    ensures part { IfErr result (λ e. IsPartCut e (held_by replica.old next.old names.old) ranges.now.items (held_by replica.new next.new names.new) group other.old.items other.new.items) }
    ensures epochs { replica.new.epochs ≡ replica.old.epochs }
    ensures changes { OnOk result (changes.new.items ≡ changes.old.items ++ map range_change ranges.now.items) }
    ensures told { AreTold (map range_change ranges.now.items) changes.old.items changes.new.items (text_over replica.old) (text_over replica.new) }
    ensures edits { IfErr result (λ e. (e ≡ EditError.OutOfMemory → ⊥) → changes.new.items ≡ changes.old.items ++ edit_changes (cut_edits over (held_at replica.old next.old names.old) ranges.now.items)) }
{
    'cuts: for i in 0..ranges.len() {
        rely!(replica.sane());
        let (at, count) = ranges[i];
        let before = changes.len();
        let Ok(()) = push_deletion(changes, at, count) else {
            return Err(EditError::OutOfMemory);
        };
        if let Err(error) = cut(replica, names, next, other, group, at, count) {
            changes.truncate(before);
            return Err(error);
        }
    }
    Ok(())
}

// The text of a piece that was cut out.
fn put_back(
    replica: &mut Replica,
    names: &mut Names,
    next: &mut u64,
    group: u64,
    labels: &Labels,
    text: &Text,
    left: Option<u64>,
    right: Option<u64>,
    other: &mut Vec<Step>,
    changes: &mut Vec<Change>,
) -> Result<(), EditError>
    ensures fault { IfErr result (λ e. IsFault e (back_fault (held_by replica.old next.old names.old) (Cut labels.now text.now left right))) }
    ensures fits { OnOk result (FitsBack (held_by replica.old next.old names.old) (Cut labels.now text.now left right)) }
    ensures held { OnOk result (held_by replica.new next.new names.new ≡ (taken_back (held_by replica.old next.old names.old) (Cut labels.now text.now left right) []).held) }
    ensures stack { OnOk result (other.new.items ≡ other.old.items ++ steps_of group (taken_back (held_by replica.old next.old names.old) (Cut labels.now text.now left right) []).other) }
    ensures part { IfErr result (λ e. IsPartBack e (held_by replica.old next.old names.old) (Cut labels.now text.now left right) (held_by replica.new next.new names.new) group other.old.items other.new.items) }
    ensures epochs { replica.new.epochs ≡ replica.old.epochs }
    ensures changes { OnOk result (changes.new.items ≡ changes.old.items ++ piece_changes (held_by replica.old next.old names.old) (Cut labels.now text.now left right)) }
    ensures told { AreTold (piece_changes (held_by replica.old next.old names.old) (Cut labels.now text.now left right)) changes.old.items changes.new.items (text_over replica.old) (text_over replica.new) }
    ensures edits { IfErr result (λ e. (e ≡ EditError.OutOfMemory → ⊥) → changes.new.items ≡ changes.old.items ++ edit_changes (taken_edits over (held_at replica.old next.old names.old) (Cut labels.now text.now left right))) }
{
    let Ok(at) = place(replica, names, left, right) else {
        return Err(EditError::OutOfMemory);
    };
    let Ok(text) = text.copy() else {
        return Err(EditError::OutOfMemory);
    };
    let Ok(labels) = labels.copy() else {
        return Err(EditError::OutOfMemory);
    };
    rely!(replica.sane());
    let before = changes.len();
    let Ok(()) = push_insertion(changes, at, &text) else {
        return Err(EditError::OutOfMemory);
    };
    match put(replica, names, other, group, at, text, labels) {
        Ok(_) => Ok(()),
        Err(error) => {
            changes.truncate(before);
            Err(error)
        }
    }
}

// A deletion after the other changes. After an error all is as before.
fn push_deletion(changes: &mut Vec<Change>, at: u64, count: u64) -> Result<(), AllocError>
    ensures ok { OnOk result (changes.new.items ≡ changes.old.items ++ Delete at count ∷ []) }
    ensures err { OnErr result (changes.new.items ≡ changes.old.items) }
{
    changes.push(Change::Delete { at, count })?;
    Ok(())
}

// An insertion after the other changes. After an error all is as before.
fn push_insertion(changes: &mut Vec<Change>, at: u64, text: &Text) -> Result<(), AllocError>
    ensures ok { OnOk result (changes.new.items ≡ changes.old.items ++ Insert at text.now ∷ []) }
    ensures err { OnErr result (changes.new.items ≡ changes.old.items) }
{
    let text = text.copy()?;
    changes.push(Change::Insert { at, text })?;
    Ok(())
}
