//! Edits that are steps.

ghost use Rattle.std.specs.Prelude.{◌≡◌, ◌<◌, ◌^◌, ◌+◌, ◌++◌, ◌∷◌, [], ℕ, length, take, zip, reverse, Some, None, IfOk, IfErr, OnOk, OnErr};
ghost use Rattle.rls_model.specs.declared.edit.Edit.TheVariants.{Insert, Delete};
ghost use Rattle.rls_model.specs.WellFormed.{IsEdit};
ghost use Rattle.rls_seen.specs.Edits.{edit_fault_over, edited, made_over, IsFault};
ghost use Rattle.rls_seen.specs.Seen.{own_count};
ghost use Rattle.rls_steps.specs.Marks.{Put, numbers_from};
ghost use Rattle.rls_steps.specs.Labelled.{ready_over, cut_over, cut_piece, put_over, inserted_by};
ghost use Rattle.rls_steps.specs.Parts.{parts};
ghost use Rattle.rls_steps.specs.Recorded.{held_by, steps_of};

use crate::inserting::name_inserted;
use crate::labelling::ready;
use crate::names::Names;
use crate::piece::{Labels, Piece, Step};
use crate::splitting::push_parts;
use rls_ident::rely;
use rls_ops::Op;
use rls_replica::{Edit, EditError, Replica};
use rls_runs::Text;
use std::alloc::{AllocError, Global};

/// Cuts characters out, and puts the piece that this leaves on a stack. After an error all is as before.
pub(crate) fn cut(
    replica: &mut Replica,
    names: &mut Names,
    next: &mut u64,
    stack: &mut Vec<Step>,
    group: u64,
    at: u64,
    count: u64,
) -> Result<u32, EditError>
    ensures fault { IfErr result (λ e. IsFault e (edit_fault_over replica.old (Delete at count))) }
    ensures fits { OnOk result (edit_fault_over replica.old (Delete at count) ≡ None) }
    ensures whole { IsEdit (Delete at count) }
    ensures after { OnOk result (replica.new ≡ edited replica.old (Delete at count)) }
    ensures held { OnOk result (held_by replica.new next.new names.new ≡ cut_over (ready_over (held_by replica.old next.old names.old) at count) at count) }
    ensures stack { OnOk result (stack.new.items ≡ stack.old.items ++ record { group = group; piece = cut_piece (ready_over (held_by replica.old next.old names.old) at count) at count } ∷ []) }
    ensures err { OnErr result (replica.new ≡ replica.old) }
    ensures names { OnErr result (names.new ≡ names.old) }
    ensures next { OnErr result (next.new ≡ next.old) }
    ensures stays { OnErr result (stack.new.items ≡ stack.old.items) }
    ensures epochs { replica.new.epochs ≡ replica.old.epochs }
{
    let edit = Edit::Delete { at, count };
    rely!(edit.fits());
    let op = replica.made(&edit)?;
    let before = names.len();
    let first = *next;
    match ready(replica, names, next, at, count) {
        Err(_) => {
            names.truncate(before);
            *next = first;
            Err(EditError::OutOfMemory)
        }
        Ok(piece) => match perform(replica, &edit, &op, stack, Step { group, piece }) {
            Ok(seq) => Ok(seq),
            Err(_) => {
                names.truncate(before);
                *next = first;
                Err(EditError::OutOfMemory)
            }
        },
    }
}

/// Performs a deletion, which makes this operation, and puts the pieces that it leaves on a stack, each of which one insertion puts back.
/// After an error all is as before.
pub(crate) fn delete(
    replica: &mut Replica,
    names: &mut Names,
    next: &mut u64,
    stack: &mut Vec<Step>,
    group: u64,
    op: &Op,
    at: u64,
    count: u64,
) -> Result<u32, AllocError>
    requires fits { edit_fault_over replica.old (Delete at count) ≡ None }
    requires op { op.now ≡ made_over replica.old (Delete at count) }
    ensures seq { IfOk result (λ n. n ≡ own_count replica.old + 1) }
    ensures after { OnOk result (replica.new ≡ edited replica.old (Delete at count)) }
    ensures held { OnOk result (held_by replica.new next.new names.new ≡ cut_over (ready_over (held_by replica.old next.old names.old) at count) at count) }
    ensures stack { OnOk result (stack.new.items ≡ stack.old.items ++ steps_of group (parts (cut_piece (ready_over (held_by replica.old next.old names.old) at count) at count))) }
    ensures err { OnErr result (replica.new ≡ replica.old) }
    ensures names { OnErr result (names.new ≡ names.old) }
    ensures next { OnErr result (next.new ≡ next.old) }
    ensures stays { OnErr result (stack.new.items ≡ stack.old.items) }
    ensures epochs { replica.new.epochs ≡ replica.old.epochs }
{
    let before = names.len();
    let steps = stack.len();
    let first = *next;
    match perform_deletion(replica, names, next, stack, group, op, at, count) {
        Ok(seq) => Ok(seq),
        Err(error) => {
            names.truncate(before);
            stack.truncate(steps);
            *next = first;
            Err(error)
        }
    }
}

// Performs a deletion, which makes this operation, with labels for its characters and its neighbours and its steps on the stack. After an
// error names and steps may have been added, and the replica is as before.
fn perform_deletion(
    replica: &mut Replica,
    names: &mut Names,
    next: &mut u64,
    stack: &mut Vec<Step>,
    group: u64,
    op: &Op,
    at: u64,
    count: u64,
) -> Result<u32, AllocError>
    requires fits { edit_fault_over replica.old (Delete at count) ≡ None }
    requires op { op.now ≡ made_over replica.old (Delete at count) }
    ensures seq { IfOk result (λ n. n ≡ own_count replica.old + 1) }
    ensures after { OnOk result (replica.new ≡ edited replica.old (Delete at count)) }
    ensures held { OnOk result (held_by replica.new next.new names.new ≡ cut_over (ready_over (held_by replica.old next.old names.old) at count) at count) }
    ensures stack { OnOk result (stack.new.items ≡ stack.old.items ++ steps_of group (parts (cut_piece (ready_over (held_by replica.old next.old names.old) at count) at count))) }
    ensures err { OnErr result (replica.new ≡ replica.old) }
    ensures names { take (length names.old) names.new ≡ names.old }
    ensures steps { take (length stack.old.items) stack.new.items ≡ stack.old.items }
{
    let edit = Edit::Delete { at, count };
    let piece = ready(replica, names, next, at, count)?;
    push_parts(stack, group, piece)?;
    let seq = replica.accept_own(&edit, op)?;
    Ok(seq)
}

/// Inserts characters with these labels, and puts their piece on a stack. After an error all is as before.
pub(crate) fn put(
    replica: &mut Replica,
    names: &mut Names,
    stack: &mut Vec<Step>,
    group: u64,
    at: u64,
    text: Text,
    labels: Labels,
) -> Result<u32, EditError>
    ensures fault { IfErr result (λ e. IsFault e (edit_fault_over replica.old (Insert at text))) }
    ensures fits { OnOk result (edit_fault_over replica.old (Insert at text) ≡ None) }
    ensures whole { IsEdit (Insert at text) }
    ensures seq { IfOk result (λ n. n ≡ own_count replica.old + 1) }
    ensures after { OnOk result (replica.new ≡ edited replica.old (Insert at text)) }
    ensures held { OnOk result ((next : ℕ) → held_by replica.new next names.new ≡ put_over (held_by replica.old next names.old) at labels text) }
    ensures stack { OnOk result (stack.new.items ≡ stack.old.items ++ record { group = group; piece = Put labels } ∷ []) }
    ensures err { OnErr result (replica.new ≡ replica.old) }
    ensures names { OnErr result (names.new ≡ names.old) }
    ensures stays { OnErr result (stack.new.items ≡ stack.old.items) }
    ensures epochs { replica.new.epochs ≡ replica.old.epochs }
{
    let edit = Edit::Insert { at, text };
    rely!(edit.fits());
    let op = replica.made(&edit)?;
    let before = names.len();
    match perform_insertion(replica, names, stack, group, &edit, &op, labels) {
        Ok(seq) => Ok(seq),
        Err(_) => {
            names.truncate(before);
            Err(EditError::OutOfMemory)
        }
    }
}

/// Performs an insertion of so many characters, which makes this operation: they get the next labels. After an error all is as before.
pub(crate) fn insert(
    replica: &mut Replica,
    names: &mut Names,
    next: &mut u64,
    stack: &mut Vec<Step>,
    group: u64,
    edit: &Edit,
    op: &Op,
    count: usize,
) -> Result<u32, AllocError>
    requires fits { edit_fault_over replica.old edit.now ≡ None }
    requires op { op.now ≡ made_over replica.old edit.now }
    ensures seq { IfOk result (λ n. n ≡ own_count replica.old + 1) }
    ensures after { OnOk result (replica.new ≡ edited replica.old edit.now) }
    ensures named { OnOk result (reverse names.new ≡ zip (inserted_by (made_over replica.old edit.now).body) (numbers_from next.old count) ++ reverse names.old) }
    ensures given { OnOk result (next.new ≡ next.old + count) }
    ensures stack { OnOk result (stack.new.items ≡ stack.old.items ++ record { group = group; piece = Put (numbers_from next.old count) } ∷ []) }
    ensures err { OnErr result (replica.new ≡ replica.old) }
    ensures names { OnErr result (names.new ≡ names.old) }
    ensures next { OnErr result (next.new ≡ next.old) }
    ensures stays { OnErr result (stack.new.items ≡ stack.old.items) }
{
    let first = *next;
    let Some(more) = first.checked_add(count as u64) else {
        return Err(AllocError);
    };
    let labels = Labels::from_vec(numbers(names.alloc(), first, count)?);
    let before = names.len();
    match perform_insertion(replica, names, stack, group, edit, op, labels) {
        Ok(seq) => {
            *next = more;
            Ok(seq)
        }
        Err(error) => {
            names.truncate(before);
            Err(error)
        }
    }
}

// Performs an insertion, which makes this operation, with these labels for its characters and its step on the stack. After an error names
// may have been added, and the rest is as before.
fn perform_insertion(
    replica: &mut Replica,
    names: &mut Names,
    stack: &mut Vec<Step>,
    group: u64,
    edit: &Edit,
    op: &Op,
    labels: Labels,
) -> Result<u32, AllocError>
    requires fits { edit_fault_over replica.old edit.now ≡ None }
    requires op { op.now ≡ made_over replica.old edit.now }
    ensures seq { IfOk result (λ n. n ≡ own_count replica.old + 1) }
    ensures after { OnOk result (replica.new ≡ edited replica.old edit.now) }
    ensures named { OnOk result (reverse names.new ≡ zip (inserted_by (made_over replica.old edit.now).body) labels ++ reverse names.old) }
    ensures stack { OnOk result (stack.new.items ≡ stack.old.items ++ record { group = group; piece = Put labels } ∷ []) }
    ensures err { OnErr result (replica.new ≡ replica.old) }
    ensures front { take (length names.old) names.new ≡ names.old }
    ensures stays { OnErr result (stack.new.items ≡ stack.old.items) }
{
    name_inserted(names, op, labels.as_slice())?;
    let piece = Piece::Put { labels };
    let seq = perform(replica, edit, op, stack, Step { group, piece })?;
    Ok(seq)
}

// So many numbers, from one on.
fn numbers(alloc: Global, first: u64, count: usize) -> Result<Vec<u64>, AllocError>
    requires end { first + count < 2 ^ 64 }
    ensures numbers { IfOk result (λ ns. ns.items ≡ numbers_from first count) }
{
    let mut numbers = Vec::with_capacity(alloc, count)?;
    'numbers: for i in 0..count {
        numbers.push(first + i as u64)?;
    }
    Ok(numbers)
}

// Performs an edit, which makes this operation, with its step on the stack. After an error all is as before.
fn perform(
    replica: &mut Replica,
    edit: &Edit,
    op: &Op,
    stack: &mut Vec<Step>,
    step: Step,
) -> Result<u32, AllocError>
    requires fits { edit_fault_over replica.old edit.now ≡ None }
    requires op { op.now ≡ made_over replica.old edit.now }
    ensures seq { IfOk result (λ n. n ≡ own_count replica.old + 1) }
    ensures after { OnOk result (replica.new ≡ edited replica.old edit.now) }
    ensures stack { OnOk result (stack.new.items ≡ stack.old.items ++ step ∷ []) }
    ensures err { OnErr result (replica.new ≡ replica.old) }
    ensures stays { OnErr result (stack.new.items ≡ stack.old.items) }
{
    let before = stack.len();
    stack.push(step)?;
    match replica.accept_own(edit, op) {
        Ok(seq) => Ok(seq),
        Err(error) => {
            stack.truncate(before);
            Err(error)
        }
    }
}
