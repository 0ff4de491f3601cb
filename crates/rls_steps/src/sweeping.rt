//! Names that no step needs, which go.

ghost use Rattle.std.specs.Prelude.{◌≡◌, ◌<◌, ◌≤◌, ◌+◌, ◌++◌, ◌∷◌, [], ℕ, List, length, take, drop, filter, reverse, slice_get, Some, IfOk, IfSome, OnOk, IsTrue, IsFalse, true, false};
ghost use Rattle.std.specs.List.Sorted.{IsNonDecreasing};
ghost use Rattle.rls_ident.specs.declared.tuple.Tuple.{Tuple};
ghost use Rattle.rls_ident.specs.Lists.{IsIn};
ghost use Rattle.rls_seen.specs.Seen.{idents_over};
ghost use Rattle.rls_steps.specs.NameRuns.{names_in, names_of};
ghost use Rattle.rls_steps.specs.Tables.{IsRising, given_labels};
ghost use Rattle.rls_steps.specs.Bounds.{IsLatest};
ghost use Rattle.rls_steps.specs.Sweeping.{piece_labels, step_labels, is_needed, is_newest, is_kept, kept_names};

use crate::finding::newest_ident;
use crate::name_run::NameRun;
use crate::names::Names;
use crate::pending::{add_pending, push_pending};
use crate::piece::{Piece, Step};
use crate::places::LabelsAhead;
use rls_ident::Ident;
use rls_replica::Replica;
use std::alloc::{AllocError, Global};

/// The names that are kept beside these steps. All are in the greatest epoch.
///
/// It costs a sort of the labels that the steps name; for each run of names a search among these, and a few among the names, where all of
/// the run is kept as the newest of its labels; and else for each of its names up to the last one that is needed a few searches among the
/// labels, and one in the text for each but the newest of a label.
pub(crate) fn kept_names(
    replica: &Replica,
    names: &Names,
    past: &[Step],
    future: &[Step],
) -> Result<Names, AllocError>
    ensures kept { IfOk result (λ ns. ns ≡ kept_names (idents_over replica.now) (step_labels past.now ++ step_labels future.now) names.now) }
{
    let labels = needed_labels(names.alloc(), past, future)?;
    let kept = kept_among(replica, names, &labels)?;
    Ok(kept)
}

// The labels that these steps name, each once, in increasing order.
fn needed_labels(alloc: Global, past: &[Step], future: &[Step]) -> Result<Vec<u64>, AllocError>
    ensures same { IfOk result (λ ls. (l : ℕ) → is_needed ls.items l ≡ is_needed (step_labels past.now ++ step_labels future.now) l) }
    ensures rising { IfOk result (λ ls. IsRising ls.items) }
{
    let mut labels = Vec::new(alloc);
    push_steps(&mut labels, past)?;
    push_steps(&mut labels, future)?;
    labels.sort_unstable();
    labels.dedup();
    Ok(labels)
}

// The labels that these steps name, too.
fn push_steps(labels: &mut Vec<u64>, steps: &[Step]) -> Result<(), AllocError>
    ensures labels { OnOk result (labels.new.items ≡ labels.old.items ++ step_labels steps.now) }
{
    'steps: for i in 0..steps.len() {
        push_piece(labels, &steps[i].piece)?;
    }
    Ok(())
}

// The labels that a piece names, too.
fn push_piece(labels: &mut Vec<u64>, piece: &Piece) -> Result<(), AllocError>
    ensures labels { OnOk result (labels.new.items ≡ labels.old.items ++ piece_labels piece.now) }
{
    match piece {
        Piece::Put { labels: more } => {
            labels.extend_from_slice(more.as_slice())?;
            Ok(())
        }
        Piece::Cut {
            labels: more,
            left,
            right,
            ..
        } => {
            labels.extend_from_slice(more.as_slice())?;
            push_known(labels, *left)?;
            push_known(labels, *right)?;
            Ok(())
        }
    }
}

// One more label, if it is one.
fn push_known(labels: &mut Vec<u64>, label: Option<u64>) -> Result<(), AllocError>
    ensures ok { OnOk result (labels.new.items ≡ labels.old.items ++ given_labels (label ∷ [])) }
{
    match label {
        None => Ok(()),
        Some(label) => {
            labels.push(label)?;
            Ok(())
        }
    }
}

// The names that are kept where these are the labels that steps name, in increasing order.
fn kept_among(replica: &Replica, names: &Names, labels: &[u64]) -> Result<Names, AllocError>
    requires rising { IsRising labels.now }
    ensures kept { IfOk result (λ ns. ns ≡ kept_names (idents_over replica.now) labels.now names.now) }
{
    let mut kept = Names::new(names.alloc());
    let mut last = None;
    let mut i = 0;
    'names: while i < names.len() {
        let (run, count) = add_next(&mut kept, last, replica, names, labels, i)?;
        last = run;
        i += count;
    }
    push_pending(&mut kept, last)?;
    Ok(kept)
}

// The next names that are kept, too: none of the rest of a run, if no step names one of its labels; or those of a run, if it begins at this
// place and all of it is kept as the newest of its labels; or else the name at the place, if it is kept. Answers the names that wait now,
// and how many were looked at.
fn add_next(
    kept: &mut Names,
    last: Option<NameRun>,
    replica: &Replica,
    names: &Names,
    labels: &[u64],
    i: usize,
) -> Result<(Option<NameRun>, usize), AllocError>
    requires place { i < length names.now }
    requires rising { IsRising labels.now }
    ensures some { IfOk result (λ p. 0 < p.1) }
    ensures within { IfOk result (λ p. i + p.1 ≤ length names.now) }
    ensures kept { IfOk result (λ p. kept.new ++ names_in p.0 ≡ (kept.old ++ names_in last) ++ filter (is_kept (idents_over replica.now) labels.now (reverse names.now)) (take p.1 (drop i names.now))) }
{
    let ahead = names.rest_of_run(i);
    if !any_needed(labels, ahead) {
        return Ok((last, ahead.count));
    }
    match whole_run(names, labels, i)? {
        Some(run) => {
            let count = run.len();
            push_pending(kept, last)?;
            Ok((Some(run), count))
        }
        None => {
            let run = add_kept(kept, last, replica, names, labels, i)?;
            Ok((run, 1))
        }
    }
}

// The names of a run, if it begins at this place and all of it is kept as the newest of its labels.
fn whole_run(names: &Names, labels: &[u64], i: usize) -> Result<Option<NameRun>, AllocError>
    requires place { i < length names.now }
    requires rising { IsRising labels.now }
    ensures latest { IfOk result (λ o. IfSome o (λ r. IsLatest names.now i r)) }
    ensures needed { IfOk result (λ o. IfSome o (λ r. (n : List Tuple × ℕ) → IsIn n (names_of r) → is_needed labels.now n.1 ≡ true)) }
{
    match names.latest_run(i)? {
        None => Ok(None),
        Some(run) => {
            if are_needed(labels, &run) {
                return Ok(Some(run));
            }
            Ok(None)
        }
    }
}

// The name at a place, too, if it is kept. Answers the names that wait now.
fn add_kept(
    kept: &mut Names,
    last: Option<NameRun>,
    replica: &Replica,
    names: &Names,
    labels: &[u64],
    i: usize,
) -> Result<Option<NameRun>, AllocError>
    requires place { i < length names.now }
    requires sorted { IsNonDecreasing labels.now }
    ensures kept { IfOk result (λ o. (n : List Tuple × ℕ) → slice_get names.now i ≡ Some n → kept.new ++ names_in o ≡ (kept.old ++ names_in last) ++ filter (is_kept (idents_over replica.now) labels.now (reverse names.now)) (n ∷ [])) }
{
    let (ident, label) = names.name(i)?;
    if is_kept(replica, names, labels, &ident, label)? {
        let run = add_pending(kept, last, ident, label)?;
        return Ok(Some(run));
    }
    Ok(last)
}

// Whether a name is kept where these are the labels that steps name, in increasing order.
fn is_kept(
    replica: &Replica,
    names: &Names,
    labels: &[u64],
    ident: &Ident,
    label: u64,
) -> Result<bool, AllocError>
    requires sorted { IsNonDecreasing labels.now }
    ensures kept { IfOk result (λ b. b ≡ is_kept (idents_over replica.now) labels.now (reverse names.now) (ident.now, label)) }
{
    if !is_needed(labels, label) {
        return Ok(false);
    }
    Ok(is_newest(names, ident, label)? || replica.find(ident).is_ok())
}

// Whether the labels of all names of a run are among these, which are in increasing order. It costs a search.
fn are_needed(labels: &[u64], run: &NameRun) -> bool
    requires rising { IsRising labels.now }
    ensures needed { IsTrue result → (n : List Tuple × ℕ) → IsIn n (names_of run.now) → is_needed labels.now n.1 ≡ true }
{
    let (low, high) = run.labels();
    match labels.binary_search(&low) {
        Err(_) => false,
        Ok(at) => {
            let more = high - low;
            more < (labels.len() - at) as u64 && labels[at + more as usize] == high
        }
    }
}

// Whether one of these labels, which are in increasing order, is between those of names. It costs a search.
fn any_needed(labels: &[u64], ahead: LabelsAhead) -> bool
    requires rising { IsRising labels.now }
    ensures none { IsFalse result → (l : ℕ) → ahead.low ≤ l → l ≤ ahead.high → is_needed labels.now l ≡ false }
{
    match labels.binary_search(&ahead.low) {
        Ok(_) => true,
        Err(at) => {
            if at == labels.len() {
                return false;
            }
            if labels[at] > ahead.high {
                return false;
            }
            true
        }
    }
}

// Whether a label is one of these, which are in increasing order.
fn is_needed(labels: &[u64], label: u64) -> bool
    requires sorted { IsNonDecreasing labels.now }
    ensures needed { result ≡ is_needed labels.now label }
{
    labels.binary_search(&label).is_ok()
}

// Whether a name is the newest one of its label.
fn is_newest(names: &Names, ident: &Ident, label: u64) -> Result<bool, AllocError>
    ensures newest { IfOk result (λ b. b ≡ is_newest (reverse names.now) (ident.now, label)) }
{
    let newest = newest_ident(names, label)?;
    match newest {
        None => Ok(false),
        Some(own) => Ok(own.compare(ident).is_eq()),
    }
}
