//! Labels of a replica's characters.

ghost use Rattle.std.specs.Prelude.{◌≡◌, ◌≤◌, ◌<◌, ◌+◌, ◌-◌, ◌^◌, ◌++◌, ℕ, List, length, take, drop, reverse, map, min, slice_get, Some, None, IfOk, OnOk};
ghost use Rattle.rls_ident.specs.declared.tuple.Tuple.{Tuple};
ghost use Rattle.rls_runs.specs.Runs.{run_idents};
ghost use Rattle.rls_seen.specs.Over.{placed_over};
ghost use Rattle.rls_seen.specs.Seen.{Seen, idents_over};
ghost use Rattle.rls_steps.specs.declared.piece.Piece.TheVariants.{Cut};
ghost use Rattle.rls_steps.specs.Marks.{numbers_from};
ghost use Rattle.rls_steps.specs.Labelled.{Labelled, label_of, label_all, ready_over, cut_piece};
ghost use Rattle.rls_steps.specs.NameRuns.{AreLabels};
ghost use Rattle.rls_steps.specs.Tables.{left_in};
ghost use Rattle.rls_steps.specs.Recorded.{held_by};

use crate::key::Key;
use crate::name_run::NameRun;
use crate::names::Names;
use crate::piece::{Labels, Piece};
use rls_doc::Document;
use rls_ident::{EpochName, rely};
use rls_replica::Replica;
use rls_runs::{Run, Runs, Text};
use std::alloc::{AllocError, Global};

/// Gives a label to each character from a place on that has none, and answers the labels of all of them. It costs a step for each level of
/// the text and each of its runs there, a few searches among the names for each run of names that they have or get, and a label each.
pub(crate) fn give(
    replica: &Replica,
    names: &mut Names,
    next: &mut u64,
    from: u64,
    count: u64,
) -> Result<Vec<u64>, AllocError>
    requires places { from + count ≤ length replica.now.text }
    ensures ok { OnOk result (held_by replica.now next.new names.new ≡ label_all (held_by replica.now next.old names.old) (take count (drop from (idents_over replica.now)))) }
    ensures labels { IfOk result (λ ls. map Some ls.items ≡ map (label_of (reverse names.new)) (take count (drop from (idents_over replica.now)))) }
    ensures front { take (length names.old) names.new ≡ names.old }
{
    let ids = replica.tree().runs_of(from, count)?;
    let labels = give_all(&ids, names, next)?;
    Ok(labels)
}

// Gives a label to each of these identifiers that has none, and answers the labels of all of them.
fn give_all(ids: &Runs, names: &mut Names, next: &mut u64) -> Result<Vec<u64>, AllocError>
    ensures given { OnOk result ((s : Seen) → held_by s next.new names.new ≡ label_all (held_by s next.old names.old) ids.now) }
    ensures labels { IfOk result (λ ls. (s : Seen) → map Some ls.items ≡ map (label_of (reverse names.new)) ids.now) }
    ensures front { take (length names.old) names.new ≡ names.old }
{
    let total = ids.total();
    let mut labels = Vec::with_capacity(names.alloc(), total as usize)?;
    let mut i = 0;
    'labels: while i < total {
        i = give_next(ids, names, next, &mut labels, i)?;
    }
    Ok(labels)
}

// Gives labels to the next identifiers, from a place on, and puts them after the others. Answers the place behind them.
fn give_next(
    ids: &Runs,
    names: &mut Names,
    next: &mut u64,
    labels: &mut Vec<u64>,
    i: u64,
) -> Result<u64, AllocError>
    requires place { i < length ids.now }
    ensures later { IfOk result (λ end. i < end) }
    ensures within { IfOk result (λ end. end ≤ length ids.now) }
    ensures given { IfOk result (λ end. (s : Seen) (h : Labelled) → held_by s next.old names.old ≡ label_all h (take i ids.now) → held_by s next.new names.new ≡ label_all h (take end ids.now)) }
    ensures labels { IfOk result (λ end. (s : Seen) → map Some labels.old.items ≡ map (label_of (reverse names.old)) (take i ids.now) → map Some labels.new.items ≡ map (label_of (reverse names.new)) (take end ids.now)) }
    ensures front { take (length names.old) names.new ≡ names.old }
{
    rely!(let _total = ids.total());
    let (run, at) = ids.locate(i);
    let rest = run.part(at, run.len() - at)?;
    let (first, count) = label_first(&rest, names, next)?;
    push_rising(labels, first, count)?;
    Ok(i + count as u64)
}

// Gives labels to the first identifiers of a run: to those that follow one another in a run of names, or to those that have none.
// Answers the first label, and how many rise from there.
fn label_first(run: &Run, names: &mut Names, next: &mut u64) -> Result<(u64, u32), AllocError>
    ensures some { IfOk result (λ p. 0 < p.1) }
    ensures most { IfOk result (λ p. p.1 ≤ run.now.1) }
    ensures room { IfOk result (λ p. p.0 + p.1 ≤ 2 ^ 64) }
    ensures given { IfOk result (λ p. (s : Seen) → held_by s next.new names.new ≡ label_all (held_by s next.old names.old) (run_idents run.now.0 p.1)) }
    ensures labels { IfOk result (λ p. AreLabels (reverse names.new) run.now.0 (Some p)) }
    ensures front { take (length names.old) names.new ≡ names.old }
{
    rely!(let _len = run.len());
    let key = Key {
        ident: run.first().copy()?,
    };
    match names.labels_from(&key, run.len()) {
        Some(labels) => Ok(labels),
        None => name_first(run, key, names, next),
    }
}

// The same of a run of which the first identifier has no label.
fn name_first(
    run: &Run,
    key: Key,
    names: &mut Names,
    next: &mut u64,
) -> Result<(u64, u32), AllocError>
    requires key { key.ident ≡ run.now.0 }
    requires none { label_of (reverse names.old) run.now.0 ≡ None }
    ensures some { IfOk result (λ p. 0 < p.1) }
    ensures most { IfOk result (λ p. p.1 ≤ run.now.1) }
    ensures room { IfOk result (λ p. p.0 + p.1 ≤ 2 ^ 64) }
    ensures given { IfOk result (λ p. (s : Seen) → held_by s next.new names.new ≡ label_all (held_by s next.old names.old) (run_idents run.now.0 p.1)) }
    ensures labels { IfOk result (λ p. AreLabels (reverse names.new) run.now.0 (Some p)) }
    ensures front { take (length names.old) names.new ≡ names.old }
{
    rely!(let _len = run.len());
    let count = names.free_from(&key, run.len())?;
    let label = *next;
    let Some(more) = label.checked_add(count as u64) else {
        return Err(AllocError);
    };
    names.push_run(NameRun::new(key.ident, label, false, count))?;
    rely!(names.apart());
    *next = more;
    Ok((label, count))
}

/// So many more numbers, which rise from this one on.
pub(crate) fn push_rising(numbers: &mut Vec<u64>, first: u64, count: u32) -> Result<(), AllocError>
    requires room { first + count ≤ 2 ^ 64 }
    ensures numbers { OnOk result (numbers.new.items ≡ numbers.old.items ++ numbers_from first count) }
{
    'numbers: for i in 0..count {
        numbers.push(first + i as u64)?;
    }
    Ok(())
}

/// Gives labels to the characters of a range and to its neighbours, and answers the piece that its deletion leaves.
pub(crate) fn ready(
    replica: &Replica,
    names: &mut Names,
    next: &mut u64,
    at: u64,
    count: u64,
) -> Result<Piece, AllocError>
    requires places { at + count ≤ length replica.now.text }
    ensures ok { OnOk result (held_by replica.now next.new names.new ≡ ready_over (held_by replica.now next.old names.old) at count) }
    ensures piece { IfOk result (λ p. p ≡ cut_piece (held_by replica.now next.new names.new) at count) }
    ensures front { take (length names.old) names.new ≡ names.old }
{
    let total = replica.total();
    let from = before(at);
    let many = near(total - from, count);
    let labels = give(replica, names, next, from, many)?;
    let text = replica.text_of(at, count)?;
    match piece_of(&labels, from, at, count, text) {
        Err(_) => Err(AllocError),
        Ok(piece) => Ok(piece),
    }
}

// The place before, but for the front.
fn before(at: u64) -> u64
    ensures before { result ≡ at - 1 }
{
    if at == 0 {
        return 0;
    }
    at - 1
}

// Two more than the count, as far as there are so many.
fn near(rest: u64, count: u64) -> u64
    requires rest { count ≤ rest }
    ensures near { result ≡ min (count + 2) rest }
{
    if rest - count < 2 {
        return rest;
    }
    count + 2
}

// The piece of a range, where these are the labels of its characters and of its neighbours.
fn piece_of(
    labels: &Vec<u64>,
    from: u64,
    at: u64,
    count: u64,
    text: Text,
) -> Result<Piece, AllocError>
    requires from { from ≤ at }
    requires labels { (at - from) + count ≤ length labels.now.items }
    ensures piece { IfOk result (λ p. p ≡ Cut (take count (drop (at - from) labels.now.items)) text (left_in at labels.now.items) (slice_get labels.now.items ((at - from) + count))) }
{
    let skip = (at - from) as usize;
    let (_, behind) = labels.split_at(skip);
    let (own, _) = behind.split_at(count as usize);
    Ok(Piece::Cut {
        labels: Labels::from_vec(Vec::from_slice(*labels.allocator(), own)?),
        text,
        left: left(labels, at),
        right: labels.get(skip + count as usize).copied(),
    })
}

// The first label, but for the front of the text.
fn left(labels: &[u64], at: u64) -> Option<u64>
    ensures left { result ≡ left_in at labels.now }
{
    if at == 0 {
        return None;
    }
    labels.first().copied()
}

/// Identifiers of an epoch in the greatest one.
pub(crate) fn translated(
    replica: &Replica,
    epoch: EpochName,
    names: &Names,
) -> Result<Names, AllocError>
    ensures there { IfOk result (λ ns. ns ≡ map (λ n. (placed_over replica.now epoch n.0, n.1)) names.now) }
{
    let mut there = Names::new(names.alloc());
    'names: for i in 0..names.len() {
        let (ident, label) = names.name(i)?;
        let Ok(ident) = replica.ident_to_greatest(epoch, &ident) else {
            return Err(AllocError);
        };
        there.push(&ident, label)?;
    }
    Ok(there)
}
