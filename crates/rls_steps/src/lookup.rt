//! Labels of identifiers, looked up among runs of names.

ghost use Rattle.std.specs.Prelude.{◌≡◌, ℕ, ◌<◌, ◌≤◌, ◌+◌, ◌^◌, length, reverse, None, IfOk, IfSome, IsTrue, pos};
ghost use Rattle.rls_ident.specs.Identifiers.{shifted};
ghost use Rattle.rls_steps.specs.Labelled.{label_of};
ghost use Rattle.rls_steps.specs.NameRuns.{IsBelow, IsAbove, AreLabels, AreLabelsIn, AreOutsideIn, AreSound, named, run_in, run_of};
ghost use Rattle.rls_steps.specs.Index.{AreApart};
ghost use Rattle.rls_steps.specs.declared.key.Key as keys;

use crate::key::Key;
use crate::name_run::NameRun;
use rls_ident::{Ident, rely};
use std::alloc::AllocError;
use std::collections::BTreeMap;
use std::ops::Bound;

/// The label of an identifier, if it has one.
pub(crate) fn label_at(runs: &[NameRun], firsts: &BTreeMap<Key, usize>, key: &Key) -> Option<u64>
    requires sound { AreSound runs.now }
    requires firsts { (k : keys.Key) → run_in firsts.now.entries k ≡ run_of (reverse runs.now) k.ident }
    requires apart { AreApart (reverse (named runs.now)) }
    ensures label { result ≡ label_of (reverse (named runs.now)) key.now.ident }
{
    match labels_at(runs, firsts, key, 1) {
        None => None,
        Some((label, _)) => Some(label),
    }
}

/// The label of an identifier, if it has one, and how many there are of it and the next ones, of at most so many, with labels that rise. It
/// costs two searches among the runs, or nothing where it is in the newest one.
pub(crate) fn labels_at(
    runs: &[NameRun],
    firsts: &BTreeMap<Key, usize>,
    key: &Key,
    most: u32,
) -> Option<(u64, u32)>
    requires sound { AreSound runs.now }
    requires firsts { (k : keys.Key) → run_in firsts.now.entries k ≡ run_of (reverse runs.now) k.ident }
    requires apart { AreApart (reverse (named runs.now)) }
    requires some { 0 < most }
    ensures some { IfSome result (λ p. 0 < p.1) }
    ensures most { IfSome result (λ p. p.1 ≤ most) }
    ensures room { IfSome result (λ p. p.0 + p.1 ≤ 2 ^ 64) }
    ensures labels { AreLabels (reverse (named runs.now)) key.now.ident result }
{
    rely!(let _last = key.ident.last());
    if let Some(labels) = labels_in(runs, newest_run(runs), &key.ident, most) {
        return Some(labels);
    }
    match labels_in(runs, run_below(firsts, key), &key.ident, most) {
        Some(labels) => Some(labels),
        None => labels_in(runs, run_above(firsts, key), &key.ident, most),
    }
}

/// How many identifiers of so many, from one on that has no name, have none.
pub(crate) fn free_at(
    runs: &[NameRun],
    firsts: &BTreeMap<Key, usize>,
    key: &Key,
    most: u32,
) -> Result<u32, AllocError>
    requires sound { AreSound runs.now }
    requires firsts { (k : keys.Key) → run_in firsts.now.entries k ≡ run_of (reverse runs.now) k.ident }
    requires apart { AreApart (reverse (named runs.now)) }
    requires none { label_of (reverse (named runs.now)) key.now.ident ≡ None }
    requires some { 0 < most }
    ensures some { IfOk result (λ n. 0 < n) }
    ensures most { IfOk result (λ n. n ≤ most) }
    ensures free { IfOk result (λ n. (k : ℕ) → k < n → label_of (reverse (named runs.now)) (shifted (pos k) key.now.ident) ≡ None) }
{
    rely!(let _last = key.ident.last());
    let count = outside_in(runs, run_above(firsts, key), &key.ident, most)?;
    Ok(count)
}

/// Whether none of so many identifiers, from one on, has a name.
pub(crate) fn is_free(
    runs: &[NameRun],
    firsts: &BTreeMap<Key, usize>,
    low: &Key,
    len: u32,
) -> Result<bool, AllocError>
    requires sound { AreSound runs.now }
    requires firsts { (k : keys.Key) → run_in firsts.now.entries k ≡ run_of (reverse runs.now) k.ident }
    requires apart { AreApart (reverse (named runs.now)) }
    requires some { 0 < len }
    ensures free { IfOk result (λ free. IsTrue free → (k : ℕ) → k < len → label_of (reverse (named runs.now)) (shifted (pos k) low.now.ident) ≡ None) }
{
    match label_at(runs, firsts, low) {
        Some(_) => Ok(false),
        None => {
            let count = free_at(runs, firsts, low, len)?;
            Ok(count == len)
        }
    }
}

// How many identifiers of so many, from one on that isn't in a run, come before the least one there.
fn outside_in(
    runs: &[NameRun],
    run: Option<usize>,
    low: &Ident,
    most: u32,
) -> Result<u32, AllocError>
    requires within { IfSome run (λ i. i < length runs.now) }
    requires some { 0 < most }
    ensures most { IfOk result (λ n. n ≤ most) }
    ensures some { IfOk result (λ n. AreLabelsIn runs.now run low.now None → 0 < n) }
    ensures outside { IfOk result (λ n. AreOutsideIn runs.now run low.now n) }
{
    match run {
        None => Ok(most),
        Some(i) => runs[i].outside_from(low, most),
    }
}

// The label that an identifier has in a run, if it is there, and how many there are of it and the next ones, of at most so many, with
// labels that rise.
fn labels_in(runs: &[NameRun], run: Option<usize>, ident: &Ident, most: u32) -> Option<(u64, u32)>
    requires within { IfSome run (λ i. i < length runs.now) }
    requires some { 0 < most }
    ensures some { IfSome result (λ p. 0 < p.1) }
    ensures most { IfSome result (λ p. p.1 ≤ most) }
    ensures room { IfSome result (λ p. p.0 + p.1 ≤ 2 ^ 64) }
    ensures labels { AreLabelsIn runs.now run ident.now result }
{
    match run {
        None => None,
        Some(i) => runs[i].labels_from(ident, most),
    }
}

// The newest run.
fn newest_run(runs: &[NameRun]) -> Option<usize>
    ensures within { IfSome result (λ i. i < length runs.now) }
{
    if runs.is_empty() {
        return None;
    }
    Some(runs.len() - 1)
}

// The run that begins with the greatest identifier up to this one.
fn run_below(firsts: &BTreeMap<Key, usize>, key: &Key) -> Option<usize>
    ensures below { IsBelow firsts.now.entries key.now result }
{
    match firsts
        .range((Bound::Unbounded, Bound::Included(key)))
        .next_back()
    {
        None => None,
        Some((_, run)) => Some(*run),
    }
}

// The run that begins with the least identifier from this one on.
fn run_above(firsts: &BTreeMap<Key, usize>, key: &Key) -> Option<usize>
    ensures above { IsAbove firsts.now.entries key.now result }
{
    match firsts
        .range((Bound::Included(key), Bound::Unbounded))
        .next()
    {
        None => None,
        Some((_, run)) => Some(*run),
    }
}
