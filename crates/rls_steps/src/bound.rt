//! Which runs may have names of a label.

ghost use Rattle.std.specs.Prelude.{◌≡◌, ◌<◌, ◌≤◌, ◌+◌, ◌^◌, ◌⊎◌, ◌++◌, ◌∷◌, [], ℕ, List, length, slice_get, Some, None, IfSome, OnOk, OnErr, IsTrue};
ghost use Rattle.rls_steps.specs.NameRuns.{Stretch};
ghost use Rattle.rls_steps.specs.Bounds.{AreBounded, AreCounted, HasLabel, HasBetween, HaveNone, IsBound, IsBoundAt, IsFloor, IsLastEntry, IsNextAt, IsPut, count_in};

use std::alloc::{AllocError, Global};
use std::collections::BTreeMap;
use std::ops::Bound;

/// How many of the first runs may have names of each label. A bound may be too high, so it stays right where names go.
#[derive(Drop)]
pub(crate) struct Bounds {
    // How many first runs may have the labels from each of these on, up to the next.
    pub(crate) counts: BTreeMap<u64, usize>,
    // No name has this label or a greater one.
    pub(crate) above: u64,
    // For each run: how many runs before it may have its labels.
    pub(crate) olders: Vec<usize>,
}

/// Labels that follow one another, from the least to the greatest, of which the same first runs may have names: so many.
#[derive(Clone, Copy)]
pub(crate) struct Span {
    pub(crate) low: u64,
    pub(crate) high: u64,
    pub(crate) count: usize,
}

impl Bounds {
    // Of no runs. It takes no memory.
    pub(crate) fn new(alloc: Global) -> Bounds
        ensures none { AreBounded [] result }
    {
        Bounds {
            counts: BTreeMap::new(alloc),
            above: 0,
            olders: Vec::new(alloc),
        }
    }

    // How many of the first runs, of so many, may have names of a label. It costs a search.
    pub(crate) fn count_at(&self, label: u64, runs: usize) -> usize
        ensures few { result ≤ runs }
        ensures none { (rs : List Stretch) → AreBounded rs self.now → HaveNone rs result runs label label }
    {
        if label >= self.above {
            return 0;
        }
        let (_, count) = low_at(&self.counts, label);
        count.min(runs)
    }

    // How many of the runs before a run may have its labels.
    pub(crate) fn count_before(&self, run: usize) -> usize
        requires run { run < length self.now.olders.items }
        ensures few { result ≤ run }
        ensures none { (rs : List Stretch) (l : ℕ) → AreBounded rs self.now → HasLabel rs run l → HaveNone rs result run l l }
    {
        self.olders[run].min(run)
    }

    // The labels around a label of which the same first runs may have names. It costs two searches.
    pub(crate) fn span_at(&self, label: u64) -> Span
        ensures low { result.low ≤ label }
        ensures high { label ≤ result.high }
        ensures none { (rs : List Stretch) → AreBounded rs self.now → HaveNone rs result.count (length rs) result.low result.high }
        ensures alone { (rs : List Stretch) → AreBounded rs self.now → (q : ℕ) → result.low < q → q ≤ result.high → count_in self.now.counts.entries q ≡ None }
    {
        if label >= self.above {
            return Span {
                low: self.above,
                high: u64::MAX,
                count: 0,
            };
        }
        let (low, count) = low_at(&self.counts, label);
        let high = match next_at(&self.counts, label) {
            None => self.above - 1,
            Some(next) => next - 1,
        };
        Span { low, high, count }
    }

    // Whether only the first runs up to the last one of so many may have a label, and no run has it or a greater one: so the last one may
    // get it, and nothing changes here but what is above all. It costs a look at the last entry.
    pub(crate) fn is_open(&self, label: u64, runs: usize) -> bool
        ensures above { IsTrue result → self.now.above ≤ label }
        ensures more { IsTrue result → label + 1 < 2 ^ 64 }
        ensures bound { IsTrue result → (k : ℕ) × (v : ℕ) × IsBound self.now.counts.entries label k v × (runs ≤ v) }
    {
        if label < self.above || label == u64::MAX {
            return false;
        }
        match last_bound(&self.counts) {
            None => false,
            Some((last, count)) => last <= label && runs <= count,
        }
    }

    // One more run after so many, with labels between these. After an error the bounds may be higher. It costs a few searches.
    pub(crate) fn put(
        &mut self,
        runs: usize,
        span: Span,
        low: u64,
        high: u64,
    ) -> Result<(), AllocError>
        requires order { low ≤ high }
        requires low { span.low ≤ low }
        requires high { high ≤ span.high }
        requires alone { (q : ℕ) → span.low < q → q ≤ span.high → count_in self.old.counts.entries q ≡ None }
        ensures kept { (rs : List Stretch) → length rs ≡ runs → AreBounded rs self.old → AreBounded rs self.new }
        ensures put { OnOk result ((rs : List Stretch) (r : Stretch) → length rs ≡ runs → AreBounded rs self.old → HaveNone rs span.count (length rs) span.low span.high → HasBetween r low high → AreBounded (rs ++ r ∷ []) self.new) }
    {
        let above = self.above;
        let Some(next) = high.checked_add(1) else {
            return Err(AllocError);
        };
        let Some(count) = runs.checked_add(1) else {
            return Err(AllocError);
        };
        self.olders.truncate(runs);
        self.olders.push(span.count)?;
        self.above = above.max(next);
        put_counts(&mut self.counts, above, low, next, count)?;
        Ok(())
    }
}

// Labels up to the next one get a bound, which is higher than theirs. After an error it may be that of some others too.
fn put_counts(
    counts: &mut BTreeMap<u64, usize>,
    above: u64,
    low: u64,
    next: u64,
    count: usize,
) -> Result<(), AllocError>
    requires order { low < next }
    requires alone { (q : ℕ) → low < q → q < next → count_in counts.old.entries q ≡ None }
    ensures kept { (rs : List Stretch) (a : ℕ) → AreCounted rs counts.old.entries above → length rs ≤ count → above ≤ a → next ≤ a → AreCounted rs counts.new.entries a }
    ensures put { OnOk result ((l : ℕ) → low ≤ l → l < next → IsBound counts.new.entries l low count) }
{
    split_at(counts, next, above)?;
    open_gap(counts, above, low)?;
    put_count(counts, low, count)?;
    Ok(())
}

// The labels from one on have an entry of their own, if it is below the one above all. No bound changes.
fn split_at(counts: &mut BTreeMap<u64, usize>, label: u64, above: u64) -> Result<(), AllocError>
    ensures kept { (rs : List Stretch) → AreCounted rs counts.old.entries above → AreCounted rs counts.new.entries above }
    ensures others { (q : ℕ) → q < label → count_in counts.new.entries q ≡ count_in counts.old.entries q }
{
    if above <= label {
        return Ok(());
    }
    let (_, count) = low_at(counts, label);
    put_count(counts, label, count)?;
    Ok(())
}

// The labels between the one above all and the least one that gets names have no run.
fn open_gap(counts: &mut BTreeMap<u64, usize>, above: u64, low: u64) -> Result<(), AllocError>
    ensures kept { (rs : List Stretch) (a : ℕ) → AreCounted rs counts.old.entries above → above ≤ a → low ≤ a → AreCounted rs counts.new.entries a }
    ensures others { (q : ℕ) → low ≤ q → count_in counts.new.entries q ≡ count_in counts.old.entries q }
{
    if low <= above {
        return Ok(());
    }
    put_count(counts, above, 0)?;
    Ok(())
}

// One more entry, or another one.
fn put_count(counts: &mut BTreeMap<u64, usize>, label: u64, count: usize) -> Result<(), AllocError>
    ensures put { OnOk result (IsPut counts.old.entries counts.new.entries label count) }
    ensures stay { OnErr result (counts.new.entries ≡ counts.old.entries) }
{
    counts.insert(label, count)?;
    Ok(())
}

// The least label from which on a label's bound is there, and that bound.
fn low_at(counts: &BTreeMap<u64, usize>, label: u64) -> (u64, usize)
    ensures low { result.0 ≤ label }
    ensures alone { (q : ℕ) → result.0 < q → q ≤ label → count_in counts.now.entries q ≡ None }
    ensures bound { IsBoundAt counts.now.entries label (Some result) ⊎ ((result ≡ (0, 0)) × IsBoundAt counts.now.entries label None) }
{
    match bound_at(counts, label) {
        None => (0, 0),
        Some(bound) => bound,
    }
}

// The entry at the greatest number up to a label.
fn bound_at(counts: &BTreeMap<u64, usize>, label: u64) -> Option<(u64, usize)>
    ensures bound { IsBoundAt counts.now.entries label result }
{
    floor_of(counts, label)
}

// The same.
fn floor_of(counts: &BTreeMap<u64, usize>, label: u64) -> Option<(u64, usize)>
    ensures floor { IsFloor counts.now.entries label result }
{
    match counts
        .range((Bound::Unbounded, Bound::Included(&label)))
        .next_back()
    {
        None => None,
        Some((low, count)) => Some((*low, *count)),
    }
}

// The entry at the greatest number.
fn last_bound(counts: &BTreeMap<u64, usize>) -> Option<(u64, usize)>
    ensures last { IfSome result (λ e. IsLastEntry counts.now.entries e) }
{
    match counts.last_key_value() {
        None => None,
        Some((last, count)) => Some((*last, *count)),
    }
}

// The least number above a label.
fn next_at(counts: &BTreeMap<u64, usize>, label: u64) -> Option<u64>
    ensures next { IsNextAt counts.now.entries label result }
{
    match counts
        .range((Bound::Excluded(&label), Bound::Unbounded))
        .next()
    {
        None => None,
        Some((next, _)) => Some(*next),
    }
}
