//! Labels that follow one another, whose names are identifiers of one run.

ghost use Rattle.std.specs.Prelude.{◌≡◌, ◌<◌, ◌≤◌, ◌+◌, ℕ, List, length, slice_get, pos, Some, IfOk, IfSome};
ghost use Rattle.rls_ident.specs.declared.tuple.Tuple.{Tuple};
ghost use Rattle.rls_ident.specs.Identifiers.{shifted};
ghost use Rattle.rls_ident.specs.Lists.{IsIn};
ghost use Rattle.rls_steps.specs.NameRuns.{AreSound, IsStretch, Stretch, name_at, named, names_of};
ghost use Rattle.rls_steps.specs.Bounds.{AreBounded, HasLabel};
ghost use Rattle.rls_steps.specs.Intervals.{AreNoted};
ghost use Rattle.rls_steps.specs.Rows.{IsRow, LiesBefore};

use crate::bound::Bounds;
use crate::interval::{Interval, Intervals};
use crate::name_run::NameRun;
use rls_runs::Run;
use std::alloc::AllocError;

/// The newest names of labels that follow one another: identifiers of one run, in order.
#[derive(Drop)]
pub(crate) struct NameRow {
    pub(crate) run: Run,
    // Between which identifiers the other names of these labels lie, if they have others.
    pub(crate) before: Option<Interval>,
}

/// The newest names of a label and of the next ones, of at most so many, as far as they are seen at once. There is none where these are
/// fewer than two, or where it isn't known between which identifiers their other names lie. It costs a few searches.
pub(crate) fn row_from(
    runs: &[NameRun],
    bounds: &Bounds,
    intervals: &Intervals,
    label: u64,
    most: u32,
) -> Result<Option<NameRow>, AllocError>
    requires sound { AreSound runs.now }
    requires bounded { AreBounded runs.now bounds.now }
    requires noted { AreNoted runs.now intervals.now.items }
    requires some { 0 < most }
    ensures row { IfOk result (λ o. IfSome o (λ r. IsRow (named runs.now) label r)) }
    ensures most { IfOk result (λ o. IfSome o (λ r. r.run.1 ≤ most)) }
{
    let span = bounds.span_at(label);
    let count = span.count.min(runs.len());
    if count == 0 {
        return Ok(None);
    }
    let last = count - 1;
    match run_from(&runs[last], label, span.high, most)? {
        None => Ok(None),
        Some(run) => {
            let row = with_others(run, bounds, intervals, last)?;
            Ok(row)
        }
    }
}

// The identifiers in a run that have a label and the next ones, up to the greatest of these and of at most so many, if these are two or more.
fn run_from(run: &NameRun, label: u64, high: u64, most: u32) -> Result<Option<Run>, AllocError>
    requires sound { IsStretch run.now.first run.now.label run.now.down run.now.len }
    requires high { label ≤ high }
    requires some { 0 < most }
    ensures names { IfOk result (λ o. IfSome o (λ y. (k : ℕ) → k < y.1 → (j : ℕ) × (j < run.now.len) × (name_at run.now j ≡ (shifted (pos k) y.0, label + k)))) }
    ensures high { IfOk result (λ o. IfSome o (λ y. (k : ℕ) → k < y.1 → label + k ≤ high)) }
    ensures most { IfOk result (λ o. IfSome o (λ y. y.1 ≤ most)) }
{
    let Some(place) = run.find_label(label) else {
        return Ok(None);
    };
    let (_, greatest) = run.labels();
    let more = (greatest.min(high) - label).min((most - 1) as u64) as u32;
    if more == 0 {
        return Ok(None);
    }
    match Run::new(run.ident(place)?, more + 1) {
        Err(_) => Ok(None),
        Ok(run) => Ok(Some(run)),
    }
}

// With the interval of the other names that labels of a run of names have, if they have others. There is none if that isn't known.
fn with_others(
    run: Run,
    bounds: &Bounds,
    intervals: &Intervals,
    last: usize,
) -> Result<Option<NameRow>, AllocError>
    requires older { last < length bounds.now.olders.items }
    requires noted { last < length intervals.now.items }
    ensures run { IfOk result (λ o. IfSome o (λ r. r.run ≡ run)) }
    ensures before { IfOk result (λ o. IfSome o (λ r. (rs : List Stretch) (j : ℕ) (s : Stretch) (m : List Tuple × ℕ) → AreBounded rs bounds.now → AreNoted rs intervals.now.items → HasLabel rs last m.1 → j < last → slice_get rs j ≡ Some s → IsIn m (names_of s) → LiesBefore r.before m.0)) }
{
    if bounds.count_before(last) == 0 {
        return Ok(Some(NameRow { run, before: None }));
    }
    match &intervals[last] {
        None => Ok(None),
        Some(interval) => {
            let before = Some(interval.copy()?);
            Ok(Some(NameRow { run, before }))
        }
    }
}
