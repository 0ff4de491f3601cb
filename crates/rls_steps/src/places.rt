//! Names at their places, looked up in the runs of names.

ghost use Rattle.std.specs.Prelude.{◌≡◌, ◌<◌, ◌≤◌, ◌+◌, ℕ, List, length, slice_get, slice_index, Some, IfOk, IfSome};
ghost use Rattle.rls_ident.specs.declared.tuple.Tuple.{Tuple};
ghost use Rattle.rls_steps.specs.NameRuns.{AreSound, named, starts_of};
ghost use Rattle.rls_steps.specs.Bounds.{AreBounded, IsLatest};

use crate::bound::Bounds;
use crate::name_run::NameRun;
use rls_ident::Ident;
use std::alloc::AllocError;

/// So many names that follow one another, with labels from one to another.
#[derive(Clone, Copy)]
pub(crate) struct LabelsAhead {
    pub(crate) low: u64,
    pub(crate) high: u64,
    pub(crate) count: usize,
}

/// The name at a place.
pub(crate) fn name_in(
    runs: &Vec<NameRun>,
    starts: &[usize],
    i: usize,
) -> Result<(Ident, u64), AllocError>
    requires starts { starts.now ≡ starts_of 0 runs.now.items }
    requires place { i < length (named runs.now.items) }
    ensures name { IfOk result (λ n. slice_get (named runs.now.items) i ≡ Some n) }
{
    let k = run_at(starts, i);
    let place = i - starts[k];
    let run = &runs[k];
    Ok((run.ident(place)?, run.label(place)))
}

/// How many names there are of the run at a place from there on, and between which labels theirs are.
pub(crate) fn rest_at(runs: &[NameRun], starts: &[usize], i: usize) -> LabelsAhead
    requires starts { starts.now ≡ starts_of 0 runs.now }
    requires place { i < length (named runs.now) }
    ensures some { 0 < result.count }
    ensures within { i + result.count ≤ length (named runs.now) }
    ensures labels { (j : ℕ) (n : List Tuple × ℕ) → j < result.count → slice_get (named runs.now) (i + j) ≡ Some n → (result.low ≤ n.1) × (n.1 ≤ result.high) }
{
    let k = run_at(starts, i);
    let run = &runs[k];
    let (low, high) = run.labels();
    LabelsAhead {
        low,
        high,
        count: run.len() - (i - starts[k]),
    }
}

/// The names of a run, if it begins at this place and each of them is the newest of its label.
pub(crate) fn latest_at(
    runs: &[NameRun],
    starts: &[usize],
    bounds: &Bounds,
    i: usize,
) -> Result<Option<NameRun>, AllocError>
    requires sound { AreSound runs.now }
    requires starts { starts.now ≡ starts_of 0 runs.now }
    requires bounded { AreBounded runs.now bounds.now }
    requires place { i < length (named runs.now) }
    ensures run { IfOk result (λ o. IfSome o (λ r. IsLatest (named runs.now) i r)) }
{
    let k = run_at(starts, i);
    if starts[k] != i {
        return Ok(None);
    }
    let run = &runs[k];
    let (low, high) = run.labels();
    let span = bounds.span_at(low);
    if span.count <= k + 1 && high <= span.high {
        let copy = run.copy()?;
        return Ok(Some(copy));
    }
    Ok(None)
}

/// The last of these increasing numbers that is at most i, as the first is.
pub(crate) fn run_at(starts: &[usize], i: usize) -> usize
    requires some { 0 < length starts.now }
    requires first { slice_index starts.now 0 ≤ i }
    ensures within { result < length starts.now }
    ensures below { slice_index starts.now result ≤ i }
    ensures above { result + 1 < length starts.now → i < slice_index starts.now (result + 1) }
{
    let (mut low, mut high) = (0, starts.len());
    while low + 1 < high {
        let middle = low + (high - low) / 2;
        if starts[middle] <= i {
            low = middle;
        } else {
            high = middle;
        }
    }
    low
}
