//! Between which identifiers the names lie that labels had before.

ghost use Rattle.std.specs.Prelude.{◌≡◌, ◌<◌, ◌≤◌, ◌++◌, ◌∷◌, [], ℕ, List, length, false, IfOk, IfSome, OnOk};
ghost use Rattle.rls_ident.specs.declared.tuple.Tuple.{Tuple};
ghost use Rattle.rls_ident.specs.Identifiers.{ident_lt};
ghost use Rattle.rls_ident.specs.Lists.{IsIn};
ghost use Rattle.rls_steps.specs.NameRuns.{AreSound, IsStretch, Stretch, name_at, names_of};
ghost use Rattle.rls_steps.specs.Bounds.{AreBounded, HasBetween};
ghost use Rattle.rls_steps.specs.Intervals.{AreBetween, AreNoted, IsBetween, LiesIn};

use crate::bound::Bounds;
use crate::name_run::NameRun;
use rls_ident::{Ident, rely};
use std::alloc::AllocError;

/// Two identifiers, between which others lie.
#[derive(Drop)]
pub(crate) struct Interval {
    pub(crate) low: Ident,
    pub(crate) high: Ident,
}

impl Interval {
    // The same again.
    pub(crate) fn copy(&self) -> Result<Interval, AllocError>
        ensures copy { IfOk result (λ v. v ≡ self.now) }
    {
        Ok(Interval {
            low: self.low.copy()?,
            high: self.high.copy()?,
        })
    }
}

/// For each run of names: between which identifiers the names lie that its labels had before, where that is known.
pub(crate) type Intervals = Vec<Option<Box<Interval>>>;

/// The interval in which all names lie that the labels from one to another have in the first runs, so many. It is known where the last of
/// these runs has each of the labels, and knows it of the runs before.
pub(crate) fn interval_in(
    runs: &[NameRun],
    bounds: &Bounds,
    intervals: &Intervals,
    count: usize,
    low: u64,
    high: u64,
) -> Result<Option<Box<Interval>>, AllocError>
    requires sound { AreSound runs.now }
    requires bounded { AreBounded runs.now bounds.now }
    requires noted { AreNoted runs.now intervals.now.items }
    ensures between { IfOk result (λ o. AreBetween runs.now count low high o) }
{
    if count == 0 || runs.len() < count {
        return Ok(None);
    }
    let last = count - 1;
    let Some(own) = interval_of(&runs[last], low, high)? else {
        return Ok(None);
    };
    let first = bounds.count_before(last) == 0;
    match joined(own, first, &intervals[last])? {
        None => Ok(None),
        Some(all) => {
            let boxed = Box::new(*intervals.allocator(), all)?;
            Ok(Some(boxed))
        }
    }
}

// The interval of the names that labels from one to another have in a run, if it has these two, and so each between them.
fn interval_of(run: &NameRun, low: u64, high: u64) -> Result<Option<Interval>, AllocError>
    requires sound { IsStretch run.now.first run.now.label run.now.down run.now.len }
    ensures low { IfOk result (λ o. IfSome o (λ _. (k : ℕ) × (k < run.now.len) × ((name_at run.now k).1 ≡ low))) }
    ensures high { IfOk result (λ o. IfSome o (λ _. (k : ℕ) × (k < run.now.len) × ((name_at run.now k).1 ≡ high))) }
    ensures between { IfOk result (λ o. IfSome o (λ v. (n : List Tuple × ℕ) → IsIn n (names_of run.now) → low ≤ n.1 → n.1 ≤ high → IsBetween v n.0)) }
{
    let Some(from) = run.find_label(low) else {
        return Ok(None);
    };
    let Some(to) = run.find_label(high) else {
        return Ok(None);
    };
    let low = run.ident(from)?;
    rely!(let _low = low.last());
    let high = run.ident(to)?;
    Ok(Some(Interval { low, high }))
}

// An interval that has what another one has, too, if that is known. If there is nothing before, it is the same.
fn joined(
    own: Interval,
    first: bool,
    before: &Option<Box<Interval>>,
) -> Result<Option<Interval>, AllocError>
    ensures own { IfOk result (λ o. IfSome o (λ v. (x : List Tuple) → IsBetween own x → IsBetween v x)) }
    ensures before { IfOk result (λ o. IfSome o (λ v. first ≡ false → (x : List Tuple) → LiesIn before.now x → IsBetween v x)) }
{
    if first {
        return Ok(Some(own));
    }
    let Some(before) = before else {
        return Ok(None);
    };
    let low = lower(own.low, &before.low)?;
    let high = higher(own.high, &before.high)?;
    Ok(Some(Interval { low, high }))
}

// The lower one of two identifiers.
fn lower(own: Ident, other: &Ident) -> Result<Ident, AllocError>
    ensures own { IfOk result (λ y. ident_lt own y ≡ false) }
    ensures other { IfOk result (λ y. ident_lt other.now y ≡ false) }
{
    if other.compare(&own).is_lt() {
        let copy = other.copy()?;
        return Ok(copy);
    }
    Ok(own)
}

// The higher one of two identifiers.
fn higher(own: Ident, other: &Ident) -> Result<Ident, AllocError>
    ensures own { IfOk result (λ y. ident_lt y own ≡ false) }
    ensures other { IfOk result (λ y. ident_lt y other.now ≡ false) }
{
    if own.compare(other).is_lt() {
        let copy = other.copy()?;
        return Ok(copy);
    }
    Ok(own)
}

/// Notes an interval for the run after the first ones, so many. After an error those of these are there.
pub(crate) fn push_interval(
    intervals: &mut Intervals,
    runs: usize,
    interval: Option<Box<Interval>>,
) -> Result<(), AllocError>
    ensures kept { (rs : List Stretch) → length rs ≡ runs → AreNoted rs intervals.old.items → AreNoted rs intervals.new.items }
    ensures put { OnOk result ((rs : List Stretch) (r : Stretch) (low high : ℕ) → length rs ≡ runs → AreNoted rs intervals.old.items → HasBetween r low high → AreBetween rs runs low high interval → AreNoted (rs ++ r ∷ []) intervals.new.items) }
{
    intervals.truncate(runs);
    intervals.push(interval)?;
    Ok(())
}
