//! Runs and lists of identifiers over the steps of a way, whole runs at a time.

ghost use Rattle.std.specs.Prelude.{◌≡◌, ◌+◌, ◌<◌, ◌^◌, [], ◌∷◌, ◌++◌, map, length, IfOk, OnOk, IsTrue};
ghost use Rattle.rls_rename.specs.Renaming.{forward};
ghost use Rattle.rls_runs.specs.Runs.{run_idents, runs_of, idents_of, is_increasing, AreIdents, IsImage};
ghost use Rattle.rls_epoch.specs.Ways.{AreWithin, place_of_step, step_map, led};

use crate::nodes::Nodes;
use crate::parts::Part;
use crate::ways::Step;
use rls_ident::rely;
use rls_rename::Renaming;
use rls_runs::{Run, RunList, Runs};
use std::alloc::{AllocError, Global};

impl Nodes {
    // A run at the end of the way.
    pub(crate) fn run_led(&self, steps: &[Step], run: &Run) -> Result<RunList, AllocError>
        requires within { AreWithin (length self.now.placed) steps.now }
        ensures led { IfOk result (λ runs. IsImage (led self.now.placed steps.now) run.now runs) }
    {
        rely!(let _len = run.len());
        match steps {
            [] => listed(self.allocator(), run),
            [step] => self.run_moved(*step, run),
            _ => maximal(
                self.allocator(),
                &self.runs_led(steps, &Runs::from_run(self.allocator(), run.copy()?)?)?,
            ),
        }
    }

    // A run at the end of the way, and then by a renaming.
    pub(crate) fn run_led_by(
        &self,
        steps: &[Step],
        renaming: &Renaming,
        run: &Run,
    ) -> Result<RunList, AllocError>
        requires within { AreWithin (length self.now.placed) steps.now }
        ensures led { IfOk result (λ runs. IsImage (λ x. forward renaming.now (led self.now.placed steps.now x)) run.now runs) }
    {
        if steps.is_empty() {
            return renaming.forward_run(run);
        }
        let ids = self.runs_led(steps, &Runs::from_run(self.allocator(), run.copy()?)?)?;
        maximal(
            self.allocator(),
            &runs_renamed(self.allocator(), renaming, &ids)?,
        )
    }

    // A strictly increasing list at the end of the way.
    pub(crate) fn runs_led(&self, steps: &[Step], ids: &Runs) -> Result<Runs, AllocError>
        requires within { AreWithin (length self.now.placed) steps.now }
        ensures led { IfOk result (λ xs. xs ≡ map (led self.now.placed steps.now) ids.now) }
    {
        if steps.is_empty() {
            return ids.copy();
        }
        rely!(let (_count, _total) = (self.count(), ids.total()));
        let mut parts = Vec::new(self.allocator());
        self.push_parts(steps, 0, ids.as_slice(), &mut parts)?;
        let mut at_end = Runs::new(self.allocator());
        while let Some(Part { ids, done }) = parts.pop() {
            rely!(let _total = ids.total());
            if done < steps.len() {
                self.push_parts(steps, done, ids.as_slice(), &mut parts)?;
            } else {
                at_end = with_all(at_end, ids)?;
            }
        }
        Ok(at_end)
    }

    // Runs one step on.
    pub(crate) fn runs_moved(&self, step: Step, runs: &[Run]) -> Result<Runs, AllocError>
        requires within { place_of_step step < length self.now.placed }
        requires idents { AreIdents (idents_of runs.now) }
        requires total { length (idents_of runs.now) < 2 ^ 64 }
        ensures moved { IfOk result (λ xs. xs ≡ map (step_map self.now.placed step) (idents_of runs.now)) }
    {
        rely!(let _count = self.count());
        let mut moved = Runs::new(self.allocator());
        for run in runs {
            append_all(&mut moved, self.run_moved(step, run)?.as_slice())?;
        }
        Ok(moved)
    }

    // A run one step on.
    #[tactic(auto, using(crate::proofs::Moving::back_image, crate::proofs::Moving::forward_image))]
    pub(crate) fn run_moved(&self, step: Step, run: &Run) -> Result<RunList, AllocError>
        requires within { place_of_step step < length self.now.placed }
        ensures moved { IfOk result (λ runs. IsImage (step_map self.now.placed step) run.now runs) }
    {
        match step {
            Step::Back { place } => self.at(place).renaming.back_run(run),
            Step::Forward { place } => self.at(place).renaming.forward_run(run),
        }
    }
}

// The renaming of each identifier of a strictly increasing list.
fn runs_renamed(alloc: Global, renaming: &Renaming, ids: &Runs) -> Result<Runs, AllocError>
    ensures renamed { IfOk result (λ xs. xs ≡ map (forward renaming.now) ids.now) }
{
    rely!(let (_total, _some) = (ids.total(), renaming.total()));
    let mut renamed = Runs::new(alloc);
    for run in ids.as_slice() {
        append_all(&mut renamed, renaming.forward_run(run)?.as_slice())?;
    }
    Ok(renamed)
}

// These identifiers and those above them.
fn with_all(ids: Runs, more: Runs) -> Result<Runs, AllocError>
    requires above { IsTrue (is_increasing (ids ++ more)) }
    requires total { length ids + length more < 2 ^ 64 }
    ensures all { IfOk result (λ all. all ≡ ids ++ more) }
{
    if ids.run_count() == 0 {
        return Ok(more);
    }
    let mut all = ids;
    append_all(&mut all, more.as_slice())?;
    Ok(all)
}

// Puts runs above the last identifier after it, and joins those that touch.
fn append_all(ids: &mut Runs, more: &[Run]) -> Result<(), AllocError>
    requires above { IsTrue (is_increasing (ids.old ++ idents_of more.now)) }
    requires total { length ids.old + length (idents_of more.now) < 2 ^ 64 }
    ensures ok { OnOk result (ids.new ≡ ids.old ++ idents_of more.now) }
{
    for run in more {
        rely!(let _len = run.len());
        ids.append(run.copy()?)?;
    }
    Ok(())
}

// The run alone, in a list of runs.
fn listed(alloc: Global, run: &Run) -> Result<RunList, AllocError>
    ensures listed { IfOk result (λ runs. runs ≡ run.now ∷ []) }
{
    let mut list = RunList::new(alloc);
    list.push(run.copy()?)?;
    Ok(list)
}

// The maximal runs.
fn maximal(alloc: Global, ids: &Runs) -> Result<RunList, AllocError>
    ensures maximal { IfOk result (λ runs. runs ≡ runs_of ids.now) }
    ensures increasing { IsTrue (is_increasing ids.now) }
{
    rely!(let _total = ids.total());
    let mut list = RunList::new(alloc);
    for run in ids.as_slice() {
        list.push(run.copy()?)?;
    }
    Ok(list)
}
