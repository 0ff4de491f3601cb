//! Lists of identifiers that have gone some of the steps of a way. A long one, of which a step changes the first tuples alone, goes on by
//! itself. The others go together, so that runs that come to touch are joined.

ghost use Rattle.std.specs.Prelude.{◌≡◌, ◌+◌, ◌-◌, ◌*◌, ◌<◌, ◌≤◌, ◌^◌, ◌++◌, suc, length, map, drop, IfOk, OnOk};
ghost use Rattle.rls_runs.specs.Runs.{AreIdents, idents_of};
ghost use Rattle.rls_epoch.specs.Parts.{ends, work, AreUnderWay};
ghost use Rattle.rls_epoch.specs.Ways.{AreWithin, place_of_step, led};

use crate::heads::most_copied;
use crate::nodes::Nodes;
use crate::ways::Step;
use rls_ident::rely;
use rls_runs::{Run, Runs};
use std::alloc::AllocError;

// Identifiers, and how many steps they have gone.
#[derive(Drop)]
pub(crate) struct Part {
    pub(crate) ids: Runs,
    pub(crate) done: usize,
}

impl Nodes {
    // Puts runs that have gone some steps, and now go at least one more, after other parts, the last runs first.
    pub(crate) fn push_parts(
        &self,
        steps: &[Step],
        done: usize,
        runs: &[Run],
        parts: &mut Vec<Part>,
    ) -> Result<(), AllocError>
        requires within { AreWithin (length self.now.placed) steps.now }
        requires some { done < length steps.now }
        requires idents { AreIdents (idents_of runs.now) }
        requires total { length (idents_of runs.now) < 2 ^ 64 }
        requires under_way { AreUnderWay (length steps.now) parts.old.items }
        ensures ends { OnOk result (ends self.now.placed steps.now parts.new.items ≡ map (led self.now.placed (drop done steps.now)) (idents_of runs.now) ++ ends self.now.placed steps.now parts.old.items) }
        ensures under_way { OnOk result (AreUnderWay (length steps.now) parts.new.items) }
        ensures less { OnOk result (work (length steps.now) parts.new.items + length (idents_of runs.now) ≤ work (length steps.now) parts.old.items + length (idents_of runs.now) * suc (length steps.now - done)) }
    {
        let (_, left) = steps.split_at(done);
        let mut rest = runs;
        while rest.len() > 0 {
            let (start, ids, count) = self.last_part(left, rest)?;
            parts.push(Part {
                ids,
                done: done + count,
            })?;
            let (before, _) = rest.split_at(start);
            rest = before;
        }
        Ok(())
    }

    // The last of these runs a few steps on, and how many steps. The runs from a place on are those that go: a long one alone, or others
    // together.
    fn last_part(&self, steps: &[Step], runs: &[Run]) -> Result<(usize, Runs, usize), AllocError>
        requires within { AreWithin (length self.now.placed) steps.now }
        requires some { 0 < length steps.now }
        requires runs { 0 < length runs.now }
        requires idents { AreIdents (idents_of runs.now) }
        requires total { length (idents_of runs.now) < 2 ^ 64 }
        ensures fewer { IfOk result (λ r. r.0 < length runs.now) }
        ensures idents { IfOk result (λ r. 0 < length r.1) }
        ensures some { IfOk result (λ r. 0 < r.2) }
        ensures within { IfOk result (λ r. r.2 ≤ length steps.now) }
        ensures led { IfOk result (λ r. map (led self.now.placed (drop r.2 steps.now)) r.1 ≡ map (led self.now.placed steps.now) (idents_of (drop r.0 runs.now))) }
    {
        let end = runs.len() - 1;
        rely!(let _len = runs[end].len());
        if let Some((ids, count)) = self.run_ahead(steps, &runs[end], most_copied(runs.len()))? {
            return Ok((end, ids, count));
        }
        let start = self.group_start(steps[0], runs)?;
        let (_, group) = runs.split_at(start);
        let ids = self.runs_moved(steps[0], group)?;
        Ok((start, ids, 1))
    }

    // The first of the last runs that go together.
    fn group_start(&self, step: Step, runs: &[Run]) -> Result<usize, AllocError>
        requires within { place_of_step step < length self.now.placed }
        requires some { 0 < length runs.now }
        ensures fewer { IfOk result (λ start. start < length runs.now) }
    {
        let mut start = runs.len() - 1;
        while start > 0 && !self.is_decided(step, &runs[start - 1])? {
            start -= 1;
        }
        Ok(start)
    }
}
