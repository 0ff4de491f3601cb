//! Fronts of runs, forward and back: as much of a run as goes along as one.

ghost use Rattle.std.specs.Prelude.{◌≡◌, ◌<◌, ◌≤◌, length, IfOk, Ok, Err};
ghost use Rattle.rls_ident.specs.declared.limits.TheConstants.{IDENTIFIERS};
ghost use Rattle.rls_runs.specs.Runs.{place_of};
ghost use Rattle.rls_rename.specs.Stretches.{GoesAlong, StandsAt};
ghost use Rattle.rls_rename.specs.Renaming.{IsFormer, new_from, forward_by, back_by};

use crate::gap_maps::{
    old_above, old_above_inverse, old_below, old_below_inverse, old_between, old_between_inverse,
};
use crate::new_maps::{
    new_above, new_above_inverse, new_at, new_below, new_below_inverse, new_between,
    new_between_inverse,
};
use crate::pairing::Pairing;
use crate::stretch::Stretch;
use rls_ident::{Ident, Spot, rely};
use rls_runs::{Run, Runs};
use std::alloc::{AllocError, Global};

impl Pairing {
    // Forward of a front of a run.
    pub(crate) fn forward_front(&self, run: &Run) -> Result<Stretch, AllocError>
        ensures forward { IfOk result (λ z. GoesAlong (forward_by self.now.first self.now.former) run.now.0 run.now.1 z.first z.len) }
    {
        match self.former.find(run.first()) {
            Ok(i) => Ok(self.forward_former(i, run)),
            Err(gap) => self.forward_gap(gap, run),
        }
    }

    // Forward of a run that begins with the former identifier at this place, to the end of the former run.
    fn forward_former(&self, i: u64, run: &Run) -> Stretch
        requires place { place_of run.now.0 self.now.former ≡ Ok i }
        ensures forward { GoesAlong (forward_by self.now.first self.now.former) run.now.0 run.now.1 result.first result.len }
    {
        let (held, place) = self.former.locate(i);
        Stretch {
            first: new_at(self.alloc, self.first, i),
            len: run.len().min(held.len() - place),
        }
    }

    // Forward of a run that begins in the gap above so many former identifiers, to the end of the gap.
    fn forward_gap(&self, gap: u64, run: &Run) -> Result<Stretch, AllocError>
        requires gap { place_of run.now.0 self.now.former ≡ Err gap }
        requires within { gap ≤ length self.now.former }
        ensures forward { IfOk result (λ z. GoesAlong (forward_by self.now.first self.now.former) run.now.0 run.now.1 z.first z.len) }
    {
        let total = self.former.total();
        if gap == 0 {
            return self.forward_below(run);
        }
        if gap == total {
            return self.forward_above(gap, run);
        }
        self.forward_between(gap, run)
    }

    // The same, below all former identifiers.
    fn forward_below(&self, run: &Run) -> Result<Stretch, AllocError>
        requires gap { place_of run.now.0 self.now.former ≡ Err 0 }
        ensures forward { IfOk result (λ z. GoesAlong (forward_by self.now.first self.now.former) run.now.0 run.now.1 z.first z.len) }
    {
        let a = self.former.get(0)?;
        let x = Stretch::below(run, &a)?;
        new_below(self.first, old_below_inverse(self.alloc, &a, x)?)
    }

    // The same, above all former identifiers.
    fn forward_above(&self, gap: u64, run: &Run) -> Result<Stretch, AllocError>
        requires gap { place_of run.now.0 self.now.former ≡ Err gap }
        requires some { 0 < gap }
        requires end { gap ≡ length self.now.former }
        ensures forward { IfOk result (λ z. GoesAlong (forward_by self.now.first self.now.former) run.now.0 run.now.1 z.first z.len) }
    {
        let len = run.len();
        let a = self.former.get(gap - 1)?;
        let x = Stretch::front(run, len)?;
        new_above(self.first, gap - 1, old_above_inverse(self.alloc, &a, x)?)
    }

    // The same, between two former identifiers.
    fn forward_between(&self, gap: u64, run: &Run) -> Result<Stretch, AllocError>
        requires gap { place_of run.now.0 self.now.former ≡ Err gap }
        requires some { 0 < gap }
        requires within { gap < length self.now.former }
        ensures forward { IfOk result (λ z. GoesAlong (forward_by self.now.first self.now.former) run.now.0 run.now.1 z.first z.len) }
    {
        rely!(let _len = run.len());
        let a = self.former.get(gap - 1)?;
        let b = self.former.get(gap)?;
        let x = Stretch::below(run, &b)?;
        new_between(
            self.first,
            gap - 1,
            old_between_inverse(self.alloc, &a, b, x)?,
        )
    }

    // The place among the new identifiers, or where it isn't there the number of those less than it.
    #[tactic(auto, using(crate::proofs::GapImages::new_run))]
    fn new_place(&self, id: &Ident) -> Result<u64, u64>
        ensures place { result ≡ place_of id.now (new_from self.now.first 0 self.now.former) }
    {
        let Ok(run) = Run::new(
            new_at(self.alloc, self.first, 0),
            self.former.total() as u32,
        ) else {
            unreachable!()
        };
        match run.find(id) {
            Ok(place) => Ok(place as u64),
            Err(below) => Err(below as u64),
        }
    }

    // Back of a front of a run.
    pub(crate) fn back_front(&self, run: &Run) -> Result<Stretch, AllocError>
        ensures back { IfOk result (λ x. GoesAlong (back_by self.now.first self.now.former) run.now.0 run.now.1 x.first x.len) }
    {
        match self.new_place(run.first()) {
            Ok(i) => self.former_front(i, run.len()),
            Err(gap) => self.back_gap(gap, run),
        }
    }

    // The former identifiers from a place on to the end of their run, as many as this at most.
    fn former_front(&self, i: u64, most: u32) -> Result<Stretch, AllocError>
        requires place { i < length self.now.former }
        requires some { 0 < most }
        ensures idents { IfOk result (λ a. StandsAt self.now.former i most a.first a.len) }
    {
        let (held, place) = self.former.locate(i);
        Ok(Stretch {
            first: held.first().shifted(place)?,
            len: most.min(held.len() - place),
        })
    }

    // Back of a run that begins in the gap above so many new identifiers, to the end of the gap.
    fn back_gap(&self, gap: u64, run: &Run) -> Result<Stretch, AllocError>
        requires gap { place_of run.now.0 (new_from self.now.first 0 self.now.former) ≡ Err gap }
        requires within { gap ≤ length self.now.former }
        ensures back { IfOk result (λ x. GoesAlong (back_by self.now.first self.now.former) run.now.0 run.now.1 x.first x.len) }
    {
        let total = self.former.total();
        if gap == 0 {
            return self.back_below(run);
        }
        if gap == total {
            return self.back_above(gap, run);
        }
        self.back_between(gap, run)
    }

    // The same, below all new identifiers.
    fn back_below(&self, run: &Run) -> Result<Stretch, AllocError>
        requires gap { place_of run.now.0 (new_from self.now.first 0 self.now.former) ≡ Err 0 }
        ensures back { IfOk result (λ x. GoesAlong (back_by self.now.first self.now.former) run.now.0 run.now.1 x.first x.len) }
    {
        let a = self.former.get(0)?;
        let z = Stretch::below(run, &new_at(self.alloc, self.first, 0))?;
        old_below(self.alloc, &a, new_below_inverse(self.first, z)?)
    }

    // The same, above all new identifiers.
    fn back_above(&self, gap: u64, run: &Run) -> Result<Stretch, AllocError>
        requires gap { place_of run.now.0 (new_from self.now.first 0 self.now.former) ≡ Err gap }
        requires some { 0 < gap }
        requires end { gap ≡ length self.now.former }
        ensures back { IfOk result (λ x. GoesAlong (back_by self.now.first self.now.former) run.now.0 run.now.1 x.first x.len) }
    {
        let len = run.len();
        let a = self.former.get(gap - 1)?;
        let z = Stretch::front(run, len)?;
        old_above(self.alloc, &a, new_above_inverse(self.first, gap - 1, z)?)
    }

    // The same, between two new identifiers.
    fn back_between(&self, gap: u64, run: &Run) -> Result<Stretch, AllocError>
        requires gap { place_of run.now.0 (new_from self.now.first 0 self.now.former) ≡ Err gap }
        requires some { 0 < gap }
        requires within { gap < length self.now.former }
        ensures back { IfOk result (λ x. GoesAlong (back_by self.now.first self.now.former) run.now.0 run.now.1 x.first x.len) }
    {
        rely!(let _len = run.len());
        let a = self.former.get(gap - 1)?;
        let z = Stretch::below(run, &new_at(self.alloc, self.first, gap))?;
        let y = new_between_inverse(self.first, gap - 1, z)?;
        old_between(self.alloc, &a, self.former.get(gap)?, y)
    }
}
