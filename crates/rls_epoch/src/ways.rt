//! Ways from one epoch to another: up to the nearest common one, and down from there.
//! Why: docs/DECISIONS.md, 9.

ghost use Rattle.std.specs.Prelude.{◌≡◌, ◌<◌, ◌≤◌, length, IfOk, IsTrue};
ghost use Rattle.rls_rename.specs.Tree.{is_kept};
ghost use Rattle.rls_epoch.specs.Seen.{nodes_of};
ghost use Rattle.rls_epoch.specs.Ways.{Leads, IsWay, AreWithin, place_of_step, step_map, led};

use crate::nodes::Nodes;
use crate::tree::Tree;
use rls_ident::{EpochName, Ident, rely};
use std::alloc::AllocError;

// A step over the node at a place.
#[derive(Clone, Copy)]
pub(crate) enum Step {
    // Up to its parent.
    Back { place: usize },
    // Down to it.
    Forward { place: usize },
}

impl Tree {
    // The way between two epochs, by their names.
    pub(crate) fn way_between(
        &self,
        from: EpochName,
        to: EpochName,
    ) -> Result<Vec<Step>, AllocError>
        requires from { IsTrue (is_kept self.now.nodes.top (nodes_of self.now.nodes.placed) from) }
        requires to { IsTrue (is_kept self.now.nodes.top (nodes_of self.now.nodes.placed) to) }
        ensures way { IfOk result (λ steps. IsWay self.now.nodes.placed steps.items from to) }
    {
        rely!(let _count = self.nodes.count());
        let left = self.number_of(from);
        let right = self.number_of(to);
        self.nodes.way(left, right)
    }
}

impl Nodes {
    // The way between two epochs, by their numbers. It costs a step for each epoch on it.
    pub(crate) fn way(&self, from: usize, to: usize) -> Result<Vec<Step>, AllocError>
        requires from { from ≤ length self.now.placed }
        requires to { to ≤ length self.now.placed }
        ensures way { IfOk result (λ steps. Leads self.now.placed from steps.items to) }
    {
        rely!(let _count = self.count());
        let (mut up, mut down) = (Vec::new(self.allocator()), Vec::new(self.allocator()));
        let (mut left, mut right) = (from, to);
        while left != right {
            if right < left {
                up.push(Step::Back { place: left - 1 })?;
                left = self.at(left - 1).up;
            } else {
                down.push(Step::Forward { place: right - 1 })?;
                right = self.at(right - 1).up;
            }
        }
        down.reverse();
        up.extend_from_slice(&down)?;
        Ok(up)
    }

    // An identifier at the end of the way.
    pub(crate) fn ident_led(&self, steps: &[Step], id: &Ident) -> Result<Ident, AllocError>
        requires within { AreWithin (length self.now.placed) steps.now }
        ensures led { IfOk result (λ x. x ≡ led self.now.placed steps.now id.now) }
    {
        let Some((first, rest)) = steps.split_first() else {
            return id.copy();
        };
        let mut at = self.ident_moved(*first, id)?;
        for step in rest {
            at = self.ident_moved(*step, &at)?;
        }
        Ok(at)
    }

    // An identifier one step on.
    #[tactic(auto, using(crate::proofs::Steps::back_step, crate::proofs::Steps::forward_step))]
    pub(crate) fn ident_moved(&self, step: Step, id: &Ident) -> Result<Ident, AllocError>
        requires within { place_of_step step < length self.now.placed }
        ensures moved { IfOk result (λ x. x ≡ step_map self.now.placed step id.now) }
    {
        match step {
            Step::Back { place } => self.at(place).renaming.back(id),
            Step::Forward { place } => self.at(place).renaming.forward(id),
        }
    }
}
