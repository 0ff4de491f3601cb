//! Translation between any two epochs. It looks for what is known, and where that isn't enough, it goes one step, two more, four more
//! and so on, and looks again each time: runs that a renaming has made one are mostly known together from there on.
//! Why: CHOICES.md, 192.

ghost use Rattle.std.specs.Prelude.{◌≡◌, ◌≤◌, length, map, IfOk};
ghost use Rattle.rls_rename.specs.Tree.{translate};
ghost use Rattle.rls_epoch.specs.Links.{epoch_at};
ghost use Rattle.rls_epoch.specs.Seen.{nodes_of};
ghost use Rattle.rls_epoch.specs.Ways.{IsWay};

use crate::nodes::Nodes;
use crate::ways::Step;
use rls_ident::{Ident, rely};
use rls_runs::Runs;
use std::alloc::AllocError;

impl Nodes {
    // The way between two epochs, by their numbers, which leads from the one to the other.
    pub(crate) fn way_from(&self, from: usize, to: usize) -> Result<Vec<Step>, AllocError>
        requires from { from ≤ length self.now.placed }
        requires to { to ≤ length self.now.placed }
        ensures way { IfOk result (λ steps. IsWay self.now.placed steps.items (epoch_at self.now.top self.now.placed from) (epoch_at self.now.top self.now.placed to)) }
    {
        rely!(let _count = self.count());
        self.way(from, to)
    }

    // The number of the epoch so many steps on the way from one epoch to another, or of the other if there aren't more. It costs a few
    // steps for each halving of the way.
    pub(crate) fn number_along(&self, from: usize, to: usize, count: usize) -> usize
        requires from { from ≤ length self.now.placed }
        requires to { to ≤ length self.now.placed }
        ensures within { result ≤ length self.now.placed }
    {
        rely!(let _count = self.count());
        let (left, _) = self.climb_both(from, to);
        let meeting = self.depth(left.at.min(from));
        let (up, down) = (
            self.depth(from).saturating_sub(meeting),
            self.depth(to).saturating_sub(meeting),
        );
        if count <= up {
            return self.ancestor(from, self.depth(from) - count);
        }
        let left_down = down.saturating_sub(count - up);
        if left_down == 0 {
            return to;
        }
        self.ancestor(to, self.depth(to) - left_down)
    }

    // An identifier of an epoch in another.
    pub(crate) fn ident_between(
        &self,
        from: usize,
        to: usize,
        id: &Ident,
    ) -> Result<Ident, AllocError>
        requires from { from ≤ length self.now.placed }
        requires to { to ≤ length self.now.placed }
        ensures translated { IfOk result (λ x. x ≡ translate (nodes_of self.now.placed) (epoch_at self.now.top self.now.placed from) (epoch_at self.now.top self.now.placed to) id.now) }
    {
        if from == to || self.known.is_empty() {
            return self.ident_walked(from, to, id);
        }
        rely!(let _count = self.count());
        let end = self.epoch_of(to);
        let (mut at, mut there) = (from, id.copy()?);
        for doublings in 0..u32::BITS {
            rely!(let _len = there.len());
            let here = self.epoch_of(at);
            if let Some(image) = self.known.image(&self.list, here, end, &there)? {
                return Ok(image);
            }
            let next = self.number_along(at, to, 1 << doublings);
            if next == to {
                break;
            }
            there = self.ident_walked(at, next, &there)?;
            at = next;
        }
        self.ident_walked(at, to, &there)
    }

    // The same, by each step of the way.
    fn ident_walked(&self, from: usize, to: usize, id: &Ident) -> Result<Ident, AllocError>
        requires from { from ≤ length self.now.placed }
        requires to { to ≤ length self.now.placed }
        ensures translated { IfOk result (λ x. x ≡ translate (nodes_of self.now.placed) (epoch_at self.now.top self.now.placed from) (epoch_at self.now.top self.now.placed to) id.now) }
    {
        rely!(let _len = id.len());
        let steps = self.way_from(from, to)?;
        self.ident_led(&steps, id)
    }

    // A strictly increasing list of identifiers of an epoch in another.
    pub(crate) fn runs_between(
        &self,
        from: usize,
        to: usize,
        ids: &Runs,
    ) -> Result<Runs, AllocError>
        requires from { from ≤ length self.now.placed }
        requires to { to ≤ length self.now.placed }
        ensures translated { IfOk result (λ xs. xs ≡ map (translate (nodes_of self.now.placed) (epoch_at self.now.top self.now.placed from) (epoch_at self.now.top self.now.placed to)) ids.now) }
    {
        if from == to || self.known.is_empty() {
            return self.runs_walked(from, to, ids);
        }
        rely!(let _count = self.count());
        let end = self.epoch_of(to);
        let (mut at, mut there) = (from, ids.copy()?);
        for doublings in 0..u32::BITS {
            rely!(let _total = there.total());
            let here = self.epoch_of(at);
            if let Some(images) = self.known.images(&self.list, here, end, &there)? {
                return Ok(images);
            }
            let next = self.number_along(at, to, 1 << doublings);
            if next == to {
                break;
            }
            there = self.runs_walked(at, next, &there)?;
            at = next;
        }
        self.runs_walked(at, to, &there)
    }

    // The same, by each step of the way.
    fn runs_walked(&self, from: usize, to: usize, ids: &Runs) -> Result<Runs, AllocError>
        requires from { from ≤ length self.now.placed }
        requires to { to ≤ length self.now.placed }
        ensures translated { IfOk result (λ xs. xs ≡ map (translate (nodes_of self.now.placed) (epoch_at self.now.top self.now.placed from) (epoch_at self.now.top self.now.placed to)) ids.now) }
    {
        rely!(let _total = ids.total());
        let steps = self.way_from(from, to)?;
        self.runs_led(&steps, ids)
    }
}
