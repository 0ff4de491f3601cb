//! Long identifiers over the steps of a way. Mostly a step changes a few of the first tuples and leaves the others, so these aren't
//! copied at each step: the tuples are in reverse, the first one at the end.

ghost use Rattle.std.specs.Prelude.{◌≡◌, ◌<◌, ◌≤◌, length, map, drop, reverse, IfOk, IfSome, IsTrue, IsFalse};
ghost use Rattle.rls_rename.specs.Heads.{Replaces};
ghost use Rattle.rls_runs.specs.Runs.{run_idents};
ghost use Rattle.rls_epoch.specs.Heads.{Moves, IsAhead};
ghost use Rattle.rls_epoch.specs.Ways.{AreWithin, place_of_step, step_map, led};
ghost use Rattle.rls_epoch.specs.declared.ways.Step.TheVariants.{Forward};

use crate::nodes::Nodes;
use crate::ways::Step;
use rls_ident::{Ident, IdentError, Tuple};
use rls_runs::{Run, Runs};
use std::alloc::{AllocError, Global};

// The number of first tuples that are tried first.
const FEWEST: usize = 2;

// The most tuples of a run that is copied at each step together with others.
const MOST_TOGETHER: usize = 16;

// The most tuples with which a run, the last of this many runs, is copied at each step.
pub(crate) fn most_copied(runs: usize) -> usize {
    if runs > 1 { MOST_TOGETHER } else { FEWEST }
}

impl Nodes {
    // Whether the first tuples of a long run alone decide a step. It is asked of a run beside others.
    pub(crate) fn is_decided(&self, step: Step, run: &Run) -> Result<bool, AllocError>
        requires within { place_of_step step < length self.now.placed }
    {
        if run.first().len() <= MOST_TOGETHER {
            return Ok(false);
        }
        let mut turned = turned_tuples(self.allocator(), run.first())?;
        self.move_head(step, &mut turned)
    }

    // A run a few steps on, and how many steps, if it has more tuples than this and its first ones alone decide the first step.
    pub(crate) fn run_ahead(
        &self,
        steps: &[Step],
        run: &Run,
        most: usize,
    ) -> Result<Option<(Runs, usize)>, AllocError>
        requires within { AreWithin (length self.now.placed) steps.now }
        ensures some { IfOk result (λ ahead. IfSome ahead (λ r. 0 < r.1)) }
        ensures within { IfOk result (λ ahead. IfSome ahead (λ r. r.1 ≤ length steps.now)) }
        ensures led { IfOk result (λ ahead. IfSome ahead (λ r. map (led self.now.placed (drop r.1 steps.now)) r.0 ≡ map (led self.now.placed steps.now) (run_idents run.now.0 run.now.1))) }
    {
        if run.first().len() <= most {
            return Ok(None);
        }
        let mut turned = turned_tuples(self.allocator(), run.first())?;
        let count = self.move_heads(steps, &mut turned)?;
        if count == 0 {
            return Ok(None);
        }
        match run_of(self.allocator(), &turned, run.len())? {
            Some(ahead) => Ok(Some((ahead, count))),
            None => Ok(None),
        }
    }

    // Takes the tuples to those of the identifier n steps on, and answers n: its first tuples decide
    // these steps.
    fn move_heads(&self, steps: &[Step], turned: &mut Vec<Tuple>) -> Result<usize, AllocError>
        requires within { AreWithin (length self.now.placed) steps.now }
        ensures within { IfOk result (λ n. n ≤ length steps.now) }
        ensures ahead { IfOk result (λ n. IsAhead self.now.placed steps.now (reverse turned.old.items) n (reverse turned.new.items)) }
    {
        let mut count = 0;
        while count < steps.len() {
            if !self.move_head(steps[count], turned)? {
                return Ok(count);
            }
            count += 1;
        }
        Ok(count)
    }

    // Changes the tuples to those of the identifier one step on, if the first ones decide it: two of them, or four, and so on.
    fn move_head(&self, step: Step, turned: &mut Vec<Tuple>) -> Result<bool, AllocError>
        requires within { place_of_step step < length self.now.placed }
        ensures moved { IfOk result (λ b. IsTrue b → Moves self.now.placed step (reverse turned.old.items) (reverse turned.new.items)) }
        ensures same { IfOk result (λ b. IsFalse b → turned.new.items ≡ turned.old.items) }
    {
        let mut count = FEWEST;
        while count < turned.len() {
            if self.move_first(step, turned, count)? {
                return Ok(true);
            }
            count = count.saturating_add(count);
        }
        Ok(false)
    }

    // The same, if the first tuples, as many as the count, decide it.
    fn move_first(
        &self,
        step: Step,
        turned: &mut Vec<Tuple>,
        count: usize,
    ) -> Result<bool, AllocError>
        requires within { place_of_step step < length self.now.placed }
        requires fewer { count < length turned.old.items }
        ensures moved { IfOk result (λ b. IsTrue b → Moves self.now.placed step (reverse turned.old.items) (reverse turned.new.items)) }
        ensures same { IfOk result (λ b. IsFalse b → turned.new.items ≡ turned.old.items) }
    {
        let rest = turned.len() - count;
        let (_, first) = turned.as_slice().split_at(rest);
        let Some(front) = self.front_moved(step, first)? else {
            return Ok(false);
        };
        turned.truncate(rest);
        turned.extend_from_slice(&front)?;
        Ok(true)
    }

    // What a step puts in the place of these first tuples, if they are an identifier and decide it. Both are in reverse.
    fn front_moved(&self, step: Step, first: &[Tuple]) -> Result<Option<Vec<Tuple>>, AllocError>
        requires within { place_of_step step < length self.now.placed }
        ensures replaces { IfOk result (λ front. IfSome front (λ z. Replaces (step_map self.now.placed step) (reverse first.now) (reverse z.items))) }
    {
        let Some(head) = ident_of(self.allocator(), first)? else {
            return Ok(None);
        };
        match self.head_moved(step, &head)? {
            Some(moved) => Ok(Some(turned_tuples(self.allocator(), &moved)?)),
            None => Ok(None),
        }
    }

    // What a step down puts in the place of the first tuples, if these decide it. It isn't tried for a step up.
    #[tactic(auto, using(crate::proofs::Turning::forward_replaces))]
    fn head_moved(&self, step: Step, head: &Ident) -> Result<Option<Ident>, AllocError>
        requires within { place_of_step step < length self.now.placed }
        ensures replaces { IfOk result (λ z. IfSome z (λ z. Replaces (step_map self.now.placed step) head.now z)) }
    {
        match step {
            Step::Back { .. } => Ok(None),
            Step::Forward { place } => self.at(place).renaming.forward_head(head),
        }
    }
}

// The identifier whose tuples these are in reverse, if they are one.
fn ident_of(alloc: Global, turned: &[Tuple]) -> Result<Option<Ident>, AllocError>
    ensures ident { IfOk result (λ id. IfSome id (λ id. id ≡ reverse turned.now)) }
{
    let mut tuples = Vec::from_slice(alloc, turned)?;
    tuples.reverse();
    match Ident::from_tuples(alloc, &tuples) {
        Ok(id) => Ok(Some(id)),
        Err(IdentError::OutOfMemory) => Err(AllocError),
        Err(_) => Ok(None),
    }
}

// The run of this length from the identifier whose tuples these are in reverse, if they are one and there is such a run.
fn run_of(alloc: Global, turned: &[Tuple], len: u32) -> Result<Option<Runs>, AllocError>
    ensures run { IfOk result (λ runs. IfSome runs (λ xs. xs ≡ run_idents (reverse turned.now) len)) }
{
    let Some(first) = ident_of(alloc, turned)? else {
        return Ok(None);
    };
    match Run::new(first, len) {
        Ok(run) => Ok(Some(Runs::from_run(alloc, run)?)),
        Err(_) => Ok(None),
    }
}

fn turned_tuples(alloc: Global, id: &Ident) -> Result<Vec<Tuple>, AllocError>
    ensures turned { IfOk result (λ tuples. tuples.items ≡ reverse id.now) }
{
    let mut tuples = Vec::with_capacity(alloc, id.len())?;
    tuples.extend_from_slice(id.front())?;
    tuples.push(id.last().as_tuple())?;
    tuples.reverse();
    Ok(tuples)
}
