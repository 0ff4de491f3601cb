//! How images become known: of an identifier with those beside it that are in the same former run at each step of a way. Those at the
//! places of the way at which translations look become known too, where more are beside it there.
//! Why: CHOICES.md, 191.

ghost use Rattle.std.specs.Prelude.{◌≡◌, ◌+◌, ◌<◌, ◌≤◌, List, length, map, IfOk, IfSome};
ghost use Rattle.std.specs.List.{All};
ghost use Rattle.rls_ident.specs.declared.tuple.Tuple.{Tuple};
ghost use Rattle.rls_ident.specs.Identifiers.{IsIdent};
ghost use Rattle.rls_rename.specs.Tree.{translate};
ghost use Rattle.rls_runs.specs.Runs.{run_idents};
ghost use Rattle.rls_epoch.specs.KnownRuns.{IsKnown};
ghost use Rattle.rls_epoch.specs.Seen.{nodes_of};
ghost use Rattle.rls_epoch.specs.Ways.{AreWithin, place_of_step, step_map};

use crate::known::Known;
use crate::nodes::Nodes;
use crate::ways::Step;
use rls_ident::limits::{LEAST_OFFSET, OFFSETS_END};
use rls_ident::{EpochName, Ident, rely};
use rls_runs::{Run, Runs};
use std::alloc::AllocError;
use std::mem;

// How many runs of a list in which an identifier can't be learned are passed over.
const MOST_TRIED: u32 = 4;

// How many identifiers before one, and how many from it on.
#[derive(Clone, Copy)]
struct Beside {
    before: u32,
    from: u32,
}

impl Beside {
    // All with its base.
    fn base(id: &Ident) -> Beside {
        let offset = id.last().offset as i64;
        Beside {
            before: u32::try_from(offset - LEAST_OFFSET as i64).unwrap_or(0),
            from: u32::try_from(OFFSETS_END as i64 - offset).unwrap_or(0),
        }
    }

    // Those of a run, if it has the identifier.
    fn within(run: &Run, id: &Ident) -> Option<Beside> {
        let Ok(before) = run.find(id) else {
            return None;
        };
        Some(Beside {
            before,
            from: run.len().saturating_sub(before),
        })
    }

    // What is beside it in both cases.
    fn min(self, other: Beside) -> Beside {
        Beside {
            before: self.before.min(other.before),
            from: self.from.min(other.from),
        }
    }

    // The run of those beside this identifier.
    fn run(self, id: &Ident) -> Result<Option<Run>, AllocError> {
        if (id.last().offset as i64) - (self.before as i64) < LEAST_OFFSET as i64 {
            return Ok(None);
        }
        match Run::new(
            id.lowered(self.before)?,
            self.before.saturating_add(self.from),
        ) {
            Ok(run) => Ok(Some(run)),
            Err(_) => Ok(None),
        }
    }
}

// A step of an identifier that is a former one there, what is beside it in its run of these, and whether translations look for what is
// known before this step.
#[derive(Drop)]
pub(crate) struct Stop {
    pub(crate) step: Step,
    id: Ident,
    beside: Beside,
    looked: bool,
}

// The last steps of an identifier, at each of which it is a former one, and what is known of it after these.
#[derive(Drop)]
struct Route {
    stops: Vec<Stop>,
    end: Ident,
    known: Known,
}

impl Nodes {
    // Makes ready for translations of a list between two epochs, by their numbers. Of each run the identifiers whose images aren't
    // known are learned, up to one that can't be, and few such ones are tried. It costs two renamings for each epoch on the way for each
    // stretch that is learned, and a search for each other part.
    pub(crate) fn prepare(&mut self, from: usize, to: usize, ids: &Runs) -> Result<(), AllocError>
        requires from { from ≤ length self.old.placed }
        requires to { to ≤ length self.old.placed }
        ensures same { self.new ≡ self.old }
    {
        let mut tried = 0;
        for run in ids.as_slice() {
            if self.prepare_run(from, to, run)? {
                continue;
            }
            if tried >= MOST_TRIED {
                return Ok(());
            }
            tried += 1;
        }
        Ok(())
    }

    // The same for a run. It answers whether all of it is known then.
    fn prepare_run(&mut self, from: usize, to: usize, run: &Run) -> Result<bool, AllocError>
        requires from { from ≤ length self.old.placed }
        requires to { to ≤ length self.old.placed }
        ensures same { self.new ≡ self.old }
    {
        let len = run.len();
        let mut done = 0;
        while done < len {
            let count = self.prepare_part(from, to, run, done)?;
            if count == 0 {
                return Ok(false);
            }
            done += count;
        }
        Ok(true)
    }

    // How many identifiers of a run from an index on have images that are known, after that of the first one was learned. A single step
    // is as quick without.
    fn prepare_part(&mut self, from: usize, to: usize, run: &Run, i: u32) -> Result<u32, AllocError>
        requires from { from ≤ length self.old.placed }
        requires to { to ≤ length self.old.placed }
        requires index { i < run.now.1 }
        ensures within { IfOk result (λ n. i + n ≤ run.now.1) }
        ensures same { self.new ≡ self.old }
    {
        let first = match self.next_count(from, to, run, i)? {
            Ok(count) => return Ok(count),
            Err(first) => first,
        };
        if self.number_along(from, to, 1) == to {
            return Ok(0);
        }
        self.learn(from, to, &first)?;
        match self.next_count(from, to, run, i)? {
            Ok(count) => Ok(count),
            Err(_) => Ok(0),
        }
    }

    // How many identifiers of a run from an index on have images that are known. If that of the first one isn't, it answers this one.
    fn next_count(
        &self,
        from: usize,
        to: usize,
        run: &Run,
        i: u32,
    ) -> Result<Result<u32, Ident>, AllocError>
        requires from { from ≤ length self.now.placed }
        requires to { to ≤ length self.now.placed }
        requires index { i < run.now.1 }
        ensures within { IfOk result (λ count. IfOk count (λ n. i + n ≤ run.now.1)) }
    {
        let (start, end) = (self.epoch_of(from), self.epoch_of(to));
        match self.known.next_part(&self.list, start, end, run, i)? {
            Ok(part) => Ok(Ok(part.len())),
            Err(first) => Ok(Err(first)),
        }
    }

    // The image of an identifier and those beside it at each step becomes known, if it is a former one at each. It costs two passes over
    // the way, or as much of it as isn't known.
    fn learn(&mut self, from: usize, to: usize, id: &Ident) -> Result<(), AllocError>
        requires from { from ≤ length self.old.placed }
        requires to { to ≤ length self.old.placed }
        ensures same { self.new ≡ self.old }
    {
        let Some(mut route) = self.route(from, to, id)? else {
            return Ok(());
        };
        let last = self.learn_back(&mut route)?;
        self.put_both(last)
    }

    // The same of the steps of a route, the last one first. It answers what is known at the last place at which translations look.
    fn learn_back(&mut self, route: &mut Route) -> Result<Option<Known>, AllocError>
        requires stops { All (λ s. place_of_step s.step < length self.old.placed) route.old.stops.items }
        requires known { IsKnown (nodes_of self.old.placed) route.old.known }
        ensures same { self.new ≡ self.old }
        ensures last { IfOk result (λ last. IfSome last (λ k. IsKnown (nodes_of self.old.placed) k)) }
    {
        let Some(mut beside) = Beside::within(&route.known.run, &route.end) else {
            return Ok(None);
        };
        let mut last = None;
        while let Some(stop) = route.stops.pop() {
            beside = beside.min(stop.beside);
            let Some(before) = self.known_before(&stop, beside, &route.known)? else {
                break;
            };
            route.known = before;
            last = self.put_looked(stop.looked, last, &route.known)?;
        }
        Ok(last)
    }

    // What is known at the last place at which translations look, after this one if it is such a place. What is known at the one before is
    // put in its place, if it is longer.
    fn put_looked(
        &mut self,
        looked: bool,
        last: Option<Known>,
        known: &Known,
    ) -> Result<Option<Known>, AllocError>
        requires last { IfSome last (λ k. IsKnown (nodes_of self.old.placed) k) }
        requires known { IsKnown (nodes_of self.old.placed) known.now }
        ensures same { self.new ≡ self.old }
        ensures last { IfOk result (λ last. IfSome last (λ k. IsKnown (nodes_of self.old.placed) k)) }
    {
        if !looked {
            return Ok(last);
        }
        self.put_longer(last, known.run.len())?;
        let copy = known.copy()?;
        Ok(Some(copy))
    }

    // A run that is known is put in its place, if it is longer than this.
    fn put_longer(&mut self, known: Option<Known>, len: u32) -> Result<(), AllocError>
        requires known { IfSome known (λ k. IsKnown (nodes_of self.old.placed) k) }
        ensures same { self.new ≡ self.old }
    {
        match known {
            Some(known) if known.run.len() > len => self.known.put(&self.list, known),
            _ => Ok(()),
        }
    }

    // A run that is known is put in its place, and the way back in its own.
    fn put_both(&mut self, known: Option<Known>) -> Result<(), AllocError>
        requires known { IfSome known (λ k. IsKnown (nodes_of self.old.placed) k) }
        ensures same { self.new ≡ self.old }
    {
        let Some(known) = known else {
            return Ok(());
        };
        rely!(let _count = self.count());
        let back = known.turned(&self.list)?;
        self.known.put(&self.list, back)?;
        self.known.put(&self.list, known)
    }

    // The last steps of an identifier, at each of which it is a former one: up to where its image is known, if it is at a place of the way
    // at which translations look.
    fn route(&self, from: usize, to: usize, id: &Ident) -> Result<Option<Route>, AllocError>
        requires from { from ≤ length self.now.placed }
        requires to { to ≤ length self.now.placed }
        ensures stops { IfOk result (λ route. IfSome route (λ r. All (λ s. place_of_step s.step < length self.now.placed) r.stops.items)) }
        ensures known { IfOk result (λ route. IfSome route (λ r. IsKnown (nodes_of self.now.placed) r.known)) }
    {
        let mut stops = Vec::new(self.allocator());
        let (mut at, mut there) = (from, id.copy()?);
        for doublings in 0..u32::BITS {
            let next = self.number_along(at, to, 1 << doublings);
            there = self.follow_way(at, next, there, &mut stops)?;
            at = next;
            if at == to {
                break;
            }
            let (here, end) = (self.epoch_of(at), self.epoch_of(to));
            if let Some(known) = self.known.known_of(&self.list, here, end, &there)? {
                return Ok(Some(Route {
                    stops,
                    end: there,
                    known,
                }));
            }
        }
        self.route_to_end(stops, at, there)
    }

    // The steps of an identifier to its own epoch.
    fn route_to_end(
        &self,
        stops: Vec<Stop>,
        at: usize,
        end: Ident,
    ) -> Result<Option<Route>, AllocError>
        requires within { at ≤ length self.now.placed }
        requires stops { All (λ s. place_of_step s.step < length self.now.placed) stops.items }
        ensures stops { IfOk result (λ route. IfSome route (λ r. All (λ s. place_of_step s.step < length self.now.placed) r.stops.items)) }
        ensures known { IfOk result (λ route. IfSome route (λ r. IsKnown (nodes_of self.now.placed) r.known)) }
    {
        let Some(run) = Beside::base(&end).run(&end)? else {
            return Ok(None);
        };
        rely!(let _count = self.count());
        let known = Known::unmoved(&self.list, self.epoch_of(at), run)?;
        Ok(Some(Route { stops, end, known }))
    }

    // The identifier at the end of these steps. Each at which it is a former one comes after the others; at one where it isn't, the
    // others are taken away.
    fn follow(&self, steps: &[Step], id: Ident, stops: &mut Vec<Stop>) -> Result<Ident, AllocError>
        requires within { AreWithin (length self.now.placed) steps.now }
        requires stops { All (λ s. place_of_step s.step < length self.now.placed) stops.old.items }
        ensures stops { All (λ s. place_of_step s.step < length self.now.placed) stops.new.items }
    {
        let mut at = id;
        let mut looked = true;
        for step in steps {
            let next = self.ident_moved(*step, &at)?;
            let there = self.beside_at(*step, &at, &next);
            let id = mem::replace(&mut at, next);
            self.put_stop(stops, *step, id, there, looked)?;
            looked = false;
        }
        Ok(at)
    }

    // The same over the way between two epochs, by their numbers.
    fn follow_way(
        &self,
        from: usize,
        to: usize,
        id: Ident,
        stops: &mut Vec<Stop>,
    ) -> Result<Ident, AllocError>
        requires from { from ≤ length self.now.placed }
        requires to { to ≤ length self.now.placed }
        requires stops { All (λ s. place_of_step s.step < length self.now.placed) stops.old.items }
        ensures stops { All (λ s. place_of_step s.step < length self.now.placed) stops.new.items }
    {
        let steps = self.way_from(from, to)?;
        self.follow(&steps, id, stops)
    }

    // A step is put after the others, if what is beside the identifier there is told. Else these are taken away.
    fn put_stop(
        &self,
        stops: &mut Vec<Stop>,
        step: Step,
        id: Ident,
        beside: Option<Beside>,
        looked: bool,
    ) -> Result<(), AllocError>
        requires within { place_of_step step < length self.now.placed }
        requires stops { All (λ s. place_of_step s.step < length self.now.placed) stops.old.items }
        ensures stops { All (λ s. place_of_step s.step < length self.now.placed) stops.new.items }
    {
        let Some(beside) = beside else {
            stops.clear();
            return Ok(());
        };
        stops.push(Stop {
            step,
            id,
            beside,
            looked,
        })?;
        Ok(())
    }

    // What is known before a step of those beside an identifier there, where this is known after it.
    fn known_before(
        &self,
        stop: &Stop,
        beside: Beside,
        after: &Known,
    ) -> Result<Option<Known>, AllocError>
        requires within { place_of_step stop.now.step < length self.now.placed }
        requires known { IsKnown (nodes_of self.now.placed) after.now }
        ensures known { IfOk result (λ found. IfSome found (λ k. IsKnown (nodes_of self.now.placed) k)) }
    {
        let (from, next) = self.ends(stop.step);
        if !next.same(&after.from) {
            return Ok(None);
        }
        let Some(run) = beside.run(&stop.id)? else {
            return Ok(None);
        };
        rely!(let (_count, _len) = (self.count(), run.len()));
        let Some(image) = self.image_before(stop.step, &run, after)? else {
            return Ok(None);
        };
        Ok(Some(Known {
            from,
            to: after.to,
            run,
            image,
        }))
    }

    // The image of a run before a step, if it goes the step as one run, of which all is known after it.
    fn image_before(&self, step: Step, run: &Run, after: &Known) -> Result<Option<Run>, AllocError>
        requires within { place_of_step step < length self.now.placed }
        requires known { IsKnown (nodes_of self.now.placed) after.now }
        ensures image { IfOk result (λ image. IfSome image (λ r. run_idents r.0 r.1 ≡ map (translate (nodes_of self.now.placed) after.now.from after.now.to) (map (step_map self.now.placed step) (run_idents run.now.0 run.now.1)))) }
    {
        let images = self.run_moved(step, run)?;
        match images.as_slice() {
            [moved] => after.image_of(&self.list, moved),
            _ => Ok(None),
        }
    }

    // The epochs before and after a step.
    fn ends(&self, step: Step) -> (EpochName, EpochName)
        requires within { place_of_step step < length self.now.placed }
        ensures step { (x : List Tuple) → IsIdent x → step_map self.now.placed step x ≡ translate (nodes_of self.now.placed) result.0 result.1 x }
    {
        rely!(let _count = self.count());
        match step {
            Step::Back { place } => (self.name_of(place), self.at(place).parent),
            Step::Forward { place } => (self.at(place).parent, self.name_of(place)),
        }
    }

    // What is beside an identifier in its run of former identifiers, at a step that takes the one to the other.
    fn beside_at(&self, step: Step, at: &Ident, next: &Ident) -> Option<Beside>
        requires within { place_of_step step < length self.now.placed }
    {
        let (place, id) = match step {
            Step::Back { place } => (place, next),
            Step::Forward { place } => (place, at),
        };
        let former = self.at(place).renaming.former();
        let Ok(i) = former.find(id) else {
            return None;
        };
        let (run, before) = former.locate(i);
        Some(Beside {
            before,
            from: run.len() - before,
        })
    }
}
