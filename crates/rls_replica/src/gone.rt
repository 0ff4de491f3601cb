//! Which identifiers unstable deletions name: what none names by what is noted, none names.

ghost use Rattle.std.specs.Prelude.{◌≡◌, ◌<◌, ◌≤◌, ◌⊎◌, ◌++◌, ◌∷◌, [], ℕ, List, length, drop, slice_index, IfOk, OnOk, IfSome, IfNone, IsTrue};
ghost use Rattle.rls_ident.specs.declared.tuple.Tuple.{Tuple};
ghost use Rattle.rls_ident.specs.Lists.{IsIn};
ghost use Rattle.rls_runs.specs.Runs.{joined};
ghost use Rattle.rls_rename.specs.Tree.{is_kept};
ghost use Rattle.rls_seen.specs.Seen.{members, stable_over};
ghost use Rattle.rls_replica.specs.Bounds.{IsBounded, edge_of};
ghost use Rattle.rls_replica.specs.Gone.{IsGone, IsNoted};
ghost use Rattle.rls_replica.specs.Lookups.{is_named_over};

use crate::bounds::{Bounds, Edge};
use crate::marks::Mark;
use crate::replica::Replica;
use crate::uniting::union;
use rls_ident::{EpochName, Ident};
use rls_runs::Runs;
use std::alloc::{AllocError, Global};

/// What unstable deletions among the first operations of the log name, in one epoch.
#[derive(Drop)]
pub(crate) struct Gone {
    pub(crate) epoch: EpochName,
    // How many operations of the log were noted.
    pub(crate) noted: usize,
    pub(crate) named: Named,
}

/// Which identifiers deletions name. Those that have become stable since they were noted are among these deletions.
#[derive(Drop)]
pub(crate) struct Named {
    // The identifiers, in a few lists: what isn't in them none names.
    pub(crate) lists: Vec<Runs>,
    // For each author, up to which number its deletions name each of them: where that number is stable, no unstable deletion names it.
    // There are none until a target is met that stands in the lists for stable deletions alone. A bound looks at last tuples only, so it
    // can't take the place of the lists.
    pub(crate) bounds: Option<Bounds>,
}

impl Named {
    // No identifier, with bounds or without.
    fn nothing(alloc: Global, has_bounds: bool) -> Named {
        let bounds = if has_bounds {
            Some(Bounds::new(alloc))
        } else {
            None
        };
        Named {
            lists: Vec::new(alloc),
            bounds,
        }
    }

    // The same, and that a deletion of an author names these identifiers, which has a greater number than all of this author before.
    fn with(self, alloc: Global, author: u32, ids: Runs, number: u32) -> Result<Named, AllocError>
        ensures kept { IfOk result (λ new. (a : ℕ) (x : List Tuple) (q : ℕ) → (a ≡ author → q ≤ number) → IsNoted self a x q → IsNoted new a x q) }
        ensures named { IfOk result (λ new. (x : List Tuple) → IsIn x ids → IsNoted new author x number) }
    {
        let Named { mut lists, bounds } = self;
        let bounds = match bounds {
            Some(mut bounds) => {
                bounds.note(author, &ids, number)?;
                Some(bounds)
            }
            None => None,
        };
        add(alloc, &mut lists, ids)?;
        Ok(Named { lists, bounds })
    }
}

impl Replica {
    // Notes what was accepted since, if identifiers are noted. If a target was looked for in vain, it notes all, and with bounds if that
    // was so with the lists alone. If memory runs out, nothing is noted any more. It costs a few searches for each run that unstable
    // deletions name, times a logarithm.
    pub(crate) fn note_gone(&mut self)
        ensures same { self.new ≡ self.old }
    {
        let has_bounds = self.gone.is_some();
        let kept = self.gone.take();
        let gone = if self.wanted.replace(false) {
            self.nothing_gone(has_bounds)
        } else {
            let Some(gone) = kept else {
                return;
            };
            gone
        };
        if let Ok(gone) = self.with_logged(gone) {
            self.gone = Some(gone);
        }
    }

    // Nothing is noted, in the greatest epoch, with bounds or without.
    fn nothing_gone(&self, has_bounds: bool) -> Gone
        ensures gone { IsGone self.now result }
    {
        Gone {
            epoch: self.epochs.greatest(),
            noted: 0,
            named: Named::nothing(self.alloc, has_bounds),
        }
    }

    // The same with the operations of the log that aren't noted.
    fn with_logged(&self, gone: Gone) -> Result<Gone, AllocError>
        requires gone { IsGone self.now gone }
        ensures gone { IfOk result (λ r. IsGone self.now r) }
    {
        let Gone {
            epoch,
            noted,
            mut named,
        } = gone;
        for i in noted..self.log.len() {
            let Some(op) = self.logged_deletion(i)? else {
                continue;
            };
            let Some(ids) = self.named_ids(&op, epoch)? else {
                continue;
            };
            named = named.with(self.alloc, op.author, ids, op.seq)?;
        }
        Ok(Gone {
            epoch,
            noted: self.log.len(),
            named,
        })
    }

    // How many of the first operations of the log surely don't name the target. It takes the square of a logarithm, and a search for
    // each member.
    pub(crate) fn cleared(&self, epoch: EpochName, target: &Ident) -> Result<usize, AllocError>
        requires kept { IsTrue (is_kept self.now.epochs.top self.now.epochs.nodes epoch) }
        ensures within { IfOk result (λ n. n ≤ length self.now.log) }
        ensures none { IfOk result (λ n. is_named_over self.now epoch target.now (drop n self.now.log) ≡ is_named_over self.now epoch target.now self.now.log) }
    {
        let Some(gone) = &self.gone else {
            return Ok(0);
        };
        let there = self.epochs.translate(epoch, gone.epoch, target)?;
        if self.name_none(&gone.named, &there) {
            return Ok(gone.noted);
        }
        Ok(0)
    }

    // Whether surely no unstable deletion names an identifier, by what is noted.
    fn name_none(&self, named: &Named, id: &Ident) -> bool
        ensures none { IsTrue result → (a q : ℕ) → a < members self.now → IsNoted named.now a id.now q → q ≤ slice_index (stable_over self.now) a }
    {
        if lacks(&named.lists, id) {
            return true;
        }
        match &named.bounds {
            Some(bounds) => self.are_stable(bounds, id),
            None => false,
        }
    }

    // Whether by these bounds all deletions that name an identifier are stable.
    fn are_stable(&self, bounds: &Bounds, id: &Ident) -> bool
        ensures stable { IsTrue result → (a q : ℕ) → a < members self.now → IsBounded bounds.now.numbers.entries (edge_of a id.now) q → q ≤ slice_index (stable_over self.now) a }
    {
        let mark = Mark::of(id.last());
        for author in 0..self.members() {
            if bounds.at(Edge { author, mark }) > self.acks.stable().get(author) {
                return false;
            }
        }
        true
    }
}

// Whether an identifier is in none of these lists.
fn lacks(lists: &[Runs], id: &Ident) -> bool
    ensures lacks { IsTrue result → IsIn id.now (joined lists.now) → ⊥ }
{
    for ids in lists {
        if ids.find(id).is_ok() {
            return false;
        }
    }
    true
}

// Puts a list after the others, together with those that have less than twice as many runs. So each has at least twice as many runs as
// the next, and n runs that come one after another take part in a logarithm of n unions each.
pub(crate) fn add(alloc: Global, lists: &mut Vec<Runs>, ids: Runs) -> Result<(), AllocError>
    ensures ok { OnOk result ((x : List Tuple) → IsIn x (joined lists.old.items) ⊎ IsIn x ids → IsIn x (joined lists.new.items)) }
    ensures only { OnOk result ((x : List Tuple) → IsIn x (joined lists.new.items) → IsIn x (joined lists.old.items) ⊎ IsIn x ids) }
{
    let mut ids = ids;
    while let Some(last) = take_short(lists, ids.run_count()) {
        ids = union(alloc, &last, &ids)?;
    }
    lists.push(ids)?;
    Ok(())
}

// Takes out the last list, if it has less than twice as many runs as this.
fn take_short(lists: &mut Vec<Runs>, runs: u64) -> Option<Runs>
    ensures some { IfSome result (λ ids. lists.old.items ≡ lists.new.items ++ ids ∷ []) }
    ensures none { IfNone result (lists.new.items ≡ lists.old.items) }
{
    let last = lists.last()?;
    if last.run_count() / 2 >= runs {
        return None;
    }
    lists.pop()
}
