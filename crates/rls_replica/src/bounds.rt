//! Up to which numbers deletions name identifiers: bounds, which may be too high, so that they stay right when operations become stable.

ghost use Rattle.std.specs.Prelude.{◌≡◌, ◌≤◌, ℕ, List, cond, Some, None, IfSome, IfNone, OnOk, IsSome};
ghost use Rattle.std.specs.declared.cmp.Ordering.TheVariants.{Less};
ghost use Rattle.std.specs.BTreeMap.{is_at};
ghost use Rattle.rls_ident.specs.declared.tuple.Tuple.{Tuple};
ghost use Rattle.rls_ident.specs.Lists.{IsIn};
ghost use Rattle.rls_runs.specs.Runs.{run_idents};
ghost use Rattle.rls_replica.specs.declared.bounds.Edge as edges;
ghost use Rattle.rls_replica.specs.Bounds.{IsBetween, IsBounded, IsFloor, IsUpTo, edge_cmp, edge_of, number_in};

use crate::marks::Mark;
use rls_runs::{Run, Runs};
use std::alloc::{AllocError, Global};
use std::collections::BTreeMap;
use std::ops::Bound;

/// From where on a bound holds: of an author's deletions, from a mark on.
#[derive(Clone, Copy, PartialEq, Eq, PartialOrd, Ord, Drop)]
pub(crate) struct Edge {
    pub(crate) author: u32,
    pub(crate) mark: Mark,
}

/// For each author and each mark an upper bound of the numbers of the author's deletions that name an identifier of this mark: the number
/// at the last edge up to there.
#[derive(Drop)]
pub(crate) struct Bounds {
    pub(crate) numbers: BTreeMap<Edge, u32>,
}

impl Bounds {
    // No deletion names any identifier.
    pub(crate) fn new(alloc: Global) -> Bounds {
        Bounds {
            numbers: BTreeMap::new(alloc),
        }
    }

    // The bound at an edge. It takes a logarithm of the edges.
    pub(crate) fn at(&self, edge: Edge) -> u32
        ensures most { (q : ℕ) → IsBounded self.now.numbers.entries edge q → q ≤ result }
    {
        match self.floor(edge) {
            None => 0,
            Some(number) => number,
        }
    }

    // The number at the last edge up to this one.
    fn floor(&self, edge: Edge) -> Option<u32>
        ensures floor { IsFloor self.now.numbers.entries edge result }
    {
        match self
            .numbers
            .range((Bound::Unbounded, Bound::Included(edge)))
            .next_back()
        {
            None => None,
            Some((_, number)) => Some(*number),
        }
    }

    // Notes that a deletion of an author names these identifiers, which has a greater number than all of this author that were noted. It
    // takes a few searches for each of their runs, and two for each edge within a run.
    pub(crate) fn note(&mut self, author: u32, ids: &Runs, number: u32) -> Result<(), AllocError>
        ensures kept { OnOk result ((a : ℕ) (x : List Tuple) (q : ℕ) → (a ≡ author → q ≤ number) → IsBounded self.old.numbers.entries (edge_of a x) q → IsBounded self.new.numbers.entries (edge_of a x) q) }
        ensures named { OnOk result ((x : List Tuple) → IsIn x ids.now → IsBounded self.new.numbers.entries (edge_of author x) number) }
    {
        let runs = ids.as_slice();
        for run in runs {
            self.note_run(author, run, number)?;
        }
        Ok(())
    }

    // The same of the identifiers of a run.
    fn note_run(&mut self, author: u32, run: &Run, number: u32) -> Result<(), AllocError>
        ensures kept { OnOk result ((a : ℕ) (x : List Tuple) (q : ℕ) → (a ≡ author → q ≤ number) → IsBounded self.old.numbers.entries (edge_of a x) q → IsBounded self.new.numbers.entries (edge_of a x) q) }
        ensures named { OnOk result ((x : List Tuple) → IsIn x (run_idents run.now.0 run.now.1) → IsBounded self.new.numbers.entries (edge_of author x) number) }
    {
        let last = run.first().last();
        let first = Edge {
            author,
            mark: Mark::of(last),
        };
        let past = Edge {
            author,
            mark: Mark::past(last, run.len()),
        };
        self.set(first, past, number)?;
        Ok(())
    }

    // From one edge up to another one this is the bound.
    fn set(&mut self, first: Edge, past: Edge, number: u32) -> Result<(), AllocError>
        requires order { edge_cmp first past ≡ Less }
        ensures kept { OnOk result ((e : edges.Edge) (q : ℕ) → (IsUpTo first e → edge_cmp e past ≡ Less → q ≤ number) → IsBounded self.old.numbers.entries e q → IsBounded self.new.numbers.entries e q) }
        ensures set { OnOk result ((e : edges.Edge) → IsUpTo first e → edge_cmp e past ≡ Less → IsBounded self.new.numbers.entries e number) }
    {
        let further = self.at(past);
        self.clear(first, past);
        self.put(past, further)?;
        self.put(first, number)?;
        Ok(())
    }

    // Takes out the edges between two.
    fn clear(&mut self, first: Edge, past: Edge)
        requires order { edge_cmp first past ≡ Less }
        ensures between { (e : edges.Edge) → IsBetween first past e → number_in self.new.numbers.entries e ≡ None }
        ensures others { (e : edges.Edge) → (IsBetween first past e → ⊥) → number_in self.new.numbers.entries e ≡ number_in self.old.numbers.entries e }
    {
        while let Some(edge) = self.next(first, past) {
            let _number = self.numbers.remove(&edge);
        }
    }

    // The first edge between two.
    fn next(&self, first: Edge, past: Edge) -> Option<Edge>
        requires order { edge_cmp first past ≡ Less }
        ensures some { IfSome result (λ e. IsBetween first past e × IsSome (number_in self.now.numbers.entries e)) }
        ensures none { IfNone result ((e : edges.Edge) → IsBetween first past e → number_in self.now.numbers.entries e ≡ None) }
    {
        match self
            .numbers
            .range((Bound::Excluded(first), Bound::Excluded(past)))
            .next()
        {
            None => None,
            Some((edge, _)) => Some(*edge),
        }
    }

    // One more edge, or another number at one.
    fn put(&mut self, edge: Edge, number: u32) -> Result<(), AllocError>
        ensures put { OnOk result ((e : edges.Edge) → number_in self.new.numbers.entries e ≡ cond (is_at (edge_cmp edge) e) (Some number) (number_in self.old.numbers.entries e)) }
    {
        self.numbers.insert(edge, number)?;
        Ok(())
    }
}
