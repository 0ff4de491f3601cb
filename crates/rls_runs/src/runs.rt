//! Lists of identifiers, kept as runs.
//! Why: CHOICES.md, 217.

ghost use Rattle.std.specs.Prelude.{◌≡◌, ℕ, ◌+◌, ◌-◌, ◌<◌, ◌≤◌, ◌^◌, ◌++◌, ◌∷◌, [], List, length, drop, slice_get, slice_index, Some, IfOk, OnOk, OnErr, IsErrOf, IsTrue, IsFalse, ◌↔◌, Contains, pos};
ghost use Rattle.rls_ident.specs.declared.tuple.Tuple.{Tuple};
ghost use Rattle.rls_ident.specs.Identifiers.{ident_lt, shifted};
ghost use Rattle.rls_runs.specs.Runs.{run_idents, runs_of, place_of, AreIdents};
ghost use Rattle.rls_runs.specs.Places.{below_count, common_len, find_ident, first_len, last_ident, is_above, touches};

use crate::run::Run;
use rls_ident::{Ident, rely};
use std::alloc::{AllocError, Global};
use std::cmp::Ordering;
use std::marker::Model;

/// A strictly increasing list of identifiers, kept as its maximal runs, with the number of
/// identifiers before each run.
#[derive(Drop)]
pub struct Runs {
    runs: Vec<Run>,
    starts: Vec<u64>,
    total: u64,
}

impl Model for Runs {
    ghost use Rattle.std.specs.Prelude.{List};
    ghost use Rattle.rls_ident.specs.declared.tuple.Tuple.{Tuple};
    ghost use Rattle.rls_runs.specs.Runs.{idents_of, AreRuns};

    ghost Value = { List (List Tuple) };

    ghost view = { λ r. idents_of r.runs.items };

    ghost invariant = { λ r. AreRuns r.runs.items r.starts.items r.total };
}

/// Why a run can't be put after the others.
#[derive(Clone, Copy, Debug, PartialEq, Eq)]
pub enum PushError {
    /// Its first identifier isn't above the last one.
    NotAbove,
    /// Its first identifier has the base of the last one and the next offset.
    Touching,
    OutOfMemory,
}

impl Runs {
    /// The empty list. It takes no memory.
    pub fn new(alloc: Global) -> Runs
        ensures empty { result ≡ [] }
    {
        Runs {
            runs: Vec::new(alloc),
            starts: Vec::new(alloc),
            total: 0,
        }
    }

    /// The identifiers of one run. It takes memory for one run.
    pub fn from_run(alloc: Global, run: Run) -> Result<Runs, AllocError>
        ensures idents { IfOk result (λ runs. runs ≡ run_idents run.0 run.1) }
    {
        rely!(let _len = run.len());
        let mut runs = Runs {
            runs: Vec::with_capacity(alloc, 1)?,
            starts: Vec::with_capacity(alloc, 1)?,
            total: 0,
        };
        runs.put(run)?;
        Ok(runs)
    }

    /// Puts a run after the last identifier, which it doesn't touch.
    ///
    /// # Errors
    ///
    /// `NotAbove` exactly where the run's first identifier isn't above the last one, and `Touching`
    /// exactly where it is above and touches it. After an error the list is as it was, and the run
    /// is given up.
    pub fn push(&mut self, run: Run) -> Result<(), PushError>
        requires total { length self.old + run.1 < 2 ^ 64 }
        ensures ok { OnOk result (self.new ≡ self.old ++ run_idents run.0 run.1) }
        ensures not_above { IsErrOf result PushError.NotAbove ↔ IsFalse (is_above (last_ident self.old) run.0) }
        ensures touching { IsErrOf result PushError.Touching ↔ (IsTrue (is_above (last_ident self.old) run.0) × IsTrue (touches (last_ident self.old) run.0)) }
        ensures err { OnErr result (self.new ≡ self.old) }
    {
        if !self.is_above(run.first()) {
            return Err(PushError::NotAbove);
        }
        if self.touches(run.first()) {
            return Err(PushError::Touching);
        }
        self.put(run).map_err(|_| PushError::OutOfMemory)
    }

    /// Puts a run above the last identifier after it, and joins the two if they touch.
    pub fn append(&mut self, run: Run) -> Result<(), AllocError>
        requires above { IsTrue (is_above (last_ident self.old) run.0) }
        requires total { length self.old + run.1 < 2 ^ 64 }
        ensures ok { OnOk result (self.new ≡ self.old ++ run_idents run.0 run.1) }
        ensures err { OnErr result (self.new ≡ self.old) }
    {
        if self.touches(run.first()) {
            self.join(run);
            return Ok(());
        }
        self.put(run)
    }

    /// Whether an identifier is above the last one, where there is one. It takes no memory.
    pub fn is_above(&self, first: &Ident) -> bool
        ensures above { result ≡ is_above (last_ident self.now) first.now }
    {
        match self.runs.last() {
            None => true,
            Some(last) => last.ends_below(first),
        }
    }

    /// Whether an identifier has the base of the last one and the next offset. It takes no memory.
    pub fn touches(&self, first: &Ident) -> bool
        ensures touches { result ≡ touches (last_ident self.now) first.now }
    {
        match self.runs.last() {
            None => false,
            Some(last) => last.touches(first),
        }
    }

    /// The place of an identifier, or where it isn't there the number of identifiers less than it.
    /// It takes no memory, and costs a comparison of identifiers for each halving of the runs.
    pub fn find(&self, id: &Ident) -> Result<u64, u64>
        ensures place { result ≡ place_of id.now self.now }
        ensures find { result ≡ find_ident self.now id.now }
        ensures there { IfOk result (λ i. slice_get self.now i ≡ Some id.now) }
    {
        rely!(let _total = self.total);
        let behind = runs_up_to(&self.runs, id);
        if behind == 0 {
            return Err(0);
        }
        let start = self.starts[behind - 1];
        match self.runs[behind - 1].find(id) {
            Ok(place) => Ok(start + place as u64),
            Err(below) => Err(start + below as u64),
        }
    }

    /// How many of the identifiers are below this one. It takes no memory, and costs what `find` does.
    pub fn count_below(&self, id: &Ident) -> u64
        ensures count { result ≡ below_count self.now id.now }
        ensures within { result ≤ length self.now }
    {
        match self.find(id) {
            Ok(count) | Err(count) => count,
        }
    }

    /// The identifier at a place. It costs a comparison of numbers for each halving of the runs.
    pub fn get(&self, i: u64) -> Result<Ident, AllocError>
        requires place { i < length self.now }
        ensures found { IfOk result (λ id. slice_get self.now i ≡ Some id) }
    {
        let (run, place) = self.locate(i);
        run.first().shifted(place)
    }

    /// The maximal run that holds a place, and the place in it. It takes no memory, and costs a
    /// comparison of numbers for each halving of the runs.
    pub fn locate(&self, i: u64) -> (&Run, u32)
        requires place { i < length self.now }
        ensures run { Contains (runs_of self.now) result.0.now }
        ensures within { result.1 < result.0.now.1 }
        ensures idents { (k : ℕ) → result.1 + k < result.0.now.1 → slice_get self.now (i + k) ≡ Some (shifted (pos (result.1 + k)) result.0.now.0) }
        ensures rest { first_len (runs_of (drop i self.now)) ≡ result.0.now.1 - result.1 }
    {
        let k = run_at(&self.starts, i);
        (&self.runs[k], (i - self.starts[k]) as u32)
    }

    /// How many identifiers from a place on are those of another list from a place on, up to where a
    /// maximal run of either ends. At these places both have the same one. It takes no memory, and
    /// costs what `locate` does in both.
    pub fn count_common(&self, i: u64, others: &Runs, j: u64) -> u64
        requires place { i < length self.now }
        requires other_place { j < length others.now }
        requires same { slice_get self.now i ≡ slice_get others.now j }
        ensures common { result ≡ common_len (drop i self.now) (drop j others.now) }
        ensures some { 0 < result }
        ensures within { i + result ≤ length self.now }
        ensures other_within { j + result ≤ length others.now }
        ensures same { (k : ℕ) → k < result → slice_get self.now (i + k) ≡ slice_get others.now (j + k) }
    {
        rely!(let (_total, _others) = (self.total(), others.total()));
        let (run, start) = self.locate(i);
        let (other, from) = others.locate(j);
        (run.len() - start).min(other.len() - from) as u64
    }

    /// The number of identifiers.
    pub fn total(&self) -> u64
        ensures total { result ≡ length self.now }
        ensures idents { AreIdents self.now }
    {
        self.total
    }

    /// The number of maximal runs.
    #[tactic(auto, using(crate::proofs::RunsOf::runs_of_idents))]
    pub fn run_count(&self) -> u64
        ensures count { result ≡ length (runs_of self.now) }
    {
        self.runs.len() as u64
    }

    /// The maximal run at a place.
    #[tactic(auto, using(crate::proofs::RunsOf::runs_of_idents))]
    pub fn run(&self, i: u64) -> &Run
        requires place { i < length (runs_of self.now) }
        ensures run { slice_get (runs_of self.now) i ≡ Some result.now }
    {
        &self.runs[i as usize]
    }

    /// The maximal runs.
    #[tactic(auto, using(crate::proofs::RunsOf::runs_of_idents))]
    pub fn as_slice(&self) -> &[Run]
        ensures runs { result.now ≡ runs_of self.now }
    {
        &self.runs
    }

    /// The same again.
    pub fn copy(&self) -> Result<Runs, AllocError>
        ensures copy { IfOk result (λ runs. runs ≡ self.now) }
    {
        Ok(Runs {
            runs: copy_runs(*self.runs.allocator(), &self.runs)?,
            starts: Vec::from_slice(*self.starts.allocator(), &self.starts)?,
            total: self.total,
        })
    }

    // One more maximal run.
    fn put(&mut self, run: Run) -> Result<(), AllocError>
        requires above { IsTrue (is_above (last_ident self.old) run.0) }
        requires apart { IsFalse (touches (last_ident self.old) run.0) }
        requires total { length self.old + run.1 < 2 ^ 64 }
        ensures ok { OnOk result (self.new ≡ self.old ++ run_idents run.0 run.1) }
        ensures err { OnErr result (self.new ≡ self.old) }
    {
        let len = run.len() as u64;
        self.starts.reserve(1)?;
        self.runs.push(run)?;
        self.starts.push(self.total).unwrap();
        self.total += len;
        Ok(())
    }

    // A longer last run.
    fn join(&mut self, run: Run)
        requires touches { IsTrue (touches (last_ident self.old) run.0) }
        requires total { length self.old + run.1 < 2 ^ 64 }
        ensures joined { self.new ≡ self.old ++ run_idents run.0 run.1 }
    {
        let last = self.runs.len() - 1;
        self.runs[last].grow(run.len());
        self.total += run.len() as u64;
    }
}

fn copy_runs(alloc: Global, runs: &[Run]) -> Result<Vec<Run>, AllocError>
    ensures copy { IfOk result (λ copy. copy.items ≡ runs.now) }
{
    let mut copy = Vec::with_capacity(alloc, runs.len())?;
    for run in runs {
        copy.push(run.copy()?)?;
    }
    Ok(copy)
}

// How many of the runs begin at an identifier or below it.
fn runs_up_to(runs: &[Run], id: &Ident) -> usize
    ensures within { result ≤ length runs.now }
    ensures below { (r : List Tuple × ℕ) → 0 < result → slice_get runs.now (result - 1) ≡ Some r → IsFalse (ident_lt id.now r.0) }
    ensures above { (r : List Tuple × ℕ) → slice_get runs.now result ≡ Some r → IsTrue (ident_lt id.now r.0) }
{
    let (mut low, mut high) = (0, runs.len());
    while low < high {
        let middle = low + (high - low) / 2;
        match id.compare(runs[middle].first()) {
            Ordering::Less => high = middle,
            _ => low = middle + 1,
        }
    }
    low
}

// The last of these increasing numbers that is at most i, as the first is.
fn run_at(starts: &[u64], i: u64) -> usize
    requires some { 0 < length starts.now }
    requires first { slice_index starts.now 0 ≤ i }
    ensures within { result < length starts.now }
    ensures below { slice_index starts.now result ≤ i }
    ensures above { result + 1 < length starts.now → i < slice_index starts.now (result + 1) }
{
    let (mut low, mut high) = (0, starts.len());
    while low + 1 < high {
        let middle = low + (high - low) / 2;
        if starts[middle] <= i {
            low = middle;
        } else {
            high = middle;
        }
    }
    low
}
