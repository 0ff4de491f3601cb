//! Names of characters: identifiers with their labels, which are looked up by either.
//! Why: docs/DECISIONS.md, 77.

ghost use Rattle.std.specs.Prelude.{◌≡◌, ◌<◌, ◌≤◌, ◌+◌, ◌-◌, ◌++◌, ◌∷◌, [], ℕ, List, length, take, reverse, slice_get, slice_index, Some, None, IfOk, IfSome, OnOk, OnErr, IsTrue, IsFalse, pos, ◌^◌};
ghost use Rattle.rls_ident.specs.declared.tuple.Tuple.{Tuple};
ghost use Rattle.rls_ident.specs.Identifiers.{shifted};
ghost use Rattle.rls_steps.specs.Labelled.{label_of};
ghost use Rattle.rls_steps.specs.NameRuns.{AreKept, AreLabels, AreSound, name_at, names_in, names_of, named, starts_of, run_in, run_of};
ghost use Rattle.rls_steps.specs.Index.{AreApart, newest_at, tail_at};
ghost use Rattle.rls_steps.specs.Bounds.{AreBounded, IsLatest, IsMore};
ghost use Rattle.rls_steps.specs.Intervals.{IsBetween};
ghost use Rattle.rls_steps.specs.Rows.{IsRow};
ghost use Rattle.rls_ident.specs.Lists.{IsIn};
ghost use Rattle.rls_steps.specs.declared.key.Key as keys;

use crate::bound::Bounds;
use crate::height::Height;
use crate::interval::{Interval, Intervals, interval_in, push_interval};
use crate::key::Key;
use crate::latest::newest_in;
use crate::lookup::{free_at, is_free, label_at, labels_at};
use crate::name_row::{NameRow, row_from};
use crate::name_run::NameRun;
use crate::places::{LabelsAhead, latest_at, name_in, rest_at, run_at};
use rls_ident::{Ident, rely};
use std::alloc::{AllocError, Global};
use std::collections::BTreeMap;
use std::marker::Model;

/// Identifiers with their labels, the oldest first. An identifier is there once, and a label as often as its character came back. They are
/// kept as runs of names that follow one another.
#[derive(Drop)]
pub(crate) struct Names {
    runs: Vec<NameRun>,
    // How many names are before each run.
    starts: Vec<usize>,
    // The run that begins with an identifier.
    firsts: BTreeMap<Key, usize>,
    // Which runs may have names of a label.
    bounds: Bounds,
    // Between which identifiers the names lie that the labels of each run had before.
    intervals: Intervals,
    // How many names there are.
    len: usize,
    // How far their identifiers go, at most.
    height: Height,
}

impl Model for Names {
    ghost use Rattle.std.specs.Prelude.{List, ℕ};
    ghost use Rattle.rls_steps.specs.Labelled.{Names};
    ghost use Rattle.rls_steps.specs.NameRuns.{named};
    ghost use Rattle.rls_steps.specs.Indexed.{IsIndexed};

    ghost Value = { Names };

    ghost view = { λ n. named n.runs.items };

    ghost invariant = { λ n. IsIndexed n.runs.items n.starts.items n.firsts.entries n.bounds n.intervals.items n.len n.height };
}

impl Names {
    // No names. It takes no memory.
    pub(crate) fn new(alloc: Global) -> Names
        ensures none { result ≡ [] }
    {
        Names {
            runs: Vec::new(alloc),
            starts: Vec::new(alloc),
            firsts: BTreeMap::new(alloc),
            bounds: Bounds::new(alloc),
            intervals: Vec::new(alloc),
            len: 0,
            height: Height::least(),
        }
    }

    // The allocator that they were made with.
    pub(crate) fn alloc(&self) -> Global {
        *self.runs.allocator()
    }

    // How many there are.
    pub(crate) fn len(&self) -> usize
        ensures len { result ≡ length self.now }
    {
        self.len
    }

    // An identifier is there once.
    pub(crate) fn apart(&self)
        ensures apart { AreApart (reverse self.now) }
    {
        rely!(let _runs = &self.runs);
    }

    // The label of an identifier, if it has one. It costs two searches among the runs, but where it is in the newest
    // one, or no name goes as far.
    pub(crate) fn label_of(&self, key: &Key) -> Option<u64>
        ensures label { result ≡ label_of (reverse self.now) key.now.ident }
    {
        if self.is_over(&key.ident) {
            return None;
        }
        label_at(&self.runs, &self.firsts, key)
    }

    // The label of an identifier, if it has one, and how many there are of it and the next ones, of at most so many, with labels that rise,
    // as far as one run of names tells. It costs what `label_of` does.
    pub(crate) fn labels_from(&self, key: &Key, most: u32) -> Option<(u64, u32)>
        requires some { 0 < most }
        ensures some { IfSome result (λ p. 0 < p.1) }
        ensures most { IfSome result (λ p. p.1 ≤ most) }
        ensures room { IfSome result (λ p. p.0 + p.1 ≤ 2 ^ 64) }
        ensures labels { AreLabels (reverse self.now) key.now.ident result }
    {
        if self.is_over(&key.ident) {
            return None;
        }
        labels_at(&self.runs, &self.firsts, key, most)
    }

    // Whether an identifier goes further than all names, so that it has no label.
    fn is_over(&self, ident: &Ident) -> bool
        ensures none { IsTrue result → label_of (reverse self.now) ident.now ≡ None }
    {
        self.height.is_under(Height::of(ident.last()))
    }

    // How many identifiers of so many, from one on that has no label, have none. It costs a search among the runs.
    pub(crate) fn free_from(&self, key: &Key, most: u32) -> Result<u32, AllocError>
        requires none { label_of (reverse self.now) key.now.ident ≡ None }
        requires some { 0 < most }
        ensures some { IfOk result (λ n. 0 < n) }
        ensures most { IfOk result (λ n. n ≤ most) }
        ensures free { IfOk result (λ n. (k : ℕ) → k < n → label_of (reverse self.now) (shifted (pos k) key.now.ident) ≡ None) }
    {
        free_at(&self.runs, &self.firsts, key, most)
    }

    // The place of a label's newest name, if it has one. It costs a search.
    pub(crate) fn newest(&self, label: u64) -> Option<usize>
        ensures newest { result ≡ newest_at (reverse self.now) label }
    {
        rely!(let _len = self.len());
        let count = self.bounds.count_at(label, self.runs.len());
        newest_in(&self.runs, &self.starts, count, label)
    }

    // The name at a place. It costs a search among the runs.
    pub(crate) fn name(&self, i: usize) -> Result<(Ident, u64), AllocError>
        requires place { i < length self.now }
        ensures name { IfOk result (λ n. slice_get self.now i ≡ Some n) }
        ensures tail { IfOk result (λ m. (n : List Tuple × ℕ) (ns : List (List Tuple × ℕ)) → tail_at (reverse self.now) i ≡ n ∷ ns → m ≡ n) }
    {
        name_in(&self.runs, &self.starts, i)
    }

    // The place of the name that the label of the name at a place had before.
    pub(crate) fn older(&self, i: usize) -> Option<usize>
        requires place { i < length self.now }
        ensures older { (n : List Tuple × ℕ) (ns : List (List Tuple × ℕ)) → tail_at (reverse self.now) i ≡ n ∷ ns → result ≡ newest_at ns n.1 }
    {
        rely!(let _len = self.len());
        let run = run_at(&self.starts, i);
        let label = self.runs[run].label(i - self.starts[run]);
        let count = self.bounds.count_before(run);
        newest_in(&self.runs, &self.starts, count, label)
    }

    // The interval in which all names lie that the label of the name at a place had before, if that is known. It costs a search.
    pub(crate) fn interval_before(&self, i: usize) -> Option<&Interval>
        requires place { i < length self.now }
        ensures between { IfSome result (λ v. (n m : List Tuple × ℕ) (ms : List (List Tuple × ℕ)) → tail_at (reverse self.now) i ≡ n ∷ ms → IsIn m ms → m.1 ≡ n.1 → IsBetween v.now m.0) }
    {
        rely!(let _len = self.len());
        let run = run_at(&self.starts, i);
        match &self.intervals[run] {
            None => None,
            Some(interval) => Some(&**interval),
        }
    }

    // The newest names of a label and of the next ones, of at most so many, as far as they are seen at once. It costs a few searches.
    pub(crate) fn row_from(&self, label: u64, most: u32) -> Result<Option<NameRow>, AllocError>
        requires some { 0 < most }
        ensures row { IfOk result (λ o. IfSome o (λ r. IsRow self.now label r)) }
        ensures most { IfOk result (λ o. IfSome o (λ r. r.run.1 ≤ most)) }
    {
        let row = row_from(&self.runs, &self.bounds, &self.intervals, label, most)?;
        Ok(row)
    }

    // How many names there are of the run at a place from there on, and between which labels theirs are. It costs a search among the runs.
    pub(crate) fn rest_of_run(&self, i: usize) -> LabelsAhead
        requires place { i < length self.now }
        ensures some { 0 < result.count }
        ensures within { i + result.count ≤ length self.now }
        ensures labels { (j : ℕ) (n : List Tuple × ℕ) → j < result.count → slice_get self.now (i + j) ≡ Some n → (result.low ≤ n.1) × (n.1 ≤ result.high) }
    {
        rest_at(&self.runs, &self.starts, i)
    }

    // The names of a run, if it begins at this place and each of them is the newest of its label. It costs a few searches.
    pub(crate) fn latest_run(&self, i: usize) -> Result<Option<NameRun>, AllocError>
        requires place { i < length self.now }
        ensures run { IfOk result (λ o. IfSome o (λ r. IsLatest self.now i r)) }
    {
        let run = latest_at(&self.runs, &self.starts, &self.bounds, i)?;
        Ok(run)
    }

    // One more name. An identifier that is there already answers as if there was no memory: no replica makes one twice. One that goes
    // further than all names isn't looked up, and is copied only if the last run doesn't go on with it.
    pub(crate) fn push(&mut self, ident: &Ident, label: u64) -> Result<(), AllocError>
        ensures names { OnOk result (self.new ≡ self.old ++ (ident.now, label) ∷ []) }
        ensures stay { OnErr result (self.new ≡ self.old) }
    {
        if self.is_over(ident) {
            return self.add(ident, label);
        }
        let key = Key {
            ident: ident.copy()?,
        };
        match self.label_of(&key) {
            Some(_) => Err(AllocError),
            None => self.add(ident, label),
        }
    }

    // The same of an identifier that isn't there.
    fn add(&mut self, ident: &Ident, label: u64) -> Result<(), AllocError>
        requires fresh { label_of (reverse self.old) ident.now ≡ None }
        ensures names { OnOk result (self.new ≡ self.old ++ (ident.now, label) ∷ []) }
        ensures stay { OnErr result (self.new ≡ self.old) }
    {
        if self.extend(ident, label) {
            return Ok(());
        }
        let _rest = self.add_front(NameRun::of(ident.copy()?, label))?;
        Ok(())
    }

    // The same, if the last run goes on with it and no name has its label or a greater one. It takes no memory.
    fn extend(&mut self, ident: &Ident, label: u64) -> bool
        requires fresh { label_of (reverse self.old) ident.now ≡ None }
        ensures names { IsTrue result → self.new ≡ self.old ++ (ident.now, label) ∷ [] }
        ensures stay { IsFalse result → self.new ≡ self.old }
    {
        let Some(len) = self.len.checked_add(1) else {
            return false;
        };
        if !self.bounds.is_open(label, self.runs.len()) {
            return false;
        }
        if !extend_last(&mut self.runs, ident, label) {
            return false;
        }
        self.bounds.above = label + 1;
        self.len = len;
        self.height = self.height.max(Height::of(ident.last()));
        true
    }

    // The names of a run. An identifier that is there already answers as if there was no memory, as in `push`. It costs a few searches
    // for each run that had some of its labels before.
    pub(crate) fn push_run(&mut self, run: NameRun) -> Result<(), AllocError>
        ensures names { OnOk result (self.new ≡ self.old ++ names_of run) }
        ensures stay { OnErr result (self.new ≡ self.old) }
    {
        if run.len() == 1 {
            let label = run.label(0);
            self.push(&run.into_first(), label)?;
            return Ok(());
        }
        let count = self.len();
        match self.push_fronts(run) {
            Ok(()) => Ok(()),
            Err(_) => {
                self.truncate(count);
                Err(AllocError)
            }
        }
    }

    // The same. After an error the first names may be there.
    fn push_fronts(&mut self, run: NameRun) -> Result<(), AllocError>
        ensures names { OnOk result (self.new ≡ self.old ++ names_of run) }
        ensures front { take (length self.old) self.new ≡ self.old }
    {
        let mut rest = Some(run);
        'fronts: while let Some(run) = rest {
            rest = self.push_front(run)?;
        }
        Ok(())
    }

    // The first names of a run: as many as have labels of which the same runs may have had names before. Answers the others.
    fn push_front(&mut self, run: NameRun) -> Result<Option<NameRun>, AllocError>
        ensures names { IfOk result (λ rest. self.old ++ names_of run ≡ self.new ++ names_in rest) }
        ensures front { take (length self.old) self.new ≡ self.old }
        ensures fewer { IfOk result (λ rest. length (names_in rest) < run.len) }
    {
        if !self.is_free(&run)? {
            return Err(AllocError);
        }
        self.add_front(run)
    }

    // Whether no identifier of a run is there. It costs a few searches, but where no name goes as far.
    fn is_free(&self, run: &NameRun) -> Result<bool, AllocError>
        ensures free { IfOk result (λ free. IsTrue free → (k : ℕ) → k < run.now.len → label_of (reverse self.now) (name_at run.now k).0 ≡ None) }
    {
        if run.is_over(self.height) {
            return Ok(true);
        }
        let low = Key {
            ident: run.least()?,
        };
        let free = is_free(&self.runs, &self.firsts, &low, run.len() as u32)?;
        Ok(free)
    }

    // The same of a run of which no identifier is there.
    fn add_front(&mut self, run: NameRun) -> Result<Option<NameRun>, AllocError>
        requires fresh { (k : ℕ) → k < run.len → label_of (reverse self.old) (name_at run k).0 ≡ None }
        ensures names { IfOk result (λ rest. self.old ++ names_of run ≡ self.new ++ names_in rest) }
        ensures stay { OnErr result (self.new ≡ self.old) }
        ensures front { take (length self.old) self.new ≡ self.old }
        ensures fewer { IfOk result (λ rest. length (names_in rest) < run.len) }
    {
        let span = self.bounds.span_at(run.label(0));
        let count = run.fitting(span.low, span.high);
        let (front, rest) = run.cut(count)?;
        let (low, high) = front.labels();
        let Some(len) = self.len.checked_add(front.len()) else {
            return Err(AllocError);
        };
        let height = self.height.max(front.height());
        let runs = self.runs.len();
        let interval = interval_in(
            &self.runs,
            &self.bounds,
            &self.intervals,
            span.count,
            low,
            high,
        )?;
        push_interval(&mut self.intervals, runs, interval)?;
        self.bounds.put(runs, span, low, high)?;
        put_run(
            &mut self.runs,
            &mut self.starts,
            &mut self.firsts,
            front,
            self.len,
        )?;
        self.len = len;
        self.height = height;
        Ok(rest)
    }

    // Without the last name. It takes no memory.
    fn pop(&mut self)
        ensures names { self.new ≡ take (length self.old - 1) self.old }
    {
        if self.len == 0 {
            return;
        }
        drop_last(&mut self.runs, &mut self.starts, &mut self.firsts);
        self.len -= 1;
    }

    // Only the first ones, so many. It takes no memory.
    pub(crate) fn truncate(&mut self, count: usize)
        ensures names { self.new ≡ take count self.old }
    {
        'names: while self.len() > count {
            self.pop();
        }
    }
}

// One more run of names. After an error all is as before.
fn put_run(
    runs: &mut Vec<NameRun>,
    starts: &mut Vec<usize>,
    firsts: &mut BTreeMap<Key, usize>,
    run: NameRun,
    place: usize,
) -> Result<(), AllocError>
    requires place { place ≡ length (named runs.old.items) }
    ensures names { OnOk result (named runs.new.items ≡ named runs.old.items ++ names_of run) }
    ensures kept { OnOk result (AreKept runs.old.items starts.old.items firsts.old.entries → AreKept runs.new.items starts.new.items firsts.new.entries) }
    ensures more { OnOk result (runs.new.items ≡ runs.old.items ++ run ∷ []) }
    ensures runs_stay { OnErr result (runs.new.items ≡ runs.old.items) }
    ensures starts_stay { OnErr result (starts.new.items ≡ starts.old.items) }
    ensures firsts_stay { OnErr result (firsts.new.entries ≡ firsts.old.entries) }
{
    let number = runs.len();
    let key = Key {
        ident: run.first()?,
    };
    runs.reserve(1)?;
    starts.reserve(1)?;
    firsts.insert(key, number)?;
    runs.push(run).unwrap();
    starts.push(place).unwrap();
    Ok(())
}

// One more name in the last run, if it goes on from there.
fn extend_last(runs: &mut Vec<NameRun>, ident: &Ident, label: u64) -> bool
    ensures names { IsTrue result → named runs.new.items ≡ named runs.old.items ++ (ident.now, label) ∷ [] }
    ensures kept { IsTrue result → (starts : List ℕ) (firsts : List (keys.Key × ℕ)) → AreKept runs.old.items starts firsts → AreKept runs.new.items starts firsts }
    ensures more { IsTrue result → IsMore runs.old.items runs.new.items ((ident.now, label) ∷ []) }
    ensures count { length runs.new.items ≡ length runs.old.items }
    ensures stays { IsFalse result → runs.new.items ≡ runs.old.items }
{
    let n = runs.len();
    if n == 0 {
        return false;
    }
    runs[n - 1].take(ident, label)
}

// Without the last name. It takes no memory.
fn drop_last(runs: &mut Vec<NameRun>, starts: &mut Vec<usize>, firsts: &mut BTreeMap<Key, usize>)
    requires some { 0 < length runs.old.items }
    ensures names { (n : List Tuple × ℕ) × (named runs.old.items ≡ named runs.new.items ++ n ∷ []) }
    ensures fewer { IsMore runs.old.items runs.new.items [] }
    ensures count { length runs.new.items ≤ length runs.old.items }
    ensures kept { AreApart (reverse (named runs.old.items)) → AreKept runs.old.items starts.old.items firsts.old.entries → AreKept runs.new.items starts.new.items firsts.new.entries }
{
    let last = runs.len() - 1;
    if runs[last].len() > 1 {
        runs[last].shorten();
        return;
    }
    let Some(run) = runs.pop() else {
        unreachable!()
    };
    starts.truncate(last);
    let key = Key {
        ident: run.into_first(),
    };
    let _run = firsts.remove(&key);
}
