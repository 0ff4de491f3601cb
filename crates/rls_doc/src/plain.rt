//! A document that is one sorted vector.

ghost use Rattle.std.specs.Prelude.{◌≡◌, ℕ, ◌+◌, ◌<◌, ◌≤◌, ◌^◌, ◌++◌, ◌∷◌, [], List, length, take, drop, zip, slice_get, Some, IfOk, OnOk, OnErr, IsTrue, if◌then◌else◌};
ghost use Rattle.rls_ident.specs.declared.tuple.Tuple.{Tuple};
ghost use Rattle.std.specs.List.{list_all};
ghost use Rattle.std.specs.List.Sorted.{IsPermutation, IsSortedBy};
ghost use Rattle.rls_ident.specs.Identifiers.{is_ident, ident_lt};
ghost use Rattle.rls_runs.specs.Runs.{run_idents, runs_of, idents_of, is_increasing, place_of};
ghost use Rattle.rls_runs.specs.Entries.{Entries, idents_in, chars_in, put_all, has_ident, without_all, with_idents};
ghost use Rattle.rls_doc.specs.Documents.{AreNew};

use crate::document::{Document, RunMap};
use rls_ident::{Ident, rely};
use rls_runs::{Run, RunList, Runs, Text};
use std::alloc::{AllocError, Global};
use std::cmp::Ordering;
use std::marker::Model;

/// The plain document: all characters with their identifiers in one vector, in the order of the
/// identifiers. A look-up costs a comparison of identifiers for each halving of the characters,
/// and a change costs at least one pass over them all.
#[derive(Drop)]
pub struct VecDocument {
    entries: Vec<(Ident, char)>,
}

impl Model for VecDocument {
    ghost use Rattle.std.specs.Prelude.{IsTrue};
    ghost use Rattle.rls_runs.specs.Runs.{is_increasing};
    ghost use Rattle.rls_runs.specs.Entries.{Entries, idents_in};

    ghost Value = { Entries };

    ghost view = { λ d. d.entries.items };

    ghost invariant = { λ d. IsTrue (is_increasing (idents_in d.entries.items)) };
}

impl VecDocument {
    /// The empty document. It takes no memory.
    pub fn new(alloc: Global) -> VecDocument
        ensures empty { result ≡ [] }
    {
        VecDocument {
            entries: Vec::new(alloc),
        }
    }
}

impl Document for VecDocument {
    ghost entries = { λ d. d };

    fn rises(&self) {
        rely!(let _entries = &self.entries);
    }

    fn total(&self) -> u64 {
        self.entries.len() as u64
    }

    /// It costs a pass over the characters, and takes no memory.
    fn run_count(&self) -> u64 {
        count_runs(&self.entries)
    }

    fn char_at(&self, i: u64) -> char {
        self.entries[i as usize].1
    }

    fn ident_at(&self, i: u64) -> Result<Ident, AllocError> {
        self.entries[i as usize].0.copy()
    }

    fn find(&self, id: &Ident) -> Result<u64, u64> {
        place(&self.entries, id)
    }

    /// It costs a pass over the added characters where they all stand after the last one, and a
    /// sort of all characters else.
    fn insert_runs(&mut self, runs: &RunList, text: &Text) -> Result<(), AllocError> {
        let mut added = added_entries(*self.entries.allocator(), runs.as_slice(), text)?;
        let behind = are_behind(&self.entries, &added);
        self.entries.append(&mut added)?;
        if !behind {
            sort(&mut self.entries);
        }
        Ok(())
    }

    /// It costs a look-up among the targets for each character, and takes no memory.
    fn remove_all(&mut self, targets: &Runs) -> Result<u64, AllocError> {
        let before = self.entries.len() as u64;
        self.entries.retain(|entry| !is_target(targets, &entry.0));
        Ok(before - self.entries.len() as u64)
    }

    /// It costs a pass over these characters.
    fn runs_of(&self, from: u64, count: u64) -> Result<Runs, AllocError> {
        let (_, rest) = self.entries.as_slice().split_at(from as usize);
        let (part, _) = rest.split_at(count as usize);
        runs_among(*self.entries.allocator(), part)
    }

    fn text(&self) -> Result<Text, AllocError> {
        text_of(*self.entries.allocator(), &self.entries)
    }

    /// It maps each identifier alone.
    fn map_runs<F: RunMap>(&mut self, map: &F) -> Result<(), AllocError> {
        self.entries = mapped_entries(*self.entries.allocator(), map, &self.entries)?;
        Ok(())
    }
}

// The place of an identifier among these.
fn place(entries: &[(Ident, char)], id: &Ident) -> Result<u64, u64>
    requires rises { IsTrue (is_increasing (idents_in entries.now)) }
    ensures place { result ≡ place_of id.now (idents_in entries.now) }
{
    let (mut low, mut high) = (0, entries.len());
    while low < high {
        let middle = low + (high - low) / 2;
        match entries[middle].0.compare(id) {
            Ordering::Less => low = middle + 1,
            Ordering::Equal => return Ok(middle as u64),
            Ordering::Greater => high = middle,
        }
    }
    Err(low as u64)
}

fn is_target(targets: &Runs, id: &Ident) -> bool
    ensures target { result ≡ has_ident targets.now id.now }
{
    targets.find(id).is_ok()
}

// The number of maximal runs.
fn count_runs(entries: &[(Ident, char)]) -> u64
    ensures runs { result ≡ length (runs_of (idents_in entries.now)) }
{
    let mut count = 0;
    for i in 0..entries.len() {
        if ends_run(entries, i) {
            count += 1;
        }
    }
    count
}

// Whether the next entry, if there is one, doesn't go on with the run of this one.
fn ends_run(entries: &[(Ident, char)], i: usize) -> bool
    requires place { i < length entries.now }
    ensures ends { length (runs_of (idents_in (drop i entries.now))) ≡ (if result then 1 else 0) + length (runs_of (idents_in (drop (i + 1) entries.now))) }
{
    match entries.get(i + 1) {
        None => true,
        Some((next, _)) => !next.follows(&entries[i].0),
    }
}

// The run of one identifier.
fn single(id: &Ident) -> Result<Run, AllocError>
    ensures single { IfOk result (λ run. run ≡ (id.now, 1)) }
{
    rely!(let _last = id.last());
    match Run::new(id.copy()?, 1) {
        Ok(run) => Ok(run),
        Err(_) => unreachable!(),
    }
}

fn runs_among(alloc: Global, entries: &[(Ident, char)]) -> Result<Runs, AllocError>
    requires rises { IsTrue (is_increasing (idents_in entries.now)) }
    ensures runs { IfOk result (λ runs. runs ≡ idents_in entries.now) }
{
    let mut runs = Runs::new(alloc);
    for (id, _) in entries {
        runs.append(single(id)?)?;
    }
    Ok(runs)
}

fn text_of(alloc: Global, entries: &[(Ident, char)]) -> Result<Text, AllocError>
    ensures text { IfOk result (λ text. text ≡ chars_in entries.now) }
{
    let mut text = Text::new(alloc);
    for (_, c) in entries {
        text.push(*c)?;
    }
    Ok(text)
}

// The characters of a text, each with an identifier of the runs.
fn added_entries(alloc: Global, runs: &[Run], text: &Text) -> Result<Vec<(Ident, char)>, AllocError>
    requires as_many { length (idents_of runs.now) ≡ length text.now }
    ensures zipped { IfOk result (λ added. added.items ≡ zip (idents_of runs.now) text.now) }
{
    let mut added = Vec::with_capacity(alloc, text.len())?;
    for run in runs {
        push_run(&mut added, run, text)?;
    }
    Ok(added)
}

// Adds the next characters of the text with the identifiers of the run.
fn push_run(added: &mut Vec<(Ident, char)>, run: &Run, text: &Text) -> Result<(), AllocError>
    requires fits { length added.old.items + run.now.1 ≤ length text.now }
    ensures pushed { OnOk result (added.new.items ≡ added.old.items ++ zip (run_idents run.now.0 run.now.1) (drop (length added.old.items) text.now)) }
{
    for k in 0..run.len() {
        let id = run.first().shifted(k)?;
        let c = text.get(added.len());
        added.push((id, c))?;
    }
    Ok(())
}

// Whether the first of the added entries is above the last entry.
fn are_behind(entries: &[(Ident, char)], added: &[(Ident, char)]) -> bool
    requires rises { IsTrue (is_increasing (idents_in entries.now)) }
    requires added { IsTrue (is_increasing (idents_in added.now)) }
    ensures behind { IsTrue result → IsTrue (is_increasing (idents_in (entries.now ++ added.now))) }
{
    match (entries.last(), added.first()) {
        (Some(last), Some(first)) => match last.0.compare(&first.0) {
            Ordering::Less => true,
            _ => false,
        },
        _ => true,
    }
}

// Sorts entries by their identifiers, in place.
fn sort(entries: &mut Vec<(Ident, char)>)
    ensures sorted { IsSortedBy (λ x y. ident_lt x.0 y.0) entries.new.items }
    ensures permutation { IsPermutation entries.old.items entries.new.items }
{
    entries.sort_unstable_by(|x, y| x.0.compare(&y.0));
}

// The same entries with the identifiers that take the place of theirs.
fn mapped_entries<F: RunMap>(
    alloc: Global,
    map: &F,
    entries: &[(Ident, char)],
) -> Result<Vec<(Ident, char)>, AllocError>
    ensures mapped { IfOk result (λ mapped. mapped.items ≡ with_idents (F.image map.now) entries.now) }
    ensures idents { OnOk result (IsTrue (list_all is_ident (idents_in entries.now))) }
{
    let mut mapped = Vec::with_capacity(alloc, entries.len())?;
    for (id, c) in entries {
        mapped.push((image_of(alloc, map, id)?, *c))?;
    }
    Ok(mapped)
}

// The identifier that takes the place of this one.
fn image_of<F: RunMap>(alloc: Global, map: &F, id: &Ident) -> Result<Ident, AllocError>
    ensures image { IfOk result (λ image. image ≡ F.image map.now id.now) }
    ensures ident { IsTrue (is_ident id.now) }
{
    rely!(let _last = id.last());
    let runs = map.map(alloc, &single(id)?)?;
    runs.get(0).first().copy()
}
