//! How entries are kept. What somebody types leaves many entries whose identifiers differ in nothing but the last offset. So each tells this
//! offset alone, and the place of a base, which is an epoch and one of these identifiers.

ghost use Rattle.std.specs.Prelude.{◌≡◌, ◌≢◌, ◌+◌, ◌-◌, ◌<◌, ◌≤◌, ◌∷◌, ◌++◌, [], List, ℕ, ◌↔◌, pos, length, map, take, drop, slice_get, Some, true, IfOk, IfSome, OnOk, OnErr};
ghost use Rattle.rls_ident.specs.declared.tuple.Tuple.{Tuple};
ghost use Rattle.rls_ident.specs.declared.epoch_name.EpochName.{EpochName};
ghost use Rattle.rls_runs.specs.Runs.{run_idents};
ghost use Rattle.rls_undo.specs.declared.entry.Entry.{Entry};
ghost use Rattle.rls_undo.specs.declared.entry.Entry.TheVariants.{Inserted, Removed};
ghost use Rattle.rls_undo.specs.Plans.{epoch_in};
ghost use Rattle.rls_undo.specs.Undoing.{last_entries, without_last};
ghost use Rattle.rls_undo.specs.UndoLaws.{HasIdents};
ghost use Rattle.rls_undo.specs.Keeping.{bases_for, entry_of, last_bases, IsInRange};

use crate::base::{Base, put_base};
use crate::entry::Entry;
use rls_ident::{EpochName, Ident, rely};
use rls_runs::{Run, Runs, Text};
use std::alloc::{AllocError, Global};
use std::marker::Model;

// An entry. Its identifiers are told by a base at this place and by the last offset of the first of them.
#[derive(Drop)]
enum Kept {
    Inserted {
        base: u32,
        offset: i32,
        len: u32,
    },
    Removed {
        base: u32,
        offset: i32,
        text: Box<Text>,
    },
    // An insertion whose identifiers aren't one run, as after a rename. There were so many bases when it came.
    Scattered {
        bases: u32,
        ids: Box<Scattered>,
    },
}

// Identifiers of an epoch.
#[derive(Drop)]
struct Scattered {
    epoch: EpochName,
    ids: Runs,
}

/// Entries, seen as their list.
#[derive(Drop)]
pub(crate) struct KeptEntries {
    entries: Vec<Kept>,
    // In the order in which the entries need them.
    bases: Vec<Base>,
}

impl Model for KeptEntries {
    ghost use Rattle.std.specs.Prelude.{List, map, length};
    ghost use Rattle.rls_undo.specs.declared.entry.Entry.{Entry};

    ghost Value = { List Entry };

    ghost use Rattle.rls_undo.specs.Keeping.{entry_of, AreKept};

    ghost view = { λ k. map (entry_of k.bases.items) k.entries.items };

    ghost invariant = { λ k. AreKept 0 k.entries.items (length k.bases.items) };
}

impl KeptEntries {
    /// No entry. It takes no memory.
    pub(crate) fn new(alloc: Global) -> KeptEntries
        ensures empty { result ≡ [] }
    {
        KeptEntries {
            entries: Vec::new(alloc),
            bases: Vec::new(alloc),
        }
    }

    /// Where their memory comes from.
    pub(crate) fn alloc(&self) -> Global {
        *self.entries.allocator()
    }

    /// How many there are.
    pub(crate) fn len(&self) -> usize
        ensures len { result ≡ length self.now }
    {
        self.entries.len()
    }

    /// The epoch of one.
    pub(crate) fn epoch(&self, at: usize) -> EpochName
        requires at { at < length self.now }
        ensures epoch { slice_get (map epoch_in self.now) at ≡ Some result }
    {
        epoch_of(&self.bases, &self.entries[at])
    }

    /// One of them.
    pub(crate) fn get(&self, at: usize) -> Result<Entry, AllocError>
        requires at { at < length self.now }
        ensures entry { IfOk result (λ entry. slice_get self.now at ≡ Some entry) }
    {
        let entry = entry_of(self.alloc(), &self.bases, &self.entries[at])?;
        Ok(entry)
    }

    /// The identifiers of one, if they are kept as one run; of a deletion the first one.
    pub(crate) fn run(&self, at: usize) -> Result<Option<Run>, AllocError>
        requires at { at < length self.now }
    {
        run_of(&self.bases, &self.entries[at])
    }

    /// What the identifiers of one promise.
    pub(crate) fn whole_idents(&self, at: usize)
        requires at { at < length self.now }
        ensures idents { (entry : Entry) → slice_get self.now at ≡ Some entry → HasIdents entry }
    {
        rely!(whole_idents(&self.bases, &self.entries[at]));
    }

    /// Puts one after the others. After an error all is as before.
    pub(crate) fn push(&mut self, entry: Entry) -> Result<(), AllocError>
        ensures ok { OnOk result (self.new ≡ self.old ++ entry ∷ []) }
        ensures err { OnErr result (self.new ≡ self.old) }
    {
        match entry {
            Entry::Inserted { epoch, ids } => {
                if let Some(run) = only_run(&ids) {
                    return self.push_run(epoch, run);
                }
                self.push_scattered(epoch, ids)
            }
            Entry::Removed { epoch, first, text } => self.push_removed(epoch, &first, text),
        }
    }

    /// Puts that of an insertion with the identifiers of a run after the others. After an error all is as before.
    pub(crate) fn push_run(&mut self, epoch: EpochName, run: &Run) -> Result<(), AllocError>
        ensures ok { OnOk result (self.new ≡ self.old ++ Inserted epoch (run_idents run.now.0 run.now.1) ∷ []) }
        ensures err { OnErr result (self.new ≡ self.old) }
    {
        rely!(let _len = run.len());
        let base = put_base(&mut self.bases, epoch, run.first())?;
        self.entries.push(Kept::Inserted {
            base,
            offset: run.first().last().offset,
            len: run.len(),
        })?;
        Ok(())
    }

    /// Puts that of a deletion of this text after the others, whose first identifier was this. After an error all is as before.
    pub(crate) fn push_removed(
        &mut self,
        epoch: EpochName,
        first: &Ident,
        text: Text,
    ) -> Result<(), AllocError>
        ensures ok { OnOk result (self.new ≡ self.old ++ Removed epoch first.now text ∷ []) }
        ensures err { OnErr result (self.new ≡ self.old) }
    {
        let offset = first.last().offset;
        let text = Box::new(self.alloc(), text)?;
        let base = put_base(&mut self.bases, epoch, first)?;
        self.entries.push(Kept::Removed { base, offset, text })?;
        Ok(())
    }

    // Puts that of an insertion with these identifiers after the others.
    fn push_scattered(&mut self, epoch: EpochName, ids: Runs) -> Result<(), AllocError>
        ensures ok { OnOk result (self.new ≡ self.old ++ Inserted epoch ids ∷ []) }
        ensures err { OnErr result (self.new ≡ self.old) }
    {
        let Ok(bases) = u32::try_from(self.bases.len()) else {
            return Err(AllocError);
        };
        let ids = Box::new(self.alloc(), Scattered { epoch, ids })?;
        self.entries.push(Kept::Scattered { bases, ids })?;
        Ok(())
    }

    /// Takes the last one away, where there is one, and what no other needs. It takes no memory.
    pub(crate) fn pop(&mut self) -> bool
        ensures some { result ≡ true ↔ (self.old ≢ []) }
        ensures entries { self.new ≡ without_last self.old }
    {
        let Some(_) = self.entries.pop() else {
            return false;
        };
        let bases = count_bases(&self.entries);
        self.bases.truncate(bases);
        true
    }

    /// Lets go of the first ones, so that the last `n` are left, or all if there are no more. It takes no memory.
    pub(crate) fn keep_last(&mut self, n: usize)
        ensures entries { self.new ≡ last_entries n self.old }
    {
        keep_last(&mut self.entries, n);
    }

    /// Takes the last one away if there are more than `n`, which is one more at most. It takes no memory.
    pub(crate) fn cut(&mut self, n: usize)
        requires one { length self.old ≤ n + 1 }
        ensures entries { self.new ≡ take n self.old }
    {
        if self.len() > n {
            self.pop();
        }
    }
}

// Lets go of the first entries, so that the last `n` are left, or all if there are no more.
fn keep_last(entries: &mut Vec<Kept>, n: usize)
    ensures entries { entries.new.items ≡ drop (length entries.old.items - n) entries.old.items }
{
    let surplus = entries.len().saturating_sub(n);
    entries.drain(..surplus);
}

// The entry that is kept so.
fn entry_of(alloc: Global, bases: &[Base], kept: &Kept) -> Result<Entry, AllocError>
    requires range { IsInRange kept.now }
    requires bases { bases_for kept.now ≤ length bases.now }
    ensures entry { IfOk result (λ entry. entry ≡ entry_of bases.now kept.now) }
{
    match kept {
        Kept::Inserted { base, offset, len } => {
            let base = &bases[*base as usize];
            let run = base.run(*offset, *len)?;
            let ids = Runs::from_run(alloc, run)?;
            Ok(Entry::Inserted {
                epoch: base.epoch,
                ids,
            })
        }
        Kept::Removed { base, offset, text } => {
            let base = &bases[*base as usize];
            let first = base.ident(*offset)?;
            let text = text.copy()?;
            Ok(Entry::Removed {
                epoch: base.epoch,
                first,
                text,
            })
        }
        Kept::Scattered { ids, .. } => {
            let epoch = ids.epoch;
            let ids = ids.ids.copy()?;
            Ok(Entry::Inserted { epoch, ids })
        }
    }
}

// Its epoch.
fn epoch_of(bases: &[Base], kept: &Kept) -> EpochName
    requires bases { bases_for kept.now ≤ length bases.now }
    ensures epoch { result ≡ epoch_in (entry_of bases.now kept.now) }
{
    match kept {
        Kept::Inserted { base, .. } | Kept::Removed { base, .. } => bases[*base as usize].epoch,
        Kept::Scattered { ids, .. } => ids.epoch,
    }
}

// The run of its identifiers, if they are kept as one; of a deletion the first one.
fn run_of(bases: &[Base], kept: &Kept) -> Result<Option<Run>, AllocError>
    requires range { IsInRange kept.now }
    requires bases { bases_for kept.now ≤ length bases.now }
{
    match kept {
        Kept::Inserted { base, offset, len } => {
            let run = bases[*base as usize].run(*offset, *len)?;
            Ok(Some(run))
        }
        Kept::Removed { base, offset, .. } => {
            let run = bases[*base as usize].run(*offset, 1)?;
            Ok(Some(run))
        }
        Kept::Scattered { .. } => Ok(None),
    }
}

// What its identifiers promise.
fn whole_idents(bases: &[Base], kept: &Kept)
    requires bases { bases_for kept.now ≤ length bases.now }
    ensures idents { HasIdents (entry_of bases.now kept.now) }
{
    match kept {
        Kept::Inserted { base, .. } => {
            rely!(let _len = bases[*base as usize].id.len());
        }
        Kept::Removed { base, .. } => {
            rely!(let _len = bases[*base as usize].id.len());
        }
        Kept::Scattered { ids, .. } => {
            rely!(let _total = ids.ids.total());
        }
    }
}

// How many bases the last entry needs.
fn count_bases(entries: &[Kept]) -> usize
    ensures bases { result ≡ last_bases 0 entries.now }
{
    match entries.last() {
        None => 0,
        Some(kept) => bases_for(kept),
    }
}

// How many bases it needs.
fn bases_for(kept: &Kept) -> usize
    ensures bases { result ≡ bases_for kept.now }
{
    match kept {
        Kept::Inserted { base, .. } | Kept::Removed { base, .. } => *base as usize + 1,
        Kept::Scattered { bases, .. } => *bases as usize,
    }
}

/// The one run of a list, if it is one.
pub(crate) fn only_run(ids: &Runs) -> Option<&Run>
    ensures run { IfSome result (λ run. ids.now ≡ run_idents run.now.0 run.now.1) }
{
    if ids.run_count() != 1 {
        return None;
    }
    Some(ids.run(0))
}
