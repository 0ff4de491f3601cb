//! The block tree as a document.

ghost use Rattle.std.specs.Prelude.{◌≡◌, true, ◌+◌, ◌-◌, ◌<◌, ◌≤◌, ◌^◌, ◌++◌, length, take, drop, zip, slice_get, Some, None, IfOk, IfSome, OnOk, OnErr, IsTrue};
ghost use Rattle.std.specs.List.{list_all};
ghost use Rattle.rls_ident.specs.Identifiers.{is_ident};
ghost use Rattle.rls_runs.specs.Runs.{run_idents, runs_of, idents_of, is_increasing, place_of};
ghost use Rattle.rls_runs.specs.Entries.{Entries, idents_in, chars_in, put_all, without_all, with_idents};
ghost use Rattle.rls_doc.specs.Documents.{AreNew};
ghost use Rattle.rls_blocks.specs.Trees.{IsPiece, entries_of, piece_entries, runs_in};
ghost use Rattle.rls_blocks.specs.Edits.{are_loose, removed, Shows};

use crate::removal::most_of;
use crate::tree::BlockTree;
use rls_blocks::{Block, push_runs};
use rls_doc::{Document, RunMap};
use rls_ident::{Ident, rely};
use rls_runs::{Run, RunError, RunList, Runs, Text};
use std::alloc::AllocError;
use std::slice;

impl Document for BlockTree {
    ghost entries = { λ t. entries_of t.blocks };

    fn rises(&self) {
        rely!(let _blocks = self.blocks());
    }

    fn total(&self) -> u64 {
        self.chars()
    }

    /// It takes no memory and no time.
    fn run_count(&self) -> u64 {
        self.blocks()
    }

    /// It costs a step for each level.
    fn char_at(&self, i: u64) -> char {
        self.char(i)
    }

    /// It costs a step for each level.
    fn ident_at(&self, i: u64) -> Result<Ident, AllocError> {
        self.ident(i)
    }

    /// It costs a comparison of identifiers for each level, and takes no memory.
    fn find(&self, id: &Ident) -> Result<u64, u64> {
        self.place(id)
    }

    /// One run costs what `insert_run` says. Other runs cost two comparisons of identifiers for each level and each gap into which a part
    /// of them goes, their own characters, and those of the runs that are cut there or that they go on with.
    fn insert_runs(&mut self, runs: &RunList, text: &Text) -> Result<(), AllocError> {
        if runs.len() == 1 {
            let run = runs.get(0);
            return self.insert_run(run.first(), text);
        }
        self.insert_apart(runs.as_slice(), text)
    }

    /// It costs what `remove_near` says, and for targets that are adjacent a comparison of identifiers for each level.
    fn remove_all(&mut self, targets: &Runs) -> Result<u64, AllocError> {
        self.remove_near(None, targets)
    }

    /// It costs a step for each level and each run that it answers.
    fn runs_of(&self, from: u64, count: u64) -> Result<Runs, AllocError> {
        rely!(let _total = self.chars());
        self.runs_between(from, from + count)
    }

    /// It costs the number of characters and of runs.
    fn text(&self) -> Result<Text, AllocError> {
        self.chars_text()
    }

    /// It maps whole runs, and joins those that touch then. It costs the number of characters, a step for each level and each run
    /// before, and a step for each run after.
    fn map_runs<F: RunMap>(&mut self, map: &F) -> Result<(), AllocError> {
        let fresh = self.mapped(map)?;
        *self = fresh;
        Ok(())
    }
}

impl BlockTree {
    /// Does what `insert_runs` does with one run, told by its first identifier. It copies that only where a run of the text begins.
    ///
    /// If it goes between two neighbours, it costs a comparison of identifiers for each level and what `insert_between` says; else what
    /// `insert_runs` says.
    ///
    /// # Errors
    ///
    /// `AllocError` where it finds no memory. The tree is as before then.
    pub fn insert_run(&mut self, first: &Ident, text: &Text) -> Result<(), AllocError>
        requires piece { IsPiece (first.now, length text.now) text.now }
        requires new { AreNew (run_idents first.now (length text.now)) (idents_in (entries_of self.old.blocks)) }
        requires room { length (entries_of self.old.blocks) + length text.now < 2 ^ 64 }
        ensures ok { OnOk result (entries_of self.new.blocks ≡ put_all (zip (run_idents first.now (length text.now)) text.now) (entries_of self.old.blocks)) }
        ensures err { OnErr result (entries_of self.new.blocks ≡ entries_of self.old.blocks) }
    {
        let len = text.len() as u32;
        if let Some(i) = self.gap_for(first, len)? {
            return self.insert_between(i, first, text);
        }
        match Run::new(first.copy()?, len) {
            Ok(run) => self.insert_apart(slice::from_ref(&run), text),
            Err(RunError::Empty) => unreachable!(),
            Err(RunError::OffsetEnd) => unreachable!(),
        }
    }

    // Puts runs in, of which parts go into several gaps.
    fn insert_apart(&mut self, runs: &[Run], text: &Text) -> Result<(), AllocError>
        requires rises { IsTrue (is_increasing (idents_of runs.now)) }
        requires as_many { length (idents_of runs.now) ≡ length text.now }
        requires new { AreNew (idents_of runs.now) (idents_in (entries_of self.old.blocks)) }
        requires room { length (entries_of self.old.blocks) + length text.now < 2 ^ 64 }
        ensures ok { OnOk result (entries_of self.new.blocks ≡ put_all (zip (idents_of runs.now) text.now) (entries_of self.old.blocks)) }
        ensures err { OnErr result (entries_of self.new.blocks ≡ entries_of self.old.blocks) }
    {
        rely!(let _blocks = self.blocks());
        let gaps = self.gaps_for(runs, text)?;
        let patches = self.patches_with(gaps)?;
        self.put_patches(patches);
        Ok(())
    }

    /// Does what `remove_all` does. If the targets are adjacent from the place on that is told, if one is, it doesn't search for them.
    ///
    /// Targets that are adjacent in the tree cost a comparison of identifiers for each of their runs, a step for each level and each of
    /// them, and their own characters; out of the middle of a run, also those in front of them there or those after them, whichever are
    /// fewer, and where two runs touch then, those of the shorter one. Other targets cost a few comparisons of identifiers for each level
    /// and each stretch that is adjacent in one block. If all go from one block and not all of it, they also cost the characters that go,
    /// and those that stay but for the longest part, which isn't copied; else the characters of the blocks that lose some and of those
    /// just before one that loses its first.
    ///
    /// # Errors
    ///
    /// `AllocError` where it finds no memory. The tree is as before then.
    pub fn remove_near(&mut self, near: Option<u64>, targets: &Runs) -> Result<u64, AllocError>
        ensures ok { OnOk result (entries_of self.new.blocks ≡ without_all targets.now (entries_of self.old.blocks)) }
        ensures removed { IfOk result (λ n. n + length (entries_of self.new.blocks) ≡ length (entries_of self.old.blocks)) }
        ensures err { OnErr result (entries_of self.new.blocks ≡ entries_of self.old.blocks) }
    {
        let count = targets.total();
        if count == 0 {
            return Ok(0);
        }
        if let Some(i) = self.range_near(near, targets) {
            self.remove_range(i, count)?;
            return Ok(count);
        }
        let before = self.chars();
        self.remove_apart(targets)?;
        Ok(before - self.chars())
    }

    // Takes targets out that aren't adjacent.
    fn remove_apart(&mut self, targets: &Runs) -> Result<(), AllocError>
        ensures ok { OnOk result (entries_of self.new.blocks ≡ without_all targets.now (entries_of self.old.blocks)) }
        ensures err { OnErr result (entries_of self.new.blocks ≡ entries_of self.old.blocks) }
    {
        rely!(let _blocks = self.blocks());
        rely!(let _chars = self.chars());
        if let Some((i, rest)) = self.rest_without(targets)? {
            self.put_rest(i, rest);
            return Ok(());
        }
        let patches = self.patches_without(targets)?;
        self.put_patches(patches);
        Ok(())
    }

    // The same as `range_of`, but one place is looked at first.
    fn range_near(&self, near: Option<u64>, targets: &Runs) -> Option<u64>
        requires some { 0 < length targets.now }
        ensures within { IfSome result (λ i. i + length targets.now ≤ length (entries_of self.now.blocks)) }
        ensures removed { IfSome result (λ i. removed i (length targets.now) (entries_of self.now.blocks) ≡ without_all targets.now (entries_of self.now.blocks)) }
    {
        match near {
            Some(i) if self.stand_from(i, targets) => Some(i),
            _ => self.range_of(targets),
        }
    }

    // The place from which on the targets stand one right behind another, if they do. It costs a comparison of
    // identifiers for each level, and takes no memory.
    fn range_of(&self, targets: &Runs) -> Option<u64>
        requires some { 0 < length targets.now }
        ensures within { IfSome result (λ i. i + length targets.now ≤ length (entries_of self.now.blocks)) }
        ensures removed { IfSome result (λ i. removed i (length targets.now) (entries_of self.now.blocks) ≡ without_all targets.now (entries_of self.now.blocks)) }
    {
        let Ok(from) = self.place(targets.run(0).first()) else {
            return None;
        };
        if self.stand_from(from, targets) {
            return Some(from);
        }
        None
    }

    // Whether the targets stand one right behind another from a place on. It costs a step for each level and each run, and a
    // comparison of identifiers for each run, and takes no memory.
    fn stand_from(&self, from: u64, targets: &Runs) -> bool
        ensures within { result ≡ true → from + length targets.now ≤ length (entries_of self.now.blocks) }
        ensures removed { result ≡ true → removed from (length targets.now) (entries_of self.now.blocks) ≡ without_all targets.now (entries_of self.now.blocks) }
    {
        rely!(let _blocks = self.blocks());
        rely!(let _chars = self.chars());
        if from >= self.chars() {
            return false;
        }
        let mut at = from;
        let runs = targets.as_slice();
        for run in runs {
            if !self.stands_at(at, run) {
                return false;
            }
            at += run.len() as u64;
        }
        true
    }

    // Whether a run stands whole in one of the tree's, from a place on. It costs a step for each level and a comparison of identifiers,
    // and takes no memory.
    fn stands_at(&self, i: u64, run: &Run) -> bool
        ensures within { result ≡ true → i + run.now.1 ≤ length (entries_of self.now.blocks) }
        ensures idents { result ≡ true → take run.now.1 (drop i (idents_in (entries_of self.now.blocks))) ≡ run_idents run.now.0 run.now.1 }
    {
        rely!(let _len = run.len());
        if i >= self.chars() {
            return false;
        }
        let (block, at) = self.locate(i);
        if block.len() - at < run.len() {
            return false;
        }
        match block.run().find(run.first()) {
            Ok(place) => place == at,
            Err(_) => false,
        }
    }

    // The identifiers between two places.
    fn runs_between(&self, from: u64, end: u64) -> Result<Runs, AllocError>
        requires order { from ≤ end }
        requires within { end ≤ length (entries_of self.now.blocks) }
        ensures runs { IfOk result (λ xs. xs ≡ take (end - from) (drop from (idents_in (entries_of self.now.blocks)))) }
    {
        rely!(let _blocks = self.blocks());
        let mut runs = Runs::new(self.alloc());
        let mut at = from;
        while at < end {
            let run = self.run_from(at, most_of(end - at))?;
            at += run.len() as u64;
            runs.append(run)?;
        }
        Ok(runs)
    }

    // The same characters with the identifiers that take the place of theirs.
    fn mapped<F: RunMap>(&self, map: &F) -> Result<BlockTree, AllocError>
        ensures mapped { IfOk result (λ tree. entries_of tree.blocks ≡ with_idents (F.image map.now) (entries_of self.now.blocks)) }
    {
        rely!(let _blocks = self.blocks());
        self.are_idents();
        let mut blocks = Vec::new(self.alloc());
        let mut at = 0;
        while at < self.chars() {
            at += self.map_next(map, at, &mut blocks)?;
        }
        BlockTree::of_loose_blocks(self.alloc(), blocks)
    }

    // Puts the characters of a run from a place on, mapped, after some blocks, and answers how many.
    fn map_next<F: RunMap>(
        &self,
        map: &F,
        at: u64,
        blocks: &mut Vec<Block>,
    ) -> Result<u64, AllocError>
        requires place { at < length (entries_of self.now.blocks) }
        requires loose { IsTrue (are_loose None (runs_in blocks.old.items)) }
        ensures some { IfOk result (λ n. 0 < n) }
        ensures within { IfOk result (λ n. at + n ≤ length (entries_of self.now.blocks)) }
        ensures shows { IfOk result (λ n. Shows (entries_of blocks.old.items ++ with_idents (F.image map.now) (take n (drop at (entries_of self.now.blocks)))) blocks.new.items) }
    {
        let (run, text) = self.stretch(at, u32::MAX)?;
        let len = run.len();
        let runs = map.map(self.alloc(), &run)?;
        push_runs(self.alloc(), blocks, runs.as_slice(), text)?;
        Ok(len as u64)
    }
}
