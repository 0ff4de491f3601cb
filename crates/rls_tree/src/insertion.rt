//! Runs put in at many places: first all that takes memory, without a change, and then the changes, which take none.

ghost use Rattle.std.specs.Prelude.{◌≡◌, ℕ, ◌+◌, ◌-◌, ◌^◌, ◌<◌, ◌≤◌, ◌++◌, length, drop, reverse, zip, pos, false, None, Err, IfOk, OnOk, IsTrue, IsFalse};
ghost use Rattle.rls_ident.specs.Identifiers.{shifted};
ghost use Rattle.rls_runs.specs.Runs.{run_before, run_idents, idents_of, is_increasing, place_of};
ghost use Rattle.rls_runs.specs.Entries.{Entries, idents_in, put_all};
ghost use Rattle.rls_doc.specs.Documents.{AreNew};
ghost use Rattle.rls_blocks.specs.Trees.{ArePieces, entries_of, piece_entries, runs_in};
ghost use Rattle.rls_blocks.specs.Edits.{are_loose, goes_on, leads_to, Shows};
ghost use Rattle.rls_tree.specs.Gaps.{gap_end, AreGaps, filled, is_gap, Leaves};
ghost use Rattle.rls_blocks.specs.Patches.{before, after, IsBetween, patched, ArePatches};

use crate::removal::most_of;
use crate::tree::BlockTree;
use rls_blocks::{Block, Patch, part_of_text, push_block};
use rls_ident::rely;
use rls_runs::{Run, Text};
use std::alloc::AllocError;
use std::collections::VecDeque;

/// What goes in between two neighbours, and the place.
#[derive(Drop)]
pub(crate) struct Gap {
    pub(crate) at: u64,
    pub(crate) block: Block,
}

impl BlockTree {
    /// What goes into each gap if these runs are put in, in order. It costs two comparisons of identifiers for each level and each gap,
    /// and the characters of the text.
    pub(crate) fn gaps_for(&self, runs: &[Run], text: &Text) -> Result<VecDeque<Gap>, AllocError>
        requires rises { IsTrue (is_increasing (idents_of runs.now)) }
        requires as_many { length (idents_of runs.now) ≡ length text.now }
        requires new { AreNew (idents_of runs.now) (idents_in (entries_of self.now.blocks)) }
        requires room { length text.now < 2 ^ 64 }
        ensures places { IfOk result (λ gaps. AreGaps 0 gaps.items (length (entries_of self.now.blocks))) }
        ensures filled { IfOk result (λ gaps. filled 0 gaps.items (entries_of self.now.blocks) (λ at. drop at (entries_of self.now.blocks)) ≡ put_all (zip (idents_of runs.now) text.now) (entries_of self.now.blocks)) }
    {
        rely!(let _blocks = self.blocks());
        let mut gaps = VecDeque::new(self.alloc());
        let mut at = 0;
        for run in runs {
            let part = part_of_text(self.alloc(), text, at, run.len() as usize)?;
            self.push_gaps(run, &part, &mut gaps)?;
            at += run.len() as usize;
        }
        Ok(gaps)
    }

    // Puts what goes into each gap of a run after the others.
    fn push_gaps(&self, run: &Run, text: &Text, gaps: &mut VecDeque<Gap>) -> Result<(), AllocError>
        requires as_many { length text.now ≡ run.now.1 }
        requires new { AreNew (idents_in (piece_entries (run.now, text.now))) (idents_in (entries_of self.now.blocks)) }
        ensures ok { OnOk result ((more all : Entries) → Leaves (entries_of self.now.blocks) gaps.old.items (piece_entries (run.now, text.now) ++ more) all → Leaves (entries_of self.now.blocks) gaps.new.items more all) }
    {
        let mut done = 0;
        while done < run.len() {
            done += self.push_gap(run, text, done, gaps)?;
        }
        Ok(())
    }

    // Puts what goes into one gap of a run, from a place of the run on, after the others, and answers how many characters.
    fn push_gap(
        &self,
        run: &Run,
        text: &Text,
        done: u32,
        gaps: &mut VecDeque<Gap>,
    ) -> Result<u32, AllocError>
        requires as_many { length text.now ≡ run.now.1 }
        requires place { done < run.now.1 }
        requires new { AreNew (idents_in (piece_entries (run.now, text.now))) (idents_in (entries_of self.now.blocks)) }
        ensures some { IfOk result (λ n. 0 < n) }
        ensures within { IfOk result (λ n. done + n ≤ run.now.1) }
        ensures ok { IfOk result (λ n. (more all : Entries) → Leaves (entries_of self.now.blocks) gaps.old.items (drop done (piece_entries (run.now, text.now)) ++ more) all → Leaves (entries_of self.now.blocks) gaps.new.items (drop (done + n) (piece_entries (run.now, text.now)) ++ more) all) }
    {
        rely!(let _blocks = self.blocks());
        rely!(let _len = run.len());
        let (at, end) = self.gap_of(run, done)?;
        let part = run.part(done, end - done)?;
        let chars = part_of_text(self.alloc(), text, done as usize, (end - done) as usize)?;
        let block = Block::new(part, chars);
        gaps.push_back(Gap { at, block })?;
        Ok(end - done)
    }

    // The gap into which the identifiers of a run go from a place of the run on, and the place of the run after them.
    fn gap_of(&self, run: &Run, done: u32) -> Result<(u64, u32), AllocError>
        requires place { done < run.now.1 }
        requires new { AreNew (drop done (run_idents run.now.0 run.now.1)) (idents_in (entries_of self.now.blocks)) }
        ensures later { IfOk result (λ gap. done < gap.1) }
        ensures within { IfOk result (λ gap. gap.1 ≤ run.now.1) }
        ensures place { IfOk result (λ gap. place_of (shifted (pos done) run.now.0) (idents_in (entries_of self.now.blocks)) ≡ Err gap.0) }
        ensures end { IfOk result (λ gap. gap.1 ≡ gap_end (run_idents run.now.0 run.now.1) (drop gap.0 (idents_in (entries_of self.now.blocks)))) }
    {
        rely!(let _blocks = self.blocks());
        rely!(let _len = run.len());
        let first = run.first().shifted(done)?;
        let Err(at) = self.place(&first) else {
            unreachable!()
        };
        let end = self.end_of_gap(at, run)?;
        Ok((at, end))
    }

    /// The blocks that take the place of those that gaps cut, and of those that touch what goes in.
    /// It costs a few steps for each level and each gap, a comparison of identifiers for each gap, and the characters of these blocks.
    pub(crate) fn patches_with(&self, gaps: VecDeque<Gap>) -> Result<Vec<Patch>, AllocError>
        requires places { AreGaps 0 gaps.items (length (entries_of self.now.blocks)) }
        requires room { length (filled 0 gaps.items (entries_of self.now.blocks) (λ at. drop at (entries_of self.now.blocks))) < 2 ^ 64 }
        ensures patches { IfOk result (λ patches. ArePatches (reverse patches.items) self.now.blocks) }
        ensures shows { IfOk result (λ patches. Shows (filled 0 gaps.items (entries_of self.now.blocks) (λ at. drop at (entries_of self.now.blocks))) (patched (reverse patches.items) self.now.blocks)) }
    {
        rely!(let _blocks = self.blocks());
        rely!(let _chars = self.chars());
        let mut gaps = gaps;
        let mut patches = Vec::new(self.alloc());
        while let Some(gap) = gaps.front() {
            rely!(let _len = gap.block.len());
            let from = self.start_for(gap);
            let patch = self.patch_with(&mut gaps, from)?;
            patches.push(patch)?;
        }
        Ok(patches)
    }

    // The place of a gap, or if it cuts a block, or what goes in goes on with the block before, the place at which that block begins.
    fn start_for(&self, gap: &Gap) -> u64
        requires place { gap.now.at ≤ length (entries_of self.now.blocks) }
        ensures between { IsBetween result self.now.blocks }
        ensures order { result ≤ gap.now.at }
        ensures last { (at : ℕ) → IsBetween at self.now.blocks → at < gap.now.at → at ≤ result }
        ensures apart { result ≡ gap.now.at → goes_on (run_before None (runs_in (before gap.now.at self.now.blocks))) gap.now.block.0.0 ≡ false }
    {
        rely!(let _chars = self.chars());
        let i = gap.at;
        if i == 0 {
            return i;
        }
        let start = self.block_start(i - 1);
        let (block, at) = self.locate(i - 1);
        let len = block.len();
        if at + 1 < len {
            return start;
        }
        rely!(let _len = gap.block.len());
        if block.run().touches(gap.block.run().first()) {
            return start;
        }
        i
    }

    // The blocks that take the place of those from a place on, up to one where nothing changes.
    fn patch_with(&self, gaps: &mut VecDeque<Gap>, from: u64) -> Result<Patch, AllocError>
        requires places { AreGaps from gaps.old.items (length (entries_of self.now.blocks)) }
        requires some { 0 < length gaps.old.items }
        requires room { length (filled from gaps.old.items (entries_of self.now.blocks) (λ at. drop at (entries_of self.now.blocks))) < 2 ^ 64 }
        ensures from { IfOk result (λ patch. patch.from ≡ from) }
        ensures order { IfOk result (λ patch. patch.from ≤ patch.to) }
        ensures between { IfOk result (λ patch. IsBetween patch.to self.now.blocks) }
        ensures places { IfOk result (λ patch. AreGaps patch.to gaps.new.items (length (entries_of self.now.blocks))) }
        ensures gap { IfOk result (λ patch. is_gap patch.to gaps.new.items ≡ false) }
        ensures fewer { IfOk result (λ patch. (length (entries_of self.now.blocks) - patch.to) + length gaps.new.items < (length (entries_of self.now.blocks) - from) + length gaps.old.items) }
        ensures entries { IfOk result (λ patch. entries_of patch.fresh.blocks ++ filled patch.to gaps.new.items (entries_of self.now.blocks) (λ at. drop at (entries_of self.now.blocks)) ≡ filled from gaps.old.items (entries_of self.now.blocks) (λ at. drop at (entries_of self.now.blocks))) }
        ensures some { IfOk result (λ patch. 0 < length (entries_of patch.fresh.blocks)) }
        ensures pieces { IfOk result (λ patch. ArePieces patch.fresh.blocks) }
        ensures loose { IfOk result (λ patch. IsTrue (are_loose None (runs_in patch.fresh.blocks))) }
        ensures apart { IfOk result (λ patch. leads_to (run_before None (runs_in patch.fresh.blocks)) (runs_in (after patch.to self.now.blocks)) ≡ false) }
    {
        let mut blocks = Vec::new(self.alloc());
        let mut at = self.fill_next(gaps, from, &mut blocks)?;
        while !self.is_filled(gaps, at, &blocks) {
            at = self.fill_next(gaps, at, &mut blocks)?;
        }
        Patch::new(self.alloc(), from, at, blocks)
    }

    // Puts what goes in at a place after some blocks, or if there is no gap the characters up to the next one, as far as they are in
    // one block. Answers the place after them.
    fn fill_next(
        &self,
        gaps: &mut VecDeque<Gap>,
        at: u64,
        blocks: &mut Vec<Block>,
    ) -> Result<u64, AllocError>
        requires places { AreGaps at gaps.old.items (length (entries_of self.now.blocks)) }
        requires more { is_gap at gaps.old.items ≡ false → at < length (entries_of self.now.blocks) }
        requires loose { IsTrue (are_loose None (runs_in blocks.old.items)) }
        ensures order { IfOk result (λ to. at ≤ to) }
        ensures places { IfOk result (λ to. AreGaps to gaps.new.items (length (entries_of self.now.blocks))) }
        ensures fewer { IfOk result (λ to. (length (entries_of self.now.blocks) - to) + length gaps.new.items < (length (entries_of self.now.blocks) - at) + length gaps.old.items) }
        ensures entries { IfOk result (λ to. entries_of blocks.new.items ++ filled to gaps.new.items (entries_of self.now.blocks) (λ k. drop k (entries_of self.now.blocks)) ≡ entries_of blocks.old.items ++ filled at gaps.old.items (entries_of self.now.blocks) (λ k. drop k (entries_of self.now.blocks))) }
        ensures some { IfOk result (λ to. 0 < length (entries_of blocks.new.items)) }
        ensures loose { IfOk result (λ to. IsTrue (are_loose None (runs_in blocks.new.items))) }
    {
        rely!(let _chars = self.chars());
        if has_gap(gaps, at) {
            let Some(gap) = gaps.pop_front() else {
                unreachable!()
            };
            rely!(let _len = gap.block.len());
            push_block(blocks, gap.block)?;
            return Ok(at);
        }
        let end = self.next_gap(gaps, at);
        let (run, text) = self.stretch(at, most_of(end - at))?;
        let len = run.len();
        push_block(blocks, Block::new(run, text))?;
        Ok(at + len as u64)
    }

    // The place of the first gap, or the number of characters if there is none.
    fn next_gap(&self, gaps: &VecDeque<Gap>, at: u64) -> u64
        requires places { AreGaps at gaps.now.items (length (entries_of self.now.blocks)) }
        requires no_gap { is_gap at gaps.now.items ≡ false }
        requires place { at < length (entries_of self.now.blocks) }
        ensures later { at < result }
        ensures within { result ≤ length (entries_of self.now.blocks) }
        ensures places { AreGaps result gaps.now.items (length (entries_of self.now.blocks)) }
    {
        match gaps.front() {
            None => self.chars(),
            Some(gap) => gap.at,
        }
    }

    // Whether there is no gap at a place, and a block begins there, or none, that doesn't go on with the last of these.
    fn is_filled(&self, gaps: &VecDeque<Gap>, at: u64, blocks: &[Block]) -> bool
        requires place { at ≤ length (entries_of self.now.blocks) }
        ensures more { IsFalse result → is_gap at gaps.now.items ≡ false → at < length (entries_of self.now.blocks) }
        ensures gap { IsTrue result → is_gap at gaps.now.items ≡ false }
        ensures between { IsTrue result → IsBetween at self.now.blocks }
        ensures apart { IsTrue result → leads_to (run_before None (runs_in blocks.now)) (runs_in (after at self.now.blocks)) ≡ false }
    {
        if has_gap(gaps, at) {
            return false;
        }
        self.begins_apart(at, blocks).is_some()
    }
}

// Whether the first gap is at this place.
fn has_gap(gaps: &VecDeque<Gap>, at: u64) -> bool
    ensures gap { result ≡ is_gap at gaps.now.items }
{
    match gaps.front() {
        None => false,
        Some(gap) => gap.at == at,
    }
}
