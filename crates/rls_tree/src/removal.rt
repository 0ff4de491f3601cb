//! Characters taken out at many places: first all that takes memory, without a change, and then the changes, which take none.

ghost use Rattle.std.specs.Prelude.{◌≡◌, ℕ, ◌+◌, ◌-◌, ◌^◌, ◌<◌, ◌≤◌, ◌++◌, length, take, drop, reverse, true, false, Some, None, IfSome, IfNone, IfOk, IsTrue, IsFalse};
ghost use Rattle.rls_runs.specs.Runs.{run_before};
ghost use Rattle.rls_runs.specs.Entries.{idents_in, without_all};
ghost use Rattle.rls_blocks.specs.Trees.{ArePieces, entries_of, runs_in};
ghost use Rattle.rls_blocks.specs.Edits.{are_loose, goes_on, leads_to, located, Shows};
ghost use Rattle.rls_blocks.specs.Patches.{after, IsBetween, patched, ArePatches};
ghost use Rattle.rls_tree.specs.Targets.{AreMembers};

use crate::tree::BlockTree;
use rls_blocks::{Block, Patch, push_block};
use rls_ident::{Ident, rely};
use rls_runs::Runs;
use std::alloc::AllocError;

impl BlockTree {
    /// The blocks that take the place of those from which targets go, and of those just before one that loses its first character.
    /// It costs a few comparisons of identifiers for each level and each stretch of targets that are adjacent in one block, and the
    /// characters of these blocks.
    pub(crate) fn patches_without(&self, targets: &Runs) -> Result<Vec<Patch>, AllocError>
        ensures patches { IfOk result (λ patches. ArePatches (reverse patches.items) self.now.blocks) }
        ensures shows { IfOk result (λ patches. Shows (without_all targets.now (entries_of self.now.blocks)) (patched (reverse patches.items) self.now.blocks)) }
    {
        rely!(let _blocks = self.blocks());
        let total = self.chars();
        let mut patches = Vec::new(self.alloc());
        let mut i = self.next_target(targets, 0)?;
        while i < total {
            let patch = self.patch_from(targets, self.start_before(i))?;
            i = self.next_target(targets, patch.to)?;
            patches.push(patch)?;
        }
        Ok(patches)
    }

    // The first place, from this one on, of a target, or the number of characters if there is none. It costs a comparison of identifiers
    // for each level and each stretch of targets that aren't there.
    pub(crate) fn next_target(&self, targets: &Runs, at: u64) -> Result<u64, AllocError>
        requires place { at ≤ length (entries_of self.now.blocks) }
        ensures order { IfOk result (λ i. at ≤ i) }
        ensures within { IfOk result (λ i. i ≤ length (entries_of self.now.blocks)) }
        ensures none { IfOk result (λ i. AreMembers false targets.now (idents_in (entries_of self.now.blocks)) at i) }
        ensures there { IfOk result (λ i. AreMembers true targets.now (idents_in (entries_of self.now.blocks)) i (i + 1)) }
    {
        rely!(let _blocks = self.blocks());
        rely!(let _total = targets.total());
        let mut i = at;
        while i < self.chars() {
            let below = match targets.find(&self.ident(i)?) {
                Ok(_) => return Ok(i),
                Err(below) => below,
            };
            if below == targets.total() {
                return Ok(self.chars());
            }
            i = self.count_below(&targets.get(below)?);
        }
        Ok(i)
    }

    // The place at which the block of a place begins.
    pub(crate) fn block_start(&self, i: u64) -> u64
        requires place { i < length (entries_of self.now.blocks) }
        ensures between { IsBetween result self.now.blocks }
        ensures order { result ≤ i }
        ensures last { (at : ℕ) → IsBetween at self.now.blocks → at ≤ i → at ≤ result }
    {
        rely!(let _chars = self.chars());
        let (_, at) = self.locate(i);
        i - at as u64
    }

    // The same, or where that is the place and not the first one, the place at which the block before begins.
    fn start_before(&self, i: u64) -> u64
        requires place { i < length (entries_of self.now.blocks) }
        ensures between { IsBetween result self.now.blocks }
        ensures order { result ≤ i }
        ensures before { 0 < i → result < i }
        ensures last { (at : ℕ) → IsBetween at self.now.blocks → at < i → at ≤ result }
    {
        let start = self.block_start(i);
        if start < i || i == 0 {
            return start;
        }
        self.block_start(i - 1)
    }

    // The blocks that take the place of those from a place on, up to one where nothing changes.
    fn patch_from(&self, targets: &Runs, from: u64) -> Result<Patch, AllocError>
        requires place { from < length (entries_of self.now.blocks) }
        ensures from { IfOk result (λ patch. patch.from ≡ from) }
        ensures order { IfOk result (λ patch. patch.from < patch.to) }
        ensures within { IfOk result (λ patch. patch.to ≤ length (entries_of self.now.blocks)) }
        ensures between { IfOk result (λ patch. IsBetween patch.to self.now.blocks) }
        ensures entries { IfOk result (λ patch. entries_of patch.fresh.blocks ≡ without_all targets.now (take (patch.to - patch.from) (drop patch.from (entries_of self.now.blocks)))) }
        ensures pieces { IfOk result (λ patch. ArePieces patch.fresh.blocks) }
        ensures loose { IfOk result (λ patch. IsTrue (are_loose None (runs_in patch.fresh.blocks))) }
        ensures apart { IfOk result (λ patch. leads_to (run_before None (runs_in patch.fresh.blocks)) (runs_in (after patch.to self.now.blocks)) ≡ false) }
        ensures stays { IfOk result (λ patch. AreMembers false targets.now (idents_in (entries_of self.now.blocks)) patch.to (patch.to + 1)) }
    {
        rely!(let _chars = self.chars());
        let mut blocks = Vec::new(self.alloc());
        let mut at = self.copy_next(targets, from, &mut blocks)?;
        while !self.is_done(targets, at, &blocks) {
            at = self.copy_next(targets, at, &mut blocks)?;
        }
        Patch::new(self.alloc(), from, at, blocks)
    }

    // Whether a block begins at a place, or none, that doesn't lose its first character and doesn't go on with the last of these.
    fn is_done(&self, targets: &Runs, at: u64, blocks: &[Block]) -> bool
        requires place { at ≤ length (entries_of self.now.blocks) }
        ensures more { IsFalse result → at < length (entries_of self.now.blocks) }
        ensures between { IsTrue result → IsBetween at self.now.blocks }
        ensures apart { IsTrue result → leads_to (run_before None (runs_in blocks.now)) (runs_in (after at self.now.blocks)) ≡ false }
        ensures stays { IsTrue result → AreMembers false targets.now (idents_in (entries_of self.now.blocks)) at (at + 1) }
    {
        rely!(let _blocks = self.blocks());
        rely!(let _chars = self.chars());
        rely!(let _total = targets.total());
        match self.begins_apart(at, blocks) {
            None => false,
            Some(None) => true,
            Some(Some(block)) => {
                rely!(let _len = block.len());
                targets.find(block.run().first()).is_err()
            }
        }
    }

    // What begins at a place, if it doesn't go on with the last of these blocks: a block, or nothing at the end.
    pub(crate) fn begins_apart(&self, at: u64, blocks: &[Block]) -> Option<Option<&Block>>
        requires place { at ≤ length (entries_of self.now.blocks) }
        ensures more { IfNone result (at < length (entries_of self.now.blocks)) }
        ensures between { IfSome result (λ begins. IsBetween at self.now.blocks) }
        ensures apart { IfSome result (λ begins. leads_to (run_before None (runs_in blocks.now)) (runs_in (after at self.now.blocks)) ≡ false) }
        ensures end { IfSome result (λ begins. IfNone begins (at ≡ length (entries_of self.now.blocks))) }
        ensures within { IfSome result (λ begins. IfSome begins (λ block. at < length (entries_of self.now.blocks))) }
        ensures located { IfSome result (λ begins. IfSome begins (λ block. located self.now.blocks at ≡ Some (block.now, 0))) }
    {
        rely!(let _chars = self.chars());
        if at == self.chars() {
            return Some(None);
        }
        let (block, place) = self.locate(at);
        rely!(let _len = block.len());
        if place > 0 {
            return None;
        }
        if ends_before(blocks, block.run().first()) {
            return None;
        }
        Some(Some(block))
    }

    // Puts the characters from a place on that stay, or none if they go, after those of some blocks, as far as all of them stay or
    // all go and are in one block, and answers the place after them.
    fn copy_next(&self, targets: &Runs, at: u64, blocks: &mut Vec<Block>) -> Result<u64, AllocError>
        requires place { at < length (entries_of self.now.blocks) }
        requires loose { IsTrue (are_loose None (runs_in blocks.old.items)) }
        ensures some { IfOk result (λ to. at < to) }
        ensures within { IfOk result (λ to. to ≤ length (entries_of self.now.blocks)) }
        ensures entries { IfOk result (λ to. entries_of blocks.new.items ≡ entries_of blocks.old.items ++ without_all targets.now (take (to - at) (drop at (entries_of self.now.blocks)))) }
        ensures loose { IfOk result (λ to. IsTrue (are_loose None (runs_in blocks.new.items))) }
    {
        rely!(let _chars = self.chars());
        let next = self.next_target(targets, at)?;
        if next == at {
            let gone = self.targets_at(targets, at)?;
            return Ok(at + gone);
        }
        let (run, text) = self.stretch(at, most_of(next - at))?;
        let len = run.len();
        push_block(blocks, Block::new(run, text))?;
        Ok(at + len as u64)
    }

    // How many targets are adjacent in one block from the place of one on.
    pub(crate) fn targets_at(&self, targets: &Runs, at: u64) -> Result<u64, AllocError>
        requires place { at < length (entries_of self.now.blocks) }
        requires there { AreMembers true targets.now (idents_in (entries_of self.now.blocks)) at (at + 1) }
        ensures some { IfOk result (λ n. 0 < n) }
        ensures within { IfOk result (λ n. at + n ≤ length (entries_of self.now.blocks)) }
        ensures targets { IfOk result (λ n. AreMembers true targets.now (idents_in (entries_of self.now.blocks)) at (at + n)) }
    {
        let run = self.run_from(at, u32::MAX)?;
        let Ok(place) = targets.find(run.first()) else {
            unreachable!()
        };
        let (own, from) = targets.locate(place);
        Ok(run.len().min(own.len() - from) as u64)
    }
}

// Whether the identifier goes on with the last of some blocks, if there is one.
pub(crate) fn ends_before(blocks: &[Block], first: &Ident) -> bool
    ensures goes_on { result ≡ goes_on (run_before None (runs_in blocks.now)) first.now }
{
    match blocks.last() {
        None => false,
        Some(last) => last.run().touches(first),
    }
}

/// The number, or the greatest u32 below it.
pub(crate) fn most_of(left: u64) -> u32
    requires some { 0 < left }
    ensures some { 0 < result }
    ensures most { result ≤ left }
{
    left.min(u32::MAX as u64) as u32
}
