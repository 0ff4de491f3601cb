//! Blocks that take the place of others.

ghost use Rattle.std.specs.Prelude.{◌≡◌, ◌+◌, ◌^◌, ◌<◌, ◌≤◌, [], ◌∷◌, ◌++◌, length, take, drop, reverse, zip, None, IfOk, OnOk, IsTrue};
ghost use Rattle.rls_ident.specs.Identifiers.{follows};
ghost use Rattle.rls_runs.specs.Runs.{run_last, idents_of};
ghost use Rattle.rls_blocks.specs.Trees.{ArePieces, entries_of, piece_entries, runs_in};
ghost use Rattle.rls_blocks.specs.Edits.{are_loose, joined, Shows};
ghost use Rattle.rls_blocks.specs.Patches.{before, after, IsBetween, patched, ArePatches};

use crate::block::{Block, part_of_text};
use crate::build::tree_of;
use crate::node::Link;
use crate::split::{Halves, concat, split};
use rls_ident::rely;
use rls_runs::{Run, Text};
use std::alloc::{AllocError, Global};

/// Blocks that take the place of those between two places.
#[derive(Drop)]
pub struct Patch {
    /// The place where the blocks begin that it replaces.
    pub from: u64,
    /// The place where these end.
    pub to: u64,
    /// The blocks that replace them.
    pub fresh: Link,
}

impl Patch {
    /// These blocks in the place of those between two places. It costs a step for each, and takes memory for as many nodes; it moves
    /// no character.
    pub fn new(alloc: Global, from: u64, to: u64, blocks: Vec<Block>) -> Result<Patch, AllocError>
        requires chars_fit { length (entries_of blocks.items) < 2 ^ 64 }
        ensures from { IfOk result (λ patch. patch.from ≡ from) }
        ensures to { IfOk result (λ patch. patch.to ≡ to) }
        ensures blocks { IfOk result (λ patch. patch.fresh.blocks ≡ blocks.items) }
        ensures pieces { IfOk result (λ patch. ArePieces patch.fresh.blocks) }
    {
        let fresh = tree_of(alloc, blocks)?;
        Ok(Patch { from, to, fresh })
    }
}

/// Puts a block after others, and joins it to the last one if it goes on with that. It costs the block's characters.
/// After an error some of the others are gone.
pub fn push_block(blocks: &mut Vec<Block>, block: Block) -> Result<(), AllocError>
    requires loose { IsTrue (are_loose None (runs_in blocks.old.items)) }
    ensures shows { OnOk result (Shows (entries_of blocks.old.items ++ piece_entries block) blocks.new.items) }
{
    match blocks.pop() {
        None => {
            blocks.push(block)?;
            Ok(())
        }
        Some(last) => push_after(blocks, last, block),
    }
}

// Puts two blocks after others, as one if the second goes on with the first.
fn push_after(blocks: &mut Vec<Block>, last: Block, block: Block) -> Result<(), AllocError>
    requires loose { IsTrue (are_loose None (runs_in (blocks.old.items ++ last ∷ []))) }
    ensures shows { OnOk result (Shows (entries_of (blocks.old.items ++ last ∷ []) ++ piece_entries block) blocks.new.items) }
{
    rely!(let (_last, _len) = (last.len(), block.len()));
    if last.run().touches(block.run().first()) {
        let both = joined(last, block)?;
        blocks.push(both)?;
        return Ok(());
    }
    blocks.push(last)?;
    blocks.push(block)?;
    Ok(())
}

// A block and one that goes on with it, as one.
fn joined(last: Block, block: Block) -> Result<Block, AllocError>
    requires touches { IsTrue (follows block.0.0 (run_last last.0)) }
    ensures joined { IfOk result (λ both. both ≡ joined last block) }
{
    let mut both = last;
    both.extend(block.run(), block.text())?;
    Ok(both)
}

/// Puts runs with the characters of a text after other blocks, and joins those that touch. It costs the characters, and moves them if
/// it is one run. After an error some of the others are gone.
pub fn push_runs(
    alloc: Global,
    blocks: &mut Vec<Block>,
    runs: &[Run],
    text: Text,
) -> Result<(), AllocError>
    requires loose { IsTrue (are_loose None (runs_in blocks.old.items)) }
    requires as_many { length (idents_of runs.now) ≡ length text }
    ensures shows { OnOk result (Shows (entries_of blocks.old.items ++ zip (idents_of runs.now) text) blocks.new.items) }
{
    if runs.len() == 1 {
        return push_run(blocks, &runs[0], text);
    }
    rely!(let _chars = text.len());
    let mut at = 0;
    for run in runs {
        let block = block_at(alloc, run, &text, at)?;
        push_block(blocks, block)?;
        at += run.len() as usize;
    }
    Ok(())
}

// The same of one run with all characters of the text.
fn push_run(blocks: &mut Vec<Block>, run: &Run, text: Text) -> Result<(), AllocError>
    requires loose { IsTrue (are_loose None (runs_in blocks.old.items)) }
    requires as_many { length text ≡ run.now.1 }
    ensures shows { OnOk result (Shows (entries_of blocks.old.items ++ piece_entries (run.now, text)) blocks.new.items) }
{
    let own = run.copy()?;
    push_block(blocks, Block::new(own, text))
}

// The block of a run with the characters of a text from a place on.
fn block_at(alloc: Global, run: &Run, text: &Text, at: usize) -> Result<Block, AllocError>
    requires within { at + run.now.1 ≤ length text.now }
    ensures block { IfOk result (λ block. block ≡ (run.now, take run.now.1 (drop at text.now))) }
{
    rely!(let _chars = text.len());
    let own = run.copy()?;
    let part = part_of_text(alloc, text, at, run.len() as usize)?;
    Ok(Block::new(own, part))
}

/// The tree with each patch in the place of the blocks between its places. It costs a few steps for each level and each
/// patch, and takes no memory.
pub fn with_patches(link: Link, patches: Vec<Patch>) -> Link
    requires patches { ArePatches (reverse patches.items) link.blocks }
    requires chars_fit { length (entries_of (patched (reverse patches.items) link.blocks)) < 2 ^ 64 }
    ensures blocks { result.blocks ≡ patched (reverse patches.items) link.blocks }
{
    let mut patches = patches;
    let mut front = link;
    let mut behind = Link::empty();
    while let Some(patch) = patches.pop() {
        let (near, far) = split_between(front, patch.to);
        let (kept, _gone) = split_between(near, patch.from);
        behind = concat(concat(patch.fresh, far), behind);
        front = kept;
    }
    concat(front, behind)
}

/// A tree as two, at a place between its blocks.
pub(crate) fn split_between(link: Link, i: u64) -> (Link, Link)
    requires between { IsBetween i link.blocks }
    ensures front { result.0.blocks ≡ before i link.blocks }
    ensures behind { result.1.blocks ≡ after i link.blocks }
    ensures both { link.blocks ≡ result.0.blocks ++ result.1.blocks }
{
    rely!(let _chars = link.chars());
    match split(link, i) {
        Halves::Between(front, behind) => (front, behind),
        Halves::Within(_, _, _, _) => unreachable!(),
    }
}
