//! The block tree.
//! Why: CHOICES.md, 167, 200.

ghost use Rattle.std.specs.Prelude.{◌≡◌, ℕ, ◌+◌, ◌-◌, ◌*◌, ◌^◌, ◌≤◌, [], ◌<◌, pos, ◌+ℤ◌, ◌≤ℤ◌, None, option_map, length, take, drop, reverse, slice_get, Some, IfSome, IfNone, IfOk, OnOk, OnErr, IsTrue, IsFalse, encode_utf8_all};
ghost use Rattle.std.specs.List.{list_all};
ghost use Rattle.std.specs.String.{string_bytes};
ghost use Rattle.rls_ident.specs.Tuples.{offset_of};
ghost use Rattle.rls_ident.specs.Identifiers.{is_ident, last_of, shifted, greatest_offset};
ghost use Rattle.rls_runs.specs.Runs.{run_idents, runs_of, are_apart, is_increasing, place_of};
ghost use Rattle.rls_runs.specs.Entries.{idents_in, chars_in, has_ident};
ghost use Rattle.rls_blocks.specs.Trees.{ArePieces, IsPiece, entries_of, piece_entries, runs_in};
ghost use Rattle.rls_blocks.specs.Edits.{are_loose, inserted, located, removed};
ghost use Rattle.rls_blocks.specs.Beside.{lent, ident_there};
ghost use Rattle.rls_blocks.specs.Patches.{patched, ArePatches, IsBetween};
ghost use Rattle.rls_blocks.specs.Rests.{rested, IsRest};

use rls_blocks::{
    Block, Link, Node, Patch, Place, Rest, insert_at, part_of_text, remove_range, tree_of,
    with_patches, with_rest,
};
use rls_ident::{Ident, rely};
use rls_runs::{Run, Text};
use std::alloc::{AllocError, Global};
use std::marker::Model;
use std::mem;

/// Characters with identifiers that strictly increase, kept as a balanced tree of blocks, each a
/// maximal run with its characters.
pub struct BlockTree {
    root: Link,
    alloc: Global,
}

impl Model for BlockTree {
    ghost use Rattle.std.specs.Prelude.{None, IsTrue};
    ghost use Rattle.rls_runs.specs.Runs.{are_apart};
    ghost use Rattle.rls_blocks.specs.Trees.{Tree, runs_in};

    ghost Value = { Tree };

    ghost view = { λ t. t.root };

    ghost invariant = { λ t. IsTrue (are_apart None (runs_in t.root.blocks)) };
}

// Written out, and not derived, so that the proof of a caller sees one call and not the drop of each field.
impl Drop for BlockTree {
    fn drop(self) {
        let BlockTree {
            root: _root,
            alloc: _,
        } = self;
    }
}

impl BlockTree {
    /// The empty tree. It takes no memory.
    pub fn new(alloc: Global) -> BlockTree
        ensures empty { result ≡ record { blocks = []; height = 0 } }
    {
        BlockTree {
            root: Link::empty(),
            alloc,
        }
    }

    /// The tree of these blocks, each of which comes after the one before and doesn't touch it. It costs a step for each block, and
    /// moves no character.
    pub fn of_blocks(alloc: Global, blocks: Vec<Block>) -> Result<BlockTree, AllocError>
        requires apart { IsTrue (are_apart None (runs_in blocks.items)) }
        requires chars_fit { length (entries_of blocks.items) < 2 ^ 64 }
        ensures blocks { IfOk result (λ tree. tree.blocks ≡ blocks.items) }
    {
        let root = tree_of(alloc, blocks)?;
        Ok(BlockTree { root, alloc })
    }

    // The tree of these blocks, of which none goes on with the one before it, and whose identifiers strictly increase. It costs a step
    // for each block.
    pub(crate) fn of_loose_blocks(
        alloc: Global,
        blocks: Vec<Block>,
    ) -> Result<BlockTree, AllocError>
        requires loose { IsTrue (are_loose None (runs_in blocks.items)) }
        requires rises { IsTrue (is_increasing (idents_in (entries_of blocks.items))) }
        requires chars_fit { length (entries_of blocks.items) < 2 ^ 64 }
        ensures blocks { IfOk result (λ tree. tree.blocks ≡ blocks.items) }
    {
        let root = tree_of(alloc, blocks)?;
        Ok(BlockTree { root, alloc })
    }

    /// The tree's topmost node, if it isn't empty.
    pub fn root(&self) -> Option<&Node>
        ensures blocks { IfSome result (λ node. node.now.blocks ≡ self.now.blocks) }
        ensures height { IfSome result (λ node. node.now.height ≡ self.now.height) }
        ensures empty { IfNone result (self.now ≡ record { blocks = []; height = 0 }) }

        // Its blocks are the maximal runs of its identifiers, each with its characters.
        ensures apart { IsTrue (are_apart None (runs_in self.now.blocks)) }
        ensures pieces { ArePieces self.now.blocks }
    {
        rely!(let _chars = self.root.chars());
        self.root.node()
    }

    /// How many levels the tree has. It takes no memory.
    pub fn height(&self) -> u32
        ensures height { result ≡ self.now.height }
        ensures low { 2 ^ result ≤ (length (runs_of (idents_in (entries_of self.now.blocks))) + 1) * (length (runs_of (idents_in (entries_of self.now.blocks))) + 1) }
    {
        rely!(let _count = self.blocks());
        self.root.height()
    }

    // How many characters it has.
    pub(crate) fn chars(&self) -> u64
        ensures chars { result ≡ length (entries_of self.now.blocks) }
        ensures pieces { ArePieces self.now.blocks }
    {
        self.root.chars()
    }

    // How many maximal runs it has.
    pub(crate) fn blocks(&self) -> u64
        ensures blocks { result ≡ length self.now.blocks }
        ensures runs { length self.now.blocks ≡ length (runs_of (idents_in (entries_of self.now.blocks))) }
        ensures rises { IsTrue (is_increasing (idents_in (entries_of self.now.blocks))) }
        ensures apart { IsTrue (are_apart None (runs_in self.now.blocks)) }
    {
        rely!(let _chars = self.root.chars());
        self.root.blocks()
    }

    // The place of an identifier, or if it isn't there the number of identifiers less than it.
    pub(crate) fn place(&self, id: &Ident) -> Result<u64, u64>
        ensures place { result ≡ place_of id.now (idents_in (entries_of self.now.blocks)) }
    {
        rely!(let _chars = self.root.chars());
        match self.root.node() {
            None => Err(0),
            Some(node) => node.find(id),
        }
    }

    // The block that holds a place, and the place in it. It costs a step for each level.
    pub(crate) fn locate(&self, i: u64) -> (&Block, u32)
        requires place { i < length (entries_of self.now.blocks) }
        ensures within { result.1 < length result.0.now.1 }
        ensures located { located self.now.blocks i ≡ Some (result.0.now, result.1) }
    {
        self.root.locate(i)
    }

    // The character at a place.
    pub(crate) fn char(&self, i: u64) -> char
        requires place { i < length (entries_of self.now.blocks) }
        ensures char { slice_get (chars_in (entries_of self.now.blocks)) i ≡ Some result }
    {
        rely!(let _chars = self.chars());
        let (block, at) = self.locate(i);
        block.text().get(at as usize)
    }

    // The identifier at a place.
    pub(crate) fn ident(&self, i: u64) -> Result<Ident, AllocError>
        requires place { i < length (entries_of self.now.blocks) }
        ensures ident { IfOk result (λ x. slice_get (idents_in (entries_of self.now.blocks)) i ≡ Some x) }
    {
        rely!(let _chars = self.chars());
        let (block, at) = self.locate(i);
        rely!(let _len = block.len());
        let id = block.run().first().shifted(at)?;
        Ok(id)
    }

    /// The identifiers right before a place and right behind it, each as the first one of its run and how far it is from that: none is
    /// before the first place, and none behind the last. It costs a step for each level, and takes no memory.
    pub fn neighbours(&self, i: u64) -> (Option<(&Ident, u32)>, Option<(&Ident, u32)>)
        requires place { i ≤ length (entries_of self.now.blocks) }
        ensures none { i ≡ 0 → option_map (λ p. shifted (pos p.1) p.0.now) result.0 ≡ None }
        ensures before { 0 < i → option_map (λ p. shifted (pos p.1) p.0.now) result.0 ≡ slice_get (idents_in (entries_of self.now.blocks)) (i - 1) }
        ensures behind { option_map (λ p. shifted (pos p.1) p.0.now) result.1 ≡ slice_get (idents_in (entries_of self.now.blocks)) i }

        // Their offsets are in the program's range.
        ensures before_fits { IfSome result.0 (λ p. (offset_of (last_of p.0.now) +ℤ pos p.1) ≤ℤ greatest_offset) }
        ensures behind_fits { IfSome result.1 (λ p. (offset_of (last_of p.0.now) +ℤ pos p.1) ≤ℤ greatest_offset) }
    {
        rely!(let _chars = self.chars());
        let (before, behind) = self.root.beside(i);
        (ident_at(before), ident_at(behind))
    }

    // The run of this many identifiers from a place on, or of fewer if no more stand in one block there.
    pub(crate) fn run_from(&self, i: u64, most: u32) -> Result<Run, AllocError>
        requires place { i < length (entries_of self.now.blocks) }
        requires some { 0 < most }
        ensures some { IfOk result (λ run. 0 < run.1) }
        ensures most { IfOk result (λ run. run.1 ≤ most) }
        ensures within { IfOk result (λ run. i + run.1 ≤ length (entries_of self.now.blocks)) }
        ensures idents { IfOk result (λ run. take run.1 (drop i (idents_in (entries_of self.now.blocks))) ≡ run_idents run.0 run.1) }
    {
        rely!(let _chars = self.chars());
        let (block, at) = self.locate(i);
        let len = (block.len() - at).min(most);
        block.run().part(at, len)
    }

    /// How many identifiers of a run, from a place of the run on, are adjacent in the tree. There is none if
    /// the first of them isn't there. It costs a comparison of identifiers for each level, whatever their number.
    pub fn standing(&self, run: &Run, from: u32) -> Result<u32, AllocError>
        requires place { from < run.now.1 }
        ensures within { IfOk result (λ n. from + n ≤ run.now.1) }
        ensures there { IfOk result (λ n. (k : ℕ) → k < n → IsTrue (has_ident (idents_in (entries_of self.now.blocks)) (shifted (pos (from + k)) run.now.0))) }
        ensures none { IfOk result (λ n. n ≡ 0 → IsFalse (has_ident (idents_in (entries_of self.now.blocks)) (shifted (pos from) run.now.0))) }
    {
        rely!(let _blocks = self.blocks());
        let len = run.len();
        let first = run.first().shifted(from)?;
        let Ok(i) = self.place(&first) else {
            return Ok(0);
        };
        let part = self.run_from(i, len - from)?;
        Ok(part.len())
    }

    // The rest of a run from a place on, and of no more than this many characters, with them. It costs a step for each level, and
    // their number.
    pub(crate) fn stretch(&self, i: u64, most: u32) -> Result<(Run, Text), AllocError>
        requires place { i < length (entries_of self.now.blocks) }
        requires some { 0 < most }
        ensures most { IfOk result (λ part. part.0.1 ≤ most) }
        ensures some { IfOk result (λ part. 0 < part.0.1) }
        ensures as_many { IfOk result (λ part. length part.1 ≡ part.0.1) }
        ensures within { IfOk result (λ part. i + part.0.1 ≤ length (entries_of self.now.blocks)) }
        ensures entries { IfOk result (λ part. piece_entries (part.0, part.1) ≡ take part.0.1 (drop i (entries_of self.now.blocks))) }
    {
        rely!(let _chars = self.chars());
        let (block, at) = self.locate(i);
        let len = (block.len() - at).min(most);
        let run = block.run().part(at, len)?;
        let text = part_of_text(self.alloc, block.text(), at as usize, len as usize)?;
        Ok((run, text))
    }

    // Each of the identifiers is one. It does nothing.
    pub(crate) fn are_idents(&self)
        ensures idents { IsTrue (list_all is_ident (idents_in (entries_of self.now.blocks))) }
    {
        rely!(let _chars = self.root.chars());
    }

    // All characters.
    pub(crate) fn chars_text(&self) -> Result<Text, AllocError>
        ensures text { IfOk result (λ cs. cs ≡ chars_in (entries_of self.now.blocks)) }
    {
        let mut text = Text::new(self.alloc);
        self.root.push_text(&mut text)?;
        Ok(text)
    }

    /// All characters in UTF-8, with no list of them between. It costs their number and that of runs.
    pub fn utf8(&self) -> Result<String, AllocError>
        ensures utf8 { IfOk result (λ s. string_bytes s ≡ encode_utf8_all (chars_in (entries_of self.now.blocks))) }
    {
        let mut text = String::with_capacity(self.alloc, self.chars() as usize)?;
        self.root.push_utf8(&mut text)?;
        Ok(text)
    }

    // The tree's allocator.
    pub(crate) fn alloc(&self) -> Global {
        self.alloc
    }

    /// Puts characters in at a place, between its neighbours, with the identifiers from this one on.
    ///
    /// It costs a step for each level and the characters; where they go into the middle of a run, also those in front of them there
    /// or those after them, whichever are fewer. At the end or at the front of a run that it goes on with it moves none of that
    /// run's characters; where it joins two runs, those of the shorter one. It compares identifiers only with the two neighbours,
    /// and copies the first one only where it doesn't make one run longer.
    ///
    /// # Errors
    ///
    /// `AllocError` where it finds no memory. The tree is as before then.
    pub fn insert_between(&mut self, i: u64, first: &Ident, text: &Text) -> Result<(), AllocError>
        requires place { i ≤ length (entries_of self.old.blocks) }
        requires piece { IsPiece (first.now, length text.now) text.now }
        requires room { length (entries_of self.old.blocks) + length text.now < 2 ^ 64 }
        requires rises { IsTrue (is_increasing (idents_in (inserted i (piece_entries ((first.now, length text.now), text.now)) (entries_of self.old.blocks)))) }
        ensures ok { OnOk result (entries_of self.new.blocks ≡ inserted i (piece_entries ((first.now, length text.now), text.now)) (entries_of self.old.blocks)) }
        ensures err { OnErr result (entries_of self.new.blocks ≡ entries_of self.old.blocks) }
    {
        let link = mem::replace(&mut self.root, Link::empty());
        match insert_at(self.alloc, link, i, first, text) {
            Ok(root) => {
                rely!(let _chars = root.chars());
                self.root = root;
                Ok(())
            }
            Err(root) => {
                self.root = root;
                Err(AllocError)
            }
        }
    }

    // Puts blocks in the place of others. It costs a few steps for each level and each patch, and takes no memory.
    pub(crate) fn put_patches(&mut self, patches: Vec<Patch>)
        requires patches { ArePatches (reverse patches.items) self.old.blocks }
        requires chars_fit { length (entries_of (patched (reverse patches.items) self.old.blocks)) < 2 ^ 64 }
        requires loose { IsTrue (are_loose None (runs_in (patched (reverse patches.items) self.old.blocks))) }
        requires rises { IsTrue (is_increasing (idents_in (entries_of (patched (reverse patches.items) self.old.blocks)))) }
        ensures blocks { self.new.blocks ≡ patched (reverse patches.items) self.old.blocks }
    {
        let link = mem::replace(&mut self.root, Link::empty());
        let root = with_patches(link, patches);
        rely!(let _chars = root.chars());
        self.root = root;
    }

    // Puts the rest of a block in its place. It costs a few steps for each level, and the characters that go, and takes no memory.
    pub(crate) fn put_rest(&mut self, i: u64, rest: Rest)
        requires between { IsBetween i self.old.blocks }
        requires within { i < length (entries_of self.old.blocks) }
        requires is_rest { IfSome (located self.old.blocks i) (λ p. IsRest rest p.0) }
        requires chars_fit { length (entries_of (rested rest self.old.blocks i)) < 2 ^ 64 }
        requires loose { IsTrue (are_loose None (runs_in (rested rest self.old.blocks i))) }
        requires rises { IsTrue (is_increasing (idents_in (entries_of (rested rest self.old.blocks i)))) }
        ensures blocks { self.new.blocks ≡ rested rest self.old.blocks i }
    {
        let link = mem::replace(&mut self.root, Link::empty());
        let root = with_rest(link, i, rest);
        rely!(let _chars = root.chars());
        self.root = root;
    }

    // Takes this many characters out from a place on.
    pub(crate) fn remove_range(&mut self, i: u64, count: u64) -> Result<(), AllocError>
        requires some { 0 < count }
        requires within { i + count ≤ length (entries_of self.old.blocks) }
        ensures ok { OnOk result (entries_of self.new.blocks ≡ removed i count (entries_of self.old.blocks)) }
        ensures err { OnErr result (entries_of self.new.blocks ≡ entries_of self.old.blocks) }
    {
        let link = mem::replace(&mut self.root, Link::empty());
        rely!(let _chars = link.chars());
        match remove_range(self.alloc, link, i, count) {
            Ok(root) => {
                rely!(let _chars = root.chars());
                self.root = root;
                Ok(())
            }
            Err(root) => {
                self.root = root;
                Err(AllocError)
            }
        }
    }
}

// The identifier at a place of a block, as the first one of its run and how far it is from that.
fn ident_at<'a>(place: Option<Place<'a>>) -> Option<(&'a Ident, u32)>
    requires within { IfSome (lent place) (λ p. p.1 < length p.0.1) }
    ensures ident { option_map (λ p. shifted (pos p.1) p.0.now) result ≡ option_map ident_there (lent place.entry) }
    ensures fits { IfSome result (λ p. (offset_of (last_of p.0.now) +ℤ pos p.1) ≤ℤ greatest_offset) }
{
    let (block, at) = place?;
    rely!(let _len = block.len());
    let run = block.run();
    rely!(let _last = run.first().last());
    Some((run.first(), at))
}
