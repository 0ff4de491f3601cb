//! One block of a tree changed in its place: one way down, and the numbers of the nodes on the way back. No node is taken apart.
//! Why: CHOICES.md, 185, 195.

ghost use Rattle.std.specs.Prelude.{◌≡◌, ◌+◌, ◌^◌, ◌<◌, ◌≤◌, length, IfSome, IfOk, IfErr, OnOk, OnErr};
ghost use Rattle.rls_blocks.specs.Trees.{entries_of};
ghost use Rattle.rls_blocks.specs.Edits.{located, changed_at, gain, MayChange};

use super::{Link, Node};
use crate::change::Change;
use std::alloc::AllocError;

impl Link {
    /// The tree after a change of the block that has a place. It costs a step for each level and what the change costs; if it finds
    /// no memory it answers the tree as it was.
    pub(crate) fn with_change(self, i: u64, change: Change<'_>) -> Result<Link, Link>
        requires place { i < length (entries_of self.blocks) }
        requires may { IfSome (located self.blocks i) (λ p. MayChange change p.0) }
        requires chars_fit { length (entries_of self.blocks) + gain change < 2 ^ 64 }
        ensures ok { IfOk result (λ new. new.blocks ≡ changed_at change.entry self.blocks i) }
        ensures err { IfErr result (λ old. old.blocks ≡ self.blocks) }
    {
        let mut link = self;
        match link.change_at(i, change) {
            Ok(()) => Ok(link),
            Err(_) => Err(link),
        }
    }

    // Changes the block that has a place.
    #[cycle(change_at)]
    fn change_at(&mut self, i: u64, change: Change<'_>) -> Result<(), AllocError>
        requires place { i < length (entries_of self.old.blocks) }
        requires may { IfSome (located self.old.blocks i) (λ p. MayChange change p.0) }
        requires chars_fit { length (entries_of self.old.blocks) + gain change < 2 ^ 64 }
        ensures ok { OnOk result (self.new.blocks ≡ changed_at change.entry self.old.blocks i) }
        ensures err { OnErr result (self.new.blocks ≡ self.old.blocks) }
        ensures chars { length (entries_of self.new.blocks) ≤ length (entries_of self.old.blocks) + gain change.entry }
        ensures count { length self.new.blocks ≡ length self.old.blocks }
        ensures height { self.new.height ≡ self.old.height }
    {
        match &mut self.node {
            None => unreachable!(),
            Some(node) => node.change_at(i, change),
        }
    }
}

impl Node {
    // The same.
    #[cycle(change_at)]
    fn change_at(&mut self, i: u64, change: Change<'_>) -> Result<(), AllocError>
        requires place { i < length (entries_of self.old.blocks) }
        requires may { IfSome (located self.old.blocks i) (λ p. MayChange change p.0) }
        requires chars_fit { length (entries_of self.old.blocks) + gain change < 2 ^ 64 }
        ensures ok { OnOk result (self.new.blocks ≡ changed_at change.entry self.old.blocks i) }
        ensures err { OnErr result (self.new.blocks ≡ self.old.blocks) }
        ensures chars { length (entries_of self.new.blocks) ≤ length (entries_of self.old.blocks) + gain change.entry }
        ensures count { length self.new.blocks ≡ length self.old.blocks }
        ensures height { self.new.height ≡ self.old.height }
    {
        let behind = self.chars - self.end;
        if i < self.front {
            let done = self.left.change_at(i, change);
            self.front = self.left.chars();
            self.end = self.front + self.block.len() as u64;
            self.chars = self.end + behind;
            return done;
        }
        if i < self.end {
            let done = self.block.change(change);
            self.end = self.front + self.block.len() as u64;
            self.chars = self.end + behind;
            return done;
        }
        let done = self.right.change_at(i - self.end, change);
        self.chars = self.end + self.right.chars();
        done
    }
}
