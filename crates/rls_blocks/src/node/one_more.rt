//! One more block in a tree, after a character: one way down, and the numbers of the nodes on the way back. A node is taken apart only if
//! the block goes in beside its own, or if one of its sides becomes two levels higher than the other.
//! Why: CHOICES.md, 199, 209.

ghost use Rattle.std.specs.Prelude.{◌≡◌, ◌+◌, ◌^◌, ◌<◌, ◌≤◌, length, OnOk, OnErr};
ghost use Rattle.rls_blocks.specs.Trees.{entries_of};
ghost use Rattle.rls_blocks.specs.Edits.{put_among};

use super::{Link, Node, Opened, Single};
use crate::balance::join;
use crate::cut::cut;
use rls_ident::rely;
use std::alloc::{AllocError, Global};
use std::mem;

impl Link {
    /// Puts a block in after the character at a place. If that isn't the last one of its block, the block is cut in two there. It costs
    /// a step for each level, and the characters of the shorter part of a block that is cut.
    ///
    /// # Errors
    ///
    /// If there is no memory to cut a block in two. The blocks stay as they were.
    #[cycle(put_after)]
    pub(crate) fn put_after(&mut self, alloc: Global, i: u64, new: Single) -> Result<(), AllocError>
        requires place { i < length (entries_of self.old.blocks) }
        requires chars_fit { length (entries_of self.old.blocks) + length new.1 < 2 ^ 64 }
        ensures ok { OnOk result (self.new.blocks ≡ put_among new self.old.blocks i) }
        ensures err { OnErr result (self.new.blocks ≡ self.old.blocks) }
        ensures not_lower { self.old.height ≤ self.new.height }
    {
        let Some(node) = mem::replace(&mut self.node, None) else {
            unreachable!()
        };
        if i < node.front {
            return self.put_left(node, alloc, i, new);
        }
        if i < node.end {
            return self.put_beside(node, alloc, i, new);
        }
        self.put_right(node, alloc, i, new)
    }

    // Becomes the tree of a node, of which the block goes into the left tree.
    #[cycle(put_after)]
    fn put_left(
        &mut self,
        mut node: Box<Node>,
        alloc: Global,
        i: u64,
        new: Single,
    ) -> Result<(), AllocError>
        requires place { i < length (entries_of node.value.left.blocks) }
        requires chars_fit { length (entries_of node.value.blocks) + length new.1 < 2 ^ 64 }
        ensures ok { OnOk result (self.new.blocks ≡ put_among new node.value.blocks i) }
        ensures err { OnErr result (self.new.blocks ≡ node.value.blocks) }
        ensures not_lower { node.value.height ≤ self.new.height }
    {
        rely!(let _new = new.len());
        let inner: &mut Node = &mut node;
        let own = inner.end - inner.front;
        let behind = inner.chars - inner.end;
        let others = inner.blocks - inner.left.blocks();
        let done = inner.left.put_after(alloc, i, new);
        let high = inner.left.height();
        if high < inner.height || high <= inner.right.height() + 1 {
            inner.front = inner.left.chars();
            inner.end = inner.front + own;
            inner.chars = inner.end + behind;
            inner.blocks = others + inner.left.blocks();
            inner.height = inner.height.max(high + 1);
            *self = Link::to(node);
            return done;
        }
        let left = mem::replace(&mut inner.left, Link::empty());
        let right = mem::replace(&mut inner.right, Link::empty());
        inner.front = 0;
        inner.end = own;
        inner.chars = own;
        inner.blocks = 1;
        inner.height = 1;
        *self = join(left, Single { node }, right);
        done
    }

    // Becomes the tree of a node, of which the block goes into the right tree.
    #[cycle(put_after)]
    fn put_right(
        &mut self,
        mut node: Box<Node>,
        alloc: Global,
        i: u64,
        new: Single,
    ) -> Result<(), AllocError>
        requires behind { length (entries_of node.value.left.blocks) + length node.value.block.1 ≤ i }
        requires place { i < length (entries_of node.value.blocks) }
        requires chars_fit { length (entries_of node.value.blocks) + length new.1 < 2 ^ 64 }
        ensures ok { OnOk result (self.new.blocks ≡ put_among new node.value.blocks i) }
        ensures err { OnErr result (self.new.blocks ≡ node.value.blocks) }
        ensures not_lower { node.value.height ≤ self.new.height }
    {
        rely!(let _new = new.len());
        let inner: &mut Node = &mut node;
        let others = inner.blocks - inner.right.blocks();
        let done = inner.right.put_after(alloc, i - inner.end, new);
        let high = inner.right.height();
        if high < inner.height || high <= inner.left.height() + 1 {
            inner.chars = inner.end + inner.right.chars();
            inner.blocks = others + inner.right.blocks();
            inner.height = inner.height.max(high + 1);
            *self = Link::to(node);
            return done;
        }
        let left = mem::replace(&mut inner.left, Link::empty());
        let right = mem::replace(&mut inner.right, Link::empty());
        let own = inner.end - inner.front;
        inner.front = 0;
        inner.end = own;
        inner.chars = own;
        inner.blocks = 1;
        inner.height = 1;
        *self = join(left, Single { node }, right);
        done
    }

    // Becomes the tree of a node, of which the own block has the place.
    fn put_beside(
        &mut self,
        node: Box<Node>,
        alloc: Global,
        i: u64,
        new: Single,
    ) -> Result<(), AllocError>
        requires behind { length (entries_of node.value.left.blocks) ≤ i }
        requires place { i < length (entries_of node.value.left.blocks) + length node.value.block.1 }
        requires chars_fit { length (entries_of node.value.blocks) + length new.1 < 2 ^ 64 }
        ensures ok { OnOk result (self.new.blocks ≡ put_among new node.value.blocks i) }
        ensures err { OnErr result (self.new.blocks ≡ node.value.blocks) }
        ensures not_lower { node.value.height ≤ self.new.height }
    {
        let opened = Opened::of(node);
        let len = opened.own.len();
        let near = (i - opened.front) as u32 + 1;
        if near == len {
            let right = join(Link::empty(), new, opened.right);
            *self = join(opened.left, opened.own, right);
            return Ok(());
        }
        match cut(alloc, opened.own, near, near) {
            Ok((front, back)) => {
                let left = join(opened.left, front, Link::empty());
                let right = join(Link::empty(), back, opened.right);
                *self = join(left, new, right);
                Ok(())
            }
            Err(own) => {
                *self = join(opened.left, own, opened.right);
                Err(AllocError)
            }
        }
    }
}
