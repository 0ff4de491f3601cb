//! Nodes taken apart and put together again.

ghost use Rattle.std.specs.Prelude.{◌≡◌, ◌+◌, ◌^◌, ◌<◌, ◌≤◌, max, ◌∷◌, ◌++◌, length};
ghost use Rattle.rls_blocks.specs.Trees.{ArePieces, IsLow, entries_of, pieces_prop};

use super::{Link, Node, Single};
use std::mem;

/// A node taken apart: its block, the trees on both sides, and their numbers, so that it is put together again with no look into them.
#[derive(Drop)]
pub(crate) struct Opened {
    pub(crate) left: Link,
    pub(crate) own: Single,
    pub(crate) right: Link,
    /// How many characters the left tree has.
    pub(crate) front: u64,
    /// How many characters the right tree has.
    pub(crate) behind: u64,
    /// How many blocks both have.
    pub(super) blocks: u64,
    /// How many levels the node has.
    pub(super) height: u32,
    ghost front_is: { front ≡ length (entries_of left.blocks) },
    ghost behind_is: { behind ≡ length (entries_of right.blocks) },
    ghost blocks_is: { blocks ≡ length left.blocks + length right.blocks },
    ghost height_is: { height ≡ max left.height right.height + 1 },
    ghost left_not_higher: { left.height ≤ right.height + 1 },
    ghost right_not_higher: { right.height ≤ left.height + 1 },
    ghost left_are: { ArePieces left.blocks } by { pieces_prop left.blocks },
    ghost right_are: { ArePieces right.blocks } by { pieces_prop right.blocks },
    ghost left_low: { IsLow left.height (length left.blocks) },
    ghost right_low: { IsLow right.height (length right.blocks) },
}

impl Opened {
    /// A block and the trees on its sides, whose heights differ by one level at most.
    pub(crate) fn new(left: Link, own: Single, right: Link) -> Opened
        requires chars_fit { length (entries_of left.blocks) + length own.1 + length (entries_of right.blocks) < 2 ^ 64 }
        requires left_not_higher { left.height ≤ right.height + 1 }
        requires right_not_higher { right.height ≤ left.height + 1 }
        ensures left { result.left ≡ left }
        ensures own { result.own ≡ own }
        ensures right { result.right ≡ right }
    {
        let front = left.chars();
        let behind = right.chars();
        let blocks = left.blocks() + right.blocks();
        let height = left.height().max(right.height()) + 1;
        Opened {
            left,
            own,
            right,
            front,
            behind,
            blocks,
            height,
        }
    }

    // A node taken apart.
    pub(super) fn of(mut node: Box<Node>) -> Opened
        ensures left { result.left ≡ node.value.left }
        ensures own { result.own ≡ node.value.block }
        ensures blocks { node.value.blocks ≡ result.left.blocks ++ result.own ∷ result.right.blocks }
        ensures chars { length (entries_of node.value.blocks) ≡ result.front + length result.own.1 + result.behind }
        ensures chars_fit { length (entries_of node.value.blocks) < 2 ^ 64 }
        ensures height { node.value.height ≡ result.height }
    {
        let inner: &mut Node = &mut node;
        let left = mem::replace(&mut inner.left, Link::empty());
        let right = mem::replace(&mut inner.right, Link::empty());
        let front = inner.front;
        let behind = inner.chars - inner.end;
        let blocks = inner.blocks - 1;
        let height = inner.height;
        let len = inner.block.len() as u64;
        inner.front = 0;
        inner.end = len;
        inner.chars = len;
        inner.blocks = 1;
        inner.height = 1;
        Opened {
            left,
            own: Single { node },
            right,
            front,
            behind,
            blocks,
            height,
        }
    }

    /// The node put together.
    pub(crate) fn close(self) -> Link
        requires chars_fit { self.front + length self.own.1 + self.behind < 2 ^ 64 }
        ensures blocks { result.blocks ≡ self.left.blocks ++ self.own ∷ self.right.blocks }
        ensures chars { length (entries_of result.blocks) ≡ self.front + length self.own.1 + self.behind }
        ensures height { result.height ≡ self.height }
    {
        let own = self.own;
        let mut node = own.node;
        let inner: &mut Node = &mut node;
        inner.front = self.front;
        inner.end = self.front + inner.block.len() as u64;
        inner.chars = inner.end + self.behind;
        inner.blocks = self.blocks + 1;
        inner.height = self.height;
        inner.left = self.left;
        inner.right = self.right;
        Link::to(node)
    }
}
