//! Trees taken apart and put together. Nothing here takes memory.

ghost use Rattle.std.specs.Prelude.{◌≡◌, ◌+◌, ◌^◌, ◌<◌, ◌≤◌, [], ◌∷◌, ◌++◌, length, None, IfSome, IfNone};
ghost use Rattle.rls_runs.specs.Runs.{run_before};
ghost use Rattle.rls_blocks.specs.Trees.{IsPiece, entries_of, runs_in};
ghost use Rattle.rls_blocks.specs.Edits.{goes_on, on};
ghost use Rattle.rls_blocks.specs.Splits.{Splits};

use crate::balance::join;
use crate::node::{Link, Node, Single};
use crate::side::Side;
use rls_ident::{Ident, rely};

/// A tree split at a place.
#[derive(Drop)]
pub(crate) enum Halves {
    /// Between two blocks, or at an end: the trees in front of the place and after it.
    Between(Link, Link),
    /// Within a block: the tree in front of the block, the block, the place counted from its start, and the tree after it.
    Within(Link, Single, u32, Link),
}

/// The tree split at a place. It costs a step for each level.
pub(crate) fn split(link: Link, i: u64) -> Halves
    requires place { i ≤ length (entries_of link.blocks) }
    ensures splits { Splits link.blocks i result }
{
    rely!(let _chars = link.chars());
    let Some(opened) = link.open() else {
        return Halves::Between(Link::empty(), Link::empty());
    };
    let front = opened.front;
    let end = front + opened.own.len() as u64;
    if i == front {
        let far = join(Link::empty(), opened.own, opened.right);
        return Halves::Between(opened.left, far);
    }
    if i < front {
        return match split(opened.left, i) {
            Halves::Between(near, far) => Halves::Between(
                near,
                join(far, opened.own, opened.right),
            ),
            Halves::Within(near, own, at, far) => {
                Halves::Within(near, own, at, join(far, opened.own, opened.right))
            }
        };
    }
    if i < end {
        return Halves::Within(opened.left, opened.own, (i - front) as u32, opened.right);
    }
    match split(opened.right, i - end) {
        Halves::Between(near, far) => Halves::Between(join(opened.left, opened.own, near), far),
        Halves::Within(near, own, at, far) => {
            Halves::Within(join(opened.left, opened.own, near), own, at, far)
        }
    }
}

/// The block at an end, and the tree of all others, if there is one. It costs a step for each level.
pub(crate) fn end_out(link: Link, side: Side) -> Option<(Single, Link)>
    ensures blocks { IfSome result (λ parts. link.blocks ≡ on side (parts.0 ∷ parts.1.blocks) (parts.1.blocks ++ parts.0 ∷ [])) }
    ensures chars { IfSome result (λ parts. length (entries_of link.blocks) ≡ length parts.0.1 + length (entries_of parts.1.blocks)) }
    ensures piece { IfSome result (λ parts. IsPiece parts.0.0 parts.0.1) }
    ensures chars_fit { length (entries_of link.blocks) < 2 ^ 64 }
    ensures empty { IfNone result (link.blocks ≡ []) }
{
    rely!(let _chars = link.chars());
    let opened = link.open()?;
    rely!(let _len = opened.own.len());
    match side {
        Side::Front => match end_out(opened.left, side) {
            None => Some((opened.own, opened.right)),
            Some((first, rest)) => Some((first, join(rest, opened.own, opened.right))),
        },
        Side::Behind => match end_out(opened.right, side) {
            None => Some((opened.own, opened.left)),
            Some((last, rest)) => Some((last, join(opened.left, opened.own, rest))),
        },
    }
}

/// Two trees, one after the other. It costs a step for each level.
pub(crate) fn concat(front: Link, behind: Link) -> Link
    requires chars_fit { length (entries_of front.blocks) + length (entries_of behind.blocks) < 2 ^ 64 }
    ensures blocks { result.blocks ≡ front.blocks ++ behind.blocks }
    ensures chars { length (entries_of result.blocks) ≡ length (entries_of front.blocks) + length (entries_of behind.blocks) }
{
    match end_out(front, Side::Behind) {
        None => behind,
        Some((last, rest)) => join(rest, last, behind),
    }
}

/// Whether the identifier goes on with the last run. It costs a step for each level.
pub(crate) fn ends_before(link: &Link, first: &Ident) -> bool
    ensures goes_on { result ≡ goes_on (run_before None (runs_in link.now.blocks)) first.now }
{
    match link.node() {
        None => false,
        Some(node) => node.ends_before(first),
    }
}

impl Node {
    // Whether the identifier goes on with the last run.
    fn ends_before(&self, first: &Ident) -> bool
        ensures goes_on { result ≡ goes_on (run_before None (runs_in self.now.blocks)) first.now }
        ensures some { 0 < length self.now.blocks }
    {
        let own = self.run();
        match self.right() {
            None => own.touches(first),
            Some(right) => right.ends_before(first),
        }
    }
}
