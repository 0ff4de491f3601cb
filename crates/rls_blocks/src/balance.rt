//! Trees joined and kept in balance.

ghost use Rattle.std.specs.Prelude.{◌≡◌, ◌+◌, ◌^◌, ◌<◌, ◌≤◌, max, ◌∷◌, ◌++◌, length};
ghost use Rattle.rls_blocks.specs.Trees.{entries_of};
ghost use Rattle.rls_blocks.specs.Edits.{around};

use crate::node::{Link, Opened, Single};
use crate::side::Side;

// A block between two trees whose heights differ by at most one level. The first tree is on this side of the block.
fn make(side: Side, first: Link, middle: Single, other: Link) -> Link
    requires chars_fit { length (entries_of first.blocks) + length middle.1 + length (entries_of other.blocks) < 2 ^ 64 }
    requires not_higher { first.height ≤ other.height + 1 }
    requires other_not_higher { other.height ≤ first.height + 1 }
    ensures blocks { result.blocks ≡ around side first.blocks middle other.blocks }
    ensures chars { length (entries_of result.blocks) ≡ length (entries_of first.blocks) + length middle.1 + length (entries_of other.blocks) }
    ensures height { result.height ≡ max first.height other.height + 1 }
{
    if first.node().is_none() && other.node().is_none() {
        return middle.alone();
    }
    match side {
        Side::Front => Opened::new(first, middle, other).close(),
        Side::Behind => Opened::new(other, middle, first).close(),
    }
}

// The same, but the first tree may be two levels higher.
fn lean(side: Side, high: Link, middle: Single, low: Link) -> Link
    requires chars_fit { length (entries_of high.blocks) + length middle.1 + length (entries_of low.blocks) < 2 ^ 64 }
    requires low_not_higher { low.height ≤ high.height + 1 }
    requires high_not_higher { high.height ≤ low.height + 2 }
    ensures blocks { result.blocks ≡ around side high.blocks middle low.blocks }
    ensures chars { length (entries_of result.blocks) ≡ length (entries_of high.blocks) + length middle.1 + length (entries_of low.blocks) }
    ensures not_lower { max high.height low.height ≤ result.height }
    ensures at_most_one_higher { result.height ≤ max high.height low.height + 1 }
    ensures stays { high.height ≤ low.height + 1 → result.height ≡ max high.height low.height + 1 }
{
    if high.height() <= low.height() + 1 {
        return make(side, high, middle, low);
    }
    let Some((outer, own, inner)) = high.open_at(side) else {
        unreachable!()
    };
    if inner.height() <= outer.height() {
        return make(side, outer, own, make(side, inner, middle, low));
    }
    let Some((far, core, near)) = inner.open_at(side) else {
        unreachable!()
    };
    let kept = make(side, outer, own, far);
    let moved = make(side, near, middle, low);
    make(side, kept, core, moved)
}

/// Two trees with a block between them, as one tree. It costs the difference of their heights,
/// and takes no memory.
pub(crate) fn join(left: Link, middle: Single, right: Link) -> Link
    requires chars_fit { length (entries_of left.blocks) + length middle.1 + length (entries_of right.blocks) < 2 ^ 64 }
    ensures blocks { result.blocks ≡ left.blocks ++ middle ∷ right.blocks }
    ensures chars { length (entries_of result.blocks) ≡ length (entries_of left.blocks) + length middle.1 + length (entries_of right.blocks) }
    ensures not_lower { max left.height right.height ≤ result.height }
    ensures at_most_one_higher { result.height ≤ max left.height right.height + 1 }
    ensures stays { left.height ≤ right.height + 1 → right.height ≤ left.height + 1 → result.height ≡ max left.height right.height + 1 }
{
    if left.height() < right.height() {
        return join_to(Side::Behind, right, middle, left);
    }
    join_to(Side::Front, left, middle, right)
}

// The same. The first tree is on this side of the block, and the other is at most one level higher.
fn join_to(side: Side, high: Link, middle: Single, low: Link) -> Link
    requires chars_fit { length (entries_of high.blocks) + length middle.1 + length (entries_of low.blocks) < 2 ^ 64 }
    requires not_higher { low.height ≤ high.height + 1 }
    ensures blocks { result.blocks ≡ around side high.blocks middle low.blocks }
    ensures chars { length (entries_of result.blocks) ≡ length (entries_of high.blocks) + length middle.1 + length (entries_of low.blocks) }
    ensures not_lower { max high.height low.height ≤ result.height }
    ensures at_most_one_higher { result.height ≤ max high.height low.height + 1 }
    ensures stays { high.height ≤ low.height + 1 → result.height ≡ max high.height low.height + 1 }
{
    if high.height() <= low.height() + 1 {
        return make(side, high, middle, low);
    }
    let Some((outer, own, inner)) = high.open_at(side) else {
        unreachable!()
    };
    let joined = join_to(side, inner, middle, low);
    lean(side.other(), joined, own, outer)
}
