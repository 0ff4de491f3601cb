//! The order of two epochs, by the ways up from both: first to one depth, and then by jumps to where they
//! meet.

ghost use Rattle.std.specs.Prelude.{◌≡◌, ◌-◌, ◌<◌, ◌≤◌, ◌∷◌, length, if◌then◌else◌, IfSome, Some, None};
ghost use Rattle.std.specs.Option.{option_map};
ghost use Rattle.std.specs.Ordering.{is_lt};
ghost use Rattle.rls_rename.specs.Tree.{Node, epoch_cmp};
ghost use Rattle.rls_epoch.specs.Climbing.{name_cmp, side_cmp};
ghost use Rattle.rls_epoch.specs.Climbs.{IsAbove, AreTwo, IsOpened, below_or};
ghost use Rattle.rls_epoch.specs.Jumps.{depth_at, AreLevel, IsUpFrom};
ghost use Rattle.rls_epoch.specs.Links.{epoch_at, up_at};
ghost use Rattle.rls_epoch.specs.Seen.{nodes_of};
ghost use Rattle.rls_epoch.specs.Sorted.{place_name};

use crate::nodes::Nodes;
use rls_ident::{EpochName, rely};
use std::cmp::Ordering;

// The number of an epoch on the way, and the place of its child on the way, if it isn't the first one.
#[derive(Clone, Copy)]
pub(crate) struct Climb {
    pub(crate) at: usize,
    below: Option<usize>,
}

impl Climb {
    // At the beginning of the way.
    fn starting_at(number: usize) -> Climb
        ensures start { result ≡ record { at = number; below = None } }
    {
        Climb {
            at: number,
            below: None,
        }
    }

    // One step up.
    fn climbed(self, nodes: &Nodes) -> Climb
        requires some { 0 < self.at }
        requires within { self.at ≤ length nodes.now.placed }
        ensures at { result.at ≡ up_at nodes.now.placed (self.at - 1) }
        ensures below { result.below ≡ Some (self.at - 1) }
    {
        let place = self.at - 1;
        Climb {
            at: nodes.up_of(place),
            below: Some(place),
        }
    }
}

impl Nodes {
    // The order of two epochs, by their numbers. It costs a few steps for each halving of the way
    // between them.
    pub(crate) fn compare(&self, a: usize, b: usize) -> Ordering
        requires first { a ≤ length self.now.placed }
        requires second { b ≤ length self.now.placed }
        ensures order { result ≡ epoch_cmp (nodes_of self.now.placed) (epoch_at self.now.top self.now.placed a) (epoch_at self.now.top self.now.placed b) }
    {
        rely!(let _count = self.count());
        let (left, right) = self.climb_both(a, b);
        self.compare_sides(left.below, right.below)
    }

    // The number of the greater of two epochs.
    pub(crate) fn greater(&self, a: usize, b: usize) -> usize
        requires first { a ≤ length self.now.placed }
        requires second { b ≤ length self.now.placed }
        ensures greater { result ≡ (if is_lt (epoch_cmp (nodes_of self.now.placed) (epoch_at self.now.top self.now.placed a) (epoch_at self.now.top self.now.placed b)) then b else a) }
    {
        if self.compare(a, b).is_lt() { b } else { a }
    }

    // Whether an epoch of this name, which is to be opened in another, is greater than an epoch, by
    // their numbers. It costs a few steps for each halving of the way between them.
    pub(crate) fn opens_above(&self, a: usize, parent: usize, name: EpochName) -> bool
        requires first { a ≤ length self.now.placed }
        requires second { parent ≤ length self.now.placed }
        ensures above { (node : Node) → node.parent ≡ epoch_at self.now.top self.now.placed parent → IsOpened (nodes_of self.now.placed) node (epoch_at self.now.top self.now.placed a) name → result ≡ is_lt (epoch_cmp (node ∷ nodes_of self.now.placed) (epoch_at self.now.top self.now.placed a) name) }
    {
        rely!(let _count = self.count());
        let (left, right) = self.climb_both(a, parent);
        self.is_before(left.below, self.name_below(right.below, name))
    }

    // The name of the child at a place, or else this one.
    fn name_below(&self, below: Option<usize>, name: EpochName) -> EpochName
        requires within { IfSome below (λ k. k < length self.now.placed) }
        ensures name { result ≡ below_or self.now.placed below name }
    {
        match below {
            None => name,
            Some(place) => self.name_of(place),
        }
    }

    // Whether the way that has this child of an epoch, or ends there, comes before the one that has
    // the child of this name.
    fn is_before(&self, below: Option<usize>, name: EpochName) -> bool
        requires within { IfSome below (λ k. k < length self.now.placed) }
        ensures before { result ≡ is_lt (side_cmp (option_map (place_name self.now.placed) below) (Some name)) }
    {
        match below {
            None => true,
            Some(place) => compare_names(self.name_of(place), name).is_lt(),
        }
    }

    // Both ways up, until they meet. It costs a few steps for each halving of their lengths.
    pub(crate) fn climb_both(&self, a: usize, b: usize) -> (Climb, Climb)
        requires first { a ≤ length self.now.placed }
        requires second { b ≤ length self.now.placed }
        ensures met { result.0.at ≡ result.1.at }
        ensures two { AreTwo result.0.below result.1.below }
        ensures left { IsAbove self.now.top self.now.placed (epoch_at self.now.top self.now.placed a) result.0 }
        ensures right { IsAbove self.now.top self.now.placed (epoch_at self.now.top self.now.placed b) result.1 }
        ensures left_within { IfSome result.0.below (λ k. k < length self.now.placed) }
        ensures right_within { IfSome result.1.below (λ k. k < length self.now.placed) }
    {
        rely!(let _count = self.count());
        let left = self.climb_to(a, self.depth(b));
        let right = self.climb_to(b, self.depth(a));
        if left.at == right.at {
            return (left, right);
        }
        let (x, y) = self.siblings_above(left.at, right.at);
        (
            Climb::starting_at(x).climbed(self),
            Climb::starting_at(y).climbed(self),
        )
    }

    // The way up from an epoch to this depth, if it is deeper.
    fn climb_to(&self, number: usize, depth: usize) -> Climb
        requires within { number ≤ length self.now.placed }
        ensures stays { depth_at self.now.top self.now.placed number ≤ depth → result ≡ record { at = number; below = None } }
        ensures depth { depth ≤ depth_at self.now.top self.now.placed number → depth_at self.now.top self.now.placed result.at ≡ depth }
        ensures above { IsAbove self.now.top self.now.placed (epoch_at self.now.top self.now.placed number) result }
        ensures within { result.at ≤ length self.now.placed }
        ensures below_within { IfSome result.below (λ k. k < length self.now.placed) }
    {
        rely!(let _count = self.count());
        if self.depth(number) <= depth {
            return Climb::starting_at(number);
        }
        Climb::starting_at(self.ancestor(number, depth + 1)).climbed(self)
    }

    // The number of the epoch at this depth on the way up from an epoch.
    pub(crate) fn ancestor(&self, number: usize, depth: usize) -> usize
        requires within { number ≤ length self.now.placed }
        requires deep { depth ≤ depth_at self.now.top self.now.placed number }
        ensures within { result ≤ number }
        ensures depth { depth_at self.now.top self.now.placed result ≡ depth }
        ensures above { IsUpFrom self.now.top self.now.placed number result }
    {
        let mut at = number;
        while self.depth(at) > depth {
            at = self.further_up(at, depth);
        }
        at
    }

    // The number of an epoch further up, but no further than to this depth.
    fn further_up(&self, number: usize, depth: usize) -> usize
        requires within { number ≤ length self.now.placed }
        requires deeper { depth < depth_at self.now.top self.now.placed number }
        ensures lesser { result < number }
        ensures deep { depth ≤ depth_at self.now.top self.now.placed result }
        ensures above { IsUpFrom self.now.top self.now.placed number result }
    {
        rely!(let _depth = (self.count(), self.depth(number)));
        let jump = self.jump(number);
        if self.depth(jump) >= depth {
            jump
        } else {
            self.up_of(number - 1)
        }
    }

    // The two epochs of one parent on the ways up from two epochs at one depth.
    fn siblings_above(&self, a: usize, b: usize) -> (usize, usize)
        requires first { a ≤ length self.now.placed }
        requires second { b ≤ length self.now.placed }
        requires level { AreLevel self.now.top self.now.placed a b }
        ensures level { AreLevel self.now.top self.now.placed result.0 result.1 }
        ensures parent { up_at self.now.placed (result.0 - 1) ≡ up_at self.now.placed (result.1 - 1) }
        ensures some { 0 < result.0 }
        ensures other_some { 0 < result.1 }
        ensures within { result.0 ≤ a }
        ensures other_within { result.1 ≤ b }
        ensures left { IsUpFrom self.now.top self.now.placed a result.0 }
        ensures right { IsUpFrom self.now.top self.now.placed b result.1 }
    {
        rely!(let _count = self.count());
        let (mut left, mut right) = (a, b);
        while self.up_of(left - 1) != self.up_of(right - 1) {
            let next = self.both_further_up(left, right);
            left = next.0;
            right = next.1;
        }
        (left, right)
    }

    // Two epochs at one depth further up from two that have two parents: by jumps, if these lead to such
    // ones, or else the parents.
    fn both_further_up(&self, a: usize, b: usize) -> (usize, usize)
        requires first { a ≤ length self.now.placed }
        requires second { b ≤ length self.now.placed }
        requires level { AreLevel self.now.top self.now.placed a b }
        requires parents { up_at self.now.placed (a - 1) ≡ up_at self.now.placed (b - 1) → ⊥ }
        ensures level { AreLevel self.now.top self.now.placed result.0 result.1 }
        ensures lesser { result.0 < a }
        ensures other_lesser { result.1 < b }
        ensures left { IsUpFrom self.now.top self.now.placed a result.0 }
        ensures right { IsUpFrom self.now.top self.now.placed b result.1 }
    {
        rely!(let _count = self.count());
        let (x, y) = (self.jump(a), self.jump(b));
        if x != y && self.depth(x) == self.depth(y) {
            (x, y)
        } else {
            (self.up_of(a - 1), self.up_of(b - 1))
        }
    }

    // The order of the children at these places of the epoch at which two ways meet.
    fn compare_sides(&self, a: Option<usize>, b: Option<usize>) -> Ordering
        requires first { IfSome a (λ k. k < length self.now.placed) }
        requires second { IfSome b (λ k. k < length self.now.placed) }
        ensures order { result ≡ side_cmp (option_map (place_name self.now.placed) a) (option_map (place_name self.now.placed) b) }
    {
        match (a, b) {
            (None, None) => Ordering::Equal,
            (None, Some(_)) => Ordering::Less,
            (Some(_), None) => Ordering::Greater,
            (Some(x), Some(y)) => compare_names(self.name_of(x), self.name_of(y)),
        }
    }
}

// By replica, then by number.
pub(crate) fn compare_names(a: EpochName, b: EpochName) -> Ordering
    ensures order { result ≡ name_cmp a b }
{
    match (a, b) {
        (EpochName::Origin, EpochName::Origin) => Ordering::Equal,
        (EpochName::Origin, EpochName::Of { .. }) => Ordering::Less,
        (EpochName::Of { .. }, EpochName::Origin) => Ordering::Greater,
        (
            EpochName::Of { replica, seq },
            EpochName::Of {
                replica: other_replica,
                seq: other_seq,
            },
        ) => replica.cmp(&other_replica).then(seq.cmp(&other_seq)),
    }
}
