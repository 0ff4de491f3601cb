//! The epochs in increasing order, of which the topmost is the first, and what opened them.

ghost use Rattle.std.specs.Prelude.{◌≡◌, suc, ◌≤◌, ◌<◌, ◌∷◌, length, slice_get, Some, IfSome, IfNone};
ghost use Rattle.std.specs.Option.{option_copied, option_map};
ghost use Rattle.rls_epoch.specs.Links.{epoch_at};
ghost use Rattle.rls_epoch.specs.Seen.{node_for, node_of, nodes_of, rising_epochs};
ghost use Rattle.rls_epoch.specs.Sorted.{names_at};

use crate::nodes::Nodes;
use crate::placed::Placed;
use crate::tree::Tree;
use rls_ident::rely;

impl Tree {
    // The number of the epoch at a place of the order.
    pub(crate) fn number_at(&self, i: u64) -> usize
        requires place { i < suc (length (nodes_of self.now.nodes.placed)) }
        ensures epoch { slice_get (rising_epochs (record { top = self.now.nodes.top; nodes = nodes_of self.now.nodes.placed })) i ≡ Some (epoch_at self.now.nodes.top self.now.nodes.placed result) }
        ensures within { result ≤ length self.now.nodes.placed }
        ensures first { (result ≡ 0 → i ≡ 0) × (0 < result → 0 < i) }
    {
        rely!(let _count = self.nodes.count());
        if i == 0 {
            return 0;
        }
        self.place_in_order(i as usize - 1) + 1
    }

    // The place in the order of the epoch with a number.
    fn place_at(&self, number: usize) -> u64
        requires within { number ≤ length self.now.nodes.placed }
        ensures place { slice_get (self.now.nodes.top ∷ names_at self.now.nodes.placed self.now.order.items) result ≡ Some (epoch_at self.now.nodes.top self.now.nodes.placed number) }
    {
        rely!(let _count = self.order.len());
        if number == 0 {
            return 0;
        }
        self.nodes.epochs_below(&self.order, number) as u64 + 1
    }

    // The place in the order of the parent of the epoch with a number, or `None` for the topmost one.
    pub(crate) fn parent_place(&self, number: usize) -> Option<u64>
        requires within { number ≤ length self.now.nodes.placed }
        ensures parent { option_map (slice_get (rising_epochs (record { top = self.now.nodes.top; nodes = nodes_of self.now.nodes.placed }))) result ≡ option_map (λ node. Some node.parent) (node_for (nodes_of self.now.nodes.placed) (epoch_at self.now.nodes.top self.now.nodes.placed number)) }
        ensures none { IfNone result (number ≡ 0) }
        ensures some { IfSome result (λ p. 0 < number) }
    {
        rely!(let _count = self.nodes.count());
        if number == 0 {
            return None;
        }
        Some(self.place_at(self.nodes.up_of(number - 1)))
    }
}

impl Nodes {
    // The node of the epoch with a number, or `None` for the topmost one.
    pub(crate) fn node(&self, number: usize) -> Option<&Placed>
        requires within { number ≤ length self.now.placed }
        ensures node { option_map node_of (option_copied result) ≡ node_for (nodes_of self.now.placed) (epoch_at self.now.top self.now.placed number) }
        ensures none { IfNone result (number ≡ 0) }
        ensures some { IfSome result (λ p. 0 < number) }
    {
        rely!(let _count = self.count());
        if number == 0 {
            return None;
        }
        Some(self.at(number - 1))
    }
}
