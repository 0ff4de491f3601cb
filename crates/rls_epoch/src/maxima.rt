//! Maxima: each node has the number of the greatest of the epochs that its member opened up to it.
//! Why: CHOICES.md, 94.

ghost use Rattle.std.specs.Prelude.{◌≡◌, ℕ, ◌-◌, ◌<◌, ◌≤◌, suc, length, slice_index, IsTrue, IsFalse};
ghost use Rattle.rls_ident.specs.EpochNames.{is_of_member};
ghost use Rattle.rls_rename.specs.Tree.{epoch_cmp};
ghost use Rattle.rls_epoch.specs.Maxima.{last_counted, first_of, name_in, up_to, AreMaxima, IsEnd, IsMaximum};
ghost use Rattle.rls_epoch.specs.Seen.{nodes_of, IsAdded};

use crate::climb::compare_names;
use crate::entries::{entry, set_entry};
use crate::tree::Tree;
use rls_ident::{EpochName, Vector, rely};
use std::cmp::Ordering;

// Whether the second epoch is of the member of the first, with its number or a lesser one.
fn is_up_to(name: EpochName, other: EpochName) -> bool
    ensures up_to { result ≡ up_to name other }
{
    match (name, other) {
        (
            EpochName::Of { replica, seq },
            EpochName::Of {
                replica: other_replica,
                seq: other_seq,
            },
        ) => other_replica == replica && other_seq <= seq,
        _ => false,
    }
}

// The epoch of the same member with the number that the vector counts.
pub(crate) fn last_counted(name: EpochName, v: &Vector) -> EpochName
    requires member { IsTrue (is_of_member (length v.now) name) }
    ensures counted { result ≡ last_counted v.now name }
{
    match name {
        EpochName::Origin => EpochName::Origin,
        EpochName::Of { replica, .. } => {
            let count = v.get(replica);
            EpochName::Of {
                replica,
                seq: count,
            }
        }
    }
}

// The epoch of the same member with the number 0.
pub(crate) fn first_of(name: EpochName) -> EpochName
    ensures first { result ≡ first_of name }
{
    match name {
        EpochName::Origin => EpochName::Origin,
        EpochName::Of { replica, .. } => EpochName::Of { replica, seq: 0 },
    }
}

impl Tree {
    // How many nodes have this name or a lesser one.
    fn names_up_to(&self, name: EpochName) -> usize
        ensures end { IsEnd self.now.nodes.placed self.now.by_name.items name result }
    {
        let (mut low, mut high) = (0, self.by_name.len());
        while low < high {
            let middle = low + (high - low) / 2;
            match compare_names(name, self.name_by_name(middle)) {
                Ordering::Less => high = middle,
                _ => low = middle + 1,
            }
        }
        low
    }

    // The number of the greatest of the epochs up to this one, or 0 if there is none. It costs a
    // comparison of names for each halving of the nodes.
    pub(crate) fn greatest_up_to(&self, maxima: &[usize], name: EpochName) -> usize
        requires maxima { AreMaxima (epoch_cmp (nodes_of self.now.nodes.placed)) self.now.nodes.top self.now.nodes.placed maxima.now }
        ensures maximum { IsMaximum (epoch_cmp (nodes_of self.now.nodes.placed)) self.now.nodes.top self.now.nodes.placed name result }
    {
        let end = self.names_up_to(name);
        if end == 0 {
            return 0;
        }
        let before = self.place_by_name(end - 1);
        if is_up_to(name, self.nodes.name_of(before)) {
            entry(maxima, before)
        } else {
            0
        }
    }

    // Finds the maximum of the last node, which was put at an index in order of names. It takes no memory,
    // and costs a comparison of epochs, unless a later epoch of the same member is kept.
    pub(crate) fn add_maximum(&self, maxima: &mut [usize], index: usize)
        requires within { index < length self.now.by_name.items }
        requires index { suc (slice_index self.now.by_name.items index) ≡ length self.now.nodes.placed }
        requires added { IsAdded self.now.nodes.top self.now.nodes.placed maxima.old }
        ensures maxima { AreMaxima (epoch_cmp (nodes_of self.now.nodes.placed)) self.now.nodes.top self.now.nodes.placed maxima.new }
    {
        rely!(let _count = self.nodes.count());
        if self.has_later(index) {
            self.find_maxima(maxima);
            return;
        }
        let number = self.maximum_at(maxima, index);
        set_entry(maxima, self.place_by_name(index), number);
    }

    // Whether a later epoch of the same member is kept.
    fn has_later(&self, index: usize) -> bool
        requires within { index < length self.now.by_name.items }
        ensures alone { IsFalse result → (a : ℕ) → a < length self.now.by_name.items → IsTrue (up_to (name_in self.now.nodes.placed self.now.by_name.items a) (name_in self.now.nodes.placed self.now.by_name.items index)) → a ≡ index }
    {
        let next = index + 1;
        if next >= self.by_name.len() {
            return false;
        }
        is_up_to(self.name_by_name(next), self.name_by_name(index))
    }

    // Finds the maxima of all nodes. It takes no memory, and costs a comparison of epochs for each.
    pub(crate) fn find_maxima(&self, maxima: &mut [usize])
        requires whole { length maxima.old ≡ length self.now.nodes.placed }
        ensures maxima { AreMaxima (epoch_cmp (nodes_of self.now.nodes.placed)) self.now.nodes.top self.now.nodes.placed maxima.new }
    {
        for i in 0..self.by_name.len() {
            let number = self.maximum_at(maxima, i);
            set_entry(maxima, self.place_by_name(i), number);
        }
    }

    // The number of the greatest of the epochs up to the node at this index in order of names, if the one
    // before has its maximum.
    fn maximum_at(&self, maxima: &[usize], i: usize) -> usize
        requires whole { length maxima.now ≡ length self.now.nodes.placed }
        requires within { i < length self.now.by_name.items }
        requires before { 0 < i → IsMaximum (epoch_cmp (nodes_of self.now.nodes.placed)) self.now.nodes.top self.now.nodes.placed (name_in self.now.nodes.placed self.now.by_name.items (i - 1)) (slice_index maxima.now (slice_index self.now.by_name.items (i - 1))) }
        ensures maximum { IsMaximum (epoch_cmp (nodes_of self.now.nodes.placed)) self.now.nodes.top self.now.nodes.placed (name_in self.now.nodes.placed self.now.by_name.items i) result }
    {
        rely!(let _count = self.nodes.count());
        let place = self.place_by_name(i);
        let own = place + 1;
        if i == 0 {
            return own;
        }
        let before = self.place_by_name(i - 1);
        if !is_up_to(self.nodes.name_of(place), self.nodes.name_of(before)) {
            return own;
        }
        self.nodes.greater(own, entry(maxima, before))
    }
}
