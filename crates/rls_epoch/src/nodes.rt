//! A topmost epoch and the nodes below it, of which the latest is the last.

ghost use Rattle.std.specs.Prelude.{◌≡◌, ℕ, ◌-◌, ◌^◌, ◌≤◌, ◌<◌, slice_get, ◌∷◌, [], ◌++◌, Some, IfOk, OnOk, IsFalse, length};
ghost use Rattle.rls_ident.specs.Lists.{IsIn};
ghost use Rattle.rls_rename.specs.Tree.{name_of, is_kept, epoch_cmp};
ghost use Rattle.rls_epoch.specs.Jumps.{depth_at, IsUpFrom};
ghost use Rattle.rls_epoch.specs.Links.{name_at, epoch_at, up_at};
ghost use Rattle.rls_epoch.specs.Seen.{nodes_of, AreLaid};
ghost use Rattle.rls_epoch.specs.Sorted.{names_at, place_name, IsCut};

use crate::jumps::{Jump, depth_of, next_jump, target_of};
use crate::known::KnownImages;
use crate::placed::Placed;
use rls_ident::{EpochName, rely};
use std::alloc::{AllocError, Global};
use std::cmp::Ordering;
use std::marker::Model;

// One tree: each parent is the topmost epoch or an earlier node. The number of the topmost epoch is
// 0, and any other's is one more than the place of its node.
#[derive(Drop)]
pub(crate) struct Nodes {
    pub(crate) top: EpochName,
    pub(crate) list: Vec<Placed>,
    // the jump of each node
    pub(crate) jumps: Vec<Jump>,
    // images that are known
    pub(crate) known: KnownImages,
}

impl Model for Nodes {
    ghost use Rattle.std.specs.Prelude.{◌≡◌, ◌-◌, length, min, vec_capacity};
    ghost use Rattle.rls_epoch.specs.Jumps.{AreJumps};
    ghost use Rattle.rls_epoch.specs.KnownRuns.{AreKnown};
    ghost use Rattle.rls_epoch.specs.Seen.{NodesSeen, AreLaid, nodes_of};

    ghost Value = { NodesSeen };

    ghost view = { λ a. record { top = a.top; placed = a.list.items; spare = min (vec_capacity a.list - length a.list.items) (vec_capacity a.jumps - length a.jumps.items) } };

    ghost invariant = { λ a. AreLaid a.top a.list.items × AreKnown (nodes_of a.list.items) a.known × (length a.jumps.items ≡ length a.list.items) × AreJumps a.top a.list.items a.jumps.items };
}

impl Nodes {
    // The topmost epoch alone.
    pub(crate) fn starting_at(alloc: Global, top: EpochName) -> Nodes
        ensures top { result.top ≡ top }
        ensures none { result.placed ≡ [] }
    {
        Nodes {
            top,
            list: Vec::new(alloc),
            jumps: Vec::new(alloc),
            known: KnownImages::new(alloc),
        }
    }

    // Makes room for one more node.
    pub(crate) fn reserve(&mut self) -> Result<(), AllocError>
        ensures top { self.new.top ≡ self.old.top }
        ensures placed { self.new.placed ≡ self.old.placed }
        ensures ok { OnOk result (0 < self.new.spare) }
    {
        self.list.reserve(1)?;
        self.jumps.reserve(1)?;
        Ok(())
    }

    // Adds a node. It takes no memory.
    pub(crate) fn push(&mut self, node: Placed)
        requires room { 0 < self.old.spare }
        requires up { name_at self.old.top self.old.placed node.up ≡ Some node.parent }
        requires within { node.up ≤ length self.old.placed }
        requires fresh { IsFalse (is_kept self.old.top (nodes_of self.old.placed) (name_of node.renaming)) }
        ensures top { self.new.top ≡ self.old.top }
        ensures placed { self.new.placed ≡ self.old.placed ++ node ∷ [] }
    {
        rely!(let _total = node.renaming.total());
        let jump = next_jump(&self.jumps, node.up);
        self.jumps.push(jump).unwrap();
        self.list.push(node).unwrap();
        self.known.clear();
    }

    pub(crate) fn allocator(&self) -> Global {
        *self.list.allocator()
    }

    // The number of nodes.
    pub(crate) fn count(&self) -> usize
        ensures count { result ≡ length self.now.placed }
        ensures room { result < 2 ^ 64 - 1 }
        ensures laid { AreLaid self.now.top self.now.placed }
    {
        self.list.len()
    }

    // The node at a place.
    pub(crate) fn at(&self, place: usize) -> &Placed
        requires place { place < length self.now.placed }
        ensures node { slice_get self.now.placed place ≡ Some result.now }
    {
        &self.list[place]
    }

    // The epoch of the node at a place.
    #[tactic(auto, using(crate::proofs::Reading::name_read))]
    pub(crate) fn name_of(&self, place: usize) -> EpochName
        requires place { place < length self.now.placed }
        ensures name { result ≡ place_name self.now.placed place }
    {
        self.at(place).name()
    }

    // The number of the parent of the node at a place.
    #[tactic(auto, using(crate::proofs::Reading::up_read))]
    pub(crate) fn up_of(&self, place: usize) -> usize
        requires place { place < length self.now.placed }
        ensures up { result ≡ up_at self.now.placed place }
    {
        self.at(place).up
    }

    // How many renamings lie above the epoch of a number.
    pub(crate) fn depth(&self, number: usize) -> usize
        requires within { number ≤ length self.now.placed }
        ensures depth { result ≡ depth_at self.now.top self.now.placed number }
        ensures most { result ≤ number }
    {
        depth_of(&self.jumps, number)
    }

    // The number of an epoch further up.
    pub(crate) fn jump(&self, number: usize) -> usize
        requires some { 0 < number }
        requires within { number ≤ length self.now.placed }
        ensures lesser { result < number }
        ensures above { IsUpFrom self.now.top self.now.placed number result }
    {
        target_of(&self.jumps, number)
    }

    // The epoch of a number.
    pub(crate) fn epoch_of(&self, number: usize) -> EpochName
        requires within { number ≤ length self.now.placed }
        ensures name { result ≡ epoch_at self.now.top self.now.placed number }
    {
        if number == 0 {
            return self.top;
        }
        self.name_of(number - 1)
    }

    // How many of these places, in increasing order of the epochs, have a lesser epoch than this number.
    pub(crate) fn epochs_below(&self, places: &[usize], number: usize) -> usize
        requires within { (k : ℕ) → IsIn k places.now → k < length self.now.placed }
        requires number { number ≤ length self.now.placed }
        ensures cut { IsCut (epoch_cmp (nodes_of self.now.placed)) (names_at self.now.placed places.now) (epoch_at self.now.top self.now.placed number) result }
    {
        rely!(let _count = self.count());
        let (mut low, mut high) = (0, places.len());
        while low < high {
            let middle = low + (high - low) / 2;
            match self.compare(places[middle] + 1, number) {
                Ordering::Less => low = middle + 1,
                _ => high = middle,
            }
        }
        low
    }

    // The same, for the number of a new epoch, which mostly is the greatest: it looks at the last one first.
    pub(crate) fn epochs_below_newest(&self, places: &[usize], number: usize) -> usize
        requires within { (k : ℕ) → IsIn k places.now → k < length self.now.placed }
        requires number { number ≤ length self.now.placed }
        ensures cut { IsCut (epoch_cmp (nodes_of self.now.placed)) (names_at self.now.placed places.now) (epoch_at self.now.top self.now.placed number) result }
    {
        rely!(let _count = self.count());
        let end = places.len();
        if end == 0 {
            return self.epochs_below(places, number);
        }
        match self.compare(places[end - 1] + 1, number) {
            Ordering::Less => end,
            _ => self.epochs_below(places, number),
        }
    }

    // The same again.
    pub(crate) fn copy(&self) -> Result<Nodes, AllocError>
        ensures top { IfOk result (λ copy. copy.top ≡ self.now.top) }
        ensures placed { IfOk result (λ copy. copy.placed ≡ self.now.placed) }
    {
        let mut list = Vec::with_capacity(self.allocator(), self.count())?;
        for node in &self.list {
            list.push(node.copy()?)?;
        }
        Ok(Nodes {
            top: self.top,
            list,
            jumps: self.jumps.clone()?,
            known: KnownImages::new(self.allocator()),
        })
    }
}
