//! A tree of epochs, with the places of its nodes in two orders.

ghost use Rattle.std.specs.Prelude.{◌≡◌, List, ◌-◌, ◌<◌, ◌≤◌, suc, [], ◌∷◌, ◌++◌, Some, IfOk, IfSome, IfNone, OnOk, IsTrue, IsFalse, false, length, drop, slice_index, vec_capacity};
ghost use Rattle.rls_ident.specs.declared.epoch_name.EpochName.{EpochName};
ghost use Rattle.rls_rename.specs.Tree.{name_of, is_kept, epoch_cmp};
ghost use Rattle.rls_epoch.specs.Climbing.{name_cmp};
ghost use Rattle.rls_epoch.specs.Links.{name_at, epoch_at};
ghost use Rattle.rls_epoch.specs.Marks.{AreNumbered, kept_placed};
ghost use Rattle.rls_epoch.specs.Maxima.{name_in};
ghost use Rattle.rls_epoch.specs.Seen.{nodes_of, AreLaid};
ghost use Rattle.rls_epoch.specs.Sorted.{names_at, sorted_prop, AreSorted, IsCut};

use crate::climb::compare_names;
use crate::keeping::keep_places;
use crate::mark::Mark;
use crate::nodes::Nodes;
use crate::placed::Placed;
use rls_ident::{EpochName, rely};
use std::alloc::{AllocError, Global};
use std::cmp::Ordering;

// The nodes, and where each of them stands in increasing order of names and of the epochs.
#[derive(Drop)]
pub(crate) struct Tree {
    pub(crate) nodes: Nodes,
    // the places of the nodes, in increasing order of names
    pub(crate) by_name: Vec<usize>,
    // the places of the nodes, in increasing order of the epochs
    pub(crate) order: Vec<usize>,
    ghost by_name_is: { AreSorted name_cmp nodes.placed by_name.items } by { sorted_prop name_cmp nodes.placed by_name.items },
    ghost order_is: { AreSorted (epoch_cmp (nodes_of nodes.placed)) nodes.placed order.items } by { sorted_prop (epoch_cmp (nodes_of nodes.placed)) nodes.placed order.items },
}

impl Tree {
    // The topmost epoch alone.
    pub(crate) fn starting_at(alloc: Global, top: EpochName) -> Tree
        ensures top { result.nodes.top ≡ top }
        ensures none { result.nodes.placed ≡ [] }
    {
        Tree {
            nodes: Nodes::starting_at(alloc, top),
            by_name: Vec::new(alloc),
            order: Vec::new(alloc),
        }
    }

    // Makes room for one more node.
    pub(crate) fn reserve(&mut self) -> Result<(), AllocError>
        ensures top { self.new.nodes.top ≡ self.old.nodes.top }
        ensures placed { self.new.nodes.placed ≡ self.old.nodes.placed }
        ensures nodes { OnOk result (0 < self.new.nodes.spare) }
        ensures by_name { OnOk result (length self.new.by_name.items < vec_capacity self.new.by_name) }
        ensures room { OnOk result (length self.new.order.items < vec_capacity self.new.order) }
    {
        self.nodes.reserve()?;
        self.by_name.reserve(1)?;
        self.order.reserve(1)?;
        Ok(())
    }

    // Adds a node, and answers its index in order of names. It takes no memory.
    pub(crate) fn add(&mut self, node: Placed) -> usize
        requires nodes { 0 < self.old.nodes.spare }
        requires by_name { length self.old.by_name.items < vec_capacity self.old.by_name }
        requires room { length self.old.order.items < vec_capacity self.old.order }
        requires up { name_at self.old.nodes.top self.old.nodes.placed node.up ≡ Some node.parent }
        requires within { node.up ≤ length self.old.nodes.placed }
        requires fresh { IsFalse (is_kept self.old.nodes.top (nodes_of self.old.nodes.placed) (name_of node.renaming)) }
        ensures top { self.new.nodes.top ≡ self.old.nodes.top }
        ensures placed { self.new.nodes.placed ≡ self.old.nodes.placed ++ node ∷ [] }
        ensures laid { AreLaid self.new.nodes.top self.new.nodes.placed }
        ensures index { result < length self.new.by_name.items }
        ensures last { suc (slice_index self.new.by_name.items result) ≡ length self.new.nodes.placed }
    {
        let place = self.nodes.count();
        let index = self.names_below(node.name());
        self.nodes.push(node);
        let count = self.nodes.count();
        let at = self.nodes.epochs_below_newest(&self.order, count);
        self.by_name.insert(index, place).unwrap();
        self.order.insert(at, place).unwrap();
        index
    }

    // Keeps the part that is marked, whose marks have their new places, and of which the epoch with this
    // number is the topmost.
    pub(crate) fn keep(&mut self, number: usize, marks: &[Mark])
        requires within { number ≤ length self.old.nodes.placed }
        requires whole { length marks.now ≡ suc (length self.old.nodes.placed) }
        requires numbered { (e : EpochName) × (es : List EpochName) × AreNumbered self.old.nodes.top self.old.nodes.placed marks.now number e es }
        ensures top { self.new.nodes.top ≡ epoch_at self.old.nodes.top self.old.nodes.placed number }
        ensures placed { self.new.nodes.placed ≡ kept_placed marks.now (drop 1 marks.now) self.old.nodes.placed }
    {
        rely!(let _count = self.nodes.count());
        self.nodes.keep(number, marks);
        keep_places(&mut self.by_name, marks);
        keep_places(&mut self.order, marks);
    }

    // The place at an index in increasing order of names.
    pub(crate) fn place_by_name(&self, i: usize) -> usize
        requires within { i < length self.now.by_name.items }
        ensures place { result ≡ slice_index self.now.by_name.items i }
        ensures within { result < length self.now.nodes.placed }
    {
        self.by_name[i]
    }

    // The name at an index in increasing order of names.
    pub(crate) fn name_by_name(&self, i: usize) -> EpochName
        requires within { i < length self.now.by_name.items }
        ensures name { result ≡ name_in self.now.nodes.placed self.now.by_name.items i }
    {
        self.nodes.name_of(self.place_by_name(i))
    }

    // The place at an index in increasing order of the epochs.
    pub(crate) fn place_in_order(&self, i: usize) -> usize
        requires within { i < length self.now.order.items }
        ensures place { result ≡ slice_index self.now.order.items i }
        ensures within { result < length self.now.nodes.placed }
    {
        self.order[i]
    }

    // How many nodes have a lesser name.
    pub(crate) fn names_below(&self, name: EpochName) -> usize
        ensures cut { IsCut name_cmp (names_at self.now.nodes.placed self.now.by_name.items) name result }
    {
        let (mut low, mut high) = (0, self.by_name.len());
        while low < high {
            let middle = low + (high - low) / 2;
            match compare_names(self.name_by_name(middle), name) {
                Ordering::Less => low = middle + 1,
                _ => high = middle,
            }
        }
        low
    }

    // The number of an epoch, if it is kept. It costs a comparison of names for each halving of the nodes.
    pub(crate) fn find(&self, name: EpochName) -> Option<usize>
        ensures some { IfSome result (λ n. name_at self.now.nodes.top self.now.nodes.placed n ≡ Some name) }
        ensures within { IfSome result (λ n. n ≤ length self.now.nodes.placed) }
        ensures none { IfNone result (is_kept self.now.nodes.top (nodes_of self.now.nodes.placed) name ≡ false) }
    {
        rely!(let _count = self.nodes.count());
        let top = self.nodes.epoch_of(0);
        if name.same(&top) {
            return Some(0);
        }
        let i = self.names_below(name);
        if self.by_name.len() <= i {
            return None;
        }
        let place = self.place_by_name(i);
        if self.nodes.name_of(place).same(&name) {
            Some(place + 1)
        } else {
            None
        }
    }

    // The number of a kept epoch.
    #[tactic(auto, using(crate::proofs::Meeting::at_is))]
    pub(crate) fn number_of(&self, name: EpochName) -> usize
        requires kept { IsTrue (is_kept self.now.nodes.top (nodes_of self.now.nodes.placed) name) }
        ensures number { name_at self.now.nodes.top self.now.nodes.placed result ≡ Some name }
        ensures epoch { epoch_at self.now.nodes.top self.now.nodes.placed result ≡ name }
        ensures within { result ≤ length self.now.nodes.placed }
    {
        match self.find(name) {
            Some(number) => number,
            None => unreachable!(),
        }
    }

    // The same again.
    pub(crate) fn copy(&self) -> Result<Tree, AllocError>
        ensures top { IfOk result (λ copy. copy.nodes.top ≡ self.now.nodes.top) }
        ensures placed { IfOk result (λ copy. copy.nodes.placed ≡ self.now.nodes.placed) }
    {
        Ok(Tree {
            nodes: self.nodes.copy()?,
            by_name: self.by_name.clone()?,
            order: self.order.clone()?,
        })
    }
}
