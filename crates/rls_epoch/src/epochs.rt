//! The tree of the epochs that are kept.

ghost use Rattle.std.specs.Prelude.{◌≡◌, List, ◌+◌, ◌-◌, ◌<◌, ◌^◌, suc, [], ◌∷◌, ◌++◌, length, map, slice_get, sum_by, Some, IfSome, IfNone, IfOk, OnOk, IsTrue, IsFalse, ◌||◌};
ghost use Rattle.std.specs.Option.{option_copied, option_map};
ghost use Rattle.rls_ident.specs.declared.epoch_name.EpochName.{EpochName};
ghost use Rattle.rls_ident.specs.EpochNames.{name_eq, is_of_member};
ghost use Rattle.rls_runs.specs.Runs.{IsImage};
ghost use Rattle.rls_rename.specs.Tree.{IsTree, is_kept, epoch_cmp, greatest, greatest_within, translate};
ghost use Rattle.rls_ident.specs.declared.tuple.Tuple.{Tuple};
ghost use Rattle.rls_ident.specs.Lists.{IsIn};
ghost use Rattle.rls_rename.specs.Connected.{spanned, spanned_renamings};
ghost use Rattle.rls_rename.specs.Keeping.{kept_part, reached};
ghost use Rattle.rls_rename.specs.Renaming.{IsFormer, forward};
ghost use Rattle.rls_epoch.specs.Seen.{former_sum, is_marked, node_for, rising_epochs, OpensGreatest};

use crate::mark::Mark;
use crate::placed::Placed;
use crate::retaining::Retained;
use crate::tree::Tree;
use rls_ident::{EpochName, Ident, Vector, rely};
use rls_rename::Renaming;
use rls_runs::{Run, RunList, Runs};
use std::alloc::{AllocError, Global};
use std::cmp::Ordering;
use std::marker::Model;

/// A topmost epoch and the nodes below it, some of which are marked. The earliest node comes first.
pub struct Epochs {
    tree: Tree,
    // for each node the number of the greatest epoch that its member opened up to it
    maxima: Vec<usize>,
    // the marks of the epochs, by their numbers
    marks: Vec<Mark>,
    total: u64,
}

impl Model for Epochs {
    ghost use Rattle.std.specs.Prelude.{◌-◌, length, min, vec_capacity};
    ghost use Rattle.rls_epoch.specs.Seen.{EpochsSeen, IsWhole, nodes_of, marks_of};

    ghost Value = { EpochsSeen };

    ghost view = { λ a. record {
      epochs = record { top = a.tree.nodes.top; nodes = nodes_of a.tree.nodes.placed };
      marks = marks_of a.tree.nodes.top a.tree.nodes.placed a.marks.items;
      spare = min (min a.tree.nodes.spare (vec_capacity a.marks - length a.marks.items)) (min (vec_capacity a.tree.by_name - length a.tree.by_name.items) (min (vec_capacity a.tree.order - length a.tree.order.items) (vec_capacity a.maxima - length a.maxima.items)));
    } };

    ghost invariant = { λ a. IsWhole a.tree.nodes.top a.tree.nodes.placed a.maxima.items a.marks.items a.total };
}

// Written out, and not derived, so that the proof of a caller sees one call and not the drop of each field.
impl Drop for Epochs {
    fn drop(self) {
        let Epochs {
            tree: _tree,
            maxima: _maxima,
            marks: _marks,
            total: _,
        } = self;
    }
}

impl Epochs {
    /// The topmost epoch alone, without a mark.
    pub fn starting_at(alloc: Global, name: EpochName) -> Result<Epochs, AllocError>
        ensures epochs { IfOk result (λ a. a.epochs ≡ record { top = name; nodes = [] }) }
        ensures marks { IfOk result (λ a. a.marks ≡ []) }
    {
        let mut marks = Vec::new(alloc);
        marks.push(Mark::none())?;
        Ok(Epochs {
            tree: Tree::starting_at(alloc, name),
            maxima: Vec::new(alloc),
            marks,
            total: 0,
        })
    }

    /// Makes room for one more node.
    pub fn reserve(&mut self) -> Result<(), AllocError>
        ensures epochs { self.new.epochs ≡ self.old.epochs }
        ensures marks { self.new.marks ≡ self.old.marks }
        ensures ok { OnOk result (0 < self.new.spare) }
    {
        self.tree.reserve()?;
        self.maxima.reserve(1)?;
        self.marks.reserve(1)?;
        Ok(())
    }

    /// Adds the epoch that a rename opened in another. The new one isn't marked. It takes no memory,
    /// and cannot fail. It costs a few comparisons of names for each halving of the nodes and two of
    /// epochs, and moves the numbers of those with greater names. If an epoch is greater, it costs a
    /// comparison of epochs for each halving of them, too, and moves the numbers of the greater ones.
    pub fn add(&mut self, replica: u32, seq: u32, parent: EpochName, renaming: Renaming)
        requires room { 0 < self.old.spare }
        requires fresh { IsFalse (is_kept self.old.epochs.top self.old.epochs.nodes (EpochName.Of replica seq)) }
        requires parent { IsTrue (is_kept self.old.epochs.top self.old.epochs.nodes parent) }
        requires replica { renaming.replica ≡ replica }
        requires seq { renaming.seq ≡ seq }
        requires total { former_sum self.old.epochs.nodes + length renaming.former < 2 ^ 64 }
        ensures epochs { self.new.epochs ≡ record { top = self.old.epochs.top; nodes = record { parent = parent; renaming = renaming } ∷ self.old.epochs.nodes } }
        ensures marks { self.new.marks ≡ self.old.marks }
    {
        let up = self.tree.number_of(parent);
        self.total += renaming.total();
        let index = self.tree.add(Placed {
            parent,
            up,
            renaming,
        });
        self.maxima.push(0).unwrap();
        self.marks.push(Mark::none()).unwrap();
        self.tree.add_maximum(&mut self.maxima, index);
    }

    /// Whether the epoch is kept. It costs a comparison of names for each halving of the nodes.
    #[tactic(auto, using(crate::proofs::Found::kept_at))]
    pub fn kept(&self, name: EpochName) -> bool
        ensures kept { result ≡ is_kept self.now.epochs.top self.now.epochs.nodes name }
        ensures tree { IsTree self.now.epochs }
    {
        match self.tree.find(name) {
            Some(_) => true,
            None => false,
        }
    }

    /// The order of two epochs: lexicographic by their paths from the topmost one, in which a proper
    /// prefix is less. It takes no memory, and costs a few steps for each halving of the way between
    /// them.
    pub fn compare(&self, a: EpochName, b: EpochName) -> Ordering
        requires first { IsTrue (is_kept self.now.epochs.top self.now.epochs.nodes a) }
        requires second { IsTrue (is_kept self.now.epochs.top self.now.epochs.nodes b) }
        ensures order { result ≡ epoch_cmp self.now.epochs.nodes a b }
    {
        let left = self.tree.number_of(a);
        let right = self.tree.number_of(b);
        self.tree.nodes.compare(left, right)
    }

    /// The greatest epoch. It takes no memory.
    pub fn greatest(&self) -> EpochName
        ensures greatest { result ≡ greatest self.now.epochs.top self.now.epochs.nodes }
    {
        self.tree.greatest()
    }

    /// Whether the epoch that a rename would open in another is greater than all that are kept. It
    /// takes no memory, and costs a few steps for each halving of the way between that epoch and the
    /// greatest.
    pub fn opens_greatest(&self, replica: u32, seq: u32, parent: EpochName) -> bool
        requires fresh { IsFalse (is_kept self.now.epochs.top self.now.epochs.nodes (EpochName.Of replica seq)) }
        requires parent { IsTrue (is_kept self.now.epochs.top self.now.epochs.nodes parent) }
        ensures greatest { (former : List (List Tuple)) → IsFormer former → OpensGreatest result self.now.epochs parent (record { former = former; replica = replica; seq = seq }) }
    {
        let last = self.tree.number_of(self.greatest());
        let up = self.tree.number_of(parent);
        self.tree
            .nodes
            .opens_above(last, up, EpochName::Of { replica, seq })
    }

    /// The greatest epoch within a vector that counts the replica of each kept epoch, or the topmost
    /// one if none is. It takes no memory, and costs a few comparisons of names for each halving of
    /// the nodes and one of epochs, for each replica that opened a kept epoch.
    pub fn greatest_in(&self, v: &Vector) -> EpochName
        requires members { (e : EpochName) → IsTrue (is_kept self.now.epochs.top self.now.epochs.nodes e) → IsTrue (is_of_member (length v.now) e) }
        ensures greatest { result ≡ greatest_within self.now.epochs.top self.now.epochs.nodes v.now }
    {
        self.tree.greatest_in(&self.maxima, v)
    }

    /// An identifier of the one epoch in the other: back by the renamings up to the nearest common
    /// epoch, and forward from there. It costs these renamings of the identifier, up to where its
    /// image is known, and a search there.
    pub fn translate(&self, from: EpochName, to: EpochName, id: &Ident) -> Result<Ident, AllocError>
        requires from { IsTrue (is_kept self.now.epochs.top self.now.epochs.nodes from) }
        requires to { IsTrue (is_kept self.now.epochs.top self.now.epochs.nodes to) }
        ensures translated { IfOk result (λ x. x ≡ translate self.now.epochs.nodes from to id.now) }
    {
        let left = self.tree.number_of(from);
        let right = self.tree.number_of(to);
        self.tree.nodes.ident_between(left, right, id)
    }

    /// The identifiers of a run of the one epoch in the other, as runs of which none touches the one
    /// before. It costs the renaming of whole runs for each epoch on the way.
    pub fn translate_run(
        &self,
        from: EpochName,
        to: EpochName,
        run: &Run,
    ) -> Result<RunList, AllocError>
        requires from { IsTrue (is_kept self.now.epochs.top self.now.epochs.nodes from) }
        requires to { IsTrue (is_kept self.now.epochs.top self.now.epochs.nodes to) }
        ensures translated { IfOk result (λ runs. IsImage (translate self.now.epochs.nodes from to) run.now runs) }
    {
        rely!(let _len = run.len());
        let steps = self.tree.way_between(from, to)?;
        self.tree.nodes.run_led(&steps, run)
    }

    /// The identifiers of a run of the one epoch in the other, and then by a renaming that opens an
    /// epoch there, as runs of which none touches the one before. It costs the renaming of whole runs
    /// for each epoch on the way and for the last one.
    pub fn translate_run_by(
        &self,
        from: EpochName,
        to: EpochName,
        renaming: &Renaming,
        run: &Run,
    ) -> Result<RunList, AllocError>
        requires from { IsTrue (is_kept self.now.epochs.top self.now.epochs.nodes from) }
        requires to { IsTrue (is_kept self.now.epochs.top self.now.epochs.nodes to) }
        ensures renamed { IfOk result (λ runs. IsImage (λ x. forward renaming.now (translate self.now.epochs.nodes from to x)) run.now runs) }
    {
        rely!(let _len = run.len());
        let steps = self.tree.way_between(from, to)?;
        self.tree.nodes.run_led_by(&steps, renaming, run)
    }

    /// A strictly increasing list of identifiers of the one epoch in the other. It costs the renaming
    /// of whole runs for each epoch on the way, up to where the images of all are known, and a search
    /// for each run there.
    pub fn translate_runs(
        &self,
        from: EpochName,
        to: EpochName,
        ids: &Runs,
    ) -> Result<Runs, AllocError>
        requires from { IsTrue (is_kept self.now.epochs.top self.now.epochs.nodes from) }
        requires to { IsTrue (is_kept self.now.epochs.top self.now.epochs.nodes to) }
        ensures translated { IfOk result (λ xs. xs ≡ map (translate self.now.epochs.nodes from to) ids.now) }
    {
        let left = self.tree.number_of(from);
        let right = self.tree.number_of(to);
        self.tree.nodes.runs_between(left, right, ids)
    }

    /// Makes ready for translations of such lists and their identifiers, also the other way. Of each
    /// run those identifiers whose images aren't known are led along the way, each with those beside
    /// it that are in one run of former ones wherever it is one, up to one that a rename on the way
    /// doesn't name. Then their images are known until an epoch is added or dropped, or too many are
    /// known. It costs two renamings for each epoch on the way for each such stretch, and a search for
    /// each run of which all is known.
    pub fn prepare(&mut self, from: EpochName, to: EpochName, ids: &Runs) -> Result<(), AllocError>
        requires from { IsTrue (is_kept self.old.epochs.top self.old.epochs.nodes from) }
        requires to { IsTrue (is_kept self.old.epochs.top self.old.epochs.nodes to) }
        ensures same { self.new ≡ self.old }
    {
        let left = self.tree.number_of(from);
        let right = self.tree.number_of(to);
        self.tree.nodes.prepare(left, right, ids)
    }

    /// Takes all marks away. It takes no memory.
    pub fn clear_marks(&mut self)
        ensures epochs { self.new.epochs ≡ self.old.epochs }
        ensures marks { self.new.marks ≡ [] }
    {
        self.marks.fill(Mark::none());
    }

    /// Marks a kept epoch. It takes no memory, and costs a comparison of names for each halving of the
    /// nodes.
    pub fn mark(&mut self, name: EpochName)
        requires kept { IsTrue (is_kept self.old.epochs.top self.old.epochs.nodes name) }
        ensures epochs { self.new.epochs ≡ self.old.epochs }
        ensures marks { (e : EpochName) → is_marked self.new.marks e ≡ (name_eq name e || is_marked self.old.marks e) }
    {
        let number = self.tree.number_of(name);
        rely!(let _count = self.tree.nodes.count());
        self.marks[number] = Mark::plain();
    }

    /// Keeps the smallest connected part that holds the greatest epoch, those that are marked, and each
    /// that is at least the greatest one within the vector, and takes all marks away. The vector
    /// counts the replica of each kept epoch. It takes no memory, and goes over the epochs a few times.
    pub fn keep(&mut self, stable: &Vector)
        requires members { (e : EpochName) → IsTrue (is_kept self.old.epochs.top self.old.epochs.nodes e) → IsTrue (is_of_member (length stable.now) e) }
        ensures epochs { self.new.epochs ≡ kept_part self.old.epochs stable.now self.old.marks }
        ensures marks { self.new.marks ≡ [] }
    {
        let number = self.tree.number_needed(&mut self.marks, stable);
        let tree = &self.tree;
        self.total = tree.nodes.former_kept(&self.marks);
        self.tree.keep(number, &self.marks);
        let count = self.tree.nodes.count();
        self.maxima.truncate(count);
        self.tree.find_maxima(&mut self.maxima);
        self.marks.truncate(count + 1);
        self.marks.fill(Mark::none());
    }

    /// What `keep` would leave if these epochs were marked alone: the smallest connected part that
    /// holds the greatest epoch, these, and each that is at least the greatest one within the vector.
    /// The vector counts the replica of each kept epoch. It goes over the epochs a few times.
    pub fn retained(&self, stable: &Vector, marked: &[EpochName]) -> Result<Retained, AllocError>
        requires members { (e : EpochName) → IsTrue (is_kept self.now.epochs.top self.now.epochs.nodes e) → IsTrue (is_of_member (length stable.now) e) }
        requires marked { (e : EpochName) → IsIn e marked.now → IsTrue (is_kept self.now.epochs.top self.now.epochs.nodes e) }
        ensures names { IfOk result (λ part. part.names.items ≡ spanned self.now.epochs.top self.now.epochs.nodes (greatest self.now.epochs.top self.now.epochs.nodes) (reached self.now.epochs stable.now ++ marked.now)) }
        ensures former { IfOk result (λ part. part.former ≡ sum_by (λ R. length R.former) (spanned_renamings self.now.epochs.nodes (greatest self.now.epochs.top self.now.epochs.nodes) (reached self.now.epochs stable.now ++ marked.now))) }
    {
        rely!(let _total = self.former_total());
        self.tree.retained_part(stable, marked)
    }

    /// The epoch at a place in increasing order of the epochs. The topmost one is at place 0.
    pub fn name(&self, i: u64) -> EpochName
        requires place { i < suc (length self.now.epochs.nodes) }
        ensures name { slice_get (rising_epochs self.now.epochs) i ≡ Some result }
    {
        self.tree.nodes.epoch_of(self.tree.number_at(i))
    }

    /// The place of the parent of the epoch at a place in increasing order of the epochs, or `None`
    /// for the topmost one. It takes no memory, and costs a comparison of epochs for each halving of
    /// them.
    pub fn parent(&self, i: u64) -> Option<u64>
        requires place { i < suc (length self.now.epochs.nodes) }
        ensures parent { (e : EpochName) → slice_get (rising_epochs self.now.epochs) i ≡ Some e → option_map (slice_get (rising_epochs self.now.epochs)) result ≡ option_map (λ node. Some node.parent) (node_for self.now.epochs.nodes e) }
        ensures none { IfNone result (i ≡ 0) }
        ensures some { IfSome result (λ p. 0 < i) }
    {
        let number = self.tree.number_at(i);
        self.tree.parent_place(number)
    }

    /// The renaming that opened the epoch at a place in increasing order of the epochs, or `None` for
    /// the topmost one.
    pub fn renaming(&self, i: u64) -> Option<&Renaming>
        requires place { i < suc (length self.now.epochs.nodes) }
        ensures renaming { (e : EpochName) → slice_get (rising_epochs self.now.epochs) i ≡ Some e → option_copied result ≡ option_map (λ node. node.renaming) (node_for self.now.epochs.nodes e) }
        ensures none { IfNone result (i ≡ 0) }
        ensures some { IfSome result (λ p. 0 < i) }
    {
        let number = self.tree.number_at(i);
        let node = self.tree.nodes.node(number)?;
        Some(&node.renaming)
    }

    /// The parent of a kept epoch, or `None` for the topmost one. It takes no memory, and costs a
    /// comparison of names for each halving of the nodes.
    pub fn parent_of(&self, name: EpochName) -> Option<EpochName>
        requires kept { IsTrue (is_kept self.now.epochs.top self.now.epochs.nodes name) }
        ensures parent { result ≡ option_map (λ node. node.parent) (node_for self.now.epochs.nodes name) }
    {
        let number = self.tree.number_of(name);
        let node = self.tree.nodes.node(number)?;
        Some(node.parent)
    }

    /// The renaming that opened a kept epoch, or `None` for the topmost one. It takes no memory, and
    /// costs a comparison of names for each halving of the nodes.
    pub fn renaming_of(&self, name: EpochName) -> Option<&Renaming>
        requires kept { IsTrue (is_kept self.now.epochs.top self.now.epochs.nodes name) }
        ensures renaming { option_copied result ≡ option_map (λ node. node.renaming) (node_for self.now.epochs.nodes name) }
    {
        let number = self.tree.number_of(name);
        let node = self.tree.nodes.node(number)?;
        Some(&node.renaming)
    }

    /// The number of epochs, the topmost one among them.
    pub fn count(&self) -> u64
        ensures count { result ≡ suc (length self.now.epochs.nodes) }
        ensures tree { IsTree self.now.epochs }
    {
        self.tree.nodes.count() as u64 + 1
    }

    /// The number of former identifiers of all nodes.
    pub fn former_total(&self) -> u64
        ensures former_total { result ≡ former_sum self.now.epochs.nodes }
    {
        self.total
    }

    /// The same again, with the same marks.
    pub fn copy(&self) -> Result<Epochs, AllocError>
        ensures epochs { IfOk result (λ copy. copy.epochs ≡ self.now.epochs) }
        ensures marks { IfOk result (λ copy. copy.marks ≡ self.now.marks) }
    {
        Ok(Epochs {
            tree: self.tree.copy()?,
            maxima: self.maxima.clone()?,
            marks: self.marks.clone()?,
            total: self.total,
        })
    }
}
