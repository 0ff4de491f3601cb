//! What is kept of a tree. The marks of the kept epochs give their new places.

ghost use Rattle.std.specs.Prelude.{◌≡◌, ◌<◌, ◌≤◌, ◌+◌, ◌-◌, ◌^◌, ℕ, suc, ◌∷◌, ◌++◌, Some, IfOk, length, drop, slice_get, slice_index, if◌then◌else◌, IsTrue, List};
ghost use Rattle.rls_ident.specs.declared.epoch_name.EpochName.{EpochName};
ghost use Rattle.rls_ident.specs.EpochNames.{is_of_member};
ghost use Rattle.rls_ident.specs.Lists.{IsIn};
ghost use Rattle.rls_rename.specs.Keeping.{reached};
ghost use Rattle.rls_rename.specs.Tree.{greatest, is_kept};
ghost use Rattle.rls_epoch.specs.declared.placed.Placed.{Placed};
ghost use Rattle.rls_epoch.specs.Links.{epoch_at};
ghost use Rattle.rls_epoch.specs.Marks.{AreNamed, AreNumbered, numbered, kept_placed, kept_places, kept_names, kept_sum};
ghost use Rattle.rls_epoch.specs.Seen.{former_sum, nodes_of};

use crate::jumps::renew_jumps;
use crate::mark::{Mark, mark_of};
use crate::nodes::Nodes;
use crate::placed::Placed;
use crate::tree::Tree;
use rls_ident::{EpochName, Vector, rely};
use std::alloc::AllocError;

// Gives the marked epochs their new places. The first of them comes to be the topmost one.
fn number_marks(marks: &mut [Mark])
    ensures numbered { marks.new ≡ numbered 0 marks.old }
{
    let mut count = 0;
    for i in 0..marks.len() {
        if !mark_of(marks, i).is_marked() {
            continue;
        }
        marks[i] = Mark::of_number(count);
        count += 1;
    }
}

impl Tree {
    // Marks what is needed, gives it its new places, and answers the number of the topmost epoch of it.
    pub(crate) fn number_needed(&self, marks: &mut [Mark], v: &Vector) -> usize
        requires members { (e : EpochName) → IsTrue (is_kept self.now.nodes.top (nodes_of self.now.nodes.placed) e) → IsTrue (is_of_member (length v.now) e) }
        requires whole { length marks.old ≡ suc (length self.now.nodes.placed) }
        ensures within { result ≤ length self.now.nodes.placed }
        ensures needed { (es : List EpochName) → AreNamed self.now.nodes.top self.now.nodes.placed marks.old es → AreNumbered self.now.nodes.top self.now.nodes.placed marks.new result (greatest self.now.nodes.top (nodes_of self.now.nodes.placed)) (reached (record { top = self.now.nodes.top; nodes = nodes_of self.now.nodes.placed }) v.now ++ es) }
    {
        rely!(let _count = self.nodes.count());
        self.mark_reached(marks, v);
        let number = self.nodes.spread(marks);
        number_marks(marks);
        number
    }

    // The epochs whose marks have new places, in increasing order, after the topmost one.
    pub(crate) fn list_kept(
        &self,
        first: EpochName,
        marks: &[Mark],
    ) -> Result<Vec<EpochName>, AllocError>
        requires whole { length marks.now ≡ suc (length self.now.nodes.placed) }
        ensures names { IfOk result (λ names. names.items ≡ first ∷ kept_names self.now.nodes.placed marks.now self.now.order.items) }
    {
        rely!(let _count = self.nodes.count());
        let mut names = Vec::new(self.nodes.allocator());
        names.push(first)?;
        for place in &self.order {
            if !mark_of(marks, *place + 1).has_place() {
                continue;
            }
            names.push(self.nodes.name_of(*place))?;
        }
        Ok(names)
    }
}

// Keeps the nodes whose marks have new places.
fn keep_nodes(nodes: &mut Vec<Placed>, marks: &[Mark])
    requires whole { length marks.now ≡ suc (length nodes.old.items) }
    requires parents { (k : ℕ) (p : Placed) → slice_get nodes.old.items k ≡ Some p → p.up ≤ k }
    requires marked { (k : ℕ) (p : Placed) → slice_get nodes.old.items k ≡ Some p → 1 < slice_index marks.now (suc k) → 0 < slice_index marks.now p.up }
    ensures kept { nodes.new.items ≡ kept_placed marks.now (drop 1 marks.now) nodes.old.items }
{
    let mut count = 0;
    for i in 0..nodes.len() {
        if !mark_of(marks, i + 1).has_place() {
            continue;
        }
        nodes[i].up = mark_of(marks, nodes[i].up).new_number();
        nodes.swap(count, i);
        count += 1;
    }
    nodes.truncate(count);
}

// Puts the new places of these nodes, which their marks give, in place of the old ones, and drops the
// nodes that have none.
pub(crate) fn keep_places(places: &mut Vec<usize>, marks: &[Mark])
    requires within { (k : ℕ) → IsIn k places.old.items → suc k < length marks.now }
    ensures kept { places.new.items ≡ kept_places marks.now places.old.items }
{
    rely!(let _count = marks.len());
    let mut count = 0;
    for i in 0..places.len() {
        let Some(place) = mark_of(marks, places[i] + 1).new_place() else {
            continue;
        };
        places[count] = place;
        count += 1;
    }
    places.truncate(count);
}

impl Nodes {
    // Keeps the part that is marked, whose marks have their new places, and of which the epoch with this
    // number is the topmost.
    pub(crate) fn keep(&mut self, number: usize, marks: &[Mark])
        requires within { number ≤ length self.old.placed }
        requires whole { length marks.now ≡ suc (length self.old.placed) }
        requires numbered { (e : EpochName) × (es : List EpochName) × AreNumbered self.old.top self.old.placed marks.now number e es }
        ensures top { self.new.top ≡ epoch_at self.old.top self.old.placed number }
        ensures placed { self.new.placed ≡ kept_placed marks.now (drop 1 marks.now) self.old.placed }
    {
        rely!(let _count = self.count());
        self.top = self.epoch_of(number);
        keep_nodes(&mut self.list, marks);
        renew_jumps(&mut self.jumps, &self.list);
        self.known.clear();
    }

    // The number of former identifiers of the nodes whose marks have new places.
    pub(crate) fn former_kept(&self, marks: &[Mark]) -> u64
        requires whole { length marks.now ≡ suc (length self.now.placed) }
        requires total { former_sum (nodes_of self.now.placed) < 2 ^ 64 }
        ensures former { result ≡ kept_sum (drop 1 marks.now) self.now.placed }
    {
        let mut former = 0;
        for i in 0..self.count() {
            if !mark_of(marks, i + 1).has_place() {
                continue;
            }
            former += self.at(i).renaming.total();
        }
        former
    }
}
