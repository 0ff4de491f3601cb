//! Marks of epochs, by their numbers.

ghost use Rattle.std.specs.Prelude.{◌≡◌, ◌<◌, ◌≤◌, ◌+◌, ◌-◌, suc, true, IsTrue, length, take, count_by, nat_lt, slice_set, List, if◌then◌else◌};
ghost use Rattle.rls_ident.specs.declared.epoch_name.EpochName.{EpochName};
ghost use Rattle.rls_epoch.specs.Links.{up_at};
ghost use Rattle.rls_epoch.specs.Marks.{has_mark, mark_count, AreMarked, AreReached, AreSpread};
ghost use Rattle.rls_epoch.specs.Seen.{nodes_of};
ghost use Rattle.rls_ident.specs.EpochNames.{is_of_member};
ghost use Rattle.rls_rename.specs.Tree.{greatest_within, is_kept};

use crate::mark::{Mark, mark_epoch, mark_of};
use crate::nodes::Nodes;
use crate::tree::Tree;
use rls_ident::{EpochName, Vector, rely};

impl Tree {
    // Marks each epoch that is at least the greatest one within the vector.
    pub(crate) fn mark_reached(&self, marks: &mut [Mark], v: &Vector)
        requires members { (e : EpochName) → IsTrue (is_kept self.now.nodes.top (nodes_of self.now.nodes.placed) e) → IsTrue (is_of_member (length v.now) e) }
        requires whole { length marks.old ≡ suc (length self.now.nodes.placed) }
        ensures reached { AreReached self.now.nodes.top self.now.nodes.placed marks.old marks.new (greatest_within self.now.nodes.top (nodes_of self.now.nodes.placed) v.now) }
    {
        rely!(let _count = self.nodes.count());
        let mut rest = self.order.as_slice();
        while let Some((place, lesser)) = rest.split_last() {
            let name = self.nodes.name_of(*place);
            mark_epoch(marks, *place + 1);
            if name.within(v) {
                return;
            }
            rest = lesser;
        }
        mark_epoch(marks, 0);
    }
}

impl Nodes {
    // Marks each epoch that lies between marked ones, so that they are connected, and answers the number
    // of the topmost of them. It goes up from all marked epochs, the latest first, until they meet.
    pub(crate) fn spread(&self, marks: &mut [Mark]) -> usize
        requires whole { length marks.old ≡ suc (length self.now.placed) }
        requires some { 0 < mark_count marks.old }
        ensures within { result ≤ length self.now.placed }
        ensures spread { (e : EpochName) (es : List EpochName) → AreMarked self.now.top self.now.placed marks.old e es → AreSpread self.now.top self.now.placed marks.new result e es }
    {
        let mut wanted = count(marks);
        let mut number = self.count();
        while wanted > 1 {
            wanted -= self.mark_up(marks, number);
            number -= 1;
        }
        last_marked(marks, number)
    }

    // Marks the parent of a marked epoch, and answers 1 if it was marked already, else 0.
    fn mark_up(&self, marks: &mut [Mark], number: usize) -> usize
        requires some { 0 < number }
        requires within { number ≤ length self.now.placed }
        requires whole { length marks.old ≡ suc (length self.now.placed) }
        requires earlier { up_at self.now.placed (number - 1) < number }
        ensures marks { marks.new ≡ (if has_mark marks.old number then slice_set marks.old (up_at self.now.placed (number - 1)) 1 else marks.old) }
        ensures most { result ≤ 1 }
        ensures fewer { mark_count (take number marks.new) + result ≡ mark_count (take (suc number) marks.old) }
    {
        if !mark_of(marks, number).is_marked() {
            return 0;
        }
        let up = self.up_of(number - 1);
        let was = mark_of(marks, up).is_marked();
        mark_epoch(marks, up);
        usize::from(was)
    }
}

// How many are marked.
fn count(marks: &[Mark]) -> usize
    ensures count { result ≡ count_by (λ m. nat_lt 0 m) marks.now }
{
    marks.iter().filter(|mark| mark.is_marked()).count()
}

// The greatest number up to this one that is marked.
fn last_marked(marks: &[Mark], number: usize) -> usize
    requires within { number < length marks.now }
    requires some { 0 < mark_count (take (suc number) marks.now) }
    ensures within { result ≤ number }
    ensures marked { has_mark marks.now result ≡ true }
{
    let mut last = number;
    while !mark_of(marks, last).is_marked() {
        last -= 1;
    }
    last
}
