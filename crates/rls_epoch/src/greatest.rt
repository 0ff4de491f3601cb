//! The greatest epoch, by the order of the epochs.

ghost use Rattle.std.specs.Prelude.{◌≡◌, length, IsTrue};
ghost use Rattle.rls_ident.specs.declared.epoch_name.EpochName.{EpochName};
ghost use Rattle.rls_ident.specs.EpochNames.{is_of_member};
ghost use Rattle.rls_rename.specs.Tree.{is_kept, epoch_cmp, greatest, greatest_within};
ghost use Rattle.rls_epoch.specs.Maxima.{AreMaxima};
ghost use Rattle.rls_epoch.specs.Seen.{nodes_of};

use crate::maxima::{first_of, last_counted};
use crate::tree::Tree;
use rls_ident::{EpochName, Vector, rely};

impl Tree {
    // The greatest epoch.
    pub(crate) fn greatest(&self) -> EpochName
        ensures greatest { result ≡ greatest self.now.nodes.top (nodes_of self.now.nodes.placed) }
    {
        rely!(let _count = self.nodes.count());
        match self.order.split_last() {
            None => self.nodes.epoch_of(0),
            Some((place, _)) => self.nodes.name_of(*place),
        }
    }

    // The greatest epoch within the vector, or the topmost one if none is. It looks at each member
    // that has opened a kept epoch.
    pub(crate) fn greatest_in(&self, maxima: &[usize], v: &Vector) -> EpochName
        requires maxima { AreMaxima (epoch_cmp (nodes_of self.now.nodes.placed)) self.now.nodes.top self.now.nodes.placed maxima.now }
        requires members { (e : EpochName) → IsTrue (is_kept self.now.nodes.top (nodes_of self.now.nodes.placed) e) → IsTrue (is_of_member (length v.now) e) }
        ensures greatest { result ≡ greatest_within self.now.nodes.top (nodes_of self.now.nodes.placed) v.now }
    {
        rely!(let _count = self.nodes.count());
        let (mut rest, mut number) = (self.by_name.len(), 0);
        while rest > 0 {
            let last = self.name_by_name(rest - 1);
            let found = self.greatest_up_to(maxima, last_counted(last, v));
            number = self.nodes.greater(number, found);
            rest = self.names_below(first_of(last));
        }
        self.nodes.epoch_of(number)
    }
}
