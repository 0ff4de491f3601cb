//! What is retained of a tree.
//! Why: docs/DECISIONS.md, 13.

ghost use Rattle.std.specs.Prelude.{◌≡◌, ◌<◌, ◌≤◌, ◌^◌, suc, ◌++◌, length, sum_by, IfOk, IsTrue};
ghost use Rattle.rls_ident.specs.declared.epoch_name.EpochName.{EpochName};
ghost use Rattle.rls_ident.specs.EpochNames.{is_of_member};
ghost use Rattle.rls_ident.specs.Lists.{IsIn};
ghost use Rattle.rls_rename.specs.Connected.{spanned, spanned_renamings};
ghost use Rattle.rls_rename.specs.Keeping.{reached};
ghost use Rattle.rls_rename.specs.Tree.{greatest, is_kept};
ghost use Rattle.rls_epoch.specs.Links.{epoch_at};
ghost use Rattle.rls_epoch.specs.Marks.{AreNamed};
ghost use Rattle.rls_epoch.specs.Seen.{former_sum, nodes_of};

use crate::mark::Mark;
use crate::tree::Tree;
use rls_ident::{EpochName, Vector, rely};
use std::alloc::AllocError;

/// The smallest connected part of a tree that holds what is needed.
#[derive(Drop)]
pub struct Retained {
    /// Its epochs, in increasing order: the topmost of them is the first.
    pub names: Vec<EpochName>,
    /// The number of former identifiers of the others.
    pub former: u64,
}

impl Tree {
    // What is retained if these epochs are needed beside the greatest and those that are at least the
    // greatest one within the vector.
    pub(crate) fn retained_part(
        &self,
        stable: &Vector,
        marked: &[EpochName],
    ) -> Result<Retained, AllocError>
        requires members { (e : EpochName) → IsTrue (is_kept self.now.nodes.top (nodes_of self.now.nodes.placed) e) → IsTrue (is_of_member (length stable.now) e) }
        requires marked { (e : EpochName) → IsIn e marked.now → IsTrue (is_kept self.now.nodes.top (nodes_of self.now.nodes.placed) e) }
        requires total { former_sum (nodes_of self.now.nodes.placed) < 2 ^ 64 }
        ensures names { IfOk result (λ part. part.names.items ≡ spanned self.now.nodes.top (nodes_of self.now.nodes.placed) (greatest self.now.nodes.top (nodes_of self.now.nodes.placed)) (reached (record { top = self.now.nodes.top; nodes = nodes_of self.now.nodes.placed }) stable.now ++ marked.now)) }
        ensures former { IfOk result (λ part. part.former ≡ sum_by (λ R. length R.former) (spanned_renamings (nodes_of self.now.nodes.placed) (greatest self.now.nodes.top (nodes_of self.now.nodes.placed)) (reached (record { top = self.now.nodes.top; nodes = nodes_of self.now.nodes.placed }) stable.now ++ marked.now))) }
    {
        rely!(let _count = self.nodes.count());
        let mut marks = self.marks_for(marked)?;
        let number = self.number_needed(marks.as_mut_slice(), stable);
        let first = self.nodes.epoch_of(number);
        let names = self.list_kept(first, marks.as_slice())?;
        let former = self.nodes.former_kept(marks.as_slice());
        Ok(Retained { names, former })
    }

    // The marks of these epochs alone.
    fn marks_for(&self, marked: &[EpochName]) -> Result<Vec<Mark>, AllocError>
        requires marked { (e : EpochName) → IsIn e marked.now → IsTrue (is_kept self.now.nodes.top (nodes_of self.now.nodes.placed) e) }
        ensures whole { IfOk result (λ marks. length marks.items ≡ suc (length self.now.nodes.placed)) }
        ensures named { IfOk result (λ marks. AreNamed self.now.nodes.top self.now.nodes.placed marks.items marked.now) }
    {
        let mut marks = vec![in self.nodes.allocator(); Mark::none(); self.nodes.count() + 1]?;
        let mut number = 0;
        for name in marked {
            number = self.number_near(*name, number);
            marks[number] = Mark::plain();
        }
        Ok(marks)
    }

    // The number of a kept epoch, which isn't searched if it is the one that is told.
    fn number_near(&self, name: EpochName, number: usize) -> usize
        requires kept { IsTrue (is_kept self.now.nodes.top (nodes_of self.now.nodes.placed) name) }
        requires within { number ≤ length self.now.nodes.placed }
        ensures epoch { epoch_at self.now.nodes.top self.now.nodes.placed result ≡ name }
        ensures within { result ≤ length self.now.nodes.placed }
    {
        if self.nodes.epoch_of(number).same(&name) {
            return number;
        }
        self.number_of(name)
    }
}
