//! What a replica drops, and its numbers and parts.
//! Why: CHOICES.md, 193.

ghost use Rattle.std.specs.Prelude.{◌≡◌, ◌<◌, length, map, IfOk, IsTrue};
ghost use Rattle.rls_ident.specs.declared.epoch_name.EpochName.{EpochName};
ghost use Rattle.rls_ident.specs.Lists.{IsIn};
ghost use Rattle.rls_rename.specs.Tree.{is_kept};
ghost use Rattle.rls_epoch.specs.Seen.{is_marked};
ghost use Rattle.rls_ops.specs.declared.op.Op.{Op};
ghost use Rattle.rls_ops.specs.Rows.{missing_for};
ghost use Rattle.rls_model.specs.Parts.{parts, epoch_parts, text_runs};
ghost use Rattle.rls_model.specs.Receiving.{State};
ghost use Rattle.rls_model.specs.Retained.{counts};
ghost use Rattle.rls_seen.specs.Seen.{members, unstable_over, vector};
ghost use Rattle.rls_seen.specs.Kept.{marked_over, retained_over, dropped, counts_over, parts_over, kept_operations, kept_epochs, kept_former, other_rows, left_below};
ghost use Rattle.rls_seen.specs.Stands.{StandsFor};
ghost use Rattle.rls_replica.specs.KeptJust.{KeepsJust};

use crate::replica::Replica;
use rls_doc::Document;
use rls_epoch::{Epochs, Retained};
use rls_ident::{EpochName, Vector};
use rls_log::Log;
use rls_model::{Counts, EpochParts, Members, Parts, Rows, Stems, TextRuns};
use rls_ops::Ops;
use rls_parts::{epoch_parts, left_members, other_rows, text_runs, waiting};
use std::alloc::AllocError;

/// What a replica keeps in memory beside its text and what waits.
#[derive(Clone, Copy, Debug, PartialEq, Eq)]
pub struct Kept {
    /// The accepted operations that are kept.
    pub operations: u64,
    /// The epochs that are kept, the topmost among them.
    pub epochs: u64,
    /// The former identifiers of the kept epochs but the topmost.
    pub former: u64,
}

impl Replica {
    /// Drops the stable operations, and every epoch that isn't retained. No history or waiting operation that it stands for
    /// changes by this, and so no answer does: only the epochs that it still names are fewer. It takes no memory, and goes over
    /// the kept operations once and over the kept epochs a few times.
    pub fn drop_stable(&mut self)
        ensures after { self.new ≡ dropped self.old }

        // What is counted stays the same, and just as many operations and epochs are kept then.
        ensures counts { counts_over self.new ≡ counts_over self.old }
        ensures kept { KeepsJust self.new (counts_over self.old) }

        // For every history and waiting operations that the replica stands for.
        ensures stands { (t : State) → StandsFor self.old t → StandsFor self.new t × KeepsJust self.new (counts t) }
    {
        self.gone = None;
        self.known = None;
        mark_unstable(&mut self.epochs, &self.log, self.acks.stable());
        self.epochs.keep(self.acks.stable());
        self.log.drop_at_most(self.acks.stable());
        self.hints.set(None);
    }

    /// How much is kept. It takes no memory.
    pub fn kept(&self) -> Kept
        ensures operations { result.operations ≡ kept_operations self.now }
        ensures epochs { result.epochs ≡ kept_epochs self.now }
        ensures former { result.former ≡ kept_former self.now }
    {
        Kept {
            operations: self.log.len() as u64,
            epochs: self.epochs.count(),
            former: self.epochs.former_total(),
        }
    }

    /// The numbers of the replica, whether or not anything was dropped. It goes over the kept operations once and over the kept
    /// epochs a few times.
    pub fn counts(&self) -> Result<Counts, AllocError>
        ensures counts { IfOk result (λ c. c ≡ counts_over self.now) }

        // For every history and waiting operations that the replica stands for.
        ensures stands { IfOk result (λ c. (t : State) → StandsFor self.now t → c ≡ counts t) }
    {
        let (unstable, retained) = self.unstable_and_retained()?;
        Ok(Counts {
            total: self.document.total(),
            runs: self.document.run_count(),
            held: self.held.len(),
            unstable,
            epochs: retained.names.len() as u64,
            former: retained.former,
        })
    }

    /// The parts of the replica, whether or not anything was dropped. They are copies: it costs the memory that they take.
    pub fn parts(&self) -> Result<Parts, AllocError>
        ensures parts { IfOk result (λ p. p ≡ parts_over self.now) }

        // For every history and waiting operations that the replica stands for.
        ensures stands { IfOk result (λ p. (t : State) → StandsFor self.now t → p ≡ parts t) }
    {
        let members = self.members();
        let (vector, rows, stems, left) = self.copy_numbers(members)?;
        let (epochs, text, log, held) = self.copy_contents()?;
        Ok(Parts {
            group: self.group,
            members,
            me: self.me(),
            vector,
            rows,
            stems,
            epochs,
            text,
            log,
            held,
            left,
        })
    }

    // The parts that are numbers: the vector, the rows of the others, the stems, and who has left. There are so many members.
    fn copy_numbers(&self, count: u32) -> Result<(Vector, Rows, Stems, Members), AllocError>
        requires members { count ≡ members self.now }
        ensures vector { IfOk result (λ all. all.0 ≡ vector self.now) }
        ensures rows { IfOk result (λ all. all.1 ≡ other_rows self.now.acks count) }
        ensures stems { IfOk result (λ all. all.2 ≡ self.now.stems) }
        ensures left { IfOk result (λ all. all.3 ≡ left_below self.now.acks count) }
    {
        let vector = self.acks.mine().copy()?;
        let rows = other_rows(self.alloc, &self.acks, count)?;
        let stems = self.stems.to_stems()?;
        let left = left_members(self.alloc, &self.acks, count)?;
        Ok((vector, rows, stems, left))
    }

    // The other parts: the epochs, the text, the unstable operations, and those that wait.
    fn copy_contents(&self) -> Result<(EpochParts, TextRuns, Log, Ops), AllocError>
        ensures epochs { IfOk result (λ all. all.0 ≡ epoch_parts self.now.epochs.nodes (retained_over self.now)) }
        ensures text { IfOk result (λ all. all.1 ≡ text_runs self.now.text) }
        ensures log { IfOk result (λ all. all.2 ≡ unstable_over self.now) }
        ensures held { IfOk result (λ all. all.3 ≡ self.now.waiting) }
    {
        let (_, retained) = self.unstable_and_retained()?;
        let epochs = epoch_parts(self.alloc, &self.epochs, &retained.names)?;
        let text = text_runs(self.alloc, &self.document)?;
        let log = self.log.missing(self.acks.stable())?;
        let held = waiting(self.alloc, &self.held)?;
        Ok((epochs, text, log, held))
    }

    // How many operations are unstable, and the epochs that must stay.
    pub(crate) fn unstable_and_retained(&self) -> Result<(u64, Retained), AllocError>
        ensures unstable { IfOk result (λ r. r.0 ≡ length (marked_over self.now)) }
        ensures names { IfOk result (λ r. r.1.names.items ≡ retained_over self.now) }
        ensures former { IfOk result (λ r. r.1.former ≡ (counts_over self.now).former) }
    {
        let marked = self.marked()?;
        let retained = self.epochs.retained(self.acks.stable(), &marked)?;
        Ok((marked.len() as u64, retained))
    }

    // The epochs of the unstable operations, in the order of these.
    fn marked(&self) -> Result<Vec<EpochName>, AllocError>
        ensures marked { IfOk result (λ names. names.items ≡ marked_over self.now) }
    {
        let mut names = Vec::new(self.alloc);
        for i in 0..self.log.len() {
            let head = self.log.head(i);
            if head.is_covered(self.acks.stable()) {
                continue;
            }
            names.push(head.epoch)?;
        }
        Ok(names)
    }
}

// Marks the epochs of the operations that a vector doesn't cover, and no others.
fn mark_unstable(epochs: &mut Epochs, log: &Log, stable: &Vector)
    requires kept { (o : Op) → IsIn o (missing_for stable.now log.now) → IsTrue (is_kept epochs.old.epochs.top epochs.old.epochs.nodes o.epoch) }
    ensures epochs { epochs.new.epochs ≡ epochs.old.epochs }
    ensures marks { (e : EpochName) → is_marked epochs.new.marks e ≡ is_marked (map (λ o. o.epoch) (missing_for stable.now log.now)) e }
{
    epochs.clear_marks();
    for i in 0..log.len() {
        let head = log.head(i);
        if head.is_covered(stable) {
            continue;
        }
        epochs.mark(head.epoch);
    }
}
