//! Edits that are recorded as steps.

ghost use Rattle.std.specs.Prelude.{◌≡◌, ◌+◌, None, IfOk, OnOk, OnErr, IsErrOf};
ghost use Rattle.rls_ident.specs.declared.epoch_name.EpochName.{EpochName};
ghost use Rattle.rls_model.specs.declared.edit.Edit.TheVariants.{Delete};
ghost use Rattle.rls_seen.specs.Edits.{edit_fault_over, edited, made_over};
ghost use Rattle.rls_seen.specs.Seen.{own_count, greatest_over};
ghost use Rattle.rls_steps.specs.Grounds.{over, recorded_on};
ghost use Rattle.rls_steps.specs.Recorded.{IsInsertion, IsRecorded};

use super::Steps;
use crate::changing::{delete, insert};
use rls_ops::Op;
use rls_replica::{Edit, PastError, Replica};

impl Steps {
    /// An insertion of so many characters, which makes this operation, where everything is in the greatest epoch.
    pub(crate) fn insert(
        &mut self,
        replica: &mut Replica,
        edit: &Edit,
        op: &Op,
        count: usize,
    ) -> Result<u32, PastError>
        requires greatest { self.old.epoch ≡ greatest_over replica.old }
        requires insertion { IsInsertion edit.now count }
        requires fits { edit_fault_over replica.old edit.now ≡ None }
        requires op { op.now ≡ made_over replica.old edit.now }
        ensures kept { (e : EpochName) → IsErrOf result (PastError.Dropped e) → ⊥ }
        ensures seq { IfOk result (λ n. n ≡ own_count replica.old + 1) }
        ensures after { OnOk result (replica.new ≡ edited replica.old edit.now) }
        ensures recorded { OnOk result (IsRecorded edit.now replica.old self.old replica.new self.new) }
        ensures exact { OnOk result (self.new ≡ recorded_on over replica.old edit.now self.old) }
        ensures err { OnErr result (replica.new ≡ replica.old) }
        ensures stays { OnErr result (self.new ≡ self.old) }
        ensures epochs { replica.new.epochs ≡ replica.old.epochs }
    {
        let seq = insert(
            replica,
            &mut self.names,
            &mut self.next,
            &mut self.past,
            self.group,
            edit,
            op,
            count,
        )?;
        self.future.clear();
        Ok(seq)
    }

    /// A deletion, which makes this operation, where everything is in the greatest epoch.
    pub(crate) fn delete(
        &mut self,
        replica: &mut Replica,
        op: &Op,
        at: u64,
        count: u64,
    ) -> Result<u32, PastError>
        requires greatest { self.old.epoch ≡ greatest_over replica.old }
        requires fits { edit_fault_over replica.old (Delete at count) ≡ None }
        requires op { op.now ≡ made_over replica.old (Delete at count) }
        ensures kept { (e : EpochName) → IsErrOf result (PastError.Dropped e) → ⊥ }
        ensures seq { IfOk result (λ n. n ≡ own_count replica.old + 1) }
        ensures after { OnOk result (replica.new ≡ edited replica.old (Delete at count)) }
        ensures recorded { OnOk result (IsRecorded (Delete at count) replica.old self.old replica.new self.new) }
        ensures exact { OnOk result (self.new ≡ recorded_on over replica.old (Delete at count) self.old) }
        ensures err { OnErr result (replica.new ≡ replica.old) }
        ensures stays { OnErr result (self.new ≡ self.old) }
        ensures epochs { replica.new.epochs ≡ replica.old.epochs }
    {
        let seq = delete(
            replica,
            &mut self.names,
            &mut self.next,
            &mut self.past,
            self.group,
            op,
            at,
            count,
        )?;
        self.future.clear();
        Ok(seq)
    }
}
